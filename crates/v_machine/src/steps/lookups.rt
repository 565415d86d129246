//! Steps of lookups.

ghost use Rattle.std.specs.Prelude.{◌≡◌, ◌<◌, ◌&&◌, not, length, Some, option_copied};
ghost use Rattle.std.specs.List.{list_any};
ghost use Rattle.vk_base.specs.declared.pid.Pid.{Pid as ThePid};
ghost use Rattle.vk_base.specs.Kernel.{is_found_there};
ghost use Rattle.vk_base.specs.Pids.{same_pid, same_host};
ghost use Rattle.vk_base.specs.Steps.{hear_step, found_step, lost_step};
ghost use Rattle.v_machine.specs.Kept.{IsKept, kernel_in};
ghost use Rattle.v_machine.specs.Names.{tells_of};
ghost use Rattle.v_machine.specs.Places.{place_in, count_at};
ghost use Rattle.v_machine.specs.Rules.{GoesOrNot, Answers, quiet};

use crate::refusal::ApplyRefusal;
use crate::tables::Store;
use crate::tables::lookups::tell;
use crate::tables::put::{find, proc, put_activity};
use vk_base::{Lookup, Outcome, Pid, Refusal, Registration, Scope};

/// Hear. Where memory is wanting the tables stay.
pub fn hear(store: &mut Store, asker: Pid, number: u64, pid: Pid) -> Result<(), ApplyRefusal>
    requires { IsKept store.old }
    ensures { Answers (hear_step (kernel_in store.old) asker number pid) 0 0 store.old store.new (quiet result) }
{
    let Some(at) = find(store, asker) else {
        return Err(ApplyRefusal::NotAllowed);
    };
    let Some(lookup) = lookup_of(store, at, number) else {
        return Err(ApplyRefusal::NotAllowed);
    };
    if !hears(&store.names, asker, lookup.logical, pid) {
        return Err(ApplyRefusal::NotAllowed);
    }
    tell(&mut store.asked[at], number, pid)?;
    Ok(())
}

/// Whether the station of a process is another than the asker's, and tells it of the process under this logical id.
fn hears(names: &[Registration], asker: Pid, logical: u32, pid: Pid) -> bool
    ensures { result ≡ (not (same_host asker pid) && list_any (tells_of logical pid) names.now) }
{
    asker.host != pid.host && is_told(names, logical, pid)
}

/// Whether the station of a process tells others that it has registered the process under this logical id.
pub fn is_told(names: &[Registration], logical: u32, pid: Pid) -> bool
    ensures { result ≡ list_any (tells_of logical pid) names.now }
{
    names.iter().any(|r| tells_of(r, logical, pid))
}

fn tells_of(registration: &Registration, logical: u32, pid: Pid) -> bool
    ensures { result ≡ tells_of logical pid registration.now }
{
    registration.logical == logical && is_found_there(registration.scope) && registration.pid == pid
}

fn is_found_there(scope: Scope) -> bool
    ensures { result ≡ is_found_there scope }
{
    !matches!(scope, Scope::Local)
}

/// Found.
#[tactic(auto, unfolding(vk_base::specs::Steps::finding))]
pub fn found(store: &mut Store, asker: Pid, pid: Pid) -> Option<()>
    requires { IsKept store.old }
    ensures { GoesOrNot (found_step (kernel_in store.old) asker pid) store.old store.new result }
{
    let at = find(store, asker)?;
    let activity = proc(store, at).activity;
    if !activity.is_asking() {
        return None;
    }
    let lookup = lookup_of(store, at, lookups_of(store, at))?;
    if !is_candidate(lookup, pid) {
        return None;
    }
    put_activity(store, at, activity.ended(Outcome::Found { pid }));
    Some(())
}

/// How many lookups the process of this place has begun.
pub fn lookups_of(store: &Store, at: usize) -> u64
    requires { at < length store.now.asked.items }
    ensures { result ≡ count_at store.now.asked.items at }
{
    store.asked[at].count()
}

/// Whether a process was told for a lookup.
fn is_candidate(lookup: &Lookup, pid: Pid) -> bool
    ensures { result ≡ list_any (same_pid pid) lookup.now.candidates }
{
    lookup.candidates.as_slice().iter().any(|p| pid == *p)
}

/// Lost.
pub fn lost(store: &mut Store, asker: Pid) -> Option<()>
    requires { IsKept store.old }
    ensures { GoesOrNot (lost_step (kernel_in store.old) asker) store.old store.new result }
{
    let at = find(store, asker)?;
    let activity = proc(store, at).activity;
    if !activity.is_asking() {
        return None;
    }
    let why = Refusal::NotFound;
    put_activity(store, at, activity.ended(Outcome::Refused { why }));
    Some(())
}

/// A lookup of the process of this place.
pub fn lookup_of(store: &Store, at: usize, number: u64) -> Option<&Lookup>
    requires { at < length store.now.asked.items }
    ensures { (pid : ThePid) → place_in store.now.places pid ≡ Some at → (kernel_in store.now).lookups pid number ≡ option_copied result }
{
    store.asked[at].get(number)
}
