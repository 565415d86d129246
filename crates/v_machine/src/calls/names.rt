//! The names that stations have registered.

ghost use Rattle.std.specs.Prelude.{◌≡◌, ◌<◌, ◌≤◌, ◌++◌, ◌∷◌, [], not, nat_le, length, filter, find, position, option_map, vec_len, vec_capacity, Ok, OnOk, OnErr};
ghost use Rattle.std.specs.List.{IsDistinct};
ghost use Rattle.vk_base.specs.declared.kernel.Registration.{Registration as TheRegistration};
ghost use Rattle.vk_base.specs.Calls.{found_at_once};
ghost use Rattle.vk_base.specs.Kernel.{is_found_here};
ghost use Rattle.vk_base.specs.declared.limits.TheConstants.{NAMES};
ghost use Rattle.v_laws.specs.Sound.{same_logical};
ghost use Rattle.v_machine.specs.Kept.{IsKept, kernel_in};
ghost use Rattle.v_machine.specs.Names.{is_other, is_older, with_registered, answers_here};
ghost use Rattle.v_machine.specs.Rules.{Judges};
ghost use Rattle.v_machine.specs.Tables.{names_by};

use crate::calls::response::Response;
use crate::refusal::ApplyRefusal;
use crate::tables::Store;
use crate::tables::put::is_live;
use vk_base::limits::NAMES;
use vk_base::{Call, NoMemory, Pid, Refusal, Registration, Scope};

/// SetPid.
pub fn set_pid(store: &mut Store, pid: Pid, name: Registration) -> Result<Response, ApplyRefusal>
    requires { IsKept store.old }
    ensures { Judges pid (Call.SetPid name.logical name.pid name.scope) store.old store.new result }
{
    if pid.host != name.pid.host || !is_live(store, name.pid) {
        return Ok(Response::Refused {
            why: Refusal::NoProcess,
        });
    }
    let older = place_of(&store.names, name.pid.host, name.logical);
    if is_full(&store.names, older, name.pid.host, name.logical) {
        return Ok(Response::Refused {
            why: Refusal::NamesFull,
        });
    }
    register(&mut store.names, older, name)?;
    Ok(Response::Ok)
}

/// Where the name stands that the host's station has registered under the logical id.
fn place_of(names: &[Registration], host: u16, logical: u32) -> Option<usize>
    ensures { result ≡ position (is_older host logical) names.now }
{
    names.iter().position(|r| is_older(r, host, logical))
}

/// Whether the host's station has registered as many names as it can under other logical ids. It has not where the older name is one
/// of so few in all.
fn is_full(names: &[Registration], older: Option<usize>, host: u16, logical: u32) -> bool
    requires { older ≡ position (is_older host logical) names.now }
    ensures { result ≡ nat_le NAMES (length (filter (is_other host logical) names.now)) }
{
    if older.is_some() && names.len() <= NAMES {
        return false;
    }
    count_others(names, host, logical) >= NAMES
}

/// How many names the host's station has registered under other logical ids.
fn count_others(names: &[Registration], host: u16, logical: u32) -> usize
    ensures { result ≡ length (filter (is_other host logical) names.now) }
{
    names.iter().filter(|r| is_other(r, host, logical)).count()
}

fn is_other(registration: &Registration, host: u16, logical: u32) -> bool
    ensures { result ≡ is_other host logical registration.now }
{
    registration.pid.host == host && registration.logical != logical
}

/// Registers a process, in place of the older name where there is one. Where memory is wanting nothing changes.
fn register(
    names: &mut Vec<Registration>,
    older: Option<usize>,
    name: Registration,
) -> Result<(), NoMemory>
    requires older { older ≡ position (is_older name.pid.host name.logical) names.old.items }
    requires once { IsDistinct same_logical (names_by names.old.items name.pid.host) }
    ensures ok { OnOk result (names.new.items ≡ with_registered names.old.items name) }
    ensures err { OnErr result (names.new.items ≡ names.old.items) }
{
    names.reserve(1)?;
    take_out(names, older, name.pid.host, name.logical);
    push_name(names, name);
    Ok(())
}

/// Takes out the older name, where there is one.
fn take_out(names: &mut Vec<Registration>, older: Option<usize>, host: u16, logical: u32)
    requires older { older ≡ position (is_older host logical) names.old.items }
    requires once { IsDistinct same_logical (names_by names.old.items host) }
    ensures items { names.new.items ≡ filter (λ r. not (is_older host logical r)) names.old.items }
    ensures len { vec_len names.new ≤ vec_len names.old }
    ensures capacity { vec_capacity names.new ≡ vec_capacity names.old }
{
    if let Some(at) = older {
        let _older = names.remove(at);
    }
}

/// One more name, for which there is room.
fn push_name(names: &mut Vec<Registration>, name: Registration)
    requires { vec_len names.old < vec_capacity names.old }
    ensures { names.new.items ≡ names.old.items ++ name ∷ [] }
{
    if names.push(name).is_err() {
        unreachable!();
    }
}

fn is_older(registration: &Registration, host: u16, logical: u32) -> bool
    ensures { result ≡ is_older host logical registration.now }
{
    registration.pid.host == host && registration.logical == logical
}

/// The process that the caller's station finds under a logical id, where the lookup looks there.
pub fn found_at_once(store: &Store, pid: Pid, logical: u32, scope: Scope) -> Option<Pid>
    ensures { result ≡ found_at_once (kernel_in store.now) pid logical scope }
{
    match scope {
        Scope::Remote => None,
        _ => found_here(&store.names, pid.host, logical),
    }
}

fn found_here(names: &[Registration], host: u16, logical: u32) -> Option<Pid>
    ensures { result ≡ option_map (λ (r : TheRegistration). r.pid) (find (answers_here host logical) names.now) }
{
    let found = names.iter().find(|r| answers_here(r, host, logical))?;
    Some(found.pid)
}

fn answers_here(registration: &Registration, host: u16, logical: u32) -> bool
    ensures { result ≡ answers_here host logical registration.now }
{
    registration.pid.host == host
        && registration.logical == logical
        && is_found_here(registration.scope)
}

fn is_found_here(scope: Scope) -> bool
    ensures { result ≡ is_found_here scope }
{
    !matches!(scope, Scope::Remote)
}
