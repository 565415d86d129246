//! Lookups of names.

ghost use Rattle.std.specs.Prelude.{◌≡◌, ◌<◌, length, Some, Ok, OnOk, OnErr};
ghost use Rattle.vk_types.specs.Types.{Process};
ghost use Rattle.vk_base.specs.declared.pid.Pid.{Pid as ThePid};
ghost use Rattle.vk_base.specs.Calls.{is_local_scope, lookup_begun};
ghost use Rattle.v_machine.specs.Kept.{IsKept, IsAt, IsIndexed, kernel_in};
ghost use Rattle.v_machine.specs.Places.{place_in};
ghost use Rattle.v_machine.specs.Rules.{Judges, Stays};

use crate::calls::names::found_at_once;
use crate::calls::response::Response;
use crate::refusal::ApplyRefusal;
use crate::tables::Store;
use std::alloc::Global;
use vk_base::{Activity, Call, List, Lookup, NoMemory, Pid, Refusal, Scope, Waiting};

/// GetPid.
pub fn get_pid(
    store: &mut Store,
    alloc: Global,
    at: usize,
    pid: Pid,
    logical: u32,
    scope: Scope,
) -> Result<Response, ApplyRefusal>
    requires kept { IsKept store.old }
    requires here { IsAt store.old pid at }
    ensures { Judges pid (Call.GetPid logical scope) store.old store.new result }
{
    if let Some(found) = found_at_once(store, pid, logical, scope) {
        return Ok(Response::Found { pid: found });
    }
    if is_local(scope) {
        return Ok(Response::Refused {
            why: Refusal::NotFound,
        });
    }
    begin(store, alloc, at, logical, scope)?;
    Ok(Response::Begun)
}

fn is_local(scope: Scope) -> bool
    ensures { result ≡ is_local_scope scope }
{
    matches!(scope, Scope::Local)
}

/// The process of this place begins a lookup, and waits in it. Where memory is wanting the tables stay.
fn begin(
    store: &mut Store,
    alloc: Global,
    at: usize,
    logical: u32,
    scope: Scope,
) -> Result<(), NoMemory>
    requires indexed { IsIndexed store.old }
    requires procs { at < length store.old.procs.items }
    requires asked { at < length store.old.asked.items }
    ensures ok { OnOk result ((pid : ThePid) (p : Process) → place_in store.old.places pid ≡ Some at →
        (kernel_in store.old).procs pid ≡ Some p →
        kernel_in store.new ≡ lookup_begun (kernel_in store.old) pid p (Call.GetPid logical scope) logical) }
    ensures indexed { OnOk result (IsIndexed store.new) }
    ensures err { OnErr result (Stays store.old store.new) }
{
    let candidates = List::empty(alloc);
    store.asked[at].push(Lookup {
        logical,
        candidates,
    })?;
    let waiting = Waiting::GetPid { logical, scope };
    store.procs[at].activity = Activity::Blocked { waiting };
    Ok(())
}
