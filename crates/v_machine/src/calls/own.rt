//! Calls: who may make one, and those that concern the caller alone.

ghost use Rattle.std.specs.Prelude.{◌≡◌, ◌∷◌, [], not, Some, None, Ok};
ghost use Rattle.vk_base.specs.Calls.{first_that_holds};
ghost use Rattle.vk_base.specs.Kernel.{is_ready};
ghost use Rattle.vk_base.specs.Ranges.{lies_in};
ghost use Rattle.vk_base.specs.Activities.{state_of};
ghost use Rattle.v_machine.specs.Kept.{IsKept, IsAt};
ghost use Rattle.v_machine.specs.Rules.{Judges};

use crate::calls::response::Response;
use crate::tables::Store;
use crate::tables::bytes::lies_in;
use crate::tables::proc::Proc;
use crate::tables::put::{put_activity, put_bytes, size_of};
use vk_base::{Activity, Call, Pid, Refusal, Waiting};

/// The process may make a call.
fn is_ready(activity: &Activity) -> bool
    ensures { result ≡ is_ready (state_of activity.now) }
{
    matches!(activity, Activity::Ready)
}

/// Why a process may make no call, where it may make none.
pub fn caller_refusal(proc: &Proc) -> Option<Refusal>
    ensures { result ≡ first_that_holds ((not proc.now.alive, Refusal.Dead)
        ∷ (not (is_ready (state_of proc.now.activity)), Refusal.Busy) ∷ []) }
{
    if !proc.alive {
        return Some(Refusal::Dead);
    }
    if !is_ready(&proc.activity) {
        return Some(Refusal::Busy);
    }
    None
}

/// Receive.
pub fn receive(store: &mut Store, at: usize, pid: Pid) -> Response
    requires kept { IsKept store.old }
    requires here { IsAt store.old pid at }
    ensures { Judges pid Call.Receive store.old store.new (Ok result) }
{
    let waiting = Waiting::Receive;
    put_activity(store, at, Activity::Blocked { waiting });
    Response::Begun
}

/// ReceiveSegment.
pub fn receive_segment(store: &mut Store, at: usize, pid: Pid, start: u32, count: u32) -> Response
    requires kept { IsKept store.old }
    requires here { IsAt store.old pid at }
    ensures { Judges pid (Call.ReceiveSegment start count) store.old store.new (Ok result) }
{
    if !lies_in(start, count, size_of(store, at)) {
        return Response::Refused {
            why: Refusal::BadRange,
        };
    }
    let waiting = Waiting::ReceiveSegment { start, count };
    put_activity(store, at, Activity::Blocked { waiting });
    Response::Begun
}

/// Store.
pub fn store_bytes(store: &mut Store, at: usize, pid: Pid, start: u32, bytes: &[u8]) -> Response
    requires kept { IsKept store.old }
    requires here { IsAt store.old pid at }
    ensures { Judges pid (Call.Store start bytes.now) store.old store.new (Ok result) }
{
    if put_bytes(store, at, start, bytes) {
        Response::Ok
    } else {
        Response::Refused {
            why: Refusal::BadRange,
        }
    }
}
