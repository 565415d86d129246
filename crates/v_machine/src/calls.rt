//! The step that is a call.

ghost use Rattle.std.specs.Prelude.{◌≡◌, ◌≤◌, ◌-◌, true, false, Some};
ghost use Rattle.vk_base.specs.Calls.{Effect, call_step};
ghost use Rattle.v_machine.specs.Apply.{noted_by_call, most};
ghost use Rattle.v_machine.specs.Kept.{IsKept, IsAt, kernel_in};
ghost use Rattle.v_machine.specs.Rules.{Accepts, Answers, Counts, is_access, is_load, seen_by};

pub mod access;
pub mod caller;
pub mod exiting;
pub mod forwarding;
pub mod held;
pub mod loads;
pub mod lookups;
pub mod moves;
pub mod names;
pub mod own;
pub mod replies;
pub mod response;
pub mod sending;

use crate::calls::exiting::exit;
use crate::calls::forwarding::forward;
use crate::calls::loads::load;
use crate::calls::lookups::get_pid;
use crate::calls::moves::{MoveRequest, move_from, move_to};
use crate::calls::names::set_pid;
use crate::calls::own::{caller_refusal, receive, receive_segment, store_bytes};
use crate::calls::replies::{SegmentReply, reply, reply_segment};
use crate::calls::response::{Response, observation};
use crate::calls::sending::send;
use crate::refusal::ApplyRefusal;
use crate::tables::Store;
use crate::tables::put::{find, proc};
use std::alloc::Global;
use vk_base::limits::NOTED_BYTES;
use vk_base::{Observation, Pid, Registration};
use vk_brief::{BriefCall, CallView};

/// Call, and how many bytes are noted with those that it notes.
#[inline(always)]
pub fn call(
    store: &mut Store,
    noted: &mut u64,
    alloc: Global,
    pid: Pid,
    call: &CallView,
) -> Result<Option<Observation>, ApplyRefusal>
    requires kept { IsKept store.old }
    requires low { noted.old ≤ most }
    ensures answers { Answers (call_step (kernel_in store.old) pid call.now)
        (noted_by_call call.now (call_step (kernel_in store.old) pid call.now)) (most - noted.old) store.old store.new result }
    ensures counts { Counts (noted_by_call call.now (call_step (kernel_in store.old) pid call.now)) noted.old noted.new result }
{
    let Some(at) = find(store, pid) else {
        return Err(ApplyRefusal::NotAllowed);
    };
    if let Some(why) = caller_refusal(proc(store, at)) {
        return observation(pid, call, Response::Refused { why });
    }
    let (brief, _) = call.parts();
    if let BriefCall::Load { start, count } = *brief {
        return load(store, at, pid, start, count);
    }
    let response = accept(store, NOTED_BYTES - *noted, alloc, at, pid, call)?;
    *noted += noted_by_call(call, response);
    // The large answer is made only where there is one.
    if let Response::Begun = response {
        return Ok(None);
    }
    observation(pid, call, response)
}

/// A call of a process that may make one, but for a Load. At most so many more bytes may be noted.
fn accept(
    store: &mut Store,
    room: u64,
    alloc: Global,
    at: usize,
    pid: Pid,
    call: &CallView,
) -> Result<Response, ApplyRefusal>
    requires kept { IsKept store.old }
    requires here { IsAt store.old pid at }
    requires no_load { is_load call.now ≡ false }
    ensures { Accepts pid call.now room store.old store.new result }
{
    let (brief, bytes) = call.parts();
    match *brief {
        BriefCall::Send {
            target,
            ref message,
        } => send(store, alloc, at, pid, target, message),
        BriefCall::Receive => Ok(receive(store, at, pid)),
        BriefCall::ReceiveSegment { start, count } => Ok(receive_segment(
            store, at, pid, start, count,
        )),
        BriefCall::Reply { message, to } => Ok(reply(store, alloc, pid, message, to)),
        BriefCall::Forward { message, from, to } => forward(store, alloc, pid, message, from, to),
        BriefCall::ReplySegment { .. } | BriefCall::MoveTo { .. } | BriefCall::MoveFrom { .. } => {
            accept_access(store, room, alloc, at, pid, call)
        }
        BriefCall::SetPid {
            logical,
            pid: named,
            scope,
        } => {
            let name = Registration {
                logical,
                pid: named,
                scope,
            };
            set_pid(store, pid, name)
        }
        BriefCall::GetPid { logical, scope } => get_pid(store, alloc, at, pid, logical, scope),
        BriefCall::Store { start } => Ok(store_bytes(store, at, pid, start, bytes)),
        BriefCall::Exit => Ok(exit(store, at, pid)),
        BriefCall::Load { .. } => unreachable!(),
    }
}

/// Such a call that concerns the granted segment of another process.
fn accept_access(
    store: &mut Store,
    room: u64,
    alloc: Global,
    at: usize,
    pid: Pid,
    call: &CallView,
) -> Result<Response, ApplyRefusal>
    requires kept { IsKept store.old }
    requires here { IsAt store.old pid at }
    requires access { is_access call.now ≡ true }
    ensures { Accepts pid call.now room store.old store.new result }
{
    let (brief, _) = call.parts();
    match *brief {
        BriefCall::ReplySegment {
            message,
            to,
            dest,
            src,
            count,
        } => {
            let reply = SegmentReply {
                message,
                to,
                dest,
                src,
                count,
            };
            reply_segment(store, alloc, at, pid, reply)
        }
        BriefCall::MoveTo {
            partner,
            dest,
            src,
            count,
        } => {
            let asked = request(partner, dest, src, count);
            move_to(store, alloc, at, pid, asked, room)
        }
        BriefCall::MoveFrom {
            partner,
            dest,
            src,
            count,
        } => {
            let asked = request(partner, dest, src, count);
            move_from(store, alloc, at, pid, asked)
        }
        _ => unreachable!(),
    }
}

fn request(partner: Pid, dest: u32, src: u32, count: u32) -> MoveRequest
    ensures { result ≡ record { partner = partner; dest = dest; src = src; count = count } }
{
    MoveRequest {
        partner,
        dest,
        src,
        count,
    }
}

/// How many bytes a call notes that is answered so.
fn noted_by_call(call: &CallView, response: Response) -> u64
    ensures { (pid : Pid) (e : Effect) → e.seen ≡ seen_by pid call.now response → result ≡ noted_by_call call.now (Some e) }
{
    let (brief, _) = call.parts();
    match (brief, response) {
        (BriefCall::MoveTo { count, .. }, Response::Begun) => u64::from(*count),
        _ => 0,
    }
}
