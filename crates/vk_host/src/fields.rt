//! That the fields of a call are numbers, pids, messages and bytes that code can hold.

ghost use Rattle.std.specs.Prelude.{◌<◌, ◌≤◌, ℕ, length, slice_index};
ghost use Rattle.vk_base.specs.declared.limits.TheConstants.{DATA_BYTES as BYTES};
ghost use Rattle.vk_base.specs.Messages.{IsMessage};
ghost use Rattle.vk_base.specs.Pids.{IsPid};
ghost use Rattle.vk_text.specs.Laws.{IsData, IsReadable};

use vk_base::{Message, Pid};
use vk_brief::{BriefCall, CallView};

/// Each field of the call is in its range. Changes nothing.
pub fn are_in_range(call: &CallView)
    ensures { IsReadable call.now }
{
    let (call, bytes) = call.parts();
    bytes_are(bytes);
    match call {
        BriefCall::Send { target, message } => {
            pid_is(target);
            message_is(message);
        }
        BriefCall::Receive | BriefCall::Exit => {}
        BriefCall::ReceiveSegment { start, count } | BriefCall::Load { start, count } => {
            let _numbers = (*start, *count);
        }
        BriefCall::Reply { message, to } => {
            message_is(message);
            pid_is(to);
        }
        BriefCall::ReplySegment {
            message,
            to,
            dest,
            src,
            count,
        } => {
            message_is(message);
            pid_is(to);
            let _numbers = (*dest, *src, *count);
        }
        BriefCall::Forward { message, from, to } => {
            message_is(message);
            pid_is(from);
            pid_is(to);
        }
        BriefCall::MoveTo {
            partner,
            dest,
            src,
            count,
        }
        | BriefCall::MoveFrom {
            partner,
            dest,
            src,
            count,
        } => {
            pid_is(partner);
            let _numbers = (*dest, *src, *count);
        }
        BriefCall::SetPid { logical, pid, .. } => {
            pid_is(pid);
            let _number = *logical;
        }
        BriefCall::GetPid { logical, .. } => {
            let _number = *logical;
        }
        BriefCall::Store { start } => {
            let _number = *start;
        }
    }
}

/// The pid's number has 16 bits. Changes nothing.
pub fn pid_is(pid: &Pid)
    ensures { IsPid pid.now }
{
    let _local = pid.local;
}

fn message_is(message: &Message)
    ensures { IsMessage message.now }
{
    let bytes: &[u8] = &message.0;
    are_bytes(bytes);
}

fn bytes_are(bytes: &[u8])
    requires { length bytes.now ≤ BYTES }
    ensures { IsData bytes.now }
{
    are_bytes(bytes);
}

fn are_bytes(_bytes: &[u8])
    ensures { (i : ℕ) → slice_index _bytes.now i < 256 }
{}
