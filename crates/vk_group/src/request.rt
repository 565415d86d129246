//! What a coordinator is asked for.

ghost use Rattle.std.specs.Prelude.{◌≡◌};
ghost use Rattle.vk_group.specs.Messages.{lends, request_in, takes};

use crate::message::{GET_REPLY, GROUP_SEND, READY, RESULT};
use vk_base::Message;
use vk_base::limits::MESSAGE_BYTES;

/// A request, with the place in the sender's memory to which the bytes of its reply go.
#[derive(Clone, Copy)]
pub enum Request {
    /// A message for all members.
    GroupSend { dest: u32 },
    /// The next reply to it.
    GetReply { dest: u32 },
    /// A helper waits for a job.
    Ready { dest: u32 },
    /// A helper reports whether its member replied.
    Result { replied: bool },
    /// None of these.
    Bad,
}

/// Whether the receiver may read exactly as many bytes as a message has.
fn lends(message: &Message) -> bool
    ensures { result ≡ lends message.now }
{
    let grants = message.grants();
    grants.read && grants.range.len == MESSAGE_BYTES as u32
}

/// Whether it may write exactly as many.
fn takes(message: &Message) -> bool
    ensures { result ≡ takes message.now }
{
    let grants = message.grants();
    grants.write && grants.range.len == MESSAGE_BYTES as u32
}

/// What this message asks for, with which so many bytes came.
pub fn request_in(message: &Message, count: u32) -> Request
    ensures { result ≡ request_in message.now count }
{
    let kind = message.0[1];
    let outcome = message.0[3];
    let dest = message.grants().range.start;
    let whole = count == MESSAGE_BYTES as u32;
    if kind == GROUP_SEND && lends(message) && takes(message) && whole {
        Request::GroupSend { dest }
    } else if kind == GET_REPLY && takes(message) {
        Request::GetReply { dest }
    } else if kind == READY && takes(message) {
        Request::Ready { dest }
    } else if kind == RESULT && lends(message) && (outcome == 0 || outcome == 1) && whole {
        Request::Result {
            replied: outcome == 0,
        }
    } else {
        Request::Bad
    }
}
