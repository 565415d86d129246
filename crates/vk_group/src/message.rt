//! Messages of helpers and of coordinators.

ghost use Rattle.std.specs.Prelude.{◌≡◌, ◌≤◌, length};
ghost use Rattle.vk_base.specs.declared.call.Call.TheVariants as calls;
ghost use Rattle.vk_base.specs.declared.limits.TheConstants.{MESSAGE_BYTES as MESSAGE};
ghost use Rattle.vk_group.specs.Messages.{message_in, ready_message, reply_of, result_message};
ghost use Rattle.vk_group.specs.declared.code.Code.TheVariants as codes;

use crate::code::Code;
use vk_base::limits::MESSAGE_BYTES;
use vk_base::{Answer, Call, Data, Message, Pid};

/// Byte 1 of a group Send.
pub const GROUP_SEND: u8 = 10;
/// Byte 1 of a request for a reply.
pub const GET_REPLY: u8 = 11;
/// Byte 1 of what a helper says that is ready for a job.
pub const READY: u8 = 12;
/// Byte 1 of a helper's report.
pub const RESULT: u8 = 13;

/// Asks for a job, whose message may be written to the helper's memory from 0 on.
pub fn ready_message() -> Message
    ensures { result ≡ ready_message }
{
    Message([
        2, READY, 0, 0, 0, 0, 0, 0, 0, 0, 0, 0, 0, 0, 0, 0, 0, 0, 0, 0, 0, 0, 0, 0, 0, 0, 0, 0, 0,
        0, 0, 32,
    ])
}

/// Reports that the member replied, by what then stands in the helper's memory from 0 on, or that its Send failed.
pub fn result_message(replied: bool) -> Message
    ensures { result ≡ result_message replied }
{
    let outcome = if replied { 0 } else { 1 };
    Message([
        1, RESULT, 0, outcome, 0, 0, 0, 0, 0, 0, 0, 0, 0, 0, 0, 0, 0, 0, 0, 0, 0, 0, 0, 0, 0, 0, 0,
        0, 0, 0, 0, 32,
    ])
}

/// The reply of this code, and of the member of this number where it hands over a reply, else 0.
pub fn reply_of(code: Code, member: u32) -> Message
    ensures { result ≡ reply_of code member }
{
    let code = code.number();
    let m = member.to_be_bytes();
    Message([
        0, code, 0, 0, m[0], m[1], m[2], m[3], 0, 0, 0, 0, 0, 0, 0, 0, 0, 0, 0, 0, 0, 0, 0, 0, 0,
        0, 0, 0, 0, 0, 0, 0,
    ])
}

/// The message that was loaded, where the bytes are as many as one has.
pub fn message_in(answer: &Answer) -> Option<Message>
    ensures { result ≡ message_in answer.now }
{
    let Answer::Loaded { bytes } = answer else {
        return None;
    };
    if bytes.as_slice().len() != MESSAGE_BYTES {
        return None;
    }
    let mut message = [0; MESSAGE_BYTES];
    message.copy_from_slice(bytes.as_slice());
    Some(Message(message))
}

/// The bytes of a message.
pub fn data_of(message: &Message) -> Data
    ensures { result ≡ message.now.0 }
{
    match Data::new(message.0.as_slice()) {
        Some(bytes) => bytes,
        None => unreachable!(),
    }
}

/// Puts a message at the beginning of the memory.
pub fn storing(message: &Message) -> Call
    ensures { result ≡ calls.Store 0 message.now.0 }
{
    let bytes = data_of(message);
    Call::Store { start: 0, bytes }
}

/// A reply of this code.
pub fn replying(code: Code, to: Pid) -> Call
    ensures { result ≡ calls.Reply (reply_of code 0) to }
{
    let message = reply_of(code, 0);
    Call::Reply { message, to }
}

/// A reply that brings the message at the beginning of the memory, of the member of this number.
pub fn bringing(member: u32, to: Pid, dest: u32) -> Call
    ensures { result ≡ calls.ReplySegment (reply_of codes.Done member) to dest 0 MESSAGE }
{
    Call::ReplySegment {
        message: reply_of(Code::Done, member),
        to,
        dest,
        src: 0,
        count: MESSAGE_BYTES as u32,
    }
}
