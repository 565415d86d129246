//! Requests and replies of a pipe server, as messages.

ghost use Rattle.std.specs.Prelude.{◌≡◌};
ghost use Rattle.vk_pipe.specs.Requests.{is_close, is_read, is_request, is_write, message_for, read_of, reply_of};

use crate::serving::Verdict;
use crate::waiting::Read;
use vk_base::limits::SEGMENT_BYTES;
use vk_base::{Message, Pid};

/// Whether the message asks for a write, and grants it.
pub fn is_write(message: &Message) -> bool
    ensures { result ≡ is_write message.now }
{
    let grants = message.grants();
    let len = grants.range.len;
    message.0[1] == 7 && grants.read && 0 < len && len <= SEGMENT_BYTES
}

/// Whether the message asks for a read, and grants it.
fn is_read(message: &Message) -> bool
    ensures { result ≡ is_read message.now }
{
    let grants = message.grants();
    message.0[1] == 8 && grants.write && 0 < grants.range.len
}

/// Whether the message closes the pipe.
pub fn is_close(message: &Message) -> bool
    ensures { result ≡ is_close message.now }
{
    message.0[1] == 9
}

/// Whether the message asks for something that it grants.
pub fn is_request(message: &Message) -> bool
    ensures { result ≡ is_request message.now }
{
    is_write(message) || is_read(message) || is_close(message)
}

/// The read that the message of this process asks for.
pub fn read_of(from: Pid, message: &Message) -> Read
    ensures { result ≡ read_of from message.now }
{
    let range = message.grants().range;
    Read {
        from,
        start: range.start,
        len: range.len,
    }
}

/// The reply with this code and this number of bytes.
pub fn reply_of(code: u8, count: u32) -> Message
    ensures { result ≡ reply_of code count }
{
    let c = count.to_be_bytes();
    Message([
        0, code, 0, 0, c[0], c[1], c[2], c[3], 0, 0, 0, 0, 0, 0, 0, 0, 0, 0, 0, 0, 0, 0, 0, 0, 0,
        0, 0, 0, 0, 0, 0, 0,
    ])
}

/// The reply that says this.
pub fn message_for(verdict: Verdict) -> Message
    ensures { result ≡ message_for verdict }
{
    match verdict {
        Verdict::Written { count } => reply_of(0, count),
        Verdict::Closed => reply_of(0, 0),
        Verdict::Bad => reply_of(2, 0),
        Verdict::Full => reply_of(5, 0),
        Verdict::End => reply_of(6, 0),
        Verdict::Shut => reply_of(7, 0),
    }
}
