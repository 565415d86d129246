//! Requests and replies.

ghost use Rattle.std.specs.Prelude.{◌≡◌, ◌≤◌};
ghost use Rattle.vk_base.specs.Messages.{word_at};
ghost use Rattle.vk_values.specs.Requests.{message_of};
ghost use Rattle.vk_values.specs.declared.limits.TheConstants.{GET, PUT};

use crate::limits::{GET, PUT};
use vk_base::Message;

/// The number in the four bytes from this place on.
pub fn word_at(message: &Message, at: usize) -> u32
    requires { at ≤ 28 }
    ensures { result ≡ word_at message.now at }
{
    let bytes = &message.0;
    u32::from_be_bytes([bytes[at], bytes[at + 1], bytes[at + 2], bytes[at + 3]])
}

/// A message with this code, key and value.
pub fn reply_of(code: u8, key: u32, value: u32) -> Message
    ensures { result ≡ message_of code key value }
{
    let k = key.to_be_bytes();
    let v = value.to_be_bytes();
    Message([
        0, code, 0, 0, k[0], k[1], k[2], k[3], v[0], v[1], v[2], v[3], 0, 0, 0, 0, 0, 0, 0, 0, 0,
        0, 0, 0, 0, 0, 0, 0, 0, 0, 0, 0,
    ])
}

/// A request for the value of a key.
pub fn get_of(key: u32) -> Message
    ensures { result ≡ message_of GET key 0 }
{
    reply_of(GET, key, 0)
}

/// A request to keep a value under a key.
pub fn put_of(key: u32, value: u32) -> Message
    ensures { result ≡ message_of PUT key value }
{
    reply_of(PUT, key, value)
}
