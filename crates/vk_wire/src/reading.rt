//! The field that stands first in the bytes, and the bytes behind it. `None` exactly where it is cut short, or is no pid.

ghost use Rattle.std.specs.Prelude.{◌≡◌, Some, None, MatchOption};
ghost use Rattle.vk_wire.specs.Fields.{number_at, pid_at, message_at};

use byteorder::{BigEndian, ByteOrder};
use vk_base::limits::MESSAGE_BYTES;
use vk_base::{Message, Pid};

/// A number of one byte.
#[tactic(auto, unfolding(crate::specs::Fields::number_at))]
pub fn next_u8(bytes: &[u8]) -> Option<(u8, &[u8])>
    ensures { MatchOption result (number_at 1 bytes.now ≡ None) (λ r. number_at 1 bytes.now ≡ Some (r.0, r.1.now)) }
{
    if bytes.is_empty() {
        return None;
    }
    let (_, rest) = bytes.split_at(1);
    Some((bytes[0], rest))
}

/// A number of two bytes.
#[tactic(auto, unfolding(crate::specs::Fields::number_at))]
pub fn next_u16(bytes: &[u8]) -> Option<(u16, &[u8])>
    ensures { MatchOption result (number_at 2 bytes.now ≡ None) (λ r. number_at 2 bytes.now ≡ Some (r.0, r.1.now)) }
{
    if bytes.len() < 2 {
        return None;
    }
    let (_, rest) = bytes.split_at(2);
    Some((BigEndian::read_u16(bytes), rest))
}

/// A number of four bytes.
#[tactic(auto, unfolding(crate::specs::Fields::number_at))]
pub fn next_u32(bytes: &[u8]) -> Option<(u32, &[u8])>
    ensures { MatchOption result (number_at 4 bytes.now ≡ None) (λ r. number_at 4 bytes.now ≡ Some (r.0, r.1.now)) }
{
    if bytes.len() < 4 {
        return None;
    }
    let (_, rest) = bytes.split_at(4);
    Some((BigEndian::read_u32(bytes), rest))
}

/// A number of eight bytes.
#[tactic(auto, unfolding(crate::specs::Fields::number_at))]
pub fn next_u64(bytes: &[u8]) -> Option<(u64, &[u8])>
    ensures { MatchOption result (number_at 8 bytes.now ≡ None) (λ r. number_at 8 bytes.now ≡ Some (r.0, r.1.now)) }
{
    if bytes.len() < 8 {
        return None;
    }
    let (_, rest) = bytes.split_at(8);
    Some((BigEndian::read_u64(bytes), rest))
}

/// A pid.
#[tactic(auto, unfolding(crate::specs::Fields::pid_at))]
pub fn next_pid(bytes: &[u8]) -> Option<(Pid, &[u8])>
    ensures { MatchOption result (pid_at bytes.now ≡ None) (λ r. pid_at bytes.now ≡ Some (r.0, r.1.now)) }
{
    let (host, rest) = next_u16(bytes)?;
    let (local, rest) = next_u16(rest)?;
    Some((Pid::new(host, local)?, rest))
}

/// A message.
#[tactic(auto, unfolding(crate::specs::Fields::message_at))]
pub fn next_message(bytes: &[u8]) -> Option<(Message, &[u8])>
    ensures { MatchOption result (message_at bytes.now ≡ None) (λ r. message_at bytes.now ≡ Some (r.0, r.1.now)) }
{
    if bytes.len() < MESSAGE_BYTES {
        return None;
    }
    let (front, rest) = bytes.split_at(MESSAGE_BYTES);
    let mut message = [0u8; MESSAGE_BYTES];
    message.copy_from_slice(front);
    Some((Message(message), rest))
}
