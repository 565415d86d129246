//! What bytes spell.

ghost use Rattle.std.specs.Prelude.{◌≡◌, true, Some, None, MatchOption, IfSome};
ghost use Rattle.std.specs.Option.{option_map};
ghost use Rattle.vk_packet.specs.Reading.{exchange_at, move_at, ended, send_of, reply_of, pending_of, negative_of, move_data_of, move_ack_of, move_request_of, move_bytes_of, move_negative_of, ask_pid_of, tell_pid_of, kind_of, fields_of, packet_of};
ghost use Rattle.vk_packet.specs.Rules.{is_lawful};
ghost use Rattle.vk_packet.specs.Views.{value_of};

use crate::packet::PacketView;
use vk_base::Pid;
use vk_wire::{next_message, next_pid, next_u8, next_u16, next_u32, next_u64};

/// What every packet of an exchange begins with, and the bytes behind it.
#[tactic(auto, unfolding(crate::specs::Reading::exchange_at))]
fn next_exchange(bytes: &[u8]) -> Option<(Pid, Pid, u64, &[u8])>
    ensures { MatchOption result (exchange_at bytes.now ≡ None) (λ r. exchange_at bytes.now ≡ Some (r.0, r.1, r.2, r.3.now)) }
{
    let (from, rest) = next_pid(bytes)?;
    let (to, rest) = next_pid(rest)?;
    let (number, rest) = next_u64(rest)?;
    Some((from, to, number, rest))
}

/// What every packet of a move begins with, and the bytes behind it.
#[tactic(auto, unfolding(crate::specs::Reading::move_at))]
fn next_move(bytes: &[u8]) -> Option<(Pid, Pid, u64, u64, &[u8])>
    ensures { MatchOption result (move_at bytes.now ≡ None) (λ r. move_at bytes.now ≡ Some (r.0, r.1, r.2, r.3, r.4.now)) }
{
    let (from, to, number, rest) = next_exchange(bytes)?;
    let (moving, rest) = next_u64(rest)?;
    Some((from, to, number, moving, rest))
}

/// The packet, where no byte is left.
fn ended<'a>(rest: &[u8], packet: PacketView<'a>) -> Option<PacketView<'a>>
    ensures { option_map value_of result ≡ ended rest.now (value_of packet.entry) }
{
    if rest.is_empty() { Some(packet) } else { None }
}

#[tactic(auto, unfolding(crate::specs::Reading::send_of))]
fn read_send(bytes: &[u8]) -> Option<PacketView<'_>>
    ensures { option_map value_of result ≡ send_of bytes.now }
{
    let (from, to, number, rest) = next_exchange(bytes)?;
    let (message, part) = next_message(rest)?;
    Some(PacketView::Send {
        from,
        to,
        number,
        message,
        part,
    })
}

#[tactic(auto, unfolding(crate::specs::Reading::reply_of))]
fn read_reply(bytes: &[u8]) -> Option<PacketView<'_>>
    ensures { option_map value_of result ≡ reply_of bytes.now }
{
    let (from, to, number, rest) = next_exchange(bytes)?;
    let (message, rest) = next_message(rest)?;
    let (dest, rest) = next_u32(rest)?;
    let (count, bytes) = next_u16(rest)?;
    if usize::from(count) != bytes.len() {
        return None;
    }
    Some(PacketView::Reply {
        from,
        to,
        number,
        message,
        dest,
        bytes,
    })
}

#[tactic(auto, unfolding(crate::specs::Reading::pending_of))]
fn read_pending(bytes: &[u8]) -> Option<PacketView<'_>>
    ensures { option_map value_of result ≡ pending_of bytes.now }
{
    let (from, to, number, rest) = next_exchange(bytes)?;
    ended(rest, PacketView::Pending { from, to, number })
}

#[tactic(auto, unfolding(crate::specs::Reading::negative_of))]
fn read_negative(bytes: &[u8]) -> Option<PacketView<'_>>
    ensures { option_map value_of result ≡ negative_of bytes.now }
{
    let (from, to, number, rest) = next_exchange(bytes)?;
    ended(rest, PacketView::Negative { from, to, number })
}

#[tactic(auto, unfolding(crate::specs::Reading::move_data_of))]
fn read_move_data(bytes: &[u8]) -> Option<PacketView<'_>>
    ensures { option_map value_of result ≡ move_data_of bytes.now }
{
    let (from, to, number, moving, rest) = next_move(bytes)?;
    let (dest, rest) = next_u32(rest)?;
    let (total, rest) = next_u32(rest)?;
    let (offset, bytes) = next_u32(rest)?;
    Some(PacketView::MoveData {
        from,
        to,
        number,
        moving,
        dest,
        total,
        offset,
        bytes,
    })
}

#[tactic(auto, unfolding(crate::specs::Reading::move_ack_of))]
fn read_move_ack(bytes: &[u8]) -> Option<PacketView<'_>>
    ensures { option_map value_of result ≡ move_ack_of bytes.now }
{
    let (from, to, number, moving, rest) = next_move(bytes)?;
    let (received, rest) = next_u32(rest)?;
    ended(
        rest,
        PacketView::MoveAck {
            from,
            to,
            number,
            moving,
            received,
        },
    )
}

#[tactic(auto, unfolding(crate::specs::Reading::move_request_of))]
fn read_move_request(bytes: &[u8]) -> Option<PacketView<'_>>
    ensures { option_map value_of result ≡ move_request_of bytes.now }
{
    let (from, to, number, moving, rest) = next_move(bytes)?;
    let (src, rest) = next_u32(rest)?;
    let (total, rest) = next_u32(rest)?;
    let (offset, rest) = next_u32(rest)?;
    ended(
        rest,
        PacketView::MoveRequest {
            from,
            to,
            number,
            moving,
            src,
            total,
            offset,
        },
    )
}

#[tactic(auto, unfolding(crate::specs::Reading::move_bytes_of))]
fn read_move_bytes(bytes: &[u8]) -> Option<PacketView<'_>>
    ensures { option_map value_of result ≡ move_bytes_of bytes.now }
{
    let (from, to, number, moving, rest) = next_move(bytes)?;
    let (total, rest) = next_u32(rest)?;
    let (offset, bytes) = next_u32(rest)?;
    Some(PacketView::MoveBytes {
        from,
        to,
        number,
        moving,
        total,
        offset,
        bytes,
    })
}

#[tactic(auto, unfolding(crate::specs::Reading::move_negative_of))]
fn read_move_negative(bytes: &[u8]) -> Option<PacketView<'_>>
    ensures { option_map value_of result ≡ move_negative_of bytes.now }
{
    let (from, to, number, moving, rest) = next_move(bytes)?;
    ended(
        rest,
        PacketView::MoveNegative {
            from,
            to,
            number,
            moving,
        },
    )
}

#[tactic(auto, unfolding(crate::specs::Reading::ask_pid_of))]
fn read_ask_pid(bytes: &[u8]) -> Option<PacketView<'_>>
    ensures { option_map value_of result ≡ ask_pid_of bytes.now }
{
    let (asker, rest) = next_pid(bytes)?;
    let (lookup, rest) = next_u64(rest)?;
    let (logical, rest) = next_u32(rest)?;
    ended(
        rest,
        PacketView::AskPid {
            asker,
            lookup,
            logical,
        },
    )
}

#[tactic(auto, unfolding(crate::specs::Reading::tell_pid_of))]
fn read_tell_pid(bytes: &[u8]) -> Option<PacketView<'_>>
    ensures { option_map value_of result ≡ tell_pid_of bytes.now }
{
    let (found, rest) = next_pid(bytes)?;
    let (asker, rest) = next_pid(rest)?;
    let (lookup, rest) = next_u64(rest)?;
    ended(
        rest,
        PacketView::TellPid {
            found,
            asker,
            lookup,
        },
    )
}

/// The packet of this kind whose fields the bytes spell.
#[tactic(auto, unfolding(crate::specs::Reading::kind_of))]
fn read_kind(kind: u8, bytes: &[u8]) -> Option<PacketView<'_>>
    ensures { option_map value_of result ≡ kind_of kind bytes.now }
{
    match kind {
        1 => read_send(bytes),
        2 => read_reply(bytes),
        3 => read_pending(bytes),
        4 => read_negative(bytes),
        5 => read_move_data(bytes),
        6 => read_move_ack(bytes),
        7 => read_move_request(bytes),
        8 => read_move_bytes(bytes),
        9 => read_move_negative(bytes),
        10 => read_ask_pid(bytes),
        11 => read_tell_pid(bytes),
        _ => None,
    }
}

/// The packet whose kind and fields the bytes spell, lawful or not.
#[tactic(auto, unfolding(crate::specs::Reading::fields_of))]
fn read_fields(bytes: &[u8]) -> Option<PacketView<'_>>
    ensures { option_map value_of result ≡ fields_of bytes.now }
{
    let (kind, rest) = next_u8(bytes)?;
    read_kind(kind, rest)
}

/// The packet that the bytes are. Its part or bytes are lent from them. `None` exactly where they are no packet that keeps to the
/// rules, also where bytes are left behind it. It is put into its callers, some of which need only to know which packet it is.
#[inline(always)]
#[tactic(auto, unfolding(crate::specs::Reading::packet_of))]
pub fn decode(bytes: &[u8]) -> Option<PacketView<'_>>
    ensures packet { option_map value_of result ≡ packet_of bytes.now }
    ensures lawful { IfSome result (λ p. is_lawful (value_of p) ≡ true) }
{
    let packet = read_fields(bytes)?;
    if packet.is_lawful() {
        Some(packet)
    } else {
        None
    }
}
