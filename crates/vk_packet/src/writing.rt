//! How a packet is spelled.

ghost use Rattle.std.specs.Prelude.{◌≡◌, ◌+◌, ◌<◌, ◌≤◌, ◌++◌, ◌∷◌, true, length};
ghost use Rattle.arrayvec.specs.ArrayVec.{array_vec_len};
ghost use Rattle.byteorder.specs.Endian.{big_bytes};
ghost use Rattle.vk_base.specs.Packets as packets;
ghost use Rattle.vk_packet.specs.Rules.{is_lawful};
ghost use Rattle.vk_packet.specs.Spelling.{exchange_bytes, move_bytes, packet_bytes};
ghost use Rattle.vk_packet.specs.Views.{is_of_bytes, value_of};
ghost use Rattle.vk_wire.specs.Fields.{pid_bytes};

use crate::draft::FrameDraft;
use crate::packet::PacketView;
use arrayvec::ArrayVec;
use vk_base::limits::{DATA_BYTES, FRAME_BYTES, HEADER_BYTES, SEGMENT_BYTES};
use vk_base::{Message, Pid};
use vk_wire::{PACKET_BYTES, bytes_of_pid, bytes_of_u16, bytes_of_u32, bytes_of_u64};

/// The exchange that a packet is of, and between whom it goes.
#[derive(Clone, Copy)]
struct Exchange {
    from: Pid,
    to: Pid,
    number: u64,
}

/// The move that a packet is of, and between whom it goes.
#[derive(Clone, Copy)]
struct Moving {
    from: Pid,
    to: Pid,
    number: u64,
    moving: u64,
}

/// Appends the packet, which keeps to the rules. Before it there are at most 32 bytes, a frame's header.
pub fn encode(packet: &PacketView, into: &mut ArrayVec<u8, FRAME_BYTES>)
    requires lawful { is_lawful (value_of packet.now) ≡ true }
    requires room { array_vec_len into.old ≤ HEADER_BYTES }
    ensures bytes { into.new.items ≡ into.old.items ++ packet_bytes (value_of packet.now) }
    ensures some { array_vec_len into.old < array_vec_len into.new }
    ensures few { array_vec_len into.new ≤ array_vec_len into.old + PACKET_BYTES }
{
    let mut draft = FrameDraft::new();
    write(packet, &mut draft);
    put(into, draft.as_slice());
}

/// Appends the bytes, for which there is room.
fn put(into: &mut ArrayVec<u8, FRAME_BYTES>, bytes: &[u8])
    requires { array_vec_len into.old + length bytes.now ≤ FRAME_BYTES }
    ensures { into.new.items ≡ into.old.items ++ bytes.now }
{
    match into.try_extend_from_slice(bytes) {
        Ok(()) => {}
        Err(_) => unreachable!(),
    }
}

/// Appends the packet, which keeps to the rules. Before it there are at most 32 bytes, a frame's header.
#[inline(always)]
pub fn write(packet: &PacketView, into: &mut FrameDraft)
    requires lawful { is_lawful (value_of packet.now) ≡ true }
    requires room { length into.old ≤ HEADER_BYTES }
    ensures bytes { into.new ≡ into.old ++ packet_bytes (value_of packet.now) }
    ensures some { length into.old < length into.new }
    ensures few { length into.new ≤ length into.old + PACKET_BYTES }
{
    match *packet {
        PacketView::Send {
            from,
            to,
            number,
            message,
            part,
        } => put_send(into, Exchange { from, to, number }, &message, part),
        PacketView::Reply {
            from,
            to,
            number,
            message,
            dest,
            bytes,
        } => put_reply(into, Exchange { from, to, number }, &message, dest, bytes),
        PacketView::Pending { from, to, number } => put_exchange(
            into,
            3,
            Exchange { from, to, number },
        ),
        PacketView::Negative { from, to, number } => put_exchange(
            into,
            4,
            Exchange { from, to, number },
        ),
        PacketView::MoveNegative {
            from,
            to,
            number,
            moving,
        } => put_move(
            into,
            9,
            Moving {
                from,
                to,
                number,
                moving,
            },
        ),
        PacketView::AskPid {
            asker,
            lookup,
            logical,
        } => put_ask_pid(into, asker, lookup, logical),
        PacketView::TellPid {
            found,
            asker,
            lookup,
        } => put_tell_pid(into, found, asker, lookup),
        _ => put_of_bytes(into, packet),
    }
}

/// Appends the packet, which is of bytes of a remote move.
#[inline(always)]
fn put_of_bytes(into: &mut FrameDraft, packet: &PacketView)
    requires lawful { is_lawful (value_of packet.now) ≡ true }
    requires of_bytes { is_of_bytes (value_of packet.now) ≡ true }
    requires room { length into.old ≤ HEADER_BYTES }
    ensures bytes { into.new ≡ into.old ++ packet_bytes (value_of packet.now) }
    ensures some { length into.old < length into.new }
    ensures few { length into.new ≤ length into.old + PACKET_BYTES }
{
    match *packet {
        PacketView::MoveData {
            from,
            to,
            number,
            moving,
            dest,
            total,
            offset,
            bytes,
        } => put_move_data(
            into,
            Moving {
                from,
                to,
                number,
                moving,
            },
            dest,
            total,
            offset,
            bytes,
        ),
        PacketView::MoveAck {
            from,
            to,
            number,
            moving,
            received,
        } => put_move_ack(
            into,
            Moving {
                from,
                to,
                number,
                moving,
            },
            received,
        ),
        PacketView::MoveRequest {
            from,
            to,
            number,
            moving,
            src,
            total,
            offset,
        } => put_move_request(
            into,
            Moving {
                from,
                to,
                number,
                moving,
            },
            src,
            total,
            offset,
        ),
        PacketView::MoveBytes {
            from,
            to,
            number,
            moving,
            total,
            offset,
            bytes,
        } => put_move_bytes(
            into,
            Moving {
                from,
                to,
                number,
                moving,
            },
            total,
            offset,
            bytes,
        ),
        _ => unreachable!(),
    }
}

/// Appends the kind and the pid that stands first.
#[inline(always)]
fn put_kind(into: &mut FrameDraft, kind: u8, first: Pid)
    requires { length into.old ≤ HEADER_BYTES }
    ensures bytes { into.new ≡ into.old ++ kind ∷ pid_bytes first }
    ensures few { length into.new ≡ length into.old + 5 }
{
    into.byte(kind);
    into.put(&bytes_of_pid(first));
}

/// Appends the kind, and what every packet of an exchange begins with.
#[inline(always)]
#[tactic(auto, unfolding(crate::specs::Spelling::exchange_bytes))]
fn put_exchange(into: &mut FrameDraft, kind: u8, of: Exchange)
    requires { length into.old ≤ HEADER_BYTES }
    ensures bytes { into.new ≡ into.old ++ kind ∷ exchange_bytes of.from of.to of.number }
    ensures few { length into.new ≡ length into.old + 17 }
{
    put_kind(into, kind, of.from);
    into.put(&bytes_of_pid(of.to));
    into.put(&bytes_of_u64(of.number));
}

/// Appends the kind, and what every packet of a move begins with.
#[inline(always)]
#[tactic(auto, unfolding(crate::specs::Spelling::move_bytes))]
fn put_move(into: &mut FrameDraft, kind: u8, of: Moving)
    requires { length into.old ≤ HEADER_BYTES }
    ensures bytes { into.new ≡ into.old ++ kind ∷ move_bytes of.from of.to of.number of.moving }
    ensures few { length into.new ≡ length into.old + 25 }
{
    let Moving {
        from,
        to,
        number,
        moving,
    } = of;
    put_exchange(into, kind, Exchange { from, to, number });
    into.put(&bytes_of_u64(moving));
}

/// Appends a message and the first part of its segment.
#[inline(always)]
fn put_send(into: &mut FrameDraft, of: Exchange, message: &Message, part: &[u8])
    requires part { length part.now ≤ SEGMENT_BYTES }
    requires room { length into.old ≤ HEADER_BYTES }
    ensures bytes { into.new ≡ into.old ++ packet_bytes (packets.Send of.from of.to of.number message.now part.now) }
    ensures few { length into.new ≤ length into.old + PACKET_BYTES }
{
    put_exchange(into, 1, of);
    into.put(&message.0);
    into.put_part(part);
}

/// Appends a reply and its bytes.
#[inline(always)]
fn put_reply(into: &mut FrameDraft, of: Exchange, message: &Message, dest: u32, bytes: &[u8])
    requires part { length bytes.now ≤ SEGMENT_BYTES }
    requires room { length into.old ≤ HEADER_BYTES }
    ensures bytes { into.new ≡ into.old ++ packet_bytes (packets.Reply of.from of.to of.number message.now dest bytes.now) }
    ensures few { length into.new ≤ length into.old + PACKET_BYTES }
{
    put_exchange(into, 2, of);
    into.put(&message.0);
    into.put(&bytes_of_u32(dest));
    into.put(&bytes_of_u16(bytes.len() as u16));
    into.put_part(bytes);
}

/// Appends bytes of a move to the sender.
#[inline(always)]
fn put_move_data(
    into: &mut FrameDraft,
    of: Moving,
    dest: u32,
    total: u32,
    offset: u32,
    bytes: &[u8],
)
    requires part { length bytes.now ≤ DATA_BYTES }
    requires room { length into.old ≤ HEADER_BYTES }
    ensures bytes { into.new ≡ into.old
        ++ packet_bytes (packets.MoveData of.from of.to of.number of.moving dest total offset bytes.now) }
    ensures few { length into.new ≤ length into.old + PACKET_BYTES }
{
    put_move(into, 5, of);
    into.put(&bytes_of_u32(dest));
    into.put(&bytes_of_u32(total));
    into.put(&bytes_of_u32(offset));
    into.put(bytes);
}

/// Appends how many bytes of a move were received.
#[inline(always)]
fn put_move_ack(into: &mut FrameDraft, of: Moving, received: u32)
    requires { length into.old ≤ HEADER_BYTES }
    ensures bytes { into.new ≡ into.old ++ packet_bytes (packets.MoveAck of.from of.to of.number of.moving received) }
    ensures few { length into.new ≤ length into.old + PACKET_BYTES }
{
    put_move(into, 6, of);
    into.put(&bytes_of_u32(received));
}

/// Appends the question for bytes of a move from the sender.
#[inline(always)]
fn put_move_request(into: &mut FrameDraft, of: Moving, src: u32, total: u32, offset: u32)
    requires { length into.old ≤ HEADER_BYTES }
    ensures bytes { into.new ≡ into.old
        ++ packet_bytes (packets.MoveRequest of.from of.to of.number of.moving src total offset) }
    ensures few { length into.new ≤ length into.old + PACKET_BYTES }
{
    put_move(into, 7, of);
    into.put(&bytes_of_u32(src));
    into.put(&bytes_of_u32(total));
    into.put(&bytes_of_u32(offset));
}

/// Appends bytes that were asked for.
#[inline(always)]
fn put_move_bytes(into: &mut FrameDraft, of: Moving, total: u32, offset: u32, bytes: &[u8])
    requires part { length bytes.now ≤ DATA_BYTES }
    requires room { length into.old ≤ HEADER_BYTES }
    ensures bytes { into.new ≡ into.old
        ++ packet_bytes (packets.MoveBytes of.from of.to of.number of.moving total offset bytes.now) }
    ensures few { length into.new ≤ length into.old + PACKET_BYTES }
{
    put_move(into, 8, of);
    into.put(&bytes_of_u32(total));
    into.put(&bytes_of_u32(offset));
    into.put(bytes);
}

/// Appends the question who is registered under a logical id.
#[inline(always)]
fn put_ask_pid(into: &mut FrameDraft, asker: Pid, lookup: u64, logical: u32)
    requires { length into.old ≤ HEADER_BYTES }
    ensures bytes { into.new ≡ into.old ++ packet_bytes (packets.AskPid asker lookup logical) }
    ensures few { length into.new ≤ length into.old + PACKET_BYTES }
{
    put_kind(into, 10, asker);
    into.put(&bytes_of_u64(lookup));
    into.put(&bytes_of_u32(logical));
}

/// Appends the answer who is.
#[inline(always)]
fn put_tell_pid(into: &mut FrameDraft, found: Pid, asker: Pid, lookup: u64)
    requires { length into.old ≤ HEADER_BYTES }
    ensures bytes { into.new ≡ into.old ++ packet_bytes (packets.TellPid found asker lookup) }
    ensures few { length into.new ≤ length into.old + PACKET_BYTES }
{
    put_kind(into, 11, found);
    into.put(&bytes_of_pid(asker));
    into.put(&bytes_of_u64(lookup));
}
