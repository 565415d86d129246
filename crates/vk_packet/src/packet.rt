//! Packets and what they keep to.

ghost use Rattle.std.specs.Prelude.{◌≡◌, ◌≤◌};
ghost use Rattle.vk_packet.specs.Rules.{is_number, is_place, part_len, piece_len};

use vk_base::limits::{DATA_BYTES, MOVE_BYTES, SEGMENT_BYTES};
use vk_base::{Message, Pid};

/// A packet, whose part or bytes are lent. `number` counts the Sends of the process whose exchange the packet is of, `moving`
/// the moves of that exchange, `lookup` the lookups of the asker, each from 1. Numbers stand behind the first process, so that in the one
/// room of all packets no field lies across two of another: else a packet that is copied is read in other pieces than it was written in.
#[derive(Clone, Copy)]
pub enum PacketView<'a> {
    /// A message, and the first part of the segment that it lets its receiver read.
    Send {
        from: Pid,
        number: u64,
        to: Pid,
        message: Message,
        part: &'a [u8],
    },
    /// The reply to a Send, and at most 512 bytes for the place `dest` of the sender's memory.
    Reply {
        from: Pid,
        number: u64,
        to: Pid,
        message: Message,
        dest: u32,
        bytes: &'a [u8],
    },
    /// The Send is known, and has no reply yet.
    Pending {
        from: Pid,
        number: u64,
        to: Pid,
    },
    /// The process that has the message of the Send is not alive; it is told in the name of the target.
    Negative {
        from: Pid,
        number: u64,
        to: Pid,
    },
    /// Bytes of a move to `to`, of `total` in all, which starts at `dest`. These are the ones from `offset` on.
    MoveData {
        from: Pid,
        number: u64,
        to: Pid,
        moving: u64,
        dest: u32,
        total: u32,
        offset: u32,
        bytes: &'a [u8],
    },
    /// So many bytes of the move were received.
    MoveAck {
        from: Pid,
        number: u64,
        to: Pid,
        moving: u64,
        received: u32,
    },
    /// Asks for the bytes of a move from `to`, of `total` in all, which starts at `src`, from `offset` on.
    MoveRequest {
        from: Pid,
        number: u64,
        to: Pid,
        moving: u64,
        src: u32,
        total: u32,
        offset: u32,
    },
    /// Bytes that were asked for.
    MoveBytes {
        from: Pid,
        number: u64,
        to: Pid,
        moving: u64,
        total: u32,
        offset: u32,
        bytes: &'a [u8],
    },
    /// The process that the move concerns does not wait in that Send for a process of the mover's station.
    MoveNegative {
        from: Pid,
        number: u64,
        to: Pid,
        moving: u64,
    },
    /// Asks every station for the process that is registered under a logical id.
    AskPid {
        asker: Pid,
        lookup: u64,
        logical: u32,
    },
    /// It is `found`.
    TellPid {
        found: Pid,
        lookup: u64,
        asker: Pid,
    },
}

impl PacketView<'_> {
    ghost use Rattle.std.specs.Prelude.{◌≡◌};
    ghost use Rattle.std.specs.List.{list_all};
    ghost use Rattle.vk_packet.specs.Rules.{is_lawful, is_number, fits, numbers_of};
    ghost use Rattle.vk_packet.specs.Views.{value_of};

    /// Whether the packet keeps to the rules. Numbers, moves and lookups are 1 to 2^63 - 1. A Send brings the first bytes of the
    /// segment, at most 512, exactly where its message lets it be read; a Reply brings at most 512. A move has 1 to 65,536
    /// bytes; its packets start at multiples of 1,024 and bring what is left from there, at most 1,024.
    pub fn is_lawful(&self) -> bool
        ensures { result ≡ is_lawful (value_of self.now) }
    {
        self.has_numbers() && self.fits()
    }

    /// Whether its numbers of Sends, moves and lookups are such.
    fn has_numbers(&self) -> bool
        ensures { result ≡ list_all is_number (numbers_of (value_of self.now)) }
    {
        match *self {
            PacketView::Send { number, .. }
            | PacketView::Reply { number, .. }
            | PacketView::Pending { number, .. }
            | PacketView::Negative { number, .. } => is_number(number),
            PacketView::MoveData { number, moving, .. }
            | PacketView::MoveAck { number, moving, .. }
            | PacketView::MoveRequest { number, moving, .. }
            | PacketView::MoveBytes { number, moving, .. }
            | PacketView::MoveNegative { number, moving, .. } => is_number(number)
                && is_number(moving),
            PacketView::AskPid { lookup, .. } | PacketView::TellPid { lookup, .. } => is_number(
                lookup,
            ),
        }
    }

    /// Whether what it brings has its length and its place.
    fn fits(&self) -> bool
        ensures { result ≡ fits (value_of self.now) }
    {
        match *self {
            PacketView::Send { message, part, .. } => part.len() == part_len(&message),
            PacketView::Reply { bytes, .. } => bytes.len() <= SEGMENT_BYTES as usize,
            PacketView::MoveData {
                total,
                offset,
                bytes,
                ..
            }
            | PacketView::MoveBytes {
                total,
                offset,
                bytes,
                ..
            } => { is_place(total, offset) && bytes.len() == piece_len(total, offset) }
            PacketView::MoveAck { received, .. } => received <= MOVE_BYTES,
            PacketView::MoveRequest { total, offset, .. } => is_place(total, offset),
            PacketView::Pending { .. }
            | PacketView::Negative { .. }
            | PacketView::MoveNegative { .. }
            | PacketView::AskPid { .. }
            | PacketView::TellPid { .. } => true,
        }
    }
}

/// Whether this is a number of a Send, a move or a lookup.
fn is_number(number: u64) -> bool
    ensures { result ≡ is_number number }
{
    0 < number && number < 1 << 63
}

/// Whether a packet of a move of so many bytes may start at `offset`.
fn is_place(total: u32, offset: u32) -> bool
    ensures { result ≡ is_place total offset }
{
    0 < total && total <= MOVE_BYTES && offset % DATA_BYTES as u32 == 0 && offset < total
}

/// How many bytes a Send with this message brings of the segment.
fn part_len(message: &Message) -> usize
    ensures { result ≡ part_len message.now }
{
    let grants = message.grants();
    if grants.read {
        grants.range.len.min(SEGMENT_BYTES) as usize
    } else {
        0
    }
}

/// How many bytes of a move a packet has from `offset` on.
fn piece_len(total: u32, offset: u32) -> usize
    requires { offset ≤ total }
    ensures { result ≡ piece_len total offset }
{
    (total - offset).min(DATA_BYTES as u32) as usize
}
