//! The line of a frame, and the kinds of packets.

ghost use Rattle.std.specs.Prelude.{◌≡◌, ◌+◌, ◌≤◌, ◌++◌, ◌∷◌, length, slice_index};
ghost use Rattle.vk_base.specs.Packets.{Packet};
ghost use Rattle.vk_packet.specs.Spelling.{packet_bytes};
ghost use Rattle.vk_text.specs.declared.draft.TheConstants.{DRAFT_ROOM as ROOM};
ghost use Rattle.vk_report.specs.Report.{kind_text, destination_text, frame_place, frame_line, kind_of};

use crate::answer::draft_event;
use vk_base::limits::EVERY_STATION;
use vk_text::{Draft, add_number, draft_number};

/// What kind of packet a frame brings.
#[derive(Clone, Copy, Debug, PartialEq, Eq)]
pub enum PacketKind {
    Send,
    Reply,
    Pending,
    Negative,
    MoveData,
    MoveAck,
    MoveRequest,
    MoveBytes,
    MoveNegative,
    AskPid,
    TellPid,
}

/// The kinds, in the order of the bytes that packets begin with, from 1 on.
static KINDS: [PacketKind; 11] = [
    PacketKind::Send,
    PacketKind::Reply,
    PacketKind::Pending,
    PacketKind::Negative,
    PacketKind::MoveData,
    PacketKind::MoveAck,
    PacketKind::MoveRequest,
    PacketKind::MoveBytes,
    PacketKind::MoveNegative,
    PacketKind::AskPid,
    PacketKind::TellPid,
];

/// What is told of a frame that was emitted.
#[derive(Clone, Copy, Debug, PartialEq, Eq)]
pub struct Emitted {
    /// The station that it is for; 65,535 is all.
    pub destination: u16,
    pub kind: PacketKind,
    /// The bytes of the whole frame.
    pub length: u32,
}

/// The kind of a packet whose bytes begin with this one.
pub fn kind_of(first: u8) -> PacketKind
    requires { (p : Packet) × (first ≡ slice_index (packet_bytes p) 0) }
    ensures { (p : Packet) → first ≡ slice_index (packet_bytes p) 0 → result ≡ kind_of p }
{
    KINDS[first as usize - 1]
}

/// The kind's name in a report.
pub fn kind_word(kind: PacketKind) -> &'static [u8]
    ensures word { result.now ≡ kind_text kind }
    ensures few { length result.now ≤ 12 }
{
    match kind {
        PacketKind::Send => b"send",
        PacketKind::Reply => b"reply",
        PacketKind::Pending => b"pending",
        PacketKind::Negative => b"negative",
        PacketKind::MoveData => b"movedata",
        PacketKind::MoveAck => b"moveack",
        PacketKind::MoveRequest => b"moverequest",
        PacketKind::MoveBytes => b"movebytes",
        PacketKind::MoveNegative => b"movenegative",
        PacketKind::AskPid => b"askpid",
        PacketKind::TellPid => b"tellpid",
    }
}

/// ` DEST`
fn draft_destination(into: &mut Draft, destination: u16)
    requires { length into.old + 21 ≤ ROOM }
    ensures text { into.new ≡ into.old ++ 32 ∷ destination_text destination }
    ensures few { length into.new ≤ length into.old + 21 }
{
    if destination == EVERY_STATION {
        into.put(b" all");
    } else {
        draft_number(into, u64::from(destination));
    }
}

/// ` KIND`. Each word is of known length, so nothing is called for it.
#[inline(always)]
fn draft_kind(into: &mut Draft, kind: PacketKind)
    requires { length into.old + 13 ≤ ROOM }
    ensures text { into.new ≡ into.old ++ 32 ∷ kind_text kind }
    ensures few { length into.new ≤ length into.old + 13 }
{
    match kind {
        PacketKind::Send => into.put(b" send"),
        PacketKind::Reply => into.put(b" reply"),
        PacketKind::Pending => into.put(b" pending"),
        PacketKind::Negative => into.put(b" negative"),
        PacketKind::MoveData => into.put(b" movedata"),
        PacketKind::MoveAck => into.put(b" moveack"),
        PacketKind::MoveRequest => into.put(b" moverequest"),
        PacketKind::MoveBytes => into.put(b" movebytes"),
        PacketKind::MoveNegative => into.put(b" movenegative"),
        PacketKind::AskPid => into.put(b" askpid"),
        PacketKind::TellPid => into.put(b" tellpid"),
    }
}

/// `frame H:E.O`
#[inline(always)]
fn draft_frame_place(into: &mut Draft, host: u16, own: u64, output: u16)
    requires { length into.old + 70 ≤ ROOM }
    ensures text { into.new ≡ into.old ++ frame_place host own output }
    ensures few { length into.new ≤ length into.old + 70 }
{
    into.put(b"frame ");
    draft_event(into, host, own);
    into.byte(b'.');
    add_number(into, u64::from(output));
}

/// `frame H:E.O DEST KIND LENGTH`
#[inline(always)]
pub fn draft_frame_line(into: &mut Draft, host: u16, own: u64, output: u16, frame: Emitted)
    requires { length into.old + 130 ≤ ROOM }
    ensures text { into.new ≡ into.old ++ frame_line host own output frame }
    ensures few { length into.new ≤ length into.old + 130 }
{
    draft_frame_place(into, host, own, output);
    draft_destination(into, frame.destination);
    draft_kind(into, frame.kind);
    draft_number(into, u64::from(frame.length));
    into.byte(b'\n');
}
