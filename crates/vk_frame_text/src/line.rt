//! The lines of frames are written.

ghost use Rattle.std.specs.Prelude.{◌≡◌, ◌+◌, ◌≤◌, ◌++◌, ◌∷◌, [], true, decimal, length, OnOk, OnErr};
ghost use Rattle.vk_base.specs.Packets as packets;
ghost use Rattle.vk_packet.specs.Views.{is_of_bytes, value_of};
ghost use Rattle.vk_text.specs.Spelling.{pid_text, spaced};
ghost use Rattle.vk_text.specs.Texts.{shown};
ghost use Rattle.vk_text.specs.declared.draft.TheConstants.{DRAFT_ROOM as ROOM};
ghost use Rattle.vk_frame_text.specs.Frames.{frame_line, frame_text, packet_words, place_text};

use vk_base::{Message, NoMemory, Pid};
use vk_frame::Header;
use vk_packet::PacketView;
use vk_text::{
    DRAFT_ROOM, Draft, Text, add_number, draft_count, draft_message, draft_number, draft_pid, give,
};

/// The room that the line of a frame may want in a draft.
const FRAME_ROOM: usize = 300;

/// The exchange that a packet is of, and between whom it goes.
#[derive(Clone, Copy)]
struct Exchange {
    from: Pid,
    to: Pid,
    number: u64,
}

/// The move that a packet is of, and between whom it goes.
#[derive(Clone, Copy)]
struct Moving {
    from: Pid,
    to: Pid,
    number: u64,
    moving: u64,
}

/// Makes room in the draft for the line of a frame.
fn make_room(text: &mut Text) -> Result<(), NoMemory>
    ensures same { shown text.new ≡ shown text.old }
    ensures room { OnOk result (length text.new.draft + FRAME_ROOM ≤ ROOM) }
{
    if text.draft.len() > DRAFT_ROOM - FRAME_ROOM {
        return give(&mut text.bytes, &mut text.draft);
    }
    Ok(())
}

/// `H:E.O`
fn draft_place(into: &mut Draft, header: &Header)
    requires { length into.old + 62 ≤ ROOM }
    ensures text { into.new ≡ into.old ++ place_text header.now }
    ensures few { length into.new ≤ length into.old + 62 }
{
    add_number(into, u64::from(header.source));
    into.byte(b':');
    add_number(into, header.event);
    into.byte(b'.');
    add_number(into, u64::from(header.output));
}

/// The kind, behind a space that stands before it, and what every packet of an exchange has: ` KIND FROM TO NUMBER`.
fn draft_exchange(into: &mut Draft, kind: &[u8], of: Exchange)
    requires kind { length kind.now ≤ 14 }
    requires room { length into.old + 80 ≤ ROOM }
    ensures text { into.new ≡ spaced (into.old ++ kind.now) (pid_text of.from ∷ pid_text of.to ∷ decimal of.number ∷ []) }
    ensures few { length into.new ≤ length into.old + 60 }
{
    into.put(kind);
    draft_pid(into, of.from);
    draft_pid(into, of.to);
    draft_number(into, of.number);
}

/// The same of a move: ` KIND FROM TO NUMBER MOVE`.
fn draft_move(into: &mut Draft, kind: &[u8], of: Moving)
    requires kind { length kind.now ≤ 14 }
    requires room { length into.old + 110 ≤ ROOM }
    ensures text { into.new ≡ spaced (into.old ++ kind.now)
        (pid_text of.from ∷ pid_text of.to ∷ decimal of.number ∷ decimal of.moving ∷ []) }
    ensures few { length into.new ≤ length into.old + 81 }
{
    let Moving {
        from,
        to,
        number,
        moving,
    } = of;
    draft_exchange(into, kind, Exchange { from, to, number });
    draft_number(into, moving);
}

/// ` send FROM TO NUMBER M`
#[tactic(auto, unfolding(crate::specs::Frames::packet_words))]
fn draft_send(into: &mut Draft, of: Exchange, message: &Message)
    requires { length into.old + 180 ≤ ROOM }
    ensures text { into.new ≡ spaced into.old (packet_words (packets.Send of.from of.to of.number message.now [])) }
    ensures few { length into.new ≤ length into.old + 180 }
{
    draft_exchange(into, b" send", of);
    draft_message(into, message);
}

/// ` reply FROM TO NUMBER M DEST COUNT`
#[tactic(auto, unfolding(crate::specs::Frames::packet_words))]
fn draft_reply(into: &mut Draft, of: Exchange, message: &Message, dest: u32, bytes: &[u8])
    requires { length into.old + 180 ≤ ROOM }
    ensures text { into.new ≡ spaced into.old (packet_words (packets.Reply of.from of.to of.number message.now dest bytes.now)) }
    ensures few { length into.new ≤ length into.old + 180 }
{
    draft_exchange(into, b" reply", of);
    draft_message(into, message);
    draft_count(into, dest);
    draft_number(into, bytes.len() as u64);
}

/// ` movedata FROM TO NUMBER MOVE DEST TOTAL OFFSET`
#[tactic(auto, unfolding(crate::specs::Frames::packet_words))]
fn draft_move_data(into: &mut Draft, of: Moving, dest: u32, total: u32, offset: u32)
    requires { length into.old + 180 ≤ ROOM }
    ensures text { into.new ≡ spaced into.old
        (packet_words (packets.MoveData of.from of.to of.number of.moving dest total offset [])) }
    ensures few { length into.new ≤ length into.old + 180 }
{
    draft_move(into, b" movedata", of);
    draft_count(into, dest);
    draft_count(into, total);
    draft_count(into, offset);
}

/// ` moveack FROM TO NUMBER MOVE RECEIVED`
#[tactic(auto, unfolding(crate::specs::Frames::packet_words))]
fn draft_move_ack(into: &mut Draft, of: Moving, received: u32)
    requires { length into.old + 180 ≤ ROOM }
    ensures text { into.new ≡ spaced into.old (packet_words (packets.MoveAck of.from of.to of.number of.moving received)) }
    ensures few { length into.new ≤ length into.old + 180 }
{
    draft_move(into, b" moveack", of);
    draft_count(into, received);
}

/// ` moverequest FROM TO NUMBER MOVE SRC TOTAL OFFSET`
#[tactic(auto, unfolding(crate::specs::Frames::packet_words))]
fn draft_move_request(into: &mut Draft, of: Moving, src: u32, total: u32, offset: u32)
    requires { length into.old + 180 ≤ ROOM }
    ensures text { into.new ≡ spaced into.old
        (packet_words (packets.MoveRequest of.from of.to of.number of.moving src total offset)) }
    ensures few { length into.new ≤ length into.old + 180 }
{
    draft_move(into, b" moverequest", of);
    draft_count(into, src);
    draft_count(into, total);
    draft_count(into, offset);
}

/// ` movebytes FROM TO NUMBER MOVE TOTAL OFFSET`
#[tactic(auto, unfolding(crate::specs::Frames::packet_words))]
fn draft_move_bytes(into: &mut Draft, of: Moving, total: u32, offset: u32)
    requires { length into.old + 180 ≤ ROOM }
    ensures text { into.new ≡ spaced into.old (packet_words (packets.MoveBytes of.from of.to of.number of.moving total offset [])) }
    ensures few { length into.new ≤ length into.old + 180 }
{
    draft_move(into, b" movebytes", of);
    draft_count(into, total);
    draft_count(into, offset);
}

/// ` askpid ASKER LOOKUP LOGICAL`
#[tactic(auto, unfolding(crate::specs::Frames::packet_words))]
fn draft_ask_pid(into: &mut Draft, asker: Pid, lookup: u64, logical: u32)
    requires { length into.old + 180 ≤ ROOM }
    ensures text { into.new ≡ spaced into.old (packet_words (packets.AskPid asker lookup logical)) }
    ensures few { length into.new ≤ length into.old + 180 }
{
    into.put(b" askpid");
    draft_pid(into, asker);
    draft_number(into, lookup);
    draft_count(into, logical);
}

/// The words of a packet of bytes of a remote move, each behind a space.
#[tactic(auto, unfolding(crate::specs::Frames::packet_words))]
fn draft_of_bytes(into: &mut Draft, packet: &PacketView)
    requires of_bytes { is_of_bytes (value_of packet.now) ≡ true }
    requires room { length into.old + 180 ≤ ROOM }
    ensures text { into.new ≡ spaced into.old (packet_words (value_of packet.now)) }
    ensures few { length into.new ≤ length into.old + 180 }
{
    match *packet {
        PacketView::MoveData {
            from,
            to,
            number,
            moving,
            dest,
            total,
            offset,
            ..
        } => {
            let of = Moving {
                from,
                to,
                number,
                moving,
            };
            draft_move_data(into, of, dest, total, offset)
        }
        PacketView::MoveAck {
            from,
            to,
            number,
            moving,
            received,
        } => {
            let of = Moving {
                from,
                to,
                number,
                moving,
            };
            draft_move_ack(into, of, received)
        }
        PacketView::MoveRequest {
            from,
            to,
            number,
            moving,
            src,
            total,
            offset,
        } => {
            let of = Moving {
                from,
                to,
                number,
                moving,
            };
            draft_move_request(into, of, src, total, offset)
        }
        PacketView::MoveBytes {
            from,
            to,
            number,
            moving,
            total,
            offset,
            ..
        } => {
            let of = Moving {
                from,
                to,
                number,
                moving,
            };
            draft_move_bytes(into, of, total, offset)
        }
        _ => unreachable!(),
    }
}

/// The words of a packet, each behind a space.
#[tactic(auto, unfolding(crate::specs::Frames::packet_words))]
fn draft_packet(into: &mut Draft, packet: &PacketView)
    requires { length into.old + 180 ≤ ROOM }
    ensures text { into.new ≡ spaced into.old (packet_words (value_of packet.now)) }
    ensures few { length into.new ≤ length into.old + 180 }
{
    match *packet {
        PacketView::Send {
            from,
            to,
            number,
            ref message,
            ..
        } => draft_send(into, Exchange { from, to, number }, message),
        PacketView::Reply {
            from,
            to,
            number,
            ref message,
            dest,
            bytes,
        } => draft_reply(into, Exchange { from, to, number }, message, dest, bytes),
        PacketView::Pending { from, to, number } => {
            draft_exchange(into, b" pending", Exchange { from, to, number })
        }
        PacketView::Negative { from, to, number } => {
            draft_exchange(into, b" negative", Exchange { from, to, number })
        }
        PacketView::MoveNegative {
            from,
            to,
            number,
            moving,
        } => {
            let of = Moving {
                from,
                to,
                number,
                moving,
            };
            draft_move(into, b" movenegative", of)
        }
        PacketView::AskPid {
            asker,
            lookup,
            logical,
        } => draft_ask_pid(into, asker, lookup, logical),
        PacketView::TellPid {
            found,
            asker,
            lookup,
        } => {
            let of = Exchange {
                from: found,
                to: asker,
                number: lookup,
            };
            draft_exchange(into, b" tellpid", of)
        }
        _ => draft_of_bytes(into, packet),
    }
}

/// `H:E.O STAMP LAMPORT KIND FIELD...`
fn draft_frame(into: &mut Draft, header: &Header, packet: &PacketView)
    requires { length into.old + 290 ≤ ROOM }
    ensures text { into.new ≡ into.old ++ frame_text header.now (value_of packet.now) }
    ensures few { length into.new ≤ length into.old + 290 }
{
    draft_place(into, header);
    draft_number(into, header.stamp);
    draft_number(into, header.number);
    draft_packet(into, packet);
}

/// Appends the line of a frame. A refusal changes nothing.
pub fn put_frame_line(text: &mut Text, header: &Header, packet: &PacketView) -> Result<(), NoMemory>
    ensures ok { OnOk result (shown text.new ≡ shown text.old ++ frame_line header.now (value_of packet.now)) }
    ensures err { OnErr result (shown text.new ≡ shown text.old) }
{
    make_room(text)?;
    draft_frame(&mut text.draft, header, packet);
    text.draft.byte(b'\n');
    Ok(())
}
