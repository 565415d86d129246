//! The packets of moves: the bytes of a memory, and the request for them.

ghost use Rattle.std.specs.Prelude.{◌≡◌, ◌≤◌, ◌<◌, ◌+◌, ◌-◌, ◌*◌, ◌/◌, ℕ, ◌++◌, ◌∷◌, [], true, ◌&&◌, length};
ghost use Rattle.vk_base.specs.declared.limits.TheConstants.{ROUND_PACKETS};
ghost use Rattle.vk_packet.specs.Rules.{is_number, is_place};
ghost use Rattle.vk_rules.specs.Rounds.{data_packet, data_packets, request_packet};
ghost use Rattle.vk_rules.specs.PacketOutcomes.{bytes_packet};
ghost use Rattle.vk_move.specs.Moved.{CanGoOn, asked_packets, going, round_by, round_from};
ghost use Rattle.vk_procs.specs.Seats.{seat_in};
ghost use Rattle.vk_stands.specs.Rules.{post_of, posted};

use crate::moves::{Subject, Transfer, WantedBytes};
use vk_base::limits::DATA_BYTES;
use vk_base::{Activity, Direction, Memory, Pid, Waiting};
use vk_packet::{Outbox, PacketView};
use vk_procs::{Procs, Seat};

/// The bytes of a packet are at most this many.
const PIECE_BYTES: u32 = DATA_BYTES as u32;

/// How many packets there are from `offset` on of a move of `total` bytes.
fn pieces(total: u32, offset: u32) -> u32
    requires { is_place total offset ≡ true }
    ensures count { result ≡ (total - offset + 1023) / DATA_BYTES }
    ensures inside { (i : ℕ) → i < result → offset + 1024 * i < total }
    ensures few { result ≤ ROUND_PACKETS }
{
    (total - offset + (PIECE_BYTES - 1)) / PIECE_BYTES
}

/// One packet of a move to its partner, from `offset` on.
fn post_data_piece(
    memory: &Memory,
    out: &mut Outbox,
    subject: Subject,
    transfer: Transfer,
    offset: u32,
)
    requires numbers { (is_number subject.name.exchange.number && is_number subject.name.number) ≡ true }
    requires place { is_place transfer.count offset ≡ true }
    requires inside { transfer.src + transfer.count ≤ length memory.now }
    requires room { length out.old.posts < out.old.room }
    ensures { out.new ≡ record out.old {
      posts = out.old.posts
          ++ post_of (data_packet subject.mover transfer.partner memory.now
          transfer.dest transfer.src transfer.count subject.name offset) ∷ [];
    } }
{
    let _below_2_32 = memory.size();
    let bytes = memory.bytes(
        transfer.src + offset,
        PIECE_BYTES.min(transfer.count - offset),
    );
    out.post(
        transfer.partner.host,
        &PacketView::MoveData {
            from: subject.mover,
            to: transfer.partner,
            number: subject.name.exchange.number,
            moving: subject.name.number,
            dest: transfer.dest,
            total: transfer.count,
            offset,
            bytes,
        },
    );
}

/// The bytes of a move to its partner, from `from` on.
fn post_data(memory: &Memory, out: &mut Outbox, subject: Subject, transfer: Transfer, from: u32)
    requires numbers { (is_number subject.name.exchange.number && is_number subject.name.number) ≡ true }
    requires place { is_place transfer.count from ≡ true }
    requires inside { transfer.src + transfer.count ≤ length memory.now }
    requires room { length out.old.posts + ROUND_PACKETS ≤ out.old.room }
    ensures { out.new ≡ posted out.old (data_packets subject.mover transfer.partner memory.now transfer.dest transfer.src
        transfer.count from subject.name) }
{
    let pieces = pieces(transfer.count, from);
    for piece in 0..pieces {
        post_data_piece(memory, out, subject, transfer, from + PIECE_BYTES * piece);
    }
}

/// The request for the bytes of a move from its partner, from `from` on.
fn post_request(out: &mut Outbox, subject: Subject, transfer: Transfer, from: u32)
    requires numbers { (is_number subject.name.exchange.number && is_number subject.name.number) ≡ true }
    requires place { is_place transfer.count from ≡ true }
    requires room { length out.old.posts < out.old.room }
    ensures { out.new ≡ posted out.old
        (request_packet subject.mover transfer.partner transfer.src transfer.count from subject.name ∷ []) }
{
    out.post(
        transfer.partner.host,
        &PacketView::MoveRequest {
            from: subject.mover,
            to: transfer.partner,
            number: subject.name.exchange.number,
            moving: subject.name.number,
            src: transfer.src,
            total: transfer.count,
            offset: from,
        },
    );
}

/// One packet of the bytes that a mover asked for, from `offset` on.
fn post_bytes_piece(
    memory: &Memory,
    out: &mut Outbox,
    subject: Subject,
    asked: WantedBytes,
    offset: u32,
)
    requires numbers { (is_number subject.name.exchange.number && is_number subject.name.number) ≡ true }
    requires place { is_place asked.total offset ≡ true }
    requires inside { asked.src + asked.total ≤ length memory.now }
    requires room { length out.old.posts < out.old.room }
    ensures { out.new ≡ record out.old {
      posts = out.old.posts
          ++ post_of (bytes_packet subject.name.exchange subject.mover subject.name.number asked.src asked.total memory.now offset) ∷ [];
    } }
{
    let _below_2_32 = memory.size();
    let name = subject.name;
    let bytes = memory.bytes(asked.src + offset, PIECE_BYTES.min(asked.total - offset));
    out.post(
        subject.mover.host,
        &PacketView::MoveBytes {
            from: name.exchange.sender,
            to: subject.mover,
            number: name.exchange.number,
            moving: name.number,
            total: asked.total,
            offset,
            bytes,
        },
    );
}

/// The bytes that a mover asked for.
pub fn post_bytes(memory: &Memory, out: &mut Outbox, subject: Subject, asked: WantedBytes)
    requires numbers { (is_number subject.name.exchange.number && is_number subject.name.number) ≡ true }
    requires place { is_place asked.total asked.offset ≡ true }
    requires inside { asked.src + asked.total ≤ length memory.now }
    requires room { length out.old.posts + ROUND_PACKETS ≤ out.old.room }
    ensures { out.new ≡ posted out.old (asked_packets subject.name.exchange subject.mover subject.name.number asked.src asked.total
        asked.offset memory.now) }
{
    let pieces = pieces(asked.total, asked.offset);
    for piece in 0..pieces {
        post_bytes_piece(
            memory,
            out,
            subject,
            asked,
            asked.offset + PIECE_BYTES * piece,
        );
    }
}

/// The round of a process that waits in a move, from an offset on.
pub fn post_round(procs: &Procs, out: &mut Outbox, pid: Pid, from: u32)
    requires goes { CanGoOn procs.now pid from }
    requires room { length out.old.posts + ROUND_PACKETS ≤ out.old.room }
    ensures { out.new ≡ posted out.old (round_from pid from (seat_in procs.now pid)) }
{
    let Some(seat) = procs.seat(pid) else {
        return;
    };
    post_round_of(seat, out, pid, from);
}

fn post_round_of(seat: &Seat, out: &mut Outbox, pid: Pid, from: u32)
    requires goes { going (length seat.now.memory) from seat.now.note.moving seat.now.doing ≡ true }
    requires room { length out.old.posts + ROUND_PACKETS ≤ out.old.room }
    ensures { out.new ≡ posted out.old (round_by pid seat.now.memory from seat.now.note.moving seat.now.doing) }
{
    let Some(name) = seat.note.moving else {
        return;
    };
    let subject = Subject { name, mover: pid };
    match seat.doing {
        Activity::Blocked {
            waiting: Waiting::MoveTo {
                partner,
                dest,
                src,
                count,
            },
        } => {
            let way = Direction::To;
            let transfer = Transfer {
                way,
                partner,
                dest,
                src,
                count,
            };
            post_data(&seat.memory, out, subject, transfer, from);
        }
        Activity::Blocked {
            waiting: Waiting::MoveFrom {
                partner,
                dest,
                src,
                count,
            },
        } => {
            let way = Direction::From;
            let transfer = Transfer {
                way,
                partner,
                dest,
                src,
                count,
            };
            post_request(out, subject, transfer, from);
        }
        _ => {}
    }
}
