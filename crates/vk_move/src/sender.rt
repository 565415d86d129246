//! The other end of a move: the sender's, whose memory is moved.

ghost use Rattle.std.specs.Prelude.{◌≡◌, ◌≤◌, ◌<◌, ◌+◌, ◌++◌, ◌∷◌, [], ◌^◌, ◌==◌, ◌&&◌, true, length, option_copied};
ghost use Rattle.vk_base.specs.declared.limits.TheConstants.{MOVE_BYTES, ROUND_PACKETS, STEPS};
ghost use Rattle.vk_base.specs.Packets as packets;
ghost use Rattle.vk_move.specs.Moved.{HasFitSeats, change_note, progressed};
ghost use Rattle.vk_move.specs.Sender.{bytes_of, bytes_wanted, data_taken, data_wanted, done_after, made_by, may_read, may_write, opening, request_taken, sender_by, wanted, written_if_next, IsSourceReadable};
ghost use Rattle.vk_packet.specs.Rules.{is_number, is_place};
ghost use Rattle.vk_procs.specs.Seats.{seat_in};
ghost use Rattle.vk_rules.specs.PacketOutcomes.{copies_bytes};
ghost use Rattle.vk_rules.specs.Rounds.{list_if};
ghost use Rattle.vk_stands.specs.Rules.{posted};

use crate::moves::{Piece, Subject, WantedBytes, end_of};
use crate::places::write_piece;
use crate::rounds::post_bytes;
use vk_base::{Activity, Message, MoveName, Pid, Waiting};
use vk_brief::{BriefStep, Steps};
use vk_packet::{Outbox, PacketView};
use vk_procs::{ProcNote, Procs, Seat};

/// What is known of the process of which a mover names a Send: that it waits in it, to a process of the mover's station, with this
/// message, and of the open move so many bytes are done; that it made it; or nothing.
#[derive(Clone, Copy)]
pub enum Sender {
    Unknown,
    Gone,
    Waits {
        message: Message,
        opened: u64,
        done: u32,
    },
}

/// What a packet of a mover is: nothing that is wanted; of a Send that is over; or of a move that is open, or is opened by it, of
/// which so many bytes are done before it.
#[derive(Clone, Copy)]
pub enum Demand {
    Nothing,
    Gone,
    Wanted { opens: bool, before: u32 },
}

fn made_by(number: u64, note: &ProcNote) -> Sender
    ensures { result ≡ made_by number note.now }
{
    if number <= note.sends {
        Sender::Gone
    } else {
        Sender::Unknown
    }
}

fn sender_by(seat: Option<&Seat>, subject: Subject) -> Sender
    ensures { result ≡ sender_by subject.name.exchange.sender subject.mover subject.name.exchange.number
        (option_copied seat.entry) }
{
    let Some(seat) = seat else {
        return Sender::Unknown;
    };
    let name = subject.name.exchange;
    match seat.doing {
        Activity::Blocked {
            waiting: Waiting::Send {
                target: to,
                message,
            },
        } => {
            if to.host == subject.mover.host
                && name.sender.host != subject.mover.host
                && seat.note.sends == name.number
            {
                Sender::Waits {
                    message,
                    opened: seat.note.opened,
                    done: seat.note.done,
                }
            } else {
                made_by(name.number, &seat.note)
            }
        }
        _ => made_by(name.number, &seat.note),
    }
}

/// Whether a message lets the range be written.
fn may_write(message: &Message, start: u32, count: u32) -> bool
    ensures { result ≡ may_write message.now start count }
{
    let grants = message.grants();
    let low = grants.range.start as u64;
    let high = low + grants.range.len as u64;
    grants.write && low <= start as u64 && start as u64 + count as u64 <= high
}

/// Whether a message lets the range be read.
fn may_read(message: &Message, start: u32, count: u32) -> bool
    ensures { result ≡ may_read message.now start count }
{
    let grants = message.grants();
    let low = grants.range.start as u64;
    let high = low + grants.range.len as u64;
    grants.read && low <= start as u64 && start as u64 + count as u64 <= high
}

fn wanted(granted: bool, opened: u64, done: u32, moving: u64) -> Demand
    ensures { result ≡ wanted granted opened done moving }
{
    if granted && opened <= moving {
        if opened < moving {
            Demand::Wanted {
                opens: true,
                before: 0,
            }
        } else {
            Demand::Wanted {
                opens: false,
                before: done,
            }
        }
    } else {
        Demand::Nothing
    }
}

fn data_wanted(sender: Sender, moving: u64, dest: u32, total: u32) -> Demand
    ensures { result ≡ data_wanted moving dest total sender }
{
    match sender {
        Sender::Unknown => Demand::Nothing,
        Sender::Gone => Demand::Gone,
        Sender::Waits {
            message,
            opened,
            done,
        } => wanted(may_write(&message, dest, total), opened, done, moving),
    }
}

fn bytes_wanted(sender: Sender, moving: u64, src: u32, total: u32) -> Demand
    ensures { result ≡ bytes_wanted moving src total sender }
{
    match sender {
        Sender::Unknown => Demand::Nothing,
        Sender::Gone => Demand::Gone,
        Sender::Waits {
            message,
            opened,
            done,
        } => wanted(may_read(&message, src, total), opened, done, moving),
    }
}

/// A mover is told that the sender does not wait for it any more.
fn post_gone(out: &mut Outbox, subject: Subject)
    requires numbers { (is_number subject.name.exchange.number && is_number subject.name.number) ≡ true }
    requires room { length out.old.posts < out.old.room }
    ensures { out.new ≡ posted out.old
        (packets.MoveNegative subject.name.exchange.sender subject.mover subject.name.exchange.number subject.name.number ∷ []) }
{
    let name = subject.name;
    out.post(
        subject.mover.host,
        &PacketView::MoveNegative {
            from: name.exchange.sender,
            to: subject.mover,
            number: name.exchange.number,
            moving: name.number,
        },
    );
}

/// A move is opened, where it is not yet.
#[tactic(auto, using(crate::proofs::Pieces::none_posted))]
fn open_move(steps: &mut Steps, name: MoveName, opens: bool)
    requires { length steps.old + 1 ≤ STEPS }
    ensures { steps.new ≡ steps.old ++ opening name.exchange name.number opens }
{
    if opens {
        steps.push(BriefStep::OpenMove {
            sender: name.exchange.sender,
            number: name.exchange.number,
            moving: name.number,
        });
    }
}

/// Bytes are written where they are the next ones.
fn write_if_next(
    procs: &mut Procs,
    steps: &mut Steps,
    name: MoveName,
    dest: u32,
    piece: Piece<'_>,
    before: u32,
)
    requires few { length piece.bytes.now < 2 ^ 32 }
    requires room { length steps.old + 1 ≤ STEPS }
    ensures seats { procs.new ≡ written_if_next (piece.entry.offset == before) name.exchange.sender dest piece.entry.offset
        piece.entry.bytes.now procs.old }
    ensures steps { steps.new ≡ steps.old ++ list_if (piece.entry.offset == before)
        (copies_bytes name.exchange name.number piece.entry.offset piece.entry.bytes.now ∷ []) }
{
    if piece.offset == before {
        write_piece(procs, steps, name.exchange.sender, name, dest, piece);
    }
}

/// So many bytes of the move are done, which is open.
#[inline(always)]
fn progress(procs: &mut Procs, pid: Pid, moving: u64, done: u32)
    ensures { procs.new ≡ change_note pid (progressed moving done) procs.old }
{
    if let Some(seat) = procs.seat(pid) {
        let note = ProcNote {
            opened: moving,
            done,
            ..seat.note
        };
        procs.set_note(pid, note);
    }
}

/// The last bytes of a move are acknowledged: so many are done.
#[tactic(auto, using(crate::proofs::Pieces::none_posted))]
fn acknowledge(out: &mut Outbox, subject: Subject, done: u32, last: bool)
    requires numbers { (is_number subject.name.exchange.number && is_number subject.name.number) ≡ true }
    requires few { done ≤ MOVE_BYTES }
    requires room { length out.old.posts < out.old.room }
    ensures { out.new ≡ posted out.old (list_if last
        (packets.MoveAck subject.name.exchange.sender subject.mover subject.name.exchange.number subject.name.number done ∷ [])) }
{
    let name = subject.name;
    if last {
        out.post(
            subject.mover.host,
            &PacketView::MoveAck {
                from: name.exchange.sender,
                to: subject.mover,
                number: name.exchange.number,
                moving: name.number,
                received: done,
            },
        );
    }
}

fn done_after(piece: Piece<'_>, before: u32) -> u32
    requires few { piece.offset + length piece.bytes.now ≤ MOVE_BYTES }
    ensures { result ≡ done_after piece.entry.offset before piece.entry.bytes.now }
{
    if piece.offset == before {
        end_of(piece)
    } else {
        before
    }
}

/// Data of a move for the range of its sender that starts at `dest`.
pub fn take_data(
    procs: &mut Procs,
    out: &mut Outbox,
    steps: &mut Steps,
    subject: Subject,
    dest: u32,
    piece: Piece<'_>,
)
    requires numbers { (is_number subject.name.exchange.number && is_number subject.name.number) ≡ true }
    requires few { piece.offset + length piece.bytes.now ≤ MOVE_BYTES }
    requires fit { HasFitSeats procs.old }
    requires packets { length out.old.posts < out.old.room }
    requires room { length steps.old + 2 ≤ STEPS }
    ensures seats { procs.new ≡
        (data_taken subject dest piece.entry.total piece.entry.offset piece.entry.bytes.now procs.old).seats }
    ensures steps { steps.new ≡ steps.old
        ++ (data_taken subject dest piece.entry.total piece.entry.offset piece.entry.bytes.now procs.old).steps }
    ensures packets { out.new ≡ posted out.old
        (data_taken subject dest piece.entry.total piece.entry.offset piece.entry.bytes.now procs.old).packets }
{
    let name = subject.name;
    let sender = sender_by(procs.seat(name.exchange.sender), subject);
    match data_wanted(sender, name.number, dest, piece.total) {
        Demand::Nothing => {}
        Demand::Gone => post_gone(out, subject),
        Demand::Wanted { opens, before } => {
            let done = done_after(piece, before);
            let last = end_of(piece) == piece.total;
            open_move(steps, name, opens);
            write_if_next(procs, steps, name, dest, piece, before);
            progress(procs, name.exchange.sender, name.number, done);
            acknowledge(out, subject, done, last);
        }
    }
}

/// All bytes that were asked for are posted.
#[tactic(auto, using(crate::proofs::Pieces::none_posted))]
fn post_asked(procs: &Procs, out: &mut Outbox, subject: Subject, asked: WantedBytes)
    requires numbers { (is_number subject.name.exchange.number && is_number subject.name.number) ≡ true }
    requires place { is_place asked.total asked.offset ≡ true }
    requires inside { IsSourceReadable asked.src asked.total (seat_in procs.now subject.name.exchange.sender) }
    requires room { length out.old.posts + ROUND_PACKETS ≤ out.old.room }
    ensures { out.new ≡ posted out.old (bytes_of subject.name.exchange subject.mover subject.name.number
        asked.src asked.total asked.offset (seat_in procs.now subject.name.exchange.sender)) }
{
    if let Some(seat) = procs.seat(subject.name.exchange.sender) {
        post_bytes(&seat.memory, out, subject, asked);
    }
}

/// A request for bytes of the sender of a move.
pub fn take_request(
    procs: &mut Procs,
    out: &mut Outbox,
    steps: &mut Steps,
    subject: Subject,
    asked: WantedBytes,
)
    requires numbers { (is_number subject.name.exchange.number && is_number subject.name.number) ≡ true }
    requires place { is_place asked.total asked.offset ≡ true }
    requires fit { HasFitSeats procs.old }
    requires packets { length out.old.posts + ROUND_PACKETS ≤ out.old.room }
    requires room { length steps.old + 1 ≤ STEPS }
    ensures seats { procs.new ≡ (request_taken subject asked.src asked.total asked.offset procs.old).seats }
    ensures steps { steps.new ≡ steps.old ++ (request_taken subject asked.src asked.total asked.offset procs.old).steps }
    ensures packets { out.new ≡ posted out.old (request_taken subject asked.src asked.total asked.offset procs.old).packets }
{
    let name = subject.name;
    let sender = sender_by(procs.seat(name.exchange.sender), subject);
    match bytes_wanted(sender, name.number, asked.src, asked.total) {
        Demand::Nothing => {}
        Demand::Gone => post_gone(out, subject),
        Demand::Wanted { opens, before } => {
            post_asked(procs, out, subject, asked);
            open_move(steps, name, opens);
            progress(procs, name.exchange.sender, name.number, before);
        }
    }
}
