//! The mover's end of a move.

ghost use Rattle.std.specs.Prelude.{◌≡◌, ◌≤◌, ◌<◌, ◌+◌, ◌++◌, length, option_copied};
ghost use Rattle.vk_base.specs.Kernel.{holds_of};
ghost use Rattle.vk_move.specs.Moved.{CanGoOn, HasFitSeats, answered, change_note, received, restarted};
ghost use Rattle.vk_move.specs.Mover.{ack_taken, acked_by, acked_in, brought_by, brought_in, bytes_taken, ended, ended_seats, gone_taken, goes_on, is_mover};
ghost use Rattle.vk_base.specs.declared.limits.TheConstants.{MOVE_BYTES, ROUND_PACKETS, STATION_EVENTS, STEPS};
ghost use Rattle.vk_procs.specs.Seats.{seat_in};
ghost use Rattle.vk_stands.specs.Rules.{posted};

use crate::moves::{Piece, Subject, end_of};
use crate::places::write_piece;
use crate::rounds::post_round;
use vk_base::limits::DATA_BYTES;
use vk_base::{Activity, Ending, MoveName, Outcome, Pid, Refusal, Waiting};
use vk_brief::{BriefStep, Steps};
use vk_packet::Outbox;
use vk_procs::{ProcNote, Procs, Seat};
use vk_timer::{Tick, Work};

/// What an acknowledgement does to a move: nothing; its work has new patience; it goes on from the acknowledged bytes; or it ends.
#[derive(Clone, Copy)]
pub enum Acked {
    Nothing,
    Answers,
    Restarts,
    Ends,
}

/// What bytes do to a move from a partner: nothing; its work has new patience; it is asked for again, from `from` on; or they are
/// the next ones, of a range that starts at `dest`.
#[derive(Clone, Copy)]
pub enum Brought {
    Nothing,
    Answers,
    Restarts { from: u32 },
    Next { dest: u32, last: bool },
}

/// Whether the process of this seat waits in this move.
fn is_mover(seat: &Seat, name: MoveName) -> bool
    ensures { result ≡ is_mover name.exchange name.number seat.now }
{
    if !seat.doing.is_moving() {
        return false;
    }
    match seat.note.moving {
        Some(m) => {
            m.exchange.sender == name.exchange.sender
                && m.exchange.number == name.exchange.number
                && m.number == name.number
        }
        None => false,
    }
}

fn acked_by(note: &ProcNote, count: u32, received: u32) -> Acked
    ensures { result ≡ acked_by note.now count received }
{
    if received == count {
        return Acked::Ends;
    }
    if note.offset < received && received < count && received % DATA_BYTES as u32 == 0 {
        return Acked::Restarts;
    }
    if received == note.offset {
        Acked::Answers
    } else {
        Acked::Nothing
    }
}

fn acked_in(seat: Option<&Seat>, name: MoveName, received: u32) -> Acked
    ensures { result ≡ acked_in name.exchange name.number received (option_copied seat.entry) }
{
    let Some(seat) = seat else {
        return Acked::Nothing;
    };
    match seat.doing {
        Activity::Blocked {
            waiting: Waiting::MoveTo { count, .. },
        } => {
            if is_mover(seat, name) {
                acked_by(&seat.note, count, received)
            } else {
                Acked::Nothing
            }
        }
        _ => Acked::Nothing,
    }
}

fn brought_by(note: &ProcNote, dest: u32, total: u32, offset: u32, end: u32) -> Brought
    ensures { result ≡ brought_by note.now dest total offset end }
{
    if offset == note.offset {
        return Brought::Next {
            dest,
            last: end == total,
        };
    }
    if note.offset < offset && end == total {
        if note.fresh {
            Brought::Restarts { from: note.offset }
        } else {
            Brought::Answers
        }
    } else {
        Brought::Nothing
    }
}

fn brought_in(seat: Option<&Seat>, name: MoveName, total: u32, offset: u32, end: u32) -> Brought
    ensures { result ≡ brought_in name.exchange name.number total offset end (option_copied seat.entry) }
{
    let Some(seat) = seat else {
        return Brought::Nothing;
    };
    match seat.doing {
        Activity::Blocked {
            waiting: Waiting::MoveFrom { dest, count, .. },
        } => {
            if is_mover(seat, name) && count == total {
                brought_by(&seat.note, dest, total, offset, end)
            } else {
                Brought::Nothing
            }
        }
        _ => Brought::Nothing,
    }
}

/// The work of the process was answered at this tick.
fn answer(procs: &mut Procs, pid: Pid, tick: Tick)
    requires { tick.at < STATION_EVENTS }
    ensures { procs.new ≡ change_note pid (answered tick.times tick.at) procs.old }
{
    if let Some(seat) = procs.seat(pid) {
        let mut work = seat.note.work;
        work.answered(tick.at, &tick.times);
        procs.set_work(pid, work);
    }
}

/// A round of the process's move goes out from an offset on, and its work is this one then.
fn restart(procs: &mut Procs, pid: Pid, work: Work, offset: u32)
    ensures { procs.new ≡ change_note pid (restarted work offset) procs.old }
{
    if let Some(seat) = procs.seat(pid) {
        let note = ProcNote {
            work,
            offset,
            fresh: false,
            ..seat.note
        };
        procs.set_note(pid, note);
    }
}

/// So many bytes of the process's move were received at this tick.
fn receive(procs: &mut Procs, pid: Pid, tick: Tick, offset: u32)
    requires { tick.at < STATION_EVENTS }
    ensures { procs.new ≡ change_note pid (received tick.times tick.at offset) procs.old }
{
    if let Some(seat) = procs.seat(pid) {
        let mut work = seat.note.work;
        work.answered(tick.at, &tick.times);
        let note = ProcNote {
            work,
            offset,
            fresh: true,
            ..seat.note
        };
        procs.set_note(pid, note);
    }
}

/// The process's move ends.
pub fn end(procs: &mut Procs, steps: &mut Steps, pid: Pid, why: Ending)
    requires { length steps.old + 1 ≤ STEPS }
    ensures seats { procs.new ≡ ended_seats pid why procs.old }
    ensures steps { steps.new ≡ steps.old ++ (ended pid why procs.old).steps }
{
    match why {
        Ending::Ok => procs.finish(pid, Outcome::Ok),
        Ending::Gone => procs.finish(pid, Outcome::Refused { why: Refusal::Gone }),
        Ending::TimedOut => procs.finish(
            pid,
            Outcome::Refused {
                why: Refusal::TimedOut,
            },
        ),
        Ending::NoProcess => {}
    }
    steps.push(BriefStep::End { pid, why });
}

/// A round of the process's move goes out from an offset on, and its work is this one then.
pub fn go_on(procs: &mut Procs, out: &mut Outbox, pid: Pid, work: Work, from: u32)
    requires goes { CanGoOn procs.old pid from }
    requires room { length out.old.posts + ROUND_PACKETS ≤ out.old.room }
    ensures seats { procs.new ≡ (goes_on work pid from procs.old).seats }
    ensures packets { out.new ≡ posted out.old (goes_on work pid from procs.old).packets }
{
    post_round(procs, out, pid, from);
    restart(procs, pid, work, from);
}

/// An acknowledgement of a move to a partner.
pub fn take_ack(
    procs: &mut Procs,
    tick: Tick,
    out: &mut Outbox,
    steps: &mut Steps,
    subject: Subject,
    received: u32,
)
    requires now { tick.at < STATION_EVENTS }
    requires fit { HasFitSeats procs.old }
    requires packets { length out.old.posts + ROUND_PACKETS ≤ out.old.room }
    requires room { length steps.old + 1 ≤ STEPS }
    ensures seats { procs.new ≡ (ack_taken tick.times tick.at subject received procs.old).seats }
    ensures steps { steps.new ≡ steps.old ++ (ack_taken tick.times tick.at subject received procs.old).steps }
    ensures packets { out.new ≡ posted out.old (ack_taken tick.times tick.at subject received procs.old).packets }
{
    let pid = subject.mover;
    match acked_in(procs.seat(pid), subject.name, received) {
        Acked::Nothing => {}
        Acked::Answers => answer(procs, pid, tick),
        Acked::Restarts => {
            let work = Work::start(tick.at, &tick.times);
            go_on(procs, out, pid, work, received);
        }
        Acked::Ends => end(procs, steps, pid, Ending::Ok),
    }
}

/// Bytes of a move from a partner.
pub fn take_bytes(
    procs: &mut Procs,
    tick: Tick,
    out: &mut Outbox,
    steps: &mut Steps,
    subject: Subject,
    piece: Piece<'_>,
)
    requires now { tick.at < STATION_EVENTS }
    requires fit { HasFitSeats procs.old }
    requires few { piece.offset + length piece.bytes.now ≤ MOVE_BYTES }
    requires packets { length out.old.posts + ROUND_PACKETS ≤ out.old.room }
    requires room { length steps.old + 2 ≤ STEPS }
    ensures seats { procs.new ≡
        (bytes_taken tick.times tick.at subject piece.entry.total piece.entry.offset piece.entry.bytes.now procs.old).seats }
    ensures steps { steps.new ≡ steps.old
        ++ (bytes_taken tick.times tick.at subject piece.entry.total piece.entry.offset piece.entry.bytes.now procs.old).steps }
    ensures packets { out.new ≡ posted out.old
        (bytes_taken tick.times tick.at subject piece.entry.total piece.entry.offset piece.entry.bytes.now procs.old).packets }
{
    let pid = subject.mover;
    let end_at = end_of(piece);
    match brought_in(
        procs.seat(pid),
        subject.name,
        piece.total,
        piece.offset,
        end_at,
    ) {
        Brought::Nothing => {}
        Brought::Answers => answer(procs, pid, tick),
        Brought::Restarts { from } => {
            let work = Work::start(tick.at, &tick.times);
            go_on(procs, out, pid, work, from);
        }
        Brought::Next { dest, last } => {
            write_piece(procs, steps, pid, subject.name, dest, piece);
            if last {
                end(procs, steps, pid, Ending::Ok);
            } else {
                receive(procs, pid, tick, end_at);
            }
        }
    }
}

/// The partner of a move no longer waits.
pub fn take_gone(procs: &mut Procs, steps: &mut Steps, subject: Subject)
    requires { length steps.old + 1 ≤ STEPS }
    ensures seats { procs.new ≡ (gone_taken subject procs.old).seats }
    ensures steps { steps.new ≡ steps.old ++ (gone_taken subject procs.old).steps }
{
    if is_moving(procs, subject) {
        end(procs, steps, subject.mover, Ending::Gone);
    }
}

fn is_moving(procs: &Procs, subject: Subject) -> bool
    ensures { result ≡ holds_of (is_mover subject.name.exchange subject.name.number) (seat_in procs.now subject.mover) }
{
    match procs.seat(subject.mover) {
        Some(seat) => is_mover(seat, subject.name),
        None => false,
    }
}
