//! A process begins a move.

ghost use Rattle.std.specs.Prelude.{◌≡◌, ◌≤◌, ◌<◌, ◌+◌, true, length, option_copied, None};
ghost use Rattle.vk_base.specs.declared.limits.TheConstants.{ROUND_PACKETS, STATION_EVENTS, STEPS};
ghost use Rattle.std.specs.List.{position};
ghost use Rattle.vk_base.specs.Kernel.{is_move};
ghost use Rattle.vk_local.specs.Rules.{may_call};
ghost use Rattle.vk_move.specs.Begun.{CanBegin, HasFewMoves, HasFitAliens, IsMoveBegun, begun_note, call_in, counted, doing_of, grants_access, has_ranges, is_away, message_held, moves_of, next_name, size_of, transfer_begun, transfer_by, verdict_by, verdict_in, verdict_on, waiting_in, waiting_seats};
ghost use Rattle.vk_move.specs.Moved.{change_note};
ghost use Rattle.vk_pool.specs.Aliens.{is_alien_from};
ghost use Rattle.vk_procs.specs.Seats.{seat_in};
ghost use Rattle.vk_stands.specs.Rules.{posted};

use crate::moves::Transfer;
use crate::rounds::post_round;
use vk_base::limits::MOVE_BYTES;
use vk_base::{Direction, Message, MoveName, Name, Outcome, Pid, Refusal, Times, Waiting};
use vk_brief::{BriefCall, BriefStep, CallView, Steps};
use vk_packet::Outbox;
use vk_pool::{Alien, AlienPool, AlienStage};
use vk_procs::{ProcNote, Procs};
use vk_timer::{Tick, Work};

/// Whether a move may be made: it is refused; it is made at once, of no bytes; or it begins.
#[derive(Clone, Copy)]
pub enum Verdict {
    Refused { why: Refusal },
    Made,
    Begins,
}

/// The message of the alien's Send, if the process holds it: access is by its grants, whatever message the process is shown.
fn message_held(alien: Option<&Alien>, pid: Pid) -> Option<Message>
    ensures { result ≡ message_held pid (option_copied alien.entry) }
{
    let alien = alien?;
    match alien.stage {
        AlienStage::Taken => {
            if alien.at == pid {
                Some(alien.message)
            } else {
                None
            }
        }
        _ => None,
    }
}

fn grants_access(message: &Message, way: Direction) -> bool
    ensures { result ≡ grants_access way message.now }
{
    match way {
        Direction::To => message.grants().write,
        Direction::From => message.grants().read,
    }
}

fn verdict_on(
    message: &Message,
    way: Direction,
    size: u32,
    theirs: u32,
    own: u32,
    count: u32,
) -> Verdict
    ensures { result ≡ verdict_on way size theirs own count message.now }
{
    if !grants_access(message, way) {
        return Verdict::Refused {
            why: Refusal::NoAccess,
        };
    }
    if !has_ranges(message, size, theirs, own, count) {
        return Verdict::Refused {
            why: Refusal::BadRange,
        };
    }
    if count == 0 {
        Verdict::Made
    } else {
        Verdict::Begins
    }
}

/// Whether the partner's range lies in the segment of its message, and the own one in a memory of this size.
fn has_ranges(message: &Message, size: u32, theirs: u32, own: u32, count: u32) -> bool
    ensures { result ≡ has_ranges message.now size theirs own count }
{
    let range = message.grants().range;
    let low = range.start as u64;
    let high = low + range.len as u64;
    low <= theirs as u64
        && theirs as u64 + count as u64 <= high
        && own as u64 + count as u64 <= size as u64
}

fn verdict_by(
    message: Option<Message>,
    way: Direction,
    size: u32,
    theirs: u32,
    own: u32,
    count: u32,
) -> Verdict
    ensures { result ≡ verdict_by way size theirs own count message }
{
    if count > MOVE_BYTES {
        return Verdict::Refused {
            why: Refusal::TooLong,
        };
    }
    match message {
        None => Verdict::Refused {
            why: Refusal::NotAwaiting,
        },
        Some(message) => verdict_on(&message, way, size, theirs, own, count),
    }
}

fn size_of(procs: &Procs, pid: Pid) -> u32
    ensures { result ≡ size_of (seat_in procs.now pid) }
{
    match procs.seat(pid) {
        Some(seat) => seat.memory.size(),
        None => 0,
    }
}

/// What a process that begins a move waits in.
fn waiting_in(transfer: Transfer) -> Waiting
    ensures { result ≡ waiting_in transfer.way transfer.partner transfer.dest transfer.src transfer.count }
{
    let Transfer {
        way,
        partner,
        dest,
        src,
        count,
    } = transfer;
    match way {
        Direction::To => Waiting::MoveTo {
            partner,
            dest,
            src,
            count,
        },
        Direction::From => Waiting::MoveFrom {
            partner,
            dest,
            src,
            count,
        },
    }
}

/// The call that a move is. A call that is copied whole would be read in other pieces than it was written in.
#[inline(always)]
fn call_in(transfer: Transfer) -> BriefCall
    ensures { result ≡ call_in transfer.way transfer.partner transfer.dest transfer.src transfer.count }
{
    let Transfer {
        way,
        partner,
        dest,
        src,
        count,
    } = transfer;
    match way {
        Direction::To => BriefCall::MoveTo {
            partner,
            dest,
            src,
            count,
        },
        Direction::From => BriefCall::MoveFrom {
            partner,
            dest,
            src,
            count,
        },
    }
}

fn verdict_in(procs: &Procs, aliens: &AlienPool, pid: Pid, transfer: Transfer) -> Verdict
    ensures { result ≡ verdict_in procs.now aliens.now pid transfer.partner transfer.way transfer.dest transfer.src transfer.count }
{
    let message = message_held(aliens.of(transfer.partner), pid);
    let size = size_of(procs, pid);
    let way = transfer.way;
    match way {
        Direction::To => {
            verdict_by(
                message,
                way,
                size,
                transfer.dest,
                transfer.src,
                transfer.count,
            )
        }
        Direction::From => {
            verdict_by(
                message,
                way,
                size,
                transfer.src,
                transfer.dest,
                transfer.count,
            )
        }
    }
}

/// The name of the next move of the partner's Send, which is counted.
fn next_name(aliens: &mut AlienPool, partner: Pid) -> Option<MoveName>
    requires { moves_of aliens.old partner < STATION_EVENTS }
    ensures name { result ≡ next_name aliens.old partner (position (is_alien_from partner) aliens.old) }
    ensures slots { aliens.new ≡ counted aliens.old (position (is_alien_from partner) aliens.old) }
{
    let slot = aliens.find(partner)?;
    let number = aliens.alien(slot)?.number;
    let moving = aliens.next_move(slot);
    Some(MoveName {
        exchange: Name {
            sender: partner,
            number,
        },
        number: moving,
    })
}

fn note_begun(procs: &mut Procs, pid: Pid, tick: Tick, name: MoveName)
    requires { tick.at < STATION_EVENTS }
    ensures { procs.new ≡ change_note pid (begun_note tick.times tick.at name) procs.old }
{
    if let Some(seat) = procs.seat(pid) {
        let note = ProcNote {
            moving: Some(name),
            work: Work::start(tick.at, &tick.times),
            offset: 0,
            fresh: false,
            ..seat.note
        };
        procs.set_note(pid, note);
    }
}

/// The process waits in its move from now on.
fn wait(procs: &mut Procs, pid: Pid, tick: Tick, waiting: Waiting, name: MoveName)
    requires { tick.at < STATION_EVENTS }
    ensures { procs.new ≡ waiting_seats tick.times tick.at pid waiting name procs.old }
{
    procs.wait(pid, waiting);
    note_begun(procs, pid, tick, name);
}

/// The move is the next of its partner's Send, and its first round goes out.
#[tactic(auto, using(crate::proofs::Pieces::none_posted))]
fn run(
    procs: &mut Procs,
    aliens: &mut AlienPool,
    tick: Tick,
    out: &mut Outbox,
    pid: Pid,
    transfer: Transfer,
)
    requires now { tick.at < STATION_EVENTS }
    requires moves { moves_of aliens.old transfer.partner < STATION_EVENTS }
    requires goes { CanBegin procs.old aliens.old pid transfer.partner
        (waiting_in transfer.way transfer.partner transfer.dest transfer.src transfer.count) }
    requires room { length out.old.posts + ROUND_PACKETS ≤ out.old.room }
    ensures seats { procs.new ≡ (transfer_by tick.times tick.at pid transfer Verdict.Begins procs.old aliens.old).seats }
    ensures slots { aliens.new ≡ (transfer_by tick.times tick.at pid transfer Verdict.Begins procs.old aliens.old).slots }
    ensures packets { out.new ≡ posted out.old
        (transfer_by tick.times tick.at pid transfer Verdict.Begins procs.old aliens.old).packets }
{
    let Some(name) = next_name(aliens, transfer.partner) else {
        return;
    };
    wait(procs, pid, tick, waiting_in(transfer), name);
    post_round(procs, out, pid, 0);
}

/// A move to a partner, or from one.
fn begin_way(
    procs: &mut Procs,
    aliens: &mut AlienPool,
    tick: Tick,
    out: &mut Outbox,
    pid: Pid,
    transfer: Transfer,
) -> Option<Outcome>
    requires now { tick.at < STATION_EVENTS }
    requires moves { HasFewMoves aliens.old }
    requires fit { HasFitAliens aliens.old }
    requires room { length out.old.posts + ROUND_PACKETS ≤ out.old.room }
    ensures answer { result ≡ (transfer_begun tick.times tick.at pid transfer procs.old aliens.old).answer }
    ensures seats { procs.new ≡ (transfer_begun tick.times tick.at pid transfer procs.old aliens.old).seats }
    ensures slots { aliens.new ≡ (transfer_begun tick.times tick.at pid transfer procs.old aliens.old).slots }
    ensures packets { out.new ≡ posted out.old (transfer_begun tick.times tick.at pid transfer procs.old aliens.old).packets }
{
    match verdict_in(procs, aliens, pid, transfer) {
        Verdict::Refused { why } => Some(Outcome::Refused { why }),
        Verdict::Made => Some(Outcome::Ok),
        Verdict::Begins => {
            run(procs, aliens, tick, out, pid, transfer);
            None
        }
    }
}

/// A process of the station, which is alive and ready, calls for a move at the tick `now`, below 2^48, with a partner of another
/// station. A refusal tells why; a move of no bytes is made at once; any other begins, with no answer yet, is the next of the partner's
/// Send, and its first round goes out. There is room for a step and for 64 packets.
pub fn begin(
    procs: &mut Procs,
    aliens: &mut AlienPool,
    now: u64,
    times: &Times,
    out: &mut Outbox,
    steps: &mut Steps,
    pid: Pid,
    call: &CallView,
) -> Option<Outcome>
    requires now { now < STATION_EVENTS }
    requires call { is_move call.now ≡ true }
    requires away { is_away pid call.now ≡ true }
    requires ready { may_call procs.old pid ≡ true }
    requires moves { HasFewMoves aliens.old }
    requires fit { HasFitAliens aliens.old }
    requires packets { length out.old.posts + ROUND_PACKETS ≤ out.old.room }
    requires room { length steps.old + 1 ≤ STEPS }
    ensures { IsMoveBegun times.now now pid call.now result (doing_of procs.old aliens.old steps.old out.old)
        (doing_of procs.new aliens.new steps.new out.new) }
{
    let tick = Tick {
        at: now,
        times: *times,
    };
    let (call, _) = call.parts();
    match *call {
        BriefCall::MoveTo {
            partner,
            dest,
            src,
            count,
        } => {
            let transfer = Transfer {
                way: Direction::To,
                partner,
                dest,
                src,
                count,
            };
            steps.push(BriefStep::Call {
                pid,
                call: call_in(transfer),
            });
            begin_way(procs, aliens, tick, out, pid, transfer)
        }
        BriefCall::MoveFrom {
            partner,
            dest,
            src,
            count,
        } => {
            let transfer = Transfer {
                way: Direction::From,
                partner,
                dest,
                src,
                count,
            };
            steps.push(BriefStep::Call {
                pid,
                call: call_in(transfer),
            });
            begin_way(procs, aliens, tick, out, pid, transfer)
        }
        _ => unreachable!(),
    }
}
