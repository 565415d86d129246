//! A tick of the clock, for a process that waits in a move.

ghost use Rattle.std.specs.Prelude.{◌≡◌, ◌≤◌, ◌<◌, ◌+◌, length, option_copied};
ghost use Rattle.vk_base.specs.declared.limits.TheConstants.{ROUND_PACKETS, STATION_EVENTS, STEPS};
ghost use Rattle.vk_move.specs.Due.{IsDue, ticked_at, ticked_in};
ghost use Rattle.vk_move.specs.Moved.{HasFitSeats};

use crate::mover::{end, go_on};
use vk_base::{Ending, Pid, Times};
use vk_brief::Steps;
use vk_packet::Outbox;
use vk_procs::{Procs, Seat};
use vk_timer::{Due, Tick, Work};

/// What a tick finds of a move: nothing; it was tried often enough, and ends; or its round goes out again, from this offset on, and its
/// work is this one then.
#[derive(Clone, Copy)]
pub enum Ticked {
    Nothing,
    Ends,
    Again { work: Work, from: u32 },
}

fn ticked_at(seat: &Seat, tick: Tick) -> Ticked
    requires { tick.at < STATION_EVENTS }
    ensures { result ≡ ticked_at tick.times tick.at seat.now }
{
    let mut work = seat.note.work;
    match work.due(tick.at, &tick.times) {
        Due::NotDue => Ticked::Nothing,
        Due::GiveUp => Ticked::Ends,
        Due::Resend => Ticked::Again {
            work,
            from: seat.note.offset,
        },
    }
}

fn ticked_in(seat: Option<&Seat>, tick: Tick) -> Ticked
    requires { tick.at < STATION_EVENTS }
    ensures { result ≡ ticked_in tick.times tick.at (option_copied seat.entry) }
{
    let Some(seat) = seat else {
        return Ticked::Nothing;
    };
    if seat.doing.is_moving() {
        ticked_at(seat, tick)
    } else {
        Ticked::Nothing
    }
}

/// The tick `now`, below 2^48, of one process: if it waits in a move whose work is due, the work fails where it was tried often
/// enough, else its round goes out again. Of the tables only the seat of that process changes. There is room for a step and for
/// 64 packets.
pub fn due(
    procs: &mut Procs,
    now: u64,
    times: &Times,
    out: &mut Outbox,
    steps: &mut Steps,
    pid: Pid,
)
    requires now { now < STATION_EVENTS }
    requires fit { HasFitSeats procs.old }
    requires packets { length out.old.posts + ROUND_PACKETS ≤ out.old.room }
    requires room { length steps.old + 1 ≤ STEPS }
    ensures { IsDue times.now now pid procs.old procs.new steps.old steps.new out.old out.new }
{
    let tick = Tick {
        at: now,
        times: *times,
    };
    match ticked_in(procs.seat(pid), tick) {
        Ticked::Nothing => {}
        Ticked::Ends => end(procs, steps, pid, Ending::TimedOut),
        Ticked::Again { work, from } => go_on(procs, out, pid, work, from),
    }
}
