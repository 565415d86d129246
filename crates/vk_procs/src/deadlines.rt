//! The deadlines of a station's processes, in a wheel that is told of each when it is set.

ghost use Rattle.std.specs.Int.{bit_at};
ghost use Rattle.std.specs.Prelude.{◌≡◌, ◌==◌, ◌&&◌, ◌≤◌, ◌<◌, ◌+◌, ◌-◌, ◌^◌, ◌%◌, ℕ, List, Some, length, if◌then◌else◌};
ghost use Rattle.vk_base.specs.declared.limits.TheConstants.{STATION_EVENTS, STATION_PROCESSES as PROCESSES};
ghost use Rattle.vk_procs.specs.declared.seat.Seat.{Seat as TheSeat};
ghost use Rattle.vk_procs.specs.Awaited.{due_places};
ghost use Rattle.vk_procs.specs.Kept.{AreAsked, AreFollowed, HasHeard, awaited_at, deadline_at};
ghost use Rattle.vk_timer.specs.Wheels.{is_due};

use crate::seat::{Seat, seat_in};
use vk_base::limits::STATION_PROCESSES;
use vk_timer::{next_slot, with_slot, without_slot};

/// How many ticks the wheel has places for: the next one, and those behind it.
const PLACES: u64 = 64;

/// The deadlines of processes, in a wheel. Whom it tells of may wait no more, or have another deadline by then: so the seats are asked.
#[derive(Drop)]
pub struct Deadlines {
    /// In the place of a tick, its number modulo 64, the processes of which that was a deadline, a bit for each.
    wheel: [u32; PLACES as usize],
    /// The tick that the wheel is asked for next.
    next: u64,
    /// The places of the processes whose deadlines are too far ahead for the wheel, a bit for each. They are asked at each tick.
    noted: u32,
}

impl Deadlines {
    /// The wheel was told of nobody.
    pub fn new() -> Self
        ensures { (seats : List TheSeat) → AreFollowed result seats }
    {
        Deadlines {
            wheel: [0; PLACES as usize],
            next: 1,
            noted: u32::MAX,
        }
    }

    /// The process in this place has this deadline from now on. One that is over is nobody's any more.
    pub fn tell(&mut self, at: u32, tick: u64)
        requires at { at < PROCESSES }
        requires long { length self.old.wheel ≡ PLACES }
        ensures { HasHeard self.old self.new at (Some tick) }
    {
        if self.next <= tick {
            self.put(at, tick);
        }
    }

    fn put(&mut self, at: u32, tick: u64)
        requires at { at < PROCESSES }
        requires long { length self.old.wheel ≡ PLACES }
        requires tick { self.old.next ≤ tick }
        ensures { HasHeard self.old self.new at (Some tick) }
    {
        if tick - self.next < PLACES {
            let place = place_of(tick);
            self.wheel[place] = with_slot(self.wheel[place], at);
        } else {
            self.noted = with_slot(self.noted, at);
        }
    }

    /// The places of the processes that wait for the tick `now`, below 2^48, a bit for each.
    pub fn due(&mut self, seats: &[Seat], now: u64) -> u32
        requires low { now < STATION_EVENTS }
        requires few { length seats.now ≤ PROCESSES }
        requires followed { AreFollowed self.old seats.now }
        ensures due { result ≡ due_places now seats.now }
        ensures followed { AreFollowed self.new seats.now }
    {
        let mut left = self.turn_to(now);
        let mut due = 0;
        for _turn in 0..STATION_PROCESSES {
            match next_slot(left, 0) {
                None => return due,
                Some(at) => {
                    left = without_slot(left, at);
                    due = with_due(due, at, self.ask(seats, at, now));
                }
            }
        }
        due
    }

    /// The wheel is asked for this tick. Those that it may be for are to be asked, and neither the wheel nor the note has them any more.
    fn turn_to(&mut self, now: u64) -> u32
        requires { now < STATION_EVENTS }
        ensures { (seats : List TheSeat) → AreFollowed self.old seats → AreAsked self.new seats now result }
    {
        let noted = self.noted_at(now);
        self.noted = 0;
        self.next = now + 1;
        let place = place_of(now);
        let told = self.wheel[place];
        self.wheel[place] = 0;
        noted | told
    }

    /// Those that are asked beside those of the wheel: all where this is not the tick that it was to be asked for.
    fn noted_at(&self, now: u64) -> u32
        ensures { result ≡ (if now == self.now.next then self.now.noted else 2 ^ 32 - 1) }
    {
        if now == self.next {
            self.noted
        } else {
            u32::MAX
        }
    }

    /// Whether the process in this place waits for the tick `now`, the last one. The wheel is told of its deadline, if that is to come.
    fn ask(&mut self, seats: &[Seat], at: u32, now: u64) -> bool
        requires at { at < PROCESSES }
        requires long { length self.old.wheel ≡ PLACES }
        requires next { self.old.next ≡ now + 1 }
        ensures due { result ≡ is_due now (awaited_at seats.now at) }
        ensures heard { HasHeard self.old self.new at (deadline_at seats.now at) }
    {
        match seat_in(seats, at as usize) {
            Some(seat) => {
                self.tell(at, seat.note.work.deadline);
                seat.awaits(now)
            }
            None => false,
        }
    }
}

fn place_of(tick: u64) -> usize
    ensures { result ≡ tick % 64 }
{
    (tick % PLACES) as usize
}

/// These places, with this one where its process waits for the tick.
fn with_due(due: u32, at: u32, waits: bool) -> u32
    requires { at < PROCESSES }
    ensures { (k : ℕ) → bit_at result k ≡ (if waits && (k == at) then 1 else bit_at due k) }
{
    if waits { with_slot(due, at) } else { due }
}
