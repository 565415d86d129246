// A state that counts its entries, and threads at cells of it.
ghost use Rattle.std.specs.Prelude.{◌≡◌, ◌≤◌, ◌<◌, [], false, length, nat_le, vec_capacity};
ghost use Rattle.turn_cell.specs.Seats.{IsSameSeat, IsSeatOf};

use std::alloc::Global;
use std::marker::Model;
use std::sync::atomic::AtomicBool;
use std::sync::atomic::Ordering::SeqCst;
use std::sync::{Arc, Wait};
use std::test::Fail;
use std::thread::{Threads, join, yield_now};
use turn_cell::{Ready, Replay, Room, TurnCell, TurnSeat};

const TIMES: u32 = 20_000;

/// Its entries, at most `most`. An entry is ready where at least so many were entered before it, and gives how many there were.
/// Where there is a gate, an entry is made only once it is up, or after a long while.
#[derive(Drop)]
struct Tally {
    entries: Vec<(u32, u32)>,
    most: u32,
    gate: Option<Arc<AtomicBool, Global>>,
    saw_gate: bool,
}

impl Model for Tally {
    ghost use Rattle.std.specs.Prelude.{ℕ, List, ◌-◌, vec_len, vec_capacity};

    ghost Value = { List (ℕ × ℕ) × ℕ × ℕ };

    ghost view = { λ t. (t.entries.items, vec_capacity t.entries - vec_len t.entries, t.most) };
}

impl Tally {
    fn new(alloc: Global, most: u32, gate: Option<Arc<AtomicBool, Global>>) -> Tally
        ensures { result.0 ≡ [] }
    {
        Tally {
            entries: Vec::new(alloc),
            most,
            gate,
            saw_gate: false,
        }
    }

    fn len(&self) -> usize {
        self.entries.len()
    }

    // Whether the caller's entries are 0, 1, .. in order, as many as these.
    fn has_in_order(&self, caller: u32, count: usize) -> bool {
        let of_caller = self.entries.iter().filter(|e| e.0 == caller);
        let in_order = self
            .entries
            .iter()
            .filter(|e| e.0 == caller)
            .enumerate()
            .all(|(k, e)| e.1 as usize == k);
        in_order && of_caller.count() == count
    }
}

/// Whether the gate goes up while it is looked at.
pub fn is_up(gate: &AtomicBool) -> bool {
    for _ in 0..10_000_000 {
        if gate.load(SeqCst) {
            return true;
        }
        yield_now();
    }
    false
}

impl Replay for Tally {
    type Event = u32;

    type Out = usize;

    ghost history = { λ t. t.0 };

    ghost origin = { λ t. ([], 0, t.2) };

    ghost event_fits = { λ o e. Unit {0} };

    ghost out_fits = { λ e out. Unit {0} };

    ghost full_at = { λ o h e. nat_le o.2 (length h) };

    ghost ready_at = { λ o h e. nat_le e (length h) };

    ghost has_own_room = { λ e. false };

    ghost has_room = { λ t e. 0 < t.1 };

    ghost gives = { λ o h caller e out new. new ≡ length h };

    fn room(&mut self, _alloc: Global, _event: &u32) -> Result<(), Room> {
        if self.entries.len() >= self.most as usize {
            return Err(Room::Full);
        }
        match self.entries.reserve(1) {
            Ok(()) => Ok(()),
            Err(_) => Err(Room::NoMemory),
        }
    }

    fn is_ready(&self, event: &u32) -> bool {
        self.entries.len() >= *event as usize
    }

    fn act(&mut self, caller: u32, event: &u32, out: &mut usize) {
        *out = self.entries.len();
        if let Some(gate) = &self.gate {
            self.saw_gate = is_up(gate);
        }
        self.entries.push_reserved((caller, *event));
    }
}

// Enters 0, 1, .. in order, and says whether all were entered, each after the one before.
fn enter_all<R: Wait>(
    rt: &R,
    alloc: Global,
    cell: &TurnCell<Tally>,
    mut seat: TurnSeat<Tally>,
) -> (TurnSeat<Tally>, bool)
    requires { IsSeatOf cell.now seat }
    ensures { IsSameSeat seat result.0 }
{
    let mut all = true;
    let mut least = 0;
    for k in 0..TIMES {
        let mut before = 0;
        let entered = cell.step(rt, alloc, &mut seat, &k, &mut before);
        all = all && entered.is_ok() && before >= least;
        least = before;
    }
    (seat, all)
}

fn enter_both<R: Threads + Wait + Sync>(
    rt: &R,
    alloc: Global,
    cell: &TurnCell<Tally>,
    first: TurnSeat<Tally>,
    second: TurnSeat<Tally>,
) -> ((TurnSeat<Tally>, bool), (TurnSeat<Tally>, bool))
    requires { IsSeatOf cell.now first × IsSeatOf cell.now second }
    ensures { IsSameSeat first result.0.0 × IsSameSeat second result.1.0 }
{
    join(
        rt,
        || enter_all(rt, alloc, cell, first),
        || enter_all(rt, alloc, cell, second),
    )
}

fn close_both(
    cell: TurnCell<Tally>,
    mut seats: Vec<TurnSeat<Tally>>,
    first: TurnSeat<Tally>,
    second: TurnSeat<Tally>,
) -> Tally
    requires cell { cell.seats ≡ 2 }
    requires seats { IsSeatOf cell first × IsSeatOf cell second }
    requires room { (seats.items ≡ []) × (2 ≤ vec_capacity seats) }
{
    seats.push_reserved(first);
    seats.push_reserved(second);
    cell.close(seats)
}

fn close_one(cell: TurnCell<Tally>, mut seats: Vec<TurnSeat<Tally>>, seat: TurnSeat<Tally>) -> Tally
    requires cell { cell.seats ≡ 1 }
    requires seat { IsSeatOf cell seat }
    requires room { (seats.items ≡ []) × (1 ≤ vec_capacity seats) }
{
    seats.push_reserved(seat);
    cell.close(seats)
}

#[test]
fn two_threads(rt: HostRuntime) -> Result<(), Fail> {
    let alloc = rt.alloc();
    let Ok((cell, mut seats)) = TurnCell::new(alloc, Tally::new(alloc, 2 * TIMES, None), 2) else {
        panic!(rt; "no memory")
    };
    let second = seats.pop().expect(&rt, "a seat");
    let first = seats.pop().expect(&rt, "a seat");
    let ((first, a), (second, b)) = enter_both(&rt, alloc, &cell, first, second);
    let tally = close_both(cell, seats, first, second);
    assert!(rt; a && b && tally.len() == 2 * TIMES as usize);
    assert!(rt; tally.has_in_order(0, TIMES as usize) && tally.has_in_order(1, TIMES as usize));
    Ok(())
}

#[test]
fn calls_of_one_seat(rt: HostRuntime) -> Result<(), Fail> {
    let alloc = rt.alloc();
    let Ok((cell, mut seats)) = TurnCell::new(alloc, Tally::new(alloc, 2, None), 1) else {
        panic!(rt; "no memory")
    };
    let mut seat = seats.pop().expect(&rt, "a seat");
    let mut before = 99;
    let early = cell.step_when_ready(&rt, alloc, &mut seat, &1, &mut before);
    assert!(rt; early == Ok(Ready::NotYet) && before == 99);
    assert!(rt; cell.step(&rt, alloc, &mut seat, &0, &mut before).is_ok() && before == 0);
    let ready = cell.step_when_ready(&rt, alloc, &mut seat, &1, &mut before);
    assert!(rt; ready == Ok(Ready::Done) && before == 1);
    let full = cell.step(&rt, alloc, &mut seat, &2, &mut before);
    assert!(rt; full == Err(Room::Full) && before == 1);
    assert!(rt; close_one(cell, seats, seat).has_in_order(0, 2));
    Ok(())
}

fn enter_one<R: Wait>(
    rt: &R,
    alloc: Global,
    cell: &TurnCell<Tally>,
    mut seat: TurnSeat<Tally>,
) -> TurnSeat<Tally>
    requires { IsSeatOf cell.now seat }
    ensures { IsSameSeat seat result }
{
    let mut before = 0;
    let _entered = cell.step(rt, alloc, &mut seat, &0, &mut before);
    seat
}

fn enter_and_raise<R: Wait>(
    rt: &R,
    alloc: Global,
    cell: &TurnCell<Tally>,
    seat: TurnSeat<Tally>,
    gate: &AtomicBool,
) -> TurnSeat<Tally>
    requires { IsSeatOf cell.now seat }
    ensures { IsSameSeat seat result }
{
    let seat = enter_one(rt, alloc, cell, seat);
    gate.store(true, SeqCst);
    seat
}

fn both_go<R: Threads + Wait + Sync>(
    rt: &R,
    alloc: Global,
    waiting: &TurnCell<Tally>,
    going: &TurnCell<Tally>,
    seats: (TurnSeat<Tally>, TurnSeat<Tally>),
    gate: &AtomicBool,
) -> (TurnSeat<Tally>, TurnSeat<Tally>)
    requires { IsSeatOf waiting.now seats.0 × IsSeatOf going.now seats.1 }
    ensures { IsSameSeat seats.0 result.0 × IsSameSeat seats.1 result.1 }
{
    let (one, two) = seats;
    join(
        rt,
        || enter_one(rt, alloc, waiting, one),
        || enter_and_raise(rt, alloc, going, two, gate),
    )
}

// An entry at one cell ends only once an entry at another was made: the turn of the one does not keep the other waiting.
#[test]
fn cells_go_on_beside_each_other(rt: HostRuntime) -> Result<(), Fail> {
    let alloc = rt.alloc();
    let gate = Arc::new(alloc, AtomicBool::new(false)).expect(&rt, "memory");
    let shared = Arc::try_clone(&gate).expect(&rt, "memory");
    let Ok((waiting, mut ones)) = TurnCell::new(alloc, Tally::new(alloc, 1, Some(shared)), 1) else {
        panic!(rt; "no memory")
    };
    let Ok((going, mut twos)) = TurnCell::new(alloc, Tally::new(alloc, 1, None), 1) else {
        panic!(rt; "no memory")
    };
    let one = ones.pop().expect(&rt, "a seat");
    let two = twos.pop().expect(&rt, "a seat");
    let (one, _two) = both_go(&rt, alloc, &waiting, &going, (one, two), &gate);
    let tally = close_one(waiting, ones, one);
    assert!(rt; tally.saw_gate && tally.len() == 1);
    Ok(())
}
