ghost use Rattle.std.specs.Prelude.{◌≡◌, ℕ, ◌+◌, ◌<◌, ◌≤◌, true, false, [], ◌∷◌, IsOk, IfOk, IfErr, OnOk, OnErr, Some, slice_get, All, eqb, map, vec_len, vec_capacity};
ghost use Rattle.std.specs.List.{IsDistinct, range_with_len};
ghost use Rattle.std.specs.List.Sorted.{IsPermutation};
ghost use mathlib.Core.List.{IsPrefix};
ghost use Rattle.turn_cell.specs.Held.{IsWhole, account_of};
ghost use Rattle.turn_cell.specs.History.{events_of};
ghost use Rattle.turn_cell.specs.Rooms.{is_full};
ghost use Rattle.turn_cell.specs.Seats.{HasEntered, HasLooked, IsComplete, IsSameSeat, IsSeatOf, fresh, numbers_of};
ghost use Rattle.turn_cell.specs.Standings.{accounts_in, unsplit};

use crate::replay::{Replay, Room};
use crate::rule::{CellRule, First, Keep, Setup, Standing};
use crate::seat::{Place, TurnSeat};
use crate::turn::{Board, begin, enter, is_ready, leave};
use atomic_table::{Refused, Table};
use std::alloc::Global;
use std::marker::Model;
use std::snapshot::Snapshot;
use std::sync::Wait;
use thiserror::Error;

/// There was no memory for a cell.
#[derive(Clone, Copy, Debug, PartialEq, Eq, Error)]
#[error("out of memory")]
pub struct NoMemory;

/// What a call of `step_when_ready` that was not refused did.
#[derive(Clone, Copy, Debug, PartialEq, Eq)]
pub enum Ready {
    /// It entered the event.
    Done,
    /// It entered nothing, since the event was not ready.
    NotYet,
}

/// A state under a turn. Contracts see which table it is, the state with which its history began, and how many seats were made.
#[derive(Drop)]
pub struct TurnCell<S: Replay> {
    table: Table<S, Standing<S, S::Event>, Setup<S>, CellRule<S>, Global>,
}

impl<S: Replay> Model for TurnCell<S> {
    ghost use Rattle.std.specs.Prelude.{◌≡◌, ◌≤◌};
    ghost use Rattle.turn_cell.specs.Seats.{Cell};

    ghost Value = { Cell S };

    ghost view = { λ c. record {
      table = c.table.shared.table_id;
      origin = S.origin c.table.shared.key.start.value;
      seats = c.table.shared.key.seats;
    } };

    ghost invariant = { λ c. (c.table.shared.table_id.words ≡ 1) × (c.table.shared.table_id.slots ≡ 1) × (1 ≤ c.table.shared.key.seats) };
}

impl<S: Replay> TurnCell<S> {
    /// A cell whose state is `start`, and its seats, whose numbers run from 0.
    pub fn new(
        alloc: Global,
        start: S,
        seats: u32,
    ) -> Result<(TurnCell<S>, Vec<TurnSeat<S>>), NoMemory>
        requires seats { 1 ≤ seats }
        requires empty { S.history start ≡ [] }
        ensures cell { IfOk result (λ made. (made.0.origin ≡ S.origin start) × (made.0.seats ≡ seats)) }
        ensures count { IfOk result (λ made. vec_len made.1 ≡ seats) }
        ensures each { IfOk result (λ made. (k : ℕ) → k < seats → slice_get made.1.items k ≡ Some (fresh made.0 k)) }
    {
        let Ok(mut dealt) = Vec::with_capacity(alloc, seats as usize) else {
            return Err(NoMemory);
        };
        let setup = Setup {
            start: Snapshot::of(&start),
            seats,
        };
        let Ok(mut slots) = Vec::with_capacity(alloc, 1) else {
            return Err(NoMemory);
        };
        slots.push_reserved(start);
        match Table::new(alloc, &[0], slots, &setup) {
            Ok((table, place)) => {
                deal(&table.shared, place, seats, &mut dealt);
                Ok((TurnCell { table }, dealt))
            }
            Err(Refused { slots: _ }) => Err(NoMemory),
        }
    }

    /// Enters the event under one turn, for which it waits. The seat has then seen the history up to its entry, and `out` is what
    /// the event gives after the history before that. Where it is refused the history stays, and the seat has seen it: `Full`
    /// comes exactly where that history may not grow by the event.
    pub fn step<R: Wait>(
        &self,
        rt: &R,
        alloc: Global,
        seat: &mut TurnSeat<S>,
        event: &S::Event,
        out: &mut S::Out,
    ) -> Result<(), Room>
        requires seat { IsSeatOf self.now seat.old }
        requires event_fits { S.event_fits self.now.origin event.now }
        requires out_fits { S.out_fits event.now out.old }
        ensures same { IsSameSeat seat.old seat.new }
        ensures complete { IsComplete seat.new }
        ensures turns { seat.new.turns ≡ seat.old.turns + 1 }
        ensures out_fits { (other : S.Event) → S.out_fits other out.old → S.out_fits other out.new }
        ensures ok { OnOk result (HasEntered (λ before. (S.full_at self.now.origin before event.now ≡ false)
            × S.gives self.now.origin before seat.old.number event.now out.old out.new) seat.old seat.new event.now) }
        ensures err { OnErr result (HasLooked seat.old seat.new × (out.new ≡ out.old)) }
        ensures refused { IfErr result (λ why. S.full_at self.now.origin seat.new.seen event.now ≡ is_full why) }
    {
        let board = &self.table.shared;
        let found = begin(rt, board, &mut seat.seat);
        enter(board, &mut seat.seat, found, seat.number, alloc, event, out)
    }

    /// The same where the event is ready after the history at this turn, which is asked before room is made. Else it is `NotYet`:
    /// nothing is entered, and the seat has seen the history. It is never refused for an event that has its own room.
    pub fn step_when_ready<R: Wait>(
        &self,
        rt: &R,
        alloc: Global,
        seat: &mut TurnSeat<S>,
        event: &S::Event,
        out: &mut S::Out,
    ) -> Result<Ready, Room>
        requires seat { IsSeatOf self.now seat.old }
        requires event_fits { S.event_fits self.now.origin event.now }
        requires out_fits { S.out_fits event.now out.old }
        ensures same { IsSameSeat seat.old seat.new }
        ensures complete { IsComplete seat.new }
        ensures turns { seat.new.turns ≡ seat.old.turns + 1 }
        ensures out_fits { (other : S.Event) → S.out_fits other out.old → S.out_fits other out.new }
        ensures done { IfOk result (λ r. r ≡ Ready.Done → HasEntered (λ before. (S.ready_at self.now.origin before event.now ≡ true)
            × (S.full_at self.now.origin before event.now ≡ false)
            × S.gives self.now.origin before seat.old.number event.now out.old out.new) seat.old seat.new event.now) }
        ensures not_yet { IfOk result (λ r. r ≡ Ready.NotYet → HasLooked seat.old seat.new × (out.new ≡ out.old)
            × (S.ready_at self.now.origin seat.new.seen event.now ≡ false)) }
        ensures err { OnErr result (HasLooked seat.old seat.new × (out.new ≡ out.old)
            × (S.ready_at self.now.origin seat.new.seen event.now ≡ true)) }
        ensures refused { IfErr result (λ why. S.full_at self.now.origin seat.new.seen event.now ≡ is_full why) }
        ensures own { S.has_own_room event.now ≡ true → IsOk result }
    {
        let board = &self.table.shared;
        let word = begin(rt, board, &mut seat.seat);
        if !is_ready(board, &mut seat.seat, word, event) {
            leave(board, &mut seat.seat, word);
            return Ok(Ready::NotYet);
        }
        match enter(board, &mut seat.seat, word, seat.number, alloc, event, out) {
            Ok(()) => Ok(Ready::Done),
            Err(why) => Err(why),
        }
    }

    /// The state, once all seats have come back: their numbers are those below the count of seats, each once. Its history begins
    /// with what each seat has seen, and has just the events of these seats, those of each once and in order. It takes no memory.
    pub fn close(self, seats: Vec<TurnSeat<S>>) -> S
        requires seats { All (λ s. IsSeatOf self s) seats.items }
        requires all { vec_len seats ≡ self.seats }
        ensures origin { S.origin result ≡ self.origin }
        ensures seen { All (λ s. IsPrefix s.seen (S.history result)) seats.items }
        ensures mine { All (λ s. events_of s.number (S.history result) ≡ s.mine) seats.items }
        ensures others { (k : ℕ) → self.seats ≤ k → events_of k (S.history result) ≡ [] }
        ensures below { All (λ s. s.number < self.seats) seats.items }
        ensures different { IsDistinct eqb (numbers_of seats.items) }
        ensures numbers { IsPermutation (numbers_of seats.items) (range_with_len 0 self.seats) }
    {
        let TurnCell { table } = self;
        let place = gather(&table.shared, seats);
        let mut closed = table.close_with(place);
        let state = closed.take(0);
        closed.free();
        state
    }
}

// Gives each number from the place's own up to `seats` to a seat of its own.
fn deal<S: Replay>(board: &Board<S>, mut place: Place<S>, seats: u32, dealt: &mut Vec<TurnSeat<S>>)
    requires board { (place.table_id ≡ board.now.table_id) × (board.now.table_id.words ≡ 1) }
    requires place { place.me ≡ (unsplit (S.origin board.now.key.start.value) 0 seats, []) }
    requires room { (dealt.old.items ≡ []) × (1 ≤ seats) × (seats ≤ vec_capacity dealt.old) }
    ensures count { vec_len dealt.new ≡ seats }
    ensures each { (k : ℕ) → k < seats → slice_get dealt.new.items k
        ≡ Some (fresh (record { table = board.now.table_id; origin = S.origin board.now.key.start.value; seats = seats }) k) }
{
    let mut number = 0;
    while number + 1 < seats {
        let seat = board.split_seat::<First>(&mut place);
        dealt.push_reserved(TurnSeat { number, seat });
        number += 1;
    }
    dealt.push_reserved(TurnSeat {
        number,
        seat: place,
    });
}

// Joins all seats into one place at the table, which keeps the account of each in their order.
fn gather<S: Replay>(board: &Board<S>, mut seats: Vec<TurnSeat<S>>) -> Place<S>
    requires board { board.now.table_id.words ≡ 1 }
    requires seats { All (λ s. s.table ≡ board.now.table_id) seats.items }
    requires some { 0 < vec_len seats }
    ensures place { (result.table_id ≡ board.now.table_id) × IsWhole result.me }
    ensures accounts { accounts_in result.me.0 ≡ map account_of seats.items }
{
    let mut place = match seats.pop() {
        Some(seat) => seat.into_place(),
        None => unreachable!(),
    };
    while let Some(seat) = seats.pop() {
        board.join_seat::<Keep>(&mut place, seat.into_place());
    }
    place
}
