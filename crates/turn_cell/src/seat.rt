ghost use Rattle.std.specs.Prelude.{◌≡◌};
ghost use Rattle.turn_cell.specs.Held.{IsIdle, sitting};

use crate::replay::Replay;
use crate::rule::Standing;
use atomic_table::Seat;
use std::marker::Model;

// A seat at the table of a cell.
pub(crate) type Place<S> = Seat<S, Standing<S, <S as Replay>::Event>>;

/// The right to call one cell. Contracts see the cell's table and origin, the seat's number, the history that it has seen, its
/// own events, and how often it had the turn.
#[derive(Drop)]
pub struct TurnSeat<S: Replay> {
    pub(crate) number: u32,
    pub(crate) seat: Place<S>,
}

impl<S: Replay> Model for TurnSeat<S> {
    ghost use Rattle.turn_cell.specs.Held.{IsIdle, sitting};
    ghost use Rattle.turn_cell.specs.Seats.{Sitting};

    ghost Value = { Sitting S S.Event };

    ghost view = { λ s. sitting s.seat.table_id s.number s.seat.me };

    ghost invariant = { λ s. IsIdle s.number s.seat.me };
}

impl<S: Replay> TurnSeat<S> {
    /// Its number, counted from 0 in its cell.
    pub fn number(&self) -> u32
        ensures { result ≡ self.now.number }
    {
        self.number
    }

    pub(crate) fn into_place(self) -> Place<S>
        ensures idle { IsIdle self.number result.me }
        ensures same { self ≡ sitting result.table_id self.number result.me }
    {
        let TurnSeat { number: _, seat } = self;
        seat
    }
}
