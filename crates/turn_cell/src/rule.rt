// What seats know at a cell's table, the table's rule, and what each step on it tells. `specs/Turns.antt` has the rule in words.
ghost use Rattle.turn_cell.specs.Standings.{joined, spent, unsplit, with_first, without_first};
ghost use Rattle.turn_cell.specs.Turns.{Kept, gives_turn, takes_turn};

use crate::replay::Replay;
use atomic_table::{Join, Play, Split, TableRule};
use std::collections::LinkedList;
use std::marker::PhantomData;
use std::snapshot::Snapshot;

/// What a number has seen, its own events, and how often it had the turn. No value of it is made.
pub struct Account<E> {
    pub number: u32,
    pub seen: LinkedList<(u32, E)>,
    pub mine: LinkedList<E>,
    pub turns: u64,
}

/// What a seat knows at the table. It has the numbers from its own up to `limit`, and the accounts of seats that have ended in it.
/// No value of it is made.
pub struct Standing<S, E> {
    /// The state with which the history began. `None` where the seat has ended.
    pub origin: Option<S>,
    pub account: Account<E>,
    pub limit: u32,
    /// Whether it has the turn.
    pub holds: bool,
    pub ended: LinkedList<Account<E>>,
}

/// What the table is told once.
#[derive(Drop)]
pub struct Setup<S> {
    pub start: Snapshot<S>,
    pub seats: u32,
}

/// The rule of a cell's table.
pub struct CellRule<S> {
    marker: PhantomData<S>,
}

impl<S: Replay> TableRule<S, Standing<S, S::Event>, Setup<S>> for CellRule<S> {
    ghost holds = { λ key. Kept S.history S.origin (S.origin key.start.value) key.seats };

    ghost first = { λ key. unsplit (S.origin key.start.value) 0 key.seats };
}

/// The turn is taken, and the state with it.
pub struct Take;

impl<S: Replay> Play<S, Standing<S, S::Event>> for Take {
    ghost then = { takes_turn S.history S.origin };
}

/// The turn is given back, and the state with it.
pub struct Give;

impl<S: Replay> Play<S, Standing<S, S::Event>> for Give {
    ghost then = { gives_turn S.history };
}

/// A new seat gets the first number.
pub struct First;

impl<S, E> Split<Standing<S, E>> for First {
    ghost left = { without_first };

    ghost right = { with_first };
}

/// A seat ends in another, which keeps its account.
pub struct Keep;

impl<S, E> Join<Standing<S, E>> for Keep {
    ghost both = { joined };

    ghost spent = { spent };
}
