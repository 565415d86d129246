//! A state that callers change in turns, each from a thread of its own. The state is the replay of a history, a list of events each
//! with its caller's number. A [`TurnCell`] keeps it under one turn; a caller has a [`TurnSeat`], which knows a beginning of the
//! history and all its own events in it. Each call takes the turn once, and enters at most one event.
//!
//! Stands on `atomic_table` alone. What callers know: `specs/Seats.antt`, and of the state what it says itself as a [`Replay`].
//! The table and its rule are private: the rule is `specs/Turns.antt`, what a seat knows at the table `specs/Standings.antt`;
//! `src/turn.rt` is one turn, `src/cell.rt` the public calls. A state whose history no code reads keeps it as a [`Past`]. No proof says
//! that anybody gets the turn.
#![tactic(auto)]

mod cell;
mod past;
mod replay;
mod rule;
mod seat;
mod turn;

pub use cell::{NoMemory, Ready, TurnCell};
pub use past::Past;
pub use replay::{Replay, Room};
pub use seat::TurnSeat;
