//! When the tables of a station stand for a reading of its entries, and that each kind of change of them keeps it.
//!
//! Definitions, lemmas, and two laws as contracts of functions without a body. Stands on the definitions of stations
//! (`vk_rules`) and on the tables (`vk_procs`, `vk_pool`, `vk_queue`, `vk_names`); the crates of rules (`vk_local`, `vk_remote`,
//! `vk_move`) cite it. Tables as plain values are in `specs/Tables.antt`, that they fit each other in `specs/Fit.antt`, the relation in
//! `specs/Stands.antt`, and what a rule promises in `specs/Rules.antt`.
//!
//! Lemmas stand by kind of change in `proofs/`. What a reading says after an entry is `After`, `AfterCalls`, `AfterEntries` and
//! `AfterFrames`. Within an entry the tables go on step by step: `Parts` has what is kept then (`Part`) and what tables keep of
//! earlier ones (`Carries`), `Views` the part of the relation that speaks of view and tables alone, `OneSeat` and `OneAlien` the
//! changes of one process and of one alien; `CallStands` gives the relation after the whole entry.
//! A message that is handed on changes its Send, the notes of its sender or its alien, and two lists: `HandedOn`, `LocalForward`,
//! `AlienForward`.
//! What a tick does to the tables is in `specs/Ticks.antt`, for all processes and aliens at once (`Ticks`).
#![tactic(auto)]

ghost use Rattle.vk_stands.specs.Opening.{NewTablesFit, NewTablesStand};
ghost use Rattle.vk_stands.specs.Ticks.{TicksAreRight, TicksKeepFit};

/// The tables of a new station, of any settings without a fault, fit each other and stand for the reading of no entries.
pub fn new_tables_stand()
    ensures fit { NewTablesFit }
    ensures stands { NewTablesStand }
{}

/// What a tick makes of all processes and aliens of a station is the right entry for it, and the tables, which fit, then stand for
/// the reading after it.
pub fn ticks_stand()
    ensures right { TicksAreRight }
    ensures fit { TicksKeepFit }
{}
