//! The one-machine kernel as fast code, proved equal to its definition: `Machine::apply` answers NotAllowed exactly where the
//! kernel does not allow the step (`specs/Apply.antt`). So does `LeanMachine`, for each kernel that it stands for; it keeps no
//! bytes of remote moves that are spent, and forgets exchanges that are over (`specs/Follows.antt`).
//!
//! Stands on the definition in `vk_base`, on what `v_laws` says of every kernel that a run reaches, and on the steps in few
//! bytes of `vk_brief`.
//!
//! | Files of `src/` | What they do |
//! |---|---|
//! | `machine.rt`, `lean.rt` | the two machines, all that callers see; their errors are `refusal.rt`, a step in few bytes is `brief.rt` |
//! | `look.rt` | what a lean machine keeps, looked at |
//! | `tables.rt`, `tables/` | what is kept (`specs/Tables.antt`, `specs/Kept.antt`): a file for each table with what reads and changes it |
//! | `calls.rt`, `calls/` | the step that is a call: a file for each kind; `access.rt`, `held.rt` where a partner is concerned |
//! | `steps.rt`, `steps/` | the other steps, of messages, moves and lookups; `spent.rt` gives bytes of moves back, and forgets exchanges |
#![tactic(auto)]

mod brief;
mod calls;
mod lean;
mod look;
mod machine;
mod refusal;
mod steps;
mod tables;

pub use lean::LeanMachine;
pub use look::ProcessView;
pub use machine::Machine;
pub use refusal::ApplyRefusal;
pub use tables::sent::Sent;
pub use vk_base::Observation;
