//! What is wrong with a line of a text: at which word no line of the text goes on, and what could stand there.
//!
//! The grammar of each text is a table of forms, in the notation of `docs/FORMATS.md`: a form is a line whose words stand for themselves,
//! or, in upper case, for the words of a kind. Stands on the values of `vk_base` and the words of `vk_text`, and for its laws on the steps
//! of `v_trace`. A new line of a text is a row of a table in `table.rt` and in `specs/Forms.antt`, a new kind of word one in `slot.rt`
//! and in `specs/Slots.antt`.
#![tactic(auto)]

mod fault;
mod follow;
mod law;
mod slot;
mod table;
mod told;

pub use fault::{fault_of, put_fault};
pub use law::{marks_are_exact, steps_follow_forms};
pub use table::TextKind;
