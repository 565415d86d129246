//! Why a machine refuses a step: which condition of the step fails first, with the state that it is about, and that in words.
//!
//! Stands on what is in the way of a step (`v_obstacle`), on the machine and what is seen of it (`v_machine`), and on the texts of
//! calls and answers (`v_trace`, `vk_text`).
//!
//! The kernel that is looked at is `specs/Kept.antt`, and the words of each reason are `specs/Reasons.antt`.
#![tactic(auto)]

mod finding;
mod messages;
mod moves;
mod places;
mod reason;
mod words;

pub use finding::why;
pub use reason::put_reason;
