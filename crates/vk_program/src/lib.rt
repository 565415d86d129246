//! Programs of processes: what a process calls next, after the answers so far. Scripts are the simplest.
//!
//! Stands on `vk_base` alone.
#![tactic(auto)]

mod assigned;
mod program;
mod script;

pub use assigned::Assigned;
pub use program::Program;
pub use script::Script;
