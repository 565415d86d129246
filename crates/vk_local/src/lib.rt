//! Calls within one station, as rules over its tables: a Send, a receive, a reply and a move between two of its processes, the Take
//! of a process that waits for a message, a message handed on to another process, and an exit.
//!
//! Stands on the tables (`vk_procs`, `vk_queue`, `vk_pool`, `vk_names`) and on what they stand for (`vk_stands`). What each rule does
//! to the tables is a short function in `specs/`. No call takes memory.
#![tactic(auto)]

mod access;
mod exits;
mod forwards;
mod moves;
mod receives;
mod replies;
mod sends;
mod serving;

pub use access::{Segment, own_range};
pub use exits::{Left, exit};
pub use forwards::forward;
pub use moves::{move_from, move_to};
pub use receives::receive;
pub use replies::{reply, reply_segment};
pub use sends::send;
pub use serving::serve;
