//! Both ends of a move between stations: a mover's, which begins it and sends its rounds, and that of the sender whose memory is
//! moved.
//!
//! Stands on the tables of a station (`vk_procs`, `vk_pool`), on works (`vk_timer`) and packets (`vk_packet`), and on what it
//! means that tables stand for a reading (`vk_stands`). What each rule does to the tables is a function on plain values in
//! `specs/`; a file of `src/` has one end of a move each. Nothing is allocated, and bytes go from a memory straight into a packet.
#![tactic(auto)]

mod begun;
mod mover;
mod moves;
mod places;
mod rounds;
mod sender;
mod take;
mod tick;

pub use begun::begin;
pub use take::take_packet;
pub use tick::due;
