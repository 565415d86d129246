//! One caller's access to a station that threads share, and to the links between stations.
//!
//! [`Station`] is a station under a turn: the replay of its history, a list of events each with its caller's number. What a history
//! makes of it and what it answers is `specs/Stations.antt`. [`Port`] has a seat at a station's cell and one at the hub: it makes calls,
//! collects answers and ticks the clock there, delivers the frames that it fetches, and posts the frames of each event that it
//! entered. What it does with its two seats is `specs/Ports.antt`: the port's log. [`Rest`] is what a process does
//! that found nothing to do: it waits by a bell of the hub, and an event rings for those that it gave something to collect. Stands on
//! `vk_host` and `vk_hub`.
#![tactic(auto)]

mod access;
mod entries;
mod opened;
mod port;
mod rest;
mod station;
mod station_out;
mod woken;

pub use port::{Collected, Port, PortNoMemory, Pumped};
pub use rest::{Rest, Sleep};
pub use station::Station;
pub use station_out::StationOut;
