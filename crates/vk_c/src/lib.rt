//! A station for programs in other languages, as a static library. `include/vk_c.h` has its functions for C.
//!
//! Each exported function is one call of `vk_host` on the station that a [`Station`] holds, and says the same of it as that call does;
//! what is no such call is refused by a number of its own (`status`), and changes nothing. `specs/Opening.antt` and `specs/Border.antt` have
//! what is said.
//!
//! A [`Station`] is a pointer and a count that the other program keeps, and never looks into. It holds nothing where its bytes are all 0.
//! Nothing but [`vk_station_open`], [`vk_station_open_with_pools`] and [`vk_station_step`] takes memory.
//!
//! What no proof sees is what the other program owes: that what it passes has the types of the header.
#![tactic(auto)]

mod counts;
mod events;
mod loose;
mod opening;
mod reading;
mod station;
pub mod status;
mod texts;

pub use counts::{vk_station_events, vk_station_now, vk_station_number};
pub use events::{vk_station_call, vk_station_collect, vk_station_deliver, vk_station_tick};
pub use opening::{vk_station_close, vk_station_open, vk_station_open_with_pools};
pub use reading::{
    vk_station_frame, vk_station_frame_count, vk_station_is_done, vk_station_loaded,
};
pub use station::Station;
pub use texts::{vk_station_step, vk_station_step_count};

#[cfg(test)]
mod tests;
