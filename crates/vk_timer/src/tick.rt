//! A tick of the clock with a station's times.

use vk_base::Times;

/// A tick of the clock, which is below 2^48 (`STATION_EVENTS`), and how often and how long a station tries.
#[derive(Clone, Copy, Debug, PartialEq, Eq)]
pub struct Tick {
    pub at: u64,
    pub times: Times,
}
