//! Logs of stations.

use vk_base::{List, StationEvent};

/// What happened at one station, in order.
#[derive(Drop)]
pub struct StationLog {
    pub host: u16,
    pub events: List<StationEvent>,
}
