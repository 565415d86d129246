//! Where a hub puts what an event gives.
ghost use Rattle.std.specs.Prelude.{◌≡◌, [], None};
ghost use Rattle.vk_hub.specs.Hubs.{fetched_as};

use crate::event::{Arrival, Fetched};
use crate::places::Delivery;

/// Where a hub puts what an event gives: `None` for all but a fetch, and the frame that a fetch gave last. It can be used for one event
/// after the other.
#[derive(Drop)]
pub struct HubOut {
    pub arrival: Option<Arrival>,
    pub delivery: Delivery,
    /// For which stations a frame waits after a post, by their places, bit by bit.
    pub reached: u32,
    /// A frame is left for the station of the last fetch that was entered.
    pub more: bool,
    /// The hub has ended.
    pub ended: bool,
}

impl HubOut {
    /// Of no event.
    pub fn new() -> HubOut
        ensures arrival { result.arrival ≡ None }
        ensures delivery { result.delivery ≡ [] }
    {
        HubOut {
            arrival: None,
            delivery: Delivery::new(),
            reached: 0,
            more: false,
            ended: false,
        }
    }

    /// What a fetch gave that is answered so.
    pub fn fetched(&self, arrival: Arrival) -> Fetched
        ensures { result ≡ fetched_as arrival self.now.delivery }
    {
        match arrival {
            Arrival::Frame => Fetched::Frame {
                frame: self.delivery.frame().copy(),
            },
            Arrival::Stopped => Fetched::Stopped,
            Arrival::Nothing => Fetched::Nothing,
        }
    }
}
