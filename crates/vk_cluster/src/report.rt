//! What a cluster tells of an event.

ghost use Rattle.std.specs.Prelude.{◌≡◌};
ghost use Rattle.vk_cluster.specs.declared.report.ClusterRefusal.TheVariants.{NoMemory as memory_wanting};

use thiserror::Error;
use vk_base::{EventAnswer, NoMemory};
use vk_host::Response;

/// What became of one event, in few bytes. Until the next event a [`StepReport`] can be made of it.
#[derive(Clone, Copy)]
pub enum Advance {
    /// There was nothing to deliver to this station.
    Missing { host: u16 },
    /// The station in this place had the event, and answers so.
    Event { place: usize, response: Response },
}

/// What became of one event.
#[derive(Drop)]
pub struct StepReport {
    /// The station that acts.
    pub host: u16,
    /// Which of its events this is, counted from 1; 0 where the delivery is missing.
    pub event: u64,
    pub answer: ClusterAnswer,
}

/// The station's answer, or that there is nothing to deliver: the frame was not emitted, or is for another station.
#[derive(Drop)]
pub enum ClusterAnswer {
    Missing,
    Event { answer: EventAnswer },
}

/// Why no event happened. Nothing has changed.
#[derive(Clone, Copy, Debug, PartialEq, Eq, Error)]
pub enum ClusterRefusal {
    /// There were 100,000 events, or the frames so far hold more than 266,076,160 bytes.
    #[error("there are too many events, or too many bytes of frames")]
    Limit,
    #[error("out of memory")]
    NoMemory,
}

impl From<NoMemory> for ClusterRefusal {
    ghost from_gives = { λ _ e. e ≡ memory_wanting };

    fn from(_refused: NoMemory) -> ClusterRefusal {
        ClusterRefusal::NoMemory
    }
}
