//! What is told of a storm.

ghost use Rattle.std.specs.Prelude.{◌≡◌};
ghost use Rattle.vk_drive.specs.declared.summary.StormRefusal.TheVariants.{NoMemory as memory_wanting};

use thiserror::Error;
use vk_base::NoMemory;

/// What happened in a storm.
#[derive(Clone, Copy, Debug, PartialEq, Eq)]
pub struct StormSummary {
    /// Its number: the seed, and how many events it has.
    pub n: u32,
    /// The frames that were emitted.
    pub frames: u64,
    /// The deliveries that were taken.
    pub taken: u64,
    /// The deliveries that were too old.
    pub old: u64,
    /// The answers that processes were told, at calls and at collects.
    pub answers: u64,
    /// Of these, how many told that nobody answered in time.
    pub timedout: u64,
}

/// Why a storm is not told.
#[derive(Clone, Copy, Debug, PartialEq, Eq, Error)]
pub enum StormRefusal {
    /// The frames that were emitted before an event hold more than 266,076,160 bytes.
    #[error("there are too many bytes of frames")]
    Limit,
    #[error("out of memory")]
    NoMemory,
}

impl From<NoMemory> for StormRefusal {
    ghost from_gives = { λ _ e. e ≡ memory_wanting };

    fn from(_refused: NoMemory) -> StormRefusal {
        StormRefusal::NoMemory
    }
}
