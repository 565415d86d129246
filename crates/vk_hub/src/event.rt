ghost use Rattle.std.specs.Prelude.{◌≡◌};
ghost use Rattle.vk_hub.specs.Hubs.{is_halt};

use vk_base::FrameBytes;

/// What is entered into a hub's history.
#[derive(Drop)]
pub enum HubEvent {
    /// The frame goes to the stations that it is addressed to.
    Post { frame: FrameBytes },
    /// The station takes what has waited longest for it.
    Fetch { host: u16 },
    /// One program more has finished.
    Finished,
    /// The hub ends.
    Halt,
}

/// What a fetch gives.
#[derive(Drop)]
pub enum Fetched {
    Frame { frame: FrameBytes },
    /// The hub is halted, or all programs have finished, for good. It comes before a frame that waits.
    Stopped,
    /// No frame waits for the station.
    Nothing,
}

/// A [`Fetched`] whose frame stands elsewhere.
#[derive(Clone, Copy)]
pub enum Arrival {
    Frame,
    Stopped,
    Nothing,
}

impl HubEvent {
    /// Whether it ends the hub.
    pub fn is_halt(&self) -> bool
        ensures { result ≡ is_halt self.now }
    {
        matches!(self, HubEvent::Halt)
    }
}
