//! Events of a station whose bytes are lent.

ghost use Rattle.std.specs.Prelude.{◌≡◌, ◌≤◌, length};
ghost use Rattle.vk_base.specs.declared.limits.TheConstants.{FRAME_BYTES as BYTES};
ghost use Rattle.vk_log.specs.Logs.{IsShort, event_of};

use vk_base::{FrameBytes, Pid, StationEvent};
use vk_brief::CallView;

/// A [`StationEvent`] whose bytes, where it has some, are lent.
#[derive(Drop)]
pub enum StationEventView<'a> {
    Call { pid: Pid, call: CallView<'a> },
    Collect { pid: Pid },
    Tick,
    Deliver { frame: &'a [u8] },
}

impl<'a> StationEventView<'a> {
    /// The event itself.
    pub fn whole(&self) -> StationEvent
        requires { IsShort self.now }
        ensures { result ≡ event_of self.now }
    {
        match self {
            StationEventView::Call { pid, call } => StationEvent::Call {
                pid: *pid,
                call: call.whole(),
            },
            StationEventView::Collect { pid } => StationEvent::Collect { pid: *pid },
            StationEventView::Tick => StationEvent::Tick,
            StationEventView::Deliver { frame } => StationEvent::Deliver {
                frame: frame_of(frame),
            },
        }
    }
}

/// The frame of these bytes, which are not too many.
fn frame_of(bytes: &[u8]) -> FrameBytes
    requires { length bytes.now ≤ BYTES }
    ensures { result ≡ bytes.now }
{
    match FrameBytes::new(bytes) {
        Some(frame) => frame,
        None => unreachable!(),
    }
}
