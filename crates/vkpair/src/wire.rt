//! Frames on their way to one station.

ghost use Rattle.std.specs.Prelude.{◌≡◌, ◌++◌, [], None, IfOk};
ghost use Rattle.std.specs.Option.{option_to_list};

use crate::fault::Fault;
use std::alloc::Global;
use std::collections::LinkedList;
use vk_base::FrameBytes;
use vk_host::Host;

/// Frames on their way to one station, the oldest first.
#[derive(Drop)]
pub struct Wire {
    frames: LinkedList<FrameBytes>,
}

impl Wire {
    /// A wire without frames.
    pub fn new(alloc: Global) -> Self
        ensures { result.frames ≡ [] }
    {
        Wire {
            frames: LinkedList::new(alloc),
        }
    }

    /// Takes the frames of the station's last event, behind those that it has.
    ///
    /// # Errors
    ///
    /// [`Fault::NoMemory`] where memory is wanting; then it has taken some of them.
    #[tactic(auto, using(crate::proofs::Loops::one_more))]
    pub fn take(&mut self, host: &Host) -> Result<(), Fault>
        ensures { IfOk result (λ _. self.new.frames ≡ self.old.frames ++ host.now.frames) }
    {
        for at in 0..host.frame_count() {
            let Some(frame) = FrameBytes::new(host.frame(at)) else {
                return Err(Fault::TooLong);
            };
            if self.frames.push_back(frame).is_err() {
                return Err(Fault::NoMemory);
            }
        }
        Ok(())
    }

    /// The oldest frame, which is taken off the wire.
    pub fn next(&mut self) -> Option<FrameBytes>
        ensures frames { self.old.frames ≡ option_to_list result ++ self.new.frames }
        ensures none { result ≡ None → self.old.frames ≡ [] }
    {
        self.frames.pop_front()
    }
}
