//! What happens in a storm, and what is told of it.

ghost use Rattle.std.specs.Prelude.{◌≡◌, [], List, IfErr, IfOk, OnErr};
ghost use Rattle.vk_schedule.specs.declared.event.Event.{Event as TheEvent};
ghost use Rattle.vk_drive.specs.Driving.{EmitsManyBytes, HasHappened, IsCourse, MayHappen};
ghost use Rattle.vk_drive.specs.Tasks.{settings};

use crate::counts::StormCounts;
use crate::next::NextEvent;
use crate::stations::StormStations;
use crate::summary::StormRefusal;
use std::alloc::Global;
use vk_base::{Config, NoMemory};
use vk_host::Response;

/// The stations, and the numbers that are told.
#[derive(Drop)]
pub struct StormCourse {
    pub stations: StormStations,
    pub counts: StormCounts,
    /// What the station of the last event answered.
    pub response: Response,
}

impl StormCourse {
    /// Before the first event.
    ///
    /// # Errors
    ///
    /// [`NoMemory`] where memory is wanting.
    pub fn new(alloc: Global, config: &Config) -> Result<Self, NoMemory>
        requires { config.now ≡ settings }
        ensures { IfOk result (IsCourse []) }
    {
        Ok(StormCourse {
            stations: StormStations::new(alloc, config)?,
            counts: StormCounts::new(),
            response: Response::Begun,
        })
    }

    /// One event more, with the frame in this place where it is a delivery. Gives the place of the station that had it. Takes no memory.
    ///
    /// # Errors
    ///
    /// [`StormRefusal::Limit`] exactly where the frames so far hold more than 266,076,160 bytes.
    pub fn happen(&mut self, next: &NextEvent, frame: usize) -> Result<usize, StormRefusal>
        requires { (es : List TheEvent) × IsCourse es self.old × MayHappen es self.old.stations next.now frame }
        ensures happened { (es : List TheEvent) → IsCourse es self.old → MayHappen es self.old.stations next.now frame →
            IfOk result (HasHappened es self.new next.now) }
        ensures limit { (es : List TheEvent) → IsCourse es self.old → OnErr result (EmitsManyBytes es) }
        ensures cause { IfErr result (λ e. e ≡ StormRefusal.Limit) }
    {
        if self.stations.is_full() {
            return Err(StormRefusal::Limit);
        }
        let place = self.stations.play(next, frame, &mut self.response);
        let frames = self.stations.station(place).frame_count();
        self.counts.count(frames, &self.response);
        Ok(place)
    }
}
