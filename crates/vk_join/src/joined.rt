//! Schedules that are joined, in few bytes.

ghost use Rattle.std.specs.Prelude.{◌≡◌, Ok, map, IfOk};
ghost use Rattle.vk_join.specs.Merges.{events_of};
ghost use Rattle.vk_join.specs.Replays.{turn_for};
ghost use Rattle.vk_schedule.specs.Lawful.{IsLawful};
ghost use Rattle.vk_schedule.specs.Schedule.{schedule_of};
ghost use Rattle.vk_schedule.specs.Spelling.{schedule_text};

use crate::brief_log::BriefLog;
use crate::merge::{key_at, push_event, write_event};
use crate::replay::Key;
use std::alloc::Global;
use std::marker::Model;
use vk_base::{Config, List, NoMemory};
use vk_schedule::{Schedule, ScheduleWriter};

/// A schedule whose events stand in the logs of its stations: beside these it has a key for each event. Contracts see the [`Schedule`].
#[derive(Drop)]
pub struct JoinedSchedule {
    config: Config,
    logs: Vec<BriefLog>,
    keys: Vec<Key>,
}

impl Model for JoinedSchedule {
    ghost use Rattle.std.specs.Prelude.{map};
    ghost use Rattle.vk_join.specs.Merges.{events_of};
    ghost use Rattle.vk_join.specs.Replays.{turn_for};
    ghost use Rattle.vk_schedule.specs.declared.schedule.Schedule.{Schedule as TheSchedule};

    ghost Value = { TheSchedule };

    ghost view = { λ s. record { config = s.config; events = events_of (map (turn_for s.logs.items) s.keys.items) } };
}

impl JoinedSchedule {
    /// The schedule of the events that the keys stand for, in their order.
    pub(crate) fn new(config: Config, logs: Vec<BriefLog>, keys: Vec<Key>) -> JoinedSchedule
        ensures { result ≡ record { config = config; events = events_of (map (turn_for logs.items) keys.items) } }
    {
        JoinedSchedule { config, logs, keys }
    }

    /// The schedule with its events whole.
    ///
    /// # Errors
    ///
    /// [`NoMemory`] where memory is wanting.
    pub fn whole(&self, alloc: Global) -> Result<Schedule, NoMemory>
        ensures { IfOk result (λ s. s ≡ self.now) }
    {
        let mut events = Vec::with_capacity(alloc, self.keys.len())?;
        for at in 0..self.keys.len() {
            push_event(&mut events, &self.logs, key_at(&self.keys, at));
        }
        Ok(Schedule {
            config: self.config.copy(alloc)?,
            events: List::new(events),
        })
    }

    /// The text of the schedule, which is lawful: reading it gives the schedule again.
    ///
    /// # Errors
    ///
    /// [`NoMemory`] where memory is wanting.
    pub fn write(&self, alloc: Global) -> Result<Vec<u8>, NoMemory>
        requires { IsLawful self.now }
        ensures text { IfOk result (λ v. v.items ≡ schedule_text self.now) }
        ensures read { IfOk result (λ v. schedule_of v.items ≡ Ok self.now) }
    {
        let mut writer = ScheduleWriter::new(alloc, &self.config)?;
        for at in 0..self.keys.len() {
            write_event(alloc, &mut writer, &self.logs, key_at(&self.keys, at))?;
        }
        writer.into_bytes()
    }
}
