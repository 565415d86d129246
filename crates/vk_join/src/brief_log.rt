//! Logs of stations in few bytes.

ghost use Rattle.std.specs.Prelude.{◌≡◌, ◌+◌, ◌<◌, ◌++◌, ◌∷◌, [], length, slice_get, Some, vec_capacity, vec_len, IfOk};
ghost use Rattle.vk_log.specs.Logs.{IsShort, event_of as event_seen};
ghost use Rattle.vk_types.specs.Types.{StationEvent as TheStationEvent};

use std::alloc::Global;
use std::marker::Model;
use vk_base::{List, NoMemory, StationEvent};
use vk_log::{EventLog, StationEventView};
use vk_schedule::StationLog;

/// What happened at one station, in order, in few bytes. Contracts see what they see of a [`StationLog`].
#[derive(Drop)]
pub struct BriefLog {
    host: u16,
    events: EventLog,
}

impl Model for BriefLog {
    ghost use Rattle.vk_schedule.specs.declared.log.StationLog.{StationLog as TheLog};

    ghost Value = { TheLog };

    ghost view = { λ l. record { host = l.host; events = l.events.items } };
}

impl BriefLog {
    /// The log of this station, of which these are the events.
    pub fn new(host: u16, events: EventLog) -> BriefLog
        ensures { result ≡ record { host = host; events = events.items } }
    {
        BriefLog { host, events }
    }

    /// The same log.
    ///
    /// # Errors
    ///
    /// [`NoMemory`] where memory is wanting.
    pub fn of(alloc: Global, log: &StationLog) -> Result<BriefLog, NoMemory>
        ensures { IfOk result (λ l. l ≡ log.now) }
    {
        let mut events = EventLog::new(alloc);
        for event in log.events.as_slice() {
            events.reserve()?;
            events.push(event);
        }
        Ok(BriefLog {
            host: log.host,
            events,
        })
    }

    /// Whose log it is.
    pub fn host(&self) -> u16
        ensures { result ≡ self.now.host }
    {
        self.host
    }

    /// How many events it has.
    pub fn len(&self) -> usize
        ensures { result ≡ length self.now.events }
    {
        self.events.len()
    }

    /// The event at this place, counted from 0.
    pub fn get(&self, at: usize) -> StationEventView<'_>
        requires { at < length self.now.events }
        ensures event { slice_get self.now.events at ≡ Some (event_seen result) }
        ensures short { IsShort result }
    {
        self.events.get(at)
    }

    /// The same log, whose events can be lent whole.
    ///
    /// # Errors
    ///
    /// [`NoMemory`] where memory is wanting.
    pub fn whole(&self, alloc: Global) -> Result<StationLog, NoMemory>
        ensures { IfOk result (λ l. l ≡ self.now) }
    {
        let mut events = Vec::with_capacity(alloc, self.events.len())?;
        for at in 0..self.events.len() {
            push_whole(&mut events, &self.events, at);
        }
        Ok(StationLog {
            host: self.host,
            events: List::new(events),
        })
    }
}

/// Adds the event at this place of the log, for which there is room.
fn push_whole(events: &mut Vec<StationEvent>, log: &EventLog, at: usize)
    requires at { at < length log.now.items }
    requires room { vec_len events.old < vec_capacity events.old }
    ensures items { (e : TheStationEvent) → slice_get log.now.items at ≡ Some e → events.new.items ≡ events.old.items ++ e ∷ [] }
    ensures len { vec_len events.new ≡ vec_len events.old + 1 }
    ensures capacity { vec_capacity events.new ≡ vec_capacity events.old }
{
    events.push_reserved(log.get(at).whole());
}
