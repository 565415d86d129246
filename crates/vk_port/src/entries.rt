//! The entries of a history: events, each with its caller's number.

ghost use Rattle.std.specs.Prelude.{◌≡◌, ◌≤◌, ◌<◌, ◌++◌, ◌∷◌, [], length, map, slice_get, Some, IfOk, OnOk};
ghost use Rattle.vk_log.specs.Logs.{event_of as event_seen};
ghost use Rattle.vk_port.specs.Stations.{event_of};

use std::alloc::Global;
use std::marker::Model;
use turn_cell::Past;
use vk_base::{NoMemory, StationEvent};
use vk_log::{EventLog, StationEventView};

/// Events in the order in which they were entered. Who entered them only clauses read.
#[derive(Drop)]
pub struct Entries {
    past: Past<StationEvent>,
    events: EventLog,
}

impl Model for Entries {
    ghost use Rattle.std.specs.Prelude.{◌≡◌, map};
    ghost use Rattle.vk_port.specs.Kept.{EntryList};
    ghost use Rattle.vk_port.specs.Stations.{event_of};

    ghost Value = { EntryList };

    ghost view = { λ e. record { items = e.past; spare = e.events.spare } };

    ghost invariant = { λ e. e.events.items ≡ map event_of e.past };
}

impl Entries {
    /// No entries, with room for so many and for so many bytes.
    pub fn with_room(alloc: Global, events: usize, bytes: usize) -> Result<Self, NoMemory>
        ensures { IfOk result (λ e. e.items ≡ []) }
    {
        Ok(Entries {
            past: Past::new(),
            events: EventLog::with_room(alloc, events, bytes)?,
        })
    }

    /// Makes room for one more.
    pub fn reserve(&mut self) -> Result<(), NoMemory>
        ensures items { self.new.items ≡ self.old.items }
        ensures room { OnOk result (1 ≤ self.new.spare) }
    {
        self.events.reserve()
    }

    /// One more, for which there is room.
    pub fn push(&mut self, caller: u32, event: &StationEvent)
        requires { 1 ≤ self.old.spare }
        ensures { self.new.items ≡ self.old.items ++ (caller, event.now) ∷ [] }
    {
        self.past.push(caller, event);
        self.events.push(event);
    }

    /// How many there are.
    pub fn len(&self) -> usize
        ensures { result ≡ length self.now.items }
    {
        self.events.len()
    }

    /// The event with this number, counted from 0.
    pub fn get(&self, at: usize) -> StationEventView<'_>
        requires { at < length self.now.items }
        ensures { slice_get (map event_of self.now.items) at ≡ Some (event_seen result) }
    {
        self.events.get(at)
    }

    /// The events alone. It takes no memory.
    pub fn into_events(self) -> EventLog
        ensures { result.items ≡ map event_of self.items }
    {
        let Entries { past: _, events } = self;
        events
    }
}
