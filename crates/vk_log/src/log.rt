//! A list of a station's events.

ghost use Rattle.std.specs.Prelude.{◌≡◌, ◌+◌, ◌-◌, ◌≤◌, ◌<◌, ◌++◌, ◌∷◌, [], length, slice_get, Some, IfOk, OnOk, vec_capacity, vec_len};
ghost use Rattle.vk_log.specs.Logs.{IsShort, event_of, part_in};

use crate::entry::{Entry, Part};
use crate::view::StationEventView;
use std::alloc::Global;
use std::marker::Model;
use vk_base::limits::FRAME_BYTES;
use vk_base::{NoMemory, StationEvent};
use vk_brief::{BriefCall, CallView};

/// Events of a station, in order. Contracts see them, and for how many more there is room, whatever they are.
#[derive(Drop)]
pub struct EventLog {
    entries: Vec<Entry>,
    bytes: Vec<u8>,
}

impl Model for EventLog {
    ghost use Rattle.std.specs.Prelude.{◌-◌, ◌/◌, All, length, map, min, vec_len, vec_capacity};
    ghost use Rattle.vk_base.specs.declared.limits.TheConstants.{FRAME_BYTES};
    ghost use Rattle.vk_log.specs.Logs.{EventList, IsWithin, event_in};

    ghost Value = { EventList };

    ghost view = { λ l. record {
      items = map (event_in l.bytes.items) l.entries.items;
      spare = min (vec_capacity l.entries - vec_len l.entries) ((vec_capacity l.bytes - vec_len l.bytes) / FRAME_BYTES);
    } };

    ghost invariant = { λ l. All (IsWithin (length l.bytes.items)) l.entries.items };
}

impl EventLog {
    /// No events. It takes no memory.
    pub fn new(alloc: Global) -> Self
        ensures { result.items ≡ [] }
    {
        EventLog {
            entries: Vec::new(alloc),
            bytes: Vec::new(alloc),
        }
    }

    /// No events, with room for so many of them and for so many bytes. A list that begins with many pages grows by moving them, whichever
    /// thread makes it grow, and a page is taken when it is written.
    ///
    /// # Errors
    ///
    /// [`NoMemory`] where memory is wanting.
    pub fn with_room(alloc: Global, events: usize, bytes: usize) -> Result<Self, NoMemory>
        ensures { IfOk result (λ l. l.items ≡ []) }
    {
        Ok(EventLog {
            entries: Vec::with_capacity(alloc, events)?,
            bytes: Vec::with_capacity(alloc, bytes)?,
        })
    }

    /// Makes room for one more, whatever it is.
    ///
    /// # Errors
    ///
    /// [`NoMemory`] where memory is wanting.
    pub fn reserve(&mut self) -> Result<(), NoMemory>
        ensures items { self.new.items ≡ self.old.items }
        ensures room { OnOk result (1 ≤ self.new.spare) }
    {
        self.entries.reserve(1)?;
        self.bytes.reserve(FRAME_BYTES)?;
        Ok(())
    }

    /// One more, for which there is room. It takes no memory.
    pub fn push(&mut self, event: &StationEvent)
        requires { 1 ≤ self.old.spare }
        ensures { self.new.items ≡ self.old.items ++ event.now ∷ [] }
    {
        match *event {
            StationEvent::Call { pid, ref call } => {
                let (call, bytes) = BriefCall::of(call);
                let part = put(&mut self.bytes, bytes);
                self.entries.push_reserved(Entry::Call { pid, part, call });
            }
            StationEvent::Collect { pid } => self.entries.push_reserved(Entry::Collect { pid }),
            StationEvent::Tick => self.entries.push_reserved(Entry::Tick),
            StationEvent::Deliver { ref frame } => {
                let part = put(&mut self.bytes, frame.as_slice());
                self.entries.push_reserved(Entry::Deliver { part });
            }
        }
    }

    /// How many there are.
    pub fn len(&self) -> usize
        ensures { result ≡ length self.now.items }
    {
        self.entries.len()
    }

    /// The event at this place, counted from 0.
    pub fn get(&self, at: usize) -> StationEventView<'_>
        requires { at < length self.now.items }
        ensures event { slice_get self.now.items at ≡ Some (event_of result) }
        ensures short { IsShort result }
    {
        match &self.entries[at] {
            Entry::Call { pid, part, call } => StationEventView::Call {
                pid: *pid,
                call: CallView::new(call, part_of(&self.bytes, *part)),
            },
            Entry::Collect { pid } => StationEventView::Collect { pid: *pid },
            Entry::Tick => StationEventView::Tick,
            Entry::Deliver { part } => StationEventView::Deliver {
                frame: part_of(&self.bytes, *part),
            },
        }
    }
}

/// Appends the bytes, for which there is room, and tells where they stand.
fn put(into: &mut Vec<u8>, bytes: &[u8]) -> Part
    requires { vec_len into.old + length bytes.now ≤ vec_capacity into.old }
    ensures items { into.new.items ≡ into.old.items ++ bytes.now }
    ensures from { result.from ≡ length into.old.items }
    ensures count { result.count ≡ length bytes.now }
{
    let from = into.len();
    match into.extend_from_slice(bytes) {
        Ok(()) => Part {
            from,
            count: bytes.len(),
        },
        Err(_) => unreachable!(),
    }
}

/// The bytes that stand there.
fn part_of(bytes: &[u8], part: Part) -> &[u8]
    requires { part.from + part.count ≤ length bytes.now }
    ensures { result.now ≡ part_in bytes.now part }
{
    &bytes[part.from..part.from + part.count]
}
