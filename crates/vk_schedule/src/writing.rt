//! Schedules, written.

ghost use Rattle.std.specs.Prelude.{◌≡◌, ◌+◌, ◌≤◌, ◌++◌, Ok, length, flat_map, codes, IfOk, OnOk};
ghost use Rattle.vk_text.specs.Heads.{line_text};
ghost use Rattle.vk_text.specs.Openings.{opening_text};
ghost use Rattle.vk_text.specs.Texts.{shown};
ghost use Rattle.vk_text.specs.declared.draft.TheConstants.{DRAFT_ROOM as ROOM};
ghost use Rattle.vk_schedule.specs.Lawful.{IsLawful};
ghost use Rattle.vk_schedule.specs.Schedule.{plain_title, schedule_of, timed_title};
ghost use Rattle.vk_schedule.specs.Spelling.{event_text, schedule_text};
ghost use Rattle.vk_schedule.specs.declared.event.Event.TheVariants as events;

use crate::event::Event;
use crate::schedule::Schedule;
use crate::view::{EventKind, EventView};
use std::alloc::Global;
use std::marker::Model;
use vk_base::{Config, NoMemory, Pid};
use vk_brief::CallView;
use vk_text::{Draft, Text, draft_number, draft_pid, go_on_with_call, put_opening};

/// Writes `call PID CALLTEXT`.
fn write_call_event(
    alloc: Global,
    text: &mut Text,
    pid: Pid,
    call: &CallView,
) -> Result<(), NoMemory>
    requires { length text.old.draft + 170 ≤ ROOM }
    ensures ok { OnOk result (shown text.new ≡ shown text.old ++ event_text (events.Call pid call.now)) }
    ensures few { OnOk result (length text.new.draft ≤ length text.old.draft + 150) }
{
    text.draft.put(b"call");
    draft_pid(&mut text.draft, pid);
    text.draft.byte(b' ');
    go_on_with_call(alloc, &mut text.bytes, &mut text.draft, call)
}

/// Writes `deliver TO FROM EVENT OUTPUT`.
fn draft_delivery(into: &mut Draft, to: u16, from: u16, event: u64, output: u16)
    requires { length into.old + 100 ≤ ROOM }
    ensures text { into.new ≡ into.old ++ event_text (events.Deliver to from event output) }
    ensures few { length into.new ≤ length into.old + 100 }
{
    into.put(b"deliver");
    draft_number(into, u64::from(to));
    draft_number(into, u64::from(from));
    draft_number(into, event);
    draft_number(into, u64::from(output));
}

/// Writes `collect PID`.
fn draft_collect(into: &mut Draft, pid: Pid)
    requires { length into.old + 50 ≤ ROOM }
    ensures text { into.new ≡ into.old ++ event_text (events.Collect pid) }
    ensures few { length into.new ≤ length into.old + 50 }
{
    into.put(b"collect");
    draft_pid(into, pid);
}

/// Writes `tick H`.
fn draft_tick(into: &mut Draft, host: u16)
    requires { length into.old + 50 ≤ ROOM }
    ensures text { into.new ≡ into.old ++ event_text (events.Tick host) }
    ensures few { length into.new ≤ length into.old + 50 }
{
    into.put(b"tick");
    draft_number(into, u64::from(host));
}

/// Writes the event, for which there is room.
fn write_event(alloc: Global, text: &mut Text, event: &EventView) -> Result<(), NoMemory>
    requires { length text.old.draft + 170 ≤ ROOM }
    ensures ok { OnOk result (shown text.new ≡ shown text.old ++ event_text event.now) }
    ensures few { OnOk result (length text.new.draft ≤ length text.old.draft + 150) }
{
    let (kind, call) = event.parts();
    match kind {
        EventKind::Call { pid } => return write_call_event(alloc, text, pid, call),
        EventKind::Collect { pid } => draft_collect(&mut text.draft, pid),
        EventKind::Tick { host } => draft_tick(&mut text.draft, host),
        EventKind::Deliver {
            to,
            from,
            event,
            output,
        } => draft_delivery(&mut text.draft, to, from, event, output),
    }
    Ok(())
}

/// Writes the line of the event.
fn write_line(alloc: Global, text: &mut Text, event: &EventView) -> Result<(), NoMemory>
    ensures { OnOk result (shown text.new ≡ shown text.old ++ line_text (event_text event.now)) }
{
    text.make_room()?;
    write_event(alloc, text, event)?;
    text.draft.byte(b'\n');
    Ok(())
}

/// The text of a schedule that is written event by event. Contracts see its bytes so far.
#[derive(Drop)]
pub struct ScheduleWriter {
    text: Text,
}

impl Model for ScheduleWriter {
    ghost use Rattle.std.specs.Prelude.{List, ℕ};
    ghost use Rattle.vk_text.specs.Texts.{shown};

    ghost Value = { List ℕ };

    ghost view = { λ w. shown w.text };
}

impl ScheduleWriter {
    /// What stands before the first event: in format 1 exactly where the times are 5, 4 and 8 and each pool is 16, in format 2 with the
    /// pools that are not 16.
    ///
    /// # Errors
    ///
    /// [`NoMemory`] where memory is wanting.
    pub fn new(alloc: Global, config: &Config) -> Result<Self, NoMemory>
        ensures { IfOk result (λ w. w ≡ opening_text plain_title timed_title config.now) }
    {
        let mut bytes = Vec::new(alloc);
        put_opening(alloc, &mut bytes, b"vkernel 1", b"vkernel 2", config)?;
        Ok(ScheduleWriter {
            text: Text::new(bytes),
        })
    }

    /// The line of the next event.
    ///
    /// # Errors
    ///
    /// [`NoMemory`] where memory is wanting: then a part of the line may stand there.
    pub fn put(&mut self, alloc: Global, event: &EventView) -> Result<(), NoMemory>
        ensures { OnOk result (self.new ≡ self.old ++ line_text (event_text event.now)) }
    {
        write_line(alloc, &mut self.text, event)
    }

    /// The bytes of the whole.
    ///
    /// # Errors
    ///
    /// [`NoMemory`] where memory is wanting.
    pub fn into_bytes(self) -> Result<Vec<u8>, NoMemory>
        ensures { IfOk result (λ bytes. bytes.items ≡ self) }
    {
        self.text.into_bytes()
    }
}

/// Writes the lines of the events.
fn write_events(
    alloc: Global,
    writer: &mut ScheduleWriter,
    events: &[Event],
) -> Result<(), NoMemory>
    ensures { OnOk result (writer.new ≡ writer.old ++ flat_map (λ e. line_text (event_text e)) events.now) }
{
    for event in events {
        let (kind, call, bytes) = EventKind::of(event);
        writer.put(alloc, &EventView::new(kind, &call, bytes))?;
    }
    Ok(())
}

/// The text of the schedule, which is lawful: reading it gives the schedule again. It is in format 1 exactly where the times are 5, 4 and
/// 8 and each pool is 16; in format 2 it tells the pools that are not 16.
pub fn write_schedule(alloc: Global, schedule: &Schedule) -> Result<Vec<u8>, NoMemory>
    requires { IsLawful schedule.now }
    ensures text { IfOk result (λ v. v.items ≡ schedule_text schedule.now) }
    ensures read { IfOk result (λ v. schedule_of v.items ≡ Ok schedule.now) }
{
    let mut writer = ScheduleWriter::new(alloc, &schedule.config)?;
    write_events(alloc, &mut writer, schedule.events.as_slice())?;
    writer.into_bytes()
}
