//! A station: its events.

ghost use Rattle.std.specs.Prelude.{◌≡◌, ◌<◌, ◌≤◌, ◌+◌, ◌-◌, ◌^◌, ℕ, List, [], length, max, min, slice_get, true, None, Some, IfOk};
ghost use Rattle.v_lawful.specs.Sending.{most_packets};
ghost use Rattle.vk_base.specs.declared.limits.TheConstants.{DATA_BYTES, EVERY_STATION, STATION_EVENTS, STEPS};
ghost use Rattle.vk_base.specs.Settings.{Settings};
ghost use Rattle.vk_base.specs.Steps.{is_allowed};
ghost use Rattle.vk_packet.specs.Posts.{framed};
ghost use Rattle.vk_rules.specs.Entries.{Called, Collected, Delivered, Entry, Ticked};
ghost use Rattle.vk_rules.specs.Frames.{number_in, unsealed_of};
ghost use Rattle.vk_rules.specs.Readings.{reading};
ghost use Rattle.vk_host.specs.Opened.{unsealed_as};
ghost use Rattle.vk_host.specs.Responses.{answer_of, loaded};
ghost use Rattle.vk_host.specs.Sealed.{OpensAs};
ghost use Rattle.vk_host.specs.Standing.{StandsAt, IsEvent};
ghost use Rattle.vk_host.specs.Values.{has, input_of, is_own, most_before};

use crate::desk::Desk;
use crate::frames::seal;
use crate::opening::{Opened, next_number, number_after, open_frame};
use crate::response::{Response, loaded};
use crate::{calls, deliveries, ticks};
use std::alloc::Global;
use std::marker::Model;
use vk_base::{Call, Config, EventAnswer, NoMemory, Pid, StationEvent, Step};
use vk_brief::{BriefCall, CallView, Steps};
use vk_packet::Outbox;

/// One station with its kernel: its tables and counts, and the steps of its last event and its packets, each in its frame.
#[derive(Drop)]
pub struct Host {
    number: u64,
    events: u64,
    desk: Desk,
}

impl Model for Host {
    ghost use Rattle.vk_host.specs.Desks.{value_in};
    ghost use Rattle.vk_host.specs.Standing.{StandsSomewhere};
    ghost use Rattle.vk_host.specs.Values.{StationValue};

    ghost Value = { StationValue };

    ghost view = { λ h. value_in h.desk h.number h.events };

    ghost invariant = { λ h. StandsSomewhere (value_in h.desk h.number h.events) };
}

impl Host {
    /// The station of this host, 1 to 65,534, before its first event: it stands for no entries. All memory of the station is taken
    /// here.
    ///
    /// # Errors
    ///
    /// [`NoMemory`] where memory is wanting.
    pub fn new(alloc: Global, config: &Config, host: u16) -> Result<Self, NoMemory>
        requires some_host { 0 < host }
        requires one_host { host < EVERY_STATION }
        ensures stands { IfOk result (λ h. StandsAt config.now [] h) }
        ensures host { IfOk result (λ h. h.host ≡ host) }
    {
        let _lawful = config.times();
        Ok(Host {
            number: 0,
            events: 0,
            desk: Desk::new(alloc, config, host)?,
        })
    }

    /// One event: a call or a collect of a process of the station, a tick, or a frame that comes, whatever its bytes are. Takes no
    /// memory.
    pub fn event(&mut self, event: &StationEvent) -> EventAnswer
        requires few { self.old.events < most_before event.now }
        requires own { is_own self.old event.now ≡ true }
        ensures event { IsEvent self.old self.new (input_of event.now) result }
        ensures frames { length self.new.frames ≤ most_packets (input_of event.now) }
        ensures steps { length self.new.doing.steps ≤ STEPS }
    {
        let response = self.respond(event);
        self.answer(response)
    }

    /// The answer that this stands for, until the next event.
    pub fn answer(&self, response: Response) -> EventAnswer
        ensures { result ≡ answer_of self.now response }
    {
        response.answer(&self.desk.procs)
    }

    /// The bytes that a response with these fields stands for, at most 1,024, until the next event.
    pub fn loaded(&self, pid: Pid, start: u32, count: u32) -> &[u8]
        ensures value { result.now ≡ loaded self.now.doing.tables.seats pid start count }
        ensures few { length result.now ≤ DATA_BYTES }
    {
        loaded(&self.desk.procs, pid, start, count)
    }

    /// The same as [`Host::event`], whose answer stands in few bytes until the next event.
    pub fn respond(&mut self, event: &StationEvent) -> Response
        requires few { self.old.events < most_before event.now }
        requires own { is_own self.old event.now ≡ true }
        ensures event { IsEvent self.old self.new (input_of event.now) (answer_of self.new result) }
        ensures frames { length self.new.frames ≤ most_packets (input_of event.now) }
        ensures steps { length self.new.doing.steps ≤ STEPS }
    {
        let mut response = Response::Begun;
        match event {
            StationEvent::Call { pid, call } => self.make(*pid, call, &mut response),
            StationEvent::Collect { pid } => self.collect(*pid, &mut response),
            StationEvent::Tick => self.tick(&mut response),
            StationEvent::Deliver { frame } => self.deliver(frame.as_slice(), &mut response),
        }
        response
    }

    fn make(&mut self, pid: Pid, call: &Call, into: &mut Response)
        requires few { self.old.events < STATION_EVENTS }
        requires own { has self.old pid ≡ true }
        ensures event { IsEvent self.old self.new (Called pid call.now) (answer_of self.new into.new) }
        ensures frames { length self.new.frames ≤ most_packets (Called pid call.now) }
        ensures steps { length self.new.doing.steps ≤ STEPS }
    {
        let (call, bytes) = BriefCall::of(call);
        self.call(pid, &CallView::new(&call, bytes), into);
    }

    /// The event that the process makes the call, whose answer is put there. Takes no memory.
    pub fn call(&mut self, pid: Pid, call: &CallView, into: &mut Response)
        requires few { self.old.events < STATION_EVENTS }
        requires own { has self.old pid ≡ true }
        ensures event { IsEvent self.old self.new (Called pid call.now) (answer_of self.new into.new) }
        ensures frames { length self.new.frames ≤ most_packets (Called pid call.now) }
        ensures steps { length self.new.doing.steps ≤ STEPS }
    {
        count(&mut self.events, &mut self.number);
        calls::call(&mut self.desk, pid, call, into);
        seal(
            &mut self.desk.out,
            self.desk.host,
            self.desk.now,
            self.number,
            self.events,
        );
        are_few(&self.desk.steps, &self.desk.out);
    }

    /// The event that the process collects its answer, which is put there. Takes no memory.
    pub fn collect(&mut self, pid: Pid, into: &mut Response)
        requires few { self.old.events < STATION_EVENTS }
        requires own { has self.old pid ≡ true }
        ensures event { IsEvent self.old self.new (Collected pid) (answer_of self.new into.new) }
        ensures frames { length self.new.frames ≤ most_packets (Collected pid) }
        ensures steps { length self.new.doing.steps ≤ STEPS }
    {
        count(&mut self.events, &mut self.number);
        let outcome = calls::collect(&mut self.desk, pid);
        are_few(&self.desk.steps, &self.desk.out);
        into.give_collected(outcome);
    }

    /// The event that the station's clock ticks, whose answer is put there. Takes no memory.
    pub fn tick(&mut self, into: &mut Response)
        requires few { self.old.events + 1 < STATION_EVENTS }
        ensures event { IsEvent self.old self.new Ticked (answer_of self.new into.new) }
        ensures frames { length self.new.frames ≤ most_packets Ticked }
        ensures steps { length self.new.doing.steps ≤ STEPS }
    {
        count(&mut self.events, &mut self.number);
        let now = ticks::tick(&mut self.desk);
        seal(
            &mut self.desk.out,
            self.desk.host,
            self.desk.now,
            self.number,
            self.events,
        );
        are_few(&self.desk.steps, &self.desk.out);
        *into = Response::Ticked { now };
    }

    /// The event that these bytes come, a frame or not, whose answer is put there. Takes no memory.
    pub fn deliver(&mut self, bytes: &[u8], into: &mut Response)
        requires few { self.old.events < STATION_EVENTS }
        ensures event { IsEvent self.old self.new (Delivered (unsealed_of bytes.now)) (answer_of self.new into.new) }
        ensures frames { length self.new.frames ≤ most_packets (Delivered (unsealed_of bytes.now)) }
        ensures steps { length self.new.doing.steps ≤ STEPS }
    {
        let opened = open_frame(bytes);
        count_frame(&mut self.events, &mut self.number, &opened);
        let judged = deliveries::deliver(&mut self.desk, &opened);
        seal(
            &mut self.desk.out,
            self.desk.host,
            self.desk.now,
            self.number,
            self.events,
        );
        are_few(&self.desk.steps, &self.desk.out);
        *into = judged.response();
    }

    /// The steps of the last event, in order.
    pub fn steps(&self) -> &Steps
        ensures { result.now ≡ self.now.doing.steps }
    {
        &self.desk.steps
    }

    /// How many frames the last event sends: one for each packet.
    pub fn frame_count(&self) -> u32
        ensures { result ≡ length self.now.frames }
    {
        self.desk.out.len()
    }

    /// The bytes of frame number `at` of the last event, counted from 0.
    pub fn frame(&self, at: u32) -> &[u8]
        requires { at < length self.now.frames }
        ensures { slice_get self.now.frames at ≡ Some result.now }
    {
        self.desk.out.framed(at)
    }

    /// What frame number `at` of the last event, counted from 0, opens as: the station that it is for, and its packet.
    pub fn packet(&self, at: u32) -> (u16, &[u8])
        requires { at < length self.now.frames }
        ensures opens { (bytes : List ℕ) → slice_get self.now.frames at ≡ Some bytes → OpensAs bytes result.0 (at + 1) result.1.now }
        ensures some { 0 < length result.1.now }
    {
        self.desk.out.packet(at)
    }

    /// Which station it is.
    pub fn host(&self) -> u16
        ensures { result ≡ self.now.host }
    {
        self.desk.host
    }

    /// How many events there were.
    pub fn events(&self) -> u64
        ensures { result ≡ self.now.events }
    {
        self.events
    }

    /// The station's tick.
    pub fn now(&self) -> u64
        ensures { result ≡ self.now.now }
    {
        self.desk.now
    }

    /// The station's Lamport number, at most 2^63 - 1.
    pub fn number(&self) -> u64
        ensures { result ≡ self.now.number }
    {
        self.number
    }

    /// Whether the process is one of the station.
    pub fn has(&self, pid: Pid) -> bool
        ensures { result ≡ has self.now pid }
    {
        self.desk.procs.seat(pid).is_some()
    }

    /// Whether the process has an answer to collect.
    pub fn is_done(&self, pid: Pid) -> bool
        requires { has self.now pid ≡ true }
        ensures { (c : Settings) (es : List Entry) → StandsAt c es self.now →
            result ≡ is_allowed (reading c self.now.host es).view (Step.Collect pid) }
    {
        self.desk.procs.outcome(pid).is_some()
    }
}

/// An event has no more steps and packets than there is room for. Changes nothing.
#[inline(always)]
fn are_few(steps: &Steps, out: &Outbox)
    ensures steps { length steps.now ≤ STEPS }
    ensures frames { length (framed out.now) ≤ out.now.room }
{
    let _steps = steps.len();
    let _packets = out.len();
}

/// Counts an event with which no Lamport number came.
fn count(events: &mut u64, number: &mut u64)
    requires { events.old < STATION_EVENTS }
    ensures events { events.new ≡ events.old + 1 }
    ensures number { number.new ≡ min (number.old + 1) (2 ^ 63 - 1) }
{
    *events += 1;
    *number = next_number(*number);
}

/// Counts an event with which this came.
fn count_frame(events: &mut u64, number: &mut u64, opened: &Opened)
    requires { events.old < STATION_EVENTS }
    ensures events { events.new ≡ events.old + 1 }
    ensures number { number.new ≡ min (max number.old (number_in (unsealed_as opened.now)) + 1) (2 ^ 63 - 1) }
{
    *events += 1;
    *number = number_after(*number, opened);
}
