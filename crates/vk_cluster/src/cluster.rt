//! The cluster and its events.

ghost use Rattle.std.specs.Prelude.{◌≡◌, ◌≤◌, ◌<◌, ◌+◌, ◌||◌, ℕ, List, [], true, false, None, Some, length, map, sum_by, nat_le, nat_lt, slice_get, slice_index, IfOk, IfErr, OnErr, MatchOption};
ghost use Rattle.vk_base.specs.declared.limits.TheConstants.{STATION_EVENTS};
ghost use Rattle.vk_base.specs.Pids.{IsPid};
ghost use Rattle.vk_base.specs.Settings.{Settings, has_station, stations_of};
ghost use Rattle.vk_schedule.specs.declared.event.Event.{Event as TheEvent};
ghost use Rattle.vk_schedule.specs.Lawful.{has_actors};
ghost use Rattle.vk_frame.specs.Reading.{frame_of};
ghost use Rattle.vk_rules.specs.Each.{Each};
ghost use Rattle.vk_rules.specs.Laws.{station_of};
ghost use Rattle.vk_host.specs.Responses.{answer_of};
ghost use Rattle.vk_host.specs.Standing.{StandsAt, IsEvent};
ghost use Rattle.vk_host.specs.Values.{StationValue};
ghost use Rattle.vk_base.specs.declared.config.ProcessSpec.{ProcessSpec as TheProcessSpec};
ghost use Rattle.vk_cluster.specs.declared.report.StepReport.{StepReport as TheReport};
ghost use Rattle.vk_cluster.specs.Blocks.{named_by};
ghost use Rattle.vk_cluster.specs.Events.{ComesWith, FindsNone, input_with, is_own};
ghost use Rattle.vk_cluster.specs.Found.{bytes_for, is_addressed, opens_for};
ghost use Rattle.vk_cluster.specs.Piles.{AreFrames, HasFrameRoom, IsAdded, IsPileKept, frames_by_event, pile_of};
ghost use Rattle.vk_cluster.specs.Standing.{AreHosts, IsAdvance, IsEventFinished, IsStep, ShowsNewest, StandsFor, StandsSomewhere, TellsReport, advanced, is_limit, logs_of};
ghost use Rattle.vk_cluster.specs.Clusters.{cluster_of};
ghost use Rattle.vk_cluster.specs.Values.{is_full};

use crate::emitted::{EVENT_BYTES, EmittedFrames, LAST_BYTES};
use crate::report::{Advance, ClusterAnswer, ClusterRefusal, StepReport};
use std::alloc::Global;
use std::marker::Model;
use vk_base::limits::{EVENTS, EVERY_STATION, TICK_PACKETS};
use vk_base::{Config, NoMemory, ProcessSpec};
use vk_frame::{Header, unseal};
use vk_host::{Host, Response, are_in_range, pid_is};
use vk_rules::frames_unseal_again;
use vk_schedule::{Event, EventKind, EventView};

/// All stations of a configuration, and the frames that they emitted.
#[derive(Drop)]
pub struct Cluster {
    parts: ClusterParts,
}

impl Model for Cluster {
    ghost use Rattle.vk_cluster.specs.Clusters.{cluster_of};
    ghost use Rattle.vk_cluster.specs.Standing.{StandsSomewhere};
    ghost use Rattle.vk_cluster.specs.Values.{ClusterValue};

    ghost Value = { ClusterValue };

    ghost view = { λ k. cluster_of k.parts };

    ghost invariant = { λ k. StandsSomewhere (cluster_of k.parts) };
}

impl Cluster {
    /// The stations of the configuration before the first event.
    ///
    /// # Errors
    ///
    /// [`NoMemory`] where memory is wanting.
    pub fn new(alloc: Global, config: &Config) -> Result<Self, NoMemory>
        ensures { IfOk result (λ k. StandsFor config.now [] k) }
    {
        let _lawful = config.times();
        pids_are(config.specs());
        Ok(Cluster {
            parts: ClusterParts {
                config: config.copy(alloc)?,
                hosts: new_hosts(alloc, config)?,
                emitted: EmittedFrames::new(alloc, config.station_count() as usize)?,
                events: 0,
            },
        })
    }

    /// One event of a process or of a station of the configuration; of a delivery both stations are of it.
    ///
    /// # Errors
    ///
    /// [`ClusterRefusal::Limit`] exactly where there were 100,000 events, or where the frames so far hold more than 266,076,160
    /// bytes; then [`ClusterRefusal::NoMemory`]. Both change nothing: memory is taken before the station acts.
    pub fn step(&mut self, alloc: Global, event: &Event) -> Result<StepReport, ClusterRefusal>
        requires actors { has_actors self.old.config.specs event.now ≡ true }
        ensures step { IfOk result (IsStep self.old self.new event.now) }
        ensures room { IfOk result (λ _. is_full self.old ≡ false) }
        ensures cause { IfErr result (λ e. is_full self.old ≡ is_limit e) }
        ensures same { OnErr result (self.new ≡ self.old) }
    {
        let (kind, call, bytes) = EventKind::of(event);
        let event = EventView::new(kind, &call, bytes);
        let advance = self.advance(alloc, &event)?;
        Ok(self.report(advance))
    }

    /// The same, with what it reports in few bytes.
    ///
    /// # Errors
    ///
    /// Those of [`Cluster::step`].
    #[inline(always)]
    pub fn advance(&mut self, alloc: Global, event: &EventView) -> Result<Advance, ClusterRefusal>
        requires actors { has_actors self.old.config.specs event.now ≡ true }
        ensures step { IfOk result (IsAdvance self.old self.new event.now) }
        ensures room { IfOk result (λ _. is_full self.old ≡ false) }
        ensures cause { IfErr result (λ e. is_full self.old ≡ is_limit e) }
        ensures same { OnErr result (self.new ≡ self.old) }
    {
        let mut response = Response::Begun;
        match self.advance_with(alloc, event, &mut response) {
            Ok(Some(place)) => Ok(Advance::Event { place, response }),
            Ok(None) => Ok(Advance::Missing {
                host: acting(event),
            }),
            Err(refusal) => Err(refusal),
        }
    }

    /// The same: gives the place of the station that had the event, whose answer stands in `response` then, or none where there was nothing
    /// to deliver. It is put into its caller, so that neither the event's view nor the answer is moved.
    ///
    /// # Errors
    ///
    /// Those of [`Cluster::step`].
    #[inline(always)]
    pub fn advance_with(
        &mut self,
        alloc: Global,
        event: &EventView,
        response: &mut Response,
    ) -> Result<Option<usize>, ClusterRefusal>
        requires actors { has_actors self.old.config.specs event.now ≡ true }
        ensures step { IfOk result (λ place. IsAdvance self.old self.new event.now (advanced (station_of event.now) response.new place)) }
        ensures room { IfOk result (λ _. is_full self.old ≡ false) }
        ensures cause { IfErr result (λ e. is_full self.old ≡ is_limit e) }
        ensures same { OnErr result (self.new ≡ self.old) }
    {
        self.parts.advance(alloc, event, response)
    }

    /// The report that this stands for, before the next event.
    pub fn report(&self, advance: Advance) -> StepReport
        requires { (r : TheReport) × TellsReport self.now advance r }
        ensures { (r : TheReport) → TellsReport self.now advance r → result ≡ r }
    {
        match advance {
            Advance::Missing { host } => StepReport {
                host,
                event: 0,
                answer: ClusterAnswer::Missing,
            },
            Advance::Event { place, response } => {
                let station = self.station(place);
                StepReport {
                    host: station.host(),
                    event: station.events(),
                    answer: ClusterAnswer::Event {
                        answer: station.answer(response),
                    },
                }
            }
        }
    }

    /// The station in this place among those of the configuration, counted from 0, with the steps and frames of its last event,
    /// whichever station acted since.
    pub fn station(&self, place: usize) -> &Host
        requires { place < length self.now.hosts }
        ensures { slice_get self.now.hosts place ≡ Some result.now }
    {
        &self.parts.hosts[place]
    }

    /// The station of this host, which is one of the configuration, with the steps and frames of its last event, whichever station
    /// acted since.
    pub fn host(&self, host: u16) -> &Host
        requires station { has_station self.now.config.specs host ≡ true }
        ensures host { result.now.host ≡ host }
        ensures found { (place : ℕ) × (slice_get self.now.hosts place ≡ Some result.now) }
        ensures at { (c : Settings) (es : List TheEvent) → StandsFor c es self.now → StandsAt c (logs_of c es host) result.now }
        ensures newest { (c : Settings) (es : List TheEvent) → StandsFor c es self.now →
            ShowsNewest (logs_of c es host) result.now }
    {
        &self.parts.hosts[place_of(&self.parts.config, host)]
    }
}

/// What a cluster is made of: its configuration, its stations, the frames that they emitted, and how many events there were.
#[derive(Drop)]
pub struct ClusterParts {
    config: Config,
    hosts: Vec<Host>,
    emitted: EmittedFrames,
    events: usize,
}

impl ClusterParts {
    /// One event, or why there is none. Memory is taken before the station acts.
    #[inline(always)]
    fn advance(
        &mut self,
        alloc: Global,
        event: &EventView,
        response: &mut Response,
    ) -> Result<Option<usize>, ClusterRefusal>
        requires somewhere { StandsSomewhere (cluster_of self.old) }
        requires actors { has_actors self.old.config.specs event.now ≡ true }
        ensures step { IfOk result (λ place. IsAdvance (cluster_of self.old) (cluster_of self.new) event.now
            (advanced (station_of event.now) response.new place)) }
        ensures room { IfOk result (λ _. is_full (cluster_of self.old) ≡ false) }
        ensures cause { IfErr result (λ e. is_full (cluster_of self.old) ≡ is_limit e) }
        ensures same { OnErr result (cluster_of self.new ≡ cluster_of self.old) }
    {
        if is_full(self.events, self.emitted.size()) {
            return Err(ClusterRefusal::Limit);
        }
        let place = place_of(&self.config, acting(event));
        self.emitted
            .make_room(alloc, place, EVENT_BYTES, TICK_PACKETS as usize)?;
        Ok(self.play(place, event, response))
    }

    /// The event at the station of this place, for which there is room.
    #[inline(always)]
    fn play(&mut self, place: usize, event: &EventView, response: &mut Response) -> Option<usize>
        requires somewhere { StandsSomewhere (cluster_of self.old) }
        requires few { self.old.events < EVENTS }
        requires actors { has_actors self.old.config.specs event.now ≡ true }
        requires place { slice_get (stations_of self.old.config.specs) place ≡ Some (station_of event.now) }
        requires room { HasFrameRoom self.old.emitted place EVENT_BYTES TICK_PACKETS }
        ensures { IsAdvance (cluster_of self.old) (cluster_of self.new) event.now (advanced (station_of event.now) response.new result) }
    {
        frames_unseal_again();
        match frame_with(&self.config, &self.emitted, event) {
            Some(frame) => {
                respond(&mut self.hosts[place], event, frame, response);
                self.finish(place);
                Some(place)
            }
            None => {
                self.missing();
                None
            }
        }
    }

    /// The frames of the last event of the station at this place are kept, and the event is counted.
    #[inline(always)]
    fn finish(&mut self, place: usize)
        requires count { self.old.events < EVENTS }
        requires place { place < length self.old.hosts.items }
        requires events { place < length self.old.emitted.events.items }
        requires kept { IsPileKept (pile_of self.old.emitted) }
        requires room { HasFrameRoom self.old.emitted place EVENT_BYTES TICK_PACKETS }
        requires few { (t : StationValue) → slice_get self.old.hosts.items place ≡ Some t → AreFrames t.frames }
        requires bytes { (t : StationValue) → slice_get self.old.hosts.items place ≡ Some t → sum_by length t.frames ≤ EVENT_BYTES }
        ensures { (t : StationValue) → slice_get self.old.hosts.items place ≡ Some t →
            IsEventFinished (cluster_of self.old) (cluster_of self.new) place t }
    {
        keep(&mut self.emitted, &self.hosts[place], place);
        self.events += 1;
    }

    /// There is nothing to deliver. The event is counted.
    fn missing(&mut self)
        requires { self.old.events < EVENTS }
        ensures { cluster_of self.new ≡ record (cluster_of self.old) { events = self.old.events + 1 } }
    {
        self.events += 1;
    }
}

/// The bytes of the frame that comes with the event, where it is a delivery, `None` where there is nothing to deliver; and no bytes with
/// any other event, of whose call the fields are in their ranges.
#[inline(always)]
fn frame_with<'a>(
    config: &Config,
    emitted: &'a EmittedFrames,
    event: &EventView,
) -> Option<&'a [u8]>
    requires kept { IsPileKept (pile_of emitted.now) }
    requires actors { has_actors config.now.specs event.now ≡ true }
    ensures { MatchOption result (FindsNone config.now.specs (frames_by_event (pile_of emitted.now)) event.now)
        (λ r. ComesWith config.now.specs (frames_by_event (pile_of emitted.now)) event.now r.now) }
{
    let (kind, call) = event.parts();
    match kind {
        EventKind::Call { pid } => {
            pid_is(&pid);
            are_in_range(call);
            Some(&[])
        }
        EventKind::Collect { .. } | EventKind::Tick { .. } => Some(&[]),
        EventKind::Deliver {
            to,
            from,
            event,
            output,
        } => handed_over(emitted, to, place_of(config, from), event, output),
    }
}

/// The station has the event, with which this frame comes where it is a delivery.
#[inline(always)]
fn respond(host: &mut Host, event: &EventView, frame: &[u8], into: &mut Response)
    requires few { host.old.events + 1 < STATION_EVENTS }
    requires own { is_own host.old event.now ≡ true }
    ensures { IsEvent host.old host.new (input_with frame.now event.now) (answer_of host.new into.new) }
{
    let (kind, call) = event.parts();
    match kind {
        EventKind::Call { pid } => host.call(pid, call, into),
        EventKind::Collect { pid } => host.collect(pid, into),
        EventKind::Tick { .. } => host.tick(into),
        EventKind::Deliver { .. } => host.deliver(frame, into),
    }
}

/// Keeps the frames of the last event of the station at this place.
#[inline(always)]
pub fn keep(emitted: &mut EmittedFrames, host: &Host, place: usize)
    requires kept { IsPileKept (pile_of emitted.old) }
    requires place { place < length emitted.old.events.items }
    requires room { HasFrameRoom emitted.old place (sum_by length host.now.frames) (length host.now.frames) }
    requires few { AreFrames host.now.frames }
    ensures { IsAdded (pile_of emitted.old) (pile_of emitted.new) place host.now.frames }
{
    let first = emitted.frames.len();
    for at in 0..host.frame_count() {
        let (to, _) = host.packet(at);
        emitted.put(host.frame(at), to);
    }
    emitted.end_event(place, first);
}

/// The bytes that a delivery hands over to this station: the frame with this output number of the event with this number of the station
/// at the place, where it is addressed to it.
pub fn handed_over<'a>(
    emitted: &'a EmittedFrames,
    to: u16,
    place: usize,
    event: u64,
    output: u16,
) -> Option<&'a [u8]>
    requires { IsPileKept (pile_of emitted.now) }
    ensures { MatchOption result (bytes_for to (frames_by_event (pile_of emitted.now)) place event output ≡ None)
        (λ r. bytes_for to (frames_by_event (pile_of emitted.now)) place event output ≡ Some r.now) }
{
    match emitted.find(place, event, output) {
        Some((bytes, destination)) => {
            if is_for(bytes, destination, to) {
                Some(bytes)
            } else {
                None
            }
        }
        None => None,
    }
}

/// Whether a frame for this destination is for this station: only one that is for every station is opened.
#[inline(always)]
fn is_for(bytes: &[u8], destination: u16, to: u16) -> bool
    requires { named_by (frame_of bytes.now) ≡ destination }
    ensures { result ≡ opens_for to (frame_of bytes.now) }
{
    if destination == EVERY_STATION {
        opens_for(bytes, to)
    } else {
        destination == to
    }
}

fn opens_for(bytes: &[u8], to: u16) -> bool
    ensures { result ≡ opens_for to (frame_of bytes.now) }
{
    match unseal(bytes) {
        Some((header, _)) => is_addressed(&header, to),
        None => false,
    }
}

/// Whether the header names this station, or all of them and another as its source.
fn is_addressed(header: &Header, to: u16) -> bool
    ensures { result ≡ is_addressed to header.now }
{
    header.destination == to || (header.destination == EVERY_STATION && header.source != to)
}

/// Whether no event is taken any more.
fn is_full(events: usize, size: usize) -> bool
    ensures { result ≡ (nat_le EVENTS events || nat_lt LAST_BYTES size) }
{
    events >= EVENTS || size > LAST_BYTES
}

/// The station that acts.
pub fn acting(event: &EventView) -> u16
    ensures { result ≡ station_of event.now }
{
    let (kind, _) = event.parts();
    match kind {
        EventKind::Call { pid } | EventKind::Collect { pid } => pid.host,
        EventKind::Tick { host } => host,
        EventKind::Deliver { to, .. } => to,
    }
}

/// The place of a station among those of the configuration, counted from 0. Mostly they are the hosts 1, 2, 3 and so on.
pub fn place_of(config: &Config, host: u16) -> usize
    requires { has_station config.now.specs host ≡ true }
    ensures { slice_get (stations_of config.now.specs) result ≡ Some host }
{
    let guess = u32::from(host).wrapping_sub(1);
    if guess < config.station_count() && config.station(guess) == host {
        return guess as usize;
    }
    for at in 0..config.station_count() {
        if config.station(at) == host {
            return at as usize;
        }
    }
    unreachable!()
}

/// The stations of the configuration, none of which had an event.
pub fn new_hosts(alloc: Global, config: &Config) -> Result<Vec<Host>, NoMemory>
    ensures { IfOk result (λ hosts. AreHosts config.now hosts.items (stations_of config.now.specs)) }
{
    let mut hosts = Vec::with_capacity(alloc, config.station_count() as usize)?;
    for at in 0..config.station_count() {
        hosts.push(Host::new(alloc, config, config.station(at))?)?;
    }
    Ok(hosts)
}

/// The numbers of these pids have 16 bits. Changes nothing.
pub fn pids_are(specs: &[ProcessSpec])
    ensures { Each (λ (s : TheProcessSpec). IsPid s.pid) specs.now }
{
    for spec in specs {
        pid_is(&spec.pid);
    }
}
