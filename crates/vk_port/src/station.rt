//! A station under a turn.

ghost use Rattle.std.specs.Prelude.{◌≡◌, ◌≤◌, ◌<◌, ◌==◌, [], false, true, length, map, slice_get, Some, None, IfOk};
ghost use Rattle.vk_base.specs.declared.config.ProcessSpec.{ProcessSpec as TheProcessSpec};
ghost use Rattle.vk_base.specs.Pids.{IsPid};
ghost use Rattle.vk_base.specs.Settings.{has_station};
ghost use Rattle.vk_log.specs.Logs.{event_of as event_seen};
ghost use Rattle.vk_rules.specs.Each.{Each};
ghost use Rattle.vk_rules.specs.Frames.{number_in, unsealed_of};
ghost use Rattle.vk_port.specs.Kept.{IsHeldEvent};
ghost use Rattle.vk_port.specs.Stations.{IsLawfulHistory, brings_last_number, entry_at, entry_shown, event_of, is_full, is_own, is_ready, is_used_up_by, most_frames, origin_of, tick_of};

use crate::entries::Entries;
use crate::opened::frame_is;
use crate::station_out::StationOut;
use std::alloc::Global;
use std::marker::Model;
use std::snapshot::Snapshot;
use turn_cell::{Replay, Room};
use vk_base::limits::{EVENTS, LAST_NUMBER};
use vk_base::{Config, NoMemory, ProcessSpec, StationEvent};
use vk_brief::{BriefCall, CallView};
use vk_frame::unseal;
use vk_host::{Host, are_in_range, pid_is};
use vk_log::{EventLog, StationEventView};

/// The most bytes that the frames of all stations have.
pub const EMITTED_BYTES: usize = 268_435_456;
/// The most bytes that the frames of one event have: 2,048 frames of 1,152 bytes.
pub const EVENT_BYTES: usize = 2_359_296;
/// The bytes of events for which the histories of all stations have room from the beginning.
const FIRST_BYTES: usize = 6_400_000;

/// A station with its history, of which it is the replay. Contracts see its configuration, which station it is, its history, and the
/// room that is left for entries.
#[derive(Drop)]
pub struct Station {
    config: Snapshot<Config>,
    stations: u32,
    host: Host,
    bytes: usize,
    entries: Entries,
}

impl Model for Station {
    ghost use Rattle.vk_port.specs.Kept.{IsStationKept, station_history};
    ghost use Rattle.vk_port.specs.Stations.{StationHistory};

    ghost Value = { StationHistory };

    ghost view = { λ s. station_history s.config.value s.host.host s.entries };

    ghost invariant = { λ s. IsStationKept s.config.value s.host.host s.entries.items s.host s.stations s.bytes };
}

impl Station {
    /// The station of this host before its first event.
    ///
    /// # Errors
    ///
    /// [`NoMemory`] where memory is wanting.
    pub fn new(alloc: Global, config: &Config, host: u16) -> Result<Station, NoMemory>
        requires { has_station config.now.specs host ≡ true }
        ensures config { IfOk result (λ s. s.config ≡ config.now) }
        ensures host { IfOk result (λ s. s.host ≡ host) }
        ensures empty { IfOk result (λ s. s.history ≡ []) }
    {
        let _lawful = config.times();
        pids_are(config.specs());
        let stations = config.station_count();
        let sharing = stations as usize;
        Ok(Station {
            config: Snapshot::of(config),
            stations,
            host: Host::new(alloc, config, host)?,
            bytes: 0,
            entries: Entries::with_room(alloc, EVENTS / sharing, FIRST_BYTES / sharing)?,
        })
    }

    /// How many events there were.
    pub fn event_count(&self) -> u32
        ensures count { result ≡ length self.now.history }
        ensures lawful { IsLawfulHistory self.now }
    {
        self.entries.len() as u32
    }

    /// The station's tick: how often it ticked.
    pub fn tick(&self) -> u64
        ensures { result ≡ tick_of self.now }
    {
        self.host.now()
    }

    /// The event with this number, counted from 0.
    pub fn event_at(&self, at: u32) -> StationEventView<'_>
        requires { at < length self.now.history }
        ensures { slice_get (map event_of self.now.history) at ≡ Some (event_seen result) }
    {
        self.entries.get(at as usize)
    }

    /// The events in order. It takes no memory.
    pub fn into_events(self) -> EventLog
        ensures { result.items ≡ map event_of self.history }
    {
        let Station { entries, .. } = self;
        entries.into_events()
    }
}

impl Replay for Station {
    type Event = StationEvent;

    type Out = StationOut;

    ghost history = { λ s. s.history };

    ghost origin = { origin_of };

    ghost event_fits = { λ o e. is_own o e ≡ true };

    ghost out_fits = { λ e out. most_frames e ≤ out.room };

    ghost full_at = { is_full };

    ghost ready_at = { is_ready };

    ghost has_own_room = { λ e. false };

    ghost has_room = { λ s e. (is_full s s.history e ≡ false) × (1 ≤ s.spare) };

    ghost gives = { λ o h caller e out new. new ≡ entry_shown out.room (entry_at o h e) };

    fn room(&mut self, _alloc: Global, event: &StationEvent) -> Result<(), Room> {
        if is_used_up(self.entries.len(), self.bytes, self.stations as usize)
            || brings_last_number(event)
        {
            return Err(Room::Full);
        }
        match self.entries.reserve() {
            Ok(()) => Ok(()),
            Err(_) => Err(Room::NoMemory),
        }
    }

    fn is_ready(&self, event: &StationEvent) -> bool {
        match event {
            StationEvent::Collect { pid } => self.host.has(*pid) && self.host.is_done(*pid),
            StationEvent::Call { .. } | StationEvent::Tick | StationEvent::Deliver { .. } => true,
        }
    }

    fn act(&mut self, caller: u32, event: &StationEvent, out: &mut StationOut) {
        is_held(event);
        let response = self.host.respond(event);
        self.bytes += out.show(&self.host, response);
        self.entries.push(caller, event);
    }
}

/// Whether so many entries, with so many bytes in their frames, are the share of one of so many stations, but for one event's bytes.
fn is_used_up(entries: usize, bytes: usize, stations: usize) -> bool
    requires few { stations ≤ 16 }
    requires some { 1 ≤ stations }
    ensures { result ≡ is_used_up_by entries bytes stations }
{
    entries >= EVENTS / stations || bytes > EMITTED_BYTES / stations - EVENT_BYTES
}

/// Whether it brings a frame whose header bears the greatest Lamport number.
fn brings_last_number(event: &StationEvent) -> bool
    ensures { result ≡ brings_last_number event.now }
{
    match event {
        StationEvent::Deliver { frame } => bears_last_number(frame.as_slice()),
        StationEvent::Call { .. } | StationEvent::Collect { .. } | StationEvent::Tick => false,
    }
}

#[tactic(auto, using(crate::proofs::Opening::number_of_some, crate::proofs::Opening::number_of_none))]
fn bears_last_number(bytes: &[u8]) -> bool
    ensures { result ≡ (number_in (unsealed_of bytes.now) == LAST_NUMBER) }
{
    match unseal(bytes) {
        Some((header, _)) => header.number == LAST_NUMBER,
        None => false,
    }
}

/// Each field of the event is in its range. Changes nothing.
fn is_held(event: &StationEvent)
    ensures { IsHeldEvent event.now }
{
    match event {
        StationEvent::Call { pid, call } => {
            pid_is(pid);
            let (call, bytes) = BriefCall::of(call);
            are_in_range(&CallView::new(&call, bytes));
        }
        StationEvent::Collect { .. } | StationEvent::Tick => {}
        StationEvent::Deliver { frame } => frame_is(frame.as_slice()),
    }
}

/// The numbers of these pids have 16 bits. Changes nothing.
fn pids_are(specs: &[ProcessSpec])
    ensures { Each (λ (s : TheProcessSpec). IsPid s.pid) specs.now }
{
    for spec in specs {
        pid_is(&spec.pid);
    }
}
