//! The four stations of a storm, and an event of one of them.

ghost use Rattle.std.specs.Prelude.{◌≡◌, ◌<◌, ◌≤◌, ◌+◌, [], ◌∷◌, List, length, nat_lt, slice_get, true, Some, IfOk};
ghost use Rattle.vk_base.specs.declared.limits.TheConstants.{STATION_EVENTS};
ghost use Rattle.vk_base.specs.Settings.{has_station, stations_of};
ghost use Rattle.vk_schedule.specs.declared.event.Event.{Event as TheEvent};
ghost use Rattle.vk_rules.specs.Frames.{Frame as TheFrame};
ghost use Rattle.vk_host.specs.Responses.{answer_of};
ghost use Rattle.vk_host.specs.Standing.{IsEvent};
ghost use Rattle.vk_cluster.specs.Events.{ComesWith, input_with, is_own};
ghost use Rattle.vk_cluster.specs.Piles.{frames_by_event};
ghost use Rattle.vk_drive.specs.declared.stations.StormStations.{StormStations as TheStations};
ghost use Rattle.vk_drive.specs.Driving.{AreStations, ComesFrom, HasPlayed, MayHappen};
ghost use Rattle.vk_drive.specs.Tasks.{settings, specs};

use crate::next::NextEvent;
use crate::recent::RecentFrames;
use std::alloc::Global;
use vk_base::{Config, NoMemory};
use vk_cluster::{new_hosts, pids_are};
use vk_host::{Host, Response, are_in_range, pid_is};
use vk_rules::frames_unseal_again;
use vk_schedule::EventKind;

/// No event happens where the frames so far have more bytes than this.
const LAST_BYTES: usize = 266_076_160;

/// The stations, station 1 in place 0 and so on, and the frames that they emitted last.
#[derive(Drop)]
pub struct StormStations {
    pub hosts: Vec<Host>,
    pub recent: RecentFrames,
}

/// The place of this station.
fn place_of(host: u16) -> usize
    requires { has_station specs host ≡ true }
    ensures { slice_get (stations_of specs) result ≡ Some host }
{
    host as usize - 1
}

/// The bytes that come with the event: those of the frame in this place with a delivery, and none with any other event, of whose call the
/// fields are in their ranges.
#[inline(always)]
fn bytes_with<'a>(recent: &'a RecentFrames, frame: usize, next: &NextEvent) -> &'a [u8]
    requires { (fs : List TheFrame) × ComesFrom fs recent.now next.now frame }
    ensures { (es : List TheEvent) (s : TheStations) (may : MayHappen es s next.now frame) → s.recent ≡ recent.now →
        ComesWith specs (frames_by_event may.stations.cluster.pile) next.now result.now }
{
    frames_unseal_again();
    match next.kind() {
        EventKind::Call { pid } => {
            pid_is(&pid);
            are_in_range(&next.call());
            &[]
        }
        EventKind::Collect { .. } | EventKind::Tick { .. } => &[],
        EventKind::Deliver { .. } => recent.get(frame).bytes.as_slice(),
    }
}

/// The station has the event, with which these bytes come.
#[inline(always)]
fn respond(host: &mut Host, next: &NextEvent, bytes: &[u8], into: &mut Response)
    requires few { host.old.events + 1 < STATION_EVENTS }
    requires own { is_own host.old next.now ≡ true }
    ensures { IsEvent host.old host.new (input_with bytes.now next.now) (answer_of host.new into.new) }
{
    match next.kind() {
        EventKind::Call { pid } => host.call(pid, &next.call(), into),
        EventKind::Collect { pid } => host.collect(pid, into),
        EventKind::Tick { .. } => host.tick(into),
        EventKind::Deliver { .. } => host.deliver(bytes, into),
    }
}

impl StormStations {
    /// Before the first event.
    ///
    /// # Errors
    ///
    /// [`NoMemory`] where memory is wanting.
    pub fn new(alloc: Global, config: &Config) -> Result<Self, NoMemory>
        requires { config.now ≡ settings }
        ensures { IfOk result (AreStations []) }
    {
        let _lawful = config.times();
        pids_are(config.specs());
        Ok(StormStations {
            hosts: new_hosts(alloc, config)?,
            recent: RecentFrames::new(alloc)?,
        })
    }

    /// Whether no event happens any more.
    pub fn is_full(&self) -> bool
        ensures { result ≡ nat_lt LAST_BYTES self.now.recent.size }
    {
        self.recent.size > LAST_BYTES
    }

    /// One event more, with the frame in this place where it is a delivery. Gives the place of the station that had it, whose answer then
    /// stands in `response`.
    #[inline(always)]
    pub fn play(&mut self, next: &NextEvent, frame: usize, response: &mut Response) -> usize
        requires may { (es : List TheEvent) × MayHappen es self.old next.now frame }
        requires low { self.old.recent.size ≤ LAST_BYTES }
        ensures { (es : List TheEvent) → MayHappen es self.old next.now frame → HasPlayed es self.new next.now response.new result }
    {
        frames_unseal_again();
        let place = place_of(next.station());
        let bytes = bytes_with(&self.recent, frame, next);
        let host = &mut self.hosts[place];
        respond(host, next, bytes, response);
        self.recent.keep(host);
        place
    }

    /// The station in this place, with the frames of its last event.
    pub fn station(&self, place: usize) -> &Host
        requires { place < length self.now.hosts.items }
        ensures { slice_get self.now.hosts.items place ≡ Some result.now }
    {
        &self.hosts[place]
    }
}
