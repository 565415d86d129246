//! Logs played again, each at its station.

ghost use Rattle.std.specs.Prelude.{◌≡◌, ◌≤◌, ◌<◌, ◌+◌, ◌++◌, ◌∷◌, [], List, Some, length, slice_get, sum_by, take, IfOk, IfErr, OnOk};
ghost use Rattle.vk_base.specs.declared.limits.TheConstants.{EVENTS};
ghost use Rattle.vk_base.specs.Settings.{stations_of};
ghost use Rattle.vk_cluster.specs.declared.emitted.TheConstants.{EVENT_BYTES};
ghost use Rattle.vk_cluster.specs.declared.frames.TheConstants.{MOST_BYTES as MOST};
ghost use Rattle.vk_cluster.specs.Piles.{AreFrames, IsAdded, IsPileKept, pile_of};
ghost use Rattle.vk_schedule.specs.declared.log.StationLog.{StationLog as TheLog};
ghost use Rattle.vk_join.specs.Laws.{AreGiven};
ghost use Rattle.vk_join.specs.Logs.{byte_count, event_count};
ghost use Rattle.vk_join.specs.Replays.{HasReplayed, IsNextPlayed, IsOverLimit, front_of};

use crate::log::JoinRefusal;
use std::alloc::Global;
use vk_base::{Config, NoMemory, StationEvent};
use vk_cluster::{EmittedFrames, MOST_BYTES, keep, new_hosts, place_of};
use vk_frame::frames_are_spelled_once;
use vk_host::Host;
use vk_packet::packets_are_spelled_once;
use vk_schedule::StationLog;

/// Where an event stands: the place of its log among all, and its own in the log, counted from 0; with the Lamport number that its
/// entry has.
#[derive(Clone, Copy)]
pub struct Key {
    pub number: u64,
    pub log: usize,
    pub at: usize,
}

/// Where an event of a log is played: the place of the log among all, its own in the log, and that of its station among those of the
/// configuration, each counted from 0.
#[derive(Clone, Copy)]
pub struct Position {
    pub log: usize,
    pub at: usize,
    pub place: usize,
}

/// The stations of a configuration after the events of some logs, the frames that they emitted, and a key for each event.
#[derive(Drop)]
pub struct Replay {
    pub alloc: Global,
    pub hosts: Vec<Host>,
    pub emitted: EmittedFrames,
    pub keys: Vec<Key>,
}

/// All logs played, one behind the other.
///
/// # Errors
///
/// Limit where the frames of the entries have more than 268,435,456 bytes.
pub fn replayed(alloc: Global, config: &Config, logs: &[StationLog]) -> Result<Replay, JoinRefusal>
    requires given { AreGiven config.now logs.now }
    requires few { event_count logs.now ≤ EVENTS }
    ensures played { IfOk result (HasReplayed config.now logs.now logs.now) }
    ensures refused { IfErr result (IsOverLimit (byte_count config.now logs.now)) }
{
    let mut replay = started(alloc, config)?;
    for at in 0..logs.len() {
        replay.play_log(config, logs, at)?;
    }
    Ok(replay)
}

/// Before any event.
fn started(alloc: Global, config: &Config) -> Result<Replay, NoMemory>
    requires { AreGiven config.now [] }
    ensures { IfOk result (λ r. (all : List TheLog) → HasReplayed config.now all [] r) }
{
    Ok(Replay {
        alloc,
        hosts: new_hosts(alloc, config)?,
        emitted: EmittedFrames::new(alloc, config.station_count() as usize)?,
        keys: Vec::new(alloc),
    })
}

impl Replay {
    /// The log at this place, once those before it were played.
    fn play_log(
        &mut self,
        config: &Config,
        logs: &[StationLog],
        log: usize,
    ) -> Result<(), JoinRefusal>
        requires given { AreGiven config.now logs.now }
        requires few { event_count logs.now ≤ EVENTS }
        requires log { log < length logs.now }
        requires played { HasReplayed config.now logs.now (take log logs.now) self.old }
        ensures played { OnOk result (HasReplayed config.now logs.now (take (log + 1) logs.now) self.new) }
        ensures refused { IfErr result (IsOverLimit (byte_count config.now logs.now)) }
    {
        let entry = &logs[log];
        let place = place_of(config, entry.host);
        let events = entry.events.as_slice();
        for at in 0..events.len() {
            let position = Position { log, at, place };
            self.play(config, logs, entry, &events[at], position)?;
        }
        Ok(())
    }

    /// The event at this place of a log, once those before it were played.
    fn play(
        &mut self,
        config: &Config,
        logs: &[StationLog],
        entry: &StationLog,
        event: &StationEvent,
        position: Position,
    ) -> Result<(), JoinRefusal>
        requires { IsNextPlayed config.now logs.now position entry.now event.now self.old }
        ensures played { OnOk result
            (HasReplayed config.now logs.now (front_of (take position.log logs.now) entry.now (position.at + 1)) self.new) }
        ensures refused { IfErr result (IsOverLimit (byte_count config.now logs.now)) }
    {
        frames_are_spelled_once();
        packets_are_spelled_once();
        let Position { log, at, place } = position;
        let _response = self.hosts[place].respond(event);
        keep_frames(self.alloc, &mut self.emitted, &self.hosts[place], place)?;
        let number = self.hosts[place].number();
        push_key(&mut self.keys, Key { number, log, at })?;
        Ok(())
    }
}

/// Keeps the frames of the last event of the station at this place.
///
/// # Errors
///
/// Limit where all frames would have more than 268,435,456 bytes.
fn keep_frames(
    alloc: Global,
    emitted: &mut EmittedFrames,
    host: &Host,
    place: usize,
) -> Result<(), JoinRefusal>
    requires kept { IsPileKept (pile_of emitted.old) }
    requires place { place < length emitted.old.events.items }
    requires most { length (pile_of emitted.old).bytes ≤ MOST }
    requires few { AreFrames host.now.frames }
    requires bytes { sum_by length host.now.frames ≤ EVENT_BYTES }
    ensures added { OnOk result (IsAdded (pile_of emitted.old) (pile_of emitted.new) place host.now.frames) }
    ensures most { OnOk result (length (pile_of emitted.old).bytes + sum_by length host.now.frames ≤ MOST) }
    ensures refused { IfErr result (IsOverLimit (length (pile_of emitted.old).bytes + sum_by length host.now.frames)) }
{
    let bytes = frame_bytes(host);
    if bytes > MOST_BYTES - emitted.size() {
        return Err(JoinRefusal::Limit);
    }
    emitted.make_room(alloc, place, bytes, host.frame_count() as usize)?;
    keep(emitted, host, place);
    Ok(())
}

/// How many bytes the frames of the last event have.
fn frame_bytes(host: &Host) -> usize
    requires { sum_by length host.now.frames ≤ EVENT_BYTES }
    ensures { result ≡ sum_by length host.now.frames }
{
    let mut bytes = 0;
    for at in 0..host.frame_count() {
        bytes += host.frame(at).len();
    }
    bytes
}

/// One key more.
pub fn push_key(keys: &mut Vec<Key>, key: Key) -> Result<(), NoMemory>
    ensures { OnOk result (keys.new.items ≡ keys.old.items ++ key ∷ []) }
{
    keys.push(key)?;
    Ok(())
}
