//! The Lamport numbers of a log's entries. They want no station: each is one more than the last, and than the number of a frame that came.

ghost use Rattle.std.specs.Prelude.{◌≡◌, ◌<◌, ◌+◌, ◌-◌, ◌^◌, length, min, take, IfOk, OnOk};
ghost use Rattle.vk_host.specs.Values.{input_of};
ghost use Rattle.vk_join.specs.Keys.{AreKeys, number_behind};
ghost use Rattle.vk_log.specs.Logs.{event_of as event_seen};
ghost use Rattle.vk_rules.specs.Frames.{number_in, unsealed_of};

use crate::brief_log::BriefLog;
use crate::replay::{Key, push_key};
use std::alloc::Global;
use vk_base::NoMemory;
use vk_base::limits::LAST_NUMBER;
use vk_frame::unseal;
use vk_log::StationEventView;

/// A key for each event of the logs, one log behind the other.
pub fn keys_of(alloc: Global, logs: &[BriefLog]) -> Result<Vec<Key>, NoMemory>
    ensures { IfOk result (λ keys. AreKeys logs.now logs.now keys.items) }
{
    let mut keys = Vec::with_capacity(alloc, count_of(logs))?;
    for at in 0..logs.len() {
        push_keys(&mut keys, logs, at)?;
    }
    Ok(keys)
}

/// How many events the logs have, so that their keys do not grow.
fn count_of(logs: &[BriefLog]) -> usize {
    let mut count = 0_usize;
    for log in logs {
        count = count.saturating_add(log.len());
    }
    count
}

/// A key for each event of the log at this place, behind those of the logs before it.
fn push_keys(keys: &mut Vec<Key>, logs: &[BriefLog], log: usize) -> Result<(), NoMemory>
    requires log { log < length logs.now }
    requires before { AreKeys logs.now (take log logs.now) keys.old.items }
    ensures { OnOk result (AreKeys logs.now (take (log + 1) logs.now) keys.new.items) }
{
    let entry = &logs[log];
    let mut number = 0;
    for at in 0..entry.len() {
        number = number_behind(number, &entry.get(at));
        push_key(keys, Key { number, log, at })?;
    }
    Ok(())
}

/// The number that an event's entry has behind one with that number.
fn number_behind(number: u64, event: &StationEventView) -> u64
    ensures { result ≡ number_behind number (input_of (event_seen event.now)) }
{
    match event {
        StationEventView::Deliver { frame } => next_number(number.max(number_in(frame))),
        StationEventView::Call { .. } | StationEventView::Collect { .. } | StationEventView::Tick =>
            next_number(number),
    }
}

/// One more, up to 2^63 - 1.
fn next_number(number: u64) -> u64
    ensures { result ≡ min (number + 1) (2 ^ 63 - 1) }
{
    if number < LAST_NUMBER {
        number + 1
    } else {
        LAST_NUMBER
    }
}

/// The number that came with these bytes, 0 where no header opens.
fn number_in(bytes: &[u8]) -> u64
    ensures { result ≡ number_in (unsealed_of bytes.now) }
{
    match unseal(bytes) {
        Some((header, _)) => header.number,
        None => 0,
    }
}
