//! The line of an event. Each of these reads the words from `at` on, and writes their event over the one that it is given. `None`
//! is a bad line.

ghost use Rattle.std.specs.Prelude.{◌≡◌, option_map, true};
ghost use Rattle.vk_base.specs.Settings.{has_station};
ghost use Rattle.vk_text.specs.Lines.{words_from};
ghost use Rattle.vk_schedule.specs.Lawful.{has_actors};
ghost use Rattle.vk_schedule.specs.Schedule.{acting, call_event_of, collect_event_of, tick_event_of, deliver_event_of, event_of};

use crate::view::{EventBuffer, EventKind};
use vk_base::Config;
use vk_base::limits::{LAST_NUMBER, SHORT_NUMBER};
use vk_text::{is_end, leads, next_pid, next_positive, next_station, take_call};

/// `PID CALLTEXT`
#[tactic(auto, unfolding(crate::specs::Schedule::call_event_of))]
fn read_call_event(line: &[u8], at: usize, into: &mut EventBuffer) -> Option<()>
    ensures { option_map (λ _. into.new) result ≡ call_event_of (words_from line.now at) }
{
    let (pid, at) = next_pid(line, at)?;
    take_call(line, at, &mut into.call)?;
    into.kind = EventKind::Call { pid };
    Some(())
}

/// `PID`
#[tactic(auto, unfolding(crate::specs::Schedule::collect_event_of))]
fn read_collect(line: &[u8], at: usize, into: &mut EventBuffer) -> Option<()>
    ensures { option_map (λ _. into.new) result ≡ collect_event_of (words_from line.now at) }
{
    let (pid, at) = next_pid(line, at)?;
    if !is_end(line, at) {
        return None;
    }
    into.kind = EventKind::Collect { pid };
    Some(())
}

/// `H`
#[tactic(auto, unfolding(crate::specs::Schedule::tick_event_of))]
fn read_tick(line: &[u8], at: usize, into: &mut EventBuffer) -> Option<()>
    ensures { option_map (λ _. into.new) result ≡ tick_event_of (words_from line.now at) }
{
    let (host, at) = next_station(line, at)?;
    if !is_end(line, at) {
        return None;
    }
    into.kind = EventKind::Tick { host };
    Some(())
}

/// `TO FROM EVENT OUTPUT`
#[tactic(auto, unfolding(crate::specs::Schedule::deliver_event_of))]
fn read_delivery(line: &[u8], at: usize, into: &mut EventBuffer) -> Option<()>
    ensures { option_map (λ _. into.new) result ≡ deliver_event_of (words_from line.now at) }
{
    let (to, at) = next_station(line, at)?;
    let (from, at) = next_station(line, at)?;
    let (event, at) = next_positive(line, at, LAST_NUMBER)?;
    let (output, at) = next_positive(line, at, SHORT_NUMBER)?;
    if !is_end(line, at) {
        return None;
    }
    into.kind = EventKind::Deliver {
        to,
        from,
        event,
        output: output as u16,
    };
    Some(())
}

/// The event that the line spells.
#[tactic(auto, unfolding(crate::specs::Schedule::event_of))]
fn read_words(line: &[u8], into: &mut EventBuffer) -> Option<()>
    ensures { option_map (λ _. into.new) result ≡ event_of (words_from line.now 0) }
{
    if leads(line, b"call ") {
        read_call_event(line, 5, into)
    } else if leads(line, b"collect ") {
        read_collect(line, 8, into)
    } else if leads(line, b"tick ") {
        read_tick(line, 5, into)
    } else if leads(line, b"deliver ") {
        read_delivery(line, 8, into)
    } else {
        None
    }
}

/// Whether its processes and stations are in the configuration.
fn has_actors(config: &Config, event: &EventBuffer) -> bool
    ensures { result ≡ has_actors config.now.specs event.now }
{
    match event.kind {
        EventKind::Call { pid } | EventKind::Collect { pid } => config.has_process(pid),
        EventKind::Tick { host } => has_station(config, host),
        EventKind::Deliver { to, from, .. } => {
            has_station(config, to) && has_station(config, from)
        }
    }
}

/// Whether the host is one of a process. It is looked for first where it stands if the stations are numbered from 1 on, as in most
/// configurations.
fn has_station(config: &Config, host: u16) -> bool
    ensures { result ≡ has_station config.now.specs host }
{
    stands_first(config, host) || config.has_station(host)
}

/// Whether the station stands in the place of its number.
fn stands_first(config: &Config, host: u16) -> bool
    ensures { result ≡ true → has_station config.now.specs host ≡ true }
{
    let place = u32::from(host).wrapping_sub(1);
    place < config.station_count() && config.station(place) == host
}

/// The event of the line, where it is one of processes and stations of the configuration.
pub fn read_event(config: &Config, line: &[u8], into: &mut EventBuffer) -> Option<()>
    ensures { option_map (λ _. into.new) result ≡ acting config.now.specs (event_of (words_from line.now 0)) }
{
    read_words(line, into)?;
    if has_actors(config, into) {
        Some(())
    } else {
        None
    }
}
