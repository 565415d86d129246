//! Logs of stations and what they are joined to. The title and the processes of a schedule stand in front, and frames by their names; a
//! line `HOST> EVENT` is the next event of that station's log, with the stations by rising numbers: `call PID CALL` or `collect PID` as
//! in a schedule, `tick`, or `deliver NAME`. Behind all stand the events of the schedule that is joined; or the first delivery that is
//! stray, with what it took and what the station emitted; or `limit`. A line that begins with `# ` is a remark.

ghost use Rattle.std.specs.Prelude.{◌≡◌, true, IfOk};
ghost use Rattle.vk_schedule.specs.Lawful.{IsLawful};
ghost use Rattle.vk_join.specs.Logs.{AreLogs, IsOfStation};
ghost use Rattle.vk_rules.specs.Each.{Each};
ghost use Rattle.vk_station_tests.specs.Logs.{IsLogOf};

use crate::frames::{frame_named, is_bad, name_of};
use crate::transcript::put_line;
use std::alloc::Global;
use std::{format, io, str};
use vk_base::{Config, FrameBytes, List, NoMemory, StationEvent};
use vk_join::{JoinRefusal, StationLog, join_stations};
use vk_schedule::{Event, Schedule, read_schedule, write_schedule};

fn out_of_memory() -> io::Error {
    io::Error::from(io::ErrorKind::OutOfMemory)
}

/// Whether the line is one of the front of a schedule.
fn is_front(line: &str) -> bool {
    line.starts_with("vkernel ") || line.starts_with("process ")
}

/// The schedule of the front of the text, with this line behind it.
fn schedule_with(alloc: Global, text: &str, last: &str) -> io::Result<Schedule>
    ensures { IfOk result IsLawful }
{
    let mut schedule = Vec::new(alloc);
    for line in text.lines() {
        if is_front(line) {
            put_line(&mut schedule, line)?;
        }
    }
    schedule.extend_from_slice(last.as_bytes())?;
    match read_schedule(alloc, schedule.as_slice()) {
        Ok(schedule) => Ok(schedule),
        Err(_) => Err(is_bad()),
    }
}

/// The event of a station's log.
fn event_of(alloc: Global, text: &str, event: &str) -> io::Result<StationEvent> {
    if event == "tick" {
        return Ok(StationEvent::Tick);
    }
    if let Some(name) = event.strip_prefix("deliver ") {
        let bytes = frame_named(alloc, text, name)?;
        return match FrameBytes::new(bytes.as_slice()) {
            Some(frame) => Ok(StationEvent::Deliver { frame }),
            None => Err(is_bad()),
        };
    }
    let schedule = schedule_with(alloc, text, event)?;
    match schedule.events.as_slice().first() {
        Some(Event::Call { pid, call }) => Ok(StationEvent::Call {
            pid: *pid,
            call: call.copy(),
        }),
        Some(Event::Collect { pid }) => Ok(StationEvent::Collect { pid: *pid }),
        _ => Err(is_bad()),
    }
}

/// Appends the event to the log of that station, which is the last one or a new one.
fn put_event(
    alloc: Global,
    logs: &mut Vec<StationLog>,
    host: u16,
    event: StationEvent,
) -> io::Result<()> {
    let is_last = match logs.last() {
        Some(log) => log.host == host,
        None => false,
    };
    if !is_last {
        logs.push(StationLog {
            host,
            events: List::empty(alloc),
        })?;
    }
    let Some(log) = logs.last_mut() else {
        return Err(is_bad());
    };
    match log.events.push(event) {
        Ok(()) => Ok(()),
        Err(NoMemory) => Err(out_of_memory()),
    }
}

fn logs_of(alloc: Global, text: &str) -> io::Result<Vec<StationLog>> {
    let mut logs = Vec::new(alloc);
    for line in text.lines() {
        if let Some((host, event)) = line.split_once("> ") {
            let Ok(host) = host.parse::<u16>() else {
                return Err(is_bad());
            };
            let event = event_of(alloc, text, event)?;
            put_event(alloc, &mut logs, host, event)?;
        }
    }
    Ok(logs)
}

/// Whether it is an event of this station, of a process of the configuration.
fn is_own(config: &Config, host: u16, event: &StationEvent) -> bool
    ensures { result ≡ true → IsOfStation config.now.specs host event.now }
{
    match event {
        StationEvent::Call { pid, .. } => pid.host == host && config.has_process(*pid),
        StationEvent::Collect { pid } => pid.host == host && config.has_process(*pid),
        StationEvent::Tick | StationEvent::Deliver { .. } => true,
    }
}

fn are_own(config: &Config, host: u16, events: &[StationEvent]) -> bool
    ensures { result ≡ true → Each (IsOfStation config.now.specs host) events.now }
{
    for event in events {
        if !is_own(config, host, event) {
            return false;
        }
    }
    true
}

/// Whether it is a log of a station of the configuration.
fn is_log(config: &Config, log: &StationLog) -> bool
    ensures { result ≡ true → IsLogOf config.now.specs log.now }
{
    config.has_station(log.host) && are_own(config, log.host, log.events.as_slice())
}

/// Whether they are logs of stations of the configuration, by rising numbers.
fn are_logs(config: &Config, logs: &[StationLog]) -> bool
    ensures { result ≡ true → AreLogs config.now logs.now }
{
    let mut last = 0;
    for log in logs {
        if log.host <= last || !is_log(config, log) {
            return false;
        }
        last = log.host;
    }
    true
}

/// Appends the events of the schedule.
fn tell_schedule(alloc: Global, schedule: &Schedule, told: &mut Vec<u8>) -> io::Result<()>
    requires { IsLawful schedule.now }
{
    let Ok(written) = write_schedule(alloc, schedule) else {
        return Err(out_of_memory());
    };
    let Ok(written) = str::from_utf8(written.as_slice()) else {
        return Err(is_bad());
    };
    for line in written.lines() {
        if !is_front(line) {
            put_line(told, line)?;
        }
    }
    Ok(())
}

/// Appends which delivery is stray.
fn tell_stray(
    alloc: Global,
    text: &str,
    stray: (u16, u64),
    taken: &FrameBytes,
    emitted: &Option<FrameBytes>,
    told: &mut Vec<u8>,
) -> io::Result<()> {
    let (host, event) = stray;
    let taken = name_of(alloc, text, taken.as_slice())?;
    put_line(
        told,
        format!(in alloc; "stray {host}:{event} took {taken}")?.as_str(),
    )?;
    match emitted {
        Some(frame) => {
            let name = name_of(alloc, text, frame.as_slice())?;
            put_line(told, format!(in alloc; "emitted {name}")?.as_str())
        }
        None => put_line(told, "emitted nothing"),
    }
}

/// Appends what becomes of the logs.
fn tell(alloc: Global, text: &str, told: &mut Vec<u8>) -> io::Result<()> {
    let front = schedule_with(alloc, text, "")?;
    let logs = logs_of(alloc, text)?;
    if !are_logs(&front.config, &logs) {
        return Err(is_bad());
    }
    match join_stations(alloc, &front.config, logs) {
        Ok(schedule) => tell_schedule(alloc, &schedule, told),
        Err(
            JoinRefusal::Stray {
                host,
                event,
                taken,
                emitted,
            },
        ) => tell_stray(alloc, text, (host, event), &taken, &emitted, told),
        Err(JoinRefusal::Limit) => put_line(told, "limit"),
        Err(JoinRefusal::NoMemory) => Err(out_of_memory()),
    }
}

/// Whether the line is of the logs, and not told.
fn is_given(line: &str) -> bool {
    line.is_empty()
        || line.starts_with("# ")
        || line.contains(": ")
        || line.contains("> ")
        || is_front(line)
}

/// The text as the logs tell it: what becomes of them stands behind all lines.
pub fn transcript(alloc: Global, text: &str) -> io::Result<Vec<u8>> {
    let mut told = Vec::new(alloc);
    for line in text.lines() {
        if is_given(line) {
            put_line(&mut told, line)?;
        }
    }
    if tell(alloc, text, &mut told).is_err() {
        put_line(&mut told, "this cannot be played")?;
    }
    Ok(told)
}
