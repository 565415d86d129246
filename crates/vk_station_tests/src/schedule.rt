//! A text of all stations and what they tell. It begins as a schedule, with a line that begins `vkernel`, `times`, `process` or `pool`;
//! a line `> EVENT` is an event of a schedule, with what the stations tell of it behind it.
//! A line `again COUNT` is the event before it so many times more, with what they tell of the last of these behind it, and how many
//! deliveries there were till then of what was not emitted. A line that begins with `# ` is a remark.

use crate::cluster::Stations;
use crate::frames::is_bad;
use crate::transcript::put_line;
use std::alloc::Global;
use std::{format, io};
use vk_schedule::{EventBuffer, EventReader};

/// The stations, the events that are left, and the last one.
#[derive(Drop)]
struct Play<'a> {
    stations: Stations,
    reader: EventReader<'a>,
    event: EventBuffer,
}

/// The line of the schedule that this one is.
fn scheduled(line: &str) -> Option<&str> {
    for word in ["vkernel ", "times ", "process ", "pool "] {
        if line.starts_with(word) {
            return Some(line);
        }
    }
    line.strip_prefix("> ")
}

fn schedule_of(alloc: Global, text: &str) -> io::Result<Vec<u8>> {
    let mut schedule = Vec::new(alloc);
    for line in text.lines() {
        if let Some(line) = scheduled(line) {
            put_line(&mut schedule, line)?;
        }
    }
    Ok(schedule)
}

/// Plays the last event so many times.
fn play_again(
    alloc: Global,
    play: &mut Play<'_>,
    count: &str,
    told: &mut Vec<u8>,
) -> io::Result<()> {
    let Ok(count) = count.parse::<u32>() else {
        return Err(is_bad());
    };
    let event = play.event.view().whole();
    let mut last = Vec::new(alloc);
    for _ in 0..count {
        last.clear();
        play.stations.play(alloc, &event, &mut last)?;
    }
    told.extend_from_slice(last.as_slice())?;
    let missing = play.stations.missing();
    put_line(told, format!(in alloc; "{missing} missing")?.as_str())
}

/// A line of the text: it is copied, but where it was told, and what is to be played is played.
fn put(alloc: Global, play: &mut Play<'_>, line: &str, told: &mut Vec<u8>) -> io::Result<()> {
    if let Some(count) = line.strip_prefix("again ") {
        put_line(told, line)?;
        return play_again(alloc, play, count, told);
    }
    if line.starts_with("> ") {
        put_line(told, line)?;
        if !play.reader.next(&mut play.event) {
            return Err(is_bad());
        }
        let event = play.event.view().whole();
        return play.stations.play(alloc, &event, told);
    }
    if line.is_empty() || line.starts_with("# ") || scheduled(line).is_some() {
        return put_line(told, line);
    }
    Ok(())
}

/// The text as the stations tell it: what is told of each event stands behind its line.
pub fn transcript(alloc: Global, text: &str) -> io::Result<Vec<u8>> {
    let schedule = schedule_of(alloc, text)?;
    let Ok(reader) = EventReader::new(alloc, schedule.as_slice()) else {
        return Err(is_bad());
    };
    let stations = Stations::new(alloc, reader.config())?;
    let mut play = Play {
        stations,
        reader,
        event: EventBuffer::new(),
    };
    let mut told = Vec::new(alloc);
    for line in text.lines() {
        if put(alloc, &mut play, line, &mut told).is_err() {
            put_line(&mut told, "this cannot be played")?;
        }
    }
    Ok(told)
}
