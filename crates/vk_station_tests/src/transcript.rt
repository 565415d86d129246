//! A text of stations and what they tell. A line `station HOST ALIENS BYTES` makes a station with two processes; a line `NAME: HEX`
//! names a frame; a line `HOST> EVENT` is an event, with what the station tells of it behind it. A line that begins with `# ` is a
//! remark.

use crate::frames::is_bad;
use crate::station::Station;
use std::alloc::Global;
use std::io;

/// A station, of the words behind `station`.
fn station_of(alloc: Global, words: &str) -> io::Result<Station> {
    let Some((host, rest)) = words.split_once(' ') else {
        return Err(is_bad());
    };
    let Some((pool, size)) = rest.split_once(' ') else {
        return Err(is_bad());
    };
    match (
        host.parse::<u16>(),
        pool.parse::<u32>(),
        size.parse::<u32>(),
    ) {
        (Ok(host), Ok(pool), Ok(size)) => Station::new(alloc, host, pool, size),
        _ => Err(is_bad()),
    }
}

/// The place of the station.
fn place_of(stations: &[Station], host: &str) -> Option<usize> {
    let host = host.parse::<u16>().ok()?;
    stations.iter().position(|s| s.number() == host)
}

/// Appends the line.
pub fn put_line(told: &mut Vec<u8>, line: &str) -> io::Result<()> {
    told.extend_from_slice(line.as_bytes())?;
    told.push(b'\n')?;
    Ok(())
}

/// Plays an event at its station.
fn play(
    alloc: Global,
    stations: &mut Vec<Station>,
    text: &str,
    host: &str,
    event: &str,
    told: &mut Vec<u8>,
) -> io::Result<()> {
    let Some(place) = place_of(stations, host) else {
        return Err(is_bad());
    };
    match stations.get_mut(place) {
        Some(station) => station.play(alloc, text, event, told),
        None => Err(is_bad()),
    }
}

/// Whether the line is a remark, or empty, or names a frame.
fn is_kept(line: &str) -> bool {
    line.is_empty() || line.starts_with("# ") || line.contains(": ")
}

/// A line of the text: it is copied, but where it was told; a station is made, and an event is played.
fn put(
    alloc: Global,
    stations: &mut Vec<Station>,
    text: &str,
    line: &str,
    told: &mut Vec<u8>,
) -> io::Result<()> {
    if let Some((host, event)) = line.split_once("> ") {
        put_line(told, line)?;
        return play(alloc, stations, text, host, event, told);
    }
    if let Some(words) = line.strip_prefix("station ") {
        stations.push(station_of(alloc, words)?)?;
        return put_line(told, line);
    }
    if is_kept(line) {
        return put_line(told, line);
    }
    Ok(())
}

/// The text as the stations tell it: what is told of each event stands behind its line.
pub fn transcript(alloc: Global, text: &str) -> io::Result<Vec<u8>> {
    let mut stations = Vec::new(alloc);
    let mut told = Vec::new(alloc);
    for line in text.lines() {
        if put(alloc, &mut stations, text, line, &mut told).is_err() {
            put_line(&mut told, "this cannot be played")?;
        }
    }
    Ok(told)
}
