//! Stations that are driven by hand, as files: what no report shows. Each file of `data/stations/` is a text of stations, of frames by
//! name, with every byte, and of events with what the station must tell of each: its Lamport number, itself and its count, the
//! answer, the steps, and the names of its frames. The frames that come are those of the file too, so they may be bad, old or forged.
//! `src/transcript.rt` says how such a text is read. Each file of `data/clusters/` is a schedule, with what all stations must tell of each
//! event and with every byte of their frames (`src/schedule.rt`). Each file of `data/logs/` has logs of stations, with frames of the file's
//! own, and what they are joined to (`src/logs.rt`). A text more is its file, and one more in the number of the file `stdout`.
//!
//! Stands on the station (`vk_host`), on all stations (`vk_cluster`), on joined logs (`vk_join`) and on the texts of calls, schedules and
//! reports (`vk_text`, `vk_schedule`, `vk_report`).
#![tactic(auto)]

mod cluster;
mod frames;
mod logs;
mod schedule;
mod station;
mod told;
mod transcript;

use std::alloc::Global;
use std::rt::Files;
use std::{fs, io, str};

/// The folders of the texts of stations, of all stations, and of logs.
const STATIONS: &str = "stations";

const CLUSTERS: &str = "clusters";

const LOGS: &str = "logs";

/// The texts of a folder, sorted.
fn names(rt: &HostRuntime, folder: &str) -> io::Result<Vec<String>> {
    let mut names = Vec::new(rt.alloc());
    for entry in fs::read_dir(rt, folder)? {
        let entry = entry?;
        let alloc = rt.alloc();
        let name = entry.file_name();
        names.push(format!(in alloc; "{folder}/{name}")?)?;
    }
    names.sort()?;
    Ok(names)
}

/// What the stations tell of the text.
fn told_of(alloc: Global, name: &str, text: &str) -> io::Result<Vec<u8>> {
    if name.starts_with(CLUSTERS) {
        schedule::transcript(alloc, text)
    } else if name.starts_with(LOGS) {
        logs::transcript(alloc, text)
    } else {
        transcript::transcript(alloc, text)
    }
}

/// Whether the stations tell what the text wants; else what they tell is written.
fn agrees(rt: &HostRuntime, name: &str) -> io::Result<bool> {
    let wanted = fs::read_to_string(rt, name)?;
    let told = told_of(rt.alloc(), name, wanted.as_str())?;
    if told.as_slice() == wanted.as_bytes() {
        return Ok(true);
    }
    if let Ok(told) = str::from_utf8(told.as_slice()) {
        println!(rt; "{name} tells:\n{told}")?;
    }
    Ok(false)
}

/// How many texts of the folder agree.
fn agreeing_in(rt: &HostRuntime, folder: &str) -> io::Result<u64> {
    let mut agreeing = 0u64;
    for name in names(rt, folder)? {
        if agrees(rt, name.as_str())? {
            agreeing = agreeing.saturating_add(1);
        }
    }
    Ok(agreeing)
}

fn main(rt: HostRuntime) -> io::Result<()> {
    let mut agreeing = 0u64;
    for folder in [STATIONS, CLUSTERS, LOGS] {
        agreeing = agreeing.saturating_add(agreeing_in(&rt, folder)?);
    }
    println!(rt; "{agreeing} texts agree")
}
