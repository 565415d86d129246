//! What the texts of schedules and scenarios begin with, in one of two formats. Format 1 is a title and the lines of processes; its times
//! and pools are the usual ones. Format 2 is another title, a line of times, the lines of processes, and lines of pools.

ghost use Rattle.std.specs.Prelude.{◌≡◌, ◌+◌, ◌<◌, ◌≤◌, ◌⊎◌, ◌++◌, ◌∷◌, [], ℕ, false, true, None, Ok, Some, Err, drop, length, flat_map, map, option_map, IfErr, IfOk, IfSome, MatchOption, OnErr, OnOk};
ghost use Rattle.std.specs.List.{list_all};
ghost use Rattle.vk_base.specs.declared.limits.TheConstants.{PROCESSES, STATIONS};
ghost use Rattle.vk_base.specs.Settings.{pool_refusal, stations_of, times_are_lawful, uniform, with_pool};
ghost use Rattle.vk_text.specs.Heads.{line_text, process_text, processes_from, usual_pool, usual_times};
ghost use Rattle.vk_text.specs.Lines.{lines_of, words_from};
ghost use Rattle.vk_text.specs.Openings.{OpeningsAreSpelled, OpeningsAreWritten, OpeningsHaveNoFeed, OpeningsReadBack, HasProcesses, first_pool, has_usual_pool, is_usual, line_number, opening_of, opening_text, plain_opening, pool_fields_of, pool_line_of, pool_lines, pool_text, pools_from, same_times, timed_lines, timed_opening, times_fields_of, times_of, times_text, with_pools};
ghost use Rattle.vk_text.specs.Spelling.{StartsWith};

use crate::heads::{
    Head, USUAL_POOL, config_of, empty_config, put_head, read_processes, usual_times,
    write_processes,
};
use crate::line::{next_line, next_word};
use crate::next::{is_end, next_number, next_positive, next_station};
use crate::spelling::{put, put_byte};
use crate::writing::write_number;
use std::alloc::Global;
use thiserror::Error;
use vk_base::limits::{INTERVAL, LIFE, POOL, TRIES};
use vk_base::{Config, NoMemory, Times};

/// Why a text has no opening.
#[derive(Clone, Copy, Debug, PartialEq, Eq, Error)]
pub enum OpeningRefusal {
    /// The line of this number, 1 or 2, is none of the two titles, or not that of the times.
    #[error("line {line} is not valid")]
    Bad { line: u64 },
    #[error("out of memory")]
    NoMemory,
}

/// `TRIES INTERVAL LIFE`
#[tactic(auto, unfolding(crate::specs::Openings::times_fields_of))]
fn read_times_fields(line: &[u8], at: usize) -> Option<Times>
    ensures { result ≡ times_fields_of (words_from line.now at) }
{
    let (tries, at) = next_positive(line, at, u64::from(TRIES))?;
    let (interval, at) = next_positive(line, at, u64::from(INTERVAL))?;
    let (life, at) = next_number(line, at, u64::from(LIFE))?;
    if is_end(line, at) {
        Some(Times {
            tries: tries as u32,
            interval: interval as u32,
            life: life as u32,
        })
    } else {
        None
    }
}

/// `times TRIES INTERVAL LIFE`
#[tactic(auto, unfolding(crate::specs::Openings::times_of))]
fn read_times(line: &[u8]) -> Option<Times>
    ensures { result ≡ times_of (words_from line.now 0) }
{
    let (word, at) = next_word(line, 0)?;
    if word == b"times".as_slice() {
        read_times_fields(line, at)
    } else {
        None
    }
}

/// `HOST POOL`
#[tactic(auto, unfolding(crate::specs::Openings::pool_fields_of))]
fn read_pool_fields(line: &[u8], at: usize) -> Option<(u16, u32)>
    ensures { result ≡ pool_fields_of (words_from line.now at) }
{
    let (host, at) = next_station(line, at)?;
    let (pool, at) = next_positive(line, at, u64::from(POOL))?;
    if is_end(line, at) {
        Some((host, pool as u32))
    } else {
        None
    }
}

/// `pool HOST POOL`
#[tactic(auto, unfolding(crate::specs::Openings::pool_line_of))]
fn read_pool(line: &[u8]) -> Option<(u16, u32)>
    ensures { result ≡ pool_line_of (words_from line.now 0) }
{
    let (word, at) = next_word(line, 0)?;
    if word == b"pool".as_slice() {
        read_pool_fields(line, at)
    } else {
        None
    }
}

/// The pool of the station that the line that starts at `at` tells, and where the next line starts.
#[tactic(auto, unfolding(crate::specs::Openings::first_pool))]
fn first_pool(text: &[u8], at: usize, host: u16) -> Option<(u32, usize)>
    ensures pool { MatchOption result (first_pool host (lines_of (drop at text.now)) ≡ None)
        (λ told. first_pool host (lines_of (drop at text.now)) ≡ Some (told.0, lines_of (drop told.1 text.now))) }
    ensures within { IfSome result (λ told. told.1 ≤ length text.now) }
{
    let (line, next) = next_line(text, at)?;
    let (of, pool) = read_pool(line)?;
    if of == host { Some((pool, next)) } else { None }
}

/// The station has this pool from now on, which it may have.
fn give_pool(config: &mut Config, host: u16, pool: u32)
    requires { pool_refusal config.old host pool ≡ None }
    ensures { config.new ≡ with_pool config.old host pool }
{
    match config.set_pool(host, pool) {
        Ok(()) => {}
        Err(_) => unreachable!(),
    }
}

/// Gives the stations the pools that the lines from `start` on tell of them. Tells where the first line behind these starts, and how
/// many they are.
fn read_pools(config: &mut Config, text: &[u8], start: usize) -> (usize, u64)
    requires usual { config.old ≡ uniform config.old.times usual_pool config.old.specs }
    requires within { start ≤ length text.now }
    ensures read { pools_from (stations_of config.old.specs) (lines_of (drop start text.now)) ≡
        (config.new.pools, lines_of (drop result.0 text.now)) }
    ensures others { config.new ≡ record config.old { pools = config.new.pools } }
    ensures count { result.1 + length (lines_of (drop result.0 text.now)) ≡ length (lines_of (drop start text.now)) }
    ensures within { result.0 ≤ length text.now }
    ensures few { result.1 ≤ STATIONS }
{
    let mut at = start;
    let mut taken = 0;
    for place in 0..config.station_count() {
        let host = config.station(place);
        if let Some((pool, next)) = first_pool(text, at, host) {
            give_pool(config, host, pool);
            at = next;
            taken += 1;
        }
    }
    (at, taken)
}

/// The processes from `start` on, which is behind the title of format 1.
fn read_plain(alloc: Global, text: &[u8], start: usize) -> Result<Head, NoMemory>
    requires { start ≤ length text.now }
    ensures opening { IfOk result (λ h. plain_opening (lines_of (drop start text.now)) ≡ (h.config, lines_of (drop h.at text.now))) }
    ensures line { IfOk result (λ h. h.line + length (lines_of (drop h.at text.now)) ≡ length (lines_of (drop start text.now)) + 2) }
    ensures few { IfOk result (λ h. h.line ≤ PROCESSES + STATIONS + 3) }
    ensures within { IfOk result (λ h. h.at ≤ length text.now) }
    ensures memory { OnErr result (0 < length (plain_opening (lines_of (drop start text.now))).0.specs) }
{
    let mut config = empty_config(alloc);
    let at = read_processes(&mut config, text, start)?;
    let line = config.specs().len() as u64 + 2;
    Ok(Head { config, at, line })
}

/// The processes and the pools from `start` on, which is behind these times.
fn read_pooled(alloc: Global, times: Times, text: &[u8], start: usize) -> Result<Head, NoMemory>
    requires lawful { times_are_lawful times ≡ true }
    requires within { start ≤ length text.now }
    ensures opening { IfOk result (λ h. with_pools times (processes_from [] (lines_of (drop start text.now))) ≡
        (h.config, lines_of (drop h.at text.now))) }
    ensures line { IfOk result (λ h. h.line + length (lines_of (drop h.at text.now)) ≡ length (lines_of (drop start text.now)) + 3) }
    ensures few { IfOk result (λ h. h.line ≤ PROCESSES + STATIONS + 3) }
    ensures within { IfOk result (λ h. h.at ≤ length text.now) }
    ensures memory { OnErr result (0 < length (processes_from [] (lines_of (drop start text.now))).0) }
{
    let mut config = config_of(alloc, times);
    let at = read_processes(&mut config, text, start)?;
    let (at, pools) = read_pools(&mut config, text, at);
    let line = config.specs().len() as u64 + pools + 3;
    Ok(Head { config, at, line })
}

/// The times from `start` on, which is behind the title of format 2, and what stands behind them.
fn read_timed(alloc: Global, text: &[u8], start: usize) -> Result<Head, OpeningRefusal>
    requires { start ≤ length text.now }
    ensures opening { IfOk result (λ h. timed_opening (lines_of (drop start text.now)) ≡ Ok (h.config, lines_of (drop h.at text.now))) }
    ensures line { IfOk result (λ h. h.line + length (lines_of (drop h.at text.now)) ≡ length (lines_of (drop start text.now)) + 2) }
    ensures few { IfOk result (λ h. h.line ≤ PROCESSES + STATIONS + 3) }
    ensures within { IfOk result (λ h. h.at ≤ length text.now) }
    ensures refused { IfErr result (λ e. ((e ≡ OpeningRefusal.NoMemory) × HasProcesses (timed_opening (lines_of (drop start text.now))))
        ⊎ ((e ≡ OpeningRefusal.Bad 2) × (timed_opening (lines_of (drop start text.now)) ≡ Err 2))) }
{
    let Some((line, next)) = next_line(text, start) else {
        return Err(OpeningRefusal::Bad { line: 2 });
    };
    let Some(times) = read_times(line) else {
        return Err(OpeningRefusal::Bad { line: 2 });
    };
    match read_pooled(alloc, times, text, next) {
        Ok(head) => Ok(head),
        Err(NoMemory) => Err(OpeningRefusal::NoMemory),
    }
}

/// What the text begins with: the configuration that it tells, in the format of its title. Behind the title of format 1 come lines
/// `process PID SIZE`, by rising pids and within the limits of a configuration; behind that of format 2 a line
/// `times TRIES INTERVAL LIFE`, such lines of processes, and lines `pool HOST POOL` by rising stations, each with 1 to 64 aliens. The
/// first line that is none of these, or one at fault, is the first behind: no body begins with the words `process` and `pool`.
/// Memory is wanted only where a process stands there.
pub fn read_opening(
    alloc: Global,
    text: &[u8],
    plain: &[u8],
    timed: &[u8],
) -> Result<Head, OpeningRefusal>
    ensures opening { IfOk result (λ h. opening_of plain.now timed.now (lines_of text.now) ≡ Ok (h.config, lines_of (drop h.at text.now))) }
    ensures line { IfOk result (λ h. h.line ≡ line_number (lines_of text.now) (lines_of (drop h.at text.now))) }
    ensures few { IfOk result (λ h. h.line ≤ PROCESSES + STATIONS + 3) }
    ensures within { IfOk result (λ h. h.at ≤ length text.now) }
    ensures refused { IfErr result (λ e. ((e ≡ OpeningRefusal.NoMemory) × HasProcesses (opening_of plain.now timed.now (lines_of text.now)))
        ⊎ ((line : ℕ) × (e ≡ OpeningRefusal.Bad line) × (opening_of plain.now timed.now (lines_of text.now) ≡ Err line))) }
{
    let Some((line, next)) = next_line(text, 0) else {
        return Err(OpeningRefusal::Bad { line: 1 });
    };
    if line == plain {
        match read_plain(alloc, text, next) {
            Ok(head) => Ok(head),
            Err(NoMemory) => Err(OpeningRefusal::NoMemory),
        }
    } else if line == timed {
        read_timed(alloc, text, next)
    } else {
        Err(OpeningRefusal::Bad { line: 1 })
    }
}

/// Whether all stations have the usual pool.
fn has_usual_pools(config: &Config) -> bool
    ensures { result ≡ list_all (has_usual_pool config.now) (stations_of config.now.specs) }
{
    for place in 0..config.station_count() {
        if config.pool_of(config.station(place)) != USUAL_POOL {
            return false;
        }
    }
    true
}

/// Whether format 1 tells of the configuration.
fn is_usual(config: &Config) -> bool
    ensures { result ≡ is_usual config.now }
{
    let (times, usual) = (config.times(), usual_times());
    times.tries == usual.tries
        && times.interval == usual.interval
        && times.life == usual.life
        && has_usual_pools(config)
}

/// Appends the line of the times.
fn write_times(alloc: Global, into: &mut Vec<u8>, times: Times) -> Result<(), NoMemory>
    ensures ok { OnOk result (into.new.items ≡ into.old.items ++ line_text (times_text times)) }
    ensures front { OnErr result (StartsWith into.old.items into.new.items) }
{
    put(into, b"times")?;
    write_number(alloc, into, u64::from(times.tries))?;
    write_number(alloc, into, u64::from(times.interval))?;
    write_number(alloc, into, u64::from(times.life))?;
    put_byte(into, b'\n')
}

/// Appends the line of a station's pool.
fn write_pool(alloc: Global, into: &mut Vec<u8>, host: u16, pool: u32) -> Result<(), NoMemory>
    ensures ok { OnOk result (into.new.items ≡ into.old.items ++ line_text (pool_text host pool)) }
    ensures front { OnErr result (StartsWith into.old.items into.new.items) }
{
    put(into, b"pool")?;
    write_number(alloc, into, u64::from(host))?;
    write_number(alloc, into, u64::from(pool))?;
    put_byte(into, b'\n')
}

/// Appends the line of the station's pool, where that is not the usual one.
fn write_own_pool(
    alloc: Global,
    into: &mut Vec<u8>,
    config: &Config,
    host: u16,
) -> Result<(), NoMemory>
    ensures ok { OnOk result (into.new.items ≡ into.old.items ++ flat_map line_text (pool_lines config.now host)) }
    ensures front { OnErr result (StartsWith into.old.items into.new.items) }
{
    let pool = config.pool_of(host);
    if pool == USUAL_POOL {
        Ok(())
    } else {
        write_pool(alloc, into, host, pool)
    }
}

/// Appends the lines of the pools that are not the usual one.
fn write_pools(alloc: Global, into: &mut Vec<u8>, config: &Config) -> Result<(), NoMemory>
    ensures ok { OnOk result (into.new.items ≡ into.old.items
        ++ flat_map line_text (flat_map (pool_lines config.now) (stations_of config.now.specs))) }
    ensures front { OnErr result (StartsWith into.old.items into.new.items) }
{
    for place in 0..config.station_count() {
        write_own_pool(alloc, into, config, config.station(place))?;
    }
    Ok(())
}

/// Appends the lines of the times, the processes and the pools.
fn write_settings(alloc: Global, into: &mut Vec<u8>, config: &Config) -> Result<(), NoMemory>
    ensures ok { OnOk result (into.new.items ≡ into.old.items ++ flat_map line_text (times_text config.now.times
        ∷ (map process_text config.now.specs ++ flat_map (pool_lines config.now) (stations_of config.now.specs)))) }
    ensures front { OnErr result (StartsWith into.old.items into.new.items) }
{
    write_times(alloc, into, config.times())?;
    write_processes(alloc, into, config.specs())?;
    write_pools(alloc, into, config)
}

/// Appends all of an opening of format 2.
fn write_timed(
    alloc: Global,
    into: &mut Vec<u8>,
    title: &[u8],
    config: &Config,
) -> Result<(), NoMemory>
    ensures ok { OnOk result (into.new.items ≡ into.old.items ++ flat_map line_text (timed_lines title.now config.now)) }
    ensures front { OnErr result (StartsWith into.old.items into.new.items) }
{
    put(into, title)?;
    put_byte(into, b'\n')?;
    write_settings(alloc, into, config)
}

/// Appends all of an opening of format 2. A refusal changes nothing.
fn put_timed(
    alloc: Global,
    into: &mut Vec<u8>,
    title: &[u8],
    config: &Config,
) -> Result<(), NoMemory>
    ensures ok { OnOk result (into.new.items ≡ into.old.items ++ flat_map line_text (timed_lines title.now config.now)) }
    ensures err { OnErr result (into.new.items ≡ into.old.items) }
{
    let len = into.len();
    let written = write_timed(alloc, into, title, config);
    if written.is_err() {
        into.truncate(len);
    }
    written
}

/// Appends what a text of this configuration begins with: in format 1, with the title `plain`, exactly where the times and all pools are
/// the usual ones, else in format 2, with the title `timed` and the pools that are not 16. A refusal changes nothing.
pub fn put_opening(
    alloc: Global,
    into: &mut Vec<u8>,
    plain: &[u8],
    timed: &[u8],
    config: &Config,
) -> Result<(), NoMemory>
    ensures ok { OnOk result (into.new.items ≡ into.old.items ++ opening_text plain.now timed.now config.now) }
    ensures err { OnErr result (into.new.items ≡ into.old.items) }
{
    if is_usual(config) {
        put_head(alloc, into, plain, config)
    } else {
        put_timed(alloc, into, timed, config)
    }
}

/// Each opening is read as its configuration, and what is read of a text is an opening of it.
pub fn openings_are_read_again()
    ensures back { OpeningsReadBack }
    ensures spelled { OpeningsAreSpelled }
{}

/// What is written of a configuration is an opening of it, and openings are lines.
pub fn openings_are_written()
    ensures written { OpeningsAreWritten }
    ensures lines { OpeningsHaveNoFeed }
{}
