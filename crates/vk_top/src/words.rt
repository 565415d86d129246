//! What the program's words ask for, read by clap. Which words it takes and what they ask for is `specs/Words.antt`.

ghost use Rattle.std.specs.Prelude.{◌≡◌, ◌≤◌, map, option_map, codes, string_bytes, IfOk};
ghost use Rattle.clap.specs.Words.{app_of, first_of, found_of, rows_of};
ghost use Rattle.vk_text.specs.Words.{station_of};
ghost use Rattle.vk_top.specs.Words.{AreFewIn, job_by, job_for, job_of, is_set, node_of, storm_of, the_app};

use clap::error::ErrorKind;
use clap::{Arg, ArgAction, ArgMatches, Command};
use std::alloc::{AllocError, Global};
use vk_base::NoMemory;
use vk_base::limits::EVENTS;
use vk_report::Form;
use vk_text::number;

/// What is asked of a text.
#[derive(Clone, Copy, Debug, PartialEq, Eq)]
pub(crate) enum TextCommand {
    /// `replay`, with `--trace` for the trace: a schedule is read, and this is written of it.
    Replay { form: Form },
    /// `check`: a trace is read, and whether its steps are a run is written.
    Check,
    /// `join`: texts of single stations are read, and the schedule that they say is written.
    Join,
}

/// What the words ask for.
#[derive(Clone, Copy, Debug, PartialEq, Eq)]
pub(crate) enum Invocation {
    /// The input is read, and this is asked of its text.
    OfText { asked: TextCommand },
    /// `run`: a scenario is read, its stations are run beside each other, and the schedule of what happened is written.
    Run,
    /// `node H`: a scenario is read, its station of this number, 1 to 65,534, is run, and what happened there is written.
    Node { host: u16 },
    /// `storm N`: nothing is read, and what happens in the storm of this number, at most 100,000, is written.
    Storm { n: u32 },
}

/// The one command that the words are read as.
fn the_command<'a>(alloc: Global) -> Result<Command<'a>, AllocError>
    ensures { IfOk result (λ command. app_of command ≡ the_app) }
{
    let trace = Arg::new(alloc, "trace")
        .long("trace")
        .action(ArgAction::SetTrue);
    let command = Arg::new(alloc, "command").required(true);
    let number = Arg::new(alloc, "number");
    Command::new(alloc, "vkernel")
        .no_binary_name(true)
        .disable_help_flag(true)
        .disable_version_flag(true)
        .arg(trace)?
        .arg(command)?
        .arg(number)
}

/// The storm of the number that the word spells.
fn storm_of(word: &str) -> Option<Invocation>
    ensures job { result ≡ storm_of word.now }
    ensures few { AreFewIn result }
{
    let n = number(word.as_bytes(), EVENTS as u64)?;
    Some(Invocation::Storm { n: n as u32 })
}

/// The station that the word spells.
#[tactic(auto, using(crate::proofs::Hosts::positive_station))]
fn station(word: &str) -> Option<u16>
    ensures { result ≡ station_of word.now }
{
    let host = number(word.as_bytes(), 65_534)?;
    if host > 0 { Some(host as u16) } else { None }
}

/// The node of the station that the word spells.
fn node_of(word: &str) -> Option<Invocation>
    ensures job { result ≡ node_of word.now }
    ensures few { AreFewIn result }
{
    let host = station(word)?;
    Some(Invocation::Node { host })
}

/// What the values ask for, by the table.
fn job_for(command: Option<&str>, has_trace: bool, number: Option<&str>) -> Option<Invocation>
    ensures job { result ≡ job_for (option_map (λ s. s.now) command.entry) has_trace (option_map (λ s. s.now) number.entry) }
    ensures few { AreFewIn result }
{
    let asked = match (command, number) {
        (Some("replay"), None) if has_trace => TextCommand::Replay { form: Form::Trace },
        (Some("replay"), None) => TextCommand::Replay { form: Form::Report },
        (Some("check"), None) if !has_trace => TextCommand::Check,
        (Some("join"), None) if !has_trace => TextCommand::Join,
        (Some("run"), None) if !has_trace => return Some(Invocation::Run),
        (Some("storm"), Some(word)) if !has_trace => return storm_of(word),
        (Some("node"), Some(word)) if !has_trace => return node_of(word),
        _ => return None,
    };
    Some(Invocation::OfText { asked })
}

/// Whether this is the value of a flag that was given.
fn is_set(value: Option<&str>) -> bool
    ensures { result ≡ is_set (option_map (λ s. s.now) value.entry) }
{
    value == Some("true")
}

/// What is asked for by words that clap took.
fn job_by(matches: &ArgMatches<'_>) -> Option<Invocation>
    ensures job { result ≡ job_by (rows_of (found_of matches.now)) }
    ensures few { AreFewIn result }
{
    job_for(
        matches.get_str("command"),
        is_set(matches.get_str("trace")),
        matches.get_str("number"),
    )
}

/// What the words, without the program's own name, ask for; `None` where they ask for nothing that the program does.
pub(crate) fn read_words(alloc: Global, words: &[String]) -> Result<Option<Invocation>, NoMemory>
    ensures job { IfOk result (λ job. job ≡ job_of (map string_bytes words.now)) }
    ensures few { IfOk result AreFewIn }
{
    match the_command(alloc)?.try_get_matches_from(words) {
        Ok(matches) => Ok(job_by(&matches)),
        Err(error) if error.kind() == ErrorKind::OutOfMemory => Err(NoMemory),
        Err(_) => Ok(None),
    }
}
