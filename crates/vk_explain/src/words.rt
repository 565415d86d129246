//! The program's words, read by clap: without one it is asked what is wrong in a text, with `--answers` for the text with its answers.

ghost use Rattle.std.specs.Prelude.{◌≡◌, map, option_map, string_bytes, IfOk};
ghost use Rattle.clap.specs.Words.{app_of, found_of, rows_of};
ghost use Rattle.vk_explain.specs.Words.{asked_by, asked_for, asked_of, is_set, the_app};

use clap::error::ErrorKind;
use clap::{Arg, ArgAction, ArgMatches, Command};
use std::alloc::{AllocError, Global};
use vk_base::NoMemory;

/// What is asked of a text in which nothing is wrong.
#[derive(Clone, Copy, Debug, PartialEq, Eq)]
pub(crate) enum Asked {
    /// Without a word: how many steps and answers it has.
    Verdict,
    /// `--answers`: the text with each answer that the kernel gives.
    Answers,
}

/// What is told without a text.
#[derive(Clone, Copy, Debug, PartialEq, Eq)]
pub(crate) enum Page {
    /// `--help`: the words of the program, with examples.
    Help,
    /// `--version`: the program's name and version.
    Version,
}

/// What the words ask for.
#[derive(Clone, Copy, Debug, PartialEq, Eq)]
pub(crate) enum Invocation {
    /// The input is read, and this is asked of its text.
    Explain { asked: Asked },
    /// Nothing is read, and this page is written.
    Tell { page: Page },
}

/// The one command that the words are read as.
fn the_command<'a>(alloc: Global) -> Result<Command<'a>, AllocError>
    ensures { IfOk result (λ command. app_of command ≡ the_app) }
{
    let answers = Arg::new(alloc, "answers")
        .long("answers")
        .action(ArgAction::SetTrue);
    let help = Arg::new(alloc, "help")
        .long("help")
        .action(ArgAction::SetTrue);
    let version = Arg::new(alloc, "version")
        .long("version")
        .action(ArgAction::SetTrue);
    Command::new(alloc, "vkexplain")
        .no_binary_name(true)
        .disable_help_flag(true)
        .disable_version_flag(true)
        .arg(answers)?
        .arg(help)?
        .arg(version)
}

/// Whether this is the value of a flag that was given.
fn is_set(value: Option<&str>) -> bool
    ensures { result ≡ is_set (option_map (λ s. s.now) value.entry) }
{
    value == Some("true")
}

/// What is asked for with these flags.
fn asked_for(answers: bool, help: bool, version: bool) -> Option<Invocation>
    ensures { result ≡ asked_for answers help version }
{
    match (answers, help, version) {
        (false, false, false) => Some(Invocation::Explain {
            asked: Asked::Verdict,
        }),
        (true, false, false) => Some(Invocation::Explain {
            asked: Asked::Answers,
        }),
        (false, true, false) => Some(Invocation::Tell { page: Page::Help }),
        (false, false, true) => Some(Invocation::Tell {
            page: Page::Version,
        }),
        _ => None,
    }
}

/// What is asked for by words that clap took.
fn asked_by(matches: &ArgMatches<'_>) -> Option<Invocation>
    ensures { result ≡ asked_by (rows_of (found_of matches.now)) }
{
    asked_for(
        is_set(matches.get_str("answers")),
        is_set(matches.get_str("help")),
        is_set(matches.get_str("version")),
    )
}

/// What the words, without the program's own name, ask for; `None` where they ask for nothing that the program does.
pub(crate) fn read_words(alloc: Global, words: &[String]) -> Result<Option<Invocation>, NoMemory>
    ensures { IfOk result (λ asked. asked ≡ asked_of (map string_bytes words.now)) }
{
    match the_command(alloc)?.try_get_matches_from(words) {
        Ok(matches) => Ok(asked_by(&matches)),
        Err(error) if error.kind() == ErrorKind::OutOfMemory => Err(NoMemory),
        Err(_) => Ok(None),
    }
}
