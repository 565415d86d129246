//! What the program's words ask for, read by clap: none ask for a picture, `--page` for a page.

ghost use Rattle.std.specs.Prelude.{◌≡◌, map, option_map, string_bytes, IfOk, if◌then◌else◌};
ghost use Rattle.clap.specs.Words.{app_of, found_of, rows_of};
ghost use Rattle.vk_draw.specs.Words.{asked_by, asked_of, is_set, the_app};

use clap::error::ErrorKind;
use clap::{Arg, ArgAction, ArgMatches, Command};
use std::alloc::{AllocError, Global};
use vk_base::NoMemory;

/// What is made of a schedule.
#[derive(Clone, Copy, Debug, PartialEq, Eq)]
pub(crate) enum Drawing {
    /// Without a word: the picture of its history, as SVG.
    Picture,
    /// `--page`: the page of its history, as HTML.
    Page,
}

/// The one command that the words are read as.
fn the_command<'a>(alloc: Global) -> Result<Command<'a>, AllocError>
    ensures { IfOk result (λ command. app_of command ≡ the_app) }
{
    let page = Arg::new(alloc, "page")
        .long("page")
        .action(ArgAction::SetTrue);
    Command::new(alloc, "vkdraw")
        .no_binary_name(true)
        .disable_help_flag(true)
        .disable_version_flag(true)
        .arg(page)
}

/// Whether this is the value of a flag that was given.
fn is_set(value: Option<&str>) -> bool
    ensures { result ≡ is_set (option_map (λ s. s.now) value.entry) }
{
    value == Some("true")
}

/// What is asked for with the flag, or without it.
fn asked_for(has_page: bool) -> Drawing
    ensures { result ≡ if has_page then Drawing.Page else Drawing.Picture }
{
    if has_page {
        Drawing::Page
    } else {
        Drawing::Picture
    }
}

/// What is asked for by words that clap took.
fn asked_by(matches: &ArgMatches<'_>) -> Drawing
    ensures { result ≡ asked_by (rows_of (found_of matches.now)) }
{
    asked_for(is_set(matches.get_str("page")))
}

/// What the words, without the program's own name, ask for; `None` where they ask for nothing that the program does.
pub(crate) fn read_words(alloc: Global, words: &[String]) -> Result<Option<Drawing>, NoMemory>
    ensures { IfOk result (λ asked. asked ≡ asked_of (map string_bytes words.now)) }
{
    match the_command(alloc)?.try_get_matches_from(words) {
        Ok(matches) => Ok(Some(asked_by(&matches))),
        Err(error) if error.kind() == ErrorKind::OutOfMemory => Err(NoMemory),
        Err(_) => Ok(None),
    }
}
