//! What is wrong with a line, and how it is told.

ghost use Rattle.std.specs.Prelude.{◌≡◌, ℕ, List, ◌++◌, ◌≤◌, ◌+◌, [], length, replicate, true, false, MatchOption, IfOk, IfSome, OnOk, OnErr};
ghost use Rattle.vk_text.specs.Lines.{words_from};
ghost use Rattle.vk_forms.specs.Faults.{IsTold, could_stand, marked, told_text, whole_fault, word_fault};
ghost use Rattle.vk_forms.specs.Follow.{follows, unread};
ghost use Rattle.vk_forms.specs.Forms.{forms_of};

use crate::follow::{Mark, is_whole, mark_of};
use crate::table::{
    TextKind, body_rows, call_front, call_rows, extra_front, extra_rows, opening_rows,
};
use crate::told::{Told, put_rows};
use std::alloc::Global;
use vk_base::{Config, NoMemory};
use vk_text::{put, put_byte};

/// Where the first word starts at which no line of the text goes on, in a configuration as it is read so far; one behind the line's end
/// and a space, where the line ends too early. `None` where the line follows a form of the text whole: what is wrong then is what the
/// line asks of others, or its place.
pub fn fault_of(text: TextKind, config: &Config, line: &[u8]) -> Option<usize>
    ensures mark { MatchOption result (follows config.now.specs (words_from line.now 0) (forms_of text) ≡ true)
        (λ at. (follows config.now.specs (words_from line.now 0) (forms_of text) ≡ false)
        × (words_from line.now at ≡ unread config.now.specs (forms_of text) (words_from line.now 0))) }
    ensures within { IfSome result (λ at. at ≤ length line.now + 1) }
{
    if is_whole(text, config, line) {
        return None;
    }
    Some(mark_of(text, config, line).at)
}

/// Appends so many spaces.
fn put_spaces(into: &mut Vec<u8>, count: usize) -> Result<(), NoMemory>
    ensures { OnOk result (into.new.items ≡ into.old.items ++ replicate count 32) }
{
    let mut done = 0;
    'spaces: while done < count {
        put_byte(into, b' ')?;
        done += 1;
    }
    Ok(())
}

/// Appends the line, and a mark under the byte of this place.
fn put_marked(into: &mut Vec<u8>, line: &[u8], at: usize) -> Result<(), NoMemory>
    ensures { OnOk result (into.new.items ≡ into.old.items ++ marked line.now at) }
{
    put(into, line)?;
    put(into, b"\n")?;
    put_spaces(into, at)?;
    put(into, b"^\n")
}

/// Appends what could stand where no form goes on, behind so many words.
fn put_told(
    alloc: Global,
    into: &mut Vec<u8>,
    text: TextKind,
    config: &Config,
    line: &[u8],
    words: usize,
) -> Result<(), NoMemory>
    requires { words + length (unread config.now.specs (forms_of text) (words_from line.now 0)) ≡ length (words_from line.now 0) }
    ensures { OnOk result (into.new.items ≡ into.old.items
        ++ told_text config.now.specs false [] (could_stand config.now.specs text (words_from line.now 0))) }
{
    let none = Told {
        some: false,
        last: b"",
    };
    let rows = opening_rows(text);
    let opened = put_rows(alloc, into, config, b"", rows, line, words, none)?;
    let front = call_front(text);
    let calls = call_rows();
    let called = put_rows(alloc, into, config, front, calls, line, words, opened)?;
    let extra = extra_front(text);
    let extras = extra_rows(text);
    let more = put_rows(alloc, into, config, extra, extras, line, words, called)?;
    let body = body_rows(text);
    let _last = put_rows(alloc, into, config, b"", body, line, words, more)?;
    Ok(())
}

/// Appends the line, a mark where no form goes on, and what could stand there.
fn write_fault(
    alloc: Global,
    into: &mut Vec<u8>,
    text: TextKind,
    config: &Config,
    line: &[u8],
    mark: Mark,
) -> Result<(), NoMemory>
    requires { mark.words + length (unread config.now.specs (forms_of text) (words_from line.now 0)) ≡ length (words_from line.now 0) }
    ensures { OnOk result (into.new.items ≡ into.old.items ++ word_fault config.now.specs text line.now mark.at) }
{
    put_marked(into, line, mark.at)?;
    put(into, b"here could stand: ")?;
    put_told(alloc, into, text, config, line, mark.words)?;
    put(into, b"\n")
}

/// Appends the line and that it follows a form whole.
fn write_whole(into: &mut Vec<u8>, line: &[u8]) -> Result<(), NoMemory>
    ensures { OnOk result (into.new.items ≡ into.old.items ++ whole_fault line.now) }
{
    put(into, line)?;
    put(into, b"\n")?;
    put(
        into,
        b"each word is right, but such a line may not stand here\n",
    )
}

/// What is told of the line.
fn fault_text(
    alloc: Global,
    text: TextKind,
    config: &Config,
    line: &[u8],
) -> Result<Vec<u8>, NoMemory>
    ensures { IfOk result (λ told. IsTold config.now.specs text line.now told.items) }
{
    let mut told = Vec::new(alloc);
    if is_whole(text, config, line) {
        write_whole(&mut told, line)?;
        return Ok(told);
    }
    let mark = mark_of(text, config, line);
    write_fault(alloc, &mut told, text, config, line, mark)?;
    Ok(told)
}

/// Appends the line, and below it a mark under the first word at which no line of the text goes on, and what could stand there; or
/// that each word is right. The configuration is as it is read so far. A refusal changes nothing.
pub fn put_fault(
    alloc: Global,
    into: &mut Vec<u8>,
    text: TextKind,
    config: &Config,
    line: &[u8],
) -> Result<(), NoMemory>
    ensures ok { OnOk result ((told : List ℕ) × IsTold config.now.specs text line.now told × (into.new.items ≡ into.old.items ++ told)) }
    ensures err { OnErr result (into.new.items ≡ into.old.items) }
{
    let told = fault_text(alloc, text, config, line)?;
    put(into, told.as_slice())?;
    Ok(())
}
