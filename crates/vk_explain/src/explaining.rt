//! A text that is read to its end, or to the first line in which something is wrong.

ghost use Rattle.std.specs.Prelude.{◌≡◌, ◌≤◌, ◌⊎◌, length, drop, None, Some, IfOk, IfErr, codes};
ghost use Rattle.vk_text.specs.Heads.{head_of};
ghost use Rattle.vk_text.specs.Lines.{lines_of};
ghost use Rattle.vk_explain.specs.Explained.{IsObserved, IsOver, IsRight, IsTitled, IsWrong};
ghost use Rattle.vk_explain.specs.Reading.{Stops};
ghost use Rattle.vk_explain.specs.Told.{bad_line_text};

use crate::fault::Stop;
use crate::reading::{Reading, behind};
use crate::told::bad_line_text;
use crate::words::Asked;
use std::alloc::Global;
use vk_base::NoMemory;
use vk_text::{Head, HeadRefusal, next_line, read_head};

/// What a text begins with, and whether it tells answers.
#[derive(Drop)]
struct Titled {
    head: Head,
    tells: bool,
}

/// What the text begins with, if its first line is one of the two titles.
fn read_title(alloc: Global, text: &[u8]) -> Result<Titled, HeadRefusal>
    ensures titled { IfOk result (λ t. IsTitled (lines_of text.now) t.tells t.head.config.specs (lines_of (drop t.head.at text.now))) }
    ensures within { IfOk result (λ t. t.head.at ≤ length text.now) }
    ensures refused { IfErr result (λ e. (e ≡ HeadRefusal.NoMemory) ⊎ ((head_of (codes "vkernel trace 1") (lines_of text.now) ≡ None)
        × (head_of (codes "vkernel observed 1") (lines_of text.now) ≡ None))) }
{
    match read_head(alloc, text, b"vkernel trace 1") {
        Ok(head) => Ok(Titled { head, tells: false }),
        Err(HeadRefusal::NoMemory) => Err(HeadRefusal::NoMemory),
        Err(HeadRefusal::NoTitle) => match read_head(alloc, text, b"vkernel observed 1") {
            Ok(head) => Ok(Titled { head, tells: true }),
            Err(refusal) => Err(refusal),
        },
    }
}

/// The first line; empty where there is none.
fn first_line(text: &[u8]) -> &[u8] {
    match next_line(text, 0) {
        Some((line, _)) => line,
        None => &[],
    }
}

/// The first line is no title.
fn untitled(alloc: Global, line: &[u8]) -> Stop
    ensures { Stops (λ told. told ≡ bad_line_text 1 line.now) ⊥ result }
{
    match bad_line_text(alloc, 1, line) {
        Ok(text) => Stop::Wrong { text },
        Err(NoMemory) => Stop::NoMemory,
    }
}

/// Reads the text to its end, or to the first line in which something is wrong.
pub(crate) fn explain(alloc: Global, asked: Asked, text: &[u8]) -> Result<Reading, Stop>
    ensures right { IfOk result (λ r. IsRight text.now r.steps r.answers) }
    ensures observed { IfOk result (λ r. IsObserved asked text.now r.observed.items) }
    ensures wrong { IfErr result (Stops (IsWrong text.now) (IsOver text.now)) }
{
    let Titled { head, tells } = match read_title(alloc, text) {
        Ok(titled) => titled,
        Err(HeadRefusal::NoMemory) => return Err(Stop::NoMemory),
        Err(HeadRefusal::NoTitle) => return Err(untitled(alloc, first_line(text))),
    };
    let mut reading = match Reading::new(alloc, head.config, tells, asked) {
        Ok(reading) => reading,
        Err(NoMemory) => return Err(Stop::NoMemory),
    };
    match reading.take_lines(alloc, behind(text, head.at)) {
        Ok(()) => Ok(reading),
        Err(stop) => Err(stop),
    }
}
