//! Work on a text that is read piece by piece.

ghost use Rattle.std.specs.Prelude.{◌≡◌, ◌+◌, ◌≤◌, ◌<◌, ◌++◌, ℕ, List, length, IfSome, IfOk, IfErr};
ghost use Rattle.vk_base.specs.declared.limits.TheConstants.{INPUT_BYTES};
ghost use Rattle.vk_edge.specs.Pieces.{EndsLine};
ghost use Rattle.vk_top.specs.Begun.{HasBegun, HasReadAll, StaysRefused};
ghost use Rattle.vk_top.specs.Checking.{HasChecked, HasCheckedAll};
ghost use Rattle.vk_top.specs.Pieces.{HasCome, HasPlayedAll};
ghost use Rattle.vk_top.specs.Work.{IsRefusal, IsWork};
ghost use Rattle.vk_top.specs.declared.words.TextCommand.TheVariants as asked;

use crate::checking::Checking;
use crate::playing::Playing;
use crate::status::Status;
use crate::top::{TextOutput, told, work_of};
use crate::words::TextCommand;
use crate::{checking, playing};
use std::alloc::Global;
use vk_report::Form;

/// The work on a text of which a front was read.
#[derive(Drop)]
pub(crate) enum Begun {
    /// The report of a schedule, or its trace.
    Replay { playing: Playing },
    /// Whether the steps of a trace are a run.
    Check { checking: Checking },
}

/// The work on a text that begins with this piece, where it can be begun before more is read.
pub(crate) fn begin(alloc: Global, asked: TextCommand, piece: &[u8]) -> Option<Begun>
    requires { length piece.now ≤ INPUT_BYTES }
    ensures { IfSome result (λ b. EndsLine piece.now → HasBegun asked piece.now b) }
{
    match asked {
        TextCommand::Replay { form } => match playing::begin(alloc, form, piece) {
            Some(playing) => Some(Begun::Replay { playing }),
            None => None,
        },
        TextCommand::Check => match checking::begin(alloc, piece) {
            Some(checking) => Some(Begun::Check { checking }),
            None => None,
        },
        TextCommand::Join => None,
    }
}

/// The next piece of a schedule is played.
fn play_on(alloc: Global, form: Form, playing: Playing, piece: &[u8]) -> Result<Begun, Status>
    requires { (text : List ℕ) × HasCome form text playing }
    ensures more { IfOk result (λ b. (text : List ℕ) → HasCome form text playing → EndsLine piece.now →
        HasBegun (asked.Replay form) (text ++ piece.now) b) }
    ensures all { IfOk result (λ b. (text : List ℕ) → HasCome form text playing →
        HasReadAll (asked.Replay form) (text ++ piece.now) b) }
    ensures refused { IfErr result (λ s. (text : List ℕ) → HasCome form text playing →
        StaysRefused (asked.Replay form) text piece.now s) }
{
    match playing.go_on(alloc, form, piece) {
        Ok(playing) => Ok(Begun::Replay { playing }),
        Err(refusal) => Err(Status::from(refusal)),
    }
}

/// The next piece of a trace is checked.
fn check_on(alloc: Global, checking: Checking, piece: &[u8]) -> Result<Begun, Status>
    requires { (text : List ℕ) × HasChecked text checking × (length text + length piece.now ≤ INPUT_BYTES) }
    ensures more { IfOk result (λ b. (text : List ℕ) → HasChecked text checking → EndsLine piece.now →
        HasBegun asked.Check (text ++ piece.now) b) }
    ensures all { IfOk result (λ b. (text : List ℕ) → HasChecked text checking → HasReadAll asked.Check (text ++ piece.now) b) }
    ensures refused { IfErr result (λ s. (text : List ℕ) → HasChecked text checking →
        StaysRefused asked.Check text piece.now s) }
{
    match checking.go_on(alloc, piece) {
        Ok(checking) => Ok(Begun::Check { checking }),
        Err(line) => Err(Status::BadInput { line }),
    }
}

/// What is written of a schedule that was read whole.
fn played(form: Form, playing: Playing) -> Result<TextOutput, Status>
    ensures work { (text : List ℕ) → HasPlayedAll form text playing → IfOk result (IsWork (asked.Replay form) text) }
    ensures refused { (text : List ℕ) → HasPlayedAll form text playing → 0 < length text →
        IfErr result (IsRefusal (asked.Replay form) text) }
{
    match playing.finish(form) {
        Ok(written) => Ok(work_of(written)),
        Err(_) => Err(Status::NoMemory),
    }
}

/// What is written of a trace that was read whole.
fn checked(alloc: Global, checking: &Checking) -> Result<TextOutput, Status>
    ensures work { (text : List ℕ) → HasCheckedAll text checking.now → IfOk result (IsWork asked.Check text) }
    ensures refused { (text : List ℕ) → HasCheckedAll text checking.now → 0 < length text →
        IfErr result (IsRefusal asked.Check text) }
{
    match checking.finish() {
        Ok(verdict) => told(alloc, verdict),
        Err(_) => Err(Status::NoMemory),
    }
}

impl Begun {
    /// Goes on with the next piece.
    pub(crate) fn go_on(
        self,
        alloc: Global,
        asked: TextCommand,
        piece: &[u8],
    ) -> Result<Begun, Status>
        requires { (text : List ℕ) × HasBegun asked text self × (length text + length piece.now ≤ INPUT_BYTES) }
        ensures more { IfOk result (λ b. (text : List ℕ) → HasBegun asked text self → EndsLine piece.now →
            HasBegun asked (text ++ piece.now) b) }
        ensures all { IfOk result (λ b. (text : List ℕ) → HasBegun asked text self → HasReadAll asked (text ++ piece.now) b) }
        ensures refused { IfErr result (λ s. (text : List ℕ) → HasBegun asked text self → StaysRefused asked text piece.now s) }
    {
        match self {
            Begun::Replay { playing } => match asked {
                TextCommand::Replay { form } => play_on(alloc, form, playing, piece),
                TextCommand::Check => unreachable!(),
                TextCommand::Join => unreachable!(),
            },
            Begun::Check { checking } => match asked {
                TextCommand::Check => check_on(alloc, checking, piece),
                TextCommand::Replay { .. } => unreachable!(),
                TextCommand::Join => unreachable!(),
            },
        }
    }

    /// What is written of a text that was read whole.
    pub(crate) fn finish(self, alloc: Global, asked: TextCommand) -> Result<TextOutput, Status>
        requires { (text : List ℕ) × HasReadAll asked text self }
        ensures work { (text : List ℕ) → HasReadAll asked text self → IfOk result (IsWork asked text) }
        ensures refused { (text : List ℕ) → HasReadAll asked text self → 0 < length text → IfErr result (IsRefusal asked text) }
    {
        match self {
            Begun::Replay { playing } => match asked {
                TextCommand::Replay { form } => played(form, playing),
                TextCommand::Check => unreachable!(),
                TextCommand::Join => unreachable!(),
            },
            Begun::Check { checking } => match asked {
                TextCommand::Check => checked(alloc, &checking),
                TextCommand::Replay { .. } => unreachable!(),
                TextCommand::Join => unreachable!(),
            },
        }
    }
}
