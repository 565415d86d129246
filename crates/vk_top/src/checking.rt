//! The steps of a trace whose text is read piece by piece, checked against the one-machine kernel.

ghost use Rattle.std.specs.Prelude.{ℕ, ◌≡◌, ◌+◌, ◌≤◌, ◌<◌, ◌^◌, ◌∷◌, ◌++◌, List, [], drop, length, Some, IfSome, IfOk, IfErr};
ghost use Rattle.vk_base.specs.declared.limits.TheConstants.{INPUT_BYTES};
ghost use Rattle.vk_types.specs.Types.{ProcessSpec, Step};
ghost use Rattle.vk_top.specs.Check.{IsVerdictOf, without_steps};
ghost use Rattle.vk_top.specs.Checking.{AreFound, HasChecked, HasCheckedAll, IsBadBehind, IsCheckedBehind, IsFoundFirst};

use crate::check::{Found, TraceVerdict, apply_steps, read_on};
use std::alloc::Global;
use v_machine::LeanMachine;
use v_trace::StepReader;
use vk_base::{Config, NoMemory};
use vk_text::read_head;

/// How far the checking of a trace has come, of whose text only a front was read.
#[derive(Drop)]
pub(crate) struct Checking {
    config: Config,
    /// Where all steps were allowed, it is behind them.
    machine: LeanMachine,
    found: Found,
}

/// Applies the steps that are left in the reader, where all before them were allowed.
fn apply_left(
    alloc: Global,
    machine: &mut LeanMachine,
    reader: &mut StepReader<'_>,
    before: Found,
) -> Found
    requires { before.read + length reader.old.steps < 2 ^ 63 }
    ensures found { (specs : List ProcessSpec) (ss : List Step) → AreFound specs ss machine.old before →
        IfOk result.verdict (IsFoundFirst specs (ss ++ reader.old.steps) machine.new) }
    ensures count { result.read + length reader.new.steps ≡ before.read + length reader.old.steps }
    ensures ending { without_steps reader.new ≡ without_steps reader.old }
{
    match before.verdict {
        Ok(TraceVerdict::Run { .. }) => apply_steps(alloc, machine, reader, before.read),
        Ok(TraceVerdict::Refused { .. }) => before,
        Ok(TraceVerdict::TooMuch) => before,
        Err(NoMemory) => before,
    }
}

/// Checks the steps that are left in the reader, and reads on behind the one that decides. The first line that is bad ends it.
fn check_left(
    alloc: Global,
    machine: LeanMachine,
    reader: StepReader<'_>,
    before: Found,
) -> Result<Checking, u64>
    requires { before.read + length reader.steps < 2 ^ 63 }
    ensures checked { IfOk result (IsCheckedBehind reader.entry machine before) }
    ensures bad { IfErr result (λ line. reader.entry.bad ≡ Some line) }
{
    let mut machine = machine;
    let mut reader = reader;
    let found = apply_left(alloc, &mut machine, &mut reader, before);
    let read = read_on(&mut reader, found.read);
    if let Some(line) = reader.bad_line() {
        return Err(line);
    }
    Ok(Checking {
        config: reader.into_config(),
        machine,
        found: Found {
            read,
            verdict: found.verdict,
        },
    })
}

/// What stands from this place on.
fn behind(piece: &[u8], at: usize) -> &[u8]
    requires { at ≤ length piece.now }
    ensures { result.now ≡ drop at piece.now }
{
    &piece[at..]
}

/// Checks the first piece of a text, where its head ends in it before another line, and no line of it is bad. Where there is none,
/// nothing is said of the text; so too where memory is wanting for processes.
pub(crate) fn begin(alloc: Global, piece: &[u8]) -> Option<Checking>
    requires { length piece.now ≤ INPUT_BYTES }
    ensures { IfSome result (λ s. (front : List ℕ) → piece.now ≡ front ++ 10 ∷ [] → HasChecked piece.now s) }
{
    let Ok(head) = read_head(alloc, piece, b"vkernel trace 1") else {
        return None;
    };
    if piece.len() <= head.at {
        return None;
    }
    let Ok(machine) = LeanMachine::new(alloc, &head.config) else {
        return None;
    };
    let reader = StepReader::resume(head.config, 0, behind(piece, head.at));
    let none = Found {
        read: 0,
        verdict: Ok(TraceVerdict::Run { steps: 0 }),
    };
    check_left(alloc, machine, reader, none).ok()
}

impl Checking {
    /// Checks the next piece, behind a text that was checked before. The first line that is bad ends it.
    pub(crate) fn go_on(self, alloc: Global, piece: &[u8]) -> Result<Checking, u64>
        requires { self.found.read + length piece.now ≤ INPUT_BYTES }
        ensures more { IfOk result (λ s. (text front : List ℕ) → HasChecked text self → piece.now ≡ front ++ 10 ∷ [] →
            HasChecked (text ++ piece.now) s) }
        ensures all { IfOk result (λ s. (text : List ℕ) → HasChecked text self → HasCheckedAll (text ++ piece.now) s) }
        ensures bad { IfErr result (λ line. (text : List ℕ) → HasChecked text self → IsBadBehind text piece.now line) }
    {
        let Checking {
            config,
            machine,
            found,
        } = self;
        let reader = StepReader::resume(config, found.read as usize, piece);
        check_left(alloc, machine, reader, found)
    }

    /// The verdict, where all steps were read.
    pub(crate) fn finish(&self) -> Result<TraceVerdict, NoMemory>
        ensures { (text : List ℕ) → HasCheckedAll text self.now → IfOk result (IsVerdictOf text) }
    {
        self.found.verdict
    }
}
