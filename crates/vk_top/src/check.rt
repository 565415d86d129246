//! The steps of a trace, checked against the one-machine kernel.

ghost use Rattle.std.specs.Prelude.{◌≡◌, ◌+◌, ◌≤◌, ◌<◌, ◌^◌, ◌++◌, ◌⊎◌, codes, decimal, length, Err, IfOk, IfErr, OnOk};
ghost use Rattle.vk_base.specs.Kernel.{Kernel};
ghost use Rattle.v_machine.specs.Follows.{Follows, StandsFor};
ghost use Rattle.v_trace.specs.Traces.{trace_of};
ghost use Rattle.vk_top.specs.Check.{IsVerdictOf, without_steps, verdict_of};
ghost use Rattle.vk_top.specs.Checking.{IsFound};
ghost use Rattle.vk_top.specs.Work.{KeepsLines};
ghost use Rattle.vk_top.specs.declared.words.TextCommand.TheVariants as asked;

use std::alloc::Global;
use v_machine::{ApplyRefusal, LeanMachine};
use v_trace::{StepBuffer, StepReader, TraceRefusal};
use vk_base::{NoMemory, Observation, Pid};
use vk_text::{put, put_number};

/// Any pid.
const FIRST: Pid = Pid { host: 1, local: 1 };

/// What becomes of the steps of a trace.
#[derive(Clone, Copy, Debug, PartialEq, Eq)]
pub(crate) enum TraceVerdict {
    /// They are a run, of so many.
    Run { steps: u64 },
    /// This one, counted from 1, is the first that is not allowed.
    Refused { step: u64 },
    /// They would note more than 268,435,456 bytes for remote moves, before any that is not allowed.
    TooMuch,
}

/// What was found of steps that were read.
#[derive(Clone, Copy)]
pub(crate) struct Found {
    /// How many were read.
    pub read: u64,
    /// What is said of them: a run of so many, where all were allowed.
    pub verdict: Result<TraceVerdict, NoMemory>,
}

/// Applies the step that is in this room. It is put into its caller, so that what a process sees of it, which holds the bytes of a Load,
/// is not moved.
#[inline(always)]
fn apply(
    machine: &mut LeanMachine,
    alloc: Global,
    step: &StepBuffer,
) -> Result<Option<Observation>, ApplyRefusal>
    ensures { Follows step.now machine.old machine.new result }
{
    machine.advance(alloc, &step.view())
}

/// Applies the steps that are left in the reader behind so many that were read before, in turn, up to the first that decides. All checks
/// have this one loop, since a reader's next step costs a call each where more loops ask for it.
#[inline(never)]
pub(crate) fn apply_steps(
    alloc: Global,
    machine: &mut LeanMachine,
    reader: &mut StepReader<'_>,
    before: u64,
) -> Found
    requires { before + length reader.old.steps < 2 ^ 63 }
    ensures found { (k : Kernel) → StandsFor machine.old k →
        IfOk result.verdict (IsFound k before machine.old.noted reader.old.steps machine.new) }
    ensures count { result.read + length reader.new.steps ≡ before + length reader.old.steps }
    ensures ending { without_steps reader.new ≡ without_steps reader.old }
{
    let mut read = before;
    let mut step = StepBuffer::new(FIRST);
    while reader.next(&mut step) {
        read += 1;
        match apply(machine, alloc, &step) {
            Ok(_) => {}
            Err(ApplyRefusal::NotAllowed) => {
                return Found {
                    read,
                    verdict: Ok(TraceVerdict::Refused { step: read }),
                };
            }
            Err(ApplyRefusal::Limit) => {
                return Found {
                    read,
                    verdict: Ok(TraceVerdict::TooMuch),
                };
            }
            Err(ApplyRefusal::NoMemory) => {
                return Found {
                    read,
                    verdict: Err(NoMemory),
                };
            }
        }
    }
    Found {
        read,
        verdict: Ok(TraceVerdict::Run { steps: read }),
    }
}

/// The verdict on the trace that is left in the reader.
fn verdict_on(alloc: Global, reader: &mut StepReader<'_>) -> Result<TraceVerdict, NoMemory>
    requires { length reader.old.steps < 2 ^ 63 }
    ensures verdict { IfOk result (λ v. v ≡ verdict_of (record { config = reader.old.config; steps = reader.old.steps })) }
    ensures few { length reader.new.steps ≤ length reader.old.steps }
    ensures ending { without_steps reader.new ≡ without_steps reader.old }
{
    let mut machine = LeanMachine::new(alloc, reader.config())?;
    apply_steps(alloc, &mut machine, reader, 0).verdict
}

/// Reads all that is left behind so many steps, and tells how many were read.
#[inline(never)]
pub(crate) fn read_on(reader: &mut StepReader<'_>, before: u64) -> u64
    requires { before + length reader.old.steps < 2 ^ 63 }
    ensures count { result ≡ before + length reader.old.steps }
    ensures ending { reader.new ≡ without_steps reader.old }
{
    let mut read = before;
    let mut step = StepBuffer::new(FIRST);
    while reader.next(&mut step) {
        read += 1;
    }
    read
}

/// The verdict on the trace that the text spells, in one pass. The first line that is bad decides, also where a step or memory ends the
/// checking before it.
pub(crate) fn verdict_of(alloc: Global, text: &[u8]) -> Result<TraceVerdict, TraceRefusal>
    ensures verdict { IfOk result (IsVerdictOf text.now) }
    ensures refused { IfErr result (λ e. ((e ≡ TraceRefusal.NoMemory) × KeepsLines asked.Check text.now) ⊎ (trace_of text.now ≡ Err e)) }
{
    let mut reader = StepReader::new(alloc, text)?;
    let verdict = verdict_on(alloc, &mut reader);
    let _read = read_on(&mut reader, 0);
    if let Some(line) = reader.bad_line() {
        return Err(TraceRefusal::BadInput { line });
    }
    match verdict {
        Ok(verdict) => Ok(verdict),
        Err(NoMemory) => Err(TraceRefusal::NoMemory),
    }
}

/// A word, a number and the end of the line.
pub(crate) fn put_line(
    alloc: Global,
    text: &mut Vec<u8>,
    word: &[u8],
    number: u64,
) -> Result<(), NoMemory>
    ensures { OnOk result (text.new.items ≡ text.old.items ++ word.now ++ decimal number ++ codes "\n") }
{
    put(text, word)?;
    put_number(alloc, text, number)?;
    put(text, b"\n")
}
