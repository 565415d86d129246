//! The steps of a trace's text, one after another.

ghost use Rattle.std.specs.Prelude.{◌≡◌, ◌+◌, ◌^◌, ◌≤◌, ◌⊎◌, true, [], length, Some, None, Err, IfOk, IfErr, IfSome, if◌then◌else◌};
ghost use Rattle.v_trace.specs.Remaining.{IsNextStep, steps_left, whole};
ghost use Rattle.v_trace.specs.Traces.{KeepsLines, has_actor, trace_of};
ghost use Rattle.vk_text.specs.Lines.{lines_of};

use crate::buffer::StepBuffer;
use crate::reading::read_step;
use crate::trace::TraceRefusal;
use std::alloc::Global;
use std::marker::Model;
use vk_base::Config;
use vk_text::{HeadRefusal, next_line, read_head};

/// What is left to be read of a trace's text: the steps that are still to come, which [`StepReader::next`] gives one by one, and
/// the bad line behind them, where one is. It keeps none of the steps.
#[derive(Drop)]
pub struct StepReader<'a> {
    config: Config,
    text: &'a [u8],
    /// Where the next line starts.
    at: usize,
    /// How many steps were given, those before this text counted.
    given: usize,
}

impl<'a> Model for StepReader<'a> {
    ghost use Rattle.std.specs.Prelude.{drop, length, ◌+◌, ◌^◌, ◌≤◌};
    ghost use Rattle.vk_text.specs.Lines.{lines_of};
    ghost use Rattle.v_trace.specs.Remaining.{Remaining, steps_left};

    ghost Value = { Remaining };

    ghost view = { λ r. steps_left r.config r.given (lines_of (drop r.at r.text.now)) };

    ghost invariant = { λ r. (r.given ≤ 2 ^ 32 + r.at) × (r.at ≤ length r.text.now) };
}

impl<'a> StepReader<'a> {
    /// All of the text is left to be read, but its head. A text without the title is bad in line 1; another bad line is told at the
    /// end of the reading, and is the one behind all steps. Memory is wanted only for processes.
    pub fn new(alloc: Global, text: &'a [u8]) -> Result<Self, TraceRefusal>
        ensures trace { IfOk result (λ r. trace_of text.now ≡ whole r) }
        ensures bad { IfOk result (λ r. IfSome r.bad (λ line. line ≡ length r.config.specs + length r.steps + 2)) }
        ensures few { IfOk result (λ r. length r.steps ≤ length text.now) }
        ensures refused { IfErr result (λ e. ((e ≡ TraceRefusal.NoMemory) × KeepsLines text.now) ⊎ (trace_of text.now ≡ Err e)) }
    {
        match read_head(alloc, text, b"vkernel trace 1") {
            Ok(head) => Ok(StepReader {
                config: head.config,
                text,
                at: head.at,
                given: 0,
            }),
            Err(HeadRefusal::NoTitle) => Err(TraceRefusal::BadInput { line: 1 }),
            Err(HeadRefusal::NoMemory) => Err(TraceRefusal::NoMemory),
        }
    }

    /// The steps of a text whose head and first steps, so many, were read before it.
    pub fn resume(config: Config, given: usize, text: &'a [u8]) -> Self
        requires { given ≤ 2 ^ 32 }
        ensures { result ≡ steps_left config given (lines_of text.now) }
    {
        StepReader {
            config,
            text,
            at: 0,
            given,
        }
    }

    /// The processes of the text.
    pub fn config(&self) -> &Config
        ensures { result.now ≡ self.now.config }
    {
        &self.config
    }

    /// Writes the next step over this one, and tells whether there is one. Where there is none, any may be left in its place.
    pub fn next(&mut self, step: &mut StepBuffer) -> bool
        ensures next { IsNextStep self.old self.new (if result then Some step.new else None) }
        ensures lawful { result ≡ true → has_actor self.old.config.specs step.new ≡ true }
    {
        let Some((line, next)) = next_line(self.text, self.at) else {
            return false;
        };
        let Some(()) = read_step(&self.config, line, step) else {
            return false;
        };
        self.at = next;
        self.given += 1;
        true
    }

    /// The bad line, where the reading ended at one.
    pub fn bad_line(&self) -> Option<u64>
        requires { self.now.steps ≡ [] }
        ensures { result ≡ self.now.bad }
    {
        let Some(_) = next_line(self.text, self.at) else {
            return None;
        };
        Some(self.config.specs().len() as u64 + self.given as u64 + 2)
    }

    /// The processes of the text.
    pub fn into_config(self) -> Config
        ensures { result ≡ self.entry.config }
    {
        self.config
    }
}
