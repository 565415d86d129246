//! The lines of a text, one after another: each step is applied, and each answer that is told is compared.

ghost use Rattle.std.specs.Prelude.{◌≡◌, ◌≤◌, ◌+◌, ◌∷◌, ◌++◌, ℕ, List, [], if◌then◌else◌, length, drop, Some, None, option_map, IfOk, IfErr, OnOk, bytes_eq};
ghost use Rattle.vk_types.specs.Types.{ProcessSpec};
ghost use Rattle.vk_base.specs.Kernel.{Kernel};
ghost use Rattle.vk_base.specs.Steps.{effect};
ghost use Rattle.vk_text.specs.Lines.{lines_of, words_from};
ghost use Rattle.v_machine.specs.Follows.{StandsFor};
ghost use Rattle.v_machine.specs.Spent.{lean_kernel};
ghost use Rattle.v_machine.specs.Tables.{kernel_of};
ghost use Rattle.v_trace.specs.Remaining.{acting};
ghost use Rattle.v_trace.specs.Steps.{step_of};
ghost use Rattle.v_trace.specs.Texts.{answer_text};
ghost use Rattle.v_obstacle.specs.Obstacles.{obstacle};
ghost use Rattle.v_obstacle.specs.Sights.{Sight, may_see, told_in, with_line};
ghost use Rattle.vk_explain.specs.Observed.{asked_lines};
ghost use Rattle.vk_explain.specs.Reading.{AreRead, Goes, HasRead, IsFault, IsOverIn, IsWrongIn, Stops, last_of};
ghost use Rattle.vk_explain.specs.Told.{fault_text};

use crate::fault::{Fault, Stop};
use crate::observing::{begun, put_seen};
use crate::told::fault_text;
use crate::words::Asked;
use std::alloc::Global;
use std::mem;
use v_machine::{ApplyRefusal, LeanMachine};
use v_obstacle::Obstacle;
use v_trace::{StepBuffer, StepReader, put_answer};
use vk_base::{Config, NoMemory, Observation, Pid};
use vk_brief::BriefStep;
use vk_text::{empty_config, leads, next_line};
use vk_why::why;

/// Any pid.
const FIRST: Pid = Pid { host: 1, local: 1 };

/// What may be told of the last step.
#[derive(Drop)]
enum Last {
    /// Nothing, or it is told.
    Over,
    /// What its process sees, if it sees anything yet.
    Seen { seen: Option<Observation> },
}

/// How far the reading of a text has come, all of whose lines were right.
#[derive(Drop)]
pub(crate) struct Reading {
    config: Config,
    /// Whether the text tells answers.
    tells: bool,
    /// It is behind the steps that were read.
    machine: LeanMachine,
    steps: u64,
    answers: u64,
    /// The number of the next line.
    line: u64,
    last: Last,
    asked: Asked,
    /// The steps with their answers, where they are asked for.
    observed: Vec<u8>,
}

/// The step of the first line of this text, where it is one that these processes may have.
fn read_step(alloc: Global, config: &mut Config, text: &[u8], step: &mut StepBuffer) -> bool
    ensures same { config.new ≡ config.old }
    ensures step { (l : List ℕ) (ls : List (List ℕ)) → lines_of text.now ≡ l ∷ ls →
        acting config.old.specs (step_of (words_from l 0)) ≡ (if result then Some step.new else None) }
{
    let own = mem::replace(config, empty_config(alloc));
    let mut reader = StepReader::resume(own, 0, text);
    let is_step = reader.next(step);
    *config = reader.into_config();
    is_step
}

/// Whether a process may see an answer at the step.
fn may_see(step: &StepBuffer) -> bool
    ensures { result ≡ may_see step.now }
{
    let (brief, _) = step.parts();
    match brief {
        BriefStep::Call { .. } | BriefStep::Collect { .. } => true,
        BriefStep::Arrive { .. }
        | BriefStep::Take { .. }
        | BriefStep::Finish { .. }
        | BriefStep::Fail { .. }
        | BriefStep::OpenMove { .. }
        | BriefStep::Copy { .. }
        | BriefStep::End { .. }
        | BriefStep::Hear { .. }
        | BriefStep::Found { .. }
        | BriefStep::Lost { .. } => false,
    }
}

/// Whether this is the spelling of what was seen.
fn is_spelled(alloc: Global, told: &[u8], seen: &Observation) -> Result<bool, NoMemory>
    ensures { IfOk result (λ is. is ≡ bytes_eq (answer_text seen.now.answer) told.now) }
{
    let mut text = Vec::new(alloc);
    put_answer(alloc, &mut text, &seen.answer)?;
    Ok(text.as_slice() == told)
}

/// What stands behind `saw `.
fn behind_saw(line: &[u8]) -> &[u8]
    requires { 4 ≤ length line.now }
    ensures { result.now ≡ drop 4 line.now }
{
    &line[4..]
}

/// The answer that the line tells, where the text tells answers.
fn told_in(tells: bool, line: &[u8]) -> Option<&[u8]>
    ensures { told_in tells line.now ≡ option_map (λ s. s.now) result }
{
    if tells && line.len() >= 4 && leads(line, b"saw ") {
        Some(behind_saw(line))
    } else {
        None
    }
}

/// The lines of a step, at which this is seen, where they are asked for.
fn put_asked(
    alloc: Global,
    asked: Asked,
    into: &mut Vec<u8>,
    step: &StepBuffer,
    seen: &Option<Observation>,
) -> Result<(), Fault>
    ensures text { OnOk result (into.new.items ≡ into.old.items ++ asked_lines asked step.now seen.now) }
    ensures err { IfErr result (λ f. f ≡ Fault.NoMemory) }
{
    match asked {
        Asked::Verdict => Ok(()),
        Asked::Answers => match put_seen(alloc, into, &step.view(), seen) {
            Ok(()) => Ok(()),
            Err(NoMemory) => Err(Fault::NoMemory),
        },
    }
}

impl Reading {
    /// Nothing of the text was read but its head.
    pub(crate) fn new(
        alloc: Global,
        config: Config,
        tells: bool,
        asked: Asked,
    ) -> Result<Reading, NoMemory>
        ensures read { IfOk result (HasRead config.specs []) }
        ensures tells { IfOk result (λ r. r.tells ≡ tells) }
        ensures asked { IfOk result (λ r. r.asked ≡ asked) }
        ensures line { IfOk result (λ r. r.line ≡ length config.specs + 2) }
    {
        let machine = LeanMachine::new(alloc, &config)?;
        let observed = begun(alloc, asked, &config)?;
        let line = config.specs().len() as u64 + 2;
        Ok(Reading {
            config,
            tells,
            machine,
            steps: 0,
            answers: 0,
            line,
            last: Last::Over,
            asked,
            observed,
        })
    }

    /// How many steps were read.
    pub(crate) fn steps(&self) -> u64
        ensures { result ≡ self.now.steps }
    {
        self.steps
    }

    /// How many answers were told.
    pub(crate) fn answers(&self) -> u64
        ensures { result ≡ self.now.answers }
    {
        self.answers
    }

    /// The steps with their answers, where they are asked for.
    pub(crate) fn into_observed(self) -> Vec<u8>
        ensures { result ≡ self.observed }
    {
        self.observed
    }

    /// The answer that a line tells of the last step.
    fn take_answer(&mut self, alloc: Global, told: &[u8]) -> Result<(), Fault>
        ensures more { OnOk result ((specs : List ProcessSpec) (ws : List Sight) (line : List ℕ) → HasRead specs ws self.old →
            told_in self.old.tells line ≡ Some told.now → Goes self.old.tells specs ws line self.new) }
        ensures wrong { IfErr result (λ f. (specs : List ProcessSpec) (ws : List Sight) (line : List ℕ) → HasRead specs ws self.old →
            told_in self.old.tells line ≡ Some told.now → IsFault self.old.tells specs ws self.old.line line f) }
        ensures tells { self.new.tells ≡ self.old.tells }
        ensures asked { self.new.asked ≡ self.old.asked }
    {
        let Some(answers) = self.answers.checked_add(1) else {
            return Err(Fault::Limit);
        };
        match mem::replace(&mut self.last, Last::Over) {
            Last::Over => Err(Fault::BadLine { line: self.line }),
            Last::Seen { seen: None } => Err(Fault::OtherAnswer {
                step: self.steps,
                given: None,
            }),
            Last::Seen { seen: Some(seen) } => match is_spelled(alloc, told, &seen) {
                Ok(true) => {
                    self.answers = answers;
                    Ok(())
                }
                Ok(false) => Err(Fault::OtherAnswer {
                    step: self.steps,
                    given: Some(seen),
                }),
                Err(NoMemory) => Err(Fault::NoMemory),
            },
        }
    }

    /// The step of the first line of this text.
    fn take_step(&mut self, alloc: Global, text: &[u8]) -> Result<(), Fault>
        ensures more { OnOk result ((specs : List ProcessSpec) (ws : List Sight) (line : List ℕ) (ls : List (List ℕ)) →
            HasRead specs ws self.old → lines_of text.now ≡ line ∷ ls → told_in self.old.tells line ≡ None →
            Goes self.old.tells specs ws line self.new) }
        ensures wrong { IfErr result (λ f. (specs : List ProcessSpec) (ws : List Sight) (line : List ℕ) (ls : List (List ℕ)) →
            HasRead specs ws self.old → lines_of text.now ≡ line ∷ ls → told_in self.old.tells line ≡ None →
            IsFault self.old.tells specs ws self.old.line line f) }
        ensures tells { self.new.tells ≡ self.old.tells }
        ensures asked { self.new.asked ≡ self.old.asked }
    {
        let Some(steps) = self.steps.checked_add(1) else {
            return Err(Fault::Limit);
        };
        let mut step = StepBuffer::new(FIRST);
        if !read_step(alloc, &mut self.config, text, &mut step) {
            return Err(Fault::BadLine { line: self.line });
        }
        match self.machine.advance(alloc, &step.view()) {
            Ok(seen) => {
                put_asked(alloc, self.asked, &mut self.observed, &step, &seen)?;
                self.steps = steps;
                self.last = last_of(&step, seen);
                Ok(())
            }
            Err(ApplyRefusal::NotAllowed) => Err(Fault::Refused {
                step: steps,
                why: why_refused(&self.machine, &step),
            }),
            Err(ApplyRefusal::Limit) => Err(Fault::Limit),
            Err(ApplyRefusal::NoMemory) => Err(Fault::NoMemory),
        }
    }

    /// The first line of this text, which is this one, where it is a step or an answer.
    fn take_told(&mut self, alloc: Global, line: &[u8], text: &[u8]) -> Result<(), Fault>
        ensures more { OnOk result ((specs : List ProcessSpec) (ws : List Sight) (ls : List (List ℕ)) →
            HasRead specs ws self.old → lines_of text.now ≡ line.now ∷ ls → Goes self.old.tells specs ws line.now self.new) }
        ensures wrong { IfErr result (λ f. (specs : List ProcessSpec) (ws : List Sight) (ls : List (List ℕ)) →
            HasRead specs ws self.old → lines_of text.now ≡ line.now ∷ ls →
            IsFault self.old.tells specs ws self.old.line line.now f) }
        ensures tells { self.new.tells ≡ self.old.tells }
        ensures asked { self.new.asked ≡ self.old.asked }
    {
        match told_in(self.tells, line) {
            Some(told) => self.take_answer(alloc, told),
            None => self.take_step(alloc, text),
        }
    }

    /// The first line of this text, which is this one.
    fn take_line(&mut self, alloc: Global, line: &[u8], text: &[u8]) -> Result<(), Fault>
        ensures more { OnOk result ((specs : List ProcessSpec) (ws : List Sight) (ls : List (List ℕ)) →
            HasRead specs ws self.old → lines_of text.now ≡ line.now ∷ ls → Goes self.old.tells specs ws line.now self.new) }
        ensures wrong { IfErr result (λ f. (specs : List ProcessSpec) (ws : List Sight) (ls : List (List ℕ)) →
            HasRead specs ws self.old → lines_of text.now ≡ line.now ∷ ls →
            IsFault self.old.tells specs ws self.old.line line.now f) }
        ensures tells { self.new.tells ≡ self.old.tells }
        ensures asked { self.new.asked ≡ self.old.asked }
        ensures line { OnOk result (self.new.line ≡ self.old.line + 1) }
    {
        let Some(next) = self.line.checked_add(1) else {
            return Err(Fault::Limit);
        };
        let taken = self.take_told(alloc, line, text);
        self.line = next;
        taken
    }

    /// All lines of this text, up to the first that is wrong.
    pub(crate) fn take_lines(&mut self, alloc: Global, text: &[u8]) -> Result<(), Stop>
        ensures more { OnOk result ((specs : List ProcessSpec) (ws : List Sight) → HasRead specs ws self.old →
            AreRead specs ws (lines_of text.now) self.old self.new) }
        ensures wrong { IfErr result (λ s. (specs : List ProcessSpec) (ws : List Sight) → HasRead specs ws self.old →
            Stops (IsWrongIn self.old.tells specs ws self.old.line (lines_of text.now))
            (IsOverIn self.old.tells specs ws self.old.line (lines_of text.now)) s) }
    {
        let mut at = 0;
        while let Some((line, next)) = next_line(text, at) {
            match self.take_line(alloc, line, behind(text, at)) {
                Ok(()) => at = next,
                Err(fault) => return Err(stop(alloc, &fault, line)),
            }
        }
        Ok(())
    }
}

/// Why the machine refuses the step.
fn why_refused(machine: &LeanMachine, step: &StepBuffer) -> Obstacle
    requires { effect (kernel_of machine.now) step.now ≡ None }
    ensures { (k : Kernel) → StandsFor machine.now k → obstacle (lean_kernel k) step.now ≡ Some result }
{
    why(machine, &step.view())
}

/// What may be told of this step, at which this is seen.
fn last_of(step: &StepBuffer, seen: Option<Observation>) -> Last
    ensures { result ≡ last_of step.now seen }
{
    if may_see(step) {
        Last::Seen { seen }
    } else {
        Last::Over
    }
}

/// What stands from this place on.
pub(crate) fn behind(text: &[u8], at: usize) -> &[u8]
    requires { at ≤ length text.now }
    ensures { result.now ≡ drop at text.now }
{
    &text[at..]
}

/// What is told of what is wrong in this line.
fn stop(alloc: Global, fault: &Fault, line: &[u8]) -> Stop
    ensures { Stops (λ text. fault_text fault.now line.now ≡ Some text) (fault.now ≡ Fault.Limit) result }
{
    match fault_text(alloc, fault, line) {
        Ok(Some(text)) => Stop::Wrong { text },
        Ok(None) => Stop::Limit,
        Err(NoMemory) => Stop::NoMemory,
    }
}
