//! The line of a step. Each of these reads the words from `at` on, and writes their step over the one that it is given. `None`
//! is a bad line.

ghost use Rattle.std.specs.Prelude.{◌≡◌, option_map};
ghost use Rattle.vk_base.specs.declared.step.Step.TheVariants as steps;
ghost use Rattle.vk_text.specs.Lines.{words_from};
ghost use Rattle.v_trace.specs.Steps.{pid_step_of, call_step_of, arrive_of, fail_of, open_of, copy_of, end_of, hear_of, found_of, step_of};
ghost use Rattle.v_trace.specs.Remaining.{acting};
ghost use Rattle.v_trace.specs.Traces.{has_actor};

use crate::buffer::StepBuffer;
use crate::word::{last_count, last_ending, last_failure, last_ordinal, last_pid, next_ordinal};
use vk_base::Config;
use vk_brief::BriefStep;
use vk_text::{leads, next_count, next_pid, take_call};

/// `PID CALLTEXT`
#[tactic(auto, unfolding(crate::specs::Steps::call_step_of))]
#[inline(always)]
fn read_call_step(line: &[u8], at: usize, into: &mut StepBuffer) -> Option<()>
    ensures { option_map (λ _. into.new) result ≡ call_step_of (words_from line.now at) }
{
    let (pid, at) = next_pid(line, at)?;
    take_call(line, at, &mut into.call)?;
    let view = into.call.view();
    let (call, _) = view.parts();
    into.step = BriefStep::Call { pid, call: *call };
    Some(())
}

/// `SENDER NUMBER`
#[tactic(auto, unfolding(crate::specs::Steps::arrive_of))]
#[inline(always)]
fn read_arrive(line: &[u8], at: usize, into: &mut StepBuffer) -> Option<()>
    ensures { option_map (λ _. into.new) result ≡ arrive_of (words_from line.now at) }
{
    let (sender, at) = next_pid(line, at)?;
    let number = last_ordinal(line, at)?;
    into.step = BriefStep::Arrive { sender, number };
    Some(())
}

#[tactic(auto, unfolding(crate::specs::Steps::pid_step_of))]
#[inline(always)]
fn read_take(line: &[u8], at: usize, into: &mut StepBuffer) -> Option<()>
    ensures { option_map (λ _. into.new) result ≡ pid_step_of steps.Take (words_from line.now at) }
{
    let pid = last_pid(line, at)?;
    into.step = BriefStep::Take { pid };
    Some(())
}

#[tactic(auto, unfolding(crate::specs::Steps::pid_step_of))]
#[inline(always)]
fn read_finish(line: &[u8], at: usize, into: &mut StepBuffer) -> Option<()>
    ensures { option_map (λ _. into.new) result ≡ pid_step_of steps.Finish (words_from line.now at) }
{
    let pid = last_pid(line, at)?;
    into.step = BriefStep::Finish { pid };
    Some(())
}

/// `PID FAILURE`
#[tactic(auto, unfolding(crate::specs::Steps::fail_of))]
fn read_fail(line: &[u8], at: usize, into: &mut StepBuffer) -> Option<()>
    ensures { option_map (λ _. into.new) result ≡ fail_of (words_from line.now at) }
{
    let (pid, at) = next_pid(line, at)?;
    let why = last_failure(line, at)?;
    into.step = BriefStep::Fail { pid, why };
    Some(())
}

/// `SENDER NUMBER MOVE`
#[tactic(auto, unfolding(crate::specs::Steps::open_of))]
#[inline(always)]
fn read_open(line: &[u8], at: usize, into: &mut StepBuffer) -> Option<()>
    ensures { option_map (λ _. into.new) result ≡ open_of (words_from line.now at) }
{
    let (sender, at) = next_pid(line, at)?;
    let (number, at) = next_ordinal(line, at)?;
    let moving = last_ordinal(line, at)?;
    into.step = BriefStep::OpenMove {
        sender,
        number,
        moving,
    };
    Some(())
}

/// `SENDER NUMBER MOVE OFFSET COUNT`
#[tactic(auto, unfolding(crate::specs::Steps::copy_of))]
#[inline(always)]
fn read_copy(line: &[u8], at: usize, into: &mut StepBuffer) -> Option<()>
    ensures { option_map (λ _. into.new) result ≡ copy_of (words_from line.now at) }
{
    let (sender, at) = next_pid(line, at)?;
    let (number, at) = next_ordinal(line, at)?;
    let (moving, at) = next_ordinal(line, at)?;
    let (offset, at) = next_count(line, at)?;
    let count = last_count(line, at)?;
    into.step = BriefStep::Copy {
        sender,
        number,
        moving,
        offset,
        count,
    };
    Some(())
}

/// `PID ENDING`
#[tactic(auto, unfolding(crate::specs::Steps::end_of))]
#[inline(always)]
fn read_end(line: &[u8], at: usize, into: &mut StepBuffer) -> Option<()>
    ensures { option_map (λ _. into.new) result ≡ end_of (words_from line.now at) }
{
    let (pid, at) = next_pid(line, at)?;
    let why = last_ending(line, at)?;
    into.step = BriefStep::End { pid, why };
    Some(())
}

/// `ASKER LOOKUP PID`
#[tactic(auto, unfolding(crate::specs::Steps::hear_of))]
fn read_hear(line: &[u8], at: usize, into: &mut StepBuffer) -> Option<()>
    ensures { option_map (λ _. into.new) result ≡ hear_of (words_from line.now at) }
{
    let (asker, at) = next_pid(line, at)?;
    let (number, at) = next_ordinal(line, at)?;
    let pid = last_pid(line, at)?;
    into.step = BriefStep::Hear { asker, number, pid };
    Some(())
}

/// `ASKER PID`
#[tactic(auto, unfolding(crate::specs::Steps::found_of))]
fn read_found(line: &[u8], at: usize, into: &mut StepBuffer) -> Option<()>
    ensures { option_map (λ _. into.new) result ≡ found_of (words_from line.now at) }
{
    let (asker, at) = next_pid(line, at)?;
    let pid = last_pid(line, at)?;
    into.step = BriefStep::Found { asker, pid };
    Some(())
}

#[tactic(auto, unfolding(crate::specs::Steps::pid_step_of))]
fn read_lost(line: &[u8], at: usize, into: &mut StepBuffer) -> Option<()>
    ensures { option_map (λ _. into.new) result ≡ pid_step_of steps.Lost (words_from line.now at) }
{
    let asker = last_pid(line, at)?;
    into.step = BriefStep::Lost { asker };
    Some(())
}

#[tactic(auto, unfolding(crate::specs::Steps::pid_step_of))]
#[inline(always)]
fn read_collect(line: &[u8], at: usize, into: &mut StepBuffer) -> Option<()>
    ensures { option_map (λ _. into.new) result ≡ pid_step_of steps.Collect (words_from line.now at) }
{
    let pid = last_pid(line, at)?;
    into.step = BriefStep::Collect { pid };
    Some(())
}

/// The step that the line spells.
fn read_words(line: &[u8], into: &mut StepBuffer) -> Option<()>
    ensures { option_map (λ _. into.new) result ≡ step_of (words_from line.now 0) }
{
    if leads(line, b"call ") {
        read_call_step(line, 5, into)
    } else if leads(line, b"collect ") {
        read_collect(line, 8, into)
    } else if leads(line, b"take ") {
        read_take(line, 5, into)
    } else if leads(line, b"finish ") {
        read_finish(line, 7, into)
    } else if leads(line, b"copy ") {
        read_copy(line, 5, into)
    } else if leads(line, b"open ") {
        read_open(line, 5, into)
    } else if leads(line, b"end ") {
        read_end(line, 4, into)
    } else if leads(line, b"arrive ") {
        read_arrive(line, 7, into)
    } else if leads(line, b"fail ") {
        read_fail(line, 5, into)
    } else if leads(line, b"hear ") {
        read_hear(line, 5, into)
    } else if leads(line, b"found ") {
        read_found(line, 6, into)
    } else if leads(line, b"lost ") {
        read_lost(line, 5, into)
    } else {
        None
    }
}

/// Whether the process that calls or collects is in the configuration.
fn has_actor(config: &Config, step: &StepBuffer) -> bool
    ensures { result ≡ has_actor config.now.specs step.now }
{
    match step.step {
        BriefStep::Call { pid, .. } | BriefStep::Collect { pid } => config.has_process(pid),
        _ => true,
    }
}

/// The step that the line spells, where a trace of the configuration may have it.
pub fn read_step(config: &Config, line: &[u8], into: &mut StepBuffer) -> Option<()>
    ensures { option_map (λ _. into.new) result ≡ acting config.now.specs (step_of (words_from line.now 0)) }
{
    read_words(line, into)?;
    if has_actor(config, into) {
        Some(())
    } else {
        None
    }
}
