//! The text of a step.

ghost use Rattle.std.specs.Prelude.{◌≡◌, ◌+◌, ◌≤◌, [], ◌∷◌, ◌++◌, false, length, codes, decimal, OnOk, OnErr};
ghost use Rattle.vk_brief.specs.Brief.{step_with};
ghost use Rattle.vk_text.specs.Spelling.{StartsWith, spaced, pid_text, call_words};
ghost use Rattle.vk_text.specs.declared.draft.TheConstants.{DRAFT_ROOM as ROOM};
ghost use Rattle.v_trace.specs.Texts.{ending_text, is_call, step_text};

use std::alloc::Global;
use vk_base::{Ending, NoMemory, Pid};
use vk_brief::{BriefStep, CallView, StepView};
use vk_text::{Draft, draft_count, draft_number, draft_pid, go_on_with_call, put};

/// A range of a move's bytes.
#[derive(Clone, Copy)]
struct Range {
    offset: u32,
    count: u32,
}

/// Writes how a process ended.
fn draft_why(into: &mut Draft, why: Ending)
    requires { length into.old + 10 ≤ ROOM }
    ensures text { into.new ≡ into.old ++ 32 ∷ ending_text why }
    ensures few { length into.new ≤ length into.old + 10 }
{
    match why {
        Ending::Ok => into.put(b" ok"),
        Ending::NoProcess => into.put(b" noprocess"),
        Ending::TimedOut => into.put(b" timedout"),
        Ending::Gone => into.put(b" gone"),
    }
}

/// Writes `WORD PID`. It is put into its callers, each of which gives a word of known length.
#[inline(always)]
fn draft_of(into: &mut Draft, word: &[u8], pid: Pid)
    requires word { length word.now ≤ 7 }
    requires room { length into.old + 38 ≤ ROOM }
    ensures text { into.new ≡ into.old ++ spaced word.now (pid_text pid ∷ []) }
    ensures few { length into.new ≤ length into.old + 19 }
{
    into.put(word);
    draft_pid(into, pid);
}

/// Writes `WORD PID NUMBER`.
#[inline(always)]
fn draft_numbered(into: &mut Draft, word: &[u8], pid: Pid, number: u64)
    requires word { length word.now ≤ 6 }
    requires room { length into.old + 40 ≤ ROOM }
    ensures text { into.new ≡ into.old ++ spaced word.now (pid_text pid ∷ decimal number ∷ []) }
    ensures few { length into.new ≤ length into.old + 40 }
{
    draft_of(into, word, pid);
    draft_number(into, number);
}

/// Writes `WORD PID ENDING`.
fn draft_ending(into: &mut Draft, word: &[u8], pid: Pid, why: Ending)
    requires word { length word.now ≤ 4 }
    requires room { length into.old + 38 ≤ ROOM }
    ensures text { into.new ≡ into.old ++ spaced word.now (pid_text pid ∷ ending_text why ∷ []) }
    ensures few { length into.new ≤ length into.old + 29 }
{
    draft_of(into, word, pid);
    draft_why(into, why);
}

/// Writes `WORD SENDER NUMBER MOVE`.
#[inline(always)]
fn draft_move(into: &mut Draft, word: &[u8], sender: Pid, number: u64, moving: u64)
    requires word { length word.now ≤ 4 }
    requires room { length into.old + 61 ≤ ROOM }
    ensures text { into.new ≡ into.old ++ spaced word.now (pid_text sender ∷ decimal number ∷ decimal moving ∷ []) }
    ensures few { length into.new ≤ length into.old + 61 }
{
    draft_numbered(into, word, sender, number);
    draft_number(into, moving);
}

/// Writes `copy SENDER NUMBER MOVE OFFSET COUNT`.
fn draft_copy(into: &mut Draft, sender: Pid, number: u64, moving: u64, range: Range)
    requires { length into.old + 93 ≤ ROOM }
    ensures text { into.new ≡ into.old ++ spaced (codes "copy")
        (pid_text sender ∷ decimal number ∷ decimal moving ∷ decimal range.offset ∷ decimal range.count ∷ []) }
    ensures few { length into.new ≤ length into.old + 83 }
{
    draft_move(into, b"copy", sender, number, moving);
    draft_count(into, range.offset);
    draft_count(into, range.count);
}

/// Writes `hear ASKER NUMBER PID`.
fn draft_heard(into: &mut Draft, asker: Pid, number: u64, pid: Pid)
    requires { length into.old + 71 ≤ ROOM }
    ensures text { into.new ≡ into.old ++ spaced (codes "hear") (pid_text asker ∷ decimal number ∷ pid_text pid ∷ []) }
    ensures few { length into.new ≤ length into.old + 52 }
{
    draft_numbered(into, b"hear", asker, number);
    draft_pid(into, pid);
}

/// Writes `found ASKER PID`.
fn draft_found(into: &mut Draft, asker: Pid, pid: Pid)
    requires { length into.old + 50 ≤ ROOM }
    ensures text { into.new ≡ into.old ++ spaced (codes "found") (pid_text asker ∷ pid_text pid ∷ []) }
    ensures few { length into.new ≤ length into.old + 31 }
{
    draft_of(into, b"found", asker);
    draft_pid(into, pid);
}

/// Writes the step, which is no call.
#[inline(always)]
#[tactic(auto, unfolding(crate::specs::Texts::step_text, crate::specs::Texts::step_words))]
fn draft_step(into: &mut Draft, step: &BriefStep)
    requires plain { is_call step.now ≡ false }
    requires room { length into.old + 152 ≤ ROOM }
    ensures text { into.new ≡ into.old ++ step_text (step_with [] step.now) }
    ensures few { length into.new ≤ length into.old + 142 }
{
    match *step {
        BriefStep::Call { .. } => unreachable!(),
        BriefStep::Arrive { sender, number } => draft_numbered(into, b"arrive", sender, number),
        BriefStep::Take { pid } => draft_of(into, b"take", pid),
        BriefStep::Finish { pid } => draft_of(into, b"finish", pid),
        BriefStep::Fail { pid, why } => draft_ending(into, b"fail", pid, why),
        BriefStep::OpenMove {
            sender,
            number,
            moving,
        } => draft_move(into, b"open", sender, number, moving),
        BriefStep::Copy {
            sender,
            number,
            moving,
            offset,
            count,
        } => draft_copy(into, sender, number, moving, Range { offset, count }),
        BriefStep::End { pid, why } => draft_ending(into, b"end", pid, why),
        BriefStep::Hear { asker, number, pid } => draft_heard(into, asker, number, pid),
        BriefStep::Found { asker, pid } => draft_found(into, asker, pid),
        BriefStep::Lost { asker } => draft_of(into, b"lost", asker),
        BriefStep::Collect { pid } => draft_of(into, b"collect", pid),
    }
}

/// Writes `call PID CALL`.
fn write_made(
    alloc: Global,
    into: &mut Vec<u8>,
    draft: &mut Draft,
    pid: Pid,
    call: &CallView,
) -> Result<(), NoMemory>
    requires { length draft.old + 152 ≤ ROOM }
    ensures ok { OnOk result (into.new.items ++ draft.new
        ≡ (into.old.items ++ draft.old) ++ spaced (codes "call") (pid_text pid ∷ call_words call.now)) }
    ensures few { OnOk result (length draft.new ≤ length draft.old + 142) }
    ensures front { StartsWith into.old.items into.new.items }
    ensures whole { StartsWith (into.old.items ++ draft.old) (into.new.items ++ draft.new) }
{
    draft_of(draft, b"call", pid);
    draft.byte(b' ');
    go_on_with_call(alloc, into, draft, call)
}

/// Writes the step behind the draft. Where it is the call of a Store, the draft is appended and the bytes behind it; at a refusal a
/// part of these may stand.
pub fn go_on_with_step(
    alloc: Global,
    into: &mut Vec<u8>,
    draft: &mut Draft,
    step: &StepView,
) -> Result<(), NoMemory>
    requires { length draft.old + 152 ≤ ROOM }
    ensures ok { OnOk result (into.new.items ++ draft.new ≡ (into.old.items ++ draft.old) ++ step_text step.now) }
    ensures few { OnOk result (length draft.new ≤ length draft.old + 142) }
    ensures front { StartsWith into.old.items into.new.items }
    ensures whole { StartsWith (into.old.items ++ draft.old) (into.new.items ++ draft.new) }
{
    let (brief, bytes) = step.parts();
    if let BriefStep::Call { pid, ref call } = *brief {
        return write_made(alloc, into, draft, pid, &CallView::new(call, bytes));
    }
    draft_step(draft, brief);
    Ok(())
}

/// Appends the step; a refusal may leave a part of it.
fn write_step(alloc: Global, into: &mut Vec<u8>, step: &StepView) -> Result<(), NoMemory>
    ensures ok { OnOk result (into.new.items ≡ into.old.items ++ step_text step.now) }
    ensures front { OnErr result (StartsWith into.old.items into.new.items) }
{
    let mut draft = Draft::new();
    go_on_with_step(alloc, into, &mut draft, step)?;
    put(into, draft.as_slice())
}

/// Appends the text of the step. A refusal changes nothing.
pub fn put_step(alloc: Global, into: &mut Vec<u8>, step: &StepView) -> Result<(), NoMemory>
    ensures ok { OnOk result (into.new.items ≡ into.old.items ++ step_text step.now) }
    ensures err { OnErr result (into.new.items ≡ into.old.items) }
{
    let len = into.len();
    let written = write_step(alloc, into, step);
    if written.is_err() {
        into.truncate(len);
    }
    written
}
