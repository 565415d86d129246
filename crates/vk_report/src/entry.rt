//! What is written before the first entry, of each, and behind the last. Each call appends, and a refusal changes nothing.

ghost use Rattle.std.specs.Prelude.{◌≡◌, ◌+◌, ◌≤◌, ◌++◌, [], codes, drop, length, IfSome, OnOk, OnErr};
ghost use Rattle.vk_text.specs.Spelling.{StartsWith};
ghost use Rattle.vk_text.specs.Texts.{shown};
ghost use Rattle.vk_text.specs.declared.draft.TheConstants.{DRAFT_ROOM as ROOM};
ghost use Rattle.vk_report.specs.Views.{IsShort, viewed};
ghost use Rattle.vk_report.specs.Report.{BeginsAs, step_line, step_lines, report_entry, entry_lines, missing_lines, frame_lines, end_line, end_lines, opening_lines};

use crate::answer::{AnswerView, draft_missing_line, write_answer_line};
use crate::frame::{Emitted, draft_frame_line};
use std::alloc::Global;
use v_trace::go_on_with_step;
use vk_base::{Config, NoMemory};
use vk_brief::{StepView, Steps};
use vk_text::{Draft, LINE_ROOM, Text, draft_number, give, put, put_head};

/// What is written of a history.
#[derive(Clone, Copy, Debug, PartialEq, Eq)]
pub enum Form {
    /// Each event's answer, its steps and its frames.
    Report,
    /// The processes and the steps.
    Trace,
}

/// Where an event stands. Both numbers count from 1.
#[derive(Clone, Copy, Debug, PartialEq, Eq)]
pub struct EventPlace {
    /// The event's number in the history.
    pub number: u64,
    /// The station whose event it is.
    pub host: u16,
    /// The event's number at its station.
    pub own: u64,
}

/// The steps of an event. Where a line is given, the first step, if there is one, is spelled so, and is copied from there.
#[derive(Clone, Copy)]
pub struct ToldSteps<'a> {
    pub steps: &'a Steps,
    pub line: Option<&'a [u8]>,
}

/// How much a history has of each.
#[derive(Clone, Copy, Debug, PartialEq, Eq)]
pub struct Counts {
    pub events: u64,
    pub steps: u64,
    pub frames: u64,
}

/// The step behind this word.
#[inline(always)]
fn write_step_line(
    alloc: Global,
    text: &mut Text,
    word: &[u8],
    step: &StepView,
) -> Result<(), NoMemory>
    requires { length word.now ≤ 5 }
    ensures ok { OnOk result (shown text.new ≡ shown text.old ++ step_line word.now step.now) }
    ensures front { StartsWith text.old.bytes.items text.new.bytes.items }
    ensures whole { StartsWith (shown text.old) (shown text.new) }
{
    text.make_room()?;
    text.draft.put(word);
    go_on_with_step(alloc, &mut text.bytes, &mut text.draft, step)?;
    text.draft.byte(b'\n');
    Ok(())
}

/// The steps from this one on, counted from 0, each on a line of its own behind this word.
#[inline(always)]
fn write_steps(
    alloc: Global,
    text: &mut Text,
    word: &[u8],
    steps: &Steps,
    first: usize,
) -> Result<(), NoMemory>
    requires { length word.now ≤ 5 }
    ensures ok { OnOk result (shown text.new ≡ shown text.old ++ step_lines word.now (drop first steps.now)) }
    ensures front { StartsWith text.old.bytes.items text.new.bytes.items }
    ensures whole { StartsWith (shown text.old) (shown text.new) }
{
    for at in first..steps.len() {
        write_step_line(alloc, text, word, &steps.get(at))?;
    }
    Ok(())
}

/// The bytes behind the draft: in it where they are few, and behind it in the text where they are more than there is room for.
#[inline(always)]
fn copy(text: &mut Text, bytes: &[u8]) -> Result<(), NoMemory>
    requires { length text.old.draft + 195 ≤ ROOM }
    ensures ok { OnOk result (shown text.new ≡ shown text.old ++ bytes.now) }
    ensures few { OnOk result (length text.new.draft ≤ length text.old.draft + 190) }
    ensures front { StartsWith text.old.bytes.items text.new.bytes.items }
    ensures whole { StartsWith (shown text.old) (shown text.new) }
{
    if bytes.len() > LINE_ROOM - 10 {
        give(&mut text.bytes, &mut text.draft)?;
        return put(&mut text.bytes, bytes);
    }
    text.draft.copy(bytes);
    Ok(())
}

/// The line behind this word.
#[inline(always)]
fn write_copy(text: &mut Text, word: &[u8], line: &[u8]) -> Result<(), NoMemory>
    requires { length word.now ≤ 5 }
    ensures ok { OnOk result (shown text.new ≡ shown text.old ++ (word.now ++ line.now ++ codes "\n")) }
    ensures front { StartsWith text.old.bytes.items text.new.bytes.items }
    ensures whole { StartsWith (shown text.old) (shown text.new) }
{
    text.make_room()?;
    text.draft.put(word);
    copy(text, line)?;
    text.draft.byte(b'\n');
    Ok(())
}

/// The steps behind this word, the first of them as the line is spelled that is given.
#[inline(always)]
fn write_told(alloc: Global, text: &mut Text, word: &[u8], told: ToldSteps) -> Result<(), NoMemory>
    requires word { length word.now ≤ 5 }
    requires first { IfSome told.line (λ line. BeginsAs line.now told.steps.now) }
    ensures ok { OnOk result (shown text.new ≡ shown text.old ++ step_lines word.now told.entry.steps.now) }
    ensures front { StartsWith text.old.bytes.items text.new.bytes.items }
    ensures whole { StartsWith (shown text.old) (shown text.new) }
{
    match told.line {
        Some(line) if told.steps.len() > 0 => {
            write_copy(text, word, line)?;
            write_steps(alloc, text, word, told.steps, 1)
        }
        _ => write_steps(alloc, text, word, told.steps, 0),
    }
}

#[inline(always)]
fn write_report_entry(
    alloc: Global,
    text: &mut Text,
    place: EventPlace,
    answer: &AnswerView,
    told: ToldSteps,
) -> Result<(), NoMemory>
    requires short { IsShort answer.now }
    requires first { IfSome told.line (λ line. BeginsAs line.now told.steps.now) }
    ensures ok { OnOk result (shown text.new ≡ shown text.old ++ report_entry place (viewed answer.now) told.entry.steps.now) }
    ensures front { StartsWith text.old.bytes.items text.new.bytes.items }
    ensures whole { StartsWith (shown text.old) (shown text.new) }
{
    write_answer_line(alloc, text, place, answer)?;
    write_told(alloc, text, b"step ", told)
}

/// Appends the entry of an event: in a report the line of its answer and those of its steps, in a trace its steps.
pub fn put_entry(
    alloc: Global,
    text: &mut Text,
    form: Form,
    place: EventPlace,
    answer: &AnswerView,
    steps: &Steps,
) -> Result<(), NoMemory>
    requires { IsShort answer.now }
    ensures ok { OnOk result (shown text.new ≡ shown text.old ++ entry_lines form place (viewed answer.now) steps.now) }
    ensures err { OnErr result (shown text.new ≡ shown text.old) }
{
    put_told_entry(
        alloc,
        text,
        form,
        place,
        answer,
        ToldSteps { steps, line: None },
    )
}

/// The same, where the first step may be copied from a line that is spelled so.
pub fn put_told_entry(
    alloc: Global,
    text: &mut Text,
    form: Form,
    place: EventPlace,
    answer: &AnswerView,
    told: ToldSteps,
) -> Result<(), NoMemory>
    requires short { IsShort answer.now }
    requires first { IfSome told.line (λ line. BeginsAs line.now told.steps.now) }
    ensures ok { OnOk result (shown text.new ≡ shown text.old ++ entry_lines form place (viewed answer.now) told.entry.steps.now) }
    ensures err { OnErr result (shown text.new ≡ shown text.old) }
{
    let end = text.end();
    let written = match form {
        Form::Report => write_report_entry(alloc, text, place, answer, told),
        Form::Trace => write_told(alloc, text, b"", told),
    };
    if written.is_err() {
        text.cut_back(end);
    }
    written
}

/// Appends the entry of a delivery whose frame was never emitted: a line of a report, nothing of a trace. It is no event of
/// the station `host`, to which the frame should have come.
pub fn put_missing(text: &mut Text, form: Form, number: u64, host: u16) -> Result<(), NoMemory>
    ensures ok { OnOk result (shown text.new ≡ shown text.old ++ missing_lines form number host) }
    ensures err { OnErr result (shown text.new ≡ shown text.old) }
{
    match form {
        Form::Report => {
            text.make_room()?;
            draft_missing_line(&mut text.draft, number, host);
            Ok(())
        }
        Form::Trace => Ok(()),
    }
}

/// Appends the frame that is the output `output`, from 1, of the event `own` of the station `host`: a line of a report,
/// nothing of a trace. The frames of an event stand behind its entry, in order of their outputs.
pub fn put_frame(
    text: &mut Text,
    form: Form,
    host: u16,
    own: u64,
    output: u16,
    frame: Emitted,
) -> Result<(), NoMemory>
    ensures ok { OnOk result (shown text.new ≡ shown text.old ++ frame_lines form host own output frame) }
    ensures err { OnErr result (shown text.new ≡ shown text.old) }
{
    match form {
        Form::Report => {
            text.make_room()?;
            draft_frame_line(&mut text.draft, host, own, output, frame);
            Ok(())
        }
        Form::Trace => Ok(()),
    }
}

/// `end EVENTS STEPS FRAMES`
fn draft_end_line(into: &mut Draft, counts: Counts)
    requires { length into.old + 70 ≤ ROOM }
    ensures text { into.new ≡ into.old ++ end_line counts }
    ensures few { length into.new ≤ length into.old + 70 }
{
    into.put(b"end");
    draft_number(into, counts.events);
    draft_number(into, counts.steps);
    draft_number(into, counts.frames);
    into.byte(b'\n');
}

/// Appends what stands behind the last entry: the last line of a report, nothing of a trace.
pub fn put_end(text: &mut Text, form: Form, counts: Counts) -> Result<(), NoMemory>
    ensures ok { OnOk result (shown text.new ≡ shown text.old ++ end_lines form counts) }
    ensures err { OnErr result (shown text.new ≡ shown text.old) }
{
    match form {
        Form::Report => {
            text.make_room()?;
            draft_end_line(&mut text.draft, counts);
            Ok(())
        }
        Form::Trace => Ok(()),
    }
}

/// Appends what stands before the first entry: the title of a report, the title and the processes of a trace.
pub fn put_opening(
    alloc: Global,
    text: &mut Vec<u8>,
    form: Form,
    config: &Config,
) -> Result<(), NoMemory>
    ensures ok { OnOk result (text.new.items ≡ text.old.items ++ opening_lines form config.now.specs) }
    ensures err { OnErr result (text.new.items ≡ text.old.items) }
{
    match form {
        Form::Report => put(text, b"vkernel report 1\n"),
        Form::Trace => put_head(alloc, text, b"vkernel trace 1", config),
    }
}
