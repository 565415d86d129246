ghost use Rattle.std.specs.Prelude.{◌≡◌, ◌≢◌, ◌≤◌, ◌⊎◌, ℕ, false, length, true, List, Option, Some, None, Ok, Err, map, take, string_bytes, IfSome, IfOk, IfErr, OnOk, if◌then◌else◌};
ghost use Rattle.std.specs.Io.KnownBytes.{Appends};
ghost use Rattle.vk_base.specs.declared.limits.TheConstants.{EVENTS, INPUT_BYTES};
ghost use Rattle.vk_edge.specs.Answers.{CountsFaults, IsWritten, TellsFaults};
ghost use Rattle.vk_edge.specs.Pieces.{EndsLine};
ghost use Rattle.vk_top.specs.Begun.{HasBegun, IsFirstPiece, IsInputRefused, IsRefusedAt, IsWorkOfInput};
ghost use Rattle.vk_report.specs.declared.entry.Form.{Form as TheForm};
ghost use Rattle.vk_top.specs.Check.{verdict_text};
ghost use Rattle.vk_top.specs.Jobs.{IsAloneAnswer, IsStormAnswered};
ghost use Rattle.vk_top.specs.Playing.{IsWrittenOf};
ghost use Rattle.vk_top.specs.Top.{IsEarly, IsToldWhole, verdict_status};
ghost use Rattle.vk_top.specs.Work.{IsLate, IsOutcome, IsRefusal, IsWork};
ghost use Rattle.vk_top.specs.Words.{is_threaded, job_of};
ghost use Rattle.vk_top.specs.declared.words.TextCommand.{TextCommand as TheAsked};
ghost use Rattle.vk_top.specs.declared.words.TextCommand.TheVariants as asked;

use crate::begun::{Begun, begin};
use crate::check::{TraceVerdict, put_line, verdict_of};
use crate::join::joined_text;
use crate::playing::output;
use crate::replay::Written;
use crate::status::Status;
use crate::storm::summary_of;
use crate::words::{Invocation, TextCommand, read_words};
use std::alloc::Global;
use vk_base::NoMemory;
use vk_drive::StormRefusal;
use vk_edge::{TextPieces, write_text};
use vk_io::{Sink, Source};
use vk_report::Form;

/// What a text asks to be written, and the answer then.
#[derive(Drop)]
pub(crate) struct TextOutput {
    pub text: Vec<u8>,
    pub status: Status,
}

/// The answer where what was asked for was ended by a limit, or not.
pub(crate) fn ended(limited: bool) -> Status
    ensures { result ≡ if limited then Status.Limit else Status.Done }
{
    if limited { Status::Limit } else { Status::Done }
}

/// The work on a schedule of which this is written.
pub(crate) fn work_of(written: Written) -> TextOutput
    ensures { (form : TheForm) (text : List ℕ) → IsWrittenOf form text written → IsWork (asked.Replay form) text result }
{
    let Written { text, is_cut } = written;
    TextOutput {
        text,
        status: ended(is_cut),
    }
}

/// `replay`: the report or the trace of a schedule.
fn replay(alloc: Global, form: Form, text: &[u8]) -> Result<TextOutput, Status>
    ensures work { IfOk result (IsWork (asked.Replay form) text.now) }
    ensures refused { IfErr result (IsRefusal (asked.Replay form) text.now) }
{
    let written = output(alloc, form, text)?;
    Ok(work_of(written))
}

/// What is told of a trace, by its verdict.
pub(crate) fn told(alloc: Global, verdict: TraceVerdict) -> Result<TextOutput, Status>
    ensures work { IfOk result (λ w. (w.text.items ≡ verdict_text verdict) × (w.status ≡ verdict_status verdict) × IsToldWhole w.status) }
    ensures refused { IfErr result (λ s. (¬ (verdict ≡ TraceVerdict.TooMuch) × (s ≡ Status.NoMemory))
        ⊎ ((verdict ≡ TraceVerdict.TooMuch) × (s ≡ Status.Limit))) }
{
    let (word, number, status) = match verdict {
        TraceVerdict::Run { steps } => (b"yes ".as_slice(), steps, Status::Done),
        TraceVerdict::Refused { step } => (b"no ".as_slice(), step, Status::NotARun { step }),
        TraceVerdict::TooMuch => return Err(Status::Limit),
    };
    let mut text = Vec::new(alloc);
    put_line(alloc, &mut text, word, number)?;
    Ok(TextOutput { text, status })
}

/// `check`: whether the steps of a trace are a run.
fn check(alloc: Global, text: &[u8]) -> Result<TextOutput, Status>
    ensures work { IfOk result (IsWork asked.Check text.now) }
    ensures refused { IfErr result (IsRefusal asked.Check text.now) }
{
    let verdict = verdict_of(alloc, text)?;
    told(alloc, verdict)
}

/// `join`: the schedule that texts of stations say.
fn join(alloc: Global, text: &[u8]) -> Result<TextOutput, Status>
    ensures work { IfOk result (IsWork asked.Join text.now) }
    ensures refused { IfErr result (IsRefusal asked.Join text.now) }
{
    let schedule = joined_text(alloc, text)?;
    Ok(TextOutput {
        text: schedule,
        status: Status::Done,
    })
}

/// What is asked for of a text.
fn work_on(alloc: Global, asked: TextCommand, text: &[u8]) -> Result<TextOutput, Status>
    ensures work { IfOk result (IsWork asked text.now) }
    ensures refused { IfErr result (IsRefusal asked text.now) }
{
    match asked {
        TextCommand::Replay { form } => replay(alloc, form, text),
        TextCommand::Check => check(alloc, text),
        TextCommand::Join => join(alloc, text),
    }
}

/// Writes the whole text and flushes. The answer is that of the work, unless one of these fails.
pub(crate) fn write_work<K: Sink>(output: &mut K, work: &TextOutput) -> Status
    requires { IsLate work.now.status }
    ensures written { IsWritten work.now.status Status.WriteFault work.now.text.items (K.written output.old) (K.written output.new) result }
    ensures front { (n : ℕ) × Appends (K.written output.old) (K.written output.new) (take n work.now.text.items) }
    ensures flushed { result ≢ Status.WriteFault → K.flushed output.new }
    ensures count { CountsFaults Status.WriteFault result (K.fault_count output.old) (K.fault_count output.new) }
    ensures never_falls { K.fault_count output.old ≤ K.fault_count output.new }
{
    write_text(output, &work.text, work.status, Status::WriteFault)
}

/// What is asked for of a text that is not begun by its first piece: it is read whole first.
fn work_on_rest<S: Source>(
    alloc: Global,
    asked: TextCommand,
    pieces: &mut TextPieces,
    input: &mut S,
) -> Result<TextOutput, Status>
    ensures work { (left : Option (List ℕ)) → IsFirstPiece left (S.left input.old) pieces.old →
        IfOk result (IsWorkOfInput asked left (S.left input.new)) }
    ensures refused { (left : Option (List ℕ)) → IsFirstPiece left (S.left input.old) pieces.old →
        IfErr result (IsInputRefused asked left (S.left input.new)) }
    ensures kept { OnOk result (S.fault_count input.new ≡ S.fault_count input.old) }
    ensures read_count { IfErr result (λ s. CountsFaults Status.ReadFault s (S.fault_count input.old) (S.fault_count input.new)) }
    ensures never_falls { S.fault_count input.old ≤ S.fault_count input.new }
{
    if !pieces.is_last() {
        match pieces.read_rest(input) {
            Ok(()) => {}
            Err(refusal) => return Err(Status::from(refusal)),
        }
    }
    work_on(alloc, asked, pieces.piece())
}

/// The work on the text, where its first piece is not all of it and begins it.
fn begun_by(alloc: Global, asked: TextCommand, pieces: &TextPieces) -> Option<Begun>
    requires { length pieces.now.piece ≤ INPUT_BYTES }
    ensures { IfSome result (λ b. (pieces.now.is_last ≡ false) × (EndsLine pieces.now.piece → HasBegun asked pieces.now.piece b)) }
{
    if pieces.is_last() {
        return None;
    }
    begin(alloc, asked, pieces.piece())
}

/// The answer to a text that is refused so, of which the rest is read: an input that is too long is refused before all else.
fn refused_late<S: Source>(status: Status, pieces: &mut TextPieces, input: &mut S) -> Status
    requires { status ≢ Status.ReadFault }
    ensures refused { (a : TheAsked) (left : Option (List ℕ)) → IsRefusedAt a left (S.left input.old) pieces.old status →
        IsInputRefused a left (S.left input.new) result }
    ensures read_count { CountsFaults Status.ReadFault result (S.fault_count input.old) (S.fault_count input.new) }
    ensures never_falls { S.fault_count input.old ≤ S.fault_count input.new }
{
    if pieces.is_last() {
        return status;
    }
    match pieces.skip_rest(input) {
        Ok(()) => status,
        Err(refusal) => Status::from(refusal),
    }
}

/// What is asked for of the text that the input holds, which is read piece by piece.
fn work_on_input<S: Source>(
    alloc: Global,
    asked: TextCommand,
    input: &mut S,
) -> Result<TextOutput, Status>
    ensures work { IfOk result (IsWorkOfInput asked (S.left input.old) (S.left input.new)) }
    ensures refused { IfErr result (IsInputRefused asked (S.left input.old) (S.left input.new)) }
    ensures kept { OnOk result (S.fault_count input.new ≡ S.fault_count input.old) }
    ensures read_count { IfErr result (λ s. CountsFaults Status.ReadFault s (S.fault_count input.old) (S.fault_count input.new)) }
    ensures never_falls { S.fault_count input.old ≤ S.fault_count input.new }
{
    let mut pieces = match TextPieces::first(alloc, input) {
        Ok(pieces) => pieces,
        Err(refusal) => return Err(Status::from(refusal)),
    };
    let Some(mut begun) = begun_by(alloc, asked, &pieces) else {
        return work_on_rest(alloc, asked, &mut pieces, input);
    };
    while !pieces.is_last() {
        match pieces.next(input) {
            Ok(()) => {}
            Err(refusal) => return Err(Status::from(refusal)),
        }
        match begun.go_on(alloc, asked, pieces.piece()) {
            Ok(further) => begun = further,
            Err(status) => return Err(refused_late(status, &mut pieces, input)),
        }
    }
    begun.finish(alloc, asked)
}

/// The whole work that is asked for.
fn serve<S: Source, K: Sink>(
    alloc: Global,
    asked: TextCommand,
    input: &mut S,
    output: &mut K,
) -> Status
    ensures outcome { IsOutcome (output.new ≡ output.old) asked (S.left input.old) (S.left input.new)
        (K.written output.old) (K.written output.new) result }
    ensures nothing { IsEarly result → output.new ≡ output.old }
    ensures flushed { result ≡ Status.Done → K.flushed output.new }
    ensures all_flushed { result ≢ Status.WriteFault → (output.new ≡ output.old) ⊎ K.flushed output.new }
    ensures read_count { CountsFaults Status.ReadFault result (S.fault_count input.old) (S.fault_count input.new) }
    ensures write_count { CountsFaults Status.WriteFault result (K.fault_count output.old) (K.fault_count output.new) }
    ensures read_faults_never_fall { S.fault_count input.old ≤ S.fault_count input.new }
    ensures write_faults_never_fall { K.fault_count output.old ≤ K.fault_count output.new }
{
    match work_on_input(alloc, asked, input) {
        Ok(work) => write_work(output, &work),
        Err(status) => status,
    }
}

/// `storm`: the summary of the storm of this number.
fn storm<K: Sink>(alloc: Global, n: u32, output: &mut K) -> Status
    requires { n ≤ EVENTS }
    ensures answered { IsStormAnswered (output.new ≡ output.old) n (K.written output.old) (K.written output.new) result }
    ensures flushed { result ≡ Status.Done → K.flushed output.new }
    ensures all_flushed { result ≢ Status.WriteFault → (output.new ≡ output.old) ⊎ K.flushed output.new }
    ensures count { CountsFaults Status.WriteFault result (K.fault_count output.old) (K.fault_count output.new) }
    ensures nothing { IsEarly result → output.new ≡ output.old }
    ensures never_falls { K.fault_count output.old ≤ K.fault_count output.new }
{
    match summary_of(alloc, n) {
        Ok(text) => write_work(
            output,
            &TextOutput {
                text,
                status: Status::Done,
            },
        ),
        Err(StormRefusal::Limit) => Status::Limit,
        Err(StormRefusal::NoMemory) => Status::NoMemory,
    }
}

/// The whole work that the words ask for, where it waits for nobody; no answer for the words of `run` and of `node H`, of which nothing is
/// read or written here. `replay` reads a schedule and writes its report, `replay --trace` the trace of its steps. `check` reads a trace
/// and writes `yes STEPS` where its steps are a run of the one-machine kernel, else `no STEP` with the first that is not allowed. `join`
/// reads texts of single stations, one behind the other, and writes the schedule of what happened at all of them; `Stray` comes where a
/// station took a frame that no other sent to it. `storm N` reads nothing and writes the summary of the storm of this number. The words
/// come first, then the input is read to its end, by `replay` and `check` piece by piece, each of which is worked on before the next is
/// read, and only behind the last is anything written. `Limit` comes for more than 16,777,216 bytes, for more than 100,000 events before
/// any line that is bad, where `check` finds that more than 268,435,456 bytes would be noted for remote moves by steps that are allowed,
/// where the stations of `join` emitted more than 268,435,456 bytes, and at an event of `replay` or of a storm before which the emitted
/// frames hold more than 266,076,160 bytes: then what `replay` writes ends before that event, and of the others nothing is written. After
/// the output it is flushed once.
///
/// Where the source does not tell what is left, the clauses speak of some input that it may have had.
pub fn vkernel_alone<S: Source, K: Sink>(
    alloc: Global,
    words: &[String],
    input: &mut S,
    output: &mut K,
) -> Option<Status>
    // There is no answer exactly for the words of `run` and of `node H`, unless memory is wanting to read them. Then nothing is read or
    // written.
    ensures none { result ≡ None → is_threaded (job_of (map string_bytes words.now)) ≡ true }
    ensures threaded { is_threaded (job_of (map string_bytes words.now)) ≡ true →
        ((result ≡ None) ⊎ (result ≡ Some Status.NoMemory)) × (input.new ≡ input.old) × (output.new ≡ output.old) }
    ensures answer { IfSome result (IsAloneAnswer (input.new ≡ input.old) (output.new ≡ output.old) (map string_bytes words.now)
        (S.left input.old) (S.left input.new) (K.written output.old) (K.written output.new)) }
    // What was written is flushed, unless a write failed, or the flush did: at Done, and at each other answer that writes a text.
    ensures flushed { IfSome result (λ s. s ≡ Status.Done → K.flushed output.new) }
    ensures all_flushed { IfSome result (λ s. s ≢ Status.WriteFault → (output.new ≡ output.old) ⊎ K.flushed output.new) }

    // ReadFault and WriteFault are answered only where a fault of the input and of the output was counted, and every such fault is told so.
    ensures read_faults { IfSome result (λ s. TellsFaults Status.ReadFault s (S.fault_count input.old) (S.fault_count input.new)) }
    ensures write_faults { IfSome result (λ s. TellsFaults Status.WriteFault s (K.fault_count output.old) (K.fault_count output.new)) }
    ensures read_faults_never_fall { S.fault_count input.old ≤ S.fault_count input.new }
    ensures write_faults_never_fall { K.fault_count output.old ≤ K.fault_count output.new }
{
    match read_words(alloc, words) {
        Ok(Some(Invocation::OfText { asked })) => Some(serve(alloc, asked, input, output)),
        Ok(Some(Invocation::Run | Invocation::Node { .. })) => None,
        Ok(Some(Invocation::Storm { n })) => Some(storm(alloc, n, output)),
        Ok(None) => Some(Status::Usage),
        Err(NoMemory) => Some(Status::NoMemory),
    }
}
