ghost use Rattle.std.specs.Prelude.{◌≡◌, ◌≤◌, ◌⊎◌, [], length, Ok, Some, None, map, string_bytes, IfSome, IfOk, IfErr};
ghost use Rattle.vk_base.specs.declared.limits.TheConstants.{INPUT_BYTES};
ghost use Rattle.vk_edge.specs.Answers.{CountsFaults};
ghost use Rattle.vk_edge.specs.Inputs.{IsWanting, OfInput};
ghost use Rattle.vk_schedule.specs.Schedule.{schedule_of};
ghost use Rattle.vk_draw.specs.Top.{IsDecided, IsDrawn, IsEarly, IsLate, IsMade, IsOfText, IsPicture, IsFront, IsRefusal, IsRefused};
ghost use Rattle.vk_draw.specs.Work.{IsAnswered, IsOutcome};
ghost use Rattle.vk_draw.specs.Words.{asked_of};

use crate::page::page_of;
use crate::playing::picture_of;
use crate::status::{Status, refused};
use crate::words::{Drawing, read_words};
use std::alloc::Global;
use vk_base::NoMemory;
use vk_edge::{read_text, write_text};
use vk_io::{Sink, Source};
use vk_page::PageParts;
use vk_picture::{ROWS, picture_text};
use vk_schedule::{Schedule, read_schedule};

/// The picture of the schedule that the text spells.
fn draw_schedule(alloc: Global, text: &[u8], schedule: &Schedule) -> Result<Vec<u8>, Status>
    requires { schedule_of text.now ≡ Ok schedule.now }
    ensures drawn { IfOk result (λ drawn. IsPicture text.now drawn.items) }
    ensures refused { IfErr result (IsRefusal Drawing.Picture text.now) }
{
    if schedule.events.len() > ROWS {
        return Err(Status::TooManyEvents);
    }
    let picture = picture_of(alloc, schedule)?;
    let drawn = picture_text(alloc, &picture)?;
    Ok(drawn)
}

/// What is asked for of the schedule that the text spells.
fn make_of(
    alloc: Global,
    asked: Drawing,
    parts: &PageParts,
    text: &[u8],
    schedule: &Schedule,
) -> Result<Vec<u8>, Status>
    requires { schedule_of text.now ≡ Ok schedule.now }
    ensures made { IfOk result (λ made. IsMade asked parts.now text.now made.items) }
    ensures refused { IfErr result (IsRefusal asked text.now) }
{
    match asked {
        Drawing::Picture => draw_schedule(alloc, text, schedule),
        Drawing::Page => page_of(alloc, parts, text, schedule),
    }
}

/// What is asked for of the schedule that the text spells, where it spells one.
fn make(alloc: Global, asked: Drawing, parts: &PageParts, text: &[u8]) -> Result<Vec<u8>, Status>
    ensures made { IfOk result (λ made. IsMade asked parts.now text.now made.items) }
    ensures refused { IfErr result (IsRefusal asked text.now) }
{
    match read_schedule(alloc, text) {
        Ok(schedule) => make_of(alloc, asked, parts, text, &schedule),
        Err(refusal) => Err(refused(asked, refusal)),
    }
}

/// The whole work on a text that was read.
fn answer<K: Sink>(
    alloc: Global,
    asked: Drawing,
    parts: &PageParts,
    text: &[u8],
    output: &mut K,
) -> Status
    requires { length text.now ≤ INPUT_BYTES }
    ensures answered { IsAnswered (output.new ≡ output.old) asked parts.now text.now (K.written output.old) (K.written output.new) result }
    ensures count { CountsFaults Status.WriteFault result (K.fault_count output.old) (K.fault_count output.new) }
    ensures flushed { result ≡ Status.Done → K.flushed output.new }
{
    match make(alloc, asked, parts, text) {
        Ok(drawn) => write_text(output, &drawn, Status::Done, Status::WriteFault),
        Err(status) => status,
    }
}

/// The whole work.
fn serve<S: Source, K: Sink>(
    alloc: Global,
    asked: Drawing,
    parts: &PageParts,
    input: &mut S,
    output: &mut K,
) -> Status
    ensures outcome { IsOutcome (output.new ≡ output.old) asked parts.now (S.left input.old) (S.left input.new)
        (K.written output.old) (K.written output.new) result }
    ensures decided { IsDecided asked (S.left input.old) result }
    ensures flushed { result ≡ Status.Done → K.flushed output.new }
    ensures read_count { CountsFaults Status.ReadFault result (S.fault_count input.old) (S.fault_count input.new) }
    ensures write_count { CountsFaults Status.WriteFault result (K.fault_count output.old) (K.fault_count output.new) }
{
    match read_text(alloc, input) {
        Ok(text) => answer(alloc, asked, parts, &text, output),
        Err(refusal) => Status::from(refusal),
    }
}

/// Reads a schedule to its end and writes the picture of its history, or with `--page` the page of it: the fixed text that is given, around
/// the input's text, its report and the text of its frames. The words come first, then the input is read to its end, then its text is read,
/// and only then is anything written. `TooManyEvents` comes for more than 500 events before any line that is bad, where a picture is asked
/// for; `Limit` for more than 16,777,216 bytes of input, where before an event the emitted frames hold more than 266,076,160 bytes, and
/// where a page is asked for also for more than 100,000 events; `TooMuchText` where the three texts of a page have more than 67,108,864
/// bytes together, and `NotPlain` where one of them has a byte that HTML may change. After the output it is flushed once.
///
/// Where the source does not tell what is left, the clauses speak of some input that it may have had.
pub fn vkdraw<S: Source, K: Sink>(
    alloc: Global,
    words: &[String],
    parts: &PageParts,
    input: &mut S,
    output: &mut K,
) -> Status
    // Usage is answered only for words that ask for nothing that the program does.
    ensures usage { result ≡ Status.Usage → asked_of (map string_bytes words.now) ≡ None }
    // For such words there is no other answer, but for want of memory to read them, and nothing is read or written.
    ensures useless { asked_of (map string_bytes words.now) ≡ None → (result ≡ Status.Usage) ⊎ (result ≡ Status.NoMemory) }
    ensures unread { asked_of (map string_bytes words.now) ≡ None → (input.new ≡ input.old) × (output.new ≡ output.old) }

    // Done: all of the input is the text of a schedule, of at most 500 events where a picture is asked for; and the picture or the page of
    // its history is written and flushed.
    ensures done { result ≡ Status.Done → IfSome (asked_of (map string_bytes words.now)) (λ a.
        OfInput (S.left input.old) (λ i. IsDrawn a parts.now i (K.written output.old) (K.written output.new))) }
    ensures flushed { result ≡ Status.Done → K.flushed output.new }
    // BadInput, TooManyEvents, Limit, TooMuchText and NotPlain tell of the input.
    ensures refused { IsOfText result → IfSome (asked_of (map string_bytes words.now)) (λ a.
        OfInput (S.left input.old) (λ i. IsRefused a i result)) }
    // Each input asks for one answer: there is no other, but for faults and want of memory.
    ensures decided { IfSome (asked_of (map string_bytes words.now)) (λ a. IsDecided a (S.left input.old) result) }
    // At these answers, and where a write failed, an input that is not too long was read to its end.
    ensures whole { IsLate result → IfSome (S.left input.old) (λ i. length i ≤ INPUT_BYTES → S.left input.new ≡ Some []) }

    // ReadFault is answered only where a fault of the input was counted, and every such fault is told so; WriteFault likewise.
    ensures read_count { CountsFaults Status.ReadFault result (S.fault_count input.old) (S.fault_count input.new) }
    ensures write_count { CountsFaults Status.WriteFault result (K.fault_count output.old) (K.fault_count output.new) }

    // NoMemory comes before anything is read, where the words take it, or where some of the input was read, and not a byte too many.
    ensures memory { result ≡ Status.NoMemory → IsWanting (input.new ≡ input.old) (S.left input.old) (S.left input.new) }

    // But at Done and WriteFault nothing is written. At WriteFault a front of what is asked for may be.
    ensures nothing { IsEarly result → output.new ≡ output.old }
    ensures front { result ≡ Status.WriteFault → IfSome (asked_of (map string_bytes words.now)) (λ a.
        OfInput (S.left input.old) (λ i. IsFront a parts.now i (K.written output.old) (K.written output.new))) }
{
    match read_words(alloc, words) {
        Ok(Some(asked)) => serve(alloc, asked, parts, input, output),
        Ok(None) => Status::Usage,
        Err(NoMemory) => Status::NoMemory,
    }
}
