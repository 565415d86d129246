ghost use Rattle.std.specs.Prelude.{◌≡◌, ◌≢◌, ◌<◌, ◌⊎◌, ℕ, length, take, map, string_bytes, None, Some, IfOk, IfErr};
ghost use Rattle.std.specs.Io.KnownBytes.{Appends};
ghost use Rattle.vk_base.specs.declared.limits.TheConstants.{INPUT_BYTES};
ghost use Rattle.vk_edge.specs.Answers.{CountsFaults};
ghost use Rattle.vk_edge.specs.Inputs.{IsReadWhole, OfInput};
ghost use Rattle.vk_explain.specs.Explained.{IsOver};
ghost use Rattle.vk_explain.specs.Top.{IsAnswer, IsEarly, IsFront, IsTold, IsSaid};
ghost use Rattle.vk_explain.specs.Pages.{page_text};
ghost use Rattle.vk_explain.specs.Told.{right_text};
ghost use Rattle.vk_explain.specs.Words.{asked_of};

use crate::explaining::explain;
use crate::fault::Stop;
use crate::pages::page_text;
use crate::reading::Reading;
use crate::status::Status;
use crate::told::right_text;
use crate::words::{Asked, Invocation, Page, read_words};
use std::alloc::Global;
use vk_base::NoMemory;
use vk_edge::{read_text, write_text};
use vk_io::{ReadRefusal, Sink, Source};

/// What is told of a text.
#[derive(Drop)]
struct Told {
    text: Vec<u8>,
    /// `Right` or `Wrong`.
    status: Status,
}

/// What is told of a text that was read, in which nothing is wrong.
fn text_of(alloc: Global, asked: Asked, reading: Reading) -> Result<Vec<u8>, NoMemory>
    ensures verdict { asked ≡ Asked.Verdict → IfOk result (λ t. t.items ≡ right_text reading.steps reading.answers) }
    ensures answers { asked ≡ Asked.Answers → IfOk result (λ t. t.items ≡ reading.observed.items) }
{
    match asked {
        Asked::Verdict => right_text(alloc, reading.steps(), reading.answers()),
        Asked::Answers => Ok(reading.into_observed()),
    }
}

/// What is told of a text, or `NoMemory` or `Limit`.
fn told_of(alloc: Global, asked: Asked, text: &[u8]) -> Result<Told, Status>
    ensures told { IfOk result (λ t. IsTold asked text.now t.text.items t.status) }
    ensures refused { IfErr result (λ s. (s ≡ Status.NoMemory) ⊎ ((s ≡ Status.Limit) × IsOver text.now)) }
{
    match explain(alloc, asked, text) {
        Ok(reading) => match text_of(alloc, asked, reading) {
            Ok(text) => Ok(Told {
                text,
                status: Status::Right,
            }),
            Err(NoMemory) => Err(Status::NoMemory),
        },
        Err(Stop::Wrong { text }) => Ok(Told {
            text,
            status: Status::Wrong,
        }),
        Err(Stop::Limit) => Err(Status::Limit),
        Err(Stop::NoMemory) => Err(Status::NoMemory),
    }
}

/// The whole work on a text that was read.
fn answer<K: Sink>(alloc: Global, asked: Asked, text: &[u8], output: &mut K) -> Status
    ensures written { IsAnswer result → IsSaid asked text.now (K.written output.old) (K.written output.new) result }
    ensures front { result ≡ Status.WriteFault → IsFront asked text.now (K.written output.old) (K.written output.new) }
    ensures flushed { IsAnswer result → K.flushed output.new }
    ensures limit { result ≡ Status.Limit → IsOver text.now }
    ensures nothing { IsEarly result → output.new ≡ output.old }
    ensures kinds { (result ≢ Status.Usage) × (result ≢ Status.ReadFault) }
    ensures count { CountsFaults Status.WriteFault result (K.fault_count output.old) (K.fault_count output.new) }
{
    match told_of(alloc, asked, text) {
        Ok(told) => write_text(output, &told.text, told.status, Status::WriteFault),
        Err(status) => status,
    }
}

/// The whole work.
fn serve<S: Source, K: Sink>(alloc: Global, asked: Asked, input: &mut S, output: &mut K) -> Status
    ensures written { IsAnswer result →
        OfInput (S.left input.old) (λ i. IsSaid asked i (K.written output.old) (K.written output.new) result) }
    ensures front { result ≡ Status.WriteFault →
        OfInput (S.left input.old) (λ i. IsFront asked i (K.written output.old) (K.written output.new)) }
    ensures flushed { IsAnswer result → K.flushed output.new }
    ensures whole { IsAnswer result → IsReadWhole (S.left input.old) (S.left input.new) }
    ensures limit { result ≡ Status.Limit → OfInput (S.left input.old) (λ i. (INPUT_BYTES < length i) ⊎ IsOver i) }
    ensures nothing { IsEarly result → output.new ≡ output.old }
    ensures kinds { result ≢ Status.Usage }
    ensures read_count { CountsFaults Status.ReadFault result (S.fault_count input.old) (S.fault_count input.new) }
    ensures write_count { CountsFaults Status.WriteFault result (K.fault_count output.old) (K.fault_count output.new) }
{
    match read_text(alloc, input) {
        Ok(text) => answer(alloc, asked, &text, output),
        Err(ReadRefusal::Failed) => Status::ReadFault,
        Err(ReadRefusal::TooLong) => Status::Limit,
        Err(ReadRefusal::NoMemory) => Status::NoMemory,
    }
}

/// Writes a page.
fn tell<K: Sink>(alloc: Global, page: Page, output: &mut K) -> Status
    ensures written { IsAnswer result → (result ≡ Status.Right) × Appends (K.written output.old) (K.written output.new) (page_text page) }
    ensures front { result ≡ Status.WriteFault →
        (n : ℕ) × Appends (K.written output.old) (K.written output.new) (take n (page_text page)) }
    ensures flushed { IsAnswer result → K.flushed output.new }
    ensures nothing { IsEarly result → output.new ≡ output.old }
    ensures kinds { (result ≢ Status.Usage) × (result ≢ Status.ReadFault) × (result ≢ Status.Limit) }
    ensures count { CountsFaults Status.WriteFault result (K.fault_count output.old) (K.fault_count output.new) }
{
    match page_text(alloc, page) {
        Ok(text) => write_text(output, &text, Status::Right, Status::WriteFault),
        Err(NoMemory) => Status::NoMemory,
    }
}

/// Reads a trace, or a text with answers, and writes `yes STEPS ANSWERS`, or what is wrong in the first of its lines in which something is;
/// with `--answers` in place of the former the same steps with each answer that the kernel gives. With `--help` and `--version` it writes
/// that page, and reads nothing.
/// The words come first, then the input is read to its end, then its text is looked at, and only then is anything written, and flushed
/// once. `Limit` comes for more than 16,777,216 bytes of input, or where its steps would note more than 268,435,456 bytes for remote moves.
///
/// Where the source does not tell what is left, the clauses speak of some input that it may have had.
pub fn vkexplain<S: Source, K: Sink>(
    alloc: Global,
    words: &[String],
    input: &mut S,
    output: &mut K,
) -> Status
    // Usage is answered only for words that ask for nothing.
    ensures usage { result ≡ Status.Usage → asked_of (map string_bytes words.now) ≡ None }
    // For such words there is no other answer, but for want of memory to read them, and nothing is read or written.
    ensures useless { asked_of (map string_bytes words.now) ≡ None → (result ≡ Status.Usage) ⊎ (result ≡ Status.NoMemory) }
    ensures unread { asked_of (map string_bytes words.now) ≡ None → (input.new ≡ input.old) × (output.new ≡ output.old) }

    // A page that is asked for is written and flushed, and nothing is read. At WriteFault a front of it may be written.
    ensures page { (page : Page) → asked_of (map string_bytes words.now) ≡ Some (Invocation.Tell page) → IsAnswer result →
        (result ≡ Status.Right) × Appends (K.written output.old) (K.written output.new) (page_text page) }
    ensures page_front { (page : Page) → asked_of (map string_bytes words.now) ≡ Some (Invocation.Tell page) → result ≡ Status.WriteFault →
        (n : ℕ) × Appends (K.written output.old) (K.written output.new) (take n (page_text page)) }
    ensures page_unread { (page : Page) → asked_of (map string_bytes words.now) ≡ Some (Invocation.Tell page) → input.new ≡ input.old }

    // Right: all steps of the input are a run, and all answers that it tells are so. Wrong: the first of its lines in which something is
    // wrong is told. What is asked of a right text, and what is wrong in another, is written and flushed.
    ensures written { (asked : Asked) → asked_of (map string_bytes words.now) ≡ Some (Invocation.Explain asked) → IsAnswer result →
        OfInput (S.left input.old) (λ i. IsSaid asked i (K.written output.old) (K.written output.new) result) }
    ensures flushed { IsAnswer result → K.flushed output.new }
    // The input was read to its end.
    ensures whole { (asked : Asked) → asked_of (map string_bytes words.now) ≡ Some (Invocation.Explain asked) → IsAnswer result →
        IsReadWhole (S.left input.old) (S.left input.new) }
    // At WriteFault a front of it may be written, and at each other answer nothing is.
    ensures front { (asked : Asked) → asked_of (map string_bytes words.now) ≡ Some (Invocation.Explain asked) → result ≡ Status.WriteFault →
        OfInput (S.left input.old) (λ i. IsFront asked i (K.written output.old) (K.written output.new)) }
    ensures nothing { IsEarly result → output.new ≡ output.old }
    // Limit: the input has too many bytes, or a limit is met before anything that is wrong.
    ensures limit { result ≡ Status.Limit → OfInput (S.left input.old) (λ i. (INPUT_BYTES < length i) ⊎ IsOver i) }

    // ReadFault is answered only where a fault of the input was counted, and every such fault is told so; WriteFault likewise.
    ensures read_count { CountsFaults Status.ReadFault result (S.fault_count input.old) (S.fault_count input.new) }
    ensures write_count { CountsFaults Status.WriteFault result (K.fault_count output.old) (K.fault_count output.new) }
{
    match read_words(alloc, words) {
        Ok(Some(Invocation::Explain { asked })) => serve(alloc, asked, input, output),
        Ok(Some(Invocation::Tell { page })) => tell(alloc, page, output),
        Ok(None) => Status::Usage,
        Err(NoMemory) => Status::NoMemory,
    }
}
