//! The lines that a report has of an event.

ghost use Rattle.vk_report.specs.Views.{IsShort};

use std::alloc::Global;
use std::io;
use vk_base::{Answer, EventAnswer, Outcome};
use vk_brief::Steps;
use vk_report::{AnswerView, EventPlace, Form, put_entry, put_missing};
use vk_text::Text;

/// There is no memory.
pub fn out_of_memory() -> io::Error {
    io::Error::from(io::ErrorKind::OutOfMemory)
}

/// What a call ended with. The bytes that a Load gives are left out.
fn outcome_of(answer: &EventAnswer) -> Outcome {
    let EventAnswer::Answered { answer } = answer else {
        return Outcome::Ok;
    };
    match *answer {
        Answer::Ok | Answer::Loaded { .. } => Outcome::Ok,
        Answer::Replied { message } => Outcome::Replied { message },
        Answer::Received { from, message } => Outcome::Received { from, message },
        Answer::ReceivedSegment {
            from,
            message,
            count,
        } => Outcome::ReceivedSegment {
            from,
            message,
            count,
        },
        Answer::Found { pid } => Outcome::Found { pid },
        Answer::Refused { why } => Outcome::Refused { why },
    }
}

/// The view of an answer and of what its call ended with.
fn view_of<'a>(answer: &'a EventAnswer, outcome: &'a Outcome) -> AnswerView<'a>
    ensures { IsShort result }
{
    match answer {
        EventAnswer::Begun => AnswerView::Begun,
        EventAnswer::Answered {
            answer: Answer::Loaded { bytes },
        } => AnswerView::Loaded {
            bytes: bytes.as_slice(),
        },
        EventAnswer::Answered { .. } => AnswerView::Given { outcome },
        EventAnswer::Ticked { now } => AnswerView::Ticked { now: *now },
        EventAnswer::Taken => AnswerView::Taken,
        EventAnswer::Old => AnswerView::Old,
        EventAnswer::Bad => AnswerView::Bad,
    }
}

/// The lines of the answer and those of the steps.
pub fn entry_text(
    alloc: Global,
    place: EventPlace,
    answer: &EventAnswer,
    steps: &Steps,
) -> io::Result<Vec<u8>> {
    let mut text = Text::new(Vec::new(alloc));
    let outcome = outcome_of(answer);
    let view = view_of(answer, &outcome);
    match put_entry(alloc, &mut text, Form::Report, place, &view, steps) {
        Ok(()) => whole(text),
        Err(_) => Err(out_of_memory()),
    }
}

/// The line of a delivery whose frame was never emitted.
pub fn missing_text(alloc: Global, number: u64, host: u16) -> io::Result<Vec<u8>> {
    let mut text = Text::new(Vec::new(alloc));
    match put_missing(&mut text, Form::Report, number, host) {
        Ok(()) => whole(text),
        Err(_) => Err(out_of_memory()),
    }
}

fn whole(text: Text) -> io::Result<Vec<u8>> {
    match text.into_bytes() {
        Ok(bytes) => Ok(bytes),
        Err(_) => Err(out_of_memory()),
    }
}
