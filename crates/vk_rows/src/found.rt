//! What comes of a row: of the whole top call, and of the steps of a trace.

use crate::row::{Found, Row};
use std::alloc::Global;
use std::io;
use v_machine::Machine;
use v_trace::{Trace, put_answer, read_trace};
use vk_io::{MemorySink, MemorySource};
use vk_top::{Status, vkernel_alone};

/// The most bytes that one read gives, and that one write takes.
const READ_MOST: usize = 7;

const WRITE_MOST: usize = 5;

/// The number of the status, and that with its text.
fn status_texts(alloc: Global, status: &Status) -> io::Result<(Vec<u8>, Vec<u8>)> {
    let number = format!(in alloc; "{}", status.number())?;
    let text = status.text();
    let mut both = Vec::from_slice(alloc, number.as_bytes())?;
    if !text.is_empty() {
        both.push(b' ')?;
        both.extend_from_slice(text.as_slice())?;
    }
    Ok((Vec::from_slice(alloc, number.as_bytes())?, both))
}

/// What the steps give to see, a line each, up to the first that is refused.
fn answers_from(alloc: Global, trace: &Trace) -> io::Result<Vec<u8>> {
    let Ok(mut machine) = Machine::new(alloc, &trace.config) else {
        return Err(io::Error::from(io::ErrorKind::OutOfMemory));
    };
    let mut answers = Vec::new(alloc);
    for step in trace.steps.as_slice() {
        let Ok(seen) = machine.apply(alloc, step) else {
            break;
        };
        let Some(seen) = seen else {
            continue;
        };
        if put_answer(alloc, &mut answers, &seen.answer).is_err() {
            return Err(io::Error::from(io::ErrorKind::OutOfMemory));
        }
        answers.push(b'\n')?;
    }
    Ok(answers)
}

/// What the steps of a trace give to see; nothing where the text is none.
fn answers_of(alloc: Global, text: &[u8]) -> io::Result<Vec<u8>> {
    match read_trace(alloc, text) {
        Ok(trace) => answers_from(alloc, &trace),
        Err(_) => Ok(Vec::new(alloc)),
    }
}

/// Runs the top call over the row's input, a few bytes at a time. No row has the words of `run`, whose output is another each time.
pub fn found_of(alloc: Global, row: &Row) -> io::Result<Found> {
    let input = Vec::from_slice(alloc, &row.input)?;
    let mut source = MemorySource::new(input, Vec::new(alloc), READ_MOST);
    let mut sink = MemorySink::new(alloc, Vec::new(alloc), WRITE_MOST);
    let Some(answered) = vkernel_alone(alloc, &row.words, &mut source, &mut sink) else {
        return Err(io::Error::from(io::ErrorKind::Unsupported));
    };
    let (number, status) = status_texts(alloc, &answered)?;
    let answers = match row.answers {
        Some(_) => answers_of(alloc, &row.input)?,
        None => Vec::new(alloc),
    };
    Ok(Found {
        output: Vec::from_slice(alloc, sink.written())?,
        number,
        status,
        answers,
    })
}
