//! The words in which it is told what is wrong in a text, and that nothing is.

ghost use Rattle.std.specs.Prelude.{◌≡◌, ◌++◌, None, Some, option_map, IfOk, OnOk};
ghost use Rattle.vk_explain.specs.Told.{bad_line_text, fault_text, given_text, other_answer_text, refused_text, right_text, step_text};

use crate::fault::Fault;
use std::alloc::Global;
use v_obstacle::Obstacle;
use v_trace::put_answer;
use vk_base::{NoMemory, Observation};
use vk_text::{put, put_number};
use vk_why::put_reason;

/// `yes STEPS ANSWERS`
pub(crate) fn right_text(alloc: Global, steps: u64, answers: u64) -> Result<Vec<u8>, NoMemory>
    ensures { IfOk result (λ text. text.items ≡ right_text steps answers) }
{
    let mut text = Vec::new(alloc);
    put(&mut text, b"yes ")?;
    put_number(alloc, &mut text, steps)?;
    put(&mut text, b" ")?;
    put_number(alloc, &mut text, answers)?;
    put(&mut text, b"\n")?;
    Ok(text)
}

/// `line LINE is not valid: ..`, and the line itself.
pub(crate) fn bad_line_text(alloc: Global, number: u64, line: &[u8]) -> Result<Vec<u8>, NoMemory>
    ensures { IfOk result (λ text. text.items ≡ bad_line_text number line.now) }
{
    let mut text = Vec::new(alloc);
    put(&mut text, b"line ")?;
    put_number(alloc, &mut text, number)?;
    put(&mut text, b" is not valid: ")?;
    put(&mut text, line)?;
    put(&mut text, b"\n")?;
    Ok(text)
}

/// `no STEP: ` begins what is told of a step.
fn step_text(alloc: Global, step: u64) -> Result<Vec<u8>, NoMemory>
    ensures { IfOk result (λ text. text.items ≡ step_text step) }
{
    let mut text = Vec::new(alloc);
    put(&mut text, b"no ")?;
    put_number(alloc, &mut text, step)?;
    put(&mut text, b": ")?;
    Ok(text)
}

/// The answer, if there is one.
fn put_given(alloc: Global, text: &mut Vec<u8>, given: &Option<Observation>) -> Result<(), NoMemory>
    ensures { OnOk result (text.new.items ≡ text.old.items ++ given_text given.now) }
{
    match given {
        Some(seen) => put_answer(alloc, text, &seen.answer),
        None => put(text, b"nothing"),
    }
}

/// `no STEP: LINE, the kernel gives ANSWER`
fn other_answer_text(
    alloc: Global,
    step: u64,
    line: &[u8],
    given: &Option<Observation>,
) -> Result<Vec<u8>, NoMemory>
    ensures { IfOk result (λ text. text.items ≡ other_answer_text step line.now given.now) }
{
    let mut text = step_text(alloc, step)?;
    put(&mut text, line)?;
    put(&mut text, b", the kernel gives ")?;
    put_given(alloc, &mut text, given)?;
    put(&mut text, b"\n")?;
    Ok(text)
}

/// `no STEP: REASON`
fn refused_text(alloc: Global, step: u64, why: &Obstacle) -> Result<Vec<u8>, NoMemory>
    ensures { IfOk result (λ text. text.items ≡ refused_text step why.now) }
{
    let mut text = step_text(alloc, step)?;
    put_reason(alloc, &mut text, why)?;
    put(&mut text, b"\n")?;
    Ok(text)
}

/// What is told of what is wrong in this line. Nothing is where a limit was met.
pub(crate) fn fault_text(
    alloc: Global,
    fault: &Fault,
    line: &[u8],
) -> Result<Option<Vec<u8>>, NoMemory>
    ensures text { IfOk result (λ text. option_map (λ t. t.items) text ≡ fault_text fault.now line.now) }
    ensures limit { IfOk result (λ text. text ≡ None → fault.now ≡ Fault.Limit) }
{
    let text = match fault {
        Fault::BadLine { line: number } => bad_line_text(alloc, *number, line)?,
        Fault::Refused { step, why } => refused_text(alloc, *step, why)?,
        Fault::OtherAnswer { step, given } => other_answer_text(alloc, *step, line, given)?,
        Fault::Limit => return Ok(None),
        Fault::NoMemory => return Err(NoMemory),
    };
    Ok(Some(text))
}
