//! The text with answers: behind each step what the kernel gives to see at it.

ghost use Rattle.std.specs.Prelude.{◌≡◌, ◌++◌, [], codes, IfOk, OnOk};
ghost use Rattle.vk_text.specs.Heads.{head_text};
ghost use Rattle.vk_explain.specs.Observed.{observed_by, saw_line, seen_lines};

use crate::words::Asked;
use std::alloc::Global;
use v_trace::{put_answer, put_step};
use vk_base::{Config, NoMemory, Observation};
use vk_brief::StepView;
use vk_text::{put, put_head};

/// What the text with answers begins with, where it is asked for.
pub(crate) fn begun(alloc: Global, asked: Asked, config: &Config) -> Result<Vec<u8>, NoMemory>
    ensures { IfOk result (λ text. text.items ≡ observed_by asked config.now.specs []) }
{
    let mut text = Vec::new(alloc);
    match asked {
        Asked::Verdict => {}
        Asked::Answers => put_head(alloc, &mut text, b"vkernel observed 1", config)?,
    }
    Ok(text)
}

/// The line that tells what is seen, where anything is.
fn put_saw(alloc: Global, into: &mut Vec<u8>, seen: &Option<Observation>) -> Result<(), NoMemory>
    ensures { OnOk result (into.new.items ≡ into.old.items ++ saw_line seen.now) }
{
    match seen {
        None => Ok(()),
        Some(seen) => {
            put(into, b"saw ")?;
            put_answer(alloc, into, &seen.answer)?;
            put(into, b"\n")
        }
    }
}

/// The lines of a step, at which this is seen.
pub(crate) fn put_seen(
    alloc: Global,
    into: &mut Vec<u8>,
    step: &StepView<'_>,
    seen: &Option<Observation>,
) -> Result<(), NoMemory>
    ensures { OnOk result (into.new.items ≡ into.old.items ++ seen_lines step.now seen.now) }
{
    put_step(alloc, into, step)?;
    put(into, b"\n")?;
    put_saw(alloc, into, seen)
}
