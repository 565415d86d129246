//! The words of labels.

ghost use Rattle.std.specs.Prelude.{◌≡◌, ◌++◌, ◌∷◌, codes, flat_map, OnOk};
ghost use Rattle.vk_text.specs.Spelling.{pid_text};
ghost use Rattle.vk_picture.specs.Svg.{name_words};
ghost use Rattle.vk_picture.specs.Words.{said_text, partner_text, brought_text, act_text, label_text, step_words, step_text};

use crate::picture::{Act, Said, StepMark};
use crate::words::{call_word, handed_from, step_word};
use std::alloc::Global;
use v_trace::put_answer;
use vk_base::{Answer, NoMemory, Pid};
use vk_report::{PacketKind, kind_word};
use vk_text::{put, put_byte, put_number, put_pid, write_pid};

#[tactic(auto, unfolding(v_trace::specs::Texts::answer_text))]
fn write_said(alloc: Global, text: &mut Vec<u8>, said: Said) -> Result<(), NoMemory>
    ensures { OnOk result (text.new.items ≡ text.old.items ++ said_text said) }
{
    match said {
        Said::Begun | Said::Taken => Ok(()),
        Said::Ok => put(text, b"ok"),
        Said::Refused { why } => put_answer(alloc, text, &Answer::Refused { why }),
        Said::Now { tick } => put_number(alloc, text, tick),
        Said::Old => put(text, b"old"),
        Said::Bad => put(text, b"bad"),
        Said::Missing => put(text, b"missing"),
    }
}

fn write_partner(alloc: Global, text: &mut Vec<u8>, partner: Option<Pid>) -> Result<(), NoMemory>
    ensures { OnOk result (text.new.items ≡ text.old.items ++ partner_text partner) }
{
    match partner {
        Some(pid) => write_pid(alloc, text, pid),
        None => Ok(()),
    }
}

fn write_brought(text: &mut Vec<u8>, brought: Option<PacketKind>) -> Result<(), NoMemory>
    ensures { OnOk result (text.new.items ≡ text.old.items ++ brought_text brought) }
{
    match brought {
        Some(kind) => put(text, kind_word(kind)),
        None => Ok(()),
    }
}

fn write_act(
    alloc: Global,
    text: &mut Vec<u8>,
    brought: Option<PacketKind>,
    act: Act,
) -> Result<(), NoMemory>
    ensures { OnOk result (text.new.items ≡ text.old.items ++ act_text brought act) }
{
    match act {
        Act::Call { kind, partner, .. } => {
            put(text, call_word(kind))?;
            write_partner(alloc, text, handed_from(kind))?;
            write_partner(alloc, text, partner)
        }
        Act::Collect { .. } | Act::Tick { .. } => Ok(()),
        Act::Deliver { .. } => write_brought(text, brought),
    }
}

/// What happens at an event, and what is answered.
pub(crate) fn write_label(
    alloc: Global,
    text: &mut Vec<u8>,
    brought: Option<PacketKind>,
    act: Act,
    said: Said,
) -> Result<(), NoMemory>
    ensures { OnOk result (text.new.items ≡ text.old.items ++ label_text brought act said) }
{
    write_act(alloc, text, brought, act)?;
    put_byte(text, b' ')?;
    write_said(alloc, text, said)
}

fn write_step_words(alloc: Global, text: &mut Vec<u8>, step: StepMark) -> Result<(), NoMemory>
    ensures { OnOk result (text.new.items ≡ text.old.items ++ step_words step) }
{
    put(text, step_word(step.kind))?;
    write_pid(alloc, text, step.pid)
}

#[tactic(auto, unfolding(crate::specs::Words::step_text))]
fn write_step(alloc: Global, text: &mut Vec<u8>, step: &StepMark) -> Result<(), NoMemory>
    ensures { OnOk result (text.new.items ≡ text.old.items ++ step_text step.now) }
{
    put(text, b"<tspan dx=\"12\">")?;
    write_step_words(alloc, text, *step)?;
    put(text, b"</tspan>")
}

pub(crate) fn write_steps(
    alloc: Global,
    text: &mut Vec<u8>,
    steps: &[StepMark],
) -> Result<(), NoMemory>
    ensures { OnOk result (text.new.items ≡ text.old.items ++ flat_map step_text steps.now) }
{
    for step in steps {
        write_step(alloc, text, step)?;
    }
    Ok(())
}

/// The name of a column.
pub(crate) fn write_name(
    alloc: Global,
    text: &mut Vec<u8>,
    host: u16,
    process: Option<Pid>,
) -> Result<(), NoMemory>
    ensures { OnOk result (text.new.items ≡ text.old.items ++ name_words host process) }
{
    match process {
        Some(pid) => put_pid(alloc, text, pid),
        None => {
            put(text, b"station ")?;
            put_number(alloc, text, u64::from(host))
        }
    }
}
