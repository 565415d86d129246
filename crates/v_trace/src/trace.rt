//! Traces as texts.

ghost use Rattle.std.specs.Prelude.{◌≡◌, ◌⊎◌, ◌<◌, length, Ok, Err, IfOk, IfErr};
ghost use Rattle.v_trace.specs.Remaining.{whole};
ghost use Rattle.v_trace.specs.Traces.{KeepsLines, trace_of};

use crate::buffer::StepBuffer;
use crate::reader::StepReader;
use std::alloc::Global;
use thiserror::Error;
use vk_base::{Config, List, Pid, Step};

/// Any pid.
const FIRST: Pid = Pid { host: 1, local: 1 };

/// A configuration, and steps of the one-machine kernel. Whether they are a run is not said.
#[derive(Drop)]
pub struct Trace {
    pub config: Config,
    pub steps: List<Step>,
}

/// Why a text gives no trace.
#[derive(Clone, Copy, Debug, PartialEq, Eq, Error)]
pub enum TraceRefusal {
    /// The first bad line. Lines count from 1; the empty text is bad in line 1.
    #[error("line {line} is not valid")]
    BadInput { line: u64 },
    #[error("out of memory")]
    NoMemory,
}

/// What is left to be read, with its steps.
fn collect(alloc: Global, mut reader: StepReader<'_>) -> Result<Trace, TraceRefusal>
    ensures trace { IfOk result (λ t. whole reader.entry ≡ Ok t) }
    ensures refused { IfErr result (λ e. ((e ≡ TraceRefusal.NoMemory) × (0 < length reader.entry.steps)) ⊎ (whole reader.entry ≡ Err e)) }
{
    let mut steps = List::empty(alloc);
    loop {
        let mut step = StepBuffer::new(FIRST);
        if !reader.next(&mut step) {
            break;
        }
        if steps.push(step.whole()).is_err() {
            return Err(TraceRefusal::NoMemory);
        }
    }
    match reader.bad_line() {
        Some(line) => Err(TraceRefusal::BadInput { line }),
        None => Ok(Trace {
            config: reader.into_config(),
            steps,
        }),
    }
}

/// The trace that the text spells: its first line is `vkernel trace 1`, then come `process PID SIZE` lines by rising
/// pids, and then the steps, a line each. The process of a `call` or `collect` is in the configuration; other steps may
/// name any. The first line that is none of these decides. Memory is wanted only for lines before it, so only where the line
/// behind the title is lawful.
pub fn read_trace(alloc: Global, text: &[u8]) -> Result<Trace, TraceRefusal>
    ensures trace { IfOk result (λ t. trace_of text.now ≡ Ok t) }
    ensures refused { IfErr result (λ e. ((e ≡ TraceRefusal.NoMemory) × KeepsLines text.now) ⊎ (trace_of text.now ≡ Err e)) }
{
    match StepReader::new(alloc, text) {
        Ok(reader) => collect(alloc, reader),
        Err(refusal) => Err(refusal),
    }
}
