//! Room for a step as it is read: few bytes are written for each.

ghost use Rattle.std.specs.Prelude.{◌≡◌, ◌≤◌, length};
ghost use Rattle.vk_base.specs.declared.limits.TheConstants.{DATA_BYTES as BYTES};
ghost use Rattle.vk_base.specs.declared.step.Step.TheVariants as steps;
ghost use Rattle.vk_brief.specs.Brief.{step_with};
ghost use Rattle.v_trace.specs.Buffers.{bytes_in};

use std::marker::Model;
use vk_base::{Pid, Step};
use vk_brief::{BriefCall, BriefStep, CallBuffer, CallView, StepView};

/// Room for any step, which contracts see.
#[derive(Drop)]
pub struct StepBuffer {
    /// The step without its bytes.
    pub(crate) step: BriefStep,
    /// Where calls are read. Of the last one the bytes count, where the step is the call of a Store.
    pub(crate) call: CallBuffer,
}

impl Model for StepBuffer {
    ghost use Rattle.vk_base.specs.declared.step.Step.{Step as TheStep};
    ghost use Rattle.v_trace.specs.Buffers.{step_by};

    ghost Value = { TheStep };

    ghost view = { λ b. step_by b.call b.step };
}

impl StepBuffer {
    /// A take of this process, in room for any step.
    pub fn new(pid: Pid) -> Self
        ensures { result ≡ steps.Take pid }
    {
        StepBuffer {
            step: BriefStep::Take { pid },
            call: CallBuffer::new(),
        }
    }

    /// The step without its bytes, and the bytes of a Store.
    pub fn parts(&self) -> (BriefStep, &[u8])
        ensures step { self.now ≡ step_with result.1.now result.0 }
        ensures few { length result.1.now ≤ BYTES }
    {
        (self.step, bytes_of(&self.call))
    }

    /// The step, of which nothing is copied.
    pub fn view(&self) -> StepView<'_>
        ensures { result ≡ self.now }
    {
        StepView::new(&self.step, bytes_of(&self.call))
    }

    /// The step itself.
    pub fn whole(&self) -> Step
        ensures { result ≡ self.now }
    {
        match self.step {
            BriefStep::Call { pid, call } => Step::Call {
                pid,
                call: CallView::new(&call, bytes_of(&self.call)).whole(),
            },
            BriefStep::Arrive { sender, number } => Step::Arrive { sender, number },
            BriefStep::Take { pid } => Step::Take { pid },
            BriefStep::Finish { pid } => Step::Finish { pid },
            BriefStep::Fail { pid, why } => Step::Fail { pid, why },
            BriefStep::OpenMove {
                sender,
                number,
                moving,
            } => Step::OpenMove {
                sender,
                number,
                moving,
            },
            BriefStep::Copy {
                sender,
                number,
                moving,
                offset,
                count,
            } => Step::Copy {
                sender,
                number,
                moving,
                offset,
                count,
            },
            BriefStep::End { pid, why } => Step::End { pid, why },
            BriefStep::Hear { asker, number, pid } => Step::Hear { asker, number, pid },
            BriefStep::Found { asker, pid } => Step::Found { asker, pid },
            BriefStep::Lost { asker } => Step::Lost { asker },
            BriefStep::Collect { pid } => Step::Collect { pid },
        }
    }
}

/// The bytes of a Store.
fn bytes_of(call: &CallBuffer) -> &[u8]
    ensures bytes { result.now ≡ bytes_in call.now }
    ensures few { length result.now ≤ BYTES }
{
    let view = call.view();
    let (brief, bytes) = view.parts();
    match *brief {
        BriefCall::Store { .. } => bytes,
        _ => &[],
    }
}
