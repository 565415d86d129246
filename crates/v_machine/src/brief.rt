//! A step in few bytes.

ghost use Rattle.std.specs.Prelude.{◌≡◌, ◌≤◌, length};
ghost use Rattle.vk_base.specs.declared.limits.TheConstants.{DATA_BYTES};
ghost use Rattle.vk_brief.specs.Brief.{step_with};

use vk_base::Step;
use vk_brief::{BriefCall, BriefStep};

/// The step without its bytes, and the bytes of a Store.
pub fn brief_of(step: &Step) -> (BriefStep, &[u8])
    ensures step { step.now ≡ step_with result.1.now result.0 }
    ensures few { length result.1.now ≤ DATA_BYTES }
{
    let brief = match *step {
        Step::Call { pid, ref call } => {
            let (call, bytes) = BriefCall::of(call);
            return (BriefStep::Call { pid, call }, bytes);
        }
        Step::Arrive { sender, number } => BriefStep::Arrive { sender, number },
        Step::Take { pid } => BriefStep::Take { pid },
        Step::Finish { pid } => BriefStep::Finish { pid },
        Step::Fail { pid, why } => BriefStep::Fail { pid, why },
        Step::OpenMove {
            sender,
            number,
            moving,
        } => BriefStep::OpenMove {
            sender,
            number,
            moving,
        },
        Step::Copy {
            sender,
            number,
            moving,
            offset,
            count,
        } => BriefStep::Copy {
            sender,
            number,
            moving,
            offset,
            count,
        },
        Step::End { pid, why } => BriefStep::End { pid, why },
        Step::Hear { asker, number, pid } => BriefStep::Hear { asker, number, pid },
        Step::Found { asker, pid } => BriefStep::Found { asker, pid },
        Step::Lost { asker } => BriefStep::Lost { asker },
        Step::Collect { pid } => BriefStep::Collect { pid },
    };
    (brief, &[])
}
