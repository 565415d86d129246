//! What a call is answered when it is made.

ghost use Rattle.std.specs.Prelude.{◌≡◌, Ok};
ghost use Rattle.v_machine.specs.Rules.{seen_by};

use crate::refusal::ApplyRefusal;
use vk_base::{Answer, Observation, Pid, Refusal};
use vk_brief::CallView;

/// What a call is answered when it is made, but for bytes.
#[derive(Clone, Copy)]
pub enum Response {
    Begun,
    Ok,
    Found { pid: Pid },
    Refused { why: Refusal },
}

/// What the process sees of its call, as a step's result. It is put into its callers, so that whoever drops what is seen does not
/// pay for its making.
#[inline(always)]
pub fn observation(
    pid: Pid,
    call: &CallView,
    response: Response,
) -> Result<Option<Observation>, ApplyRefusal>
    ensures { result ≡ Ok (seen_by pid call.now response) }
{
    let answer = match response {
        Response::Begun => return Ok(None),
        Response::Ok => Answer::Ok,
        Response::Found { pid } => Answer::Found { pid },
        Response::Refused { why } => Answer::Refused { why },
    };
    Ok(Some(Observation {
        pid,
        call: call.whole(),
        answer,
    }))
}
