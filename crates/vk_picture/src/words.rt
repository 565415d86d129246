//! Words of the labels.

ghost use Rattle.std.specs.Prelude.{◌≡◌};
ghost use Rattle.vk_picture.specs.Words.{call_word, handed_from, step_word};

use crate::picture::{CallKind, StepKind};
use vk_base::Pid;

/// As the call is spelled in a schedule.
pub(crate) fn call_word(kind: CallKind) -> &'static [u8]
    ensures { result.now ≡ call_word kind }
{
    match kind {
        CallKind::Send => b"send",
        CallKind::Receive => b"receive",
        CallKind::ReceiveSegment => b"receivesegment",
        CallKind::Reply => b"reply",
        CallKind::ReplySegment => b"replysegment",
        CallKind::Forward { .. } => b"forward",
        CallKind::MoveTo => b"moveto",
        CallKind::MoveFrom => b"movefrom",
        CallKind::SetPid => b"setpid",
        CallKind::GetPid => b"getpid",
        CallKind::Load => b"load",
        CallKind::Store => b"store",
        CallKind::Exit => b"exit",
    }
}

/// Whose message the call hands on, where it hands one on.
pub(crate) fn handed_from(kind: CallKind) -> Option<Pid>
    ensures { result ≡ handed_from kind }
{
    match kind {
        CallKind::Forward { from } => Some(from),
        _ => None,
    }
}

/// As the step is spelled in a trace.
pub(crate) fn step_word(kind: StepKind) -> &'static [u8]
    ensures { result.now ≡ step_word kind }
{
    match kind {
        StepKind::Call => b"call",
        StepKind::Arrive => b"arrive",
        StepKind::Take => b"take",
        StepKind::Finish => b"finish",
        StepKind::Fail => b"fail",
        StepKind::OpenMove => b"open",
        StepKind::Copy => b"copy",
        StepKind::End => b"end",
        StepKind::Hear => b"hear",
        StepKind::Found => b"found",
        StepKind::Lost => b"lost",
        StepKind::Collect => b"collect",
    }
}
