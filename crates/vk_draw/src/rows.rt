//! What is drawn of an event.

ghost use Rattle.std.specs.Prelude.{◌≡◌, map, IfOk};
ghost use Rattle.vk_draw.specs.Rows.{act_of, call_kind, partner_of, said_of, said_by, step_mark};

use std::alloc::Global;
use vk_base::{Answer, Call, EventAnswer, List, NoMemory, Pid};
use vk_brief::{BriefStep, StepView, Steps};
use vk_picture::{Act, CallKind, Said, StepKind, StepMark};
use vk_schedule::Event;

fn call_kind(call: &Call) -> CallKind
    ensures { result ≡ call_kind call.now }
{
    match call {
        Call::Send { .. } => CallKind::Send,
        Call::Receive => CallKind::Receive,
        Call::ReceiveSegment { .. } => CallKind::ReceiveSegment,
        Call::Reply { .. } => CallKind::Reply,
        Call::ReplySegment { .. } => CallKind::ReplySegment,
        Call::Forward { from, .. } => CallKind::Forward { from: *from },
        Call::MoveTo { .. } => CallKind::MoveTo,
        Call::MoveFrom { .. } => CallKind::MoveFrom,
        Call::SetPid { .. } => CallKind::SetPid,
        Call::GetPid { .. } => CallKind::GetPid,
        Call::Load { .. } => CallKind::Load,
        Call::Store { .. } => CallKind::Store,
        Call::Exit => CallKind::Exit,
    }
}

/// The process that a call names; of a Forward, the one that gets the message.
fn partner_of(call: &Call) -> Option<Pid>
    ensures { result ≡ partner_of call.now }
{
    match call {
        Call::Send { target, .. } => Some(*target),
        Call::Reply { to, .. } | Call::ReplySegment { to, .. } | Call::Forward { to, .. } => {
            Some(*to)
        }
        Call::MoveTo { partner, .. } | Call::MoveFrom { partner, .. } => Some(*partner),
        Call::SetPid { pid, .. } => Some(*pid),
        Call::Receive
        | Call::ReceiveSegment { .. }
        | Call::GetPid { .. }
        | Call::Load { .. }
        | Call::Store { .. }
        | Call::Exit => None,
    }
}

pub(crate) fn act_of(event: &Event) -> Act
    ensures { result ≡ act_of event.now }
{
    match event {
        Event::Call { pid, call } => Act::Call {
            pid: *pid,
            kind: call_kind(call),
            partner: partner_of(call),
        },
        Event::Collect { pid } => Act::Collect { pid: *pid },
        Event::Tick { host } => Act::Tick { host: *host },
        Event::Deliver {
            to,
            from,
            event,
            output,
        } => Act::Deliver {
            to: *to,
            from: *from,
            event: *event,
            output: *output,
        },
    }
}

fn said_by(answer: &Answer) -> Said
    ensures { result ≡ said_by answer.now }
{
    match answer {
        Answer::Refused { why } => Said::Refused { why: *why },
        Answer::Ok
        | Answer::Replied { .. }
        | Answer::Received { .. }
        | Answer::ReceivedSegment { .. }
        | Answer::Found { .. }
        | Answer::Loaded { .. } => Said::Ok,
    }
}

pub(crate) fn said_of(answer: &EventAnswer) -> Said
    ensures { result ≡ said_of answer.now }
{
    match answer {
        EventAnswer::Begun => Said::Begun,
        EventAnswer::Answered { answer } => said_by(answer),
        EventAnswer::Ticked { now } => Said::Now { tick: *now },
        EventAnswer::Taken => Said::Taken,
        EventAnswer::Old => Said::Old,
        EventAnswer::Bad => Said::Bad,
    }
}

fn mark(kind: StepKind, pid: Pid) -> StepMark
    ensures { result ≡ record { kind = kind; pid = pid } }
{
    StepMark { kind, pid }
}

fn step_mark(step: &StepView) -> StepMark
    ensures { result ≡ step_mark step.now }
{
    let (step, _) = step.parts();
    match *step {
        BriefStep::Call { pid, .. } => mark(StepKind::Call, pid),
        BriefStep::Arrive { sender, .. } => mark(StepKind::Arrive, sender),
        BriefStep::Take { pid } => mark(StepKind::Take, pid),
        BriefStep::Finish { pid } => mark(StepKind::Finish, pid),
        BriefStep::Fail { pid, .. } => mark(StepKind::Fail, pid),
        BriefStep::OpenMove { sender, .. } => mark(StepKind::OpenMove, sender),
        BriefStep::Copy { sender, .. } => mark(StepKind::Copy, sender),
        BriefStep::End { pid, .. } => mark(StepKind::End, pid),
        BriefStep::Hear { asker, .. } => mark(StepKind::Hear, asker),
        BriefStep::Found { asker, .. } => mark(StepKind::Found, asker),
        BriefStep::Lost { asker } => mark(StepKind::Lost, asker),
        BriefStep::Collect { pid } => mark(StepKind::Collect, pid),
    }
}

/// The steps, each as it is drawn.
pub(crate) fn step_marks(alloc: Global, steps: &Steps) -> Result<List<StepMark>, NoMemory>
    ensures { IfOk result (λ marks. marks ≡ map step_mark steps.now) }
{
    let mut marks = List::empty(alloc);
    for at in 0..steps.len() {
        marks.push(step_mark(&steps.get(at)))?;
    }
    Ok(marks)
}
