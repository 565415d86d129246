//! What a process does, from event to event.

ghost use Rattle.std.specs.Prelude.{◌≡◌};
ghost use Rattle.vk_picture.specs.Lanes.{waiting, is_bereft, after_exit, after_forward, after_call, after_act, after_kind, after_step, after_steps, turn_of, activity_word};

use crate::picture::{Act, CallKind, EventRow, Said, StepKind, StepMark};
use vk_base::Pid;

/// What a process does.
#[derive(Clone, Copy, Debug, PartialEq, Eq)]
pub(crate) enum Activity {
    Ready,
    /// It waits in a Send, whose message this process has.
    Sending { target: Pid },
    /// It waits in another call.
    Waiting,
    /// Its call has ended, and the answer is not collected.
    Done,
    Dead,
}

pub(crate) fn activity_word(activity: Activity) -> &'static [u8]
    ensures { result.now ≡ activity_word activity }
{
    match activity {
        Activity::Ready => b"ready",
        Activity::Sending { .. } | Activity::Waiting => b"blocked",
        Activity::Done => b"done",
        Activity::Dead => b"dead",
    }
}

fn waiting(kind: CallKind, partner: Option<Pid>) -> Activity
    ensures { result ≡ waiting kind partner }
{
    match (kind, partner) {
        (CallKind::Send, Some(target)) => Activity::Sending { target },
        _ => Activity::Waiting,
    }
}

/// Whether the process waits in a Send to this one of its station, which exits.
fn is_bereft(pid: Pid, activity: Activity, gone: Pid) -> bool
    ensures { result ≡ is_bereft pid activity gone }
{
    match activity {
        Activity::Sending { target } => target == gone && pid.host == gone.host,
        _ => false,
    }
}

fn after_exit(pid: Pid, activity: Activity, gone: Pid) -> Option<Activity>
    ensures { result ≡ after_exit pid activity gone }
{
    if pid == gone {
        Some(Activity::Dead)
    } else if is_bereft(pid, activity, gone) {
        Some(Activity::Done)
    } else {
        None
    }
}

/// What a Forward by `caller` of the message of `from` makes of the process.
fn after_forward(pid: Pid, caller: Pid, from: Pid, partner: Option<Pid>) -> Option<Activity>
    ensures { result ≡ after_forward pid caller from partner }
{
    let target = partner?;
    if pid == from && pid.host == caller.host {
        Some(Activity::Sending { target })
    } else {
        None
    }
}

/// What a call of `caller` makes of the process.
fn after_call(
    pid: Pid,
    activity: Activity,
    caller: Pid,
    kind: CallKind,
    partner: Option<Pid>,
    said: Said,
) -> Option<Activity>
    ensures { result ≡ after_call pid activity caller kind partner said }
{
    match (said, kind) {
        (Said::Begun, _) => {
            if pid == caller {
                Some(waiting(kind, partner))
            } else {
                None
            }
        }
        (Said::Ok, CallKind::Exit) => after_exit(pid, activity, caller),
        (Said::Ok, CallKind::Forward { from }) => after_forward(pid, caller, from, partner),
        _ => None,
    }
}

fn after_act(pid: Pid, activity: Activity, act: Act, said: Said) -> Option<Activity>
    ensures { result ≡ after_act pid activity act said }
{
    match act {
        Act::Call {
            pid: caller,
            kind,
            partner,
        } => after_call(pid, activity, caller, kind, partner, said),
        _ => None,
    }
}

fn after_kind(kind: StepKind) -> Option<Activity>
    ensures { result ≡ after_kind kind }
{
    match kind {
        StepKind::Take
        | StepKind::Finish
        | StepKind::Fail
        | StepKind::End
        | StepKind::Found
        | StepKind::Lost => Some(Activity::Done),
        StepKind::Collect => Some(Activity::Ready),
        StepKind::Call | StepKind::Arrive | StepKind::OpenMove | StepKind::Copy | StepKind::Hear =>
            None,
    }
}

fn after_step(pid: Pid, step: StepMark) -> Option<Activity>
    ensures { result ≡ after_step pid step }
{
    if pid == step.pid {
        after_kind(step.kind)
    } else {
        None
    }
}

/// What the first of the steps that concerns it makes of the process.
fn after_steps(pid: Pid, steps: &[StepMark]) -> Option<Activity>
    ensures { result ≡ after_steps pid steps.now }
{
    for step in steps {
        if let Some(activity) = after_step(pid, *step) {
            return Some(activity);
        }
    }
    None
}

/// What an event makes of a process, where it makes anything of it.
pub(crate) fn turn_of(pid: Pid, activity: Activity, row: &EventRow) -> Option<Activity>
    ensures { result ≡ turn_of pid activity row.now }
{
    match after_steps(pid, row.steps.as_slice()) {
        Some(activity) => Some(activity),
        None => after_act(pid, activity, row.act, row.said),
    }
}
