//! Receive and ReceiveSegment.

ghost use Rattle.std.specs.Prelude.{◌≡◌, ◌<◌, ◌≤◌, ◌+◌, ◌++◌, ◌∷◌, [], length, true, Some};
ghost use Rattle.vk_base.specs.Activities.{as_receive, call_of};
ghost use Rattle.vk_base.specs.declared.limits.TheConstants.{STATION_PROCESSES, STEPS};
ghost use Rattle.vk_procs.specs.Seats.{pids};
ghost use Rattle.vk_local.specs.Calls.{receive_refusal, tables_of};
ghost use Rattle.vk_local.specs.Done.{IsReceive};
ghost use Rattle.vk_local.specs.Rules.{IsTablesRule, may_call};

use crate::access::own_range;
use crate::serving::serve;
use vk_base::{Call, Outcome, Pid, Refusal, Step, Waiting};
use vk_brief::{BriefCall, BriefStep, Steps};
use vk_pool::AlienPool;
use vk_procs::Procs;
use vk_queue::Queues;

/// Why the receive is refused.
fn receive_refusal(procs: &Procs, pid: Pid, waiting: Waiting) -> Option<Refusal>
    ensures { result ≡ receive_refusal procs.now pid waiting }
{
    match waiting {
        Waiting::ReceiveSegment { start, count } if !own_range(procs, pid, start, count) => {
            Some(Refusal::BadRange)
        }
        _ => None,
    }
}

/// The step of a receive.
fn push_receive(steps: &mut Steps, pid: Pid, waiting: Waiting)
    requires receive { as_receive waiting ≡ Some waiting }
    requires room { length steps.old < STEPS }
    ensures { steps.new ≡ steps.old ++ Step.Call pid (call_of waiting) ∷ [] }
{
    match waiting {
        Waiting::Receive => steps.push(BriefStep::Call {
            pid,
            call: BriefCall::Receive,
        }),
        Waiting::ReceiveSegment { start, count } => steps.push(BriefStep::Call {
            pid,
            call: BriefCall::ReceiveSegment { start, count },
        }),
        _ => unreachable!(),
    }
}

/// A process, which is alive and ready, waits for a message: this is its receive. It takes the first message that waits at it.
#[inline(always)]
pub fn receive(
    procs: &mut Procs,
    queues: &mut Queues,
    aliens: &mut AlienPool,
    steps: &mut Steps,
    pid: Pid,
    waiting: Waiting,
) -> Option<Outcome>
    requires receive { as_receive waiting ≡ Some waiting }
    requires ready { may_call procs.old pid ≡ true }
    requires lists { length queues.old.lists ≡ STATION_PROCESSES }
    requires room { length steps.old + 2 ≤ STEPS }
    ensures done { IsReceive pid waiting result (tables_of procs.old queues.old.lists aliens.old)
        (tables_of procs.new queues.new.lists aliens.new) steps.old steps.new }
    ensures rule { IsTablesRule pid (call_of waiting) result (tables_of procs.old queues.old.lists aliens.old)
        (tables_of procs.new queues.new.lists aliens.new) steps.old steps.new }
    ensures pids { pids procs.new ≡ pids procs.old }
    ensures room { queues.new.slots ≡ queues.old.slots }
{
    push_receive(steps, pid, waiting);
    if let Some(why) = receive_refusal(procs, pid, waiting) {
        return Some(Outcome::Refused { why });
    }
    procs.wait(pid, waiting);
    serve(procs, queues, aliens, steps, pid);
    None
}
