//! A message of a process of the same station is handed on.

ghost use Rattle.std.specs.Prelude.{◌≡◌, ◌≤◌, ◌+◌, true, length};
ghost use Rattle.vk_base.specs.declared.limits.TheConstants.{STATION_PROCESSES, STEPS};
ghost use Rattle.vk_base.specs.Pids.{same_host};
ghost use Rattle.vk_procs.specs.Seats.{pids};
ghost use Rattle.vk_local.specs.Calls.{forward_refusal, tables_of};
ghost use Rattle.vk_local.specs.Done.{IsForward};
ghost use Rattle.vk_local.specs.Rules.{IsTablesRule, may_call};

use crate::access::not_awaiting;
use crate::sends::enqueue;
use crate::serving::serve;
use vk_base::{Call, Message, Outcome, Pid, Refusal};
use vk_brief::{BriefCall, BriefStep, Steps};
use vk_pool::AlienPool;
use vk_procs::Procs;
use vk_queue::Queues;

/// Why the Forward is refused.
fn forward_refusal(procs: &Procs, pid: Pid, from: Pid, to: Pid) -> Option<Refusal>
    ensures { result ≡ forward_refusal procs.now pid from to }
{
    if let Some(why) = not_awaiting(procs, pid, from) {
        Some(why)
    } else if !procs.is_live(to) {
        Some(Refusal::NoProcess)
    } else {
        None
    }
}

/// A process, which is alive and ready, hands the message that it has taken of another one of its station on to a third, which is shown
/// this message, behind all that wait there; it is taken now if that process waits for one. Any of the three may be the same. It is
/// refused where the caller holds no message of `from`, else where `to` is no live process of the station.
pub fn forward(
    procs: &mut Procs,
    queues: &mut Queues,
    aliens: &mut AlienPool,
    steps: &mut Steps,
    pid: Pid,
    message: &Message,
    from: Pid,
    to: Pid,
) -> Option<Outcome>
    requires near { same_host pid from ≡ true }
    requires ready { may_call procs.old pid ≡ true }
    requires lists { length queues.old.lists ≡ STATION_PROCESSES }
    requires slots { STATION_PROCESSES ≤ queues.old.slots }
    requires room { length steps.old + 2 ≤ STEPS }
    ensures done { IsForward pid from message.now to result (tables_of procs.old queues.old.lists aliens.old)
        (tables_of procs.new queues.new.lists aliens.new) steps.old steps.new }
    ensures rule { IsTablesRule pid (Call.Forward message.now from to) result (tables_of procs.old queues.old.lists aliens.old)
        (tables_of procs.new queues.new.lists aliens.new) steps.old steps.new }
    ensures pids { pids procs.new ≡ pids procs.old }
    ensures room { queues.new.slots ≡ queues.old.slots }
{
    steps.push(BriefStep::Call {
        pid,
        call: BriefCall::Forward {
            message: *message,
            from,
            to,
        },
    });
    if let Some(why) = forward_refusal(procs, pid, from, to) {
        return Some(Outcome::Refused { why });
    }
    procs.forward(from, message, to);
    enqueue(procs, queues, from, to);
    serve(procs, queues, aliens, steps, to);
    Some(Outcome::Ok)
}
