//! A Send to a process of the same station.

ghost use Rattle.std.specs.Prelude.{◌≡◌, ◌<◌, ◌≤◌, ◌+◌, length, true, Some};
ghost use Rattle.vk_base.specs.declared.limits.TheConstants.{STATION_EVENTS, STATION_PROCESSES, STEPS};
ghost use Rattle.vk_base.specs.Pids.{same_host};
ghost use Rattle.vk_procs.specs.declared.seat.Seat.{Seat as TheSeat};
ghost use Rattle.vk_procs.specs.Seats.{pids, seat_in};
ghost use Rattle.vk_local.specs.Calls.{queued, send_refusal, tables_of};
ghost use Rattle.vk_local.specs.Done.{IsSendDone};
ghost use Rattle.vk_local.specs.Rules.{IsTablesRule, may_call};

use crate::access::own_range;
use crate::serving::serve;
use vk_base::{Call, Message, Outcome, Pid, Refusal};
use vk_brief::{BriefCall, BriefStep, Steps};
use vk_pool::AlienPool;
use vk_procs::Procs;
use vk_queue::Queues;

/// Why the Send is refused.
fn send_refusal(procs: &Procs, pid: Pid, target: Pid, message: &Message) -> Option<Refusal>
    ensures { result ≡ send_refusal procs.now pid target message.now }
{
    let segment = message.grants().range;
    if !own_range(procs, pid, segment.start, segment.len) {
        Some(Refusal::BadSegment)
    } else if !procs.is_live(target) {
        Some(Refusal::NoProcess)
    } else {
        None
    }
}

/// The message of the process waits at this one, behind all others.
#[tactic(auto, unfolding(vk_queue::specs::Lists::requeued))]
pub fn enqueue(procs: &Procs, queues: &mut Queues, pid: Pid, target: Pid)
    requires lists { length queues.old.lists ≡ STATION_PROCESSES }
    requires slots { STATION_PROCESSES ≤ queues.old.slots }
    ensures lists { queues.new.lists ≡ queued procs.now queues.old.lists pid target }
    ensures room { queues.new.slots ≡ queues.old.slots }
{
    if let Some(list) = procs.place(target) {
        if let Some(slot) = procs.place(pid) {
            queues.requeue(list, slot);
        }
    }
}

/// A process, which is alive and ready, sends to one of its station, which takes the message now if it waits for one.
pub fn send(
    procs: &mut Procs,
    queues: &mut Queues,
    aliens: &mut AlienPool,
    steps: &mut Steps,
    pid: Pid,
    target: Pid,
    message: &Message,
) -> Option<Outcome>
    requires near { same_host pid target ≡ true }
    requires ready { may_call procs.old pid ≡ true }
    requires few { (s : TheSeat) → seat_in procs.old pid ≡ Some s → s.note.sends < STATION_EVENTS }
    requires lists { length queues.old.lists ≡ STATION_PROCESSES }
    requires slots { STATION_PROCESSES ≤ queues.old.slots }
    requires room { length steps.old + 2 ≤ STEPS }
    ensures done { IsSendDone pid target message.now result (tables_of procs.old queues.old.lists aliens.old)
        (tables_of procs.new queues.new.lists aliens.new) steps.old steps.new }
    ensures rule { IsTablesRule pid (Call.Send target message.now) result (tables_of procs.old queues.old.lists aliens.old)
        (tables_of procs.new queues.new.lists aliens.new) steps.old steps.new }
    ensures pids { pids procs.new ≡ pids procs.old }
    ensures room { queues.new.slots ≡ queues.old.slots }
{
    steps.push(BriefStep::Call {
        pid,
        call: BriefCall::Send {
            target,
            message: *message,
        },
    });
    if let Some(why) = send_refusal(procs, pid, target, message) {
        return Some(Outcome::Refused { why });
    }
    procs.begin_send(pid, target, message);
    enqueue(procs, queues, pid, target);
    serve(procs, queues, aliens, steps, target);
    None
}
