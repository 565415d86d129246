//! A message of a process of another station is handed on.

ghost use Rattle.std.specs.Prelude.{◌≡◌, ◌≤◌, ◌+◌, length};
ghost use Rattle.vk_base.specs.declared.limits.TheConstants.{POOL, STATION_PROCESSES as PROCESSES};
ghost use Rattle.vk_remote.specs.Forwards.{forward_refusal, forwarded};
ghost use Rattle.vk_remote.specs.Played.{tables_of};

use crate::replies::is_holding;
use crate::take::line_up;
use vk_base::limits::STATION_PROCESSES;
use vk_base::{Message, Pid, Refusal};
use vk_pool::AlienPool;
use vk_procs::Procs;
use vk_queue::Queues;

/// Why the Forward is refused.
pub fn forward_refusal(
    procs: &Procs,
    aliens: &AlienPool,
    pid: Pid,
    from: Pid,
    to: Pid,
) -> Option<Refusal>
    ensures { result ≡ forward_refusal procs.now aliens.now pid from to }
{
    if !is_holding(aliens, pid, from) {
        Some(Refusal::NotAwaiting)
    } else if !procs.is_live(to) {
        Some(Refusal::NoProcess)
    } else {
        None
    }
}

/// The message of the sender's alien waits anew.
pub fn move_on(
    procs: &Procs,
    queues: &mut Queues,
    aliens: &mut AlienPool,
    from: Pid,
    message: &Message,
    to: Pid,
)
    requires lists { length queues.old.lists ≡ PROCESSES }
    requires slots { queues.old.slots ≡ PROCESSES + length aliens.old }
    requires pool { length aliens.old ≤ POOL }
    ensures lists { queues.new.lists ≡ (forwarded (tables_of procs.now queues.old.lists aliens.old) from message.now to).lists }
    ensures slots { aliens.new ≡ (forwarded (tables_of procs.now queues.old.lists aliens.old) from message.now to).slots }
    ensures all { length queues.new.lists ≡ PROCESSES }
    ensures places { queues.new.slots ≡ queues.old.slots }
{
    if let Some(slot) = aliens.find(from) {
        line_up(procs, queues, to, STATION_PROCESSES as u32 + slot);
        aliens.forward(slot, message, to);
    }
}
