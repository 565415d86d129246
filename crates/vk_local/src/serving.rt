//! A process that waits for a message takes the first that waits at it.

ghost use Rattle.std.specs.Prelude.{◌≡◌, ◌<◌, ◌-◌, ◌++◌, length, is_some, slice_get, Some};
ghost use Rattle.std.specs.List.{position};
ghost use Rattle.vk_base.specs.declared.limits.TheConstants.{STATION_PROCESSES as PROCESSES, STEPS};
ghost use Rattle.vk_pool.specs.Aliens.{alien_at, changed_at, taken};
ghost use Rattle.vk_procs.specs.Seats.{is_seat, pids, receive_of};
ghost use Rattle.vk_local.specs.Takes.{alien_taken, front_of, local_taken, seats_at, served_lists, served_seats, served_slots, served_steps, slots_at};

use vk_base::Pid;
use vk_base::limits::STATION_PROCESSES;
use vk_brief::{BriefStep, Steps};
use vk_pool::AlienPool;
use vk_procs::{Passed, Procs};
use vk_queue::Queues;

/// The message of the station's process in this place is taken, as it is shown now.
fn take_local(procs: &mut Procs, pid: Pid, place: u32)
    ensures { procs.new ≡ local_taken procs.old pid (slice_get procs.old place) }
{
    let Some(seat) = procs.seat_at(place) else {
        return;
    };
    let from = seat.pid;
    let message = seat.shown;
    procs.mark_taken(from);
    procs.pass(from, pid, Passed::Message { message });
}

/// The message of the alien in this slot reaches the process.
fn reach_from(procs: &mut Procs, aliens: &AlienPool, pid: Pid, slot: u32)
    ensures { procs.new ≡ alien_taken procs.old pid (alien_at aliens.now slot) }
{
    if let Some(alien) = aliens.alien(slot) {
        procs.reach(pid, alien.sender, &alien.shown, alien.part.as_slice());
    }
}

/// What stands at a slot of the queues is taken.
fn take_slot(procs: &mut Procs, aliens: &mut AlienPool, pid: Pid, slot: u32)
    ensures seats { procs.new ≡ seats_at procs.old aliens.old pid slot }
    ensures slots { aliens.new ≡ slots_at aliens.old slot }
{
    if slot < STATION_PROCESSES as u32 {
        take_local(procs, pid, slot);
    } else {
        reach_from(procs, aliens, pid, slot - STATION_PROCESSES as u32);
        aliens.take(slot - STATION_PROCESSES as u32);
    }
}

/// Whether the process in this place waits for a message.
fn waits_at(procs: &Procs, at: u32) -> bool
    ensures { result ≡ is_some (receive_of (slice_get procs.now at)) }
{
    match procs.seat_at(at) {
        Some(seat) => seat.doing.receiving().is_some(),
        None => false,
    }
}

/// The slot of the message that the process takes now, which is out of its list then.
fn take_front(procs: &Procs, queues: &mut Queues, pid: Pid) -> Option<u32>
    requires { length queues.old.lists ≡ PROCESSES }
    ensures front { result ≡ front_of procs.now queues.old.lists pid }
    ensures lists { queues.new.lists ≡ served_lists procs.now queues.old.lists pid result }
    ensures slots { queues.new.slots ≡ queues.old.slots }
{
    let list = procs.place(pid)?;
    if !waits_at(procs, list) {
        return None;
    }
    queues.pop_front(list)
}

/// A process that waits for a message takes the first that waits at it, of its own station or of another; true exactly where
/// there was one.
pub fn serve(
    procs: &mut Procs,
    queues: &mut Queues,
    aliens: &mut AlienPool,
    steps: &mut Steps,
    pid: Pid,
) -> bool
    requires lists { length queues.old.lists ≡ PROCESSES }
    requires room { length steps.old < STEPS }
    ensures seats { procs.new ≡ served_seats procs.old aliens.old pid (front_of procs.old queues.old.lists pid) }
    ensures lists { queues.new.lists ≡ served_lists procs.old queues.old.lists pid (front_of procs.old queues.old.lists pid) }
    ensures slots { aliens.new ≡ served_slots aliens.old (front_of procs.old queues.old.lists pid) }
    ensures steps { steps.new ≡ steps.old ++ served_steps pid (front_of procs.old queues.old.lists pid) }
    ensures took { result ≡ is_some (front_of procs.old queues.old.lists pid) }
    ensures room { queues.new.slots ≡ queues.old.slots }
    ensures pids { pids procs.new ≡ pids procs.old }
{
    match take_front(procs, queues, pid) {
        Some(slot) => {
            take_slot(procs, aliens, pid, slot);
            steps.push(BriefStep::Take { pid });
            true
        }
        None => false,
    }
}
