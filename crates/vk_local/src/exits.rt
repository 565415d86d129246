//! Exit.

ghost use Rattle.std.specs.Prelude.{◌≡◌, ◌<◌, ◌≤◌, ◌+◌, [], ℕ, true, length, Some};
ghost use Rattle.std.specs.List.{position};
ghost use Rattle.vk_base.specs.declared.limits.TheConstants.{POOL as ALIENS, STATION_PROCESSES, STEPS};
ghost use Rattle.vk_packet.specs.Rules.{is_number};
ghost use Rattle.vk_pool.specs.declared.alien.Alien.{Alien as TheAlien};
ghost use Rattle.vk_pool.specs.Aliens.{alien_at};
ghost use Rattle.vk_procs.specs.Seats.{is_seat, pids};
ghost use Rattle.vk_queue.specs.Lists.{with_list};
ghost use Rattle.vk_local.specs.Done.{IsExit};
ghost use Rattle.vk_local.specs.Exits.{emptied, is_left, left_in, left_of, left_slots, negatives, slots_left, told_left};
ghost use Rattle.vk_local.specs.Rules.{IsExitRule, may_call, whole_tables};
ghost use Rattle.vk_stands.specs.Rules.{posted};

use vk_base::limits::POOL;
use vk_base::{Call, Outcome, Pid};
use vk_brief::{BriefCall, BriefStep, Steps};
use vk_names::Names;
use vk_packet::{Outbox, PacketView};
use vk_pool::{Alien, AlienPool, AlienStage};
use vk_procs::Procs;
use vk_queue::Queues;

/// A Send of another station whose message was at a process that exits: to whom it was sent, by whom, and its number.
#[derive(Clone, Copy)]
pub struct Left {
    pub target: Pid,
    pub sender: Pid,
    pub number: u64,
}

fn is_left(alien: &Alien, pid: Pid) -> bool
    ensures { result ≡ is_left pid alien.now }
{
    alien.at == pid && matches!(alien.stage, AlienStage::Queued | AlienStage::Taken)
}

fn left_in(alien: &Alien, pid: Pid) -> Option<Left>
    ensures { result ≡ left_in pid alien.now }
{
    if is_left(alien, pid) {
        Some(Left {
            target: alien.target,
            sender: alien.sender,
            number: alien.number,
        })
    } else {
        None
    }
}

/// The Send of the alien in the slot, where its message waits at the process, or was taken by it.
fn left_at(aliens: &AlienPool, slot: u32, pid: Pid) -> Option<Left>
    ensures { result ≡ left_of pid (alien_at aliens.now slot) }
{
    let alien = aliens.alien(slot)?;
    left_in(alien, pid)
}

/// The alien in the slot is told that who had its message is gone, if that was this process.
fn leave_slot(aliens: &mut AlienPool, now: u64, out: &mut Outbox, pid: Pid, slot: u32)
    requires number { (a : TheAlien) → alien_at aliens.old slot ≡ Some a → is_number a.number ≡ true }
    requires room { length out.old.posts < out.old.room }
    ensures slots { aliens.new ≡ slots_left aliens.old slot now (left_of pid (alien_at aliens.old slot)) }
    ensures packets { out.new ≡ posted out.old (told_left (left_of pid (alien_at aliens.old slot))) }
{
    if let Some(left) = left_at(aliens, slot, pid) {
        aliens.refuse(slot, now);
        out.post(
            left.sender.host,
            &PacketView::Negative {
                from: left.target,
                to: left.sender,
                number: left.number,
            },
        );
    }
}

/// All aliens whose messages wait at the process, or were taken by it, are told that it is gone, in the order of slots.
fn leave_aliens(aliens: &mut AlienPool, now: u64, out: &mut Outbox, pid: Pid)
    requires numbers { (i : ℕ) (a : TheAlien) → alien_at aliens.old i ≡ Some a → is_number a.number ≡ true }
    requires few { length aliens.old ≤ ALIENS }
    requires room { length out.old.posts + ALIENS ≤ out.old.room }
    ensures slots { aliens.new ≡ left_slots pid now aliens.old }
    ensures packets { out.new ≡ posted out.old (negatives pid aliens.old) }
{
    for slot in 0..POOL {
        leave_slot(aliens, now, out, pid, slot);
    }
}

/// A list of the queues is empty.
fn empty(queues: &mut Queues, list: u32)
    requires { list < length queues.old.lists }
    ensures { queues.new ≡ with_list queues.old list [] }
{
    while let Some(_) = queues.pop_front(list) {}
}

/// The messages that wait at the process wait no longer.
fn empty_queue(procs: &Procs, queues: &mut Queues, pid: Pid)
    requires { length queues.old.lists ≡ STATION_PROCESSES }
    ensures lists { queues.new.lists ≡ emptied queues.old.lists (position (is_seat pid) procs.now) }
    ensures room { queues.new.slots ≡ queues.old.slots }
{
    if let Some(list) = procs.place(pid) {
        empty(queues, list);
    }
}

/// A process, which is alive and ready, exits at the tick `now`: whose message waits at it or was taken by it is told that it is gone,
/// those of other stations in the name of their Send's target, and its names are forgotten.
pub fn exit(
    procs: &mut Procs,
    names: &mut Names,
    queues: &mut Queues,
    aliens: &mut AlienPool,
    now: u64,
    out: &mut Outbox,
    steps: &mut Steps,
    pid: Pid,
) -> Option<Outcome>
    requires ready { may_call procs.old pid ≡ true }
    requires lists { length queues.old.lists ≡ STATION_PROCESSES }
    requires numbers { (i : ℕ) (a : TheAlien) → alien_at aliens.old i ≡ Some a → is_number a.number ≡ true }
    requires few { length aliens.old ≤ ALIENS }
    requires out { length out.old.posts + ALIENS ≤ out.old.room }
    requires steps { length steps.old < STEPS }
    ensures done { IsExit pid now result (whole_tables procs.old queues.old.lists aliens.old names.old)
        (whole_tables procs.new queues.new.lists aliens.new names.new) steps.old steps.new out.old out.new }
    ensures rule { IsExitRule pid now result (whole_tables procs.old queues.old.lists aliens.old names.old)
        (whole_tables procs.new queues.new.lists aliens.new names.new) steps.old steps.new out.old out.new }
    ensures pids { pids procs.new ≡ pids procs.old }
    ensures room { queues.new.slots ≡ queues.old.slots }
{
    steps.push(BriefStep::Call {
        pid,
        call: BriefCall::Exit,
    });
    names.forget(pid);
    empty_queue(procs, queues, pid);
    leave_aliens(aliens, now, out, pid);
    procs.leave(pid);
    procs.kill(pid);
    Some(Outcome::Ok)
}
