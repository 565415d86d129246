//! What is in the way of the steps of remote moves and of lookups, and of a collect.

ghost use Rattle.std.specs.Prelude.{◌≡◌, is_none, not};
ghost use Rattle.std.specs.List.{list_any};
ghost use Rattle.std.specs.Result.{result_err};
ghost use Rattle.vk_base.specs.Kernel.{waiting_on};
ghost use Rattle.vk_base.specs.Pids.{same_pid};
ghost use Rattle.v_obstacle.specs.Obstacles.{collect_check, copy_check, end_check, ending_check, found_check, hear_check, open_check, told, written_at};
ghost use Rattle.vk_why.specs.Kept.{kept_kernel};

use crate::places::{
    asker_at, exchange_at, lookup_at, move_at, mover_at, otherwise, process_at, sender_check,
};
use v_machine::LeanMachine;
use v_obstacle::{Obstacle, Wanted};
use vk_base::{Direction, Ending, Lookup, Move, MoveName, Name, Pid};

pub(crate) fn open_check(machine: &LeanMachine, name: Name, moving: u64) -> Result<(), Obstacle>
    ensures { told (open_check (kept_kernel machine.now) name moving) ≡ result_err result }
{
    sender_check(machine, name)?;
    let sent = exchange_at(machine, name)?;
    let opened = sent.opened();
    if moving <= opened {
        return Err(Obstacle::OpenedBefore {
            name,
            moving,
            opened,
        });
    }
    let _begun = move_at(name, sent, moving)?;
    Ok(())
}

/// The process that the bytes of a move are written to is there for them.
fn written_check(
    machine: &LeanMachine,
    name: Name,
    moving: u64,
    begun: &Move,
) -> Result<(), Obstacle>
    ensures { told (written_at (kept_kernel machine.now) name moving begun.now.mover begun.now.direction) ≡ result_err result }
{
    match begun.direction {
        Direction::To => sender_check(machine, name),
        Direction::From => in_move_check(machine, name, moving, begun.mover),
    }
}

/// The process is blocked in this move.
fn in_move_check(machine: &LeanMachine, name: Name, moving: u64, pid: Pid) -> Result<(), Obstacle>
    ensures { told (written_at (kept_kernel machine.now) name moving pid Direction.From) ≡ result_err result }
{
    let mover = mover_at(machine, pid)?;
    let own = MoveName {
        exchange: name,
        number: moving,
    };
    if mover.moving != Some(own) {
        return Err(Obstacle::OtherMove {
            pid,
            moving: mover.moving,
        });
    }
    Ok(())
}

pub(crate) fn copy_check(
    machine: &LeanMachine,
    name: Name,
    moving: u64,
    offset: u32,
    count: u32,
) -> Result<(), Obstacle>
    ensures { told (copy_check (kept_kernel machine.now) name moving offset count) ≡ result_err result }
{
    let sent = exchange_at(machine, name)?;
    let begun = move_at(name, sent, moving)?;
    let opened = sent.opened();
    if opened != moving {
        return Err(Obstacle::NotOpen {
            name,
            moving,
            opened,
        });
    }
    let done = sent.done();
    if done != offset {
        return Err(Obstacle::OtherOffset { name, offset, done });
    }
    if count == 0 {
        return Err(Obstacle::NoBytes);
    }
    if u64::from(offset) + u64::from(count) > u64::from(begun.count) {
        return Err(Obstacle::TooManyBytes {
            name,
            moving,
            offset,
            count,
            whole: begun.count,
        });
    }
    written_check(machine, name, moving, begun)
}

/// The move is the open one, and all its bytes are done.
fn complete_check(machine: &LeanMachine, own: MoveName) -> Result<(), Obstacle>
    ensures { told (ending_check (kept_kernel machine.now) own Ending.Ok) ≡ result_err result }
{
    let name = own.exchange;
    let moving = own.number;
    let sent = exchange_at(machine, name)?;
    let opened = sent.opened();
    if opened != moving {
        return Err(Obstacle::NotOpen {
            name,
            moving,
            opened,
        });
    }
    let begun = move_at(name, sent, moving)?;
    let done = sent.done();
    if done != begun.count {
        return Err(Obstacle::Incomplete {
            name,
            moving,
            done,
            whole: begun.count,
        });
    }
    Ok(())
}

/// Whether the sender waits on the exchange.
fn is_waited_on(machine: &LeanMachine, name: Name) -> bool
    ensures { is_none (waiting_on (kept_kernel machine.now) name) ≡ not result }
{
    sender_check(machine, name).is_ok()
}

/// Whether the move may end so.
fn ending_check(machine: &LeanMachine, own: MoveName, why: Ending) -> Result<(), Obstacle>
    ensures { told (ending_check (kept_kernel machine.now) own why) ≡ result_err result }
{
    match why {
        Ending::Ok => complete_check(machine, own),
        Ending::Gone => {
            if is_waited_on(machine, own.exchange) {
                return Err(Obstacle::StillWaits { name: own.exchange });
            }
            Ok(())
        }
        Ending::TimedOut => Ok(()),
        Ending::NoProcess => Err(Obstacle::NoSuchEnding { why }),
    }
}

pub(crate) fn end_check(machine: &LeanMachine, pid: Pid, why: Ending) -> Result<(), Obstacle>
    ensures { told (end_check (kept_kernel machine.now) pid why) ≡ result_err result }
{
    let mover = mover_at(machine, pid)?;
    match mover.moving {
        Some(own) => ending_check(machine, own, why),
        None => Err(Obstacle::OtherMove { pid, moving: None }),
    }
}

#[tactic(auto, unfolding(v_machine::specs::Spent::current_kernel))]
pub(crate) fn hear_check(
    machine: &LeanMachine,
    asker: Pid,
    number: u64,
    pid: Pid,
) -> Result<(), Obstacle>
    ensures { told (hear_check (kept_kernel machine.now) asker number pid) ≡ result_err result }
{
    let lookup = lookup_at(machine, asker, number)?;
    if asker.host == pid.host {
        return Err(Obstacle::OneStation {
            pid: asker,
            other: pid,
        });
    }
    let logical = lookup.logical;
    if !machine.is_told(logical, pid) {
        return Err(Obstacle::NotTold { logical, pid });
    }
    Ok(())
}

/// Whether the process was told for the lookup.
fn is_heard(lookup: &Lookup, pid: Pid) -> bool
    ensures { result ≡ list_any (same_pid pid) lookup.now.candidates }
{
    lookup.candidates.as_slice().iter().any(|p| pid == *p)
}

pub(crate) fn found_check(machine: &LeanMachine, asker: Pid, pid: Pid) -> Result<(), Obstacle>
    ensures { told (found_check (kept_kernel machine.now) asker pid) ≡ result_err result }
{
    let process = asker_at(machine, asker)?;
    let number = process.lookups;
    let lookup = lookup_at(machine, asker, number)?;
    if !is_heard(lookup, pid) {
        return Err(Obstacle::NotHeard { asker, number, pid });
    }
    Ok(())
}

pub(crate) fn collect_check(machine: &LeanMachine, pid: Pid) -> Result<(), Obstacle>
    ensures { told (collect_check (kept_kernel machine.now) pid) ≡ result_err result }
{
    let process = process_at(machine, pid)?;
    match process.activity.finished() {
        Some(_) => Ok(()),
        None => Err(otherwise(Wanted::Done, pid, &process)),
    }
}
