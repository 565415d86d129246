//! What is in the way of the steps of messages: Arrive, Take, Finish and Fail.

ghost use Rattle.std.specs.Prelude.{◌≡◌, true, is_some, Err, IfOk, IfErr};
ghost use Rattle.std.specs.Result.{result_err};
ghost use Rattle.vk_types.specs.Types.{Exchange, Name as TheName};
ghost use Rattle.vk_base.specs.Pids.{same_host};
ghost use Rattle.v_obstacle.specs.Obstacles.{Finds, arrive_check, fail_check, failure_check, finish_check, take_check, told};
ghost use Rattle.vk_why.specs.Kept.{kept_kernel, with_own_send};

use crate::places::{exchange_at, is_live, otherwise, process_at, sending_at, standing_of};
use v_machine::{LeanMachine, Sent};
use v_obstacle::{Obstacle, Wanted};
use vk_base::{Ending, Name, Pid};

pub(crate) fn arrive_check(machine: &LeanMachine, name: Name) -> Result<(), Obstacle>
    ensures { told (arrive_check (kept_kernel machine.now) name) ≡ result_err result }
{
    let sent = exchange_at(machine, name)?;
    if !sent.is_posted() {
        return Err(Obstacle::NotPosted {
            name,
            at: sent.at(),
            standing: standing_of(sent),
        });
    }
    if !is_live(machine, sent.target()) {
        return Err(Obstacle::DeadTarget {
            name,
            target: sent.target(),
        });
    }
    Ok(())
}

/// Where the process is blocked in a receive, and the step is refused, nothing waits in its queue.
pub(crate) fn take_check(machine: &LeanMachine, pid: Pid) -> Result<(), Obstacle>
    ensures { is_some (told (take_check (kept_kernel machine.now) pid)) ≡ true → told (take_check (kept_kernel machine.now) pid) ≡ result_err result }
{
    let process = process_at(machine, pid)?;
    match process.activity.receiving() {
        Some(_) => Err(Obstacle::NothingQueued { pid }),
        None => Err(otherwise(Wanted::Receiving, pid, &process)),
    }
}

/// The Send that the process waits in, with its name.
fn own_send(machine: &LeanMachine, pid: Pid) -> Result<(Name, &Sent), Obstacle>
    ensures ok { IfOk result (λ own. (f : TheName → Exchange → Finds Exchange) →
        with_own_send (kept_kernel machine.now) pid f ≡ f own.0 own.1.now) }
    ensures err { IfErr result (λ why. (f : TheName → Exchange → Finds Exchange) →
        with_own_send (kept_kernel machine.now) pid f ≡ Err why) }
{
    let process = sending_at(machine, pid)?;
    let name = Name {
        sender: pid,
        number: process.sends,
    };
    let sent = exchange_at(machine, name)?;
    Ok((name, sent))
}

pub(crate) fn finish_check(machine: &LeanMachine, pid: Pid) -> Result<(), Obstacle>
    ensures { told (finish_check (kept_kernel machine.now) pid) ≡ result_err result }
{
    let (name, sent) = own_send(machine, pid)?;
    match sent.replied() {
        Some(_) => Ok(()),
        None => Err(Obstacle::NotReplied {
            name,
            at: sent.at(),
            standing: standing_of(sent),
        }),
    }
}

/// Whether the Send of this name may fail so.
fn failure_check(
    machine: &LeanMachine,
    name: Name,
    sent: &Sent,
    why: Ending,
) -> Result<(), Obstacle>
    ensures { told (failure_check (kept_kernel machine.now) name sent.now why) ≡ result_err result }
{
    match why {
        Ending::TimedOut => Ok(()),
        Ending::NoProcess => {
            if is_live(machine, sent.at()) {
                return Err(Obstacle::Alive {
                    name,
                    at: sent.at(),
                });
            }
            Ok(())
        }
        Ending::Ok => Err(Obstacle::NoSuchEnding { why }),
        Ending::Gone => Err(Obstacle::NoSuchEnding { why }),
    }
}

/// Whether both live on one station.
fn live_together(pid: Pid, other: Pid) -> bool
    ensures { result ≡ same_host pid other }
{
    pid.host == other.host
}

pub(crate) fn fail_check(machine: &LeanMachine, pid: Pid, why: Ending) -> Result<(), Obstacle>
    ensures { told (fail_check (kept_kernel machine.now) pid why) ≡ result_err result }
{
    let (name, sent) = own_send(machine, pid)?;
    let other = sent.target();
    if live_together(pid, other) {
        return Err(Obstacle::OneStation { pid, other });
    }
    failure_check(machine, name, sent, why)
}
