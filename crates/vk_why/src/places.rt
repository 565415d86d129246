//! What steps look for in a machine: processes, exchanges, moves and lookups.

ghost use Rattle.std.specs.Prelude.{◌≡◌, Ok, Err, IfOk, IfErr, option_copied};
ghost use Rattle.std.specs.Result.{result_err};
ghost use Rattle.vk_base.specs.Kernel.{is_live, move_of};
ghost use Rattle.vk_base.specs.Activities.{state_of};
ghost use Rattle.v_obstacle.specs.Obstacles.{asker_at, exchange_at, lookup_at, move_at, mover_at, process_at, sender_at, standing_of, told, unasked, unsent};
ghost use Rattle.vk_why.specs.Kept.{FindsAs, kept_kernel, sending_at};

use v_machine::{LeanMachine, ProcessView, Sent};
use v_obstacle::{Obstacle, Standing, Wanted};
use vk_base::{Activity, Lookup, Move, Name, Pid, State};

/// What a process does, as the kernel has it.
fn state_of(activity: Activity) -> State
    ensures { result ≡ state_of activity }
{
    match activity {
        Activity::Ready => State::Ready,
        Activity::Blocked { waiting } => State::Blocked {
            call: waiting.call(),
        },
        Activity::Done { waiting, outcome } => State::Done {
            call: waiting.call(),
            answer: outcome.answer(),
        },
    }
}

/// How far a message is.
pub(crate) fn standing_of(sent: &Sent) -> Standing
    ensures { result ≡ standing_of sent.now.stage }
{
    if sent.is_posted() {
        return Standing::Posted;
    }
    if sent.is_queued() {
        return Standing::Queued;
    }
    if sent.is_taken() {
        return Standing::Taken;
    }
    match sent.replied() {
        Some(_) => Standing::Replied,
        None => Standing::Dropped,
    }
}

/// The process does something else.
pub(crate) fn otherwise(wanted: Wanted, pid: Pid, process: &ProcessView) -> Obstacle
    ensures { result ≡ Obstacle.Otherwise wanted pid process.now.alive (state_of process.now.activity) }
{
    Obstacle::Otherwise {
        wanted,
        pid,
        alive: process.alive,
        state: state_of(process.activity),
    }
}

/// The process of this pid.
#[tactic(auto, unfolding(v_machine::specs::Spent::current_kernel))]
pub(crate) fn process_at(machine: &LeanMachine, pid: Pid) -> Result<ProcessView, Obstacle>
    ensures ok { IfOk result (FindsAs (process_at (kept_kernel machine.now) pid)) }
    ensures err { IfErr result (λ why. process_at (kept_kernel machine.now) pid ≡ Err why) }
{
    match machine.process(pid) {
        Some(process) => Ok(process),
        None => Err(Obstacle::NoProcess { pid }),
    }
}

/// Whether the process is there and alive.
#[tactic(auto, unfolding(v_machine::specs::Spent::current_kernel))]
pub(crate) fn is_live(machine: &LeanMachine, pid: Pid) -> bool
    ensures { result ≡ is_live ((kept_kernel machine.now).procs pid) }
{
    match machine.process(pid) {
        Some(process) => process.alive,
        None => false,
    }
}

/// Why there is no exchange of this name.
#[tactic(auto, unfolding(v_machine::specs::Spent::current_kernel))]
fn unsent(machine: &LeanMachine, name: Name) -> Obstacle
    ensures { result ≡ unsent name ((kept_kernel machine.now).procs name.sender) }
{
    match machine.process(name.sender) {
        Some(process) => Obstacle::NotSent {
            name,
            sends: process.sends,
        },
        None => Obstacle::NoProcess { pid: name.sender },
    }
}

/// The exchange of this name.
pub(crate) fn exchange_at(machine: &LeanMachine, name: Name) -> Result<&Sent, Obstacle>
    ensures ok { IfOk result (λ sent. exchange_at (kept_kernel machine.now) name ≡ Ok sent.now) }
    ensures err { IfErr result (λ why. exchange_at (kept_kernel machine.now) name ≡ Err why) }
{
    match machine.exchange(name) {
        Some(sent) => Ok(sent),
        None => Err(unsent(machine, name)),
    }
}

/// The move of this number, from 1.
fn move_of(sent: &Sent, number: u64) -> Option<&Move>
    ensures { option_copied result ≡ move_of sent.now number }
{
    let at = number.checked_sub(1)?;
    sent.moves().get(at as usize)
}

/// The move of this number.
pub(crate) fn move_at(name: Name, sent: &Sent, moving: u64) -> Result<&Move, Obstacle>
    ensures ok { IfOk result (λ begun. move_at name sent.now moving ≡ Ok begun.now) }
    ensures err { IfErr result (λ why. move_at name sent.now moving ≡ Err why) }
{
    match move_of(sent, moving) {
        Some(begun) => Ok(begun),
        None => Err(Obstacle::NoMove {
            name,
            moving,
            moves: sent.moves().len() as u64,
        }),
    }
}

/// The process, which is blocked in a Send.
pub(crate) fn sending_at(machine: &LeanMachine, pid: Pid) -> Result<ProcessView, Obstacle>
    ensures ok { IfOk result (FindsAs (sending_at (kept_kernel machine.now) pid)) }
    ensures err { IfErr result (λ why. sending_at (kept_kernel machine.now) pid ≡ Err why) }
{
    let process = process_at(machine, pid)?;
    match process.activity.sending() {
        Some(_) => Ok(process),
        None => Err(otherwise(Wanted::Sending, pid, &process)),
    }
}

/// The sender waits on this exchange.
pub(crate) fn sender_check(machine: &LeanMachine, name: Name) -> Result<(), Obstacle>
    ensures { told (sender_at (kept_kernel machine.now) name) ≡ result_err result }
{
    let process = sending_at(machine, name.sender)?;
    if process.sends != name.number {
        return Err(Obstacle::OtherSend {
            name,
            sends: process.sends,
        });
    }
    Ok(())
}

/// The process, which is blocked in a move.
pub(crate) fn mover_at(machine: &LeanMachine, pid: Pid) -> Result<ProcessView, Obstacle>
    ensures ok { IfOk result (FindsAs (mover_at (kept_kernel machine.now) pid)) }
    ensures err { IfErr result (λ why. mover_at (kept_kernel machine.now) pid ≡ Err why) }
{
    let process = process_at(machine, pid)?;
    if !process.activity.is_moving() {
        return Err(otherwise(Wanted::Moving, pid, &process));
    }
    Ok(process)
}

/// The process, which is blocked in a lookup.
pub(crate) fn asker_at(machine: &LeanMachine, asker: Pid) -> Result<ProcessView, Obstacle>
    ensures ok { IfOk result (FindsAs (asker_at (kept_kernel machine.now) asker)) }
    ensures err { IfErr result (λ why. asker_at (kept_kernel machine.now) asker ≡ Err why) }
{
    let process = process_at(machine, asker)?;
    if !process.activity.is_asking() {
        return Err(otherwise(Wanted::Asking, asker, &process));
    }
    Ok(process)
}

/// Why there is no lookup of this number.
#[tactic(auto, unfolding(v_machine::specs::Spent::current_kernel))]
fn unasked(machine: &LeanMachine, asker: Pid, number: u64) -> Obstacle
    ensures { result ≡ unasked asker number ((kept_kernel machine.now).procs asker) }
{
    match machine.process(asker) {
        Some(process) => Obstacle::NoLookup {
            asker,
            number,
            lookups: process.lookups,
        },
        None => Obstacle::NoProcess { pid: asker },
    }
}

/// The lookup of this number.
#[tactic(auto, unfolding(v_machine::specs::Spent::current_kernel))]
pub(crate) fn lookup_at(machine: &LeanMachine, asker: Pid, number: u64) -> Result<&Lookup, Obstacle>
    ensures ok { IfOk result (λ lookup. lookup_at (kept_kernel machine.now) asker number ≡ Ok lookup.now) }
    ensures err { IfErr result (λ why. lookup_at (kept_kernel machine.now) asker number ≡ Err why) }
{
    match machine.lookup(asker, number) {
        Some(lookup) => Ok(lookup),
        None => Err(unasked(machine, asker, number)),
    }
}
