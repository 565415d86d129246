//! What is given back after a step: bytes of remote moves, and exchanges that are over.

ghost use Rattle.std.specs.Prelude.{◌≡◌, ◌≤◌};
ghost use Rattle.v_machine.specs.Kept.{IsKept, kernel_in};
ghost use Rattle.v_machine.specs.Lean.{GivesBack, GivesBackOf, IsAlike, opened_before};
ghost use Rattle.v_machine.specs.Shortened.{IsShortened};

use crate::tables::Store;
use crate::tables::moving::put_emptied;
use crate::tables::put::{find, sent_of};
use crate::tables::queues::named;
use std::alloc::Global;
use vk_base::{Name, Pid};
use vk_brief::{BriefCall, BriefStep, StepView};

/// The number of the open move of the exchange in which a step opens another one; 0 for any other step.
pub fn opened_before(store: &Store, step: &StepView) -> u64
    ensures { result ≡ opened_before (kernel_in store.now) step.now }
{
    let (brief, _) = step.parts();
    let BriefStep::OpenMove { sender, number, .. } = *brief else {
        return 0;
    };
    match named(&store.places, &store.sends, Name { sender, number }) {
        Some(sent) => sent.opened(),
        None => 0,
    }
}

/// After a step that opened a move, those from the one that was open before give their bytes back; after a step that wrote
/// bytes of a move, this one, where they were its last. After a Send those of its sender that are over are forgotten, where they are many.
pub fn give_back(store: &mut Store, alloc: Global, step: &StepView, before: u64)
    requires { IsKept store.old }
    ensures alike { IsAlike (kernel_in store.old) (kernel_in store.new) }
    ensures kept { IsKept store.new }
    ensures gives { GivesBack step.now before (kernel_in store.old) (kernel_in store.new) }
{
    let (brief, _) = step.parts();
    match *brief {
        BriefStep::OpenMove {
            sender,
            number,
            moving,
        } => give_back_of(
            store,
            alloc,
            Name { sender, number },
            before.min(moving),
            moving,
        ),
        BriefStep::Copy {
            sender,
            number,
            moving,
            ..
        } => give_back_of(store, alloc, Name { sender, number }, moving, moving),
        BriefStep::Call {
            pid,
            call: BriefCall::Send { .. },
        } => forget(store, pid),
        _ => {}
    }
}

/// Of the moves from one number up to another of an exchange, the spent ones give their bytes back.
#[inline(always)]
fn give_back_of(store: &mut Store, alloc: Global, name: Name, from: u64, to: u64)
    requires kept { IsKept store.old }
    requires order { from ≤ to }
    ensures alike { IsAlike (kernel_in store.old) (kernel_in store.new) }
    ensures kept { IsKept store.new }
    ensures gives { GivesBackOf name from to (kernel_in store.old) (kernel_in store.new) }
{
    let Some(at) = find(store, name.sender) else {
        return;
    };
    let Some(_sent) = sent_of(store, at, name.number) else {
        return;
    };
    put_emptied(store, alloc, at, name.number, from, to);
}

/// So many Sends are kept of each of so many processes before some are forgotten: many where the processes are few, since it is less work
/// to forget many at once.
fn few_of(processes: usize) -> u64 {
    if processes <= 16 { 64 } else { 8 }
}

/// Sends of the process that are over are forgotten, where they are many.
#[inline(always)]
fn forget(store: &mut Store, pid: Pid)
    requires { IsKept store.old }
    ensures { IsShortened store.old store.new }
{
    if !store.crowded {
        return;
    }
    let Some(at) = find(store, pid) else {
        return;
    };
    let few = few_of(store.procs.len());
    store.sends[at].forget(few);
}
