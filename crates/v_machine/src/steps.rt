//! The steps that no process sees.

ghost use Rattle.std.specs.Prelude.{◌≡◌, ◌≤◌, ◌-◌, true};
ghost use Rattle.vk_base.specs.Steps.{effect};
ghost use Rattle.v_machine.specs.Apply.{most, notes};
ghost use Rattle.v_machine.specs.Kept.{IsKept, kernel_in};
ghost use Rattle.v_machine.specs.Moves.{noted_for, Opens};
ghost use Rattle.v_machine.specs.Rules.{Answers, Counts, done_or_not, is_quiet, quiet};

pub mod arriving;
pub mod lookups;
pub mod messages;
pub mod spent;
pub mod transfers;

use crate::refusal::ApplyRefusal;
use crate::steps::arriving::arrive;
use crate::steps::lookups::{found, hear, lost};
use crate::steps::messages::{fail, finish, take};
use crate::steps::transfers::{copy, end, open_move, opening_bytes};
use crate::tables::Store;
use std::alloc::Global;
use vk_base::limits::NOTED_BYTES;
use vk_base::{Name, Range};
use vk_brief::{BriefStep, StepView};

/// A step that no process sees, and how many bytes are noted with those that it notes.
pub fn quiet_step(
    store: &mut Store,
    noted: &mut u64,
    alloc: Global,
    step: &StepView,
) -> Result<(), ApplyRefusal>
    requires kept { IsKept store.old }
    requires low { noted.old ≤ most }
    requires quiet { is_quiet step.now ≡ true }
    ensures answers { Answers (effect (kernel_in store.old) step.now) (notes (kernel_in store.old) step.now) (most - noted.old)
        store.old store.new (quiet result) }
    ensures counts { Counts (notes (kernel_in store.old) step.now) noted.old noted.new result }
{
    let (brief, _) = step.parts();
    match *brief {
        BriefStep::Arrive { sender, number } => arrive(store, sender, number),
        BriefStep::Take { pid } => done_or_not(take(store, pid)),
        BriefStep::Finish { pid } => done_or_not(finish(store, pid)),
        BriefStep::Fail { pid, why } => done_or_not(fail(store, pid, why)),
        BriefStep::OpenMove {
            sender,
            number,
            moving,
        } => open(store, noted, alloc, Name { sender, number }, moving),
        BriefStep::Copy {
            sender,
            number,
            moving,
            offset,
            count,
        } => {
            let part = Range {
                start: offset,
                len: count,
            };
            done_or_not(copy(store, Name { sender, number }, moving, part))
        }
        BriefStep::End { pid, why } => done_or_not(end(store, pid, why)),
        BriefStep::Hear { asker, number, pid } => hear(store, asker, number, pid),
        BriefStep::Found { asker, pid } => done_or_not(found(store, asker, pid)),
        BriefStep::Lost { asker } => done_or_not(lost(store, asker)),
        BriefStep::Call { .. } | BriefStep::Collect { .. } => unreachable!(),
    }
}

fn done_or_not(done: Option<()>) -> Result<(), ApplyRefusal>
    ensures { result ≡ done_or_not done }
{
    done.ok_or(ApplyRefusal::NotAllowed)
}

/// OpenMove, and how many bytes are noted with those that it notes.
fn open(
    store: &mut Store,
    noted: &mut u64,
    alloc: Global,
    name: Name,
    moving: u64,
) -> Result<(), ApplyRefusal>
    requires kept { IsKept store.old }
    requires low { noted.old ≤ most }
    ensures opens { Opens name moving (most - noted.old) store.old store.new result }
    ensures counts { Counts (noted_for store.old name moving) noted.old noted.new result }
{
    let bytes = opening_bytes(store, name, moving);
    open_move(store, alloc, name, moving, NOTED_BYTES - *noted)?;
    *noted += bytes;
    Ok(())
}
