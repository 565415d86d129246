//! The queues of processes, read.

ghost use Rattle.std.specs.Prelude.{◌≡◌, ◌<◌, ℕ, true, filter, length, slice_get, option_copied, Some, IfSome};
ghost use Rattle.std.specs.List.{list_any};
ghost use Rattle.vk_base.specs.declared.kernel.Name.{Name as TheName};
ghost use Rattle.vk_base.specs.Kernel.{same_name, queue_of};
ghost use Rattle.vk_base.specs.Steps.{first_of};
ghost use Rattle.v_machine.specs.Kept.{IsIndexed, IsAt, kernel_in, tables_in, queued_at};
ghost use Rattle.v_machine.specs.Queues.{LeadsQueue};
ghost use Rattle.v_machine.specs.Tables.{exchanges_by};

use crate::tables::Store;
use crate::tables::begun::Begun;
use crate::tables::places::Places;
use crate::tables::queue::Queue;
use crate::tables::sent::Sent;
use vk_base::{Name, Pid};

/// The Send of a name.
#[tactic(auto, unfolding(crate::specs::Tables::exchanges_by, crate::specs::Places::at_place))]
pub fn named<'a>(places: &Places, sends: &'a [Begun], name: Name) -> Option<&'a Sent>
    ensures { exchanges_by places.now sends.now name ≡ option_copied result }
{
    let at = places.find(name.sender)?;
    sends.get(at)?.get(name.number)
}

fn is_queued(places: &Places, sends: &[Begun], pid: Pid, name: Name) -> bool
    ensures { result ≡ queued_at (exchanges_by places.now sends.now) pid name }
{
    match named(places, sends, name) {
        Some(sent) => sent.at() == pid && sent.is_queued(),
        None => false,
    }
}

/// The first name that is queued at the process. Those before it are taken away.
fn first_queued(places: &Places, sends: &[Begun], queue: &mut Queue, pid: Pid) -> Option<Name>
    ensures same { filter (queued_at (exchanges_by places.now sends.now) pid) queue.new
        ≡ filter (queued_at (exchanges_by places.now sends.now) pid) queue.old }
    ensures first { result ≡ first_of (filter (queued_at (exchanges_by places.now sends.now) pid) queue.old) }
    ensures among { (n : TheName) → list_any (same_name n) queue.new ≡ true → list_any (same_name n) queue.old ≡ true }
    ensures head { IfSome result (λ n. slice_get queue.new 0 ≡ Some n) }
{
    while let Some(name) = queue.front() {
        if is_queued(places, sends, pid, name) {
            return Some(name);
        }
        queue.pop();
    }
    None
}

/// The first of the queue of the process of this place.
pub fn front(store: &mut Store, at: usize, pid: Pid) -> Option<Name>
    requires indexed { IsIndexed store.old }
    requires here { IsAt store.old pid at }
    ensures first { result ≡ first_of (queue_of (kernel_in store.old) pid) }
    ensures tables { (noted : ℕ) → tables_in store.new noted ≡ tables_in store.old noted }
    ensures indexed { IsIndexed store.new }
    ensures head { IfSome result (LeadsQueue store.new at) }
    ensures low { at < length store.new.queues.items }
{
    first_queued(&store.places, &store.sends, &mut store.queues[at], pid)
}
