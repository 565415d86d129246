//! Messages that come to a queue of another station.

ghost use Rattle.std.specs.Prelude.{◌≡◌, ◌<◌, true, length, Some};
ghost use Rattle.vk_base.specs.declared.pid.Pid.{Pid as ThePid};
ghost use Rattle.vk_base.specs.Kernel.{name_of, is_live};
ghost use Rattle.vk_base.specs.Steps.{arrive_step};
ghost use Rattle.v_machine.specs.Kept.{IsKept, IsAt, kernel_in};
ghost use Rattle.v_machine.specs.Places.{place_in};
ghost use Rattle.v_machine.specs.Rules.{Answers, HasRoomFor, IsPostedTo, posted_to, quiet};

use crate::refusal::ApplyRefusal;
use crate::tables::arrivals::{Coming, make_room};
use crate::tables::put::{find, find_live, sent_of};
use crate::tables::{Store, begun};
use vk_base::{Name, Pid};

/// Arrive.
#[tactic(auto, unfolding(vk_base::specs::Steps::arriving))]
pub fn arrive(store: &mut Store, sender: Pid, number: u64) -> Result<(), ApplyRefusal>
    requires { IsKept store.old }
    ensures { Answers (arrive_step (kernel_in store.old) (name_of sender number)) 0 0 store.old store.new (quiet result) }
{
    let Some(at) = find(store, sender) else {
        return Err(ApplyRefusal::NotAllowed);
    };
    let Some(target) = posted_target(store, at, number) else {
        return Err(ApplyRefusal::NotAllowed);
    };
    let Some(to) = find_live(store, target) else {
        return Err(ApplyRefusal::NotAllowed);
    };
    let latest = make_room(store, at, target.host)?;
    let name = Name { sender, number };
    come(store, at, Coming { to, latest }, name, target)
}

/// The target of a Send that is posted.
fn posted_target(store: &Store, at: usize, number: u64) -> Option<Pid>
    requires { at < length store.now.sends.items }
    ensures { (sender : ThePid) → place_in store.now.places sender ≡ Some at →
        posted_to ((kernel_in store.now).exchanges (name_of sender number)) ≡ result }
{
    let sent = sent_of(store, at, number)?;
    if !sent.is_posted() {
        return None;
    }
    Some(sent.target())
}

/// A Send of the process of the first place, which is posted, comes to the queue of its target at the second place.
fn come(
    store: &mut Store,
    at: usize,
    coming: Coming,
    name: Name,
    target: Pid,
) -> Result<(), ApplyRefusal>
    requires kept { IsKept store.old }
    requires here { IsAt store.old name.sender at }
    requires there { IsAt store.old target coming.to }
    requires live { is_live ((kernel_in store.old).procs target) ≡ true }
    requires posted { IsPostedTo (kernel_in store.old) name target }
    requires room { HasRoomFor store.old at target.host coming.latest }
    ensures { Answers (arrive_step (kernel_in store.old) name) 0 0 store.old store.new (quiet result) }
{
    store.queues[coming.to].push(name)?;
    let latest = store.latest[at].number(coming.latest);
    begun::come(&mut store.sends[at], latest, name.number, target.host);
    store.latest[at].put(coming.latest, name.number);
    store.arrived.push(name);
    Ok(())
}
