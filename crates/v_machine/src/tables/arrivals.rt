//! What a message needs that comes to a queue: a place for the number of its Send, and way for its name.

ghost use Rattle.std.specs.Prelude.{◌≡◌, ◌<◌, false, length, IfOk};
ghost use Rattle.vk_base.specs.declared.pid.Pid.{Pid as ThePid};
ghost use Rattle.v_machine.specs.Kept.{IsIndexed, IsAt, kernel_in, queued_at};
ghost use Rattle.v_machine.specs.Rules.{HasRoomFor, HasWay, Stays};

use crate::tables::Store;
use vk_base::{Name, NoMemory};

/// Where a message comes to a queue: the place of the process whose queue it is, and among the numbers of the sender that of its last Send
/// to the host.
#[derive(Clone, Copy)]
pub struct Coming {
    pub to: usize,
    pub latest: usize,
}

/// Where, among the numbers of the process of this place, that of its last Send to the host stands. The place is made where there is none,
/// which changes no table.
pub fn make_room(store: &mut Store, at: usize, host: u16) -> Result<usize, NoMemory>
    requires indexed { IsIndexed store.old }
    requires low { at < length store.old.latest.items }
    ensures stays { Stays store.old store.new }
    ensures room { IfOk result (HasRoomFor store.new at host) }
{
    store.latest[at].make_room(host)
}

/// Makes way for a name in the queue of the process of this place: takes it out where it may still stand, though it is not queued
/// there. That changes no table.
pub fn make_way(store: &mut Store, to: usize, name: Name)
    requires { to < length store.old.queues.items }
    ensures stays { (pid : ThePid) → IsIndexed store.old → IsAt store.old pid to →
        queued_at (kernel_in store.old).exchanges pid name ≡ false → Stays store.old store.new }
    ensures way { HasWay store.new to name }
{
    store.queues[to].remove(name);
}
