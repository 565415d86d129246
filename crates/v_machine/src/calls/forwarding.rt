//! Forward.

ghost use Rattle.std.specs.Prelude.{◌≡◌, ◌&&◌, IfSome, is_some, OnOk, OnErr};
ghost use Rattle.vk_base.specs.Kernel.{is_live};
ghost use Rattle.vk_base.specs.Pids.{same_host};
ghost use Rattle.v_machine.specs.Kept.{IsKept, IsIndexed, IsAt, kernel_in};
ghost use Rattle.v_machine.specs.Rules.{HandsOn, HasWay, IsTaken, Judges, Stays};

use crate::calls::held::held;
use crate::calls::response::Response;
use crate::refusal::ApplyRefusal;
use crate::tables::arrivals::make_way;
use crate::tables::handed::Handing;
use crate::tables::put::find_live;
use crate::tables::{Store, begun};
use std::alloc::Global;
use vk_base::{Call, Message, Name, NoMemory, Pid, Refusal};

/// Forward.
pub fn forward(
    store: &mut Store,
    alloc: Global,
    pid: Pid,
    message: Message,
    from: Pid,
    to: Pid,
) -> Result<Response, ApplyRefusal>
    requires { IsKept store.old }
    ensures { Judges pid (Call.Forward message from to) store.old store.new result }
{
    let Some(holding) = held(store, pid, from) else {
        return Ok(Response::Refused {
            why: Refusal::NotAwaiting,
        });
    };
    let Some(there) = find_near(store, pid, to) else {
        return Ok(Response::Refused {
            why: Refusal::NoProcess,
        });
    };
    let name = Name {
        sender: from,
        number: holding.number,
    };
    make_way(store, there, name);
    let on = Handing {
        at: to,
        shown: message,
    };
    hand_on(store, alloc, holding.at, there, name, on)?;
    Ok(Response::Ok)
}

/// The place of a process of the caller's station that is alive.
fn find_near(store: &Store, pid: Pid, to: Pid) -> Option<usize>
    requires { IsIndexed store.now }
    ensures live { is_some result ≡ (same_host pid to && is_live ((kernel_in store.now).procs to)) }
    ensures here { IfSome result (λ at. IsAt store.now to at) }
{
    if pid.host != to.host {
        return None;
    }
    find_live(store, to)
}

/// Hands the message of a Send of the process of the first place on to the process of the second, where there is way for its
/// name. Where memory is wanting the tables stay.
fn hand_on(
    store: &mut Store,
    alloc: Global,
    at: usize,
    there: usize,
    name: Name,
    on: Handing,
) -> Result<(), NoMemory>
    requires kept { IsKept store.old }
    requires here { IsAt store.old name.sender at }
    requires there { IsAt store.old on.at there }
    requires taken { IsTaken (kernel_in store.old) name }
    requires way { HasWay store.old there name }
    ensures ok { OnOk result (HandsOn name on.shown on.at store.old store.new) }
    ensures err { OnErr result (Stays store.old store.new) }
{
    let waiting = store.queues[there].len();
    store.queues[there].push(name)?;
    if begun::hand_on(&mut store.sends[at], alloc, name.number, on.shown, on.at).is_err() {
        store.queues[there].truncate(waiting);
        return Err(NoMemory);
    }
    store.arrived.push(name);
    Ok(())
}
