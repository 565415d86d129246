//! Sends, and messages that come to a queue.

ghost use Rattle.std.specs.Prelude.{◌≡◌, ◌<◌, [], true, false, length, Some, OnOk, OnErr, IfOk};
ghost use Rattle.vk_types.specs.Types.{Process};
ghost use Rattle.vk_base.specs.declared.pid.Pid.{Pid as ThePid};
ghost use Rattle.vk_base.specs.Calls.{first_part};
ghost use Rattle.vk_base.specs.Kernel.{is_live, is_queued};
ghost use Rattle.vk_base.specs.Messages.{segment_of};
ghost use Rattle.vk_base.specs.Pids.{same_host};
ghost use Rattle.vk_base.specs.Ranges.{lies_in};
ghost use Rattle.v_machine.specs.Kept.{IsKept, IsAt, kernel_in};
ghost use Rattle.v_machine.specs.Places.{place_in};
ghost use Rattle.v_machine.specs.Rules.{Judges, Fits, HasRoomFor, Posts, Stays};
ghost use Rattle.v_machine.specs.Sent.{first_stage};

use crate::calls::caller::Caller;
use crate::calls::response::Response;
use crate::refusal::ApplyRefusal;
use crate::tables::Store;
use crate::tables::arrivals::{Coming, make_room};
use crate::tables::begun::next_number;
use crate::tables::bytes::{lies_in, own_bytes};
use crate::tables::put::{find_live, put_activity, size_of};
use crate::tables::sent::{Phase, Sent};
use std::alloc::Global;
use vk_base::limits::SEGMENT_BYTES;
use vk_base::{Activity, Call, List, Message, Name, NoMemory, Pid, Range, Refusal, Waiting};

/// Send.
pub fn send(
    store: &mut Store,
    alloc: Global,
    at: usize,
    pid: Pid,
    target: Pid,
    message: &Message,
) -> Result<Response, ApplyRefusal>
    requires kept { IsKept store.old }
    requires here { IsAt store.old pid at }
    ensures { Judges pid (Call.Send target message.now) store.old store.new result }
{
    let segment = message.grants().range;
    if !lies_in(segment.start, segment.len, size_of(store, at)) {
        return Ok(Response::Refused {
            why: Refusal::BadSegment,
        });
    }
    let caller = Caller { at, pid };
    if pid.host == target.host {
        send_here(store, alloc, caller, target, message)
    } else {
        send_away(store, alloc, caller, target, message)
    }
}

/// A Send to a process of the caller's station, whose segment lies in the caller's memory.
fn send_here(
    store: &mut Store,
    alloc: Global,
    caller: Caller,
    target: Pid,
    message: &Message,
) -> Result<Response, ApplyRefusal>
    requires kept { IsKept store.old }
    requires here { IsAt store.old caller.pid caller.at }
    requires local { same_host caller.pid target ≡ true }
    ensures { Fits store.old caller.pid message.now → Judges caller.pid (Call.Send target message.now) store.old store.new result }
{
    let Some(to) = find_live(store, target) else {
        return Ok(Response::Refused {
            why: Refusal::NoProcess,
        });
    };
    let latest = make_room(store, caller.at, caller.pid.host)?;
    let coming = Coming { to, latest };
    send_with_room(store, alloc, caller, coming, target, message)
}

/// A Send to a process of the caller's station that is alive, where there is room for its name.
fn send_with_room(
    store: &mut Store,
    alloc: Global,
    caller: Caller,
    coming: Coming,
    target: Pid,
    message: &Message,
) -> Result<Response, ApplyRefusal>
    requires kept { IsKept store.old }
    requires here { IsAt store.old caller.pid caller.at }
    requires there { IsAt store.old target coming.to }
    requires local { same_host caller.pid target ≡ true }
    requires live { is_live ((kernel_in store.old).procs target) ≡ true }
    requires room { HasRoomFor store.old caller.at caller.pid.host coming.latest }
    ensures { Fits store.old caller.pid message.now → Judges caller.pid (Call.Send target message.now) store.old store.new result }
{
    let sent = new_sent(store, alloc, caller.at, target, message, Phase::Queued)?;
    post_here(store, caller, coming, sent)?;
    let waiting = Waiting::Send {
        target,
        message: *message,
    };
    put_activity(store, caller.at, Activity::Blocked { waiting });
    Ok(Response::Begun)
}

/// A Send to a process of another station, whose segment lies in the caller's memory.
fn send_away(
    store: &mut Store,
    alloc: Global,
    caller: Caller,
    target: Pid,
    message: &Message,
) -> Result<Response, ApplyRefusal>
    requires kept { IsKept store.old }
    requires here { IsAt store.old caller.pid caller.at }
    requires away { same_host caller.pid target ≡ false }
    ensures { Fits store.old caller.pid message.now → Judges caller.pid (Call.Send target message.now) store.old store.new result }
{
    let sent = new_sent(store, alloc, caller.at, target, message, Phase::Posted)?;
    store.sends[caller.at].push(sent)?;
    store.crowded = store.sends[caller.at].is_full();
    let waiting = Waiting::Send {
        target,
        message: *message,
    };
    put_activity(store, caller.at, Activity::Blocked { waiting });
    Ok(Response::Begun)
}

/// One more Send of the process of the first place, to the process of the second, which has the same host. Where memory is
/// wanting the tables stay.
fn post_here(store: &mut Store, caller: Caller, coming: Coming, sent: Sent) -> Result<(), NoMemory>
    requires kept { IsKept store.old }
    requires here { IsAt store.old caller.pid caller.at }
    requires there { IsAt store.old sent.at coming.to }
    requires local { same_host caller.pid sent.target ≡ true }
    requires queued { is_queued sent.stage ≡ true }
    requires room { HasRoomFor store.old caller.at caller.pid.host coming.latest }
    ensures places { store.new.places ≡ store.old.places }
    ensures procs { length store.new.procs.items ≡ length store.old.procs.items }
    ensures ok { OnOk result (Posts caller.pid sent store.old store.new) }
    ensures err { OnErr result (Stays store.old store.new) }
{
    let number = next_number(&store.sends[caller.at]);
    let name = Name {
        sender: caller.pid,
        number,
    };
    let waiting = store.queues[coming.to].len();
    store.queues[coming.to].push(name)?;
    if store.sends[caller.at].push(sent).is_err() {
        store.queues[coming.to].truncate(waiting);
        return Err(NoMemory);
    }
    store.crowded = store.sends[caller.at].is_full();
    store.latest[caller.at].put(coming.latest, number);
    store.arrived.push(name);
    Ok(())
}

/// A Send of the process of this place, whose segment lies in its memory.
#[inline(always)]
fn new_sent(
    store: &Store,
    alloc: Global,
    at: usize,
    target: Pid,
    message: &Message,
    phase: Phase,
) -> Result<Sent, NoMemory>
    requires { at < length store.now.procs.items }
    ensures target { IfOk result (λ s. s.target ≡ target) }
    ensures at { IfOk result (λ s. s.at ≡ target) }
    ensures stage { IfOk result (λ s. s.stage ≡ first_stage phase message.now) }
    ensures value { (pid : ThePid) (p : Process) → place_in store.now.places pid ≡ Some at → (kernel_in store.now).procs pid ≡ Some p →
        lies_in (segment_of message.now) (length p.memory) ≡ true →
        IfOk result (λ s. s ≡ record {
          target = target;
          message = message.now;
          part = first_part message.now p.memory;
          at = target;
          shown = message.now;
          stage = first_stage phase message.now;
          moves = [];
          opened = 0;
          done = 0;
        }) }
{
    let part = first_part(store, alloc, at, message)?;
    Sent::new(alloc, target, *message, part, phase)
}

/// The first part of the granted segment, if it may be read.
fn first_part(
    store: &Store,
    alloc: Global,
    at: usize,
    message: &Message,
) -> Result<List<u8>, NoMemory>
    requires { at < length store.now.procs.items }
    ensures { (pid : ThePid) (p : Process) → place_in store.now.places pid ≡ Some at → (kernel_in store.now).procs pid ≡ Some p →
        lies_in (segment_of message.now) (length p.memory) ≡ true →
        IfOk result (λ l. l ≡ first_part message.now p.memory) }
{
    let grants = message.grants();
    if !grants.read {
        return Ok(List::empty(alloc));
    }
    let range = Range {
        start: grants.range.start,
        len: grants.range.len.min(SEGMENT_BYTES),
    };
    own_bytes(store, alloc, at, range)
}
