//! The calls MoveTo and MoveFrom.

ghost use Rattle.std.specs.Prelude.{◌≡◌, ◌<◌, ◌+◌, [], true, length, Ok, Some, None, OnOk, OnErr};
ghost use Rattle.vk_types.specs.Types.{Exchange, Process};
ghost use Rattle.vk_base.specs.declared.pid.Pid.{Pid as ThePid};
ghost use Rattle.vk_base.specs.Calls.{is_at_once, new_move};
ghost use Rattle.vk_base.specs.Kernel.{name_of};
ghost use Rattle.vk_base.specs.Ranges.{range_of, lies_in, bytes_in};
ghost use Rattle.vk_base.specs.Activities.{call_of};
ghost use Rattle.v_machine.specs.Kept.{IsKept, IsIndexed, IsAt, kernel_in};
ghost use Rattle.v_machine.specs.Moves.{JudgesBegun, Copies, Begins, BeginsOrNot, call_moving};
ghost use Rattle.v_machine.specs.Places.{place_in};
ghost use Rattle.v_machine.specs.Rules.{IsLive, Judges, Stays};

use crate::calls::access::{SegmentAccess, held_for};
use crate::calls::caller::Caller;
use crate::calls::held::Holding;
use crate::calls::response::Response;
use crate::refusal::ApplyRefusal;
use crate::tables::Store;
use crate::tables::bytes::own_bytes;
use crate::tables::moving::{push_move, put_moving};
use crate::tables::put::{put_bytes, sent_of};
use std::alloc::Global;
use vk_base::limits::MOVE_BYTES;
use vk_base::{Call, Direction, List, Move, MoveName, Name, NoMemory, Pid, Range, Waiting};

/// What a MoveTo or a MoveFrom asks for.
#[derive(Clone, Copy)]
pub struct MoveRequest {
    pub partner: Pid,
    pub dest: u32,
    pub src: u32,
    pub count: u32,
}

/// MoveTo, where at most so many more bytes may be noted.
pub fn move_to(
    store: &mut Store,
    alloc: Global,
    at: usize,
    pid: Pid,
    asked: MoveRequest,
    room: u64,
) -> Result<Response, ApplyRefusal>
    requires kept { IsKept store.old }
    requires here { IsAt store.old pid at }
    ensures { JudgesBegun pid (Call.MoveTo asked.partner asked.dest asked.src asked.count) asked.count room store.old store.new result }
{
    let own = Range {
        start: asked.src,
        len: asked.count,
    };
    let access = SegmentAccess {
        partner: asked.partner,
        limit: MOVE_BYTES,
        write: true,
        granted: Range {
            start: asked.dest,
            len: asked.count,
        },
        own,
    };
    let holding = match held_for(store, at, pid, access) {
        Ok(holding) => holding,
        Err(why) => return Ok(Response::Refused { why }),
    };
    if !is_at_once(pid, asked.partner, asked.count) {
        return begin_to(store, alloc, Caller { at, pid }, holding, asked, room);
    }
    copy_now(store, alloc, at, holding.at, own, asked.dest)?;
    Ok(Response::Ok)
}

/// MoveFrom.
pub fn move_from(
    store: &mut Store,
    alloc: Global,
    at: usize,
    pid: Pid,
    asked: MoveRequest,
) -> Result<Response, ApplyRefusal>
    requires kept { IsKept store.old }
    requires here { IsAt store.old pid at }
    ensures { Judges pid (Call.MoveFrom asked.partner asked.dest asked.src asked.count) store.old store.new result }
{
    let granted = Range {
        start: asked.src,
        len: asked.count,
    };
    let access = SegmentAccess {
        partner: asked.partner,
        limit: MOVE_BYTES,
        write: false,
        granted,
        own: Range {
            start: asked.dest,
            len: asked.count,
        },
    };
    let holding = match held_for(store, at, pid, access) {
        Ok(holding) => holding,
        Err(why) => return Ok(Response::Refused { why }),
    };
    if !is_at_once(pid, asked.partner, asked.count) {
        return begin_from(store, alloc, Caller { at, pid }, holding, asked);
    }
    copy_now(store, alloc, holding.at, at, granted, asked.dest)?;
    Ok(Response::Ok)
}

/// Whether a move is made at once: that of a local pair, and one of no bytes.
fn is_at_once(pid: Pid, partner: Pid, count: u32) -> bool
    ensures { result ≡ is_at_once pid partner count }
{
    pid.host == partner.host || count == 0
}

/// Copies a range of the memory of the process of one place into that of the process of another.
fn copy_now(
    store: &mut Store,
    alloc: Global,
    from: usize,
    to: usize,
    source: Range,
    dest: u32,
) -> Result<(), NoMemory>
    requires from { from < length store.old.procs.items }
    requires to { to < length store.old.procs.items }
    ensures ok { OnOk result (Copies from to source dest store.old store.new) }
    ensures err { OnErr result (store.new ≡ store.old) }
    ensures indexed { IsIndexed store.old → IsIndexed store.new }
{
    let bytes = own_bytes(store, alloc, from, source)?;
    let _fits = put_bytes(store, to, dest, bytes.as_slice());
    Ok(())
}

/// Begins a MoveTo, with the bytes of its caller as they are.
fn begin_to(
    store: &mut Store,
    alloc: Global,
    caller: Caller,
    holding: Holding,
    asked: MoveRequest,
    room: u64,
) -> Result<Response, ApplyRefusal>
    requires indexed { IsIndexed store.old }
    requires here { IsAt store.old caller.pid caller.at }
    requires there { IsAt store.old asked.partner holding.at }
    requires live { IsLive store.old holding.at holding.number }
    ensures { (p : Process) → (kernel_in store.old).procs caller.pid ≡ Some p →
        lies_in (range_of asked.src asked.count) (length p.memory) ≡ true →
        BeginsOrNot caller.pid (Call.MoveTo asked.partner asked.dest asked.src asked.count)
        asked.partner holding.number asked.count room
        (new_move caller.pid Direction.To asked.dest asked.src asked.count (bytes_in (range_of asked.src asked.count) p.memory))
        store.old store.new result }
{
    if u64::from(asked.count) > room {
        return Err(ApplyRefusal::Limit);
    }
    let own = Range {
        start: asked.src,
        len: asked.count,
    };
    let bytes = own_bytes(store, alloc, caller.at, own)?;
    let begun = new_move(caller.pid, Direction::To, asked, bytes);
    begin(store, alloc, caller.at, holding, asked.partner, begun)?;
    Ok(Response::Begun)
}

/// Begins a MoveFrom, which has no bytes before it is opened.
fn begin_from(
    store: &mut Store,
    alloc: Global,
    caller: Caller,
    holding: Holding,
    asked: MoveRequest,
) -> Result<Response, ApplyRefusal>
    requires indexed { IsIndexed store.old }
    requires here { IsAt store.old caller.pid caller.at }
    requires there { IsAt store.old asked.partner holding.at }
    requires live { IsLive store.old holding.at holding.number }
    ensures { BeginsOrNot caller.pid (Call.MoveFrom asked.partner asked.dest asked.src asked.count) asked.partner holding.number 0 0
        (new_move caller.pid Direction.From asked.dest asked.src asked.count []) store.old store.new result }
{
    let begun = new_move(caller.pid, Direction::From, asked, List::empty(alloc));
    begin(store, alloc, caller.at, holding, asked.partner, begun)?;
    Ok(Response::Begun)
}

fn new_move(mover: Pid, direction: Direction, asked: MoveRequest, bytes: List<u8>) -> Move
    ensures { result ≡ new_move mover direction asked.dest asked.src asked.count bytes }
{
    Move {
        mover,
        direction,
        dest: asked.dest,
        src: asked.src,
        count: asked.count,
        bytes,
    }
}

/// Begins a move of a Send that is held, and the process of this place waits for it.
fn begin(
    store: &mut Store,
    alloc: Global,
    at: usize,
    holding: Holding,
    partner: Pid,
    begun: Move,
) -> Result<(), NoMemory>
    requires indexed { IsIndexed store.old }
    requires here { IsAt store.old begun.mover at }
    requires there { IsAt store.old partner holding.at }
    requires live { IsLive store.old holding.at holding.number }
    ensures ok { OnOk result (Begins begun.mover (call_moving partner begun) partner holding.number begun store.old store.new) }
    ensures err { OnErr result (Stays store.old store.new) }
{
    let waiting = waiting_for(partner, &begun);
    let number = next_move(store, holding);
    push_move(store, alloc, holding.at, holding.number, begun)?;
    let name = MoveName {
        exchange: Name {
            sender: partner,
            number: holding.number,
        },
        number,
    };
    put_moving(store, at, waiting, name);
    Ok(())
}

/// The call in which the mover waits for a move of this partner's segment.
fn waiting_for(partner: Pid, begun: &Move) -> Waiting
    ensures { call_of result ≡ call_moving partner begun.now }
{
    match begun.direction {
        Direction::To => Waiting::MoveTo {
            partner,
            dest: begun.dest,
            src: begun.src,
            count: begun.count,
        },
        Direction::From => Waiting::MoveFrom {
            partner,
            dest: begun.dest,
            src: begun.src,
            count: begun.count,
        },
    }
}

/// The number that the next move of a Send gets.
fn next_move(store: &Store, holding: Holding) -> u64
    requires { holding.at < length store.now.sends.items }
    ensures { (sender : ThePid) (e : Exchange) → place_in store.now.places sender ≡ Some holding.at →
        (kernel_in store.now).exchanges (name_of sender holding.number) ≡ Some e → result ≡ length e.moves + 1 }
{
    match sent_of(store, holding.at, holding.number) {
        Some(sent) => sent.moves().len() as u64 + 1,
        None => 1,
    }
}
