//! Changes of the remote moves of a Send of the store; the moves themselves are `remote.rt`.

ghost use Rattle.std.specs.Prelude.{◌≡◌, ◌<◌, ◌≤◌, ◌+◌, length, Some, None, IfSome, IfNone, OnOk, OnErr, option_copied};
ghost use Rattle.vk_types.specs.Types.{Process};
ghost use Rattle.vk_base.specs.declared.kernel.Exchange.{Exchange as TheExchange};
ghost use Rattle.vk_base.specs.declared.kernel.Move.{Move as TheMove};
ghost use Rattle.vk_base.specs.declared.pid.Pid.{Pid as ThePid};
ghost use Rattle.vk_base.specs.Kernel.{name_of, move_of, waiting_on, with_memory};
ghost use Rattle.vk_base.specs.Ranges.{with_bytes, bytes_in};
ghost use Rattle.vk_base.specs.Activities.{call_of};
ghost use Rattle.v_machine.specs.Kept.{IsIndexed, IsAt, kernel_in};
ghost use Rattle.v_machine.specs.Moves.{Puts, with_moving};
ghost use Rattle.v_machine.specs.Places.{place_in};
ghost use Rattle.v_machine.specs.Rules.{IsLive, Stays};
ghost use Rattle.v_machine.specs.Sends.{given_back, with_begun, with_opened, with_written};

use crate::tables::numbered::index_of;
use crate::tables::put::{find, proc, sends_of};
use crate::tables::sent::Sent;
use crate::tables::{Store, begun};
use std::alloc::Global;
use vk_base::{Activity, List, Memory, Move, MoveName, Name, NoMemory, Range, Waiting};

/// One more move of a Send of the process of this place. Where memory is wanting nothing changes.
pub fn push_move(
    store: &mut Store,
    alloc: Global,
    at: usize,
    number: u64,
    begun: Move,
) -> Result<(), NoMemory>
    requires low { at < length store.old.sends.items }
    requires live { IsLive store.old at number }
    ensures ok { OnOk result (Puts (with_begun begun) at number store.old store.new) }
    ensures err { OnErr result (IsIndexed store.old → Stays store.old store.new) }
    ensures places { store.new.places ≡ store.old.places }
    ensures procs { store.new.procs ≡ store.old.procs }
{
    begun::push_move(&mut store.sends[at], alloc, number, begun)
}

/// A move of a Send of the process of this place is the open one from now on, with these bytes, if some are given.
/// Where no move was begun nothing changes.
pub fn put_open(store: &mut Store, at: usize, number: u64, moving: u64, noted: Option<List<u8>>)
    requires { at < length store.old.sends.items }
    ensures { Puts (with_opened moving noted) at number store.old store.new }
{
    begun::open_move(&mut store.sends[at], number, moving, noted);
}

/// So many bytes of the open move of a Send of the process of this place were written. Where no move was begun nothing
/// changes.
pub fn put_done(store: &mut Store, at: usize, number: u64, done: u32)
    requires { at < length store.old.sends.items }
    ensures { Puts (with_written done) at number store.old store.new }
{
    begun::put_done(&mut store.sends[at], number, done);
}

/// Of the moves from one number up to another of a Send of the process of this place, the spent ones give their bytes back.
pub fn put_emptied(store: &mut Store, alloc: Global, at: usize, number: u64, from: u64, to: u64)
    requires low { at < length store.old.sends.items }
    requires order { from ≤ to }
    ensures { Puts (given_back from to) at number store.old store.new }
{
    begun::give_back(&mut store.sends[at], alloc, number, from, to);
}

/// The process of this place waits in a call for the end of a move.
pub fn put_moving(store: &mut Store, at: usize, waiting: Waiting, name: MoveName)
    requires { at < length store.old.procs.items }
    ensures kernel { (pid : ThePid) (p : Process) → place_in store.old.places pid ≡ Some at → (kernel_in store.old).procs pid ≡ Some p →
        kernel_in store.new ≡ with_moving (kernel_in store.old) pid p (call_of waiting) name }
    ensures indexed { IsIndexed store.old → IsIndexed store.new }
{
    let proc = &mut store.procs[at];
    proc.activity = Activity::Blocked { waiting };
    proc.moving = Some(name);
}

/// A move of a Send, by its number.
pub fn move_of(sent: &Sent, moving: u64) -> Option<&Move>
    ensures { option_copied result ≡ move_of sent.now moving }
{
    sent.moves().get(index_of(moving))
}

/// The place of the sender of an exchange, if it waits on it.
#[tactic(auto, unfolding(vk_base::specs::Kernel::waiting_on))]
pub fn waiting_at(store: &Store, name: Name) -> Option<usize>
    requires { IsIndexed store.now }
    ensures none { IfNone result (waiting_on (kernel_in store.now) name ≡ None) }
    ensures here { IfSome result (λ at. IsAt store.now name.sender at) }
    ensures there { (p : Process) → (kernel_in store.now).procs name.sender ≡ Some p →
        IfSome result (λ at. waiting_on (kernel_in store.now) name ≡ Some p) }
{
    let at = find(store, name.sender)?;
    let _send = proc(store, at).activity.sending()?;
    if sends_of(store, at) != name.number {
        return None;
    }
    Some(at)
}

/// Bytes of a move into the memory of the process of a place.
#[inline(always)]
pub fn write_part(store: &mut Store, from: usize, number: u64, moving: u64, part: Range, to: usize)
    requires from { from < length store.old.sends.items }
    requires to { to < length store.old.procs.items }
    ensures kernel { (sender pid : ThePid) (p : Process) (e : TheExchange) (m : TheMove) →
        place_in store.old.places sender ≡ Some from → place_in store.old.places pid ≡ Some to →
        (kernel_in store.old).procs pid ≡ Some p → (kernel_in store.old).exchanges (name_of sender number) ≡ Some e →
        move_of e moving ≡ Some m → m.dest + (part.start + part.len) ≤ length p.memory →
        kernel_in store.new ≡ with_memory (kernel_in store.old) pid p (with_bytes p.memory (m.dest + part.start) (bytes_in part m.bytes)) }
    ensures indexed { IsIndexed store.old → IsIndexed store.new }
    ensures places { store.new.places ≡ store.old.places }
{
    let Some(sent) = store.sends[from].get(number) else {
        return;
    };
    let Some(opened) = move_of(sent, moving) else {
        return;
    };
    let proc = &mut store.procs[to];
    copy_part(&mut proc.memory, opened, part);
}

/// Bytes of a move into a memory, where they all lie in it.
fn copy_part(memory: &mut Memory, opened: &Move, part: Range)
    ensures { opened.now.dest + (part.start + part.len) ≤ length memory.old →
        memory.new ≡ with_bytes memory.old (opened.now.dest + part.start) (bytes_in part opened.now.bytes) }
{
    let end = u64::from(opened.dest) + u64::from(part.start) + u64::from(part.len);
    if end > u64::from(memory.size()) {
        return;
    }
    let bytes = part_of(opened.bytes.as_slice(), part);
    let _fits = memory.write(opened.dest + part.start, bytes);
}

/// The bytes of a range, as far as there are some.
fn part_of(bytes: &[u8], part: Range) -> &[u8]
    ensures { result.now ≡ bytes_in part bytes.now }
{
    let start = (part.start as usize).min(bytes.len());
    let rest = &bytes[start..];
    &rest[..(part.len as usize).min(rest.len())]
}
