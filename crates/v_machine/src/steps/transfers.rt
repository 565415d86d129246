//! Steps of remote moves.

ghost use Rattle.std.specs.Prelude.{◌≡◌, ◌<◌, ◌≤◌, ◌+◌, ℕ, true, nat_lt, length, Some, None, IfSome, IfNone, is_some, option_copied, option_map};
ghost use Rattle.vk_types.specs.Types.{Process};
ghost use Rattle.vk_base.specs.declared.kernel.Move.{Move as TheMove};
ghost use Rattle.vk_base.specs.declared.pid.Pid.{Pid as ThePid};
ghost use Rattle.vk_base.specs.Kernel.{holds_of, move_of};
ghost use Rattle.vk_base.specs.Steps.{only_if, is_next, is_in_move, is_complete, written_process, move_ending, copy_step, end_step};
ghost use Rattle.vk_base.specs.Activities.{answer_of};
ghost use Rattle.v_machine.specs.Kept.{IsKept, IsIndexed, IsAt, kernel_in};
ghost use Rattle.v_machine.specs.Moves.{IsWritten, Notes, Opens, noted_for};
ghost use Rattle.v_machine.specs.Places.{place_in};
ghost use Rattle.v_machine.specs.Rules.{GoesOrNot};
ghost use Rattle.v_machine.specs.Tables.{process_of};

use crate::refusal::ApplyRefusal;
use crate::tables::Store;
use crate::tables::bytes::own_bytes;
use crate::tables::moving::{move_of, put_done, put_open, waiting_at, write_part};
use crate::tables::proc::Proc;
use crate::tables::put::{find, proc, put_activity, sent_of};
use crate::tables::queues::named;
use crate::tables::sent::Sent;
use std::alloc::Global;
use vk_base::{Direction, Ending, List, Move, MoveName, Name, Outcome, Pid, Range, Refusal};

/// OpenMove, where at most so many more bytes may be noted.
#[tactic(auto, unfolding(vk_base::specs::Steps::opening_move))]
pub fn open_move(
    store: &mut Store,
    alloc: Global,
    name: Name,
    moving: u64,
    room: u64,
) -> Result<(), ApplyRefusal>
    requires { IsKept store.old }
    ensures { Opens name moving room store.old store.new result }
{
    let Some(at) = waiting_at(store, name) else {
        return Err(ApplyRefusal::NotAllowed);
    };
    let Some(sent) = sent_of(store, at, name.number) else {
        return Err(ApplyRefusal::NotAllowed);
    };
    let Some(later) = later_move(sent, moving) else {
        return Err(ApplyRefusal::NotAllowed);
    };
    let noted = noted_bytes(store, alloc, at, later, room)?;
    put_open(store, at, name.number, moving, noted);
    Ok(())
}

/// How many bytes are noted where a move is opened.
pub fn opening_bytes(store: &Store, name: Name, moving: u64) -> u64
    requires { IsIndexed store.now }
    ensures { result ≡ noted_for store.now name moving }
{
    let Some(at) = find(store, name.sender) else {
        return 0;
    };
    let Some(sent) = sent_of(store, at, name.number) else {
        return 0;
    };
    let Some(opened) = move_of(sent, moving) else {
        return 0;
    };
    match opened.direction {
        Direction::To => 0,
        Direction::From => u64::from(opened.count),
    }
}

/// A move, if its number is above that of the open one.
fn later_move(sent: &Sent, moving: u64) -> Option<&Move>
    ensures { option_copied result ≡ only_if (nat_lt sent.now.opened moving) (move_of sent.now moving) }
{
    if sent.opened() >= moving {
        return None;
    }
    move_of(sent, moving)
}

/// The bytes that are noted where a move is opened, from the memory of the process of this place.
fn noted_bytes(
    store: &Store,
    alloc: Global,
    at: usize,
    later: &Move,
    room: u64,
) -> Result<Option<List<u8>>, ApplyRefusal>
    requires { at < length store.now.procs.items }
    ensures { (pid : ThePid) (p : Process) → place_in store.now.places pid ≡ Some at → (kernel_in store.now).procs pid ≡ Some p →
        (later.now.direction ≡ Direction.From → later.now.src + later.now.count ≤ length p.memory) → Notes p later.now room result }
{
    if later.direction == Direction::To {
        return Ok(None);
    }
    if u64::from(later.count) > room {
        return Err(ApplyRefusal::Limit);
    }
    let range = Range {
        start: later.src,
        len: later.count,
    };
    let bytes = own_bytes(store, alloc, at, range)?;
    Ok(Some(bytes))
}

/// Copy: the bytes of a range of a move.
#[tactic(auto, unfolding(vk_base::specs::Steps::copying))]
pub fn copy(store: &mut Store, name: Name, moving: u64, part: Range) -> Option<()>
    requires { IsKept store.old }
    ensures { GoesOrNot (copy_step (kernel_in store.old) name moving part.start part.len) store.old store.new result }
{
    let from = find(store, name.sender)?;
    let sent = sent_of(store, from, name.number)?;
    let opened = move_of(sent, moving)?;
    let done = done_after(sent, moving, opened.count, part)?;
    let to = written_at(store, name, moving, opened)?;
    write_part(store, from, name.number, moving, part, to);
    put_done(store, from, name.number, done);
    Some(())
}

/// How many bytes of the open move, which has so many, are written after those of this range, if these are the next ones.
fn done_after(sent: &Sent, moving: u64, count: u32, part: Range) -> Option<u32>
    ensures next { (m : TheMove) → m.count ≡ count → is_next sent.now moving m part.start part.len ≡ is_some result }
    ensures done { IfSome result (λ done. done ≡ part.start + part.len) }
{
    if sent.opened() != moving || sent.done() != part.start || part.len == 0 {
        return None;
    }
    if u64::from(part.start) + u64::from(part.len) > u64::from(count) {
        return None;
    }
    Some(part.start + part.len)
}

/// The place of the process whose memory the bytes of a move go to, if it is there for them.
#[inline(always)]
fn written_at(store: &Store, name: Name, moving: u64, opened: &Move) -> Option<usize>
    requires { IsIndexed store.now }
    ensures none { IfNone result (written_process (kernel_in store.now) name moving opened.now.mover opened.now.direction ≡ None) }
    ensures there { IfSome result (λ at. IsWritten store.now name moving opened.now at) }
{
    match opened.direction {
        Direction::To => waiting_at(store, name),
        Direction::From => moving_at(store, opened.mover, name, moving),
    }
}

/// The place of a process, if it is blocked in a move.
fn moving_at(store: &Store, pid: Pid, name: Name, moving: u64) -> Option<usize>
    requires { IsIndexed store.now }
    ensures none { IfNone result (written_process (kernel_in store.now) name moving pid Direction.From ≡ None) }
    ensures here { IfSome result (λ at. IsAt store.now pid at) }
    ensures there { (p : Process) → (kernel_in store.now).procs pid ≡ Some p → IfSome result (λ at. is_in_move name moving p ≡ true) }
{
    let at = find(store, pid)?;
    if !is_in_move(proc(store, at), name, moving) {
        return None;
    }
    Some(at)
}

/// Whether a process is blocked in a move.
fn is_in_move(proc: &Proc, name: Name, moving: u64) -> bool
    ensures { (sends lookups : ℕ) → result ≡ is_in_move name moving (process_of proc.now sends lookups) }
{
    if !proc.activity.is_moving() {
        return false;
    }
    match proc.moving {
        Some(begun) => begun.exchange == name && begun.number == moving,
        None => false,
    }
}

/// End.
#[tactic(auto, unfolding(vk_base::specs::Steps::ending))]
pub fn end(store: &mut Store, pid: Pid, why: Ending) -> Option<()>
    requires { IsKept store.old }
    ensures { GoesOrNot (end_step (kernel_in store.old) pid why) store.old store.new result }
{
    let at = find(store, pid)?;
    let proc = proc(store, at);
    let activity = proc.activity;
    if !activity.is_moving() {
        return None;
    }
    let name = proc.moving?;
    let outcome = move_outcome(store, name, why)?;
    put_activity(store, at, activity.ended(outcome));
    Some(())
}

/// What a move ends with, if it may end so.
fn move_outcome(store: &Store, name: MoveName, why: Ending) -> Option<Outcome>
    requires { IsIndexed store.now }
    ensures { option_map answer_of result ≡ move_ending (kernel_in store.now) name why }
{
    match why {
        Ending::Ok if is_complete(store, name) => Some(Outcome::Ok),
        Ending::Gone if waiting_at(store, name.exchange).is_none() => Some(Outcome::Refused {
            why: Refusal::Gone,
        }),
        Ending::TimedOut => Some(Outcome::Refused {
            why: Refusal::TimedOut,
        }),
        _ => None,
    }
}

/// Whether a move is the open one of its exchange, and all its bytes were written.
fn is_complete(store: &Store, name: MoveName) -> bool
    ensures { result ≡ holds_of (λ e. is_complete e name.number) ((kernel_in store.now).exchanges name.exchange) }
{
    match named(&store.places, &store.sends, name.exchange) {
        Some(sent) => is_written(sent, name.number),
        None => false,
    }
}

/// Whether a move is the open one of its Send, and all its bytes were written.
fn is_written(sent: &Sent, moving: u64) -> bool
    ensures { result ≡ is_complete sent.now moving }
{
    match move_of(sent, moving) {
        Some(opened) => sent.opened() == moving && sent.done() == opened.count,
        None => false,
    }
}
