//! Changes of one process.

ghost use Rattle.std.specs.Prelude.{◌≡◌, ◌<◌, [], length, Some, None, IfSome, IfNone, is_some, option_copied, OnOk, OnErr};
ghost use Rattle.std.specs.Bool.{OnTrue, OnFalse};
ghost use Rattle.vk_types.specs.Types.{Process};
ghost use Rattle.vk_base.specs.declared.pid.Pid.{Pid as ThePid};
ghost use Rattle.vk_base.specs.declared.kernel.Exchange.{Exchange as TheExchange};
ghost use Rattle.vk_base.specs.declared.kernel.Stage.TheVariants as stages;
ghost use Rattle.vk_base.specs.Kernel.{name_of, is_live, with_state, with_memory, with_stage};
ghost use Rattle.vk_base.specs.Ranges.{with_bytes, range_of, lies_in};
ghost use Rattle.vk_base.specs.Activities.{state_of};
ghost use Rattle.v_machine.specs.Kept.{IsIndexed, IsAt, IsNoNearer, kernel_in};
ghost use Rattle.v_machine.specs.Places.{place_in, count_at};
ghost use Rattle.v_machine.specs.Rules.{IsLive, Stays};
ghost use Rattle.v_machine.specs.Tables.{process_of};

use crate::tables::proc::Proc;
use crate::tables::sent::{Replied, Sent};
use crate::tables::{Store, begun};
use std::alloc::Global;
use vk_base::{Activity, Message, NoMemory, Pid};

/// The place of a process, if it is in the configuration.
pub fn find(store: &Store, pid: Pid) -> Option<usize>
    requires { IsIndexed store.now }
    ensures place { result ≡ place_in store.now.places pid }
    ensures absent { IfNone result ((kernel_in store.now).procs pid ≡ None) }
    ensures here { IfSome result (λ at. IsAt store.now pid at) }
{
    store.places.find(pid)
}

/// What is kept of the process of this place.
pub fn proc(store: &Store, at: usize) -> &Proc
    requires { at < length store.now.procs.items }
    ensures { (pid : ThePid) → place_in store.now.places pid ≡ Some at →
        (kernel_in store.now).procs pid ≡
        Some (process_of result.now (count_at store.now.sends.items at) (count_at store.now.asked.items at)) }
{
    &store.procs[at]
}

/// How many bytes of memory the process of this place has.
pub fn size_of(store: &Store, at: usize) -> u32
    requires { at < length store.now.procs.items }
    ensures { (pid : ThePid) (p : Process) → place_in store.now.places pid ≡ Some at → (kernel_in store.now).procs pid ≡ Some p →
        result ≡ length p.memory }
{
    store.procs[at].memory.size()
}

/// The process of this place does something else.
pub fn put_activity(store: &mut Store, at: usize, activity: Activity)
    requires { at < length store.old.procs.items }
    ensures kernel { (pid : ThePid) (p : Process) → place_in store.old.places pid ≡ Some at → (kernel_in store.old).procs pid ≡ Some p →
        kernel_in store.new ≡ with_state (kernel_in store.old) pid p (state_of activity) }
    ensures indexed { IsIndexed store.old → IsIndexed store.new }
{
    store.procs[at].activity = activity;
}

/// Writes bytes into the memory of the process of this place. Where they do not all lie in it, nothing changes.
pub fn put_bytes(store: &mut Store, at: usize, start: u32, bytes: &[u8]) -> bool
    requires { at < length store.old.procs.items }
    ensures fits { (pid : ThePid) (p : Process) → place_in store.old.places pid ≡ Some at → (kernel_in store.old).procs pid ≡ Some p →
        lies_in (range_of start (length bytes.now)) (length p.memory) ≡ result }
    ensures kernel { OnTrue result ((pid : ThePid) (p : Process) → place_in store.old.places pid ≡ Some at →
        (kernel_in store.old).procs pid ≡ Some p →
        kernel_in store.new ≡ with_memory (kernel_in store.old) pid p (with_bytes p.memory start bytes.now)) }
    ensures same { OnFalse result (kernel_in store.new ≡ kernel_in store.old) }
    ensures indexed { IsIndexed store.old → IsIndexed store.new }
{
    match store.procs[at].memory.write(start, bytes) {
        Ok(()) => true,
        Err(_) => false,
    }
}

/// Whether there is this process, and it is alive.
pub fn is_live(store: &Store, pid: Pid) -> bool
    requires { IsIndexed store.now }
    ensures { result ≡ is_live ((kernel_in store.now).procs pid) }
{
    match find(store, pid) {
        Some(at) => proc(store, at).alive,
        None => false,
    }
}

/// The place of a process that is alive.
pub fn find_live(store: &Store, pid: Pid) -> Option<usize>
    requires { IsIndexed store.now }
    ensures live { is_some result ≡ is_live ((kernel_in store.now).procs pid) }
    ensures here { IfSome result (λ at. IsAt store.now pid at) }
{
    let at = find(store, pid)?;
    if !proc(store, at).alive {
        return None;
    }
    Some(at)
}

/// How many Sends the process of this place has begun.
pub fn sends_of(store: &Store, at: usize) -> u64
    requires { at < length store.now.sends.items }
    ensures { result ≡ count_at store.now.sends.items at }
{
    store.sends[at].count()
}

/// A Send of the process of this place.
pub fn sent_of(store: &Store, at: usize, number: u64) -> Option<&Sent>
    requires { at < length store.now.sends.items }
    ensures { (pid : ThePid) → place_in store.now.places pid ≡ Some at →
        (kernel_in store.now).exchanges (name_of pid number) ≡ option_copied result }
{
    store.sends[at].get(number)
}

/// The Send of this number is replied to, by a message alone.
pub fn put_answer(store: &mut Store, alloc: Global, at: usize, number: u64, message: Message)
    requires low { at < length store.old.sends.items }
    requires live { IsLive store.old at number }
    ensures kernel { (pid : ThePid) (e : TheExchange) → place_in store.old.places pid ≡ Some at →
        (kernel_in store.old).exchanges (name_of pid number) ≡ Some e →
        kernel_in store.new ≡ with_stage (kernel_in store.old) (name_of pid number) e (stages.Replied message 0 []) }
    ensures indexed { (pid : ThePid) (e : TheExchange) → place_in store.old.places pid ≡ Some at →
        (kernel_in store.old).exchanges (name_of pid number) ≡ Some e →
        IsNoNearer e.stage (stages.Replied message 0 []) → IsIndexed store.old → IsIndexed store.new }
{
    begun::answer(&mut store.sends[at], alloc, number, message);
}

/// The Send of this number is replied to, with bytes for its sender's memory. Where memory is wanting nothing changes.
pub fn put_answer_with(
    store: &mut Store,
    alloc: Global,
    at: usize,
    number: u64,
    reply: Replied,
) -> Result<(), NoMemory>
    requires low { at < length store.old.sends.items }
    requires live { IsLive store.old at number }
    ensures kernel { OnOk result ((pid : ThePid) (e : TheExchange) → place_in store.old.places pid ≡ Some at →
        (kernel_in store.old).exchanges (name_of pid number) ≡ Some e →
        kernel_in store.new ≡ with_stage (kernel_in store.old) (name_of pid number) e
        (stages.Replied reply.message reply.dest reply.bytes)) }
    ensures indexed { OnOk result ((pid : ThePid) (e : TheExchange) → place_in store.old.places pid ≡ Some at →
        (kernel_in store.old).exchanges (name_of pid number) ≡ Some e →
        IsNoNearer e.stage (stages.Replied reply.message reply.dest reply.bytes) → IsIndexed store.old → IsIndexed store.new) }
    ensures err { OnErr result (IsIndexed store.old → Stays store.old store.new) }
{
    begun::answer_with(&mut store.sends[at], alloc, number, reply)
}
