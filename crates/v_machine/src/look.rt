//! What a [`LeanMachine`] keeps, looked at. An exchange that is over is not there, whether its tables still have it or not.

ghost use Rattle.std.specs.Prelude.{◌≡◌, ◌&&◌, ℕ, List, Some, None, IfSome, IfNone, option_copied};
ghost use Rattle.vk_base.specs.Kernel.{is_told};
ghost use Rattle.v_machine.specs.Kept.{IsIndexed, kernel_in};
ghost use Rattle.v_machine.specs.Look.{process_by};
ghost use Rattle.v_machine.specs.Spent.{current_kernel, has_ended, is_past};
ghost use Rattle.v_machine.specs.Tables.{kernel_of};

use crate::lean::LeanMachine;
use crate::steps::lookups::{is_told, lookup_of, lookups_of};
use crate::tables::Store;
use crate::tables::put::{find, proc, sends_of};
use crate::tables::queues::named;
use crate::tables::sent::Sent;
use vk_base::{Activity, Lookup, MoveName, Name, Pid};

/// What is kept of a process, but its memory.
#[derive(Clone, Copy)]
pub struct ProcessView {
    pub alive: bool,
    pub activity: Activity,
    /// How many Sends it has begun.
    pub sends: u64,
    /// How many lookups it has begun.
    pub lookups: u64,
    /// The remote move that it began last.
    pub moving: Option<MoveName>,
}

/// The process, if it is in the configuration.
fn process(store: &Store, pid: Pid) -> Option<ProcessView>
    requires { IsIndexed store.now }
    ensures none { IfNone result ((kernel_in store.now).procs pid ≡ None) }
    ensures some { IfSome result (λ v. (m : List ℕ) × ((kernel_in store.now).procs pid ≡ Some (process_by v m))) }
{
    let at = find(store, pid)?;
    let proc = proc(store, at);
    Some(ProcessView {
        alive: proc.alive,
        activity: proc.activity,
        sends: sends_of(store, at),
        lookups: lookups_of(store, at),
        moving: proc.moving,
    })
}

/// Whether the exchange of this name is over: it has ended, and its sender has begun a later Send.
fn is_over(store: &Store, name: Name, sent: &Sent) -> bool
    requires { IsIndexed store.now }
    ensures { result ≡ (is_past name.number ((kernel_in store.now).procs name.sender) && has_ended sent.now) }
{
    match process(store, name.sender) {
        Some(process) => name.number < process.sends && sent.has_ended(),
        None => false,
    }
}

/// The exchange of this name, if it was begun and is not over.
fn exchange(store: &Store, name: Name) -> Option<&Sent>
    requires { IsIndexed store.now }
    ensures { (current_kernel (kernel_in store.now)).exchanges name ≡ option_copied result }
{
    let Some(sent) = named(&store.places, &store.sends, name) else {
        return None;
    };
    if is_over(store, name, sent) {
        return None;
    }
    Some(sent)
}

/// The lookup of this number of a process, if it was begun.
fn lookup(store: &Store, asker: Pid, number: u64) -> Option<&Lookup>
    requires { IsIndexed store.now }
    ensures { (kernel_in store.now).lookups asker number ≡ option_copied result }
{
    let Some(at) = find(store, asker) else {
        return None;
    };
    lookup_of(store, at, number)
}

/// Whether the station of the process tells others that it has registered the process under this logical id.
fn is_told_there(store: &Store, logical: u32, pid: Pid) -> bool
    ensures { result ≡ is_told ((kernel_in store.now).names pid.host) logical pid }
{
    is_told(&store.names, logical, pid)
}

impl LeanMachine {
    /// The process, if it is in the configuration.
    pub fn process(&self, pid: Pid) -> Option<ProcessView>
        ensures none { IfNone result ((kernel_of self.now).procs pid ≡ None) }
        ensures some { IfSome result (λ v. (m : List ℕ) × ((kernel_of self.now).procs pid ≡ Some (process_by v m))) }
    {
        process(&self.machine.store, pid)
    }

    /// The exchange of this name, if it was begun and is not over.
    pub fn exchange(&self, name: Name) -> Option<&Sent>
        ensures { (current_kernel (kernel_of self.now)).exchanges name ≡ option_copied result }
    {
        exchange(&self.machine.store, name)
    }

    /// The lookup of this number of a process, if it was begun.
    pub fn lookup(&self, asker: Pid, number: u64) -> Option<&Lookup>
        ensures { (kernel_of self.now).lookups asker number ≡ option_copied result }
    {
        lookup(&self.machine.store, asker, number)
    }

    /// Whether the station of the process tells others that it has registered the process under this logical id.
    pub fn is_told(&self, logical: u32, pid: Pid) -> bool
        ensures { result ≡ is_told ((kernel_of self.now).names pid.host) logical pid }
    {
        is_told_there(&self.machine.store, logical, pid)
    }
}
