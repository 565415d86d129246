ghost use Rattle.std.specs.Prelude.{◌≡◌, ◌<◌, ◌≤◌, ◌++◌, ◌∷◌, [], not, nat_le, length, filter, is_err, position, vec_len, vec_capacity, IfOk, OnOk, OnErr};
ghost use Rattle.std.specs.List.{IsDistinct};
ghost use Rattle.vk_base.specs.declared.limits.TheConstants.{NAMES};
ghost use Rattle.vk_base.specs.declared.kernel.Registration.{Registration as TheRegistration};
ghost use Rattle.vk_base.specs.declared.pid.Pid.{Pid as ThePid};
ghost use Rattle.vk_base.specs.Calls.{with_name};
ghost use Rattle.vk_base.specs.Kernel.{found_here, found_there, holds_of, is_found_here, is_found_there, is_told, others};
ghost use Rattle.vk_base.specs.Pids.{same_pid};
ghost use Rattle.vk_names.specs.Kept.{is_under, same_id};

use std::alloc::Global;
use std::marker::Model;
use thiserror::Error;
use vk_base::limits::NAMES;
use vk_base::{NoMemory, Pid, Registration, Scope};

/// A station has registered as many names under other logical ids as it can.
#[derive(Clone, Copy, Debug, PartialEq, Eq, Error)]
#[error("no more logical ids can be registered")]
pub struct NamesFull;

/// The names that one station has registered, at most one under each logical id.
#[derive(Drop)]
pub struct Names {
    entries: Vec<Registration>,
}

impl Model for Names {
    ghost use Rattle.std.specs.Prelude.{List, ◌≤◌, vec_capacity};
    ghost use Rattle.std.specs.List.{IsDistinct};
    ghost use Rattle.vk_base.specs.declared.kernel.Registration.{Registration};
    ghost use Rattle.vk_base.specs.declared.limits.TheConstants.{NAMES};
    ghost use Rattle.vk_names.specs.Kept.{same_id};

    ghost Value = { List Registration };

    ghost view = { λ n. n.entries.items };

    ghost invariant = { λ n. (NAMES ≤ vec_capacity n.entries) × IsDistinct same_id n.entries.items };
}

impl Names {
    /// No names. All memory is taken here.
    pub fn new(alloc: Global) -> Result<Self, NoMemory>
        ensures { IfOk result (λ n. n ≡ []) }
    {
        Ok(Names {
            entries: Vec::with_capacity(alloc, NAMES)?,
        })
    }

    /// Registers the process under the logical id, in place of an older entry of that id. Takes no memory.
    ///
    /// # Errors
    ///
    /// [`NamesFull`] exactly where 64 other ids are registered. Nothing changes then.
    pub fn set(&mut self, logical: u32, pid: Pid, scope: Scope) -> Result<(), NamesFull>
        ensures refused { is_err result ≡ nat_le NAMES (length (others self.old logical)) }
        ensures ok { OnOk result (self.new ≡ with_name self.old (record { logical = logical; pid = pid; scope = scope })) }
        ensures err { OnErr result (self.new ≡ self.old) }
    {
        let older = place_of(&self.entries, logical);
        if is_full(&self.entries, older, logical) {
            return Err(NamesFull);
        }
        keep_others(&mut self.entries, older, logical);
        let name = Registration {
            logical,
            pid,
            scope,
        };
        push_name(&mut self.entries, name);
        Ok(())
    }

    /// The process that the station itself finds under the logical id: that of the entry, where its scope is local or both.
    pub fn find_local(&self, logical: u32) -> Option<Pid>
        ensures { result ≡ found_here self.now logical }
    {
        let found = self
            .entries
            .iter()
            .find(|r| r.logical == logical && is_found_here(r.scope))?;
        Some(found.pid)
    }

    /// The process that the station tells others under the logical id: that of the entry, where its scope is remote or both.
    pub fn find_remote(&self, logical: u32) -> Option<Pid>
        ensures found { result ≡ found_there self.now logical }
        ensures told { (pid : ThePid) → is_told self.now logical pid ≡ holds_of (λ (found : ThePid). same_pid found pid) result }
    {
        found_there(&self.entries, logical)
    }

    /// Takes out all entries of the process.
    pub fn forget(&mut self, pid: Pid)
        ensures { self.new ≡ filter (λ (r : TheRegistration). not (same_pid r.pid pid)) self.old }
    {
        take_out(&mut self.entries, pid);
    }
}

/// Where the name stands that is registered under the logical id.
fn place_of(names: &[Registration], logical: u32) -> Option<usize>
    ensures { result ≡ position (is_under logical) names.now }
{
    names.iter().position(|r| r.logical == logical)
}

/// Whether as many names as can be are registered under other logical ids.
fn is_full(names: &[Registration], older: Option<usize>, logical: u32) -> bool
    requires older { older ≡ position (is_under logical) names.now }
    requires once { IsDistinct same_id names.now }
    ensures { result ≡ nat_le NAMES (length (others names.now logical)) }
{
    match older {
        Some(_) => names.len() > NAMES,
        None => names.len() >= NAMES,
    }
}

/// Takes out the older name, where there is one.
fn keep_others(names: &mut Vec<Registration>, older: Option<usize>, logical: u32)
    requires older { older ≡ position (is_under logical) names.old.items }
    requires once { IsDistinct same_id names.old.items }
    ensures items { names.new.items ≡ others names.old.items logical }
    ensures capacity { vec_capacity names.new ≡ vec_capacity names.old }
{
    if let Some(at) = older {
        let _older = names.remove(at);
    }
}

/// Takes out the names of the process.
fn take_out(names: &mut Vec<Registration>, pid: Pid)
    ensures items { names.new.items ≡ filter (λ (r : TheRegistration). not (same_pid r.pid pid)) names.old.items }
    ensures capacity { vec_capacity names.new ≡ vec_capacity names.old }
{
    names.retain(|r| r.pid != pid);
}

/// One more name, for which there is room.
fn push_name(names: &mut Vec<Registration>, name: Registration)
    requires { vec_len names.old < vec_capacity names.old }
    ensures items { names.new.items ≡ names.old.items ++ name ∷ [] }
    ensures capacity { vec_capacity names.old ≤ vec_capacity names.new }
{
    if names.push(name).is_err() {
        unreachable!();
    }
}

fn is_found_here(scope: Scope) -> bool
    ensures { result ≡ is_found_here scope }
{
    !matches!(scope, Scope::Remote)
}

fn found_there(names: &[Registration], logical: u32) -> Option<Pid>
    ensures { result ≡ found_there names.now logical }
{
    let found = names
        .iter()
        .find(|r| r.logical == logical && is_found_there(r.scope))?;
    Some(found.pid)
}

fn is_found_there(scope: Scope) -> bool
    ensures { result ≡ is_found_there scope }
{
    !matches!(scope, Scope::Local)
}
