//! Where each process of the configuration has its place in the tables.

ghost use Rattle.std.specs.Prelude.{◌≡◌, ◌<◌, ◌++◌, ◌∷◌, [], List, length, map, replicate, slice_get, IfOk, OnOk};
ghost use Rattle.vk_base.specs.declared.pid.Pid.{Pid as ThePid};
ghost use Rattle.v_machine.specs.Places.{pid_of, place_in, group_of, AreGrouped};

use crate::tables::groups::{Group, Placed};
use std::alloc::Global;
use std::marker::Model;
use vk_base::{NoMemory, Pid, ProcessSpec};

/// How many groups there are: at least one for each process, so that most are alone in theirs.
const GROUPS: usize = 1024;

/// The processes, in the order of the configuration.
#[derive(Drop)]
pub struct Places {
    pids: Vec<Pid>,
    /// Each process with its place, in the group that its numbers give.
    groups: Vec<Group>,
}

impl Model for Places {
    ghost use Rattle.std.specs.Prelude.{◌≡◌, List, length};
    ghost use Rattle.vk_base.specs.declared.pid.Pid.{Pid};
    ghost use Rattle.v_machine.specs.Places.{AreGrouped};
    ghost use Rattle.v_machine.specs.declared.tables.places.TheConstants.{GROUPS};

    ghost Value = { List Pid };

    ghost view = { λ p. p.pids.items };

    ghost invariant = { λ p. (length p.groups.items ≡ GROUPS) × AreGrouped p.pids.items p.groups.items };
}

impl Places {
    /// The places of these processes.
    pub fn new(alloc: Global, specs: &[ProcessSpec]) -> Result<Self, NoMemory>
        ensures { IfOk result (λ p. p ≡ map pid_of specs.now) }
    {
        let mut pids = Vec::new(alloc);
        let mut groups = no_groups(alloc)?;
        for spec in specs {
            add(&mut groups, alloc, spec.pid, pids.len())?;
            pids.push(spec.pid)?;
        }
        Ok(Places { pids, groups })
    }

    /// The place of a process, if it is in the configuration.
    pub fn find(&self, pid: Pid) -> Option<usize>
        ensures { result ≡ place_in self.now pid }
    {
        self.groups[group_of(pid)].find(pid)
    }

    /// The process of a place.
    pub fn pid(&self, at: usize) -> Option<Pid>
        ensures { result ≡ slice_get self.now at }
    {
        self.pids.get(at).copied()
    }
}

/// The group of a process.
fn group_of(pid: Pid) -> usize
    ensures value { result ≡ group_of pid }
    ensures low { result < GROUPS }
{
    (usize::from(pid.host) * 32 + usize::from(pid.local)) % GROUPS
}

/// Groups of no processes.
fn no_groups(alloc: Global) -> Result<Vec<Group>, NoMemory>
    ensures { IfOk result (λ g. g.items ≡ replicate GROUPS []) }
{
    let mut groups = Vec::new(alloc);
    for _group in 0..GROUPS {
        groups.push(Group::new(alloc))?;
    }
    Ok(groups)
}

/// One more process, which has this place.
fn add(groups: &mut Vec<Group>, alloc: Global, pid: Pid, at: usize) -> Result<(), NoMemory>
    requires { length groups.old.items ≡ GROUPS }
    ensures count { length groups.new.items ≡ GROUPS }
    ensures grouped { OnOk result ((pids : List ThePid) → length pids ≡ at → AreGrouped pids groups.old.items →
        AreGrouped (pids ++ pid ∷ []) groups.new.items) }
{
    groups[group_of(pid)].push(alloc, Placed { pid, at })
}
