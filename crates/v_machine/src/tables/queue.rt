//! The names of what has come to a process's queue, in order. What is no longer queued may still stand among them.

ghost use Rattle.std.specs.Prelude.{◌≡◌, ◌++◌, ◌∷◌, [], length, take, drop, slice_get, OnOk, OnErr};
ghost use Rattle.vk_base.specs.Kernel.{without};

use std::alloc::Global;
use std::collections::VecDeque;
use std::marker::Model;
use vk_base::{Name, NoMemory};

#[derive(Drop)]
pub struct Queue {
    names: VecDeque<Name>,
}

impl Model for Queue {
    ghost use Rattle.std.specs.Prelude.{List};
    ghost use Rattle.vk_base.specs.declared.kernel.Name.{Name};

    ghost Value = { List Name };

    ghost view = { λ q. q.names.items };
}

impl Queue {
    pub fn new(alloc: Global) -> Self
        ensures { result ≡ [] }
    {
        Queue {
            names: VecDeque::new(alloc),
        }
    }

    pub fn len(&self) -> usize
        ensures { result ≡ length self.now }
    {
        self.names.len()
    }

    /// The first name.
    pub fn front(&self) -> Option<Name>
        ensures { result ≡ slice_get self.now 0 }
    {
        self.names.front().copied()
    }

    /// Takes the first name away.
    pub fn pop(&mut self)
        ensures { self.new ≡ drop 1 self.old }
    {
        let _first = self.names.pop_front();
    }

    /// One more name, behind the others. Where memory is wanting nothing changes.
    pub fn push(&mut self, name: Name) -> Result<(), NoMemory>
        ensures ok { OnOk result (self.new ≡ self.old ++ name ∷ []) }
        ensures err { OnErr result (self.new ≡ self.old) }
    {
        self.names.push_back(name)?;
        Ok(())
    }

    /// Takes a name away, wherever it stands.
    pub fn remove(&mut self, name: Name)
        ensures { self.new ≡ without name self.old }
    {
        self.names.retain(|n| *n != name);
    }

    /// Takes away all but the first names.
    pub fn truncate(&mut self, len: usize)
        ensures { self.new ≡ take len self.old }
    {
        self.names.truncate(len);
    }
}
