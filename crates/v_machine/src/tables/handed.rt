//! Where a message was handed on to, which few are.

ghost use Rattle.std.specs.Prelude.{◌≡◌, Some, None, OnOk, OnErr};

use std::alloc::Global;
use std::marker::Model;
use vk_base::{Message, NoMemory, Pid};

/// The process that a message was handed on to last, and the message that it is shown.
#[derive(Clone, Copy)]
pub struct Handing {
    pub at: Pid,
    pub shown: Message,
}

/// This, where the message was handed on: else it takes no memory of its own.
#[derive(Drop)]
pub struct Handed {
    last: Option<Box<Handing>>,
}

impl Model for Handed {
    ghost use Rattle.std.specs.Prelude.{Option};
    ghost use Rattle.v_machine.specs.Handed.{handing_in};
    ghost use Rattle.v_machine.specs.declared.tables.handed.Handing.{Handing};

    ghost Value = { Option Handing };

    ghost view = { λ h. handing_in h.last };
}

impl Handed {
    /// Not handed on.
    pub fn none() -> Self
        ensures { result ≡ None }
    {
        Handed { last: None }
    }

    pub fn get(&self) -> Option<Handing>
        ensures { result ≡ self.now }
    {
        match &self.last {
            Some(last) => Some(**last),
            None => None,
        }
    }

    /// Where memory is wanting nothing changes.
    pub fn put(&mut self, alloc: Global, handing: Handing) -> Result<(), NoMemory>
        ensures ok { OnOk result (self.new ≡ Some handing) }
        ensures err { OnErr result (self.new ≡ self.old) }
    {
        // A message that is handed on once more takes no memory for it.
        if let Some(last) = &mut self.last {
            **last = handing;
            return Ok(());
        }
        let last = Box::new(alloc, handing)?;
        self.last = Some(last);
        Ok(())
    }
}
