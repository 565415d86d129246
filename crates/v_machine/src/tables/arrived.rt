//! What came to queues, which only clauses read. What code reads of it is kept for each process (`queue.rt`).

ghost use Rattle.std.specs.Prelude.{◌≡◌, ◌++◌, ◌∷◌, []};
ghost use Rattle.vk_base.specs.Kernel.{without};

use std::marker::Model;
use std::mem;
use std::snapshot::Snapshot;
use vk_base::Name;

/// How such a list came about.
#[derive(Drop)]
enum Growth {
    Start,
    Then {
        before: Snapshot<Growth>,
        name: Name,
    },
}

/// The names of what came to queues, in the order in which it came there last. The list has no bytes, and no code sees what is in it.
#[derive(Drop)]
pub struct Arrived {
    growth: Snapshot<Growth>,
}

impl Model for Arrived {
    ghost use Rattle.std.specs.Prelude.{List};
    ghost use Rattle.vk_base.specs.declared.kernel.Name.{Name};
    ghost use Rattle.v_machine.specs.Arrived.{names_of};

    ghost Value = { List Name };

    ghost view = { λ a. names_of a.growth.value };
}

impl Arrived {
    pub fn new() -> Arrived
        ensures { result ≡ [] }
    {
        Arrived {
            growth: Snapshot::of(&Growth::Start),
        }
    }

    /// One more name, behind the others. It stands there alone, also where it had come before.
    pub fn push(&mut self, name: Name)
        ensures { self.new ≡ without name self.old ++ name ∷ [] }
    {
        let before = mem::replace(&mut self.growth, Snapshot::of(&Growth::Start));
        self.growth = Snapshot::of(&Growth::Then { before, name });
    }
}
