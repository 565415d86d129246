ghost use Rattle.std.specs.Prelude.{◌≡◌, ◌++◌, ◌∷◌, []};

use std::marker::Model;
use std::mem;
use std::snapshot::Snapshot;

// How a history came about, which only clauses read.
#[derive(Drop)]
enum Growth<E> {
    Start,
    Then {
        before: Snapshot<Growth<E>>,
        caller: u32,
        event: Snapshot<E>,
    },
}

/// A history that only clauses read: its entries, each an event with its caller's number. It has no bytes, and no code sees what is
/// in it.
#[derive(Drop)]
pub struct Past<E> {
    growth: Snapshot<Growth<E>>,
}

impl<E> Model for Past<E> {
    ghost use Rattle.std.specs.Prelude.{List, ℕ};
    ghost use Rattle.turn_cell.specs.Entries.{entries_of};

    ghost Value = { List (ℕ × E) };

    ghost view = { λ p. entries_of p.growth.value };
}

impl<E> Past<E> {
    /// Of no entries.
    pub fn new() -> Past<E>
        ensures { result ≡ [] }
    {
        Past {
            growth: Snapshot::of(&Growth::Start),
        }
    }

    /// One entry more.
    pub fn push(&mut self, caller: u32, event: &E)
        ensures { self.new ≡ self.old ++ (caller, event.now) ∷ [] }
    {
        let before = mem::replace(&mut self.growth, Snapshot::of(&Growth::Start));
        self.growth = Snapshot::of(&Growth::Then {
            before,
            caller,
            event: Snapshot::of(event),
        });
    }
}
