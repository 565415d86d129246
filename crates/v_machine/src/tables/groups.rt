//! Groups of processes, so that each process is found among few.

ghost use Rattle.std.specs.Prelude.{◌≡◌, ◌++◌, ◌∷◌, [], OnOk, IfOk};
ghost use Rattle.v_machine.specs.Places.{found_in};

use crate::tables::same::is_same;
use std::alloc::Global;
use std::marker::Model;
use vk_base::{NoMemory, Pid};

/// A process, and its place in the tables.
#[derive(Clone, Copy)]
pub struct Placed {
    pub pid: Pid,
    pub at: usize,
}

/// The processes of a group. One alone, as most are, stands in the group itself, and not in a list apart.
#[derive(Drop)]
pub enum Grouped {
    One { placed: Placed },
    List { items: Vec<Placed> },
}

/// The processes of one group.
#[derive(Drop)]
pub struct Group {
    grouped: Grouped,
}

impl Model for Group {
    ghost use Rattle.std.specs.Prelude.{List};
    ghost use Rattle.v_machine.specs.declared.tables.groups.Placed.{Placed};
    ghost use Rattle.v_machine.specs.Groups.{placed_in};

    ghost Value = { List Placed };

    ghost view = { λ g. placed_in g.grouped };
}

impl Group {
    pub fn new(alloc: Global) -> Self
        ensures { result ≡ [] }
    {
        Group {
            grouped: Grouped::List {
                items: Vec::new(alloc),
            },
        }
    }

    /// One more process.
    pub fn push(&mut self, alloc: Global, placed: Placed) -> Result<(), NoMemory>
        ensures { OnOk result (self.new ≡ self.old ++ placed ∷ []) }
    {
        match &mut self.grouped {
            Grouped::One { placed: first } => {
                let items = pair(alloc, *first, placed)?;
                self.grouped = Grouped::List { items };
                Ok(())
            }
            Grouped::List { items } => {
                if items.is_empty() {
                    self.grouped = Grouped::One { placed };
                    return Ok(());
                }
                items.push(placed)?;
                Ok(())
            }
        }
    }

    /// The place of a process of the group.
    #[tactic(auto, unfolding(crate::specs::Places::found_in))]
    pub fn find(&self, pid: Pid) -> Option<usize>
        ensures { result ≡ found_in self.now pid }
    {
        match &self.grouped {
            Grouped::One { placed } => {
                if is_same(placed.pid, pid) {
                    Some(placed.at)
                } else {
                    None
                }
            }
            Grouped::List { items } => found_in(items, pid),
        }
    }
}

/// A list of two.
fn pair(alloc: Global, first: Placed, second: Placed) -> Result<Vec<Placed>, NoMemory>
    ensures { IfOk result (λ v. v.items ≡ first ∷ second ∷ []) }
{
    let mut items = Vec::new(alloc);
    items.push(first)?;
    items.push(second)?;
    Ok(items)
}

#[tactic(auto, unfolding(crate::specs::Places::found_in))]
fn found_in(items: &[Placed], pid: Pid) -> Option<usize>
    ensures { result ≡ found_in items.now pid }
{
    let placed = items.iter().find(|p| is_same(p.pid, pid))?;
    Some(placed.at)
}
