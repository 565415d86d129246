//! The lookups of one process: changes of one of them.

ghost use Rattle.std.specs.Prelude.{◌≡◌, OnOk, OnErr};
ghost use Rattle.v_machine.specs.Lists.{change_numbered};
ghost use Rattle.v_machine.specs.Tables.{with_candidate};

use crate::tables::numbered::Numbered;
use vk_base::{Lookup, NoMemory, Pid};

/// A process is told for the lookup of a number. Where memory is wanting nothing changes.
#[tactic(auto, using(crate::proofs::Changes::changes))]
pub fn tell(lookups: &mut Numbered<Lookup>, number: u64, pid: Pid) -> Result<(), NoMemory>
    ensures ok { OnOk result (lookups.new ≡ change_numbered number (with_candidate pid) lookups.old) }
    ensures err { OnErr result (lookups.new ≡ lookups.old) }
{
    match lookups.get_mut(number) {
        Some(lookup) => lookup.candidates.push(pid),
        None => Ok(()),
    }
}
