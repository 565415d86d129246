//! The machine that gives bytes of remote moves back, and forgets exchanges that are over.

ghost use Rattle.std.specs.Prelude.{◌≡◌, IfOk};
ghost use Rattle.vk_base.specs.Kernel.{initial_kernel};
ghost use Rattle.v_machine.specs.Follows.{Follows};
ghost use Rattle.v_machine.specs.Tables.{kernel_of};

use crate::machine::Machine;
use crate::refusal::ApplyRefusal;
use std::alloc::Global;
use std::marker::Model;
use vk_base::{Config, NoMemory, Observation};
use vk_brief::StepView;

/// A [`Machine`] without the bytes of remote moves that are spent: a later move of the exchange was opened, or all bytes of this
/// one were written. It also forgets exchanges that are over: replied to or dropped, with no remote move, and the sender has begun
/// a later Send. No step reads any of this again, so it follows each kernel whose tables, without it, are its own
/// (`specs/Follows.antt`). Its memory grows neither with the bytes that were moved nor with the Sends that are over, where they stand
/// before all others of their sender.
#[derive(Drop)]
pub struct LeanMachine {
    pub(crate) machine: Machine,
}

impl Model for LeanMachine {
    ghost use Rattle.v_machine.specs.Tables.{Tables};

    ghost Value = { Tables };

    ghost use Rattle.v_machine.specs.Lean.{AreLean};
    ghost use Rattle.v_machine.specs.Tables.{kernel_of};

    ghost view = { λ m. m.machine };

    ghost invariant = { λ m. AreLean (kernel_of m.machine).exchanges };
}

impl LeanMachine {
    /// The initial kernel of a configuration.
    ///
    /// # Errors
    ///
    /// [`NoMemory`] where memory is wanting.
    pub fn new(alloc: Global, config: &Config) -> Result<LeanMachine, NoMemory>
        ensures { IfOk result (λ m. (kernel_of m ≡ initial_kernel config.now.specs) × (m.noted ≡ 0)) }
    {
        Ok(LeanMachine {
            machine: Machine::new(alloc, config)?,
        })
    }

    /// Applies a step whose bytes are lent, and gives what a process sees of it. Where the step is refused nothing changes.
    ///
    /// # Errors
    ///
    /// Those of [`Machine::apply`], for each kernel that it stands for; what was noted stays noted, also once the bytes are
    /// given back.
    #[inline(always)]
    pub fn advance(
        &mut self,
        alloc: Global,
        step: &StepView,
    ) -> Result<Option<Observation>, ApplyRefusal>
        ensures { Follows step.now self.old self.new result }
    {
        let before = self.machine.opened_before(step);
        let seen = self.machine.advance(alloc, step);
        if seen.is_ok() {
            self.machine.give_back(alloc, step, before);
        }
        seen
    }
}
