//! The machine: its tables, and how many bytes were noted for remote moves.

ghost use Rattle.std.specs.Prelude.{◌≡◌, ◌≤◌, IfOk};
ghost use Rattle.vk_base.specs.Kernel.{initial_kernel};
ghost use Rattle.v_machine.specs.Apply.{Applied};
ghost use Rattle.v_machine.specs.Lean.{GivesBack, IsAlike, opened_before};
ghost use Rattle.v_machine.specs.Tables.{kernel_of};

use crate::brief::brief_of;
use crate::calls::call;
use crate::refusal::ApplyRefusal;
use crate::steps::messages::collect;
use crate::steps::quiet_step;
use crate::steps::spent::{give_back, opened_before};
use crate::tables::Store;
use crate::tables::initial::initial_store;
use std::alloc::Global;
use std::marker::Model;
use vk_base::{Config, NoMemory, Observation, Step};
use vk_brief::{BriefStep, CallView, StepView};

/// The one-machine kernel.
#[derive(Drop)]
pub struct Machine {
    pub(crate) store: Store,
    noted: u64,
}

impl Model for Machine {
    ghost use Rattle.std.specs.Prelude.{◌≤◌};
    ghost use Rattle.v_machine.specs.Tables.{Tables};

    ghost Value = { Tables };

    ghost use Rattle.v_machine.specs.Apply.{most};
    ghost use Rattle.v_machine.specs.Kept.{tables_in, IsKept};

    ghost view = { λ m. tables_in m.store m.noted };

    ghost invariant = { λ m. IsKept m.store × (m.noted ≤ most) };
}

impl Machine {
    /// The initial kernel of a configuration.
    ///
    /// # Errors
    ///
    /// [`NoMemory`] where memory is wanting.
    pub fn new(alloc: Global, config: &Config) -> Result<Machine, NoMemory>
        ensures { IfOk result (λ m. (kernel_of m ≡ initial_kernel config.now.specs) × (m.noted ≡ 0)) }
    {
        Ok(Machine {
            store: initial_store(alloc, config.specs())?,
            noted: 0,
        })
    }

    /// Applies a step, and gives what a process sees of it. Where the step is refused nothing changes.
    ///
    /// # Errors
    ///
    /// `NotAllowed` exactly where the kernel does not allow the step. Else `Limit` exactly where it would note bytes for a
    /// remote move and those noted so far with them would be more than 268,435,456: a `MoveTo` that is begun notes its
    /// bytes, and so does an `OpenMove` of a move from the sender; no step lowers what was noted. `NoMemory` only where it is
    /// neither.
    pub fn apply(&mut self, alloc: Global, step: &Step) -> Result<Option<Observation>, ApplyRefusal>
        ensures { Applied step.now self.old self.new result }
    {
        let (brief, bytes) = brief_of(step);
        self.advance(alloc, &StepView::new(&brief, bytes))
    }

    /// Applies a step whose bytes are lent, as [`Machine::apply`] does.
    ///
    /// # Errors
    ///
    /// Those of [`Machine::apply`].
    #[inline(always)]
    pub fn advance(
        &mut self,
        alloc: Global,
        step: &StepView,
    ) -> Result<Option<Observation>, ApplyRefusal>
        ensures { Applied step.now self.old self.new result }
    {
        let (brief, bytes) = step.parts();
        match *brief {
            BriefStep::Call {
                pid,
                call: ref made,
            } => {
                let view = CallView::new(made, bytes);
                call(&mut self.store, &mut self.noted, alloc, pid, &view)
            }
            BriefStep::Collect { pid } => collect(&mut self.store, pid),
            _ => {
                quiet_step(&mut self.store, &mut self.noted, alloc, step)?;
                Ok(None)
            }
        }
    }

    /// The number of the open move of the exchange in which a step opens another one; 0 for any other step.
    #[inline(always)]
    pub(crate) fn opened_before(&self, step: &StepView) -> u64
        ensures { result ≡ opened_before (kernel_of self.now) step.now }
    {
        opened_before(&self.store, step)
    }

    /// Gives bytes back behind a step, where `before` is what [`Machine::opened_before`] gave before it. Behind a step that opened
    /// a move those of the spent moves from number `before` up to the opened one; behind one that wrote bytes of a move those of
    /// this move, where it is spent; behind any other step none. Behind a Send it may forget exchanges of its sender that are over.
    #[inline(always)]
    pub(crate) fn give_back(&mut self, alloc: Global, step: &StepView, before: u64)
        ensures alike { IsAlike (kernel_of self.old) (kernel_of self.new) }
        ensures gives { GivesBack step.now before (kernel_of self.old) (kernel_of self.new) }
        ensures noted { self.new.noted ≡ self.old.noted }
    {
        give_back(&mut self.store, alloc, step, before);
    }
}
