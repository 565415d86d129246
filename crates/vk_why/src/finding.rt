//! What is in the way of a step that a machine refuses.

ghost use Rattle.std.specs.Prelude.{◌≡◌, None, Some, true, is_some, List, ℕ};
ghost use Rattle.std.specs.Result.{result_err};
ghost use Rattle.vk_base.specs.Kernel.{Kernel};
ghost use Rattle.vk_base.specs.Steps.{effect};
ghost use Rattle.v_machine.specs.Follows.{StandsFor};
ghost use Rattle.v_machine.specs.Spent.{lean_kernel};
ghost use Rattle.v_machine.specs.Tables.{kernel_of};
ghost use Rattle.v_obstacle.specs.Obstacles.{asker_at, call_check, obstacle, told};
ghost use Rattle.vk_brief.specs.Brief.{step_with};
ghost use Rattle.vk_why.specs.Kept.{kept_kernel};

use crate::messages::{arrive_check, fail_check, finish_check, take_check};
use crate::moves::{collect_check, copy_check, end_check, found_check, hear_check, open_check};
use crate::places::{asker_at, process_at};
use v_machine::LeanMachine;
use v_obstacle::{Obstacle, obstacles_are_exact};
use vk_base::{Name, Pid};
use vk_brief::{BriefStep, StepView};

/// A call is in nobody's way but that of a process that is not there.
fn call_check(machine: &LeanMachine, pid: Pid) -> Result<(), Obstacle>
    ensures { told (call_check (kept_kernel machine.now) pid) ≡ result_err result }
{
    let _process = process_at(machine, pid)?;
    Ok(())
}

fn lost_check(machine: &LeanMachine, asker: Pid) -> Result<(), Obstacle>
    ensures { told (asker_at (kept_kernel machine.now) asker) ≡ result_err result }
{
    let _process = asker_at(machine, asker)?;
    Ok(())
}

/// What is in the way of the step; of a Take only where there is something.
fn check(machine: &LeanMachine, step: &BriefStep) -> Result<(), Obstacle>
    ensures { (bytes : List ℕ) → is_some (obstacle (kept_kernel machine.now) (step_with bytes step.now)) ≡ true →
        obstacle (kept_kernel machine.now) (step_with bytes step.now) ≡ result_err result }
{
    match *step {
        BriefStep::Call { pid, .. } => call_check(machine, pid),
        BriefStep::Arrive { sender, number } => arrive_check(machine, Name { sender, number }),
        BriefStep::Take { pid } => take_check(machine, pid),
        BriefStep::Finish { pid } => finish_check(machine, pid),
        BriefStep::Fail { pid, why } => fail_check(machine, pid, why),
        BriefStep::OpenMove {
            sender,
            number,
            moving,
        } => open_check(machine, Name { sender, number }, moving),
        BriefStep::Copy {
            sender,
            number,
            moving,
            offset,
            count,
        } => copy_check(machine, Name { sender, number }, moving, offset, count),
        BriefStep::End { pid, why } => end_check(machine, pid, why),
        BriefStep::Hear { asker, number, pid } => hear_check(machine, asker, number, pid),
        BriefStep::Found { asker, pid } => found_check(machine, asker, pid),
        BriefStep::Lost { asker } => lost_check(machine, asker),
        BriefStep::Collect { pid } => collect_check(machine, pid),
    }
}

/// The first condition that fails of a step that the machine does not allow, with the state that it is about. Of the kernel no
/// exchanges that are over are known, whether the machine still has them or not: where the step is about one, it is told that there is
/// none.
pub fn why(machine: &LeanMachine, step: &StepView) -> Obstacle
    requires { effect (kernel_of machine.now) step.now ≡ None }
    ensures { (k : Kernel) → StandsFor machine.now k → obstacle (lean_kernel k) step.now ≡ Some result }
{
    obstacles_are_exact();
    let (brief, _) = step.parts();
    check(machine, brief).unwrap_err()
}
