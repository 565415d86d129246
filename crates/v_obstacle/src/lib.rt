//! Why a step of the one-machine kernel is not allowed. That the reasons are exact is the contract of a function without
//! parameters or body.
//!
//! Stands on the definitions of `vk_base`, on lemmas of `v_laws`, and for the text with answers on those of `v_trace`.
#![tactic(auto)]

ghost use Rattle.std.specs.Prelude.{◌≡◌, false, is_none, List, None, Some};
ghost use Rattle.vk_types.specs.Types.{Step};
ghost use Rattle.vk_base.specs.Calls.{Effect};
ghost use Rattle.vk_base.specs.Kernel.{Kernel};
ghost use Rattle.vk_base.specs.Steps.{Run, effect, is_allowed, run};
ghost use Rattle.v_obstacle.specs.declared.obstacle.Obstacle.{Obstacle};
ghost use Rattle.v_obstacle.specs.Obstacles.{IsSo, obstacle};
ghost use Rattle.v_obstacle.specs.Sights.{IsAllSeen, IsRunWith, IsSeen, Sight, may_see, steps_of};

mod obstacle;

pub use obstacle::{Obstacle, Standing, Wanted};

/// What is told to be in the way of a step is so in the kernel.
pub fn obstacles_are_so()
    ensures so { (k : Kernel) (s : Step) (why : Obstacle) → obstacle k s ≡ Some why → IsSo k why }
{}

/// There is nothing in the way of a step exactly where it is allowed.
pub fn obstacles_are_exact()
    ensures exact { (k : Kernel) (s : Step) → is_none (obstacle k s) ≡ is_allowed k s }
{}

/// Of a step that is neither a call nor a collect nothing is seen.
pub fn only_calls_and_collects_are_seen()
    ensures unseen { (k : Kernel) (s : Step) (e : Effect) → effect k s ≡ Some e → may_see s ≡ false → e.seen ≡ None }
{}

/// Steps of which what is told is so are a run.
pub fn what_is_seen_is_a_run()
    ensures run { (k : Kernel) (ws : List Sight) → IsSeen k ws → (r : Run) × (run k (steps_of ws) ≡ Some r) }
{}

/// Where all that is seen is told, and is so, the answers that are told are those of the run.
pub fn all_that_is_seen_is_of_the_run()
    ensures run { (k : Kernel) (ws : List Sight) → IsAllSeen k ws → IsRunWith k ws }
{}
