//! Laws of messages: each arrives once and is taken once, and once more for each Forward, and no two of a sender are at one station.
//! Places are those of the list of steps.

ghost use Rattle.std.specs.Prelude.{◌≡◌, ◌<◌, ℕ, IsSome, List, Some, slice_get, true};
ghost use Rattle.vk_types.specs.Types.{Exchange, Name, Pid, ProcessSpec, Step};
ghost use Rattle.vk_base.specs.declared.step.Step.TheVariants as steps;
ghost use Rattle.vk_base.specs.Kernel.{Kernel, is_at_target, name_of, initial_kernel};
ghost use Rattle.vk_base.specs.Pids.{same_host};
ghost use Rattle.vk_base.specs.Steps.{Run, run};
ghost use Rattle.v_laws.specs.Places.{IsForwardedBetween, taken_at};
ghost use Rattle.v_laws.specs.Reached.{IsReached};

/// The message of a Send arrives at most once: two places of a run with the same arrival are one.
pub fn messages_arrive_once()
    ensures once { (specs : List ProcessSpec) (ss : List Step) (r : Run) (i j : ℕ) (sender : Pid) (number : ℕ) →
        run (initial_kernel specs) ss ≡ Some r → slice_get ss i ≡ Some (steps.Arrive sender number) →
        slice_get ss j ≡ Some (steps.Arrive sender number) → i ≡ j }
{}

/// No message is taken twice, but by a Forward of the process that holds it: each Take of a run takes a message, and between two
/// that take the same there is such a Forward, answered ok.
pub fn messages_are_taken_once()
    ensures some { (specs : List ProcessSpec) (ss : List Step) (r : Run) (i : ℕ) (pid : Pid) → run (initial_kernel specs) ss ≡ Some r →
        slice_get ss i ≡ Some (steps.Take pid) → IsSome (taken_at specs ss i) }
    ensures once { (specs : List ProcessSpec) (ss : List Step) (i j : ℕ) (n : Name) → taken_at specs ss i ≡ Some n →
        taken_at specs ss j ≡ Some n → i < j → IsForwardedBetween specs ss i j n }
{}

/// In every kernel that a run reaches at most one message of a sender is queued or taken at targets of one host.
pub fn one_message_at_a_station()
    ensures one { (k : Kernel) (sender : Pid) (m n : ℕ) (x y : Exchange) → IsReached k → k.exchanges (name_of sender m) ≡ Some x →
        k.exchanges (name_of sender n) ≡ Some y → is_at_target x.stage ≡ true → is_at_target y.stage ≡ true →
        same_host x.target y.target ≡ true → m ≡ n }
{}
