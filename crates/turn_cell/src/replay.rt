// What a cell asks of its state.
ghost use Rattle.std.specs.Prelude.{◌≡◌, ℕ, ◌+◌, ◌^◌, ◌<◌, Bool, true, false, List, [], ◌∷◌, ◌++◌, length, IsOk, IfErr, OnOk};
ghost use Rattle.turn_cell.specs.Rooms.{is_full};

use std::alloc::Global;
use thiserror::Error;

/// Why an event is not entered: the history may not grow by it, or memory was wanting.
#[derive(Clone, Copy, Debug, PartialEq, Eq, Error)]
pub enum Room {
    #[error("the history is full")]
    Full,
    #[error("out of memory")]
    NoMemory,
}

/// A state that keeps its history, a list of events each with its caller's number, in memory or for clauses alone, and is the
/// replay of it: what it answers is a function of the state with which the history began, its *origin*, and of the history.
pub trait Replay: Send + Drop {
    type Event;

    /// Where an event's answer is put.
    type Out;

    ghost history: { Self → List (ℕ × Self.Event) };

    /// The state with which the history began.
    ghost origin: { Self → Self };

    /// The event may be entered where the history began with this state.
    ghost event_fits: { Self → Self.Event → Type 0 };

    /// There is place for what the event gives.
    ghost out_fits: { Self.Event → Self.Out → Type 0 };

    /// The history may not grow by the event.
    ghost full_at: { Self → List (ℕ × Self.Event) → Self.Event → Bool };

    /// The event may come after this history.
    ghost ready_at: { Self → List (ℕ × Self.Event) → Self.Event → Bool };

    /// The event has its room already wherever it is ready.
    ghost has_own_room: { Self.Event → Bool };

    /// There is room for the event in this state.
    ghost has_room: { Self → Self.Event → Type 0 };

    /// What the caller's event after this history makes of the place for its answer: that before, and that after.
    ghost gives: { Self → List (ℕ × Self.Event) → ℕ → Self.Event → Self.Out → Self.Out → Type 0 };

    /// Makes room for one entry. `Full` comes exactly where the history may not grow by the event; no history has `2^32` entries.
    /// A refusal leaves history and origin as they are.
    fn room(&mut self, alloc: Global, event: &Self::Event) -> Result<(), Room>
        ensures history { history self.new ≡ history self.old }
        ensures origin { origin self.new ≡ origin self.old }
        ensures made { OnOk result (has_room self.new event.now) }
        ensures bounded { OnOk result (length (history self.old) + 1 < 2 ^ 32) }
        ensures grows { OnOk result (full_at (origin self.old) (history self.old) event.now ≡ false) }
        ensures refused { IfErr result (λ why. full_at (origin self.old) (history self.old) event.now ≡ is_full why) }
        ensures own { ready_at (origin self.old) (history self.old) event.now ≡ true → has_own_room event.now ≡ true → IsOk result };

    /// Whether the event may come after the history so far.
    fn is_ready(&self, event: &Self::Event) -> bool
        ensures { result ≡ ready_at (origin self.now) (history self.now) event.now };

    /// Enters the event, for which there is room. It takes no memory.
    fn act(&mut self, caller: u32, event: &Self::Event, out: &mut Self::Out)
        requires room { has_room self.old event.now }
        requires event_fits { event_fits (origin self.old) event.now }
        requires out_fits { out_fits event.now out.old }
        ensures history { history self.new ≡ history self.old ++ (caller, event.now) ∷ [] }
        ensures origin { origin self.new ≡ origin self.old }
        ensures out { gives (origin self.old) (history self.old) caller event.now out.old out.new }
        ensures out_fits { (other : Self.Event) → out_fits other out.old → out_fits other out.new };
}
