// What a reader and a writer promise of each single call.
ghost use Rattle.std.specs.Prelude.{◌≡◌, ◌<◌, ℕ, List, length, Option, IfOk, OnOk};
ghost use Rattle.std.specs.Io.{ReadsAtMost, WritesAtMost};
ghost use Rattle.std.specs.Io.KnownBytes.{ReadConsumes, WriteAppends, Keeps};
ghost use Rattle.vk_io.specs.Tallies.{after_answer};
ghost use Rattle.vk_io.specs.declared.edge.Tally.{Tally};

use thiserror::Error;

/// Why a call did nothing.
#[derive(Clone, Copy, Debug, PartialEq, Eq, Error)]
pub enum Hitch {
    /// Something came between. The call may be made again.
    #[error("the call was interrupted")]
    Interrupted,
    /// The call met a fault.
    #[error("the call met a fault")]
    Fault,
}

/// How many calls were made, how many of them were interrupted, and how many met a fault. Each count stays at `u64::MAX` once it is
/// there.
#[derive(Clone, Copy, Debug, Drop, PartialEq, Eq)]
pub struct Tally {
    pub made: u64,
    pub interrupted: u64,
    pub faults: u64,
}

impl Tally {
    /// No call was made yet.
    pub fn new() -> Tally
        ensures { result ≡ record { made = 0; interrupted = 0; faults = 0 } }
    {
        Tally {
            made: 0,
            interrupted: 0,
            faults: 0,
        }
    }

    /// Counts a call that was answered so.
    pub fn count<T>(&mut self, answer: &Result<T, Hitch>)
        ensures { self.new ≡ after_answer self.old answer.now }
    {
        self.made = self.made.saturating_add(1);
        match answer {
            Ok(_) => {}
            Err(Hitch::Interrupted) => self.interrupted = self.interrupted.saturating_add(1),
            Err(Hitch::Fault) => self.faults = self.faults.saturating_add(1),
        }
    }
}

/// Gives bytes, and counts each of its calls by its answer. What is left is known to a contract where the reader tells it.
pub trait Reader {
    ghost left: { Self → Option (List ℕ) };

    ghost answered: { Self → Tally };

    /// How its calls were answered so far.
    fn tally(&self) -> Tally
        ensures { result ≡ answered self.now };

    /// Puts the next bytes at the front of `into` and answers how many. It gives none for a slice that is not empty only at the end,
    /// which is no fault. A call with a hitch takes nothing.
    fn read(&mut self, into: &mut [u8]) -> Result<usize, Hitch>
        ensures bound { ReadsAtMost result into.new }
        ensures bytes { ReadConsumes (left self.old) (left self.new) result into.new }
        ensures counted { answered self.new ≡ after_answer (answered self.old) result };
}

/// Takes bytes, and counts each of its calls, flushes too, by its answer. What was written is known to a contract where the writer
/// tells it.
pub trait Writer {
    ghost written: { Self → Option (List ℕ) };

    ghost answered: { Self → Tally };

    /// A flush went well, and no write has gone well since.
    ghost flushed: { Self → Type 0 };

    /// How its calls were answered so far.
    fn tally(&self) -> Tally
        ensures { result ≡ answered self.now };

    /// Takes a front of `bytes`, at least one byte unless there is none, and answers how many. A call with a hitch takes nothing.
    fn write(&mut self, bytes: &[u8]) -> Result<usize, Hitch>
        ensures bound { WritesAtMost result bytes.now }
        ensures some { IfOk result (λ n. 0 < length bytes.now → 0 < n) }
        ensures bytes { WriteAppends (written self.old) (written self.new) result bytes.now }
        ensures counted { answered self.new ≡ after_answer (answered self.old) result }
        ensures unflushed { OnOk result (flushed self.new → ⊥) };

    /// Passes on what was written. What was written stays as it is, whatever the answer.
    fn flush(&mut self) -> Result<(), Hitch>
        ensures bytes { Keeps (written self.old) (written self.new) }
        ensures counted { answered self.new ≡ after_answer (answered self.old) result }
        ensures flushed { OnOk result (flushed self.new) };
}
