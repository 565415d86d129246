// Readers and writers in memory, some of whose calls are interrupted or fail.
ghost use Rattle.std.specs.Prelude.{◌≡◌, ◌≢◌, ◌↔◌, ◌⊎◌, ◌+◌, ◌<◌, min, true, length, Some, is_err, IfOk, OnOk, if◌then◌else◌};
ghost use Rattle.std.specs.Io.{ReadsAtMost, WritesAtMost};
ghost use Rattle.std.specs.Io.KnownBytes.{ReadConsumes, WriteAppends, Keeps};
ghost use Rattle.vk_io.specs.Memory.{FailsNext, after_call};
ghost use Rattle.vk_io.specs.Tallies.{after_answer, is_interruption, tally_by};

use crate::edge::{Hitch, Reader, Tally, Writer};
use crate::ends::{Failed, Sink, Source};
use crate::memory::{CallCounter, MemorySink, MemorySource};

/// A reader over a source in memory.
#[derive(Drop)]
pub struct MemoryReader {
    source: MemorySource,
    interruptions: CallCounter,
}

impl MemoryReader {
    /// Its calls are numbered from 1, and those whose numbers stand in `interrupted` are interrupted. Each other one is a read of the
    /// source.
    pub fn new(source: MemorySource, interrupted: Vec<u64>) -> MemoryReader
        ensures source { result.source ≡ source }
        ensures interruptions { result.interruptions
            ≡ record { failing = interrupted.items; made = 0; faults = 0 } }
    {
        MemoryReader {
            source,
            interruptions: CallCounter::new(interrupted),
        }
    }
}

impl Reader for MemoryReader {
    ghost left = { λ r. Some r.source.left };

    ghost answered = { λ r. tally_by r.interruptions r.source.calls };

    fn tally(&self) -> Tally {
        tally_with(&self.interruptions, self.source.faults())
    }

    fn read(&mut self, into: &mut [u8]) -> Result<usize, Hitch>
        ensures bound { ReadsAtMost result into.new }
        ensures bytes { ReadConsumes (Some self.old.source.left) (Some self.new.source.left) result into.new }
        ensures counted { tally_by self.new.interruptions self.new.source.calls
            ≡ after_answer (tally_by self.old.interruptions self.old.source.calls) result }

        // A listed call is interrupted, and no other. What the source does is a fault where it fails.
        ensures interrupted { (result ≡ Err Hitch.Interrupted) ↔ FailsNext self.old.interruptions }
        ensures failed { (result ≡ Err Hitch.Fault) ↔
            ((FailsNext self.old.interruptions → ⊥) × FailsNext self.old.source.calls) }
        ensures interruptions { self.new.interruptions
            ≡ after_call self.old.interruptions (is_interruption result) }
        ensures calls { self.new.source.calls ≡ (if is_interruption result then self.old.source.calls
            else after_call self.old.source.calls (is_err result)) }
        ensures count { IfOk result (λ n. n ≡ min self.old.source.most
            (min (length into.old) (length self.old.source.left))) }
        ensures most { self.new.source.most ≡ self.old.source.most }
    {
        if self.interruptions.begin().is_err() {
            return Err(Hitch::Interrupted);
        }
        match self.source.read(into) {
            Ok(count) => Ok(count),
            Err(Failed) => Err(Hitch::Fault),
        }
    }
}

/// A writer over a sink in memory.
#[derive(Drop)]
pub struct MemoryWriter {
    sink: MemorySink,
    interruptions: CallCounter,
}

impl MemoryWriter {
    /// Its calls, writes and flushes, are numbered together from 1, and those whose numbers stand in `interrupted` are interrupted.
    /// Each other one is the same call of the sink.
    pub fn new(sink: MemorySink, interrupted: Vec<u64>) -> MemoryWriter
        ensures sink { result.sink ≡ sink }
        ensures interruptions { result.interruptions
            ≡ record { failing = interrupted.items; made = 0; faults = 0 } }
    {
        MemoryWriter {
            sink,
            interruptions: CallCounter::new(interrupted),
        }
    }

    /// All bytes that were written, in order.
    pub fn written(&self) -> &[u8]
        ensures { result.now ≡ self.now.sink.written }
    {
        self.sink.written()
    }
}

impl Writer for MemoryWriter {
    ghost written = { λ w. Some w.sink.written };

    ghost answered = { λ w. tally_by w.interruptions w.sink.calls };

    ghost flushed = { λ w. w.sink.flushed ≡ true };

    fn tally(&self) -> Tally {
        tally_with(&self.interruptions, self.sink.faults())
    }

    fn write(&mut self, bytes: &[u8]) -> Result<usize, Hitch>
        ensures bound { WritesAtMost result bytes.now }
        ensures some { IfOk result (λ n. 0 < length bytes.now → 0 < n) }
        ensures bytes { WriteAppends (Some self.old.sink.written) (Some self.new.sink.written) result bytes.now }
        ensures counted { tally_by self.new.interruptions self.new.sink.calls
            ≡ after_answer (tally_by self.old.interruptions self.old.sink.calls) result }
        ensures unflushed { OnOk result (self.new.sink.flushed ≡ true → ⊥) }

        // A listed call is interrupted, and no other. What the sink does is a fault where it fails, or where it needs more memory.
        ensures interrupted { (result ≡ Err Hitch.Interrupted) ↔ FailsNext self.old.interruptions }
        ensures listed { (FailsNext self.old.interruptions → ⊥) → FailsNext self.old.sink.calls
            → result ≡ Err Hitch.Fault }
        ensures memory { result ≡ Err Hitch.Fault → FailsNext self.old.sink.calls
            ⊎ (self.old.sink.room < length self.old.sink.written + min self.old.sink.most (length bytes.now)) }
        ensures interruptions { self.new.interruptions
            ≡ after_call self.old.interruptions (is_interruption result) }
        ensures calls { self.new.sink.calls ≡ (if is_interruption result then self.old.sink.calls
            else after_call self.old.sink.calls (is_err result)) }
        ensures count { IfOk result (λ n. n ≡ min self.old.sink.most (length bytes.now)) }
        ensures most { self.new.sink.most ≡ self.old.sink.most }
    {
        if self.interruptions.begin().is_err() {
            return Err(Hitch::Interrupted);
        }
        match self.sink.write(bytes) {
            Ok(count) => Ok(count),
            Err(Failed) => Err(Hitch::Fault),
        }
    }

    fn flush(&mut self) -> Result<(), Hitch>
        ensures bytes { Keeps (Some self.old.sink.written) (Some self.new.sink.written) }
        ensures counted { tally_by self.new.interruptions self.new.sink.calls
            ≡ after_answer (tally_by self.old.interruptions self.old.sink.calls) result }
        ensures flushed { OnOk result (self.new.sink.flushed ≡ true) }
        ensures interrupted { (result ≡ Err Hitch.Interrupted) ↔ FailsNext self.old.interruptions }
        ensures failed { (result ≡ Err Hitch.Fault) ↔
            ((FailsNext self.old.interruptions → ⊥) × FailsNext self.old.sink.calls) }
        ensures interruptions { self.new.interruptions
            ≡ after_call self.old.interruptions (is_interruption result) }
        ensures calls { self.new.sink.calls ≡ (if is_interruption result then self.old.sink.calls
            else after_call self.old.sink.calls (is_err result)) }
        ensures most { self.new.sink.most ≡ self.old.sink.most }
    {
        if self.interruptions.begin().is_err() {
            return Err(Hitch::Interrupted);
        }
        match self.sink.flush() {
            Ok(()) => Ok(()),
            Err(Failed) => Err(Hitch::Fault),
        }
    }
}

/// How calls were answered that begin here, and of which those met so many faults.
fn tally_with(interruptions: &CallCounter, faults: u64) -> Tally
    ensures { result ≡ record {
      made = interruptions.now.made;
      interrupted = interruptions.now.faults;
      faults = faults;
    } }
{
    Tally {
        made: interruptions.made(),
        interrupted: interruptions.faults(),
        faults,
    }
}
