// Sources and sinks over readers and writers.
ghost use Rattle.std.specs.Prelude.{◌≡◌, ◌<◌, length, is_err, if◌then◌else◌, IfOk, OnOk};
ghost use Rattle.std.specs.Io.{ReadsAtMost, WritesAtMost};
ghost use Rattle.std.specs.Io.KnownBytes.{ReadConsumes, WriteAppends, Keeps};
ghost use Rattle.vk_io.specs.Causes.{HasCause, next_count};
ghost use Rattle.vk_io.specs.Tallies.{IsRetried};

use crate::edge::{Hitch, Reader, Writer};
use crate::ends::{Failed, Sink, Source};
use crate::standard::{StdReader, StdWriter};
use std::io::{Read, Write};
use std::marker::Model;

/// How often a call is made at most, where each time it is interrupted.
const TRIES: u32 = 64;

/// A reader with a count of faults. A read that is interrupted is made again, up to 64 times in all. A fault is told exactly where the
/// reader met one, or was interrupted so often.
#[derive(Drop)]
pub struct ReaderSource<T: Reader + Drop> {
    inner: T,
    faults: u64,
}

/// A source over a reader of std.
pub type StdSource<R> = ReaderSource<StdReader<R>>;

impl<T: Reader + Drop> Model for ReaderSource<T> {
    ghost use Rattle.vk_io.specs.Standard.{Counted};

    ghost Value = { Counted T };

    ghost view = { λ s. record { inner = s.inner; faults = s.faults } };
}

impl<R: Read + Drop> ReaderSource<StdReader<R>> {
    /// Over a reader of std, without a fault yet.
    pub fn new(inner: R) -> ReaderSource<StdReader<R>>
        ensures inner { result.inner.inner ≡ inner }
        ensures faults { result.faults ≡ 0 }
    {
        ReaderSource::over(StdReader::new(inner))
    }
}

impl<T: Reader + Drop> ReaderSource<T> {
    /// Over this reader, without a fault yet.
    pub fn over(inner: T) -> ReaderSource<T>
        ensures { result ≡ record { inner = inner; faults = 0 } }
    {
        ReaderSource { inner, faults: 0 }
    }
}

impl<T: Reader + Drop> Source for ReaderSource<T> {
    ghost left = { λ s. T.left s.inner };

    ghost fault_count = { λ s. s.faults };

    fn faults(&self) -> u64 {
        self.faults
    }

    fn read(&mut self, into: &mut [u8]) -> Result<usize, Failed>
        ensures bound { ReadsAtMost result into.new }
        ensures bytes { ReadConsumes (T.left self.old.inner) (T.left self.new.inner)
            result into.new }
        ensures cause { HasCause self.old.faults self.new.faults result }
        ensures counted { self.new.faults
            ≡ (if is_err result then next_count self.old.faults else self.old.faults) }
        ensures retried { IsRetried (T.answered self.old.inner) (T.answered self.new.inner)
            result }
    {
        match read_retrying(&mut self.inner, into) {
            Ok(count) => Ok(count),
            Err(Failed) => {
                self.faults = self.faults.saturating_add(1);
                Err(Failed)
            }
        }
    }
}

/// A writer with a count of faults. A call that is interrupted is made again, up to 64 times in all. A fault is told exactly where the
/// writer met one, or was interrupted so often.
#[derive(Drop)]
pub struct WriterSink<T: Writer + Drop> {
    inner: T,
    faults: u64,
}

/// A sink over a writer of std.
pub type StdSink<W> = WriterSink<StdWriter<W>>;

impl<T: Writer + Drop> Model for WriterSink<T> {
    ghost use Rattle.vk_io.specs.Standard.{Counted};

    ghost Value = { Counted T };

    ghost view = { λ s. record { inner = s.inner; faults = s.faults } };
}

impl<W: Write + Drop> WriterSink<StdWriter<W>> {
    /// Over a writer of std, without a fault yet.
    pub fn new(inner: W) -> WriterSink<StdWriter<W>>
        ensures inner { result.inner.inner ≡ inner }
        ensures faults { result.faults ≡ 0 }
    {
        WriterSink::over(StdWriter::new(inner))
    }
}

impl<T: Writer + Drop> WriterSink<T> {
    /// Over this writer, without a fault yet.
    pub fn over(inner: T) -> WriterSink<T>
        ensures { result ≡ record { inner = inner; faults = 0 } }
    {
        WriterSink { inner, faults: 0 }
    }
}

impl<T: Writer + Drop> Sink for WriterSink<T> {
    ghost written = { λ s. T.written s.inner };

    ghost fault_count = { λ s. s.faults };

    ghost flushed = { λ s. T.flushed s.inner };

    fn faults(&self) -> u64 {
        self.faults
    }

    fn write(&mut self, bytes: &[u8]) -> Result<usize, Failed>
        ensures bound { WritesAtMost result bytes.now }
        ensures some { IfOk result (λ n. 0 < length bytes.now → 0 < n) }
        ensures bytes { WriteAppends (T.written self.old.inner) (T.written self.new.inner)
            result bytes.now }
        ensures cause { HasCause self.old.faults self.new.faults result }
        ensures counted { self.new.faults
            ≡ (if is_err result then next_count self.old.faults else self.old.faults) }
        ensures unflushed { OnOk result (T.flushed self.new.inner → ⊥) }
        ensures retried { IsRetried (T.answered self.old.inner) (T.answered self.new.inner)
            result }
    {
        match write_retrying(&mut self.inner, bytes) {
            Ok(count) => Ok(count),
            Err(Failed) => {
                self.faults = self.faults.saturating_add(1);
                Err(Failed)
            }
        }
    }

    fn flush(&mut self) -> Result<(), Failed>
        ensures bytes { Keeps (T.written self.old.inner) (T.written self.new.inner) }
        ensures cause { HasCause self.old.faults self.new.faults result }
        ensures counted { self.new.faults
            ≡ (if is_err result then next_count self.old.faults else self.old.faults) }
        ensures flushed { OnOk result (T.flushed self.new.inner) }
        ensures retried { IsRetried (T.answered self.old.inner) (T.answered self.new.inner)
            result }
    {
        match flush_retrying(&mut self.inner) {
            Ok(()) => Ok(()),
            Err(Failed) => {
                self.faults = self.faults.saturating_add(1);
                Err(Failed)
            }
        }
    }
}

fn read_retrying<T: Reader>(reader: &mut T, into: &mut [u8]) -> Result<usize, Failed>
    ensures bound { ReadsAtMost result into.new }
    ensures bytes { ReadConsumes (T.left reader.old) (T.left reader.new) result into.new }
    ensures retried { IsRetried (T.answered reader.old) (T.answered reader.new) result }
{
    for _try in 0..TRIES {
        match reader.read(into) {
            Ok(count) => return Ok(count),
            Err(Hitch::Interrupted) => {}
            Err(Hitch::Fault) => return Err(Failed),
        }
    }
    Err(Failed)
}

fn write_retrying<T: Writer>(writer: &mut T, bytes: &[u8]) -> Result<usize, Failed>
    ensures bound { WritesAtMost result bytes.now }
    ensures some { IfOk result (λ n. 0 < length bytes.now → 0 < n) }
    ensures bytes { WriteAppends (T.written writer.old) (T.written writer.new) result bytes.now }
    ensures unflushed { OnOk result (T.flushed writer.new → ⊥) }
    ensures retried { IsRetried (T.answered writer.old) (T.answered writer.new) result }
{
    for _try in 0..TRIES {
        match writer.write(bytes) {
            Ok(count) => return Ok(count),
            Err(Hitch::Interrupted) => {}
            Err(Hitch::Fault) => return Err(Failed),
        }
    }
    Err(Failed)
}

fn flush_retrying<T: Writer>(writer: &mut T) -> Result<(), Failed>
    ensures bytes { Keeps (T.written writer.old) (T.written writer.new) }
    ensures flushed { OnOk result (T.flushed writer.new) }
    ensures retried { IsRetried (T.answered writer.old) (T.answered writer.new) result }
{
    for _try in 0..TRIES {
        match writer.flush() {
            Ok(()) => return Ok(()),
            Err(Hitch::Interrupted) => {}
            Err(Hitch::Fault) => return Err(Failed),
        }
    }
    Err(Failed)
}
