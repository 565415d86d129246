//! The output, written and flushed.

ghost use Rattle.std.specs.Prelude.{◌≢◌, ◌≤◌, ℕ, take, OnOk};
ghost use Rattle.std.specs.Io.KnownBytes.{Appends};
ghost use Rattle.vk_io.specs.Causes.{HasCause};
ghost use Rattle.vk_edge.specs.Answers.{CountsFaults, IsWritten};

use vk_io::{Failed, Sink, write_all};

/// Writes all of `bytes` and flushes.
fn write_flushed<K: Sink>(output: &mut K, bytes: &[u8]) -> Result<(), Failed>
    ensures written { OnOk result (Appends (K.written output.old) (K.written output.new) bytes.now) }
    ensures front { (n : ℕ) × Appends (K.written output.old) (K.written output.new) (take n bytes.now) }
    ensures flushed { OnOk result (K.flushed output.new) }
    ensures cause { HasCause (K.fault_count output.old) (K.fault_count output.new) result }
{
    write_all(output, bytes)?;
    output.flush()
}

/// Writes the whole text and flushes. The answer is `told`, or `fault` where a write failed, or the flush.
pub fn write_text<K: Sink, T: Copy>(output: &mut K, text: &[u8], told: T, fault: T) -> T
    requires { told ≢ fault }
    ensures written { IsWritten told fault text.now (K.written output.old) (K.written output.new) result }
    ensures front { (n : ℕ) × Appends (K.written output.old) (K.written output.new) (take n text.now) }
    ensures flushed { result ≢ fault → K.flushed output.new }
    ensures count { CountsFaults fault result (K.fault_count output.old) (K.fault_count output.new) }
    ensures never_falls { K.fault_count output.old ≤ K.fault_count output.new }
{
    match write_flushed(output, text) {
        Ok(()) => told,
        Err(Failed) => fault,
    }
}
