//! The top call over a source and a sink in memory.

use std::alloc::{AllocError, Global};
use vk_io::{MemorySink, MemorySource};
use vk_top::{Status, vkernel_alone};

/// Calls the top call over the source, with at most 5 bytes a write, of which those of these numbers fail. The word is not `run`, which
/// alone has no answer.
pub fn run_over(
    alloc: Global,
    word: &str,
    mut source: MemorySource,
    failing_writes: &[u64],
) -> Result<(Status, MemorySink), AllocError> {
    let mut words = Vec::new(alloc);
    words.push(String::from_str(alloc, word)?)?;
    let mut sink = MemorySink::new(alloc, Vec::from_slice(alloc, failing_writes)?, 5);
    let status = vkernel_alone(alloc, &words, &mut source, &mut sink).unwrap_or(Status::CrewFault);
    Ok((status, sink))
}

/// Calls the top call over the input, with at most 7 bytes a read and 5 a write, of which those of these numbers fail.
pub fn run(
    alloc: Global,
    word: &str,
    input: &[u8],
    failing_reads: &[u64],
    failing_writes: &[u64],
) -> Result<(Status, MemorySink), AllocError> {
    let bytes = Vec::from_slice(alloc, input)?;
    let source = MemorySource::new(bytes, Vec::from_slice(alloc, failing_reads)?, 7);
    run_over(alloc, word, source, failing_writes)
}
