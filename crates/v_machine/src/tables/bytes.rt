//! Bytes of memories.

ghost use Rattle.std.specs.Prelude.{◌≡◌, ◌<◌, ◌≤◌, ◌+◌, ◌++◌, [], true, length, Some, IfOk, OnOk};
ghost use Rattle.vk_types.specs.Types.{Process};
ghost use Rattle.vk_base.specs.declared.pid.Pid.{Pid as ThePid};
ghost use Rattle.vk_base.specs.Ranges.{range_of, lies_in, bytes_in};
ghost use Rattle.v_machine.specs.Kept.{kernel_in};
ghost use Rattle.v_machine.specs.Places.{place_in};

use crate::tables::Store;
use crate::tables::put::proc;
use std::alloc::Global;
use vk_base::{List, Memory, NoMemory, Range};

/// Whether a range lies in a memory of this size.
pub fn lies_in(start: u32, count: u32, size: u32) -> bool
    ensures { result ≡ lies_in (range_of start count) size }
{
    u64::from(start) + u64::from(count) <= u64::from(size)
}

/// The bytes of a range, if it lies in the memory.
fn bytes_of(memory: &Memory, alloc: Global, start: u32, count: u32) -> Result<List<u8>, NoMemory>
    ensures { lies_in (range_of start count) (length memory.now) ≡ true →
        IfOk result (λ l. l ≡ bytes_in (range_of start count) memory.now) }
{
    if count == 0 || !lies_in(start, count, memory.size()) {
        return Ok(List::empty(alloc));
    }
    let mut bytes = Vec::with_capacity(alloc, count as usize)?;
    bytes.extend_from_slice(memory.bytes(start, count))?;
    Ok(List::new(bytes))
}

/// The bytes of a range of the memory of the process of this place, if it lies there.
pub fn own_bytes(
    store: &Store,
    alloc: Global,
    at: usize,
    range: Range,
) -> Result<List<u8>, NoMemory>
    requires { at < length store.now.procs.items }
    ensures { (pid : ThePid) (p : Process) → place_in store.now.places pid ≡ Some at → (kernel_in store.now).procs pid ≡ Some p →
        lies_in range (length p.memory) ≡ true →
        IfOk result (λ l. l ≡ bytes_in range p.memory) }
{
    bytes_of(&proc(store, at).memory, alloc, range.start, range.len)
}
