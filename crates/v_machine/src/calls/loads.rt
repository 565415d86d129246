//! Load.

ghost use Rattle.std.specs.Prelude.{◌≡◌, ◌≤◌, ◌∷◌, [], not, true, nat_lt, length, Some};
ghost use Rattle.vk_types.specs.Types.{Process};
ghost use Rattle.vk_base.specs.Calls.{first_that_holds};
ghost use Rattle.vk_base.specs.Ranges.{range_of, lies_in, bytes_in};
ghost use Rattle.v_machine.specs.Kept.{IsKept, IsAt, kernel_in};
ghost use Rattle.v_machine.specs.Rules.{Answers, judged};

use crate::refusal::ApplyRefusal;
use crate::tables::Store;
use crate::tables::bytes::lies_in;
use crate::tables::put::proc;
use vk_base::limits::DATA_BYTES;
use vk_base::{Answer, Call, Data, Memory, Observation, Pid, Refusal};

/// Load, which changes nothing.
#[inline(always)]
pub fn load(
    store: &Store,
    at: usize,
    pid: Pid,
    start: u32,
    count: u32,
) -> Result<Option<Observation>, ApplyRefusal>
    requires kept { IsKept store.now }
    requires here { IsAt store.now pid at }
    ensures { (p : Process) → (kernel_in store.now).procs pid ≡ Some p →
        Answers (judged (kernel_in store.now) pid p (Call.Load start count)) 0 0 store.now store.now result }
{
    let memory = &proc(store, at).memory;
    let answer = match load_refusal(start, count, memory.size()) {
        Some(why) => Answer::Refused { why },
        None => loaded(memory, start, count),
    };
    Ok(Some(Observation {
        pid,
        call: Call::Load { start, count },
        answer,
    }))
}

/// Why a Load from a memory of this size is refused, if it is.
fn load_refusal(start: u32, count: u32, size: u32) -> Option<Refusal>
    ensures { result ≡ first_that_holds ((nat_lt DATA_BYTES count, Refusal.TooLong)
        ∷ (not (lies_in (range_of start count) size), Refusal.BadRange) ∷ []) }
{
    if count as usize > DATA_BYTES {
        return Some(Refusal::TooLong);
    }
    if !lies_in(start, count, size) {
        return Some(Refusal::BadRange);
    }
    None
}

/// The bytes of a range that lies in the memory.
#[inline(always)]
fn loaded(memory: &Memory, start: u32, count: u32) -> Answer
    requires few { count ≤ DATA_BYTES }
    requires lies { lies_in (range_of start count) (length memory.now) ≡ true }
    ensures { result ≡ Answer.Loaded (bytes_in (range_of start count) memory.now) }
{
    let mut buffer = [0u8; DATA_BYTES];
    let bytes = &mut buffer[..count as usize];
    let _lies = memory.read(start, bytes);
    match Data::new(bytes) {
        Some(bytes) => Answer::Loaded { bytes },
        None => unreachable!(),
    }
}
