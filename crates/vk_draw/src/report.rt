//! The report of a schedule, had from `vkernel replay`.

ghost use Rattle.std.specs.Prelude.{◌≡◌, ◌∷◌, [], ◌≤◌, Ok, codes, length, map, string_bytes, IfOk};
ghost use Rattle.vk_base.specs.declared.limits.TheConstants.{INPUT_BYTES};
ghost use Rattle.vk_schedule.specs.declared.schedule.Schedule.{Schedule as TheSchedule};
ghost use Rattle.vk_schedule.specs.Schedule.{schedule_of};
ghost use Rattle.vk_draw.specs.Top.{report_text};

use std::alloc::{AllocError, Global};
use vk_base::NoMemory;
use vk_io::{MemorySink, SureSource};
use vk_top::{Status, vkernel_alone};

/// The words of a replay.
fn replay_words(alloc: Global) -> Result<Vec<String>, AllocError>
    ensures { IfOk result (λ words. map string_bytes words.items ≡ codes "replay" ∷ []) }
{
    let mut words = Vec::new(alloc);
    words.push(String::from_str(alloc, "replay")?)?;
    Ok(words)
}

/// The report of the schedule that the text spells: what `vkernel replay` writes of it into memory. It writes all of it unless memory is
/// wanting, where before no event too many bytes are emitted.
pub(crate) fn report_of(alloc: Global, text: &[u8]) -> Result<MemorySink, NoMemory>
    ensures { IfOk result (λ sink. (s : TheSchedule) → schedule_of text.now ≡ Ok s → sink.written ≡ report_text s) }
{
    let words = replay_words(alloc)?;
    let mut input = SureSource::new(Vec::from_slice(alloc, text)?);
    let mut output = MemorySink::new(alloc, Vec::new(alloc), usize::MAX);
    match vkernel_alone(alloc, &words, &mut input, &mut output) {
        Some(Status::Done) => Ok(output),
        _ => Err(NoMemory),
    }
}
