//! What is written of a storm.

ghost use Rattle.std.specs.Prelude.{◌≡◌, ◌≤◌, ◌++◌, Err, IfOk, OnOk};
ghost use Rattle.vk_base.specs.declared.limits.TheConstants.{EVENTS};
ghost use Rattle.vk_drive.specs.Storms.{IsStormTooMuch, StormFits, summary_of};
ghost use Rattle.vk_top.specs.Storm.{number_line, summary_text};

use crate::check::put_line;
use std::alloc::Global;
use vk_base::NoMemory;
use vk_drive::{StormRefusal, StormSummary, storm};

/// Appends a line of the summary.
#[tactic(auto, unfolding(crate::specs::Storm::number_line))]
fn put_number_line(
    alloc: Global,
    text: &mut Vec<u8>,
    word: &[u8],
    number: u64,
) -> Result<(), NoMemory>
    ensures { OnOk result (text.new.items ≡ text.old.items ++ number_line word.now number) }
{
    put_line(alloc, text, word, number)
}

/// Appends the summary.
fn put_summary(alloc: Global, text: &mut Vec<u8>, summary: &StormSummary) -> Result<(), NoMemory>
    ensures { OnOk result (text.new.items ≡ text.old.items ++ summary_text summary.now) }
{
    put_number_line(alloc, text, b"storm ", u64::from(summary.n))?;
    put_number_line(alloc, text, b"frames ", summary.frames)?;
    put_number_line(alloc, text, b"taken ", summary.taken)?;
    put_number_line(alloc, text, b"old ", summary.old)?;
    put_number_line(alloc, text, b"answers ", summary.answers)?;
    put_number_line(alloc, text, b"timedout ", summary.timedout)?;
    Ok(())
}

/// The summary of the storm of this number.
pub(crate) fn summary_of(alloc: Global, n: u32) -> Result<Vec<u8>, StormRefusal>
    requires { n ≤ EVENTS }
    ensures summary { IfOk result (λ text. text.items ≡ summary_text (summary_of n)) }
    ensures fits { OnOk result (StormFits n) }
    ensures limit { result ≡ Err StormRefusal.Limit → IsStormTooMuch n }
{
    let summary = storm(alloc, n)?;
    let mut text = Vec::new(alloc);
    put_summary(alloc, &mut text, &summary)?;
    Ok(text)
}
