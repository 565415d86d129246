//! The page of a schedule.

ghost use Rattle.std.specs.Prelude.{◌≡◌, ◌↔◌, ◌⊎◌, ◌+◌, ◌<◌, ◌≤◌, ◌&&◌, true, false, length, Ok, IfOk, IfErr, OnOk, IsTrue};
ghost use Rattle.vk_schedule.specs.Schedule.{schedule_of};
ghost use Rattle.vk_page.specs.Page.{is_plain};
ghost use Rattle.vk_draw.specs.Top.{IsPage, IsRefusal};

use crate::lines::frames_text;
use crate::report::report_of;
use crate::status::Status;
use crate::words::Drawing;
use std::alloc::Global;
use vk_page::{PageParts, is_plain, page_text};
use vk_schedule::Schedule;

/// The most bytes that the three texts of a page have together.
pub const PAGE_BYTES: usize = 67_108_864;

/// Whether all three texts are plain.
fn are_plain(text: &[u8], report: &[u8], frames: &[u8]) -> bool
    ensures { result ≡ (is_plain text.now && is_plain report.now && is_plain frames.now) }
{
    is_plain(text) && is_plain(report) && is_plain(frames)
}

/// Whether so many bytes are too many for the texts of a page.
fn exceed(text: usize, report: usize, frames: usize) -> bool
    ensures { IsTrue result ↔ PAGE_BYTES < text + report + frames }
{
    text > PAGE_BYTES || report > PAGE_BYTES - text || frames > PAGE_BYTES - text - report
}

/// Why no page is made of these texts, where none is.
fn check_texts(text: &[u8], report: &[u8], frames: &[u8]) -> Result<(), Status>
    ensures ok { OnOk result ((length text.now + length report.now + length frames.now ≤ PAGE_BYTES)
        × ((is_plain text.now && is_plain report.now && is_plain frames.now) ≡ true)) }
    ensures refused { IfErr result (λ e.
        ((e ≡ Status.TooMuchText) × (PAGE_BYTES < length text.now + length report.now + length frames.now))
        ⊎ ((e ≡ Status.NotPlain) × (length text.now + length report.now + length frames.now ≤ PAGE_BYTES)
        × ((is_plain text.now && is_plain report.now && is_plain frames.now) ≡ false))) }
{
    if exceed(text.len(), report.len(), frames.len()) {
        return Err(Status::TooMuchText);
    }
    if are_plain(text, report, frames) {
        Ok(())
    } else {
        Err(Status::NotPlain)
    }
}

/// The page of the schedule that the text spells.
pub(crate) fn page_of(
    alloc: Global,
    parts: &PageParts,
    text: &[u8],
    schedule: &Schedule,
) -> Result<Vec<u8>, Status>
    requires { schedule_of text.now ≡ Ok schedule.now }
    ensures made { IfOk result (λ made. IsPage parts.now text.now made.items) }
    ensures refused { IfErr result (IsRefusal Drawing.Page text.now) }
{
    let frames = frames_text(alloc, schedule)?;
    let report = report_of(alloc, text)?;
    check_texts(text, report.written(), &frames)?;
    let page = page_text(alloc, parts, text, report.written(), &frames)?;
    Ok(page)
}
