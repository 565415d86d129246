//! The three texts are looked at, and put into the fixed one.

ghost use Rattle.std.specs.Prelude.{◌≡◌, IfOk};
ghost use Rattle.vk_page.specs.Page.{is_plain, is_plain_byte, page_text};

use crate::parts::PageParts;
use std::alloc::Global;
use vk_base::NoMemory;
use vk_text::put;

fn is_plain_byte(byte: u8) -> bool
    ensures { result ≡ is_plain_byte byte }
{
    byte.is_ascii_lowercase()
        || byte.is_ascii_digit()
        || byte == b' '
        || byte == b'.'
        || byte == b':'
        || byte == b'-'
        || byte == b'\n'
}

/// Whether the text has no other bytes than `a` to `z`, `0` to `9`, space, `.`, `:`, `-` and line feed.
pub fn is_plain(text: &[u8]) -> bool
    ensures { result ≡ is_plain text.now }
{
    text.iter().all(|byte| is_plain_byte(*byte))
}

/// The page of these three texts.
pub fn page_text(
    alloc: Global,
    parts: &PageParts,
    schedule: &[u8],
    report: &[u8],
    frames: &[u8],
) -> Result<Vec<u8>, NoMemory>
    ensures { IfOk result (λ page. page.items ≡ page_text parts.now schedule.now report.now frames.now) }
{
    let mut page = Vec::new(alloc);
    put(&mut page, parts.opening)?;
    put(&mut page, schedule)?;
    put(&mut page, parts.before_report)?;
    put(&mut page, report)?;
    put(&mut page, parts.before_frames)?;
    put(&mut page, frames)?;
    put(&mut page, parts.ending)?;
    Ok(page)
}
