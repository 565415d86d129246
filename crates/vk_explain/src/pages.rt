//! The pages that are told without a text.

ghost use Rattle.std.specs.Prelude.{◌≡◌, IfOk};
ghost use Rattle.vk_explain.specs.Pages.{page_text};

use crate::words::Page;
use std::alloc::Global;
use vk_base::NoMemory;
use vk_text::put;

const ABOUT: &[u8] =
    b"Reads a trace, or one with answers, and tells what is wrong first in it.\n\nUsage: vkexplain [OPTIONS] < TEXT\n\n";

const ANSWERS: &[u8] =
    b"Options:\n      --answers  Write the text with each answer that the kernel gives\n";

const OTHERS: &[u8] = b"      --help     Print help\n      --version  Print version\n";

const EXAMPLES: &[u8] =
    b"\nExamples:\n  vkexplain < trace\n  vkexplain --answers < trace > observed\n";

/// The text of a page.
#[tactic(auto, unfolding(crate::specs::Pages::page_text))]
pub(crate) fn page_text(alloc: Global, page: Page) -> Result<Vec<u8>, NoMemory>
    ensures { IfOk result (λ text. text.items ≡ page_text page) }
{
    let mut text = Vec::new(alloc);
    match page {
        Page::Help => {
            put(&mut text, ABOUT)?;
            put(&mut text, ANSWERS)?;
            put(&mut text, OTHERS)?;
            put(&mut text, EXAMPLES)?;
        }
        Page::Version => put(&mut text, b"vkexplain 1.0.0\n")?,
    }
    Ok(text)
}
