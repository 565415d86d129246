//! The page of a history: one file of HTML that shows a schedule, its report and its frames. The page is a fixed text around these three,
//! and the three are plain: what they may have is `specs/Page.antt`, so nothing is escaped, and no element can end early.
//!
//! The fixed text is `src/page.html`, with `src/page.css` and `src/page.js` in it; `bin/page-text` makes `src/fixed.rt` of these, and
//! `.ci/page` fails where they differ. What the page shows is computed there, of the three texts alone; no law looks into it.
//!
//! Stands on `vk_base` and on `vk_text`. What the three texts say, it does not ask.
#![tactic(auto)]

mod fixed;
mod join;
mod law;
mod parts;

pub use fixed::fixed_parts;
pub use join::{is_plain, page_text};
pub use law::plain_texts_are_kept;
pub use parts::PageParts;
