//! Pictures of histories: a plain value of what is drawn of one, and its text as SVG.
//!
//! Stands on the values of `vk_base`, on the kinds of packets (`vk_report`) and on words (`vk_text`). What a history is, it does not ask:
//! whoever plays one fills a [`Picture`]. Where things stand on the page is `specs/Places.antt`, what a process does from event to event
//! `specs/Lanes.antt`, which marks there are `specs/Marks.antt`, their text and that of the whole `specs/Svg.antt`; that nothing is drawn
//! twice or left out is `specs/Law.antt`. A colour or a stroke more is a line of `src/style.rt`.
#![tactic(auto)]

mod columns;
mod drawn;
mod elements;
mod labels;
mod lanes;
mod law;
mod lines;
mod marks;
mod picture;
mod places;
mod style;
mod svg;
mod words;

pub use columns::columns_of;
pub use law::each_has_one_mark;
pub use picture::{Act, CallKind, Column, EventRow, FrameMark, Picture, Said, StepKind, StepMark};
pub use svg::{COLUMNS, ROWS, picture_text};
