//! What each program at the edge of the product does, whatever its work is: it takes the words behind its name, reads its input to the end,
//! writes one text and flushes, and tells in a short text how that ended. A program adds its work, its words and its statuses. An input can
//! also be read piece by piece, each piece ending where a line does, into one buffer that is used again (`TextPieces`).
//!
//! Stands on sources and sinks (`vk_io`), and on `vk_base` for the limit of an input.
//!
//! What the input was, and why it is not read whole, is `specs/Inputs.antt`; what a piece of it is, `specs/Pieces.antt`; how an answer
//! tells of faults, and what it says of a text that is written, `specs/Answers.antt`. The numbers of the statuses that programs share are
//! `src/numbers.rt`, short texts `src/short.rt`, the words of the real program `src/words.rt`. What a program is for, it does not ask.
#![tactic(auto)]

mod buffer;
mod input;
pub mod numbers;
mod output;
mod pieces;
mod short;
mod words;

pub use input::read_text;
pub use output::write_text;
pub use pieces::TextPieces;
pub use short::{numbered_text, put_short, short_text, twice_numbered_text};
pub use words::{program_words, words_behind_name};
