//! The text of frames: a line for each frame that was emitted, with all that it says but the bytes at its packet's end. What the line says
//! is `specs/Frames.antt`; that it gives the frame back is the law of `src/law.rt`, by the reading of `specs/Reading.antt`.
//!
//! Stands on headers (`vk_frame`) and packets (`vk_packet`), on the words of `vk_text`, and on `vk_report`, whose line of a frame begins
//! with the same place. Which frames a history has, it does not ask. A kind of packet more is a line in each of the two files of
//! definitions, and one in `src/line.rt`.
#![tactic(auto)]

mod law;
mod line;

pub use law::frame_lines_are_their_frames;
pub use line::put_frame_line;
