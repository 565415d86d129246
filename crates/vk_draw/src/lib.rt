//! The top call of `vkdraw`: one schedule in, the picture of its history out, or the page of it, and a status.
//!
//! Stands on the reader of schedules (`vk_schedule`), on all stations of a run (`vk_cluster`), on what is drawn and its text
//! (`vk_picture`), on the lines of frames (`vk_frame_text`) and the page around texts (`vk_page`), on the report that `vkernel` writes
//! (`vk_top`), on sources and sinks (`vk_io`), and on `clap`. What is drawn of a history is `specs/Rows.antt`, the text of its frames
//! `specs/Frames.antt`, what each status says `specs/Top.antt`.
#![tactic(auto)]

mod frames;
mod law;
mod lines;
mod page;
mod playing;
mod report;
mod rows;
mod status;
mod top;
mod words;

pub use law::{each_frame_has_one_line, schedule_and_frames_are_plain};
pub use status::Status;
pub use top::vkdraw;
