//! The top call of `vkexplain`: a trace or a text with answers in, what is wrong in it out, or the text with its answers, and a status.
//!
//! Stands on the readers of lines (`v_trace`, `vk_text`), on the machine that applies steps (`v_machine`), on what a text with answers says
//! (`v_obstacle`), on sources and sinks (`vk_io`), on what each program does (`vk_edge`), and on `clap`.
//!
//! What is said of a text is `specs/Explained.antt`, how far its reading has come `specs/Reading.antt`, in which words it is told
//! `specs/Told.antt`, the text with its answers `specs/Observed.antt`, and what each status says `specs/Top.antt`.
#![tactic(auto)]

mod explaining;
mod fault;
mod observing;
mod pages;
mod reading;
mod status;
mod told;
mod top;
mod words;

pub use status::Status;
pub use top::vkexplain;
