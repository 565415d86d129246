//! Texts of steps and answers, as traces and reports have them, and traces as texts.
//!
//! Stands on the values of `vk_base`, in few bytes by `vk_brief`, and on the words of `vk_text`.
#![tactic(auto)]

mod answer;
mod buffer;
mod law;
mod reader;
mod reading;
mod step;
mod trace;
mod word;

pub use answer::{draft_outcome, put_answer, put_loaded, put_outcome};
pub use buffer::StepBuffer;
pub use law::{steps_are_spelled_once, traces_are_spelled_once};
pub use reader::StepReader;
pub use step::{go_on_with_step, put_step};
pub use trace::{Trace, TraceRefusal, read_trace};
