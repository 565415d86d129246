//! The events of a station in few bytes, in their order: the bytes of frames and of Stores stand one behind another, and beside them what
//! else an event has. So a history takes for an event what the event has, and not the room of the largest one.
//!
//! Stands on the values of `vk_base`, which contracts see, and on the calls of `vk_brief`: a log is the list of its events, and the view of
//! one is that event. Whose events they are, and what they come to, it does not ask.
#![tactic(auto)]

mod entry;
mod log;
mod view;

pub use log::EventLog;
pub use view::StationEventView;
