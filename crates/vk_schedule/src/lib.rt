//! Schedules: the events of a run, and the text that gives a configuration and its events; and the plan of what becomes of frames on the
//! way.
//!
//! A schedule is a configuration and a list of events (`specs/Schedule.antt`); which of them have a text is `specs/Lawful.antt`, how it is
//! spelled `specs/Spelling.antt`. An event more is a variant of [`Event`], a line in `src/line.rt` and one in `src/view.rt`.
//!
//! Stands on the values of `vk_base`, their views in `vk_brief`, and the words of `vk_text`.
#![tactic(auto)]

mod event;
mod law;
mod line;
mod log;
mod plan;
mod reader;
mod schedule;
mod view;
mod writing;

pub use event::Event;
pub use law::{front_lines, schedules_are_read_again, schedules_are_spelled};
pub use log::StationLog;
pub use plan::LinkPlan;
pub use reader::EventReader;
pub use schedule::{Front, Schedule, TextRefusal, read_front, read_schedule, refused};
pub use view::{EventBuffer, EventKind, EventView};
pub use writing::{ScheduleWriter, write_schedule};
