//! Scenarios: what each process of a configuration is to do, and their text. Schedules and what they are made of are of `vk_schedule`, and
//! can be had here too.
//!
//! Stands on the values of `vk_base`, on `vk_schedule`, and on the words of `vk_text`.
#![tactic(auto)]

mod law;
mod node;
mod node_law;
mod node_line;
mod node_place;
mod node_writing;
mod pair;
mod port;
mod programs;
mod scenario;
mod task;
mod task_line;

pub use law::{scenarios_are_read_again, scenarios_are_spelled};
pub use node::{NodeTexts, read_nodes};
pub use node_law::{nodes_are_read_again, nodes_are_spelled};
pub use node_writing::write_node;
pub use pair::{GROUP_MEMBERS, HelperPair, are_pairs};
pub use port::{StationPort, has_all_ports, line_behind};
pub use scenario::{Scenario, TICKS, read_scenario};
pub use task::{FILES, IMAGE_BYTES, PAGE_BYTES, PAGES, Task, TaskKind};
pub use vk_schedule::{
    Event, EventBuffer, EventKind, EventReader, EventView, Front, LinkPlan, Schedule, StationLog,
    TextRefusal, front_lines, read_front, read_schedule, schedules_are_read_again,
    schedules_are_spelled, write_schedule,
};
