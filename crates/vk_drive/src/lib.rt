//! The seeded driver: `storm(n)` plays n events that are a function of n on all stations of a run, and tells what happened;
//! `storm_schedule(n)` gives these events.
//!
//! Stands on the stations of `vk_host`, the page programs of `vk_pages` and the generator of `vk_generator`. What a storm is stands in
//! `specs/Storms.antt`, its processes in `specs/Tasks.antt`, what is read off a history in `specs/Told.antt`; what the code keeps of a
//! storm under way is `specs/Driving.antt`. Of the events nothing is kept but what the stations keep of them, where their schedule is not
//! asked for, and of the frames the last 32. So no event takes memory; that the stations are those of a cluster, with all frames, is said
//! by `vk_cluster`'s own words of values that no code has (`AreStations`).
#![tactic(auto)]

mod actor;
mod actors;
mod counts;
mod course;
mod driver;
mod next;
mod recent;
mod stations;
mod summary;
mod tasks;

pub use driver::{storm, storm_schedule};
pub use summary::{StormRefusal, StormSummary};
