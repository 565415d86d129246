//! Stations that run beside each other, each process in a job of its own: the runs of scenarios.
//!
//! [`run_programs`] makes a cell for each station and a hub for the links, deals their seats to jobs, and has a crew run them: one job for
//! each program, one for each station that delivers what comes for it, and one that is the clock. From the seats that come back it closes
//! all histories, and joins them to a schedule. What that schedule is, `Rattle.v_run.specs.Ran` says; what each job may come to,
//! `specs/Works.antt` and `specs/Ends.antt`. Stands on `vk_port`, `vk_join` and `vk_io`.
#![tactic(auto)]

mod clock;
mod crew;
mod deal;
mod end;
mod gather;
mod halt;
mod opening;
mod pacer;
mod process;
mod pump;
mod record;
mod run;
mod work;

pub use crew::ThreadCrew;
pub use deal::take_hub_seat;
pub use end::{End, Seats};
pub use gather::{Gathered, close_all, gather_all, has_met_full, has_met_no_memory};
pub use halt::HubHalt;
pub use opening::Site;
pub use pacer::SleepPacer;
pub use process::{ProcessWork, process_end};
pub use record::{RunRecord, RunRefusal};
pub use run::{run_programs, run_stations};
