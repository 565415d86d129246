//! What a run comes to whose stations ran beside each other: laws of closed histories, with no thread in them.
//!
//! A passage is what a job did through one of its ports (`specs/Passages.antt`), a job's end what its relation says (`specs/Jobs.antt`).
//! All seats have come back where histories are closed (`specs/Closed.antt`). The laws are `specs/Laws.antt`: the logs of closed
//! histories are joined, and the schedule that they are joined to is a run (`specs/Ran.antt`), of which the stations' entries are as
//! `specs/Outcomes.antt` says.
//!
//! Stands on the definitions of `vk_port`, `vk_hub` and `vk_join`, and on the laws of links, frames and works. Sums over the entries of a
//! closed history are sums over what the passages did (`proofs/Sums.antt`); most parts of the outcome are such sums (`proofs/Whole.antt`).
//! `proofs/Outputs.antt` has that no delivery is stray, `proofs/Room.antt` that before each event there was room, and `proofs/Ran.antt`
//! puts the laws together.
#![tactic(auto)]

mod law;
mod run_end;

pub use law::{closed_runs_are_joined, joined_runs_are_runs, runs_follow_tasks};
pub use run_end::RunEnd;
