//! All stations of a run in one value: each event of a schedule is played at its station, and a delivery hands over a frame that was
//! emitted before.
//!
//! The public type is [`Cluster`]. What it promises of an event, for every list of events that it stands for, is `specs/Standing.antt`:
//! the report is what the history tells of the event, and the cluster then stands for the list with it. Stands on the stations of
//! `vk_host` and on the definitions of `vk_rules`; that emitted frames are lawful is from `v_lawful`. All frames lie in blocks of bytes
//! that are never copied again (`src/frames.rt`, `specs/Blocks.antt`) and are found by position (`src/emitted.rt`, `specs/Piles.antt`);
//! that this finds what the definitions hand over is `proofs/Found.antt` and `Handed.antt`. Entries and events are not kept. Other crates
//! put frames among those that were emitted by [`keep`] alone, and find them by [`handed_over`].
#![tactic(auto)]

mod cluster;
mod emitted;
mod frames;
mod law;
mod report;

pub use cluster::{Cluster, acting, handed_over, keep, new_hosts, pids_are, place_of};
pub use emitted::EmittedFrames;
pub use frames::MOST_BYTES;
pub use law::clusters_run;
pub use report::{Advance, ClusterAnswer, ClusterRefusal, StepReport};
