//! What the run of one node comes to, whose jobs ran beside each other: laws of closed histories, with no thread in them.
//!
//! A node is one station, alone in its program: a job for each of its programs, its clock, and its link, which carries frames to other
//! stations and delivers the datagrams that come (`specs/Links.antt`). What each job promises is `specs/Jobs.antt`, and of the link's seats
//! `specs/Seats.antt`. All seats have come back where the histories are closed (`specs/Closed.antt`). What the node then comes to is
//! `specs/Outcomes.antt`, what its link sends `specs/Sent.antt`, and the laws are `specs/Laws.antt`.
//!
//! Stands on the passages and jobs of `v_run`, and on what that proves of ports in closed histories. A station sends nothing to itself
//! (`proofs/States.antt`, `proofs/Others.antt`), so the ports of programs and clock deliver nothing (`proofs/Own.antt`), and the hub's
//! history is short beside the station's frames (`proofs/Crowded.antt`); that nothing but its own halt ends the clock is
//! `proofs/Ending.antt`, that no collect is answered too early is `proofs/Answered.antt`, and `proofs/Whole.antt` puts the parts together.
#![tactic(auto)]

mod law;

pub use law::{closed_nodes_are_runs, frames_go_to_others, nodes_send_their_own};
