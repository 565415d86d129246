//! When the answers come that say that something failed, and what changes nothing: laws of every list of inputs at a station,
//! whatever its processes call and whatever frames come, and no code.
//!
//! Begin with `specs/Failures.antt`: a work fails exactly at a due tick that finds it unanswered; `specs/Turns.antt` has which tick that
//! is. The other files of `specs/` have what packets and exits end, which Send packets arrive, and what passes by. Of the proofs
//! `Told.antt` shows by what a work is over with a refusal, `Ticks.antt` that a due one fails, `Rounds.antt` that another one goes out,
//! `Patience.antt` when; `Waits.antt` and `Named.antt` what holds of who is blocked, and `Entries.antt` what an entry takes.
//!
//! Stands on the entries of `vk_rules`, on what packets list by `v_ages` and `v_ended`, and on the views of `v_whole`, which hold
//! whatever frames come.
#![tactic(auto)]

mod law;

pub use law::{
    copies_change_nothing, dead_targets_are_refused, exits_tell_senders, late_packets_pass_by,
    later_sends_replace, moves_are_gone_by_negatives, near_sends_fail_by_exits, new_sends_arrive,
    remote_sends_fail_by_negatives, works_are_patient, works_fail_in_turn, works_fail_when_due,
    works_go_out_when_due,
};
