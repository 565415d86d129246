//! The laws of closed histories.
ghost use Rattle.v_run.specs.Laws.{ClosedRunsAreJoined, JoinedRunsAreRuns, LogsMayBeJoined, RunsFollowTasks};

use v_ended::answered_works_end_by_frames;
use vk_frame::frames_are_spelled_once;
use vk_join::{bytes_are_of_stations, outputs_are_joined};
use vk_packet::packets_are_spelled_once;
use vk_rules::frames_unseal_again;

/// The logs of closed histories are as a join asks of logs. Whatever jobs did by their seats, each in its role: where all seats have
/// come back, each delivery in these logs brings what a station emitted for this one, and they keep to the limits; so they are joined.
pub fn closed_runs_are_joined()
    ensures asked { LogsMayBeJoined }
    ensures joined { ClosedRunsAreJoined }
{
    frames_unseal_again();
    frames_are_spelled_once();
    packets_are_spelled_once();
    outputs_are_joined();
}

/// A schedule that they are joined to is a run of these jobs.
pub fn joined_runs_are_runs()
    ensures { JoinedRunsAreRuns }
{
    frames_unseal_again();
    frames_are_spelled_once();
    packets_are_spelled_once();
    bytes_are_of_stations();
    answered_works_end_by_frames();
}

/// In the history of a run each process follows its task as the laws of page servers ask, so that these hold of runs.
pub fn runs_follow_tasks()
    ensures { RunsFollowTasks }
{}
