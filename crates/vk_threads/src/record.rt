//! The record of a run.
ghost use Rattle.std.specs.Prelude.{◌≡◌, List, true, false, None, IfOk, IfErr};
ghost use Rattle.v_run.specs.Outcomes.{Assignment};
ghost use Rattle.v_run.specs.Ran.{IsRun};
ghost use Rattle.vk_threads.specs.Ended.{AreSites, HaveEnded};

use crate::end::End;
use crate::gather::{Closed, close_run, has_met_full, has_met_no_memory};
use crate::opening::Site;
use std::alloc::Global;
use std::sync::Wait;
use std::sync::atomic::AtomicU64;
use thiserror::Error;
use turn_cell::TurnSeat;
use v_run::{RunEnd, closed_runs_are_joined, joined_runs_are_runs};
use vk_base::{Config, NoMemory};
use vk_hub::{Hub, HubState};
use vk_join::{JoinedSchedule, merge_stations};

/// What a run was, as a schedule.
#[derive(Drop)]
pub struct RunRecord {
    pub schedule: JoinedSchedule,
    pub end: RunEnd,
}

/// Why there is no record of a run.
#[derive(Clone, Copy, Debug, PartialEq, Eq, Error)]
pub enum RunRefusal {
    /// The crew failed.
    #[error("the crew failed")]
    CrewFault,
    /// There was no memory.
    #[error("out of memory")]
    NoMemory,
}

/// How a run ended, of whose jobs one met a full history or none did. Where no job did, and the hub was halted although something could
/// happen still, no answer is true: then it waits for ever. No run is known to do so.
fn end_of<R: Wait>(rt: &R, limited: bool, closed: &Closed) -> RunEnd
    ensures done { result ≡ RunEnd.Done → (limited ≡ false) × (closed.now.finished ≡ true) }
    ensures limited { result ≡ RunEnd.Limited → limited ≡ true }
    ensures waiting { result ≡ RunEnd.Waiting → (limited ≡ false) × (closed.now.finished ≡ false) × (closed.now.still ≡ true) }
{
    if limited {
        return RunEnd::Limited;
    }
    if closed.finished {
        return RunEnd::Done;
    }
    if closed.still {
        return RunEnd::Waiting;
    }
    let never = AtomicU64::new(0);
    for _ in rt.forever() {
        never.park(rt, 0);
    }
    unreachable!()
}

/// The record of a run of so many rounds, from what its jobs gave back.
pub fn record_of<R: Wait>(
    rt: &R,
    alloc: Global,
    config: Config,
    sites: Vec<Site>,
    hub: Hub,
    ends: Vec<End>,
    halt: TurnSeat<HubState>,
    rounds: u32,
) -> Result<RunRecord, RunRefusal>
    requires sites { AreSites config sites.items }
    requires ended { (tasks : List Assignment) × HaveEnded config sites.items hub rounds tasks ends.items halt }
    ensures ran { IfOk result (λ r. (tasks : List Assignment) → HaveEnded config sites.items hub rounds tasks ends.items halt →
        IsRun config hub.origin.plan rounds tasks r.end r.schedule) }
    ensures refused { IfErr result (λ e. e ≡ RunRefusal.NoMemory) }
{
    let _lawful = config.times();
    closed_runs_are_joined();
    joined_runs_are_runs();
    let limited = has_met_full(&ends);
    if has_met_no_memory(&ends) {
        return Err(RunRefusal::NoMemory);
    }
    let Ok(closed) = close_run(alloc, sites, hub, ends, halt, config.specs(), rounds) else {
        return Err(RunRefusal::NoMemory);
    };
    let end = end_of(rt, limited, &closed);
    match merge_stations(alloc, &config, closed.logs) {
        Ok(schedule) => Ok(RunRecord { schedule, end }),
        Err(NoMemory) => Err(RunRefusal::NoMemory),
    }
}
