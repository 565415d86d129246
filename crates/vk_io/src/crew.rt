// What jobs, crews and pacers promise.
ghost use Rattle.std.specs.Prelude.{◌≡◌, ◌≢◌, ℕ, ◌+◌, ◌-◌, ◌^◌, min, vec_len, IfOk, OnOk, OnErr};
ghost use Rattle.vk_io.specs.Causes.{next_count};
ghost use Rattle.vk_io.specs.Crews.{AllEnd, TellsCrewFault};

use crate::scoped::{run_in_threads, run_in_turn};
use std::alloc::Global;
use std::sync::Wait;
use std::thread::Threads;
use std::time::Clock;
use thiserror::Error;

/// Some work, and what it gives back.
pub trait Job: Send + Drop {
    type End: Send + Drop;

    /// The end that a job may come to.
    ghost ends: { Self → Self.End → Type 0 };

    /// Does the work to its end.
    fn work<R: Wait + Threads + Clock + Sync>(self, rt: &R) -> Self::End
        ensures { ends self result };
}

/// What makes jobs end that are under way.
pub trait Halt {
    /// It has halted them.
    ghost is_halted: { Self → Type 0 };

    /// Halts them. It comes back at once: their ends come later.
    fn halt<R: Wait + Threads + Clock + Sync>(&mut self, rt: &R)
        ensures { is_halted self.new };
}

/// Waits for a while. It promises nothing.
pub trait Pacer {
    /// Where it is late, at most so many waits behind one another end at once.
    fn catch_up(&mut self, _most: u32) {}

    /// Its next wait is late, whatever clock it has.
    fn hurry(&mut self) {}

    fn wait<R: Wait + Clock>(&mut self, rt: &R);
}

/// Why a crew ran its jobs to no end.
#[derive(Clone, Copy, Debug, PartialEq, Eq, Error)]
pub enum CrewError {
    /// The crew's count of faults rose.
    #[error("the crew failed")]
    Failed,
    /// There was no memory for the jobs, or for their ends.
    #[error("out of memory")]
    NoMemory,
}

/// How a crew runs the jobs of one call.
#[derive(Clone, Copy, Debug, PartialEq, Eq)]
pub enum Way {
    /// In threads of their own.
    Threads,
    /// As std's `map_vec` does, which may run one behind the other.
    InTurn,
    /// Not at all.
    Refused,
}

/// Runs jobs beside each other. It counts its faults, and the jobs of the calls that went well.
pub trait Crew {
    ghost fault_count: { Self → ℕ };

    ghost job_count: { Self → ℕ };

    /// It may meet faults.
    ghost may_fail: { Self → Type 0 };

    /// How many faults there were. The count stays at `u64::MAX` once it is there.
    fn faults(&self) -> u64
        ensures { result ≡ fault_count self.now };

    /// How many jobs there were in calls that went well. The count stays at `u64::MAX` once it is there.
    fn jobs(&self) -> u64
        ensures { result ≡ job_count self.now };

    /// Decides on one call. A refusal is a fault.
    fn way(&mut self) -> Way
        ensures jobs { job_count self.new ≡ job_count self.old }
        ensures refused { result ≡ Way.Refused → fault_count self.new ≡ next_count (fault_count self.old) }
        ensures threads { result ≡ Way.Threads → may_fail self.new }
        ensures else_same { result ≢ Way.Refused → fault_count self.new ≡ fault_count self.old };

    /// Counts a fault, where the crew may meet one.
    fn note_fault(&mut self)
        ensures jobs { job_count self.new ≡ job_count self.old }
        ensures faults { may_fail self.old → fault_count self.new ≡ next_count (fault_count self.old) };

    /// Counts the jobs of a call that went well.
    fn note_jobs(&mut self, count: usize)
        ensures jobs { job_count self.new ≡ min (job_count self.old + count) (2 ^ 64 - 1) }
        ensures faults { fault_count self.new ≡ fault_count self.old };

    /// Runs all jobs beside each other, and gives one end for each, in their order. Where they cannot all be begun, or there is no
    /// memory for their ends, it calls `halt` and waits for those that were begun; the others are let go.
    final fn run_all<J: Job, H: Halt, R: Wait + Threads + Clock + Sync>(
        &mut self,
        rt: &R,
        alloc: Global,
        jobs: Vec<J>,
        halt: &mut H,
    ) -> Result<Vec<J::End>, CrewError>
        ensures ends { IfOk result (λ ends. AllEnd J.ends jobs.items ends.items) }
        ensures halt { OnOk result (halt.new ≡ halt.old) }
        ensures halted { OnErr result (H.is_halted halt.new) }
        ensures jobs { OnOk result (job_count self.new ≡ min (job_count self.old + vec_len jobs) (2 ^ 64 - 1)) }
        ensures no_jobs { OnErr result (job_count self.new ≡ job_count self.old) }
        ensures cause { TellsCrewFault (fault_count self.old) (fault_count self.new) result }
    {
        let count = jobs.len();
        match self.way() {
            Way::Threads => match run_in_threads(rt, alloc, jobs, halt) {
                Ok(ends) => {
                    self.note_jobs(count);
                    Ok(ends)
                }
                Err(CrewError::Failed) => {
                    self.note_fault();
                    Err(CrewError::Failed)
                }
                Err(CrewError::NoMemory) => Err(CrewError::NoMemory),
            },
            Way::InTurn => match run_in_turn(rt, jobs, halt) {
                Ok(ends) => {
                    self.note_jobs(count);
                    Ok(ends)
                }
                Err(_) => Err(CrewError::NoMemory),
            },
            Way::Refused => {
                halt.halt(rt);
                Err(CrewError::Failed)
            }
        }
    }
}
