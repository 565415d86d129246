//! The jobs of a run.
ghost use Rattle.vk_threads.specs.Jobs.{ends_as};

use crate::clock::{ClockWork, clock_end};
use crate::end::End;
use crate::process::{ProcessWork, process_end};
use crate::pump::{PumpWork, pump_end};
use std::sync::Wait;
use std::thread::Threads;
use std::time::Clock;
use vk_io::{Job, Pacer};
use vk_port::Sleep;
use vk_program::Program;

/// A job of a run: a process with its program, what delivers at a station, or the clock.
#[derive(Drop)]
pub enum RunJob<'a, 'p, G: Program, P: Pacer> {
    Process(ProcessWork<'a, G, Sleep>),
    Pump(PumpWork<'a>),
    Clock(ClockWork<'a, 'p, P>),
}

impl<'a, 'p, G: Program + Send, P: Pacer + Send> Job for RunJob<'a, 'p, G, P> {
    type End = End;

    ghost ends = { ends_as G.task };

    fn work<R: Wait + Threads + Clock + Sync>(self, rt: &R) -> End {
        match self {
            RunJob::Process(job) => process_end(rt, job),
            RunJob::Pump(job) => pump_end(rt, job),
            RunJob::Clock(job) => clock_end(rt, job),
        }
    }
}
