// Runs of scenarios whose jobs are threads, over links that are not clean.

use std::alloc::Global;
use std::sync::Wait;
use std::test::Fail;
use std::thread::Threads;
use std::time::Clock;
use v_run::RunEnd;
use vk_event::read_scenario;
use vk_io::Crew;
use vk_pages::are_any_kinds;
use vk_threads::{SleepPacer, ThreadCrew, run_stations};

/// A client writes four pages and reads them, over links that double and hold.
const PAGES: &[u8] =
    b"vkernel scenario 1\nprocess 1.1 1024\nprocess 2.1 1024\nprogram 1.1 pageserver 4 8\n\
program 2.1 pageclient 1.1 4 4\nlink 0 128 128 7\nticks 0\n";

/// Sends to a process that has left, or leaves meanwhile, over links that lose, double and hold.
const GONE: &[u8] =
    b"vkernel scenario 1\nprocess 1.1 64\nprocess 2.1 64\nprocess 3.1 64\ndo 1.1 exit\ndo 2.1 send 1.1 0a\n\
do 2.1 getpid 7 both\ndo 3.1 send 1.1 0b\ndo 3.1 send 2.1 0c\ndo 2.1 exit\nlink 128 128 128 7\nticks 16000\n";

/// A page server that waits for one request more than its client makes.
const WAITS: &[u8] =
    b"vkernel scenario 1\nprocess 1.1 1024\nprocess 2.1 1024\nprogram 1.1 pageserver 4 9\n\
program 2.1 pageclient 1.1 4 4\nlink 0 0 0 7\nticks 3\n";

/// A process that waits for a message, where nobody sends one and no round is to come.
const ALONE: &[u8] = b"vkernel scenario 1\nprocess 1.1 64\ndo 1.1 receive\nlink 0 0 0 7\nticks 0\n";

/// How many jobs the scenario had that ended so, `None` where it ended otherwise or was refused.
fn jobs_of<R: Wait + Threads + Clock + Sync>(
    rt: &R,
    alloc: Global,
    text: &[u8],
    end: RunEnd,
) -> Option<u64> {
    let Ok(scenario) = read_scenario(alloc, text) else {
        return None;
    };
    if !are_any_kinds(scenario.tasks.as_slice()) {
        return None;
    }
    let mut crew = ThreadCrew::new();
    let mut pacer = SleepPacer::new();
    match run_stations(rt, alloc, scenario, &mut crew, &mut pacer) {
        Ok(record) if record.end == end => Some(crew.jobs()),
        _ => None,
    }
}

#[test]
fn runs_end_over_links_that_lose_double_and_hold(rt: HostRuntime) -> Result<(), Fail> {
    let alloc = rt.alloc();
    assert_eq!(rt; jobs_of(&rt, alloc, PAGES, RunEnd::Done), Some(5));
    assert_eq!(rt; jobs_of(&rt, alloc, GONE, RunEnd::Done), Some(7));
    Ok(())
}

#[test]
fn runs_that_wait_for_ever_end(rt: HostRuntime) -> Result<(), Fail> {
    let alloc = rt.alloc();
    assert_eq!(rt; jobs_of(&rt, alloc, WAITS, RunEnd::Waiting), Some(5));
    assert_eq!(rt; jobs_of(&rt, alloc, ALONE, RunEnd::Waiting), Some(3));
    Ok(())
}
