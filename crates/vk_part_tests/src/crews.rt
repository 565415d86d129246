// A crew in memory whose second call fails.

ghost use Rattle.std.specs.Prelude.{◌≤◌};

use std::sync::Wait;
use std::test::Fail;
use std::thread::Threads;
use std::time::Clock;
use vk_io::{Crew, CrewError, Halt, Job, MemoryCrew, SureCrew};

/// Gives the number after its own.
#[derive(Drop)]
struct Next(u32);

impl Job for Next {
    type End = u32;

    ghost ends = { λ j e. Unit {0} };

    fn work<R: Wait + Threads + Clock + Sync>(self, _rt: &R) -> u32 {
        self.0.saturating_add(1)
    }
}

/// Counts how often it was called.
#[derive(Drop)]
struct Halts(u32);

impl Halt for Halts {
    ghost is_halted = { λ h. 1 ≤ h.0 };

    fn halt<R: Wait + Threads + Clock + Sync>(&mut self, _rt: &R) {
        self.0 = self.0.saturating_add(1);
    }
}

#[test]
fn a_listed_call_begins_no_job(rt: HostRuntime) -> Result<(), Fail> {
    let alloc = rt.alloc();
    let mut crew = MemoryCrew::new(vec![in alloc; 2]?);
    let mut halts = Halts(0);
    let first = crew.run_all(&rt, alloc, vec![in alloc; Next(1), Next(2)]?, &mut halts);
    assert!(rt; matches!(&first, Ok(ends) if ends.as_slice() == [2, 3].as_slice()));
    assert_eq!(rt; (crew.faults(), crew.jobs(), halts.0), (0, 2, 0));
    let second = crew.run_all(&rt, alloc, vec![in alloc; Next(3)]?, &mut halts);
    assert!(rt; matches!(second, Err(CrewError::Failed)));
    assert_eq!(rt; (crew.faults(), crew.jobs(), halts.0), (1, 2, 1));
    let mut sure = SureCrew::new();
    let third = sure.run_all(&rt, alloc, vec![in alloc; Next(4)]?, &mut halts);
    assert!(rt; matches!(&third, Ok(ends) if ends.as_slice() == [5].as_slice()));
    assert_eq!(rt; (sure.faults(), sure.jobs(), halts.0), (0, 1, 1));
    Ok(())
}
