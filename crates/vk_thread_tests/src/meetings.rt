// Two programs, neither of which goes on alone.
ghost use Rattle.std.specs.Prelude.{None};

use crate::ports::{config_of, process};
use std::alloc::Global;
use std::sync::Arc;
use std::sync::atomic::AtomicU32;
use std::sync::atomic::Ordering::SeqCst;
use std::test::Fail;
use std::thread::yield_now;
use vk_base::{Answer, Call, Pid};
use vk_io::Crew;
use vk_program::{Assigned, Program};
use vk_schedule::LinkPlan;
use vk_threads::{SleepPacer, ThreadCrew, run_programs};

/// What each program adds when it comes, and when it has seen that the other came.
const COMES: u32 = 1;

const MEETS: u32 = 10;

/// A program without calls. It comes, waits for the other, and tells that it met it. It gives up after a long while.
#[derive(Drop)]
struct Meeting {
    seen: Arc<AtomicU32, Global>,
}

impl Program for Meeting {
    ghost task = { λ p answers. None };

    ghost is_after = { λ p answers. Unit {0} };

    fn next(&mut self, _last: Option<&Answer>) -> Option<Call> {
        self.seen.fetch_add(COMES, SeqCst);
        if came(&self.seen) {
            self.seen.fetch_add(MEETS, SeqCst);
        }
        None
    }
}

/// Whether both come, within a long while.
fn came(seen: &AtomicU32) -> bool {
    for _ in 0..10_000_000 {
        if seen.load(SeqCst) % MEETS >= 2 * COMES {
            return true;
        }
        yield_now();
    }
    false
}

// Both programs are under way at once: one of them alone would not come to its end.
#[test]
fn programs_go_on_beside_each_other(rt: HostRuntime) -> Result<(), Fail> {
    let alloc = rt.alloc();
    let config = config_of(alloc, &[process(1, 1), process(2, 1)]).expect(&rt, "a configuration");
    let seen = Arc::new(alloc, AtomicU32::new(0)).expect(&rt, "memory");
    let one = Assigned {
        pid: Pid { host: 1, local: 1 },
        program: Meeting {
            seen: Arc::try_clone(&seen).expect(&rt, "a share"),
        },
    };
    let two = Assigned {
        pid: Pid { host: 2, local: 1 },
        program: Meeting {
            seen: Arc::try_clone(&seen).expect(&rt, "a share"),
        },
    };
    assert!(rt; config.has_process(one.pid) && config.has_process(two.pid));
    let plan = LinkPlan {
        lose: 0,
        double: 0,
        hold: 0,
        seed: 0,
    };
    let mut crew = ThreadCrew::new();
    let mut pacer = SleepPacer::new();
    let mut programs = Vec::with_capacity(alloc, 2)?;
    programs.push_reserved(one);
    programs.push_reserved(two);
    let record = run_programs(&rt, alloc, config, programs, plan, 0, &mut crew, &mut pacer);
    assert!(rt; record.is_ok() && crew.jobs() == 5);
    assert!(rt; seen.load(SeqCst) == 2 * (COMES + MEETS));
    Ok(())
}
