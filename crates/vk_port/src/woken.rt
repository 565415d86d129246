//! Which processes an event gave something to collect.

use vk_base::Pid;
use vk_base::limits::STEPS;
use vk_brief::{BriefCall, BriefStep, Steps};
use vk_hub::Bells;

/// Stands in the places that are not used.
const FIRST: Pid = Pid { host: 1, local: 1 };

/// The processes that an event gave something to collect, so that they need not look for it. No contract speaks of it: a process looks by
/// itself whether it is done.
#[derive(Drop)]
pub struct Woken {
    pids: [Pid; STEPS],
    count: usize,
    /// Any process of this station may have something to collect.
    all_at: Option<u16>,
}

impl Woken {
    /// Of no event.
    pub fn new() -> Woken {
        Woken {
            pids: [FIRST; STEPS],
            count: 0,
            all_at: None,
        }
    }

    /// Of the event with these steps from now on.
    pub fn tell(&mut self, steps: &Steps) {
        self.count = 0;
        self.all_at = None;
        for at in 0..steps.len() {
            let (step, _) = steps.get(at).parts();
            self.add(step);
        }
    }

    /// Each step that ends a wait names its process; but an Exit ends the waits of those that sent to the process, without a step of
    /// theirs.
    fn add(&mut self, step: &BriefStep) {
        match step {
            BriefStep::Take { pid }
            | BriefStep::Finish { pid }
            | BriefStep::Fail { pid, .. }
            | BriefStep::End { pid, .. }
            | BriefStep::Found { asker: pid, .. }
            | BriefStep::Lost { asker: pid } => {
                if self.count < STEPS {
                    self.pids[self.count] = *pid;
                    self.count += 1;
                } else {
                    self.all_at = Some(pid.host);
                }
            }
            BriefStep::Call {
                pid,
                call: BriefCall::Exit,
            } => self.all_at = Some(pid.host),
            _ => {}
        }
    }

    /// Rings for them.
    pub fn ring(&self, bells: &Bells) {
        for pid in self.pids.iter().take(self.count) {
            bells.ring(*pid);
        }
        if let Some(host) = self.all_at {
            bells.ring_station(host);
        }
    }
}
