//! The numbers that are told of a storm.

ghost use Rattle.std.specs.Prelude.{◌≡◌, ◌+◌, ◌<◌, ◌^◌, List, Some, not};
ghost use Rattle.vk_procs.specs.declared.seat.Seat.{Seat as TheSeat};
ghost use Rattle.vk_host.specs.Responses.{answer_given};
ghost use Rattle.vk_rules.specs.Observed.{is_not_yet_refusal};
ghost use Rattle.vk_stands.specs.Rules.{given_by};
ghost use Rattle.vk_drive.specs.Driving.{AreLow, counts_with, one_if};
ghost use Rattle.vk_drive.specs.Told.{is_timed_out, is_timed_out_refusal, tells_answer};

use vk_base::{Outcome, Refusal};
use vk_host::Response;

/// How many frames were emitted, how many deliveries were taken and how many were too old, how many answers processes were told, and how
/// many of these said that nobody answered in time.
#[derive(Clone, Copy, Debug, PartialEq, Eq)]
pub struct StormCounts {
    pub frames: u64,
    pub taken: u64,
    pub late: u64,
    pub answers: u64,
    pub timedout: u64,
}

impl StormCounts {
    pub fn new() -> Self
        ensures { result ≡ record { frames = 0; taken = 0; late = 0; answers = 0; timedout = 0 } }
    {
        StormCounts {
            frames: 0,
            taken: 0,
            late: 0,
            answers: 0,
            timedout: 0,
        }
    }

    /// A process was refused so, or its collect came too early.
    fn count_refusal(&mut self, why: Refusal)
        requires { AreLow self.old }
        ensures { self.new ≡ record self.old {
          answers = self.old.answers + one_if (not (is_not_yet_refusal why));
          timedout = self.old.timedout + one_if (is_timed_out_refusal why);
        } }
    {
        match why {
            Refusal::NotYet => {}
            Refusal::TimedOut => {
                self.answers += 1;
                self.timedout += 1;
            }
            _ => self.answers += 1,
        }
    }

    /// A process was answered so.
    fn count_outcome(&mut self, outcome: &Outcome)
        requires { AreLow self.old }
        ensures { self.new ≡ record self.old {
          answers = self.old.answers + one_if (tells_answer (given_by (Some outcome.now)));
          timedout = self.old.timedout + one_if (is_timed_out (given_by (Some outcome.now)));
        } }
    {
        match outcome {
            Outcome::Refused { why } => self.count_refusal(*why),
            _ => self.answers += 1,
        }
    }

    /// An event was answered so, and this many frames were emitted.
    pub fn count(&mut self, frames: u32, response: &Response)
        requires frames { self.old.frames < 2 ^ 63 }
        requires low { AreLow self.old }
        ensures { (seats : List TheSeat) → self.new ≡ counts_with self.old frames (answer_given seats response.now) }
    {
        self.frames += u64::from(frames);
        match response {
            Response::Taken => self.taken += 1,
            Response::Old => self.late += 1,
            Response::Given { outcome } => self.count_outcome(outcome),
            Response::Loaded { .. } => self.answers += 1,
            _ => {}
        }
    }
}
