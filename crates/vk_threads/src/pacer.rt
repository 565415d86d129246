//! The pace of real clocks.
use std::sync::Wait;
use std::thread::sleep;
use std::time::{Clock, Duration, Instant};
use vk_io::Pacer;

/// Waits for the next millisecond of the machine's clock. Where that is past, or it is to hurry, it does not sleep, at most so often behind
/// one another as it may catch up; then it sleeps for a whole millisecond, so that frames are carried and answered in between.
#[derive(Default, Drop)]
pub struct SleepPacer {
    /// When the last wait was to end.
    due: Option<Instant>,
    is_late: bool,
    most_hurried: u32,
    hurried: u32,
}

impl SleepPacer {
    /// A pacer that has not waited yet. Its first wait begins its count of milliseconds.
    pub fn new() -> SleepPacer {
        SleepPacer {
            due: None,
            is_late: false,
            most_hurried: 0,
            hurried: 0,
        }
    }

    /// The next millisecond is due now. How long it is until then; `None` where it is late. A clock that cannot be read counts as one that
    /// is on time.
    fn time_left<R: Clock>(&mut self, rt: &R) -> Option<Duration> {
        let Ok(now) = Instant::now(rt) else {
            return Some(tick());
        };
        let due = self.due.unwrap_or(now).checked_add(tick())?;
        if self.is_late || due <= now {
            self.due = Some(due.min(now));
            return None;
        }
        self.due = Some(due);
        Some(due.saturating_duration_since(now))
    }
}

fn tick() -> Duration {
    Duration::from_millis(1)
}

impl Pacer for SleepPacer {
    fn catch_up(&mut self, most: u32) {
        self.most_hurried = most;
    }

    fn hurry(&mut self) {
        self.is_late = true;
    }

    fn wait<R: Wait + Clock>(&mut self, rt: &R) {
        match self.time_left(rt) {
            Some(left) => {
                self.hurried = 0;
                sleep(rt, left);
            }
            None if self.hurried < self.most_hurried => self.hurried += 1,
            None => {
                self.hurried = 0;
                sleep(rt, tick());
            }
        }
        self.is_late = false;
    }
}
