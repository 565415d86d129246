//! When a node ticks, and what its clock sees to between two ticks.

use crate::dock::{Dock, Start};
use crate::link::Link;
use std::sync::{Mutex, Wait};
use std::time::{Clock, Duration};
use vk_hub::Bells;
use vk_io::Pacer;

/// Milliseconds for which a clock that waits for the first frame does not look at the link.
const SLICE: u32 = 4;

/// The pace of a node's clock, of which no contract speaks. It begins with the first frame that is sent or comes: until then a tick has
/// nothing to do, and a node that waits for others is as old as they are when they come. One that sees no frame as long as its ticks take
/// makes them all at once then. A node that hears from one that is much older hurries until it is nearly as old: else its frames would be
/// too old there.
#[derive(Drop)]
pub struct Beat<'s, 'a, 'p, P: Pacer, L: Link, S: Start> {
    pacer: &'a Mutex<&'p mut P>,
    dock: &'s Dock<'a, L, S>,
    bells: &'a Bells,
    host: u16,
    /// How many ticks it may be younger than others, and may make at once.
    leap: u32,
    /// Whether there was traffic, so that its waits take time.
    is_paced: bool,
    /// Its last tick.
    now: u64,
    /// How many receives had begun or ended then.
    receives: u64,
}

impl<'s, 'a, 'p, P: Pacer, L: Link, S: Start> Beat<'s, 'a, 'p, P, L, S> {
    pub fn new(
        pacer: &'a Mutex<&'p mut P>,
        dock: &'s Dock<'a, L, S>,
        bells: &'a Bells,
        host: u16,
        leap: u32,
    ) -> Beat<'s, 'a, 'p, P, L, S> {
        Beat {
            pacer,
            dock,
            bells,
            host,
            leap,
            is_paced: true,
            now: 0,
            receives: 0,
        }
    }

    /// Waits for the first frame, at most as many milliseconds as there are to be ticks, or until nothing is carried any more. Meanwhile it
    /// sees to the link, as behind a tick.
    pub fn begin<R: Wait + Clock>(&mut self, rt: &R, ticks: u32) {
        for _ in 0..ticks / SLICE + 1 {
            let most = Duration::from_millis(u64::from(SLICE));
            if self.dock.wait_for_traffic(rt, most) || self.dock.send(rt) {
                return;
            }
            self.see_to_receives();
        }
        self.is_paced = false;
    }

    /// Waits for the next tick.
    pub fn wait<R: Wait + Clock>(&self, rt: &R) {
        if self.is_paced {
            let mut pacer = self.pacer.lock(rt);
            if self.is_late() {
                pacer.hurry();
            }
            pacer.wait(rt);
        }
    }

    /// Whether it has heard from a station that is much older.
    fn is_late(&self) -> bool {
        self.now.saturating_add(u64::from(self.leap)) < self.dock.latest()
    }

    /// Behind a tick: what it posted is sent; and where nobody received since the last one, since all processes work, the job of the link
    /// is called to.
    pub fn see_to_link<R: Wait + Clock>(&mut self, rt: &R, now: u64, has_posted: bool) {
        self.now = now;
        if has_posted {
            self.dock.try_send(rt);
        }
        self.see_to_receives();
    }

    /// Where nobody received since it was here last, the job of the link is called to.
    fn see_to_receives(&mut self) {
        if self.dock.is_unread_since(self.receives) {
            self.bells.call_pump(self.host);
        }
        self.receives = self.dock.receives();
    }
}
