//! What a process does that found nothing to do.

use std::sync::Wait;
use std::time::Clock;
use vk_hub::{Bell, Bells};

/// What a process does where its call gave frames, and where it found nothing to do. It promises nothing.
pub trait Rest: Drop {
    /// Its call gave frames, which are posted.
    fn posted<R: Wait + Clock>(&self, rt: &R);

    /// It began to look by this bell of its own, and found nothing: it waits until the bell rings, or longer or shorter.
    fn wait<R: Wait + Clock>(&self, rt: &R, bells: &Bells, bell: &Bell);
}

/// It sleeps until its bell rings.
#[derive(Clone, Copy, Drop)]
pub struct Sleep;

impl Rest for Sleep {
    fn posted<R: Wait + Clock>(&self, _rt: &R) {}

    fn wait<R: Wait + Clock>(&self, rt: &R, bells: &Bells, bell: &Bell) {
        bells.sleep(rt, bell);
    }
}
