//! What an event has beside its bytes.

use vk_base::Pid;
use vk_brief::BriefCall;

/// Where bytes stand: from which one on, counted from 0, and how many they are.
#[derive(Clone, Copy)]
pub struct Part {
    pub from: usize,
    pub count: usize,
}

/// An event of a station without its bytes: where those of a Store or of a frame stand, is told.
#[derive(Clone, Copy)]
pub enum Entry {
    /// Where its bytes stand comes before the call, so that it mostly lies in the cache when it is known which event this is.
    Call {
        pid: Pid,
        part: Part,
        call: BriefCall,
    },
    Collect {
        pid: Pid,
    },
    Tick,
    Deliver {
        part: Part,
    },
}
