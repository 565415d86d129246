//! Who makes a call.

use vk_base::Pid;

/// The process that makes a call, and its place.
#[derive(Clone, Copy)]
pub struct Caller {
    pub at: usize,
    pub pid: Pid,
}
