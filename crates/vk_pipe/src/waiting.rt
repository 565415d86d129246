//! What waits at a pipe.

use vk_base::{Data, Pid};

/// A write, and the bytes that came with it.
#[derive(Drop)]
pub struct Write {
    pub from: Pid,
    pub bytes: Data,
}

/// A read, and the segment that it grants: `len` bytes from `start` on.
#[derive(Clone, Copy)]
pub struct Read {
    pub from: Pid,
    pub start: u32,
    pub len: u32,
}
