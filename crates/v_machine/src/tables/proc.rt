//! What is kept of a process beside its Sends and lookups.

use vk_base::{Activity, Memory, MoveName};

#[derive(Drop)]
pub struct Proc {
    pub alive: bool,
    pub memory: Memory,
    pub activity: Activity,
    /// The remote move that it began last.
    pub moving: Option<MoveName>,
}
