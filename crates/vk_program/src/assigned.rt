//! Processes with their programs.

use crate::program::Program;
use vk_base::Pid;

/// A process and its program.
#[derive(Drop)]
pub struct Assigned<G: Program> {
    pub pid: Pid,
    pub program: G,
}
