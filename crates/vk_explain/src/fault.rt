//! What is wrong in a text.

use v_obstacle::Obstacle;
use vk_base::Observation;

/// Why the reading of a text ends at one of its lines.
#[derive(Drop)]
pub(crate) enum Fault {
    /// This line, counted from 1, is not valid.
    BadLine {
        line: u64,
    },
    /// This step, counted from 1, is not allowed, and this is why.
    Refused {
        step: u64,
        why: Obstacle,
    },
    /// Behind this step another answer is told than the one that the kernel gives, if it gives one.
    OtherAnswer {
        step: u64,
        given: Option<Observation>,
    },
    /// More than 268,435,456 bytes would be noted for remote moves, or it has more than 18,446,744,073,709,551,614 lines.
    Limit,
    /// There was no memory for the work.
    NoMemory,
}

/// Why the reading of a text ends before the text does.
#[derive(Drop)]
pub(crate) enum Stop {
    /// Something is wrong, which is told so.
    Wrong { text: Vec<u8> },
    /// A limit was met.
    Limit,
    /// There was no memory for the work.
    NoMemory,
}
