//! The numbers with which programs exit, where they end alike. A program's own statuses have others.

/// All was read and written.
pub const DONE: u8 = 0;
/// The words ask for nothing that the program does.
pub const USAGE: u8 = 2;
/// A line is not valid.
pub const BAD_INPUT: u8 = 3;
/// A read failed.
pub const READ_FAULT: u8 = 4;
/// A write failed, or the flush did.
pub const WRITE_FAULT: u8 = 5;
/// There was no memory for the work.
pub const NO_MEMORY: u8 = 6;
/// A limit was met.
pub const LIMIT: u8 = 8;
