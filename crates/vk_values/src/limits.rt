//! The server's numbers.

/// Keys that have a value, at most.
pub const KEYS: usize = 64;

/// Codes of requests: to give the value of a key.
pub const GET: u8 = 1;

/// To keep a value under a key.
pub const PUT: u8 = 2;

/// Codes of replies: it was done.
pub const DONE: u8 = 0;

/// Nothing was put under the key.
pub const UNKNOWN: u8 = 1;

/// The request is none of the two.
pub const BAD: u8 = 2;

/// As many other keys have values as can be.
pub const FULL: u8 = 3;
