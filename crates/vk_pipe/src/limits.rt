//! The limits of a pipe.

/// Bytes that a pipe holds.
pub const PIPE_BYTES: usize = 2_048;
/// Requests that wait at a pipe.
pub const WAITING_REQUESTS: usize = 16;
