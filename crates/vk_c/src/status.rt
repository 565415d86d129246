//! What an exported function answers.

/// It did what it is for.
pub const OK: u32 = 0;
/// The station holds none.
pub const NO_STATION: u32 = 1;
/// The station holds one already.
pub const HELD: u32 = 2;
/// The numbers are those of no process of the station.
pub const NO_SUCH_PROCESS: u32 = 3;
/// The fields are those of no call, or there are more bytes than a Store has.
pub const BAD_CALL: u32 = 4;
/// The station has had all events that it can have, 2^48.
pub const SPENT: u32 = 5;
/// The last event sent no such frame.
pub const NO_FRAME: u32 = 6;
/// The bytes do not fit where they are wanted.
pub const NO_ROOM: u32 = 7;
/// Memory is wanting.
pub const NO_MEMORY: u32 = 8;
/// No station has this number.
pub const BAD_HOST: u32 = 9;
/// The numbers of a process are those of none.
pub const BAD_PID: u32 = 10;
/// A time is out of range.
pub const BAD_TIMES: u32 = 11;
/// A pool is out of range.
pub const BAD_POOL: u32 = 12;
/// A process does not stand in order.
pub const NOT_RISING: u32 = 13;
/// The memory of a process is too large.
pub const BAD_SIZE: u32 = 14;
/// A process is one too many.
pub const TOO_MANY: u32 = 15;
/// The last event had no such step.
pub const NO_STEP: u32 = 16;
/// A pool is of no station.
pub const NO_SUCH_STATION: u32 = 17;
