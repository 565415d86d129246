//! The numbers of kinds, of calls, scopes, answers and refusals. The header has them under the same names, behind `VK_`.

/// A Send.
pub const SEND: u32 = 1;
/// A Receive.
pub const RECEIVE: u32 = 2;
/// A Receive with the first part of a segment.
pub const RECEIVE_SEGMENT: u32 = 3;
/// A Reply.
pub const REPLY: u32 = 4;
/// A Reply with a segment.
pub const REPLY_SEGMENT: u32 = 5;
/// A Forward.
pub const FORWARD: u32 = 6;
/// A move to another's memory.
pub const MOVE_TO: u32 = 7;
/// A move from another's memory.
pub const MOVE_FROM: u32 = 8;
/// A logical id is set.
pub const SET_PID: u32 = 9;
/// A logical id is asked for.
pub const GET_PID: u32 = 10;
/// A Load.
pub const LOAD: u32 = 11;
/// A Store.
pub const STORE: u32 = 12;
/// An Exit.
pub const EXIT: u32 = 13;
/// Within the station.
pub const LOCAL: u32 = 0;
/// From the other stations.
pub const REMOTE: u32 = 1;
/// Within the station and from the others.
pub const BOTH: u32 = 2;
/// The call is begun.
pub const BEGUN: u32 = 1;
/// It is done, with nothing more.
pub const DONE: u32 = 2;
/// The reply to a Send.
pub const REPLIED: u32 = 3;
/// A message.
pub const RECEIVED: u32 = 4;
/// A message, and how many bytes of its segment.
pub const RECEIVED_SEGMENT: u32 = 5;
/// Whom a logical id stands for.
pub const FOUND: u32 = 6;
/// How many bytes were loaded.
pub const LOADED: u32 = 7;
/// The call is refused.
pub const REFUSED: u32 = 8;
/// The new tick.
pub const TICKED: u32 = 9;
/// The frame is taken.
pub const TAKEN: u32 = 10;
/// The frame is too old.
pub const OLD: u32 = 11;
/// The bytes are no frame for this station.
pub const BAD: u32 = 12;
/// There is no such process.
pub const WHY_NO_PROCESS: u32 = 1;
/// The other station did not answer.
pub const WHY_TIMED_OUT: u32 = 2;
/// The granted segment does not lie in the memory.
pub const WHY_BAD_SEGMENT: u32 = 3;
/// The process awaits nothing of the caller.
pub const WHY_NOT_AWAITING: u32 = 4;
/// The message does not grant it.
pub const WHY_NO_ACCESS: u32 = 5;
/// The range does not lie in the memory.
pub const WHY_BAD_RANGE: u32 = 6;
/// There are too many bytes.
pub const WHY_TOO_LONG: u32 = 7;
/// The partner is gone.
pub const WHY_GONE: u32 = 8;
/// The logical id is not known.
pub const WHY_NOT_FOUND: u32 = 9;
/// There is no room for a logical id.
pub const WHY_NAMES_FULL: u32 = 10;
/// The process waits for an answer.
pub const WHY_BUSY: u32 = 11;
/// There is nothing to collect.
pub const WHY_NOT_YET: u32 = 12;
/// The process has ended.
pub const WHY_DEAD: u32 = 13;
