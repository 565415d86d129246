//! What a pipe server does.

use crate::waiting::Read;
use vk_base::Pid;

/// What a reply without bytes of the pipe says.
#[derive(Clone, Copy)]
pub enum Verdict {
    /// The bytes of a write, so many, are in the pipe.
    Written { count: u32 },
    /// The pipe is closed from now on.
    Closed,
    /// The message asks for nothing, or does not grant what it asks for.
    Bad,
    /// Sixteen requests wait already.
    Full,
    /// There is nothing more to read: the pipe is closed and empty.
    End,
    /// A closed pipe takes no bytes.
    Shut,
}

/// The call that a pipe server makes next, and for whom.
#[derive(Clone, Copy)]
pub enum PipeServing {
    /// Waits for a request.
    Receive,
    /// Loads the bytes that came with a write.
    Load { from: Pid, count: u32 },
    /// Puts the first bytes of the pipe, which are for this read, at the beginning of its memory.
    Store { read: Read },
    /// Replies to the read with the bytes that stand there.
    ReplyBytes { read: Read },
    /// Replies without bytes.
    Reply { to: Pid, verdict: Verdict },
    Exit,
    /// Nothing more.
    Ended,
}
