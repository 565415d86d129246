//! What a coordinator does.

use crate::code::Code;
use crate::notes::Note;
use vk_base::{Message, Pid};

/// A group Send, and who made it.
#[derive(Clone, Copy)]
pub struct OpenSend {
    pub client: Pid,
    pub message: Message,
}

/// A client that waits for a reply, and the place in its memory to which that goes.
#[derive(Clone, Copy)]
pub struct Wait {
    pub client: Pid,
    pub dest: u32,
}

/// A job for the helper of a member: the message, and the place in the helper's memory to which it goes.
#[derive(Clone, Copy)]
pub struct HelperJob {
    pub member: u32,
    pub helper: Pid,
    pub dest: u32,
    pub message: Message,
}

/// The call that a coordinator makes next, or whose answer it awaits, and for whom.
#[derive(Clone, Copy)]
pub enum Stage {
    /// Waits for a request.
    Receive,
    /// Loads the message of a group Send.
    LoadSend {
        client: Pid,
        dest: u32,
    },
    /// Loads what a member replied.
    LoadResult {
        member: u32,
        helper: Pid,
        replied: bool,
    },
    /// Refuses a request, which may count as a reply to a client.
    Refuse {
        to: Pid,
        code: Code,
        counts: bool,
    },
    /// Tells a helper that its report was noted.
    Thank {
        helper: Pid,
    },
    /// Puts the message of a job at the beginning of its memory.
    StoreJob {
        job: HelperJob,
    },
    /// Gives the job that stands there.
    GiveJob {
        job: HelperJob,
    },
    /// Puts a reply at the beginning of its memory.
    StoreReply {
        wait: Wait,
        note: Note,
    },
    /// Hands over the reply that stands there.
    HandOver {
        wait: Wait,
        note: Note,
    },
    /// Ends the wait of a client without a reply of a member.
    EndWait {
        client: Pid,
        code: Code,
    },
    /// Tells a helper that there are no jobs any more.
    Tell {
        member: u32,
        helper: Pid,
    },
    Exit,
    /// Nothing more.
    Ended,
}
