//! What is in the way of a step of the one-machine kernel that is not allowed. Its rules are `specs/Obstacles.antt`.

use vk_base::{Ending, MoveName, Name, Pid, State};

/// What a process has to do, for a step that concerns it.
#[derive(Clone, Copy, Debug, PartialEq, Eq)]
pub enum Wanted {
    Receiving,
    Sending,
    Moving,
    Asking,
    Done,
}

/// How far a message is, without the bytes of its reply.
#[derive(Clone, Copy, Debug, PartialEq, Eq)]
pub enum Standing {
    Posted,
    Queued,
    Taken,
    Replied,
    Dropped,
}

/// Which condition of a step fails, and the state that it is about.
#[derive(Drop)]
pub enum Obstacle {
    /// There is no such process.
    NoProcess {
        pid: Pid,
    },
    /// The process does something else than what is wanted.
    Otherwise {
        wanted: Wanted,
        pid: Pid,
        alive: bool,
        state: State,
    },
    /// The sender has begun so many Sends, and none of this number.
    NotSent {
        name: Name,
        sends: u64,
    },
    /// The sender waits on its last Send, of number `sends`, and not on this one.
    OtherSend {
        name: Name,
        sends: u64,
    },
    /// The message is not on its way to the queue of its target: it is so far, at this process.
    NotPosted {
        name: Name,
        at: Pid,
        standing: Standing,
    },
    /// The message is not replied to: it is so far, at this process.
    NotReplied {
        name: Name,
        at: Pid,
        standing: Standing,
    },
    /// The target of the message is not alive.
    DeadTarget {
        name: Name,
        target: Pid,
    },
    /// Nothing waits in the queue of the process.
    NothingQueued {
        pid: Pid,
    },
    /// Both processes live on one station.
    OneStation {
        pid: Pid,
        other: Pid,
    },
    /// The process that has the message is alive.
    Alive {
        name: Name,
        at: Pid,
    },
    /// What the step is to end never ends so.
    NoSuchEnding {
        why: Ending,
    },
    /// The exchange has had so many moves, and none of this number.
    NoMove {
        name: Name,
        moving: u64,
        moves: u64,
    },
    /// A move is opened once, and after those before it: the last one opened is this.
    OpenedBefore {
        name: Name,
        moving: u64,
        opened: u64,
    },
    /// Another move is the open one; 0 where none is.
    NotOpen {
        name: Name,
        moving: u64,
        opened: u64,
    },
    /// So many bytes of the move are done, and the next ones begin there.
    OtherOffset {
        name: Name,
        offset: u32,
        done: u32,
    },
    /// The step copies no bytes.
    NoBytes,
    /// The bytes end behind those of the move.
    TooManyBytes {
        name: Name,
        moving: u64,
        offset: u32,
        count: u32,
        whole: u32,
    },
    /// The process is blocked in this move, and not in that of the step.
    OtherMove {
        pid: Pid,
        moving: Option<MoveName>,
    },
    /// So many bytes of the move are done, and these are wanted.
    Incomplete {
        name: Name,
        moving: u64,
        done: u32,
        whole: u32,
    },
    /// The sender still waits on its Send.
    StillWaits {
        name: Name,
    },
    /// The process has begun so many lookups, and none of this number.
    NoLookup {
        asker: Pid,
        number: u64,
        lookups: u64,
    },
    /// Its station tells others no name with this id of the process.
    NotTold {
        logical: u32,
        pid: Pid,
    },
    /// The process was not heard of in the lookup.
    NotHeard {
        asker: Pid,
        number: u64,
        pid: Pid,
    },
}
