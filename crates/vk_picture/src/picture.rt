//! What is drawn of a history.

use vk_base::{List, Pid, Refusal};
use vk_report::PacketKind;

/// Which call a process makes.
#[derive(Clone, Copy, Debug, PartialEq, Eq)]
pub enum CallKind {
    Send,
    Receive,
    ReceiveSegment,
    Reply,
    ReplySegment,
    /// The message of this process is handed on to the partner.
    Forward { from: Pid },
    MoveTo,
    MoveFrom,
    SetPid,
    GetPid,
    Load,
    Store,
    Exit,
}

/// Which step of the one-machine kernel is made.
#[derive(Clone, Copy, Debug, PartialEq, Eq)]
pub enum StepKind {
    Call,
    Arrive,
    Take,
    Finish,
    Fail,
    OpenMove,
    Copy,
    End,
    Hear,
    Found,
    Lost,
    Collect,
}

/// An event of the schedule.
#[derive(Clone, Copy, Debug, PartialEq, Eq)]
pub enum Act {
    /// The process makes a call, which names the partner where it names a process.
    Call {
        pid: Pid,
        kind: CallKind,
        partner: Option<Pid>,
    },
    /// The process asks for the answer to its last call.
    Collect {
        pid: Pid,
    },
    /// One tick of the station's clock.
    Tick {
        host: u16,
    },
    /// The frame that station `from` emitted as the output `output` of its event `event` comes to station `to`. Both count from 1.
    Deliver {
        to: u16,
        from: u16,
        event: u64,
        output: u16,
    },
}

/// What is told of the answer to an event.
#[derive(Clone, Copy, Debug, PartialEq, Eq)]
pub enum Said {
    /// A call is begun, and answered later.
    Begun,
    /// A call gives what was asked for.
    Ok,
    /// A call is refused, or failed.
    Refused { why: Refusal },
    /// The new tick of the clock.
    Now { tick: u64 },
    /// A frame is taken, is too old, or is none for the station.
    Taken,
    Old,
    Bad,
    /// There was no such frame: no event of the station.
    Missing,
}

/// A step, and the process that it concerns.
#[derive(Clone, Copy, Debug, PartialEq, Eq)]
pub struct StepMark {
    pub kind: StepKind,
    pub pid: Pid,
}

/// A frame that an event emitted: its kind, and which of the event's outputs it is, from 1.
#[derive(Clone, Copy, Debug, PartialEq, Eq)]
pub struct FrameMark {
    pub kind: PacketKind,
    pub output: u16,
}

/// An event of the schedule and what happened at it.
#[derive(Drop)]
pub struct EventRow {
    /// Which event of the schedule, from 1.
    pub number: u16,
    /// The station whose event it is.
    pub host: u16,
    /// The event's number at its station, from 1; 0 where it is none of the station.
    pub own: u64,
    pub act: Act,
    pub said: Said,
    pub steps: List<StepMark>,
    pub frames: List<FrameMark>,
}

/// A column of the page.
#[derive(Clone, Copy, Debug, PartialEq, Eq)]
pub struct Column {
    /// The station that it belongs to.
    pub host: u16,
    /// The process that it is of; where there is none, it is of the station itself.
    pub process: Option<Pid>,
    /// How many columns stand left of it.
    pub place: u16,
}

/// What is drawn of a history.
#[derive(Drop)]
pub struct Picture {
    /// From left to right.
    pub columns: List<Column>,
    /// In order of the schedule.
    pub rows: List<EventRow>,
}
