ghost use Rattle.std.specs.Prelude.{◌≡◌, ◌++◌, codes, decimal};
ghost use Rattle.vk_top.specs.Joins.{refused_join};
ghost use Rattle.vk_top.specs.Statuses.{refused, refused_node, refused_run, refused_trace, text_of, unread};
ghost use Rattle.vk_top.specs.declared.status.Status.TheVariants.{NoMemory as memory_wanting};

use arrayvec::ArrayVec;
use std::fmt;
use v_trace::TraceRefusal;
use vk_base::NoMemory;
use vk_edge::{numbered_text, numbers, put_short, short_text, twice_numbered_text};
use vk_io::ReadRefusal;
use vk_join::JoinRefusal;
use vk_schedule::TextRefusal;
use vk_threads::RunRefusal;
use vk_udp::NodeRefusal;

/// What a call of the program ended with.
#[derive(Clone, Copy, Debug, PartialEq, Eq)]
pub enum Status {
    /// All was read and written.
    Done,
    /// This step of a trace, counted from 1, is the first that is not allowed. That was written.
    NotARun { step: u64 },
    /// The words ask for nothing that the program does.
    Usage,
    /// This line, counted from 1, is the first that is not valid.
    BadInput { line: u64 },
    /// A read failed.
    ReadFault,
    /// A write failed, or the flush did.
    WriteFault,
    /// There was no memory for the work.
    NoMemory,
    /// The crew that was to run the stations failed.
    CrewFault,
    /// The input has too many bytes or events, a trace notes too many bytes for remote moves, or the stations of a schedule, of texts
    /// of stations or of a storm emitted too many; or a run was ended by a limit.
    Limit,
    /// The link of a node failed.
    LinkFault,
    /// This event of this station, counted from 1, is the first delivery of a frame that no station emitted for it.
    Stray { host: u16, event: u64 },
    /// A run came to a point where its clocks have gone all rounds, processes wait, and nothing is on its way that could end that.
    Waiting,
}

impl Status {
    ghost use Rattle.vk_top.specs.Statuses.{number_of, text_of};

    /// The status with which the program exits: 0 for `Done`, else 1 to 11.
    pub fn number(&self) -> u8
        ensures { result ≡ number_of self.now }
    {
        match self {
            Status::Done => numbers::DONE,
            Status::NotARun { .. } => 1,
            Status::Usage => numbers::USAGE,
            Status::BadInput { .. } => numbers::BAD_INPUT,
            Status::ReadFault => numbers::READ_FAULT,
            Status::WriteFault => numbers::WRITE_FAULT,
            Status::NoMemory => numbers::NO_MEMORY,
            Status::CrewFault => 7,
            Status::Limit => numbers::LIMIT,
            Status::LinkFault => 9,
            Status::Stray { .. } => 10,
            Status::Waiting => 11,
        }
    }

    /// What the program tells of it, without a line feed. `Done` has no text. Takes no memory.
    pub fn text(&self) -> ArrayVec<u8, 96>
        ensures { result.items ≡ text_of self.now }
    {
        match *self {
            Status::Done => ArrayVec::new(),
            Status::NotARun { step } => numbered_text(b"vkernel: step ", step, b" is not allowed"),
            Status::Usage => short_text(
                b"vkernel: usage: vkernel replay [--trace] | check | run | storm N | node H | join",
            ),
            Status::BadInput { line } => numbered_text(b"vkernel: line ", line, b" is not valid"),
            Status::ReadFault => short_text(b"vkernel: reading failed"),
            Status::WriteFault => short_text(b"vkernel: writing failed"),
            Status::NoMemory => short_text(b"vkernel: out of memory"),
            Status::CrewFault => short_text(b"vkernel: the crew failed"),
            Status::Limit => short_text(b"vkernel: limit reached"),
            Status::LinkFault => short_text(b"vkernel: the link failed"),
            Status::Stray { host, event } => stray_text(host, event),
            Status::Waiting => short_text(b"vkernel: processes wait and nothing is on its way"),
        }
    }
}

/// What the program tells of a stray frame.
fn stray_text(host: u16, event: u64) -> ArrayVec<u8, 96>
    ensures { result.items ≡ text_of (Status.Stray host event) }
{
    twice_numbered_text(
        b"vkernel: station ",
        u64::from(host),
        b" took a stray frame at event ",
        event,
    )
}

impl fmt::Display for Status {
    ghost use Rattle.std.specs.Prelude.{Some};
    ghost use Rattle.vk_top.specs.Statuses.{text_of};

    ghost output = { λ s. Some (text_of s) };

    fn fmt<W: fmt::Write>(&self, f: &mut fmt::Formatter<W>) -> fmt::Result {
        put_short(self.text().as_slice(), f)
    }
}

/// The answer where memory was wanting.
impl From<NoMemory> for Status {
    ghost from_gives = { λ _ s. s ≡ memory_wanting };

    fn from(_refused: NoMemory) -> Status {
        Status::NoMemory
    }
}

/// The answer to an input that is not read whole.
impl From<ReadRefusal> for Status {
    ghost from_gives = { λ refusal s. s ≡ unread refusal };

    fn from(refusal: ReadRefusal) -> Status {
        match refusal {
            ReadRefusal::Failed => Status::ReadFault,
            ReadRefusal::TooLong => Status::Limit,
            ReadRefusal::NoMemory => Status::NoMemory,
        }
    }
}

/// The answer to a text that is not read.
impl From<TextRefusal> for Status {
    ghost from_gives = { λ refusal s. s ≡ refused refusal };

    fn from(refusal: TextRefusal) -> Status {
        match refusal {
            TextRefusal::BadInput { line } => Status::BadInput { line },
            TextRefusal::Limit => Status::Limit,
            TextRefusal::NoMemory => Status::NoMemory,
        }
    }
}

/// The answer to a trace that is not read.
impl From<TraceRefusal> for Status {
    ghost from_gives = { λ refusal s. s ≡ refused_trace refusal };

    fn from(refusal: TraceRefusal) -> Status {
        match refusal {
            TraceRefusal::BadInput { line } => Status::BadInput { line },
            TraceRefusal::NoMemory => Status::NoMemory,
        }
    }
}

/// The answer where logs are not joined.
impl From<JoinRefusal> for Status {
    ghost from_gives = { λ refusal s. s ≡ refused_join refusal };

    fn from(refusal: JoinRefusal) -> Status {
        match refusal {
            JoinRefusal::Stray { host, event, .. } => Status::Stray { host, event },
            JoinRefusal::Limit => Status::Limit,
            JoinRefusal::NoMemory => Status::NoMemory,
        }
    }
}

/// The answer where a run came to no end.
impl From<RunRefusal> for Status {
    ghost from_gives = { λ refusal s. s ≡ refused_run refusal };

    fn from(refusal: RunRefusal) -> Status {
        match refusal {
            RunRefusal::CrewFault => Status::CrewFault,
            RunRefusal::NoMemory => Status::NoMemory,
        }
    }
}

/// The answer where the run of a node came to no end.
impl From<NodeRefusal> for Status {
    ghost from_gives = { λ refusal s. s ≡ refused_node refusal };

    fn from(refusal: NodeRefusal) -> Status {
        match refusal {
            NodeRefusal::LinkFault => Status::LinkFault,
            NodeRefusal::CrewFault => Status::CrewFault,
            NodeRefusal::NoMemory => Status::NoMemory,
        }
    }
}
