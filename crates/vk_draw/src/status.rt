ghost use Rattle.std.specs.Prelude.{◌≡◌, ◌++◌, codes, decimal};
ghost use Rattle.vk_draw.specs.Statuses.{refused, refused_event, unread};
ghost use Rattle.vk_draw.specs.declared.status.Status.TheVariants.{NoMemory as memory_wanting};

use crate::words::Drawing;
use arrayvec::ArrayVec;
use std::fmt;
use vk_base::NoMemory;
use vk_cluster::ClusterRefusal;
use vk_edge::{numbered_text, numbers, put_short, short_text};
use vk_io::ReadRefusal;
use vk_schedule::TextRefusal;

/// What a call of the program ended with.
#[derive(Clone, Copy, Debug, PartialEq, Eq)]
pub enum Status {
    /// All was read, and the picture or the page written.
    Done,
    /// The words are neither none nor `--page`.
    Usage,
    /// This line, counted from 1, is the first that is not valid.
    BadInput { line: u64 },
    /// A read failed.
    ReadFault,
    /// A write failed, or the flush did.
    WriteFault,
    /// There was no memory for the work.
    NoMemory,
    /// The input has too many bytes, or the frames of its history have; or more than 100,000 events, where a page is asked for.
    Limit,
    /// The schedule has more than 500 events, and a picture is asked for.
    TooManyEvents,
    /// The texts of the page have more than 67,108,864 bytes together.
    TooMuchText,
    /// A text of the page has a byte that HTML may change.
    NotPlain,
}

impl Status {
    ghost use Rattle.vk_draw.specs.Statuses.{number_of, text_of};

    /// The status with which the program exits: 0 for `Done`, else 2 to 6 or 8 to 11.
    pub fn number(&self) -> u8
        ensures { result ≡ number_of self.now }
    {
        match self {
            Status::Done => numbers::DONE,
            Status::Usage => numbers::USAGE,
            Status::BadInput { .. } => numbers::BAD_INPUT,
            Status::ReadFault => numbers::READ_FAULT,
            Status::WriteFault => numbers::WRITE_FAULT,
            Status::NoMemory => numbers::NO_MEMORY,
            Status::Limit => numbers::LIMIT,
            Status::TooManyEvents => 9,
            Status::TooMuchText => 10,
            Status::NotPlain => 11,
        }
    }

    /// What the program tells of it, without a line feed. `Done` has no text. Takes no memory.
    pub fn text(&self) -> ArrayVec<u8, 96>
        ensures { result.items ≡ text_of self.now }
    {
        match *self {
            Status::Done => ArrayVec::new(),
            Status::Usage => short_text(b"vkdraw: usage: vkdraw [--page]"),
            Status::BadInput { line } => numbered_text(b"vkdraw: line ", line, b" is not valid"),
            Status::ReadFault => short_text(b"vkdraw: reading failed"),
            Status::WriteFault => short_text(b"vkdraw: writing failed"),
            Status::NoMemory => short_text(b"vkdraw: out of memory"),
            Status::Limit => short_text(b"vkdraw: limit reached"),
            Status::TooManyEvents => {
                short_text(b"vkdraw: more than 500 events; vkdraw --page makes a page of them")
            }
            Status::TooMuchText => short_text(b"vkdraw: more than 67108864 bytes of text"),
            Status::NotPlain => short_text(b"vkdraw: a text cannot stand in a page"),
        }
    }
}

impl fmt::Display for Status {
    ghost use Rattle.std.specs.Prelude.{Some};
    ghost use Rattle.vk_draw.specs.Statuses.{text_of};

    ghost output = { λ s. Some (text_of s) };

    fn fmt<W: fmt::Write>(&self, f: &mut fmt::Formatter<W>) -> fmt::Result {
        put_short(self.text().as_slice(), f)
    }
}

/// The answer where memory was wanting.
impl From<NoMemory> for Status {
    ghost from_gives = { λ _ s. s ≡ memory_wanting };

    fn from(_refused: NoMemory) -> Status {
        Status::NoMemory
    }
}

/// The answer to an input that is not read whole.
impl From<ReadRefusal> for Status {
    ghost from_gives = { λ refusal s. s ≡ unread refusal };

    fn from(refusal: ReadRefusal) -> Status {
        match refusal {
            ReadRefusal::Failed => Status::ReadFault,
            ReadRefusal::TooLong => Status::Limit,
            ReadRefusal::NoMemory => Status::NoMemory,
        }
    }
}

/// The answer to a text that is not read, of which this is asked.
pub(crate) fn refused(asked: Drawing, refusal: TextRefusal) -> Status
    ensures { result ≡ refused asked refusal }
{
    match (refusal, asked) {
        (TextRefusal::BadInput { line }, _) => Status::BadInput { line },
        (TextRefusal::Limit, Drawing::Picture) => Status::TooManyEvents,
        (TextRefusal::Limit, Drawing::Page) => Status::Limit,
        (TextRefusal::NoMemory, _) => Status::NoMemory,
    }
}

/// The answer where an event is refused.
impl From<ClusterRefusal> for Status {
    ghost from_gives = { λ refusal s. s ≡ refused_event refusal };

    fn from(refusal: ClusterRefusal) -> Status {
        match refusal {
            ClusterRefusal::Limit => Status::Limit,
            ClusterRefusal::NoMemory => Status::NoMemory,
        }
    }
}
