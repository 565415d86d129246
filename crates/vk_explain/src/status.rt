ghost use Rattle.std.specs.Prelude.{◌≡◌};

use arrayvec::ArrayVec;
use std::fmt;
use vk_edge::{numbers, put_short, short_text};

/// What a call of the program ended with.
#[derive(Clone, Copy, Debug, PartialEq, Eq)]
pub enum Status {
    /// All was read, and nothing is wrong; or a page was asked for, and is told.
    Right,
    /// Something is wrong, and told.
    Wrong,
    /// The words ask for nothing that the program does.
    Usage,
    /// A read failed.
    ReadFault,
    /// A write failed, or the flush did.
    WriteFault,
    /// There was no memory for the work.
    NoMemory,
    /// The input has more than 16,777,216 bytes, or more than 268,435,456 bytes would be noted for remote moves.
    Limit,
}

impl Status {
    ghost use Rattle.vk_explain.specs.Statuses.{number_of, text_of};

    /// The status with which the program exits: 0 for `Right`, 1 for `Wrong`, else 2, 4 to 6 or 8.
    pub fn number(&self) -> u8
        ensures { result ≡ number_of self.now }
    {
        match self {
            Status::Right => numbers::DONE,
            Status::Wrong => 1,
            Status::Usage => numbers::USAGE,
            Status::ReadFault => numbers::READ_FAULT,
            Status::WriteFault => numbers::WRITE_FAULT,
            Status::NoMemory => numbers::NO_MEMORY,
            Status::Limit => numbers::LIMIT,
        }
    }

    /// What the program tells of it on standard error, without a line feed. `Right` and `Wrong` have no text. Takes no memory.
    pub fn text(&self) -> ArrayVec<u8, 96>
        ensures { result.items ≡ text_of self.now }
    {
        match *self {
            Status::Right => ArrayVec::new(),
            Status::Wrong => ArrayVec::new(),
            Status::Usage => short_text(
                b"vkexplain: usage: vkexplain [--answers | --help | --version]",
            ),
            Status::ReadFault => short_text(b"vkexplain: reading failed"),
            Status::WriteFault => short_text(b"vkexplain: writing failed"),
            Status::NoMemory => short_text(b"vkexplain: out of memory"),
            Status::Limit => short_text(b"vkexplain: limit reached"),
        }
    }
}

impl fmt::Display for Status {
    ghost use Rattle.std.specs.Prelude.{Some};
    ghost use Rattle.vk_explain.specs.Statuses.{text_of};

    ghost output = { λ s. Some (text_of s) };

    fn fmt<W: fmt::Write>(&self, f: &mut fmt::Formatter<W>) -> fmt::Result {
        put_short(self.text().as_slice(), f)
    }
}
