//! What a coordinator replies.

ghost use Rattle.std.specs.Prelude.{◌≡◌};
ghost use Rattle.vk_group.specs.Codes.{number_of};

/// The code of a reply, in its byte 1.
#[derive(Clone, Copy, Debug, PartialEq, Eq)]
pub enum Code {
    /// It was done.
    Done,
    /// There are no jobs any more.
    End,
    /// The request was bad, or comes after the last.
    Bad,
    /// A member has not reported yet.
    Busy,
    /// All members reported, and none replied.
    Nobody,
    /// All members reported, and every reply was handed over.
    NoMore,
}

impl Code {
    /// Its number.
    pub fn number(self) -> u8
        ensures { result ≡ number_of self }
    {
        match self {
            Code::Done => 0,
            Code::End => 1,
            Code::Bad => 2,
            Code::Busy => 5,
            Code::Nobody => 8,
            Code::NoMore => 9,
        }
    }
}
