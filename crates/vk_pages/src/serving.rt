//! What a page server does.

use vk_base::Pid;

/// The call that a page server makes next, and for whom.
#[derive(Clone, Copy)]
pub enum PageServing {
    /// Waits for a request.
    Receive,
    /// Loads the bytes of a page that is to be written.
    Load { from: Pid, page: u32 },
    /// Puts a page, which is to be read, at the beginning of its memory.
    Store { from: Pid, page: u32, dest: u32 },
    /// Replies with the page that stands there.
    ReplyPage { from: Pid, page: u32, dest: u32 },
    /// Replies without a page: 0 where it was done, 1 where there is no such page, 2 where the request was bad.
    Reply { from: Pid, page: u32, code: u8 },
    Exit,
    /// Nothing more.
    Ended,
}
