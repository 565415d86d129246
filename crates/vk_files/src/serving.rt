//! What a file server does.

use crate::entry::File;
use crate::limits::BLOCK_BYTES;
use vk_base::Pid;

/// The call that a file server makes next, and for whom.
#[derive(Clone, Copy)]
pub enum FileServing {
    /// Waits for a request.
    Receive,
    /// Loads the bytes of a page that is to be written.
    Load {
        from: Pid,
        file: File,
        page: u32,
    },
    /// Puts a page, which is to be read, at the beginning of its memory.
    Store {
        from: Pid,
        file: File,
        page: u32,
        dest: u32,
        bytes: [u8; BLOCK_BYTES],
    },
    /// Replies with the page that stands there.
    ReplyPage {
        from: Pid,
        file: File,
        page: u32,
        dest: u32,
    },
    /// Puts a block of a file that is to be loaded where it belongs in the file.
    Gather {
        from: Pid,
        file: File,
        at: u32,
        dest: u32,
        bytes: [u8; BLOCK_BYTES],
    },
    /// Moves the file that stands in its memory.
    Move {
        from: Pid,
        file: File,
        dest: u32,
    },
    /// Replies without a page: with this code, this file and this number.
    Reply {
        from: Pid,
        code: u8,
        file: u32,
        number: u32,
    },
    Exit,
    /// Nothing more.
    Ended,
}

/// What a file server does with the answer to its last call: what it asks of the disk, and what for.
#[derive(Clone, Copy)]
pub enum Turn {
    /// It asks nothing, and this is next.
    Goes {
        next: FileServing,
    },
    /// It fetches a page of a file ahead, and this is next whatever the disk tells.
    GoesAhead {
        file: File,
        page: u32,
        next: FileServing,
    },
    /// It fetches a page that is to be read.
    FetchPage {
        from: Pid,
        file: File,
        page: u32,
        dest: u32,
    },
    /// It fetches a block of a file that is to be loaded.
    FetchPart {
        from: Pid,
        file: File,
        at: u32,
        dest: u32,
    },
    /// It writes a page.
    WritePage {
        from: Pid,
        file: File,
        page: u32,
        bytes: [u8; BLOCK_BYTES],
    },
}
