//! What a file server does with an answer, before the disk is asked.

ghost use Rattle.std.specs.Prelude.{◌≡◌, ℕ, ◌<◌, ◌≤◌, Some, length, nat_le};
ghost use Rattle.vk_files.specs.Messages.{reply_of};
ghost use Rattle.vk_files.specs.Placed.{IsPlaced};
ghost use Rattle.vk_files.specs.Servers.{asked_to_load, asked_to_read, asked_to_write, between, gathered, loaded, moved, one_more, opened, page_in, received, refused, replies_after, stage_call, taken, turn_at, went_on};

use crate::directory::{file_at, file_named};
use crate::entry::{Entry, File};
use crate::limits::{BLOCK_BYTES, FILES};
use crate::message::{code_of, file_of, name_of, page_of, reply_of};
use crate::serving::{FileServing, Turn};
use vk_base::{Answer, Call, Data, Message, Pid};

/// A reply that the request was not done, for this reason.
fn refused(from: Pid, code: u8) -> Turn
    ensures { result ≡ refused from code }
{
    Turn::Goes {
        next: FileServing::Reply {
            from,
            code,
            file: 0,
            number: 0,
        },
    }
}

/// A reply with a file's length.
fn with_length(from: Pid, file: File) -> Turn
    ensures { result ≡ opened from (Some file) }
{
    Turn::Goes {
        next: FileServing::Reply {
            from,
            code: 0,
            file: file.number,
            number: file.length,
        },
    }
}

/// To open a file.
fn opened(from: Pid, file: Option<File>) -> Turn
    ensures { result ≡ opened from file }
{
    match file {
        None => refused(from, 1),
        Some(file) => with_length(from, file),
    }
}

/// Whether the file has no such page.
fn is_beyond(file: File, page: u32) -> bool
    ensures { result ≡ nat_le file.blocks page }
{
    page >= file.blocks
}

/// To read a page of it.
fn asked_to_read(from: Pid, message: &Message, file: Option<File>) -> Turn
    ensures { result ≡ asked_to_read from message.now file }
{
    let Some(file) = file else {
        return refused(from, 1);
    };
    let page = page_of(message);
    let grants = message.grants();
    if is_beyond(file, page) {
        refused(from, 1)
    } else if grants.write && grants.range.len >= BLOCK_BYTES as u32 {
        let dest = grants.range.start;
        Turn::FetchPage {
            from,
            file,
            page,
            dest,
        }
    } else {
        refused(from, 2)
    }
}

/// To write one.
fn asked_to_write(from: Pid, message: &Message, file: Option<File>) -> Turn
    ensures { result ≡ asked_to_write from message.now file }
{
    let Some(file) = file else {
        return refused(from, 1);
    };
    let page = page_of(message);
    let grants = message.grants();
    if is_beyond(file, page) {
        refused(from, 1)
    } else if grants.read && grants.range.len == BLOCK_BYTES as u32 {
        Turn::Goes {
            next: FileServing::Load { from, file, page },
        }
    } else {
        refused(from, 2)
    }
}

/// The next block of a file that is loaded, or, where it has all, the move.
fn gathered(from: Pid, file: File, at: u32, dest: u32) -> Turn
    ensures { result ≡ gathered from file at dest }
{
    if at < file.blocks {
        Turn::FetchPart {
            from,
            file,
            at,
            dest,
        }
    } else {
        Turn::Goes {
            next: FileServing::Move { from, file, dest },
        }
    }
}

/// To load all of it.
fn asked_to_load(from: Pid, message: &Message, file: Option<File>) -> Turn
    ensures { result ≡ asked_to_load from message.now file }
{
    let Some(file) = file else {
        return refused(from, 1);
    };
    let grants = message.grants();
    if grants.write && grants.range.len >= file.length {
        gathered(from, file, 0, grants.range.start)
    } else {
        refused(from, 2)
    }
}

/// What a server of these files does with a request.
fn taken(files: &[Entry], from: Pid, message: &Message) -> Turn
    requires { length files.now ≤ FILES }
    ensures { result ≡ taken files.now from message.now }
{
    match code_of(message) {
        3 => opened(from, file_named(files, &name_of(message))),
        4 => asked_to_read(from, message, file_at(files, file_of(message))),
        5 => asked_to_write(from, message, file_at(files, file_of(message))),
        6 => asked_to_load(from, message, file_at(files, file_of(message))),
        _ => refused(from, 2),
    }
}

/// What it does once it has received.
fn received(files: &[Entry], answer: &Answer) -> Turn
    requires { length files.now ≤ FILES }
    ensures { result ≡ received files.now answer.now }
{
    match answer {
        Answer::ReceivedSegment { from, message, .. } => taken(files, *from, message),
        _ => Turn::Goes {
            next: FileServing::Ended,
        },
    }
}

/// The page that was loaded, where it is one.
fn page_in(answer: &Answer) -> Option<[u8; BLOCK_BYTES]>
    ensures { result ≡ page_in answer.now }
{
    let Answer::Loaded { bytes } = answer else {
        return None;
    };
    if bytes.as_slice().len() != BLOCK_BYTES {
        return None;
    }
    let mut page = [0; BLOCK_BYTES];
    page.copy_from_slice(bytes.as_slice());
    Some(page)
}

/// Once it has loaded.
fn loaded(from: Pid, file: File, page: u32, bytes: Option<[u8; BLOCK_BYTES]>) -> Turn
    ensures { result ≡ loaded from file page bytes }
{
    match bytes {
        None => Turn::Goes {
            next: FileServing::Ended,
        },
        Some(bytes) => Turn::WritePage {
            from,
            file,
            page,
            bytes,
        },
    }
}

/// After the move.
fn moved(from: Pid, file: File, answer: &Answer) -> Turn
    ensures { result ≡ moved from file answer.now }
{
    match answer {
        Answer::Ok => with_length(from, file),
        _ => refused(from, 4),
    }
}

/// What it does behind so many replies of so many.
pub fn between(requests: u32, replies: u32) -> FileServing
    ensures { result ≡ between requests replies }
{
    if replies == requests {
        FileServing::Exit
    } else {
        FileServing::Receive
    }
}

/// One reply more, of at most so many.
fn one_more(requests: u32, replies: u32) -> u32
    ensures { result ≡ one_more requests replies }
{
    replies.saturating_add(1).min(requests)
}

/// After a page of a file was read.
fn went_on(file: File, page: u32, next: FileServing) -> Turn
    requires { page < file.blocks }
    ensures { result ≡ went_on file page next }
{
    let page = page + 1;
    if page < file.blocks {
        Turn::GoesAhead { file, page, next }
    } else {
        Turn::Goes { next }
    }
}

/// What a server of these files does after its last call was answered so, where it is to make so many replies and has made so many.
pub fn turn(
    files: &[Entry],
    requests: u32,
    replies: u32,
    stage: &FileServing,
    answer: &Answer,
) -> Turn
    requires files { length files.now ≤ FILES }
    requires placed { (count : ℕ) × IsPlaced count stage.now }
    ensures { result ≡ turn_at files.now requests replies stage.now answer.now }
{
    match *stage {
        FileServing::Receive => received(files, answer),
        FileServing::Load { from, file, page } => loaded(from, file, page, page_in(answer)),
        FileServing::Store {
            from,
            file,
            page,
            dest,
            ..
        } => Turn::Goes {
            next: FileServing::ReplyPage {
                from,
                file,
                page,
                dest,
            },
        },
        FileServing::ReplyPage { file, page, .. } => {
            went_on(file, page, between(requests, one_more(requests, replies)))
        }
        FileServing::Gather {
            from,
            file,
            at,
            dest,
            ..
        } => gathered(from, file, at + 1, dest),
        FileServing::Move { from, file, .. } => moved(from, file, answer),
        FileServing::Reply { .. } => Turn::Goes {
            next: between(requests, one_more(requests, replies)),
        },
        FileServing::Exit | FileServing::Ended => Turn::Goes {
            next: FileServing::Ended,
        },
    }
}

/// How many replies it has made then.
pub fn replies_after(requests: u32, stage: &FileServing, replies: u32) -> u32
    ensures { result ≡ replies_after requests stage.now replies }
{
    match *stage {
        FileServing::ReplyPage { .. } | FileServing::Reply { .. } => one_more(requests, replies),
        _ => replies,
    }
}

/// The bytes of a block.
fn data_of(block: &[u8; BLOCK_BYTES]) -> Data
    ensures { result ≡ block.now }
{
    match Data::new(block.as_slice()) {
        Some(bytes) => bytes,
        None => unreachable!(),
    }
}

/// To put a block at this place of its memory.
fn store(start: u32, block: &[u8; BLOCK_BYTES]) -> Option<Call>
    ensures { result ≡ Some (Call.Store start block.now) }
{
    let bytes = data_of(block);
    Some(Call::Store { start, bytes })
}

/// To reply with the page that stands at the beginning of its memory.
fn reply_page(from: Pid, file: File, page: u32, dest: u32) -> Option<Call>
    ensures { result ≡ Some (Call.ReplySegment (reply_of 0 file.number page) from dest 0 BLOCK_BYTES) }
{
    Some(Call::ReplySegment {
        message: reply_of(0, file.number, page),
        to: from,
        dest,
        src: 0,
        count: BLOCK_BYTES as u32,
    })
}

/// What it calls.
pub fn call_of(stage: &FileServing) -> Option<Call>
    requires { (count : ℕ) × IsPlaced count stage.now }
    ensures { result ≡ stage_call stage.now }
{
    match *stage {
        FileServing::Receive => Some(Call::ReceiveSegment {
            start: 0,
            count: BLOCK_BYTES as u32,
        }),
        FileServing::Load { .. } => Some(Call::Load {
            start: 0,
            count: BLOCK_BYTES as u32,
        }),
        FileServing::Store { ref bytes, .. } => store(0, bytes),
        FileServing::ReplyPage {
            from,
            file,
            page,
            dest,
        } => reply_page(from, file, page, dest),
        FileServing::Gather { at, ref bytes, .. } => store(BLOCK_BYTES as u32 * at, bytes),
        FileServing::Move { from, file, dest } => Some(Call::MoveTo {
            partner: from,
            dest,
            src: 0,
            count: file.length,
        }),
        FileServing::Reply {
            from,
            code,
            file,
            number,
        } => Some(Call::Reply {
            message: reply_of(code, file, number),
            to: from,
        }),
        FileServing::Exit => Some(Call::Exit),
        FileServing::Ended => None,
    }
}
