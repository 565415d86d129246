//! Replies.

ghost use Rattle.std.specs.Prelude.{Ok};
ghost use Rattle.v_machine.specs.Kept.{IsKept, IsAt};
ghost use Rattle.v_machine.specs.Rules.{Judges};

use crate::calls::access::{SegmentAccess, held_for};
use crate::calls::held::held;
use crate::calls::response::Response;
use crate::refusal::ApplyRefusal;
use crate::tables::Store;
use crate::tables::bytes::own_bytes;
use crate::tables::put::{put_answer, put_answer_with};
use crate::tables::sent::Replied;
use std::alloc::Global;
use vk_base::limits::SEGMENT_BYTES;
use vk_base::{Call, Message, Pid, Range, Refusal};

/// What a ReplySegment asks for.
#[derive(Clone, Copy)]
pub struct SegmentReply {
    pub message: Message,
    pub to: Pid,
    pub dest: u32,
    pub src: u32,
    pub count: u32,
}

/// Reply.
pub fn reply(store: &mut Store, alloc: Global, pid: Pid, message: Message, to: Pid) -> Response
    requires { IsKept store.old }
    ensures { Judges pid (Call.Reply message to) store.old store.new (Ok result) }
{
    let Some(holding) = held(store, pid, to) else {
        return Response::Refused {
            why: Refusal::NotAwaiting,
        };
    };
    put_answer(store, alloc, holding.at, holding.number, message);
    Response::Ok
}

/// ReplySegment.
pub fn reply_segment(
    store: &mut Store,
    alloc: Global,
    at: usize,
    pid: Pid,
    reply: SegmentReply,
) -> Result<Response, ApplyRefusal>
    requires kept { IsKept store.old }
    requires here { IsAt store.old pid at }
    ensures { Judges pid (Call.ReplySegment reply.message reply.to reply.dest reply.src reply.count) store.old store.new result }
{
    let access = SegmentAccess {
        partner: reply.to,
        limit: SEGMENT_BYTES,
        write: true,
        granted: Range {
            start: reply.dest,
            len: reply.count,
        },
        own: Range {
            start: reply.src,
            len: reply.count,
        },
    };
    let holding = match held_for(store, at, pid, access) {
        Ok(holding) => holding,
        Err(why) => return Ok(Response::Refused { why }),
    };
    let bytes = own_bytes(store, alloc, at, access.own)?;
    let replied = Replied {
        message: reply.message,
        dest: reply.dest,
        bytes,
    };
    put_answer_with(store, alloc, holding.at, holding.number, replied)?;
    Ok(Response::Ok)
}
