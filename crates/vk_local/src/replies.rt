//! A reply to a process of the same station.

ghost use Rattle.std.specs.Prelude.{◌≡◌, ◌≤◌, ◌+◌, true, length};
ghost use Rattle.vk_base.specs.declared.limits.TheConstants.{STEPS};
ghost use Rattle.vk_base.specs.Pids.{same_host};
ghost use Rattle.vk_procs.specs.Seats.{pids};
ghost use Rattle.vk_local.specs.Calls.{reply_access};
ghost use Rattle.vk_local.specs.Done.{IsReply, IsReplySegment};
ghost use Rattle.vk_local.specs.Rules.{IsSeatsRule, may_call};

use crate::access::{Access, Segment, access_refusal, not_awaiting};
use vk_base::limits::SEGMENT_BYTES;
use vk_base::{Call, Message, Outcome, Pid};
use vk_brief::{BriefCall, BriefStep, Steps};
use vk_procs::{Passed, Procs};

/// What a reply asks for.
fn reply_access(segment: Segment) -> Access
    ensures { result ≡ reply_access segment }
{
    Access {
        limit: SEGMENT_BYTES,
        count: segment.count,
        write: true,
        granted: segment.dest,
        own: segment.src,
    }
}

/// A process, which is alive and ready, replies to one of its station, which has the reply now.
pub fn reply(
    procs: &mut Procs,
    steps: &mut Steps,
    pid: Pid,
    to: Pid,
    message: &Message,
) -> Option<Outcome>
    requires near { same_host pid to ≡ true }
    requires ready { may_call procs.old pid ≡ true }
    requires room { length steps.old + 2 ≤ STEPS }
    ensures done { IsReply pid to message.now result procs.old procs.new steps.old steps.new }
    ensures rule { IsSeatsRule pid (Call.Reply message.now to) result procs.old procs.new steps.old steps.new }
    ensures pids { pids procs.new ≡ pids procs.old }
{
    steps.push(BriefStep::Call {
        pid,
        call: BriefCall::Reply {
            message: *message,
            to,
        },
    });
    if let Some(why) = not_awaiting(procs, pid, to) {
        return Some(Outcome::Refused { why });
    }
    procs.finish(to, Outcome::Replied { message: *message });
    steps.push(BriefStep::Finish { pid: to });
    Some(Outcome::Ok)
}

/// The same with bytes of the caller's memory, which are written into the memory of the other.
pub fn reply_segment(
    procs: &mut Procs,
    steps: &mut Steps,
    pid: Pid,
    to: Pid,
    message: &Message,
    segment: Segment,
) -> Option<Outcome>
    requires near { same_host pid to ≡ true }
    requires ready { may_call procs.old pid ≡ true }
    requires room { length steps.old + 2 ≤ STEPS }
    ensures done { IsReplySegment pid to message.now segment result procs.old procs.new steps.old steps.new }
    ensures rule { IsSeatsRule pid (Call.ReplySegment message.now to segment.dest segment.src segment.count) result procs.old procs.new
        steps.old steps.new }
    ensures pids { pids procs.new ≡ pids procs.old }
{
    let Segment { dest, src, count } = segment;
    steps.push(BriefStep::Call {
        pid,
        call: BriefCall::ReplySegment {
            message: *message,
            to,
            dest,
            src,
            count,
        },
    });
    if let Some(why) = access_refusal(procs, pid, to, reply_access(segment)) {
        return Some(Outcome::Refused { why });
    }
    procs.pass(pid, to, Passed::Bytes { src, count, dest });
    procs.finish(to, Outcome::Replied { message: *message });
    steps.push(BriefStep::Finish { pid: to });
    Some(Outcome::Ok)
}
