//! Moves between two processes of the station, which are made at once.

ghost use Rattle.std.specs.Prelude.{◌≡◌, ◌<◌, [], false, length, true};
ghost use Rattle.vk_base.specs.declared.limits.TheConstants.{STEPS};
ghost use Rattle.vk_base.specs.Pids.{same_host};
ghost use Rattle.vk_brief.specs.Brief.{call_with, is_store};
ghost use Rattle.vk_procs.specs.Seats.{pids};
ghost use Rattle.vk_local.specs.Calls.{move_access, move_call, moved_seats};
ghost use Rattle.vk_local.specs.Done.{IsMove};
ghost use Rattle.vk_local.specs.Rules.{IsSeatsRule, may_call};

use crate::access::{Access, Segment, access_refusal};
use vk_base::limits::MOVE_BYTES;
use vk_base::{Call, Direction, Outcome, Pid};
use vk_brief::{BriefCall, BriefStep, Steps};
use vk_procs::{Passed, Procs};

fn move_call(way: Direction, partner: Pid, segment: Segment) -> BriefCall
    ensures call { call_with [] result ≡ move_call way partner segment }
    ensures plain { is_store result ≡ false }
{
    let Segment { dest, src, count } = segment;
    match way {
        Direction::To => BriefCall::MoveTo {
            partner,
            dest,
            src,
            count,
        },
        Direction::From => BriefCall::MoveFrom {
            partner,
            dest,
            src,
            count,
        },
    }
}

fn move_access(way: Direction, segment: Segment) -> Access
    ensures { result ≡ move_access way segment }
{
    let Segment { dest, src, count } = segment;
    match way {
        Direction::To => Access {
            limit: MOVE_BYTES,
            count,
            write: true,
            granted: dest,
            own: src,
        },
        Direction::From => Access {
            limit: MOVE_BYTES,
            count,
            write: false,
            granted: src,
            own: dest,
        },
    }
}

fn move_bytes(procs: &mut Procs, pid: Pid, partner: Pid, way: Direction, segment: Segment)
    ensures { procs.new ≡ moved_seats way procs.old pid partner segment }
{
    let Segment { dest, src, count } = segment;
    let bytes = Passed::Bytes { src, count, dest };
    match way {
        Direction::To => procs.pass(pid, partner, bytes),
        Direction::From => procs.pass(partner, pid, bytes),
    }
}

/// The call and the move, by the tables.
fn make_move(
    procs: &mut Procs,
    steps: &mut Steps,
    pid: Pid,
    partner: Pid,
    way: Direction,
    segment: Segment,
) -> Option<Outcome>
    requires { length steps.old < STEPS }
    ensures { IsMove way pid partner segment result procs.old procs.new steps.old steps.new }
{
    steps.push(BriefStep::Call {
        pid,
        call: move_call(way, partner, segment),
    });
    if let Some(why) = access_refusal(procs, pid, partner, move_access(way, segment)) {
        return Some(Outcome::Refused { why });
    }
    move_bytes(procs, pid, partner, way, segment);
    Some(Outcome::Ok)
}

/// A process, which is alive and ready, writes bytes of its memory into that of a partner of its station.
pub fn move_to(
    procs: &mut Procs,
    steps: &mut Steps,
    pid: Pid,
    partner: Pid,
    segment: Segment,
) -> Option<Outcome>
    requires near { same_host pid partner ≡ true }
    requires ready { may_call procs.old pid ≡ true }
    requires room { length steps.old < STEPS }
    ensures done { IsMove Direction.To pid partner segment result procs.old procs.new steps.old steps.new }
    ensures rule { IsSeatsRule pid (Call.MoveTo partner segment.dest segment.src segment.count) result procs.old procs.new
        steps.old steps.new }
    ensures pids { pids procs.new ≡ pids procs.old }
{
    make_move(procs, steps, pid, partner, Direction::To, segment)
}

/// A process, which is alive and ready, reads bytes of the memory of a partner of its station into its own.
pub fn move_from(
    procs: &mut Procs,
    steps: &mut Steps,
    pid: Pid,
    partner: Pid,
    segment: Segment,
) -> Option<Outcome>
    requires near { same_host pid partner ≡ true }
    requires ready { may_call procs.old pid ≡ true }
    requires room { length steps.old < STEPS }
    ensures done { IsMove Direction.From pid partner segment result procs.old procs.new steps.old steps.new }
    ensures rule { IsSeatsRule pid (Call.MoveFrom partner segment.dest segment.src segment.count) result procs.old procs.new
        steps.old steps.new }
    ensures pids { pids procs.new ≡ pids procs.old }
{
    make_move(procs, steps, pid, partner, Direction::From, segment)
}
