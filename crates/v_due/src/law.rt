//! The laws.

ghost use Rattle.v_due.specs.Arriving.{LaterSendsReplace, NewSendsArrive};
ghost use Rattle.v_due.specs.Failures.{DueWorksGoOutAgain, FailuresComeWhenDue, UnansweredWorksFail, WorksRestUntilDue};
ghost use Rattle.v_due.specs.Holders.{ExitsTellSenders};
ghost use Rattle.v_due.specs.Near.{DeadTargetsAreRefused, ExitsEndNearSends, NearSendsFailByExits, OtherSendsBegin};
ghost use Rattle.v_due.specs.Negatives.{GoneComesByMoveNegatives, MoveNegativesEndMoves, NegativesEndSends, RemoteSendsFailByNegatives};
ghost use Rattle.v_due.specs.Turns.{FailuresComeInTurn, WorksArePatient, WorksFailInTurn};
ghost use Rattle.v_due.specs.Unseen.{CopiesChangeNothing, LateNegativesPassBy, LateRepliesPassBy, PendingsPassBy};

use v_whole::views_and_aliens_hold_anyhow;

/// A Send to another station and a move fail as timed out, and a lookup as not found, at a due tick that finds them unanswered, and
/// there they do.
pub fn works_fail_when_due()
    ensures only { FailuresComeWhenDue }
    ensures there { UnansweredWorksFail }
{}

/// At every other due tick a work goes out again, and at a tick that is not due it rests; its process is then still blocked in it.
pub fn works_go_out_when_due()
    ensures due { DueWorksGoOutAgain }
    ensures other { WorksRestUntilDue }
{}

/// The next due tick of a work always lies ahead, and it has gone out no more often than there are tries.
pub fn works_are_patient()
    ensures { WorksArePatient }
{}

/// A work that nothing answers or starts anew fails as many intervals after its base as there are tries, or one more where it was
/// answered, and at no other event.
pub fn works_fail_in_turn()
    ensures only { FailuresComeInTurn }
    ensures there { WorksFailInTurn }
{}

/// A work ends as gone by a MoveNegative that is taken for the move which runs, and by that it does.
pub fn moves_are_gone_by_negatives()
    ensures only { GoneComesByMoveNegatives }
    ensures there { MoveNegativesEndMoves }
{}

/// A Send to another station ends as without a process by a Negative that is taken for it, and by that it does.
pub fn remote_sends_fail_by_negatives()
    ensures only { RemoteSendsFailByNegatives }
    ensures there { NegativesEndSends }
{}

/// A young Send packet for a live process of the station arrives in its event: into the lowest free slot, where its sender has no alien.
pub fn new_sends_arrive()
    ensures { NewSendsArrive }
{
    views_and_aliens_hold_anyhow();
}

/// One of a later Send than that of its sender's alien replaces this, and arrives.
pub fn later_sends_replace()
    ensures { LaterSendsReplace }
{
    views_and_aliens_hold_anyhow();
}

/// A Pending, and a Reply or a Negative for a Send in which the process does not wait, change nothing and are answered by nothing.
pub fn late_packets_pass_by()
    ensures pending { PendingsPassBy }
    ensures reply { LateRepliesPassBy }
    ensures negative { LateNegativesPassBy }
{}

/// A copy of a Send of which the station keeps an alien, or that of a later Send of its sender, changes nothing.
pub fn copies_change_nothing()
    ensures { CopiesChangeNothing }
{
    views_and_aliens_hold_anyhow();
}

/// A Send to a process of the same station is refused as without a process where that is not alive, and begins where it is.
pub fn dead_targets_are_refused()
    ensures dead { DeadTargetsAreRefused }
    ensures live { OtherSendsBegin }
{}

/// Once it has begun, it ends as without a process by the exit of the process that has its message, and by nothing else.
pub fn near_sends_fail_by_exits()
    ensures only { NearSendsFailByExits }
    ensures there { ExitsEndNearSends }
{}

/// Where the process exits that has the message of another station's Send, handed on or not, the sender is told so by a Negative in the
/// name of the target.
pub fn exits_tell_senders()
    ensures { ExitsTellSenders }
{}
