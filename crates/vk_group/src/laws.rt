//! What a coordinator keeps to, after all answers so far, whatever they are: laws over definitions, and no code.

ghost use Rattle.vk_group.specs.Deeds.{DeedsAreDone};
ghost use Rattle.vk_group.specs.Laws.{BusyIsTrue, JobsAreGivenOnce, NobodyIsTrue, NoMoreIsTrue, RepliesAreHandedOverOnce};

/// The replies that a coordinator handed over for one group Send name different members, and each is what that member's helper reported.
pub fn replies_are_handed_over_once()
    ensures { RepliesAreHandedOverOnce }
{}

/// It gave the job of a group Send once to each member's helper, and took one report of it, only after that.
pub fn jobs_are_given_once()
    ensures { JobsAreGivenOnce }
{}

/// What its codes say is true: that nobody replied, that there are no more replies, and that the group is busy.
pub fn codes_are_true()
    ensures nobody { NobodyIsTrue }
    ensures no_more { NoMoreIsTrue }
    ensures busy { BusyIsTrue }
{}

/// What the account of its answers tells was called for and answered: a group Send that begins was asked for and loaded, a job goes to the
/// helper of its member with the message of the current group Send, a report is loaded from that helper, and a reply goes to the client.
pub fn deeds_are_done()
    ensures { DeedsAreDone }
{}
