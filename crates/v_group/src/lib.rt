//! What the replies are that a coordinator has for a group Send, whatever the processes beside it and its helpers do: laws over
//! definitions, and no code.
//!
//! Begin with `specs/Grouped.antt`, the laws in runs, and `specs/Scheduled.antt`, the same of histories. `proofs/Stepping.antt` says
//! what one step is to a process that follows a task of plain calls, `Timeline.antt` and `Taking.antt` where such a process got its
//! last answer, made its call and took what it received. `Helped.antt` and `Coordinating.antt` are the two tasks alone, `Requests.antt`
//! what a message asks of a coordinator. `Helping.antt` is a helper in a run, `Came.antt` to whom its message comes, `Hearing.antt` what a
//! process loads behind a receive, `Loaded.antt` a coordinator, `LastHeld.antt` what it holds. `Since.antt` finds the place of a deed
//! that an account shows, `Current.antt` that of the current group Send. `Jobs.antt` and `JobsGiven.antt` say that a helper's job is the
//! coordinator's, and `Replies.antt` brings them together. That it is the same group Send is in `SameSend.antt`: `Rounds.antt` counts a
//! helper's reports, `Working.antt` and `FirstReady.antt` say what a job is to the coordinator, and `Reported.antt` what a report is in a
//! run.
//!
//! Stands on the runs of `vk_base`, the laws of `v_laws`, the tasks in `vk_group`, what `v_pages` says of processes that follow tasks,
//! and for histories on the headline in `v_whole`.
#![tactic(auto)]

ghost use Rattle.v_group.specs.Codes.{CodesAreTrue};
ghost use Rattle.v_group.specs.Grouped.{HandedOverAreMembers, RepliesAreMembers};
ghost use Rattle.v_group.specs.Scheduled.{CodesAreTrueIn, HandedOverAreMembersIn, RepliesAreMembersIn};

/// Where a process follows the task of a coordinator and its helpers follow theirs, in a run of the one-machine kernel or in the history
/// of a schedule: each reply that the coordinator hears of came with a Send of its member's helper, and stood at the beginning of the
/// helper's memory when that called for it. It is the reply to the last Send that the helper made before, which was to the member, by
/// the member or by a process to which the message came from the member by Forwards. Between any two Takes of that message there is a
/// Forward of it. The message is that of a group Send, which the coordinator had given the helper, and before that had taken from its
/// client and begun. From where it began that group Send to where it hears of the reply it begins no other, so it is a reply to the
/// current one.
pub fn replies_are_members()
    ensures runs { RepliesAreMembers }
    ensures histories { RepliesAreMembersIn }
{}

/// Each reply that the coordinator handed over for its current group Send is one of these, which it heard of before, and from where the
/// group Send began for which the member's helper got that job no other begins.
pub fn replies_handed_over_are_members()
    ensures runs { HandedOverAreMembers }
    ensures histories { HandedOverAreMembersIn }
{}

/// Where a process follows the task of a coordinator, what its codes say is true there of what it was answered so far: that nobody
/// replied, that there are no more replies, and that the group is busy.
pub fn codes_are_true_there()
    ensures runs { CodesAreTrue }
    ensures histories { CodesAreTrueIn }
{}
