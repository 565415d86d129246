//! What the clients of a page server get, whatever else the processes do: laws over definitions, and no code.
//!
//! Begin with `specs/Served.antt`, the laws, and `proofs/Standing.antt`: how a server stands before each step. That each step keeps it
//! is `Calling.antt` (its calls), `Asked.antt` (what it does with a request) and `Turns.antt` (any step). `Given.antt` is what it
//! replies, `Replied.antt` that a Send has one reply, `Waiting.antt` that nothing else is written into a sender that waits for it,
//! `Senders.antt` what a sender collects, `Sent.antt` where the bytes of a write come from, and `Events.antt` the same of histories.
//! `Staying.antt` is why what came to a server stays with it.
//!
//! Stands on the runs of `vk_base`, on the laws of `v_laws`, on the task of the page server in `vk_pages`, and for histories on the
//! headline in `v_whole`.
#![tactic(auto)]

ghost use Rattle.v_pages.specs.Scheduled.{RequestsAreServedIn, SendersAreServedIn, WritesAreSentIn};
ghost use Rattle.v_pages.specs.Served.{RequestsAreServed, SendersAreServed};
ghost use Rattle.v_pages.specs.Written.{WritesAreSent};

/// Where a process follows the task of a page server, in a run of the one-machine kernel or in the history of a schedule: each
/// request to which it replied, and of which the sender collects the reply, was taken by it at one place and at no other, before the
/// reply, whether it was sent to the server or forwarded to it. By the message that the server was shown, the reply, and the bytes of
/// a page that was read, which then stand where that message's segment starts, are those of the map from page numbers to bytes that
/// the requests make which the server took before; where no page was read the reply has no bytes.
pub fn requests_are_served()
    ensures runs { RequestsAreServed }
    ensures histories { RequestsAreServedIn }
{}

/// Who sent to the server, and collects the reply, is served so, and by the server alone: no other process took the Send, and the
/// server was shown what was sent. But for the bytes of a page that was read, the sender's memory is as it was when it called for
/// the Send.
pub fn senders_are_served()
    ensures runs { SendersAreServed }
    ensures histories { SendersAreServedIn }
{}

/// There too the bytes of each lawful write that the server took are those that stood in the granted segment of its sender, when that
/// sender called for the Send: for each Send to the server, and for each that another process handed on to it which grants a page.
pub fn writes_are_sent()
    ensures runs { WritesAreSent }
    ensures histories { WritesAreSentIn }
{}
