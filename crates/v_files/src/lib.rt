//! What the clients of a file server get that load a file, whatever else the processes do: a law over definitions, and no code.
//!
//! Begin with `specs/Loaded.antt`, the law, and `proofs/Standing.antt`: how a server stands before each step. That each step keeps it is
//! `Calling.antt` (its calls), `Asked.antt` (what it does with a request) and `Turns.antt` (any step). `Moved.antt` is why bytes that
//! were moved to a sender stay until it has its reply, `Disks.antt` what the server knows of its disk, `Given.antt` what it replies,
//! `Loads.antt` what a sender collects, and `Events.antt` the same of histories.
//!
//! Stands on the runs of `vk_base`, on the laws of `v_laws`, on the task of the file server in `vk_files`, for what holds of each
//! process that follows a task on `v_pages`, and for histories on the headline in `v_whole`.
#![tactic(auto)]

ghost use Rattle.v_files.specs.Loaded.{LoadsAreWhole, SendersAreLoaded};
ghost use Rattle.v_files.specs.Scheduled.{LoadsAreWholeIn, SendersAreLoadedIn};

/// Where a process of at least 65,536 bytes of memory follows the task of a file server over a disk that can be served, in a run of the
/// one-machine kernel or in the history of a schedule: each request to which it replied, and of which the sender collects the reply,
/// was taken by it at one place and at no other, before the reply, whether it was sent to the server or forwarded to it. Where the
/// message that the server was shown asks for a load, and the reply has code 0, the sender has at its collect the file's bytes in its
/// memory, from the start of the segment that this message names: as they stood on the disk from the Take to the reply, in which time no
/// block changed, and so as they were fetched for this load.
pub fn loads_are_whole()
    ensures runs { LoadsAreWhole }
    ensures histories { LoadsAreWholeIn }
{}

/// Who sent to the server, and collects the reply, is served so by the server alone: no other process took the Send, and the server was
/// shown what was sent.
pub fn senders_are_loaded()
    ensures runs { SendersAreLoaded }
    ensures histories { SendersAreLoadedIn }
{}
