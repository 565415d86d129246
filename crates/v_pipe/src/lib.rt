//! What the clients of a pipe server get, whatever else the processes do: laws over definitions, and no code.
//!
//! Begin with `specs/Read.antt` and `Written.antt`, the laws, and `specs/Waits.antt`: what waits of one process. How a server stands
//! before each step is `proofs/Standing.antt`, and that each step keeps it `Turns.antt`; what it replies is `Given.antt`, and that this
//! is the next piece of what it hands out `Pieces.antt`. What it keeps of one request, from its Take to its reply, is `Entries.antt`
//! for each answer and `Tracked.antt` for each step; `Own.antt` is what the reply then is, and `Stocked.antt` that a reply to a read
//! with code 0 has bytes. `Readers.antt` and `Writers.antt` are what senders collect.
//!
//! Stands on the runs of `vk_base`, on the laws of `v_laws`, on the task of the pipe server in `vk_pipe`, on what `v_pages` says of
//! every server that makes no move and hands nothing on, and for histories on the headline in `v_whole`.
#![tactic(auto)]

ghost use Rattle.v_pipe.specs.Read.{ReadsArePieces, SendersAreAnswered};
ghost use Rattle.v_pipe.specs.Scheduled.{ReadsArePiecesIn, SendersAreAnsweredIn, WritesAreKeptIn};
ghost use Rattle.v_pipe.specs.Written.{WritesAreKept};

/// Where a process follows the task of a pipe server, in a run of the one-machine kernel or in the history of a schedule: who sent to
/// it, and collects a reply, has that reply of this process.
pub fn senders_are_answered()
    ensures runs { SendersAreAnswered }
    ensures histories { SendersAreAnsweredIn }
{}

/// There too, where the server replied to a Send, sent or forwarded to it, and the sender collects the reply: the server took the Send
/// before the reply, at one place and at no other. The bytes that the reply gave are the next ones that the server hands out, in the
/// order of its replies, and those that writes put into the pipe at the same place; they stand in the sender's memory where the reply
/// put them, and a reply with bytes says how many they are. Where nothing of the sender waited when its Send was taken, a reply of
/// code 0 to a read has them from the beginning of the segment on that the message, as it was shown, names, at least one of them and at
/// most 512; and only a read gets bytes.
pub fn reads_are_pieces()
    ensures runs { ReadsArePieces }
    ensures histories { ReadsArePiecesIn }
{}

/// There too, where nothing of the sender waited when its Send was taken, and the reply to its write is of code 0: before that reply
/// the write was put into the pipe, as the last one, behind all that was put in before any earlier call of the server; and its bytes
/// are the first part of the segment that came with the Send, as they stood in the sender's memory when it called for it.
pub fn writes_are_kept()
    ensures runs { WritesAreKept }
    ensures histories { WritesAreKeptIn }
{}
