//! The text of an answer.

ghost use Rattle.std.specs.Prelude.{◌≡◌, ◌+◌, ◌≤◌, [], ◌∷◌, ◌++◌, codes, decimal, length, OnOk, OnErr};
ghost use Rattle.vk_base.specs.declared.limits.TheConstants.{DATA_BYTES};
ghost use Rattle.vk_base.specs.Activities.{answer_of};
ghost use Rattle.vk_text.specs.Spelling.{StartsWith, spaced, pid_text, message_text, bytes_text};
ghost use Rattle.vk_text.specs.declared.draft.TheConstants.{DRAFT_ROOM as ROOM};
ghost use Rattle.v_trace.specs.Texts.{refusal_text, answer_text};

use std::alloc::Global;
use vk_base::{Answer, Message, NoMemory, Outcome, Pid, Refusal};
use vk_text::{Draft, draft_count, draft_message, draft_pid, put, write_bytes};

/// Writes the word of a refusal. Each is of known length, so nothing is called for it.
fn draft_refusal(into: &mut Draft, why: Refusal)
    requires { length into.old + 11 ≤ ROOM }
    ensures text { into.new ≡ into.old ++ refusal_text why }
    ensures few { length into.new ≤ length into.old + 11 }
{
    match why {
        Refusal::NoProcess => into.put(b"noprocess"),
        Refusal::TimedOut => into.put(b"timedout"),
        Refusal::BadSegment => into.put(b"badsegment"),
        Refusal::NotAwaiting => into.put(b"notawaiting"),
        Refusal::NoAccess => into.put(b"noaccess"),
        Refusal::BadRange => into.put(b"badrange"),
        Refusal::TooLong => into.put(b"toolong"),
        Refusal::Gone => into.put(b"gone"),
        Refusal::NotFound => into.put(b"notfound"),
        Refusal::NamesFull => into.put(b"namesfull"),
        Refusal::Busy => into.put(b"busy"),
        Refusal::NotYet => into.put(b"notyet"),
        Refusal::Dead => into.put(b"dead"),
    }
}

/// Writes `ok M`.
fn draft_replied(into: &mut Draft, message: &Message)
    requires { length into.old + 67 ≤ ROOM }
    ensures text { into.new ≡ into.old ++ spaced (codes "ok") (message_text message.now ∷ []) }
    ensures few { length into.new ≤ length into.old + 67 }
{
    into.put(b"ok");
    draft_message(into, message);
}

/// Writes `ok PID M`.
fn draft_received(into: &mut Draft, from: Pid, message: &Message)
    requires { length into.old + 79 ≤ ROOM }
    ensures text { into.new ≡ into.old ++ spaced (codes "ok") (pid_text from ∷ message_text message.now ∷ []) }
    ensures few { length into.new ≤ length into.old + 79 }
{
    into.put(b"ok");
    draft_pid(into, from);
    draft_message(into, message);
}

/// Writes `ok PID M COUNT`.
fn draft_received_segment(into: &mut Draft, from: Pid, message: &Message, count: u32)
    requires { length into.old + 100 ≤ ROOM }
    ensures text { into.new ≡ into.old ++ spaced (codes "ok") (pid_text from ∷ message_text message.now ∷ decimal count ∷ []) }
    ensures few { length into.new ≤ length into.old + 90 }
{
    draft_received(into, from, message);
    draft_count(into, count);
}

/// Writes `ok PID`.
fn draft_found(into: &mut Draft, pid: Pid)
    requires { length into.old + 33 ≤ ROOM }
    ensures text { into.new ≡ into.old ++ spaced (codes "ok") (pid_text pid ∷ []) }
    ensures few { length into.new ≤ length into.old + 14 }
{
    into.put(b"ok");
    draft_pid(into, pid);
}

/// Writes what a call ended with. It stays a function of its own, so that an outcome is not taken into registers byte by byte.
#[inline(never)]
#[tactic(auto, unfolding(crate::specs::Texts::answer_text))]
pub fn draft_outcome(into: &mut Draft, outcome: &Outcome)
    requires { length into.old + 100 ≤ ROOM }
    ensures text { into.new ≡ into.old ++ answer_text (answer_of outcome.now) }
    ensures few { length into.new ≤ length into.old + 90 }
{
    match *outcome {
        Outcome::Ok => into.put(b"ok"),
        Outcome::Replied { ref message } => draft_replied(into, message),
        Outcome::Received { from, ref message } => draft_received(into, from, message),
        Outcome::ReceivedSegment {
            from,
            ref message,
            count,
        } => draft_received_segment(into, from, message, count),
        Outcome::Found { pid } => draft_found(into, pid),
        Outcome::Refused { why } => draft_refusal(into, why),
    }
}

/// Appends the text of what a call ended with. A refusal changes nothing.
pub fn put_outcome(_alloc: Global, into: &mut Vec<u8>, outcome: &Outcome) -> Result<(), NoMemory>
    ensures ok { OnOk result (into.new.items ≡ into.old.items ++ answer_text (answer_of outcome.now)) }
    ensures err { OnErr result (into.new.items ≡ into.old.items) }
{
    let mut draft = Draft::new();
    draft_outcome(&mut draft, outcome);
    put(into, draft.as_slice())
}

/// Appends `ok B`.
fn write_loaded(alloc: Global, into: &mut Vec<u8>, bytes: &[u8]) -> Result<(), NoMemory>
    requires { length bytes.now ≤ DATA_BYTES }
    ensures ok { OnOk result (into.new.items ≡ into.old.items ++ spaced (codes "ok") (bytes_text bytes.now ∷ [])) }
    ensures front { OnErr result (StartsWith into.old.items into.new.items) }
{
    put(into, b"ok")?;
    write_bytes(alloc, into, bytes)
}

/// Appends the text of the bytes that a Load gives, at most 1,024. A refusal changes nothing.
#[tactic(auto, unfolding(crate::specs::Texts::answer_text))]
pub fn put_loaded(alloc: Global, into: &mut Vec<u8>, bytes: &[u8]) -> Result<(), NoMemory>
    requires { length bytes.now ≤ DATA_BYTES }
    ensures ok { OnOk result (into.new.items ≡ into.old.items ++ answer_text (Answer.Loaded bytes.now)) }
    ensures err { OnErr result (into.new.items ≡ into.old.items) }
{
    let len = into.len();
    let written = write_loaded(alloc, into, bytes);
    if written.is_err() {
        into.truncate(len);
    }
    written
}

/// Appends the text of the answer. A refusal changes nothing.
pub fn put_answer(alloc: Global, into: &mut Vec<u8>, answer: &Answer) -> Result<(), NoMemory>
    ensures ok { OnOk result (into.new.items ≡ into.old.items ++ answer_text answer.now) }
    ensures err { OnErr result (into.new.items ≡ into.old.items) }
{
    let outcome = match *answer {
        Answer::Loaded { ref bytes } => return put_loaded(alloc, into, bytes.as_slice()),
        Answer::Ok => Outcome::Ok,
        Answer::Replied { message } => Outcome::Replied { message },
        Answer::Received { from, message } => Outcome::Received { from, message },
        Answer::ReceivedSegment {
            from,
            message,
            count,
        } => Outcome::ReceivedSegment {
            from,
            message,
            count,
        },
        Answer::Found { pid } => Outcome::Found { pid },
        Answer::Refused { why } => Outcome::Refused { why },
    };
    put_outcome(alloc, into, &outcome)
}
