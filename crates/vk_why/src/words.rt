//! Pieces of what is told of a step: names, moves, and what a process does.

ghost use Rattle.std.specs.Prelude.{◌≡◌, ◌++◌, decimal, OnOk};
ghost use Rattle.vk_text.specs.Spelling.{call_text, pid_text};
ghost use Rattle.v_trace.specs.Texts.{ending_text};
ghost use Rattle.vk_why.specs.Reasons.{done_text, life_text, lookup_text, part_text, span_text, move_text, moving_text, opened_text, send_text, standing_text, state_text, wanted_text, whole_text};

use std::alloc::Global;
use v_obstacle::{Standing, Wanted};
use v_trace::put_answer;
use vk_base::{Answer, Call, Ending, MoveName, Name, NoMemory, Pid, State};
use vk_brief::{BriefCall, CallView};
use vk_text::{put, put_call, put_number, put_pid};

/// The words, and the number behind them.
pub(crate) fn put_counted(
    alloc: Global,
    text: &mut Vec<u8>,
    words: &[u8],
    number: u64,
) -> Result<(), NoMemory>
    ensures { OnOk result (text.new.items ≡ text.old.items ++ words.now ++ decimal number) }
{
    put(text, words)?;
    put_number(alloc, text, number)
}

/// The words, and the process behind them.
pub(crate) fn put_named(
    alloc: Global,
    text: &mut Vec<u8>,
    words: &[u8],
    pid: Pid,
) -> Result<(), NoMemory>
    ensures { OnOk result (text.new.items ≡ text.old.items ++ words.now ++ pid_text pid) }
{
    put(text, words)?;
    put_pid(alloc, text, pid)
}

/// `Send NUMBER of PID`
#[tactic(auto, unfolding(crate::specs::Reasons::send_text))]
pub(crate) fn put_send(alloc: Global, text: &mut Vec<u8>, name: Name) -> Result<(), NoMemory>
    ensures { OnOk result (text.new.items ≡ text.old.items ++ send_text name) }
{
    put_counted(alloc, text, b"Send ", name.number)?;
    put_named(alloc, text, b" of ", name.sender)
}

/// `move NUMBER of Send NUMBER of PID`
#[tactic(auto, unfolding(crate::specs::Reasons::move_text))]
pub(crate) fn put_move(
    alloc: Global,
    text: &mut Vec<u8>,
    name: Name,
    moving: u64,
) -> Result<(), NoMemory>
    ensures { OnOk result (text.new.items ≡ text.old.items ++ move_text name moving) }
{
    put_counted(alloc, text, b"move ", moving)?;
    put(text, b" of ")?;
    put_send(alloc, text, name)
}

/// `lookup NUMBER of PID`
#[tactic(auto, unfolding(crate::specs::Reasons::lookup_text))]
pub(crate) fn put_lookup(
    alloc: Global,
    text: &mut Vec<u8>,
    asker: Pid,
    number: u64,
) -> Result<(), NoMemory>
    ensures { OnOk result (text.new.items ≡ text.old.items ++ lookup_text asker number) }
{
    put_counted(alloc, text, b"lookup ", number)?;
    put_named(alloc, text, b" of ", asker)
}

/// So many bytes are done, and not those up to here.
#[tactic(auto, unfolding(crate::specs::Reasons::span_text))]
pub(crate) fn put_span(
    alloc: Global,
    text: &mut Vec<u8>,
    done: u64,
    offset: u64,
) -> Result<(), NoMemory>
    ensures { OnOk result (text.new.items ≡ text.old.items ++ span_text done offset) }
{
    put_number(alloc, text, done)?;
    put_counted(alloc, text, b" bytes of its open move done, not ", offset)
}

/// The bytes of a part.
#[tactic(auto, unfolding(crate::specs::Reasons::part_text))]
fn put_part(alloc: Global, text: &mut Vec<u8>, offset: u64, count: u64) -> Result<(), NoMemory>
    ensures { OnOk result (text.new.items ≡ text.old.items ++ part_text offset count) }
{
    put_number(alloc, text, count)?;
    put_counted(alloc, text, b" from ", offset)?;
    put(text, b" on")
}

/// There are so many bytes, and not those of the part.
#[tactic(auto, unfolding(crate::specs::Reasons::whole_text))]
pub(crate) fn put_whole(
    alloc: Global,
    text: &mut Vec<u8>,
    whole: u64,
    offset: u64,
    count: u64,
) -> Result<(), NoMemory>
    ensures { OnOk result (text.new.items ≡ text.old.items ++ whole_text whole offset count) }
{
    put_number(alloc, text, whole)?;
    put(text, b" bytes, not ")?;
    put_part(alloc, text, offset, count)
}

/// What a process has to do.
pub(crate) fn put_wanted(text: &mut Vec<u8>, wanted: Wanted) -> Result<(), NoMemory>
    ensures { OnOk result (text.new.items ≡ text.old.items ++ wanted_text wanted) }
{
    match wanted {
        Wanted::Receiving => put(text, b" is not blocked in a receive: it is "),
        Wanted::Sending => put(text, b" is not blocked in a send: it is "),
        Wanted::Moving => put(text, b" is not blocked in a remote move: it is "),
        Wanted::Asking => put(text, b" is not blocked in a lookup: it is "),
        Wanted::Done => put(text, b" is not done with a call: it is "),
    }
}

fn put_the_call(alloc: Global, text: &mut Vec<u8>, call: &Call) -> Result<(), NoMemory>
    ensures { OnOk result (text.new.items ≡ text.old.items ++ call_text call.now) }
{
    let (brief, bytes) = BriefCall::of(call);
    put_call(alloc, text, &CallView::new(&brief, bytes))
}

/// A call that is over, and its answer.
fn put_done(alloc: Global, text: &mut Vec<u8>, call: &Call, answer: &Answer) -> Result<(), NoMemory>
    ensures { OnOk result (text.new.items ≡ text.old.items ++ done_text call.now answer.now) }
{
    put_the_call(alloc, text, call)?;
    put(text, b", which gave ")?;
    put_answer(alloc, text, answer)
}

/// What a process does.
fn put_state(alloc: Global, text: &mut Vec<u8>, state: &State) -> Result<(), NoMemory>
    ensures { OnOk result (text.new.items ≡ text.old.items ++ state_text state.now) }
{
    match state {
        State::Ready => put(text, b"ready"),
        State::Blocked { call } => {
            put(text, b"blocked in ")?;
            put_the_call(alloc, text, call)
        }
        State::Done { call, answer } => {
            put(text, b"done with ")?;
            put_done(alloc, text, call, answer)
        }
    }
}

/// What a process does, where it is alive.
pub(crate) fn put_life(
    alloc: Global,
    text: &mut Vec<u8>,
    alive: bool,
    state: &State,
) -> Result<(), NoMemory>
    ensures { OnOk result (text.new.items ≡ text.old.items ++ life_text alive state.now) }
{
    if alive {
        put_state(alloc, text, state)
    } else {
        put(text, b"dead")
    }
}

/// How far a message is, in front of the process where it is.
pub(crate) fn put_standing(text: &mut Vec<u8>, standing: Standing) -> Result<(), NoMemory>
    ensures { OnOk result (text.new.items ≡ text.old.items ++ standing_text standing) }
{
    match standing {
        Standing::Posted => put(text, b"it is on its way to "),
        Standing::Queued => put(text, b"it waits in the queue of "),
        Standing::Taken => put(text, b"it was taken by "),
        Standing::Replied => put(text, b"it was replied to by "),
        Standing::Dropped => put(text, b"it was dropped at "),
    }
}

/// Which move of an exchange was opened last.
pub(crate) fn put_opened(alloc: Global, text: &mut Vec<u8>, opened: u64) -> Result<(), NoMemory>
    ensures { OnOk result (text.new.items ≡ text.old.items ++ opened_text opened) }
{
    if opened == 0 {
        return put(text, b"none was opened");
    }
    put_number(alloc, text, opened)?;
    put(text, b" was opened last")
}

/// In which move a process is.
pub(crate) fn put_moving(
    alloc: Global,
    text: &mut Vec<u8>,
    moving: Option<MoveName>,
) -> Result<(), NoMemory>
    ensures { OnOk result (text.new.items ≡ text.old.items ++ moving_text moving) }
{
    match moving {
        Some(own) => {
            put(text, b" is in ")?;
            put_move(alloc, text, own.exchange, own.number)
        }
        None => put(text, b" has begun no remote move"),
    }
}

/// The word of an ending.
pub(crate) fn put_ending(text: &mut Vec<u8>, why: Ending) -> Result<(), NoMemory>
    ensures { OnOk result (text.new.items ≡ text.old.items ++ ending_text why) }
{
    match why {
        Ending::Ok => put(text, b"ok"),
        Ending::NoProcess => put(text, b"noprocess"),
        Ending::TimedOut => put(text, b"timedout"),
        Ending::Gone => put(text, b"gone"),
    }
}
