//! The words of each reason why a step is not allowed.

ghost use Rattle.std.specs.Prelude.{◌≡◌, ◌++◌, OnOk};
ghost use Rattle.vk_why.specs.Reasons.{reason_text};

use crate::words::{
    put_counted, put_ending, put_life, put_lookup, put_move, put_moving, put_named, put_opened,
    put_send, put_span, put_standing, put_wanted, put_whole,
};
use std::alloc::Global;
use v_obstacle::{Obstacle, Standing, Wanted};
use vk_base::{Ending, MoveName, Name, NoMemory, Pid, Range, State};
use vk_text::{put, put_pid};

fn put_no_process(alloc: Global, text: &mut Vec<u8>, pid: Pid) -> Result<(), NoMemory>
    ensures { OnOk result (text.new.items ≡ text.old.items ++ reason_text (Obstacle.NoProcess pid)) }
{
    put_pid(alloc, text, pid)?;
    put(text, b" is no process")
}

fn put_not_sent(alloc: Global, text: &mut Vec<u8>, name: Name, sends: u64) -> Result<(), NoMemory>
    ensures { OnOk result (text.new.items ≡ text.old.items ++ reason_text (Obstacle.NotSent name sends)) }
{
    put_send(alloc, text, name)?;
    put_counted(
        alloc,
        text,
        b" is not there, or it is over: Sends begun there: ",
        sends,
    )
}

fn put_other_send(alloc: Global, text: &mut Vec<u8>, name: Name, sends: u64) -> Result<(), NoMemory>
    ensures { OnOk result (text.new.items ≡ text.old.items ++ reason_text (Obstacle.OtherSend name sends)) }
{
    put_pid(alloc, text, name.sender)?;
    put_counted(alloc, text, b" waits in its Send ", sends)?;
    put_counted(alloc, text, b", not in Send ", name.number)
}

fn put_not_posted(
    alloc: Global,
    text: &mut Vec<u8>,
    name: Name,
    at: Pid,
    standing: Standing,
) -> Result<(), NoMemory>
    ensures { OnOk result (text.new.items ≡ text.old.items ++ reason_text (Obstacle.NotPosted name at standing)) }
{
    put_send(alloc, text, name)?;
    put(text, b" is not on its way: ")?;
    put_standing(text, standing)?;
    put_pid(alloc, text, at)
}

fn put_not_replied(
    alloc: Global,
    text: &mut Vec<u8>,
    name: Name,
    at: Pid,
    standing: Standing,
) -> Result<(), NoMemory>
    ensures { OnOk result (text.new.items ≡ text.old.items ++ reason_text (Obstacle.NotReplied name at standing)) }
{
    put_send(alloc, text, name)?;
    put(text, b" has no reply: ")?;
    put_standing(text, standing)?;
    put_pid(alloc, text, at)
}

fn put_dead_target(
    alloc: Global,
    text: &mut Vec<u8>,
    name: Name,
    target: Pid,
) -> Result<(), NoMemory>
    ensures { OnOk result (text.new.items ≡ text.old.items ++ reason_text (Obstacle.DeadTarget name target)) }
{
    put_send(alloc, text, name)?;
    put_named(alloc, text, b" is to ", target)?;
    put(text, b", which is not alive")
}

fn put_nothing_queued(alloc: Global, text: &mut Vec<u8>, pid: Pid) -> Result<(), NoMemory>
    ensures { OnOk result (text.new.items ≡ text.old.items ++ reason_text (Obstacle.NothingQueued pid)) }
{
    put_named(alloc, text, b"nothing waits in the queue of ", pid)
}

fn put_one_station(alloc: Global, text: &mut Vec<u8>, pid: Pid, other: Pid) -> Result<(), NoMemory>
    ensures { OnOk result (text.new.items ≡ text.old.items ++ reason_text (Obstacle.OneStation pid other)) }
{
    put_pid(alloc, text, pid)?;
    put_named(alloc, text, b" and ", other)?;
    put(text, b" live on one station")
}

fn put_alive(alloc: Global, text: &mut Vec<u8>, name: Name, at: Pid) -> Result<(), NoMemory>
    ensures { OnOk result (text.new.items ≡ text.old.items ++ reason_text (Obstacle.Alive name at)) }
{
    put_pid(alloc, text, at)?;
    put(text, b" is alive, which has ")?;
    put_send(alloc, text, name)
}

fn put_no_move(
    alloc: Global,
    text: &mut Vec<u8>,
    name: Name,
    moving: u64,
    moves: u64,
) -> Result<(), NoMemory>
    ensures { OnOk result (text.new.items ≡ text.old.items ++ reason_text (Obstacle.NoMove name moving moves)) }
{
    put_move(alloc, text, name, moving)?;
    put_counted(alloc, text, b" is not there: moves begun there: ", moves)
}

fn put_opened_before(
    alloc: Global,
    text: &mut Vec<u8>,
    name: Name,
    moving: u64,
    opened: u64,
) -> Result<(), NoMemory>
    ensures { OnOk result (text.new.items ≡ text.old.items ++ reason_text (Obstacle.OpenedBefore name moving opened)) }
{
    put_move(alloc, text, name, moving)?;
    put(text, b" comes too late: ")?;
    put_opened(alloc, text, opened)
}

fn put_not_open(
    alloc: Global,
    text: &mut Vec<u8>,
    name: Name,
    moving: u64,
    opened: u64,
) -> Result<(), NoMemory>
    ensures { OnOk result (text.new.items ≡ text.old.items ++ reason_text (Obstacle.NotOpen name moving opened)) }
{
    put_move(alloc, text, name, moving)?;
    put(text, b" is not open: ")?;
    put_opened(alloc, text, opened)
}

fn put_other_offset(
    alloc: Global,
    text: &mut Vec<u8>,
    name: Name,
    offset: u32,
    done: u32,
) -> Result<(), NoMemory>
    ensures { OnOk result (text.new.items ≡ text.old.items ++ reason_text (Obstacle.OtherOffset name offset done)) }
{
    put_send(alloc, text, name)?;
    put(text, b" has ")?;
    put_span(alloc, text, u64::from(done), u64::from(offset))
}

fn put_too_many_bytes(
    alloc: Global,
    text: &mut Vec<u8>,
    name: Name,
    moving: u64,
    part: Range,
    whole: u32,
) -> Result<(), NoMemory>
    ensures { OnOk result (text.new.items ≡ text.old.items ++ reason_text (Obstacle.TooManyBytes name moving part.start part.len whole)) }
{
    put_move(alloc, text, name, moving)?;
    put(text, b" has ")?;
    put_whole(
        alloc,
        text,
        u64::from(whole),
        u64::from(part.start),
        u64::from(part.len),
    )
}

fn put_other_move(
    alloc: Global,
    text: &mut Vec<u8>,
    pid: Pid,
    moving: Option<MoveName>,
) -> Result<(), NoMemory>
    ensures { OnOk result (text.new.items ≡ text.old.items ++ reason_text (Obstacle.OtherMove pid moving)) }
{
    put_pid(alloc, text, pid)?;
    put_moving(alloc, text, moving)
}

fn put_incomplete(
    alloc: Global,
    text: &mut Vec<u8>,
    name: Name,
    moving: u64,
    done: u32,
    whole: u32,
) -> Result<(), NoMemory>
    ensures { OnOk result (text.new.items ≡ text.old.items ++ reason_text (Obstacle.Incomplete name moving done whole)) }
{
    put(text, b"of ")?;
    put_move(alloc, text, name, moving)?;
    put_counted(alloc, text, b" bytes are done: ", u64::from(done))?;
    put_counted(alloc, text, b" of ", u64::from(whole))
}

fn put_still_waits(alloc: Global, text: &mut Vec<u8>, name: Name) -> Result<(), NoMemory>
    ensures { OnOk result (text.new.items ≡ text.old.items ++ reason_text (Obstacle.StillWaits name)) }
{
    put_pid(alloc, text, name.sender)?;
    put(text, b" still waits in ")?;
    put_send(alloc, text, name)
}

fn put_no_lookup(
    alloc: Global,
    text: &mut Vec<u8>,
    asker: Pid,
    number: u64,
    lookups: u64,
) -> Result<(), NoMemory>
    ensures { OnOk result (text.new.items ≡ text.old.items ++ reason_text (Obstacle.NoLookup asker number lookups)) }
{
    put_lookup(alloc, text, asker, number)?;
    put_counted(
        alloc,
        text,
        b" is not there: lookups begun there: ",
        lookups,
    )
}

fn put_not_told(alloc: Global, text: &mut Vec<u8>, logical: u32, pid: Pid) -> Result<(), NoMemory>
    ensures { OnOk result (text.new.items ≡ text.old.items ++ reason_text (Obstacle.NotTold logical pid)) }
{
    put_pid(alloc, text, pid)?;
    put_counted(
        alloc,
        text,
        b" is not told to other stations as ",
        u64::from(logical),
    )
}

fn put_not_heard(
    alloc: Global,
    text: &mut Vec<u8>,
    asker: Pid,
    number: u64,
    pid: Pid,
) -> Result<(), NoMemory>
    ensures { OnOk result (text.new.items ≡ text.old.items ++ reason_text (Obstacle.NotHeard asker number pid)) }
{
    put_pid(alloc, text, pid)?;
    put(text, b" was not heard of in ")?;
    put_lookup(alloc, text, asker, number)
}

fn put_otherwise(
    alloc: Global,
    text: &mut Vec<u8>,
    wanted: Wanted,
    pid: Pid,
    alive: bool,
    state: &State,
) -> Result<(), NoMemory>
    ensures { OnOk result (text.new.items ≡ text.old.items ++ reason_text (Obstacle.Otherwise wanted pid alive state.now)) }
{
    put_pid(alloc, text, pid)?;
    put_wanted(text, wanted)?;
    put_life(alloc, text, alive, state)
}

fn put_no_such_ending(text: &mut Vec<u8>, why: Ending) -> Result<(), NoMemory>
    ensures { OnOk result (text.new.items ≡ text.old.items ++ reason_text (Obstacle.NoSuchEnding why)) }
{
    put_ending(text, why)?;
    put(text, b" is not how it can end")
}

/// Appends which condition fails, with the state that it is about.
pub fn put_reason(alloc: Global, text: &mut Vec<u8>, why: &Obstacle) -> Result<(), NoMemory>
    ensures { OnOk result (text.new.items ≡ text.old.items ++ reason_text why.now) }
{
    match *why {
        Obstacle::NoProcess { pid } => put_no_process(alloc, text, pid),
        Obstacle::NotSent { name, sends } => put_not_sent(alloc, text, name, sends),
        Obstacle::OtherSend { name, sends } => put_other_send(alloc, text, name, sends),
        Obstacle::NotPosted { name, at, standing } => put_not_posted(
            alloc, text, name, at, standing,
        ),
        Obstacle::NotReplied { name, at, standing } => put_not_replied(
            alloc, text, name, at, standing,
        ),
        Obstacle::DeadTarget { name, target } => put_dead_target(alloc, text, name, target),
        Obstacle::NothingQueued { pid } => put_nothing_queued(alloc, text, pid),
        Obstacle::OneStation { pid, other } => put_one_station(alloc, text, pid, other),
        Obstacle::Alive { name, at } => put_alive(alloc, text, name, at),
        Obstacle::NoSuchEnding { why } => put_no_such_ending(text, why),
        Obstacle::NoMove {
            name,
            moving,
            moves,
        } => put_no_move(alloc, text, name, moving, moves),
        Obstacle::OpenedBefore {
            name,
            moving,
            opened,
        } => put_opened_before(alloc, text, name, moving, opened),
        Obstacle::NotOpen {
            name,
            moving,
            opened,
        } => put_not_open(alloc, text, name, moving, opened),
        Obstacle::OtherOffset { name, offset, done } => put_other_offset(
            alloc, text, name, offset, done,
        ),
        Obstacle::NoBytes => put(text, b"it copies no bytes"),
        Obstacle::OtherMove { pid, moving } => put_other_move(alloc, text, pid, moving),
        Obstacle::Incomplete {
            name,
            moving,
            done,
            whole,
        } => put_incomplete(alloc, text, name, moving, done, whole),
        Obstacle::StillWaits { name } => put_still_waits(alloc, text, name),
        Obstacle::NoLookup {
            asker,
            number,
            lookups,
        } => put_no_lookup(alloc, text, asker, number, lookups),
        Obstacle::NotTold { logical, pid } => put_not_told(alloc, text, logical, pid),
        Obstacle::NotHeard { asker, number, pid } => put_not_heard(alloc, text, asker, number, pid),
        Obstacle::Otherwise {
            wanted,
            pid,
            alive,
            ref state,
        } => put_otherwise(alloc, text, wanted, pid, alive, state),
        Obstacle::TooManyBytes {
            name,
            moving,
            offset,
            count,
            whole,
        } => {
            let part = Range {
                start: offset,
                len: count,
            };
            put_too_many_bytes(alloc, text, name, moving, part, whole)
        }
    }
}
