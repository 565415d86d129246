//! What a reply or a move asks of a sender that awaits the reply.

ghost use Rattle.std.specs.Prelude.{◌≡◌, ◌<◌, ◌≤◌, ◌+◌, ◌^◌, option_map, if◌then◌else◌};
ghost use Rattle.vk_base.specs.Kernel.{holds_of};
ghost use Rattle.vk_base.specs.Ranges.{lies_within, range_of};
ghost use Rattle.vk_local.specs.Access.{access_refusal, has_range, lets, message_of, not_awaiting, own_range};
ghost use Rattle.vk_stands.specs.Held.{local_holding, seat_holding};

use vk_base::{Grants, Message, Pid, Range, Refusal};
use vk_procs::{Procs, Seat};

/// Bytes that are moved within a station: `count` bytes from `src` on, for the place `dest`.
#[derive(Clone, Copy)]
pub struct Segment {
    pub dest: u32,
    pub src: u32,
    pub count: u32,
}

/// Access to a segment that a held message grants: `count` bytes, at most `limit`, to write or to read from `granted` on, against
/// as many in the caller's memory from `own` on.
#[derive(Clone, Copy)]
pub struct Access {
    pub limit: u32,
    pub count: u32,
    pub write: bool,
    pub granted: u32,
    pub own: u32,
}

/// The message of the Send at this seat, where the holder has taken it and has neither replied nor handed it on. Access is by its
/// grants, whatever message the holder is shown.
fn seat_held(seat: &Seat, holder: Pid) -> Option<Message>
    ensures { result ≡ option_map message_of (seat_holding holder seat.now) }
{
    match seat.doing.sending() {
        Some((_, message)) if seat.note.taken && seat.at == holder => Some(message),
        _ => None,
    }
}

fn held(procs: &Procs, holder: Pid, sender: Pid) -> Option<Message>
    ensures { result ≡ option_map message_of (local_holding procs.now holder sender) }
{
    match procs.seat(sender) {
        Some(seat) => seat_held(seat, holder),
        None => None,
    }
}

/// Why a reply without bytes is refused.
pub fn not_awaiting(procs: &Procs, pid: Pid, to: Pid) -> Option<Refusal>
    ensures { result ≡ not_awaiting procs.now pid to }
{
    match held(procs, pid, to) {
        Some(_) => None,
        None => Some(Refusal::NotAwaiting),
    }
}

fn lets(grants: &Grants, write: bool) -> bool
    ensures { result ≡ (if write then grants.now.write else grants.now.read) }
{
    if write { grants.write } else { grants.read }
}

fn lies_within(start: u32, count: u32, outer: Range) -> bool
    ensures { result ≡ lies_within (range_of start count) outer }
{
    outer.start <= start && start as u64 + count as u64 <= outer.start as u64 + outer.len as u64
}

fn has_range(seat: &Seat, start: u32, count: u32) -> bool
    ensures { result ≡ has_range start count seat.now }
{
    start as u64 + count as u64 <= seat.memory.size() as u64
}

/// Whether the range lies in the memory of the process.
pub fn own_range(procs: &Procs, pid: Pid, start: u32, count: u32) -> bool
    ensures { result ≡ own_range procs.now pid start count }
{
    match procs.seat(pid) {
        Some(seat) => has_range(seat, start, count),
        None => false,
    }
}

/// Why this access is refused.
pub fn access_refusal(procs: &Procs, pid: Pid, to: Pid, access: Access) -> Option<Refusal>
    ensures { result ≡ access_refusal procs.now pid to access }
{
    if access.count > access.limit {
        return Some(Refusal::TooLong);
    }
    let Some(message) = held(procs, pid, to) else {
        return Some(Refusal::NotAwaiting);
    };
    let grants = message.grants();
    if !lets(&grants, access.write) {
        return Some(Refusal::NoAccess);
    }
    let granted = lies_within(access.granted, access.count, grants.range);
    if granted && own_range(procs, pid, access.own, access.count) {
        None
    } else {
        Some(Refusal::BadRange)
    }
}
