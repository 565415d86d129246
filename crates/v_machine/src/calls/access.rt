//! Access to a segment of a sender that is held.

ghost use Rattle.std.specs.Prelude.{◌≡◌, ◌<◌, ◌∷◌, [], ◌&&◌, not, length, Some, if◌then◌else◌};
ghost use Rattle.vk_types.specs.Types.{Exchange};
ghost use Rattle.vk_base.specs.declared.pid.Pid.{Pid as ThePid};
ghost use Rattle.vk_base.specs.Calls.{first_that_holds};
ghost use Rattle.vk_base.specs.Kernel.{name_of};
ghost use Rattle.vk_base.specs.Messages.{grants_of};
ghost use Rattle.vk_base.specs.Ranges.{lies_within};
ghost use Rattle.v_machine.specs.Access.{Accesses};
ghost use Rattle.v_machine.specs.Kept.{IsKept, IsAt, kernel_in};
ghost use Rattle.v_machine.specs.Places.{place_in};

use crate::calls::held::{Holding, held};
use crate::tables::Store;
use crate::tables::bytes::lies_in;
use crate::tables::put::{proc, sent_of};
use vk_base::{Grants, Pid, Range, Refusal};

/// What is asked for: to write or to read a range of a partner's segment, from or into a range of the caller's memory.
#[derive(Clone, Copy)]
pub struct SegmentAccess {
    pub partner: Pid,
    /// The most bytes.
    pub limit: u32,
    pub write: bool,
    pub granted: Range,
    pub own: Range,
}

/// The Send that grants the access, or why there is none.
pub fn held_for(
    store: &Store,
    at: usize,
    pid: Pid,
    access: SegmentAccess,
) -> Result<Holding, Refusal>
    requires kept { IsKept store.now }
    requires here { IsAt store.now pid at }
    ensures { Accesses store.now pid access result }
{
    if access.own.len > access.limit {
        return Err(Refusal::TooLong);
    }
    let Some(holding) = held(store, pid, access.partner) else {
        return Err(Refusal::NotAwaiting);
    };
    let grants = granted(store, holding);
    let may = may(grants, access.write);
    let own = lies_in(
        access.own.start,
        access.own.len,
        proc(store, at).memory.size(),
    );
    match access_refusal(may, access.granted, grants.range, own) {
        Some(why) => Err(why),
        None => Ok(holding),
    }
}

/// Whether writing, or else reading, is granted.
fn may(grants: Grants, write: bool) -> bool
    ensures { result ≡ (if write then grants.write else grants.read) }
{
    if write { grants.write } else { grants.read }
}

/// What the message of a Send that is held grants.
fn granted(store: &Store, holding: Holding) -> Grants
    requires { holding.at < length store.now.sends.items }
    ensures { (sender : ThePid) (e : Exchange) → place_in store.now.places sender ≡ Some holding.at →
        (kernel_in store.now).exchanges (name_of sender holding.number) ≡ Some e → result ≡ grants_of e.message }
{
    match sent_of(store, holding.at, holding.number) {
        Some(sent) => sent.message().grants(),
        None => Grants {
            read: false,
            write: false,
            range: Range { start: 0, len: 0 },
        },
    }
}

/// Why an access is refused, if it is: it must be granted, within the segment, and the other range must lie in the caller's memory.
fn access_refusal(may: bool, range: Range, segment: Range, own: bool) -> Option<Refusal>
    ensures { result ≡ first_that_holds ((not may, Refusal.NoAccess) ∷ (not (lies_within range segment && own), Refusal.BadRange) ∷ []) }
{
    if !may {
        return Some(Refusal::NoAccess);
    }
    if !(lies_within(range, segment) && own) {
        return Some(Refusal::BadRange);
    }
    None
}

/// Whether a range neither starts before nor ends behind another.
fn lies_within(range: Range, outer: Range) -> bool
    ensures { result ≡ lies_within range outer }
{
    outer.start <= range.start
        && u64::from(range.start) + u64::from(range.len)
            <= u64::from(outer.start) + u64::from(outer.len)
}
