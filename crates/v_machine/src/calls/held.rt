//! Whom a process holds.

ghost use Rattle.std.specs.Prelude.{◌≡◌, ◌<◌, option_map, IfSome, Some, length};
ghost use Rattle.vk_base.specs.declared.pid.Pid.{Pid as ThePid};
ghost use Rattle.vk_base.specs.Kernel.{held, is_held_by};
ghost use Rattle.v_machine.specs.Kept.{IsKept, IsAt, kernel_in, latest_by};
ghost use Rattle.v_machine.specs.Places.{place_in};

use crate::tables::Store;
use crate::tables::put::{find, sent_of};
use crate::tables::sent::Sent;
use vk_base::Pid;

/// The place of a sender that is held, and the number of its Send.
#[derive(Clone, Copy)]
pub struct Holding {
    pub at: usize,
    pub number: u64,
}

/// The Send of the sender that the process holds: it can only be the latest to its host.
#[inline(always)]
pub fn held(store: &Store, pid: Pid, sender: Pid) -> Option<Holding>
    requires { IsKept store.now }
    ensures number { option_map (λ h. h.number) result ≡ held (kernel_in store.now) pid sender }
    ensures here { IfSome result (λ h. IsAt store.now sender h.at) }
{
    let at = find(store, sender)?;
    let number = latest_of(store, at, pid.host);
    let sent = sent_of(store, at, number)?;
    if !is_held_by(sent, pid) {
        return None;
    }
    Some(Holding { at, number })
}

fn latest_of(store: &Store, at: usize, host: u16) -> u64
    requires { at < length store.now.latest.items }
    ensures { (sender : ThePid) → place_in store.now.places sender ≡ Some at →
        result ≡ latest_by store.now.places store.now.latest.items sender host }
{
    store.latest[at].get(host)
}

fn is_held_by(sent: &Sent, pid: Pid) -> bool
    ensures { result ≡ is_held_by pid sent.now }
{
    sent.at() == pid && sent.is_taken()
}
