//! Wires and links in memory, some of whose calls fail.
ghost use Rattle.std.specs.Prelude.{◌≡◌, ◌↔◌, ◌≤◌, ◌++◌, ℕ, List, [], All, map, flat_map, take, drop, length, Option, Some, None, Ok, is_err, is_some, option_copied, IsErr, IfOk, OnOk, if◌then◌else◌, vec_len, vec_capacity};
ghost use Rattle.vk_io.specs.Causes.{HasCause, next_count};
ghost use Rattle.vk_io.specs.Memory.{FailsNext, after_call};
ghost use Rattle.vk_udp.specs.Wires.{CountsLink, HandsOut, HasNothing, IsClosed, IsMore, IsNewLink, IsUnused, Opens, TakesBack, received};

use crate::link::{Link, Wire};
use std::alloc::Global;
use std::marker::Model;
use std::net::Net;
use std::time::Clock;
use vk_base::{FrameBytes, NoMemory};
use vk_io::{CallCounter, Failed};

/// A link that hands out datagrams from memory, some of whose receives fail. What it is given to send it keeps, and tells as long as there
/// is memory for it.
#[derive(Drop)]
pub struct MemoryLink {
    datagrams: Vec<FrameBytes>,
    at: usize,
    sent: Vec<(u16, FrameBytes)>,
    tells: bool,
    calls: CallCounter,
}

impl Model for MemoryLink {
    ghost use Rattle.std.specs.Prelude.{◌≤◌, Some, None, if◌then◌else◌, length, take, drop};
    ghost use Rattle.vk_udp.specs.Wires.{Deck};

    ghost Value = { Deck };

    ghost view = { λ l. record {
      handed = take l.at l.datagrams.items;
      sent = if l.tells then Some l.sent.items else None;
      left = drop l.at l.datagrams.items;
      calls = l.calls;
    } };

    ghost invariant = { λ l. l.at ≤ length l.datagrams.items };
}

impl MemoryLink {
    /// Hands out these datagrams, in order. Its receives are numbered from 1, and those whose numbers stand in `failing` fail.
    pub fn new(alloc: Global, datagrams: Vec<FrameBytes>, failing: Vec<u64>) -> MemoryLink
        ensures handed { result.handed ≡ [] }
        ensures sent { result.sent ≡ Some [] }
        ensures left { result.left ≡ datagrams.items }
        ensures calls { result.calls ≡ record { failing = failing.items; made = 0; faults = 0 } }
    {
        MemoryLink {
            datagrams,
            at: 0,
            sent: Vec::new(alloc),
            tells: true,
            calls: CallCounter::new(failing),
        }
    }

    /// What it was given to send, with the ports, if it still tells it.
    pub fn sent(&self) -> Option<&[(u16, FrameBytes)]>
        ensures { option_copied result ≡ self.now.sent }
    {
        if self.tells {
            Some(self.sent.as_slice())
        } else {
            None
        }
    }

    /// The next datagram, if one is left.
    fn next(&mut self, into: &mut FrameBytes) -> bool
        ensures hands { HandsOut self.old self.new result into.new }
        ensures sent { self.new.sent ≡ self.old.sent }
        ensures calls { self.new.calls ≡ self.old.calls }
    {
        let Some(datagram) = self.datagrams.get(self.at) else {
            return false;
        };
        *into = datagram.copy();
        self.at += 1;
        true
    }
}

impl Link for MemoryLink {
    ghost handed = { λ l. Some l.handed };

    ghost sent = { λ l. l.sent };

    ghost fault_count = { λ l. l.calls.faults };

    fn faults(&self) -> u64 {
        self.calls.faults()
    }

    fn send<R: Clock>(&mut self, _rt: &R, port: u16, frame: &FrameBytes) {
        if self.sent.push((port, frame.copy())).is_err() {
            self.tells = false;
        }
    }

    fn receive<R: Clock>(&mut self, _rt: &R, into: &mut FrameBytes) -> Result<bool, Failed>
        ensures handed { Some self.new.handed ≡ received (Some self.old.handed) result into.new }
        ensures sent { self.new.sent ≡ self.old.sent }
        ensures cause { HasCause self.old.calls.faults self.new.calls.faults result }

        // A listed call fails, and no other. At false none is left.
        ensures fails { IsErr result ↔ FailsNext self.old.calls }
        ensures counted { self.new.calls ≡ after_call self.old.calls (is_err result) }
        ensures hands { IfOk result (λ there. HandsOut self.old self.new there into.new) }
    {
        match self.calls.begin() {
            Ok(()) => Ok(self.next(into)),
            Err(failed) => Err(failed),
        }
    }
}

/// A wire that opens links in memory, some of whose opens fail.
#[derive(Drop)]
pub struct MemoryWire {
    alloc: Global,
    ready: Vec<MemoryLink>,
    closed: Vec<MemoryLink>,
    tells: bool,
    tells_sent: bool,
    calls: CallCounter,
}

impl Model for MemoryWire {
    ghost use Rattle.std.specs.Prelude.{Some, None, All, flat_map, if◌then◌else◌, ◌-◌, vec_len, vec_capacity};
    ghost use Rattle.vk_udp.specs.Wires.{Exchange, IsUnused, given, handed_by};

    ghost Value = { Exchange };

    ghost view = { λ w. record {
      ready = w.ready.items;
      told = if w.tells then Some (flat_map handed_by w.closed.items) else None;
      sent = if w.tells_sent then Some (flat_map given w.closed.items) else None;
      room = vec_capacity w.closed - vec_len w.closed;
      calls = w.calls;
    } };

    ghost invariant = { λ w. All IsUnused w.ready.items };
}

impl MemoryWire {
    /// Opens these links, the last one first, and behind them links without datagrams. Its opens are numbered from 1, and those whose
    /// numbers stand in `failing` fail. It keeps what comes back, and tells of as many links as these. It tells no more what they were
    /// given to send once one comes back that does not tell it.
    pub fn new(
        alloc: Global,
        ready: Vec<MemoryLink>,
        failing: Vec<u64>,
    ) -> Result<MemoryWire, NoMemory>
        requires { All IsUnused ready.items }
        ensures ready { IfOk result (λ w. w.ready ≡ ready.items) }
        ensures told { IfOk result (λ w. w.told ≡ Some []) }
        ensures sent { IfOk result (λ w. w.sent ≡ Some []) }
        ensures room { IfOk result (λ w. w.room ≡ length ready.items) }
        ensures calls { IfOk result (λ w. w.calls ≡ record { failing = failing.items; made = 0; faults = 0 }) }
    {
        let closed = Vec::with_capacity(alloc, ready.len())?;
        Ok(MemoryWire {
            alloc,
            ready,
            closed,
            tells: true,
            tells_sent: true,
            calls: CallCounter::new(failing),
        })
    }
}

/// The last of these links, or one without datagrams where there is none.
fn next_link(alloc: Global, ready: &mut Vec<MemoryLink>) -> MemoryLink
    requires { All IsUnused ready.old.items }
    ensures opens { Opens ready.old.items ready.new.items result }
    ensures unused { IsUnused result }
    ensures left { All IsUnused ready.new.items }
{
    match ready.pop() {
        Some(link) => link,
        None => MemoryLink::new(alloc, Vec::new(alloc), Vec::new(alloc)),
    }
}

impl Wire for MemoryWire {
    type L = MemoryLink;

    ghost handed = { λ w. w.told };

    ghost sent = { λ w. w.sent };

    ghost fault_count = { λ w. w.calls.faults };

    fn faults(&self) -> u64 {
        self.calls.faults()
    }

    fn open<R: Net>(&mut self, _rt: &R, _port: u16) -> Result<MemoryLink, Failed>
        ensures handed { self.new.told ≡ self.old.told }
        ensures sent { self.new.sent ≡ self.old.sent }
        ensures room { self.new.room ≡ self.old.room }
        ensures link { IfOk result (λ l. IsNewLink self.new.told (Some l.handed) l.calls.faults) }
        ensures unsent { IfOk result (λ l. HasNothing self.new.sent l.sent) }
        ensures cause { HasCause self.old.calls.faults self.new.calls.faults result }

        // A listed call fails, and no other.
        ensures fails { IsErr result ↔ FailsNext self.old.calls }
        ensures counted { self.new.calls ≡ after_call self.old.calls (is_err result) }
        ensures opens { IfOk result (λ l. Opens self.old.ready self.new.ready l) }
    {
        match self.calls.begin() {
            Ok(()) => Ok(next_link(self.alloc, &mut self.ready)),
            Err(failed) => Err(failed),
        }
    }

    fn close(&mut self, link: MemoryLink)
        ensures handed { IsClosed self.old.told (Some link.handed) self.new.told }
        ensures sent { IsClosed self.old.sent link.sent self.new.sent }
        ensures faults { CountsLink link.calls.faults self.old.calls.faults self.new.calls.faults }
        ensures back { TakesBack self.old link self.new }
        ensures ready { self.new.ready ≡ self.old.ready }
    {
        if link.faults() > 0 {
            self.calls.fail();
        }
        if self.closed.len() < self.closed.capacity() {
            self.tells_sent = self.tells_sent && link.sent().is_some();
            self.closed.push_reserved(link);
        } else {
            self.tells = false;
            self.tells_sent = false;
        }
    }
}

/// A link that never fails and hands out nothing. What it is given to send is lost, and not told.
#[derive(Default, Drop)]
pub struct SureLink;

impl Link for SureLink {
    ghost handed = { λ l. Some [] };

    ghost sent = { λ l. None };

    ghost fault_count = { λ l. 0 };

    fn faults(&self) -> u64 {
        0
    }

    fn send<R: Clock>(&mut self, _rt: &R, _port: u16, _frame: &FrameBytes) {}

    fn receive<R: Clock>(&mut self, _rt: &R, _into: &mut FrameBytes) -> Result<bool, Failed> {
        Ok(false)
    }
}

/// A wire that never fails, whose links hand out nothing.
#[derive(Default, Drop)]
pub struct SureWire;

impl SureWire {
    pub fn new() -> SureWire {
        SureWire
    }
}

impl Wire for SureWire {
    type L = SureLink;

    ghost handed = { λ w. Some [] };

    ghost sent = { λ w. None };

    ghost fault_count = { λ w. 0 };

    fn faults(&self) -> u64 {
        0
    }

    fn open<R: Net>(&mut self, _rt: &R, _port: u16) -> Result<SureLink, Failed> {
        Ok(SureLink)
    }

    fn close(&mut self, _link: SureLink) {}
}
