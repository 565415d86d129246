//! Two stations that hand each other their frames.

ghost use Rattle.std.specs.Prelude.{◌≡◌, ◌≢◌, ◌<◌, [], IfOk};
ghost use Rattle.vk_host.specs.Standing.{StandsAt};
ghost use Rattle.vkpair.specs.Pairs.{HasCollected, HasHandedOver, HasMade};

use crate::fault::Fault;
use crate::wire::Wire;
use std::alloc::Global;
use vk_base::limits::STATION_EVENTS;
use vk_base::{Config, Pid};
use vk_brief::{BriefCall, CallView};
use vk_host::{Host, Response};

/// Frames that are handed over behind one call, at most.
const MOST: u32 = 1_000_000;

/// A station, and the frames on their way to it.
#[derive(Drop)]
pub struct Side {
    pub host: Host,
    pub wire: Wire,
}

/// Two stations, and the frames between them.
#[derive(Drop)]
pub struct Pair {
    one: Side,
    two: Side,
}

fn side_of(alloc: Global, config: &Config, host: u16) -> Result<Side, Fault>
    requires some { 0 < host }
    requires one { host < 65535 }
    ensures stands { IfOk result (λ s. StandsAt config.now [] s.host) }
    ensures wire { IfOk result (λ s. s.wire.frames ≡ []) }
{
    match Host::new(alloc, config, host) {
        Ok(host) => Ok(Side {
            host,
            wire: Wire::new(alloc),
        }),
        Err(_) => Err(Fault::NoMemory),
    }
}

impl Side {
    /// The event that the process makes the call. Its frames go onto the wire to the other station.
    pub fn call(&mut self, pid: Pid, call: &CallView, to: &mut Wire) -> Result<Response, Fault>
        ensures made { IfOk result (HasMade pid call.now self.old.host self.new.host to.old.frames to.new.frames) }
        ensures wire { self.new.wire ≡ self.old.wire }
    {
        if !self.host.has(pid) {
            return Err(Fault::NoProcess);
        }
        if self.host.events() >= STATION_EVENTS {
            return Err(Fault::Spent);
        }
        let mut response = Response::Begun;
        self.host.call(pid, call, &mut response);
        to.take(&self.host)?;
        Ok(response)
    }

    /// Hands over the oldest frame that is on its way to this station, if there is one: whether there was. What the station sends then goes
    /// onto the wire to the other one.
    pub fn hand_over(&mut self, to: &mut Wire) -> Result<bool, Fault>
        ensures { IfOk result
            (HasHandedOver self.old.wire.frames self.new.wire.frames self.old.host self.new.host to.old.frames to.new.frames) }
    {
        let Some(frame) = self.wire.next() else {
            return Ok(false);
        };
        if self.host.events() >= STATION_EVENTS {
            return Err(Fault::Spent);
        }
        let mut response = Response::Begun;
        self.host.deliver(frame.as_slice(), &mut response);
        to.take(&self.host)?;
        Ok(true)
    }

    /// The event that the process collects its answer. It sends no frame.
    pub fn collect(&mut self, pid: Pid) -> Result<Response, Fault>
        ensures collected { IfOk result (HasCollected pid self.old.host self.new.host) }
        ensures wire { self.new.wire ≡ self.old.wire }
    {
        if !self.host.has(pid) {
            return Err(Fault::NoProcess);
        }
        if self.host.events() >= STATION_EVENTS {
            return Err(Fault::Spent);
        }
        let mut response = Response::Begun;
        self.host.collect(pid, &mut response);
        Ok(response)
    }
}

impl Pair {
    /// The stations 1 and 2 of this configuration, before their first events.
    ///
    /// # Errors
    ///
    /// [`Fault::NoMemory`] where memory is wanting.
    pub fn new(alloc: Global, config: &Config) -> Result<Self, Fault>
        ensures one { IfOk result (λ p. StandsAt config.now [] p.one.host) }
        ensures two { IfOk result (λ p. StandsAt config.now [] p.two.host) }
    {
        Ok(Pair {
            one: side_of(alloc, config, 1)?,
            two: side_of(alloc, config, 2)?,
        })
    }

    /// Hands over frames until none is on its way.
    fn settle(&mut self) -> Result<(), Fault>
        ensures one { IfOk result (λ _. self.new.one.wire.frames ≡ []) }
        ensures two { IfOk result (λ _. self.new.two.wire.frames ≡ []) }
    {
        for _ in 0..MOST {
            let went = self.one.hand_over(&mut self.two.wire)?;
            let came = self.two.hand_over(&mut self.one.wire)?;
            if !went && !came {
                return Ok(());
            }
        }
        Err(Fault::Spent)
    }

    /// A process makes a call at its station, and all frames that this gives are handed over, until none is on its way.
    pub fn call(&mut self, pid: Pid, call: &BriefCall) -> Result<Response, Fault>
        ensures one { IfOk result (λ _. self.new.one.wire.frames ≡ []) }
        ensures two { IfOk result (λ _. self.new.two.wire.frames ≡ []) }
    {
        let view = CallView::new(call, &[]);
        let response = if pid.host == 1 {
            self.one.call(pid, &view, &mut self.two.wire)?
        } else {
            self.two.call(pid, &view, &mut self.one.wire)?
        };
        self.settle()?;
        Ok(response)
    }

    /// The answer to the process's last call, which it collects at its station.
    pub fn collect(&mut self, pid: Pid) -> Result<Response, Fault>
        ensures one { pid.host ≡ 1 → IfOk result (HasCollected pid self.old.one.host self.new.one.host) }
        ensures two { pid.host ≢ 1 → IfOk result (HasCollected pid self.old.two.host self.new.two.host) }
        ensures wires { self.new.one.wire ≡ self.old.one.wire × self.new.two.wire ≡ self.old.two.wire }
    {
        if pid.host == 1 {
            self.one.collect(pid)
        } else {
            self.two.collect(pid)
        }
    }
}
