//! A station that plays events and tells of them.

use crate::frames::{frame_named, is_bad, name_of};
use crate::told::entry_text;
use std::alloc::Global;
use std::io;
use std::marker::Model;
use vk_base::{Config, Pid, ProcessSpec, Times};
use vk_brief::{BriefCall, CallView};
use vk_host::{Host, Response};
use vk_report::EventPlace;
use vk_text::{next_pid, pid, read_call};

/// How often and how long a station tries.
const TIMES: Times = Times {
    tries: 5,
    interval: 4,
    life: 8,
};

/// More events than any text has.
const EVENTS: u64 = 1 << 40;

/// A station and its number.
#[derive(Drop)]
pub struct Station {
    number: u16,
    host: Host,
}

impl Model for Station {
    ghost use Rattle.vk_host.specs.Standing.{StandsSomewhere};
    ghost use Rattle.vk_host.specs.Values.{StationValue};

    ghost Value = { StationValue };

    ghost view = { λ s. s.host };

    ghost invariant = { λ s. StandsSomewhere s.host };
}

impl Station {
    /// The station of this number with so many places for aliens, and two processes with so many bytes each.
    #[tactic(auto, using(crate::proofs::Standing::new_stands))]
    pub fn new(alloc: Global, number: u16, pool: u32, size: u32) -> io::Result<Self> {
        if number == 0 || number == u16::MAX {
            return Err(is_bad());
        }
        let specs = [
            ProcessSpec {
                pid: Pid {
                    host: number,
                    local: 1,
                },
                size,
            },
            ProcessSpec {
                pid: Pid {
                    host: number,
                    local: 2,
                },
                size,
            },
        ];
        let Ok(config) = Config::new(alloc, TIMES, pool, &specs) else {
            return Err(is_bad());
        };
        let Ok(host) = Host::new(alloc, &config, number) else {
            return Err(io::Error::from(io::ErrorKind::OutOfMemory));
        };
        Ok(Station { number, host })
    }

    pub fn number(&self) -> u16 {
        self.number
    }

    /// A call: `PID CALL`. Nothing where the text is none, or not that of a process of the station.
    #[tactic(auto, using(crate::proofs::Standing::goes_on))]
    fn call(&mut self, text: &[u8]) -> Option<Response> {
        let (pid, at) = next_pid(text, 0)?;
        let call = read_call(text, at)?;
        if self.host.events() < EVENTS && self.host.has(pid) {
            let (call, bytes) = BriefCall::of(&call);
            let mut response = Response::Begun;
            self.host
                .call(pid, &CallView::new(&call, bytes), &mut response);
            Some(response)
        } else {
            None
        }
    }

    /// A collect of this process, under the same condition.
    #[tactic(auto, using(crate::proofs::Standing::goes_on))]
    fn collect(&mut self, pid: Pid) -> Option<Response> {
        if self.host.events() < EVENTS && self.host.has(pid) {
            let mut response = Response::Begun;
            self.host.collect(pid, &mut response);
            Some(response)
        } else {
            None
        }
    }

    #[tactic(auto, using(crate::proofs::Standing::goes_on))]
    fn tick(&mut self) -> Option<Response> {
        if self.host.events() < EVENTS {
            let mut response = Response::Begun;
            self.host.tick(&mut response);
            Some(response)
        } else {
            None
        }
    }

    #[tactic(auto, using(crate::proofs::Standing::goes_on))]
    fn deliver(&mut self, frame: &[u8]) -> Option<Response> {
        if self.host.events() < EVENTS {
            let mut response = Response::Begun;
            self.host.deliver(frame, &mut response);
            Some(response)
        } else {
            None
        }
    }

    /// What the station answers to the event of this kind.
    fn respond(
        &mut self,
        alloc: Global,
        text: &str,
        kind: &str,
        rest: &str,
    ) -> io::Result<Option<Response>> {
        if kind == "call" {
            return Ok(self.call(rest.as_bytes()));
        }
        if kind == "deliver" {
            let frame = frame_named(alloc, text, rest)?;
            return Ok(self.deliver(frame.as_slice()));
        }
        if kind != "collect" {
            return Ok(None);
        }
        let Some(pid) = pid(rest.as_bytes()) else {
            return Ok(None);
        };
        Ok(self.collect(pid))
    }

    /// So many ticks. Told are those with steps or frames, and the last.
    fn ticks(
        &mut self,
        alloc: Global,
        text: &str,
        count: u64,
        told: &mut Vec<u8>,
    ) -> io::Result<()> {
        for left in (0..count).rev() {
            let Some(response) = self.tick() else {
                return Err(is_bad());
            };
            if left == 0 || self.host.frame_count() > 0 || !self.host.steps().is_empty() {
                self.tell(alloc, text, response, told)?;
            }
        }
        Ok(())
    }

    /// Appends the line of the answer and those of the steps, as a report has them, with the Lamport number in front, and the names
    /// of the frames.
    fn tell(
        &self,
        alloc: Global,
        text: &str,
        response: Response,
        told: &mut Vec<u8>,
    ) -> io::Result<()> {
        let place = EventPlace {
            number: self.host.number(),
            host: self.number,
            own: self.host.events(),
        };
        let answer = self.host.answer(response);
        let entry = entry_text(alloc, place, &answer, self.host.steps())?;
        told.extend_from_slice(entry.as_slice())?;
        for at in 0..self.host.frame_count() {
            let name = name_of(alloc, text, self.host.frame(at))?;
            told.extend_from_slice(b"frame ")?;
            told.extend_from_slice(name.as_bytes())?;
            told.push(b'\n')?;
        }
        Ok(())
    }

    /// Plays an event of the text: `call PID CALL`, `collect PID`, `tick COUNT` or `deliver NAME`; and appends what the station tells
    /// of it.
    pub fn play(
        &mut self,
        alloc: Global,
        text: &str,
        event: &str,
        told: &mut Vec<u8>,
    ) -> io::Result<()> {
        let Some((kind, rest)) = event.split_once(' ') else {
            return Err(is_bad());
        };
        if kind == "tick" {
            return match rest.parse::<u64>() {
                Ok(count) => self.ticks(alloc, text, count, told),
                Err(_) => Err(is_bad()),
            };
        }
        match self.respond(alloc, text, kind, rest)? {
            Some(response) => self.tell(alloc, text, response, told),
            None => Err(is_bad()),
        }
    }
}
