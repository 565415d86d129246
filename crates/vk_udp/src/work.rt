//! The jobs of a node.
ghost use Rattle.vk_udp.specs.Jobs.{ends_as};

use crate::carrier::{Carrier, carrier_end};
use crate::clock::{NodeClock, clock_end};
use crate::dock::{Carrying, Start};
use crate::link::Link;
use std::sync::Wait;
use std::thread::Threads;
use std::time::Clock;
use turn_cell::TurnSeat;
use vk_hub::HubState;
use vk_io::{Job, Pacer};
use vk_program::Program;
use vk_threads::{End, ProcessWork, process_end};

/// A job of a node: a process with its program, the clock, or what carries frames between the hub and the link.
#[derive(Drop)]
pub enum NodeWork<'s, 'a, 'p, G: Program, P: Pacer, L: Link, S: Start> {
    Process(ProcessWork<'a, G, Carrying<'s, 'a, L, S>>),
    Clock(NodeClock<'s, 'a, 'p, P, L, S>),
    Carrier(Carrier<'s, 'a, L, S>),
}

/// What a job of a node gives back.
#[derive(Drop)]
pub enum NodeEnd<L: Link> {
    Own { end: End },
    Carried { end: Carried<L> },
}

/// What the job gives back that carries frames: beside the seats of its port, its seat at the hub and the link.
#[derive(Drop)]
pub struct Carried<L: Link> {
    pub end: End,
    pub hub_seat: TurnSeat<HubState>,
    pub link: L,
}

impl<'s, 'a, 'p, G: Program + Send, P: Pacer + Send, L: Link + Send, S: Start + Send + Sync> Job
    for NodeWork<'s, 'a, 'p, G, P, L, S> {
    type End = NodeEnd<L>;

    ghost ends = { ends_as G.task L.handed L.sent L.fault_count };

    fn work<R: Wait + Threads + Clock + Sync>(self, rt: &R) -> NodeEnd<L> {
        match self {
            NodeWork::Process(job) => NodeEnd::Own {
                end: process_end(rt, job),
            },
            NodeWork::Clock(job) => NodeEnd::Own {
                end: clock_end(rt, job),
            },
            NodeWork::Carrier(job) => NodeEnd::Carried {
                end: carrier_end(rt, job),
            },
        }
    }
}
