//! The job that ticks the station.
ghost use Rattle.std.specs.Prelude.{◌≡◌, ◌≤◌, [], true, None, Some, IfErr, IfOk, if◌then◌else◌};
ghost use Rattle.vk_udp.specs.Clocked.{HasClocked, HasLookedOn, HasStopped};
ghost use Rattle.vk_port.specs.Ports.{IsCutPump, IsRefused};
ghost use Rattle.vk_udp.specs.Jobs.{EndsClock};

use crate::beat::Beat;
use crate::dock::Start;
use crate::link::Link;
use std::alloc::Global;
use std::marker::Model;
use std::sync::Wait;
use std::time::Clock;
use turn_cell::Room;
use vk_base::NoMemory;
use vk_hub::Hub;
use vk_io::Pacer;
use vk_port::{Port, Pumped};
use vk_threads::{End, Seats};

/// Ticks the station, so many rounds or until the hub has ended, and then stops the hub. There is room for the seats of its port.
#[derive(Drop)]
pub struct NodeClock<'s, 'a, 'p, P: Pacer, L: Link, S: Start> {
    alloc: Global,
    hub: &'a Hub,
    host: u16,
    port: Port<'a>,
    rounds: u32,
    beat: Beat<'s, 'a, 'p, P, L, S>,
    seats: Vec<Seats>,
}

impl<'s, 'a, 'p, P: Pacer, L: Link, S: Start> Model for NodeClock<'s, 'a, 'p, P, L, S> {
    ghost use Rattle.std.specs.Prelude.{◌≡◌, ◌≤◌, [], true, vec_capacity};
    ghost use Rattle.vk_udp.specs.Values.{ClockDuty};

    ghost Value = { ClockDuty };

    ghost view = { λ w. record { port = w.port; rounds = w.rounds } };

    ghost invariant = { λ w. (w.port.hub ≡ w.hub.now) × (w.host ≡ w.port.host) × (w.port.ticks ≡ true) × (w.seats.items ≡ [])
        × (1 ≤ vec_capacity w.seats) };
}

impl<'s, 'a, 'p, P: Pacer, L: Link, S: Start> NodeClock<'s, 'a, 'p, P, L, S> {
    /// The clock of this port.
    pub fn new(
        alloc: Global,
        hub: &'a Hub,
        host: u16,
        port: Port<'a>,
        rounds: u32,
        beat: Beat<'s, 'a, 'p, P, L, S>,
    ) -> Result<NodeClock<'s, 'a, 'p, P, L, S>, NoMemory>
        requires hub { port.hub ≡ hub.now }
        requires host { host ≡ port.host }
        requires may { port.ticks ≡ true }
        ensures { IfOk result (λ w. w ≡ record { port = port.entry; rounds = rounds }) }
    {
        let seats = Vec::with_capacity(alloc, 1)?;
        Ok(NodeClock {
            alloc,
            hub,
            host,
            port,
            rounds,
            beat,
            seats,
        })
    }
}

/// Does the work.
pub fn clock_end<P: Pacer, L: Link, S: Start, R: Wait + Clock>(
    rt: &R,
    work: NodeClock<P, L, S>,
) -> End
    ensures { EndsClock work.entry.port work.entry.rounds result.seats.items result.met }
{
    let NodeClock {
        alloc,
        hub,
        host,
        mut port,
        rounds,
        mut beat,
        mut seats,
    } = work;
    beat.begin(rt, rounds);
    let met = tick_on(rt, alloc, &mut port, rounds, &mut beat);
    seats.push_reserved(stop_port(rt, port, hub, host));
    End { seats, met }
}

/// Waits and ticks the station, so many times, or until the hub has ended. Gives the `Room` that it met, if it met one.
fn tick_on<P: Pacer, L: Link, S: Start, R: Wait + Clock>(
    rt: &R,
    alloc: Global,
    port: &mut Port,
    rounds: u32,
    beat: &mut Beat<P, L, S>,
) -> Option<Room>
    requires { port.old.ticks ≡ true }
    ensures { HasClocked port.old port.new rounds result }
{
    for _ in 0..rounds {
        beat.wait(rt);
        match port.tick(rt, alloc) {
            Ok(now) => beat.see_to_link(rt, now, port.has_posted()),
            Err(why) => return Some(why),
        }
        match has_ended(rt, alloc, port) {
            Ok(true) => return None,
            Ok(false) => {}
            Err(why) => return Some(why),
        }
    }
    None
}

/// Whether the port hears that the hub has ended.
fn has_ended<R: Wait>(rt: &R, alloc: Global, port: &mut Port) -> Result<bool, Room>
    ensures looked { IfOk result (HasLookedOn port.old port.new) }
    ensures cut { IfErr result (λ why. IsRefused port.old port.new why [] (IsCutPump port.old.station.origin port.old.host)) }
{
    match port.pump(rt, alloc) {
        Ok(Pumped::Stopped) => Ok(true),
        Ok(Pumped::Delivered { .. }) => Ok(false),
        Ok(Pumped::Nothing) => Ok(false),
        Err(why) => Err(why),
    }
}

/// Takes both seats back, and stops the hub.
fn stop_port<R: Wait>(rt: &R, port: Port, hub: &Hub, host: u16) -> Seats
    requires { port.hub ≡ hub.now }
    ensures host { result.host ≡ host }
    ensures stopped { HasStopped port.entry result.seat result.hub_seat }
{
    let (seat, mut hub_seat) = port.end();
    hub.stop(rt, &mut hub_seat);
    Seats {
        host,
        seat,
        hub_seat,
    }
}
