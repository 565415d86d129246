//! The job that delivers what comes for a station.
ghost use Rattle.std.specs.Prelude.{◌≡◌, [], ◌∷◌, IfOk, IfErr};
ghost use Rattle.v_run.specs.Passages.{Pumps};
ghost use Rattle.vk_threads.specs.Ends.{MayEnd};
ghost use Rattle.vk_threads.specs.Works.{HasPumped, HasPumpedCut};

use crate::end::{End, Seats, close_port};
use std::alloc::Global;
use std::marker::Model;
use std::sync::Wait;
use turn_cell::Room;
use vk_base::NoMemory;
use vk_hub::{Arrival, Bells, Hub};
use vk_port::Port;

/// Delivers what comes for a station, until the hub has ended. There is room for the seats of its port.
#[derive(Drop)]
pub struct PumpWork<'a> {
    alloc: Global,
    hub: &'a Hub,
    host: u16,
    port: Port<'a>,
    seats: Vec<Seats>,
}

impl<'a> Model for PumpWork<'a> {
    ghost use Rattle.std.specs.Prelude.{◌≡◌, ◌≤◌, [], vec_capacity};
    ghost use Rattle.vk_port.specs.Ports.{PortValue};

    ghost Value = { PortValue };

    ghost view = { λ w. w.port };

    ghost invariant = { λ w. (w.port.hub ≡ w.hub.now) × (w.host ≡ w.port.host) × (w.seats.items ≡ []) × (1 ≤ vec_capacity w.seats) };
}

impl<'a> PumpWork<'a> {
    /// The job that delivers at this station.
    pub fn new(
        alloc: Global,
        hub: &'a Hub,
        host: u16,
        port: Port<'a>,
    ) -> Result<PumpWork<'a>, NoMemory>
        requires hub { port.hub ≡ hub.now }
        requires host { host ≡ port.host }
        ensures { IfOk result (λ w. w ≡ port.entry) }
    {
        let seats = Vec::with_capacity(alloc, 1)?;
        Ok(PumpWork {
            alloc,
            hub,
            host,
            port,
            seats,
        })
    }
}

/// Does the work.
pub fn pump_end<R: Wait>(rt: &R, work: PumpWork) -> End
    ensures { MayEnd (work.entry ∷ []) (Pumps ∷ []) 0 result.seats.items result.met }
{
    let PumpWork {
        alloc,
        hub,
        host,
        mut port,
        mut seats,
    } = work;
    match pump_on(rt, alloc, hub.bells(), host, &mut port) {
        Ok(()) => {
            seats.push_reserved(close_port(rt, port, hub, host, false));
            End { seats, met: None }
        }
        Err(why) => {
            let met = Some(why);
            seats.push_reserved(close_port(rt, port, hub, host, true));
            End { seats, met }
        }
    }
}

/// Delivers frame after frame, until the hub has ended. Where nothing came it sleeps until it is called: for a frame that comes while no
/// process waits at the station, or for the end.
pub fn pump_on<R: Wait>(
    rt: &R,
    alloc: Global,
    bells: &Bells,
    host: u16,
    port: &mut Port,
) -> Result<(), Room>
    ensures stopped { IfOk result (λ _. HasPumped port.old port.new) }
    ensures cut { IfErr result (λ why. HasPumpedCut port.old port.new why) }
{
    let bell = bells.of_pump(host);
    for _ in rt.forever() {
        let _called = bell.look();
        match port.pump_once(rt, alloc) {
            Ok(Arrival::Frame) => {}
            Ok(Arrival::Nothing) => bells.sleep(rt, bell),
            Ok(Arrival::Stopped) => return Ok(()),
            Err(why) => return Err(why),
        }
    }
    unreachable!()
}
