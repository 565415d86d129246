//! What jobs give back.
ghost use Rattle.std.specs.Prelude.{◌≡◌};
ghost use Rattle.vk_threads.specs.Works.{HasClosed, HasEnded};

use std::alloc::Global;
use std::sync::Wait;
use turn_cell::{Room, TurnSeat};
use vk_hub::{Hub, HubState};
use vk_port::{Port, Station};

/// The two seats of a port at this station.
#[derive(Drop)]
pub struct Seats {
    pub host: u16,
    pub seat: TurnSeat<Station>,
    pub hub_seat: TurnSeat<HubState>,
}

/// What a job gives back: the seats of its ports, in their order, and the `Room` that it met, if it met one.
#[derive(Drop)]
pub struct End {
    pub seats: Vec<Seats>,
    pub met: Option<Room>,
}

/// Takes both seats back, and halts the hub where it is to be halted.
pub fn close_port<R: Wait>(rt: &R, port: Port, hub: &Hub, host: u16, halts: bool) -> Seats
    requires { port.hub ≡ hub.now }
    ensures host { result.host ≡ host }
    ensures closed { HasClosed port.entry result.seat result.hub_seat halts }
{
    let (seat, mut hub_seat) = port.end();
    if halts {
        hub.stop(rt, &mut hub_seat);
    }
    Seats {
        host,
        seat,
        hub_seat,
    }
}

/// Takes both seats back, and tells the hub that a program has finished. Where there is no room for that, it halts the hub.
pub fn finish_port<R: Wait>(
    rt: &R,
    alloc: Global,
    port: Port,
    hub: &Hub,
    host: u16,
) -> (Seats, Option<Room>)
    requires { port.hub ≡ hub.now }
    ensures host { result.0.host ≡ host }
    ensures ended { HasEnded port.entry result.0.seat result.0.hub_seat result.1 }
{
    let (seat, mut hub_seat) = port.end();
    match hub.finished(rt, alloc, &mut hub_seat) {
        Ok(()) => {
            let seats = Seats {
                host,
                seat,
                hub_seat,
            };
            (seats, None)
        }
        Err(why) => {
            hub.stop(rt, &mut hub_seat);
            let seats = Seats {
                host,
                seat,
                hub_seat,
            };
            (seats, Some(why))
        }
    }
}
