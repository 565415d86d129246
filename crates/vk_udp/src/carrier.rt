//! How frames are carried between the hub and the link, once; and the job that does it where no process does.
ghost use Rattle.std.specs.Prelude.{◌≡◌, ◌≤◌, [], true, None, Some, IfOk};
ghost use Rattle.turn_cell.specs.Seats.{IsSeatOf};
ghost use Rattle.v_node.specs.Links.{is_kept};
ghost use Rattle.vk_udp.specs.Carried.{HasBrought, HasFetchedFor, HasGoneRound, IsBrought, IsHubFull, IsPortFull, TellsHeard, asked_by, met_by, room_in, stops_in};
ghost use Rattle.vk_udp.specs.Jobs.{EndsCarried};

use crate::dock::{Dock, LeftOff, Start};
use crate::link::Link;
use crate::work::Carried;
use std::alloc::Global;
use std::marker::Model;
use std::sync::Wait;
use std::time::Clock;
use turn_cell::{Room, TurnSeat};
use vk_base::limits::LAST_NUMBER;
use vk_base::{FrameBytes, NoMemory};
use vk_event::StationPort;
use vk_frame::unseal;
use vk_hub::{Arrival, Bells, Delivery, Hub, HubOut, HubState};
use vk_io::Failed;
use vk_port::Port;
use vk_threads::{End, Seats};

/// The destination of a frame that is for all stations.
const TO_ALL: u16 = u16::MAX;

/// Between what frames are carried: the hub of this station, and the ports of all stations.
#[derive(Drop)]
pub struct Route<'a> {
    pub alloc: Global,
    pub hub: &'a Hub,
    pub host: u16,
    pub ports: &'a [StationPort],
}

/// Carries frames where no process does, until the hub has ended, and then takes back what carried them. There is room for the seats of its
/// port. `S` names what its dock began with.
#[derive(Drop)]
pub struct Carrier<'s, 'a, L: Link, S: Start> {
    hub: &'a Hub,
    host: u16,
    dock: &'s Dock<'a, L, S>,
    seats: Vec<Seats>,
}

impl<'s, 'a, L: Link, S: Start> Model for Carrier<'s, 'a, L, S> {
    ghost use Rattle.std.specs.Prelude.{◌≡◌, ◌≤◌, [], Option, vec_capacity};
    ghost use Rattle.vk_udp.specs.Values.{CarrierDuty};

    ghost Value = { Option CarrierDuty };

    ghost view = { λ w. S.duty };

    ghost invariant = { λ w. (w.seats.items ≡ []) × (1 ≤ vec_capacity w.seats) };
}

impl<'s, 'a, L: Link, S: Start> Carrier<'s, 'a, L, S> {
    /// The job of this dock.
    pub fn new(
        alloc: Global,
        hub: &'a Hub,
        host: u16,
        dock: &'s Dock<'a, L, S>,
    ) -> Result<Carrier<'s, 'a, L, S>, NoMemory>
        ensures { IfOk result (λ w. w ≡ S.duty) }
    {
        let seats = Vec::with_capacity(alloc, 1)?;
        Ok(Carrier {
            hub,
            host,
            dock,
            seats,
        })
    }
}

/// Does the work: it carries when it is called, or where all processes sleep or have ended.
pub fn carrier_end<L: Link, S: Start, R: Wait + Clock>(rt: &R, work: Carrier<L, S>) -> Carried<L>
    ensures { EndsCarried L.handed L.sent L.fault_count work.entry result }
{
    let Carrier {
        hub,
        host,
        dock,
        mut seats,
    } = work;
    carry_on(rt, hub.bells(), host, dock);
    dock.tell_traffic();
    let LeftOff {
        host,
        port,
        hub_seat,
        link,
        stop,
    } = dock.take(rt);
    let (seat, port_seat) = port.end();
    seats.push_reserved(Seats {
        host,
        seat,
        hub_seat: port_seat,
    });
    Carried {
        end: End {
            seats,
            met: met_by(stop),
        },
        hub_seat,
        link,
    }
}

/// Sends what is posted when it is called, and receives where it is called or all others sleep, until nothing is carried any more.
fn carry_on<L: Link, S: Start, R: Wait + Clock>(
    rt: &R,
    bells: &Bells,
    host: u16,
    dock: &Dock<L, S>,
) {
    let bell = bells.of_pump(host);
    let mut receives = bell.look();
    for _ in rt.forever() {
        if dock.send(rt) {
            return;
        }
        if receives {
            dock.receive(rt, bell);
        }
        let is_last = bells.sleep_unless_last(rt, bell);
        receives = bell.look() || is_last;
    }
}

/// Why it carries no more.
#[derive(Clone, Copy)]
pub enum Stop {
    /// The hub has ended.
    Ended,
    /// The link failed.
    Failed,
    /// A history does not grow.
    Met { why: Room },
}

/// The `Room` that it met.
fn met_by(stop: Stop) -> Option<Room>
    ensures { result ≡ met_by stop }
{
    match stop {
        Stop::Ended | Stop::Failed => None,
        Stop::Met { why } => Some(why),
    }
}

/// Places for what a fetch and a receive give, which are used again, and the greatest stamp of a frame that came.
#[derive(Drop)]
pub struct Place {
    fetched: HubOut,
    datagram: FrameBytes,
    delivery: Delivery,
    latest: u64,
}

impl Place {
    pub fn new() -> Place {
        Place {
            fetched: HubOut::new(),
            datagram: no_bytes(),
            delivery: Delivery::new(),
            latest: 0,
        }
    }

    /// The greatest stamp of a frame that came.
    pub fn latest(&self) -> u64 {
        self.latest
    }
}

fn no_bytes() -> FrameBytes
    ensures { result ≡ [] }
{
    match FrameBytes::new(&[]) {
        Some(bytes) => bytes,
        None => unreachable!(),
    }
}

/// What a round of fetches came to.
#[derive(Clone, Copy)]
pub struct Sent {
    /// A frame more waits for one of the stations.
    pub more: bool,
    /// The hub has ended.
    pub ended: bool,
}

/// Fetches once for each of these stations, in order, and sends what it got to that station's port.
pub fn send_each<L: Link, R: Wait + Clock>(
    rt: &R,
    route: &Route,
    hub_seat: &mut TurnSeat<HubState>,
    link: &mut L,
    place: &mut Place,
) -> Result<Sent, Room>
    requires { IsSeatOf route.now.hub.now hub_seat.old }
    ensures fetched { HasGoneRound route.now.hub.now.origin route.now.ports.now hub_seat.old hub_seat.new (L.sent link.old)
        (L.sent link.new) result }
    ensures full { room_in result ≡ Some Room.Full → IsHubFull hub_seat.new }
    ensures handed { L.handed link.new ≡ L.handed link.old }
    ensures faults { L.fault_count link.new ≡ L.fault_count link.old }
{
    let mut more = false;
    for there in route.ports {
        match send_one(rt, route, hub_seat, *there, link, &mut place.fetched) {
            Ok(sent) => {
                if sent.ended {
                    return Ok(sent);
                }
                more = more | sent.more;
            }
            Err(why) => return Err(why),
        }
    }
    Ok(Sent { more, ended: false })
}

/// Fetches once for this station, and sends what it got to the station's port.
fn send_one<L: Link, R: Wait + Clock>(
    rt: &R,
    route: &Route,
    hub_seat: &mut TurnSeat<HubState>,
    there: StationPort,
    link: &mut L,
    out: &mut HubOut,
) -> Result<Sent, Room>
    requires { IsSeatOf route.now.hub.now hub_seat.old }
    ensures fetched { HasFetchedFor route.now.hub.now.origin (asked_by there result) hub_seat.old hub_seat.new (L.sent link.old)
        (L.sent link.new) (stops_in result) }
    ensures full { room_in result ≡ Some Room.Full → IsHubFull hub_seat.new }
    ensures handed { L.handed link.new ≡ L.handed link.old }
    ensures faults { L.fault_count link.new ≡ L.fault_count link.old }
{
    let hub = route.hub;
    match hub.fetch_in_place(rt, route.alloc, hub_seat, there.host, out) {
        Ok(Arrival::Frame) => {
            link.send(rt, there.port, out.delivery.frame());
            Ok(Sent {
                more: out.more,
                ended: false,
            })
        }
        Ok(Arrival::Nothing) => Ok(Sent {
            more: false,
            ended: false,
        }),
        Ok(Arrival::Stopped) => Ok(Sent {
            more: false,
            ended: true,
        }),
        Err(why) => Err(why),
    }
}

/// What a receive came to.
#[derive(Drop)]
pub enum Heard {
    Nothing,
    Datagram,
    /// The link failed.
    Failed,
}

/// Receives once, and delivers what came where it is a frame for this station.
pub fn hear<L: Link, R: Wait + Clock>(
    rt: &R,
    route: &Route,
    port: &mut Port,
    link: &mut L,
    place: &mut Place,
) -> Result<Heard, Room>
    ensures brought { HasBrought route.now.host port.old port.new (L.handed link.old) (L.handed link.new) (room_in result) }
    ensures full { room_in result ≡ Some Room.Full → IsPortFull port.old port.new }
    ensures sent { L.sent link.new ≡ L.sent link.old }
    ensures faults { TellsHeard (L.fault_count link.old) (L.fault_count link.new) result }
{
    match link.receive(rt, &mut place.datagram) {
        Ok(true) => {
            place.latest = place.latest.max(stamp_of(route.host, &place.datagram));
            bring(rt, route, port, &place.datagram, &mut place.delivery)
        }
        Ok(false) => Ok(Heard::Nothing),
        Err(Failed) => Ok(Heard::Failed),
    }
}

/// Delivers the datagram where it is a frame for this station.
fn bring<R: Wait>(
    rt: &R,
    route: &Route,
    port: &mut Port,
    datagram: &FrameBytes,
    delivery: &mut Delivery,
) -> Result<Heard, Room>
    ensures { IsBrought route.now.host port.old port.new datagram.now result }
{
    if !is_kept(route.host, datagram.as_slice()) {
        return Ok(Heard::Datagram);
    }
    delivery.fill(datagram.as_slice());
    match port.deliver_in_place(rt, route.alloc, delivery) {
        Ok(()) => Ok(Heard::Datagram),
        Err(why) => Err(why),
    }
}

/// The stamp of a frame for the station, 0 where these bytes are none.
fn stamp_of(host: u16, datagram: &FrameBytes) -> u64 {
    let bytes = datagram.as_slice();
    match unseal(bytes) {
        Some((header, _)) if is_kept(host, bytes) => header.stamp,
        _ => 0,
    }
}

/// Whether these bytes are a frame for the station, with a Lamport number behind which there is another.
fn is_kept(host: u16, bytes: &[u8]) -> bool
    ensures { result ≡ is_kept host bytes.now }
{
    match unseal(bytes) {
        Some((header, _)) => {
            header.number != LAST_NUMBER
                && (header.destination == host || header.destination == TO_ALL)
        }
        None => false,
    }
}
