// A station of two processes under a turn, and a port at it.
ghost use Rattle.std.specs.Prelude.{◌≡◌, ◌≤◌, ◌<◌, [], true, None, IfSome, vec_capacity};
ghost use Rattle.turn_cell.specs.Seats.{IsComplete, IsSameSeat, IsSeatOf};
ghost use Rattle.vk_port.specs.Stations.{is_process_of};

use std::alloc::Global;
use std::sync::Wait;
use std::test::Fail;
use turn_cell::{Ready, Room, TurnCell, TurnSeat};
use vk_base::{
    Call, CallOutcome, Config, EventAnswer, Message, Pid, ProcessSpec, StationEvent, Times,
};
use vk_hub::{Hub, HubState};
use vk_port::{Collected, Port, Pumped, Station, StationOut};
use vk_schedule::LinkPlan;

const TIMES: Times = Times {
    tries: 5,
    interval: 4,
    life: 8,
};

/// The configuration of these processes, where there is one, with the times of all tests here and a pool of 16.
pub fn config_of(alloc: Global, specs: &[ProcessSpec]) -> Option<Config> {
    match Config::new(alloc, TIMES, 16, specs) {
        Ok(config) => Some(config),
        Err(_) => None,
    }
}

/// A process of these numbers, with 64 bytes of memory.
pub fn process(host: u16, local: u16) -> ProcessSpec
    requires { (0 < host) × (host < 65535) × (0 < local) }
{
    ProcessSpec {
        pid: Pid { host, local },
        size: 64,
    }
}

/// The cell of a station, its one seat, and the empty list that the seat came in.
#[derive(Drop)]
struct Site {
    cell: TurnCell<Station>,
    seat: TurnSeat<Station>,
    seats: Vec<TurnSeat<Station>>,
}

fn open_site(alloc: Global, config: &Config, host: u16) -> Option<Site>
    ensures seat { IfSome result (λ s. IsSeatOf s.cell s.seat × IsComplete s.seat × (s.cell.seats ≡ 1)) }
    ensures station { IfSome result (λ s. (s.cell.origin.config ≡ config.now) × (s.cell.origin.host ≡ host)) }
    ensures room { IfSome result (λ s. (s.seats.items ≡ []) × (1 ≤ vec_capacity s.seats)) }
{
    if !config.has_station(host) {
        return None;
    }
    let Ok(station) = Station::new(alloc, config, host) else {
        return None;
    };
    let Ok((cell, mut seats)) = TurnCell::new(alloc, station, 1) else {
        return None;
    };
    let seat = seats.pop()?;
    Some(Site { cell, seat, seats })
}

/// Station 1, of the processes `one` and `two`.
#[derive(Drop)]
struct Pair {
    site: Site,
    one: Pid,
    two: Pid,
}

fn open_pair(alloc: Global) -> Option<Pair>
    ensures seat { IfSome result (λ p. IsSeatOf p.site.cell p.site.seat × IsComplete p.site.seat × (p.site.cell.seats ≡ 1)) }
    ensures station { IfSome result (λ p. p.site.cell.origin.host ≡ 1) }
    ensures one { IfSome result (λ p. is_process_of p.site.cell.origin p.one ≡ true) }
    ensures two { IfSome result (λ p. is_process_of p.site.cell.origin p.two ≡ true) }
    ensures room { IfSome result (λ p. (p.site.seats.items ≡ []) × (1 ≤ vec_capacity p.site.seats)) }
{
    let config = config_of(alloc, &[process(1, 1), process(1, 2)])?;
    let one = Pid { host: 1, local: 1 };
    let two = Pid { host: 1, local: 2 };
    if !config.has_process(one) || !config.has_process(two) {
        return None;
    }
    let site = open_site(alloc, &config, 1)?;
    Some(Pair { site, one, two })
}

/// A hub of two stations and one program, and its one seat.
fn hub(alloc: Global) -> Option<(Hub, TurnSeat<HubState>)>
    ensures { IfSome result (λ made. IsSeatOf made.0 made.1 × IsComplete made.1) }
{
    let config = config_of(alloc, &[process(1, 1), process(2, 1)])?;
    let plan = LinkPlan {
        lose: 0,
        double: 0,
        hold: 0,
        seed: 0,
    };
    let Ok((hub, mut seats)) = Hub::new(alloc, &config, plan, 1, 1) else {
        return None;
    };
    Some((hub, seats.pop()?))
}

// The number of the station's events, once its one seat has come back.
fn count_of(
    cell: TurnCell<Station>,
    mut seats: Vec<TurnSeat<Station>>,
    seat: TurnSeat<Station>,
) -> u32
    requires cell { cell.seats ≡ 1 }
    requires seat { IsSeatOf cell seat }
    requires room { (seats.items ≡ []) × (1 ≤ vec_capacity seats) }
{
    seats.push_reserved(seat);
    cell.close(seats).event_count()
}

#[test]
fn collect_waits_for_the_answer(rt: HostRuntime) -> Result<(), Fail> {
    let alloc = rt.alloc();
    let Some(Pair { site, one: _, two }) = open_pair(alloc) else {
        panic!(rt; "no memory")
    };
    let Site {
        cell,
        mut seat,
        seats,
    } = site;
    let Ok(mut out) = StationOut::new(alloc, 64) else {
        panic!(rt; "no memory")
    };
    let receive = StationEvent::Call {
        pid: two,
        call: Call::Receive,
    };
    assert!(rt; cell.step(&rt, alloc, &mut seat, &receive, &mut out).is_ok());
    assert!(rt; matches!(out.answer(), Some(EventAnswer::Begun)));
    let collect = StationEvent::Collect { pid: two };
    let early = cell.step_when_ready(&rt, alloc, &mut seat, &collect, &mut out);
    assert!(rt; early == Ok(Ready::NotYet));
    assert!(rt; count_of(cell, seats, seat) == 1);
    Ok(())
}

#[test]
fn new_port_has_nothing_to_deliver(rt: HostRuntime) -> Result<(), Fail> {
    let alloc = rt.alloc();
    let (Some(Pair { site, .. }), Some((hub, hub_seat))) = (open_pair(alloc), hub(alloc)) else {
        panic!(rt; "no memory")
    };
    let Site { cell, seat, seats } = site;
    let Ok(mut port) = Port::new(alloc, 1, &cell, seat, &hub, hub_seat, true) else {
        panic!(rt; "no memory")
    };
    assert!(rt; matches!(port.pump(&rt, alloc), Ok(Pumped::Nothing)));
    assert!(rt; matches!(port.tick(&rt, alloc), Ok(1)));
    let (seat, _hub_seat) = port.end();
    assert!(rt; count_of(cell, seats, seat) == 1);
    Ok(())
}

// Whether the process has begun to receive.
fn receives<R: Wait>(rt: &R, alloc: Global, port: &mut Port, pid: Pid) -> bool
    requires { is_process_of port.old.station.origin pid ≡ true }
    ensures { port.new.station ≡ port.old.station }
{
    matches!(
        port.call(rt, alloc, pid, &Call::Receive),
        Ok(CallOutcome::Begun)
    )
}

// Whether the process has begun to send to the other.
fn sends<R: Wait>(rt: &R, alloc: Global, port: &mut Port, pid: Pid, target: Pid) -> bool
    requires { is_process_of port.old.station.origin pid ≡ true }
    ensures { port.new.station ≡ port.old.station }
{
    let send = Call::Send {
        target,
        message: Message([8; 32]),
    };
    matches!(port.call(rt, alloc, pid, &send), Ok(CallOutcome::Begun))
}

#[test]
fn answer_is_collected(rt: HostRuntime) -> Result<(), Fail> {
    let alloc = rt.alloc();
    let (Some(Pair { site, one, two }), Some((hub, hub_seat))) = (open_pair(alloc), hub(alloc))
    else {
        panic!(rt; "no memory")
    };
    let Site { cell, seat, .. } = site;
    let Ok(mut port) = Port::new(alloc, 1, &cell, seat, &hub, hub_seat, false) else {
        panic!(rt; "no memory")
    };
    assert!(rt; receives(&rt, alloc, &mut port, two) && sends(&rt, alloc, &mut port, one, two));
    assert!(rt;
        matches!(
            port.collect_waiting(&rt, alloc, two),
            Ok(Collected::Answered { .. })
        )
    );
    Ok(())
}

#[test]
fn wait_ends_with_the_hub(rt: HostRuntime) -> Result<(), Fail> {
    let alloc = rt.alloc();
    let (Some(Pair { site, two, .. }), Some((hub, mut hub_seat))) = (open_pair(alloc), hub(alloc))
    else {
        panic!(rt; "no memory")
    };
    let Site { cell, seat, .. } = site;
    hub.stop(&rt, &mut hub_seat);
    let Ok(mut port) = Port::new(alloc, 1, &cell, seat, &hub, hub_seat, false) else {
        panic!(rt; "no memory")
    };
    assert!(rt; receives(&rt, alloc, &mut port, two));
    assert!(rt;
        matches!(
            port.collect_waiting(&rt, alloc, two),
            Ok(Collected::Stopped)
        )
    );
    Ok(())
}

// The first of sixteen stations.
fn crowded(alloc: Global) -> Option<Site>
    ensures seat { IfSome result (λ s. IsSeatOf s.cell s.seat × (s.cell.seats ≡ 1)) }
    ensures room { IfSome result (λ s. (s.seats.items ≡ []) × (1 ≤ vec_capacity s.seats)) }
{
    let specs = [
        process(1, 1),
        process(2, 1),
        process(3, 1),
        process(4, 1),
        process(5, 1),
        process(6, 1),
        process(7, 1),
        process(8, 1),
        process(9, 1),
        process(10, 1),
        process(11, 1),
        process(12, 1),
        process(13, 1),
        process(14, 1),
        process(15, 1),
        process(16, 1),
    ];
    let config = config_of(alloc, &specs)?;
    open_site(alloc, &config, 1)
}

// Enters one more tick.
fn ticks<R: Wait>(
    rt: &R,
    alloc: Global,
    cell: &TurnCell<Station>,
    seat: &mut TurnSeat<Station>,
    out: &mut StationOut,
) -> Result<(), Room>
    requires seat { IsSeatOf cell.now seat.old }
    requires room { 2048 ≤ out.old.room }
    ensures seat { IsSameSeat seat.old seat.new }
    ensures room { 2048 ≤ out.new.room }
{
    cell.step(rt, alloc, seat, &StationEvent::Tick, out)
}

#[test]
fn full_station_keeps_its_length(rt: HostRuntime) -> Result<(), Fail> {
    let alloc = rt.alloc();
    let (Some(site), Ok(mut out)) = (crowded(alloc), StationOut::new(alloc, 2_048)) else {
        panic!(rt; "no memory")
    };
    let Site {
        cell,
        mut seat,
        seats,
    } = site;
    for _event in 0..6_250 {
        assert!(rt; ticks(&rt, alloc, &cell, &mut seat, &mut out).is_ok());
    }
    let more = ticks(&rt, alloc, &cell, &mut seat, &mut out);
    assert!(rt; more == Err(Room::Full));
    assert!(rt; count_of(cell, seats, seat) == 6_250);
    Ok(())
}
