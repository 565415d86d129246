//! The job that ticks all stations.
ghost use Rattle.std.specs.Prelude.{◌≡◌, ◌≤◌, [], map, IfOk, IfErr, vec_len, vec_capacity};
ghost use Rattle.vk_rules.specs.Each.{Each};
ghost use Rattle.vk_threads.specs.Clocks.{HaveGone, HaveLooked, HaveRounds, HaveRoundsCut, HaveTicked, HaveTickedCut, HaveWatched, is_stop, may_tick};
ghost use Rattle.vk_threads.specs.Ends.{ArePortsClosed, IsAt, MayEnd, port_host, ticking};

use crate::end::{End, Seats, close_port};
use std::alloc::Global;
use std::marker::Model;
use std::sync::{Mutex, Wait};
use std::time::Clock;
use turn_cell::Room;
use vk_base::NoMemory;
use vk_hub::{Arrival, Bells, Hub};
use vk_io::Pacer;
use vk_port::Port;

/// Ticks all stations, so many rounds or until the hub has ended. There is room for the seats of its ports.
#[derive(Drop)]
pub struct ClockWork<'a, 'p, P: Pacer> {
    alloc: Global,
    hub: &'a Hub,
    hosts: Vec<u16>,
    ports: Vec<Port<'a>>,
    rounds: u32,
    pacer: &'a Mutex<&'p mut P>,
    seats: Vec<Seats>,
}

impl<'a, 'p, P: Pacer> Model for ClockWork<'a, 'p, P> {
    ghost use Rattle.std.specs.Prelude.{◌≡◌, ◌≤◌, [], map, vec_len, vec_capacity};
    ghost use Rattle.vk_rules.specs.Each.{Each};
    ghost use Rattle.vk_threads.specs.Clocks.{may_tick};
    ghost use Rattle.vk_threads.specs.Duties.{ClockDuty};
    ghost use Rattle.vk_threads.specs.Ends.{IsAt, port_host};

    ghost Value = { ClockDuty };

    ghost view = { λ w. record { ports = w.ports.items; rounds = w.rounds } };

    ghost invariant = { λ w. Each (IsAt w.hub.now) w.ports.items × (map port_host w.ports.items ≡ w.hosts.items)
        × Each may_tick w.ports.items × (w.seats.items ≡ []) × (vec_len w.ports ≤ vec_capacity w.seats) };
}

impl<'a, 'p, P: Pacer> ClockWork<'a, 'p, P> {
    /// The clock of these stations, with its ports.
    pub fn new(
        alloc: Global,
        hub: &'a Hub,
        hosts: Vec<u16>,
        ports: Vec<Port<'a>>,
        rounds: u32,
        pacer: &'a Mutex<&'p mut P>,
    ) -> Result<ClockWork<'a, 'p, P>, NoMemory>
        requires hub { Each (IsAt hub.now) ports.items }
        requires hosts { map port_host ports.items ≡ hosts.items }
        requires may { Each may_tick ports.items }
        ensures { IfOk result (λ w. w ≡ record { ports = ports.entry.items; rounds = rounds }) }
    {
        let seats = Vec::with_capacity(alloc, ports.len())?;
        Ok(ClockWork {
            alloc,
            hub,
            hosts,
            ports,
            rounds,
            pacer,
            seats,
        })
    }
}

/// Does the work.
pub fn clock_end<P: Pacer, R: Wait + Clock>(rt: &R, work: ClockWork<P>) -> End
    ensures { MayEnd work.entry.ports (ticking work.entry.ports) work.entry.rounds result.seats.items result.met }
{
    let ClockWork {
        alloc,
        hub,
        hosts,
        mut ports,
        rounds,
        pacer,
        mut seats,
    } = work;
    match run_clock(rt, alloc, hub.bells(), ports.as_mut_slice(), rounds, pacer) {
        Ok(halts) => {
            close_all(rt, ports, &hosts, hub, halts, &mut seats);
            End { seats, met: None }
        }
        Err(why) => {
            close_all(rt, ports, &hosts, hub, true, &mut seats);
            End {
                seats,
                met: Some(why),
            }
        }
    }
}

/// Takes the seats of all ports back, and halts the hub by the first of them where it is to be halted.
fn close_all<R: Wait>(
    rt: &R,
    ports: Vec<Port>,
    hosts: &[u16],
    hub: &Hub,
    halts: bool,
    seats: &mut Vec<Seats>,
)
    requires at_hub { Each (IsAt hub.now) ports.items }
    requires at_hosts { map port_host ports.items ≡ hosts.now }
    requires empty { seats.old.items ≡ [] }
    requires room { vec_len ports ≤ vec_capacity seats.old }
    ensures { ArePortsClosed ports.entry.items seats.new.items halts }
{
    let mut left = halts;
    let mut at = 0;
    for port in ports {
        seats.push_reserved(close_port(rt, port, hub, hosts[at], left));
        left = false;
        at += 1;
    }
}

/// Ticks each station once.
fn tick_each<R: Wait>(rt: &R, alloc: Global, ports: &mut [Port]) -> Result<(), Room>
    requires { Each may_tick ports.old }
    ensures ticked { IfOk result (λ _. HaveTicked 1 1 0 ports.old ports.new) }
    ensures cut { IfErr result (HaveTickedCut 0 1 0 ports.old ports.new) }
{
    for port in ports.iter_mut() {
        match port.tick(rt, alloc) {
            Ok(_) => {}
            Err(why) => return Err(why),
        }
    }
    Ok(())
}

/// Whether the first port hears that the hub has ended.
fn has_ended<R: Wait>(rt: &R, alloc: Global, ports: &mut [Port]) -> Result<bool, Room>
    ensures ended { IfOk result (HaveLooked ports.old ports.new) }
    ensures cut { IfErr result (HaveTickedCut 0 0 1 ports.old ports.new) }
{
    match look(rt, alloc, ports) {
        Ok(Arrival::Stopped) => Ok(true),
        Ok(Arrival::Frame) => Ok(false),
        Ok(Arrival::Nothing) => Ok(false),
        Err(why) => Err(why),
    }
}

/// What the first port hears: that the hub has ended, a frame, which it delivers, or nothing.
fn look<R: Wait>(rt: &R, alloc: Global, ports: &mut [Port]) -> Result<Arrival, Room>
    ensures looked { IfOk result (λ a. HaveLooked ports.old ports.new (is_stop a)) }
    ensures cut { IfErr result (HaveTickedCut 0 0 1 ports.old ports.new) }
{
    if ports.is_empty() {
        return Ok(Arrival::Nothing);
    }
    match ports[0].pump_once(rt, alloc) {
        Ok(Arrival::Stopped) => Ok(Arrival::Stopped),
        Ok(Arrival::Frame) => Ok(Arrival::Frame),
        Ok(Arrival::Nothing) => Ok(Arrival::Nothing),
        Err(why) => Err(why),
    }
}

/// Waits once.
fn wait_once<P: Pacer, R: Wait + Clock>(rt: &R, pacer: &Mutex<&mut P>) {
    let mut held = pacer.lock(rt);
    held.wait(rt);
}

/// Ticks all stations so many rounds, and waits then, until the hub has ended or nothing can happen any more. Whether nothing can: then
/// the hub is to be halted.
pub fn run_clock<P: Pacer, R: Wait + Clock>(
    rt: &R,
    alloc: Global,
    bells: &Bells,
    ports: &mut [Port],
    rounds: u32,
    pacer: &Mutex<&mut P>,
) -> Result<bool, Room>
    requires { Each may_tick ports.old }
    ensures ran { IfOk result (λ _. HaveRounds rounds ports.old ports.new) }
    ensures cut { IfErr result (HaveRoundsCut rounds ports.old ports.new) }
{
    match tick_on(rt, alloc, ports, rounds, pacer) {
        Ok(true) => Ok(false),
        Ok(false) => watch(rt, alloc, bells, ports),
        Err(why) => Err(why),
    }
}

/// Waits until the hub has ended, or until all others sleep and nothing has come since. Whether they sleep.
fn watch<R: Wait>(rt: &R, alloc: Global, bells: &Bells, ports: &mut [Port]) -> Result<bool, Room>
    ensures watched { IfOk result (HaveWatched ports.old ports.new) }
    ensures cut { IfErr result (HaveTickedCut 0 0 1 ports.old ports.new) }
{
    let bell = bells.of_clock();
    for _ in rt.forever() {
        let _called = bell.look();
        let is_last = bells.is_last();
        match look(rt, alloc, ports) {
            Ok(Arrival::Stopped) => return Ok(false),
            Ok(Arrival::Frame) => {}
            Ok(Arrival::Nothing) => {
                if is_last {
                    return Ok(true);
                }
                bells.sleep(rt, bell);
            }
            Err(why) => return Err(why),
        }
    }
    unreachable!()
}

/// Waits and ticks all stations, so many times, or until the hub has ended. Whether it has.
pub fn tick_on<P: Pacer, R: Wait + Clock>(
    rt: &R,
    alloc: Global,
    ports: &mut [Port],
    rounds: u32,
    pacer: &Mutex<&mut P>,
) -> Result<bool, Room>
    requires { Each may_tick ports.old }
    ensures ticked { IfOk result (HaveGone rounds ports.old ports.new) }
    ensures cut { IfErr result (HaveRoundsCut rounds ports.old ports.new) }
{
    for _ in 0..rounds {
        wait_once(rt, pacer);
        match tick_each(rt, alloc, ports) {
            Ok(()) => {}
            Err(why) => return Err(why),
        }
        match has_ended(rt, alloc, ports) {
            Ok(true) => return Ok(true),
            Ok(false) => {}
            Err(why) => return Err(why),
        }
    }
    Ok(false)
}
