//! A node: one station in a program of its own.
ghost use Rattle.std.specs.Prelude.{◌≡◌, ◌==◌, ◌≤◌, ◌+◌, ◌-◌, ◌^◌, min, [], true, Some, find, length, map, option_map, IfOk};
ghost use Rattle.turn_cell.specs.Seats.{IsSeatOf};
ghost use Rattle.vk_base.specs.declared.limits.TheConstants.{PROCESSES};
ghost use Rattle.vk_base.specs.Settings.{has_station};
ghost use Rattle.vk_event.specs.Ports.{has_port};
ghost use Rattle.vk_event.specs.declared.port.StationPort.{StationPort as ThePort};
ghost use Rattle.vk_port.specs.Stations.{is_process_of};
ghost use Rattle.vk_program.specs.declared.assigned.Assigned.{Assigned};
ghost use Rattle.vk_rules.specs.Each.{Each};
ghost use Rattle.vk_threads.specs.Assigned.{AreDifferent, pid_of, program_task};
ghost use Rattle.vk_udp.specs.Dealt.{IsStocked};
ghost use Rattle.vk_udp.specs.Docked.{IsCargo, duty_of};
ghost use Rattle.vk_udp.specs.Ended.{HasRunDocked, HasRunNodeJobs};
ghost use Rattle.vk_udp.specs.Node.{HasSent, HavePort, IsNodeRecord, IsProcessAt, TellsCrew, TellsNodeFault, TellsNodeJobs};

use crate::carrier::Route;
use crate::deal::{Line, NodeRoster, NodeStock, jobs_of};
use crate::dock::{Cargo, Dock, Start};
use crate::gather::NodeSite;
use crate::link::{Link, Wire};
use crate::record::{NodeRecord, NodeRefusal, record_of};
use crate::work::NodeEnd;
use std::alloc::Global;
use std::marker::Brand;
use std::net::Net;
use std::sync::{Mutex, Wait};
use std::thread::Threads;
use std::time::Clock;
use turn_cell::{TurnCell, TurnSeat};
use vk_base::{Config, Times};
use vk_event::{LinkPlan, StationPort};
use vk_hub::{Hub, HubState};
use vk_io::{Crew, CrewError, Pacer};
use vk_port::Station;
use vk_program::{Assigned, Program};
use vk_threads::{HubHalt, take_hub_seat};

/// Deals seats to jobs and has the crew run them, where what carries frames begins with this. Gives what they ended with, and the seat of
/// the halt, which has halted nothing.
fn run_docked<
    'a,
    'p,
    G: Program + Send,
    C: Crew,
    P: Pacer + Send,
    L: Link + Send,
    S: Start + Send + Sync,
    R: Wait + Threads + Clock + Sync,
>(
    rt: &R,
    stock: NodeStock<'a>,
    halt: TurnSeat<HubState>,
    roster: NodeRoster<'a, 'p, G, P>,
    cargo: Cargo<'a, L>,
    crew: &mut C,
) -> Result<(Vec<NodeEnd<L>>, TurnSeat<HubState>), NodeRefusal>
    requires halt { IsSeatOf stock.hub.now halt }
    requires unhalted { halt.mine ≡ [] }
    requires stock { IsStocked stock.cell.now stock.hub.now stock.host (length roster.programs.items + 1) stock.seats.items
        stock.hub_seats.items }
    requires processes { Each (λ (a : Assigned G). is_process_of stock.cell.now.origin a.pid ≡ true) roster.programs.items }
    requires fresh { Each (λ (a : Assigned G). G.is_after a.program []) roster.programs.items }
    requires cargo { IsCargo cargo.route.host cargo.route.hub.now cargo.port cargo.hub_seat }
    requires start { S.duty ≡ Some (duty_of L.handed L.sent L.fault_count cargo.port cargo.hub_seat cargo.route.ports.now cargo.link) }
    ensures ended { IfOk result (λ r. HasRunDocked G.task L.handed L.sent L.fault_count stock.entry.cell.now stock.entry.hub.now
        stock.entry.host roster.entry.programs.items roster.entry.rounds
        (duty_of L.handed L.sent L.fault_count cargo.entry.port cargo.entry.hub_seat cargo.entry.route.ports.now cargo.entry.link)
        r.0.items r.1) }
    ensures crew { TellsCrew (C.fault_count crew.old) (C.fault_count crew.new) (C.job_count crew.old)
        (min (C.job_count crew.old + (length roster.entry.programs.items + 2)) (2 ^ 64 - 1)) (C.job_count crew.new) result }
{
    let (alloc, hub) = (stock.alloc, stock.hub);
    let mut halt = HubHalt::new(hub, halt);
    let dock = Dock::<L, S>::new(cargo);
    let Ok(jobs) = jobs_of(stock, roster, &dock) else {
        return Err(NodeRefusal::NoMemory);
    };
    match crew.run_all(rt, alloc, jobs, &mut halt) {
        Ok(ends) => Ok((ends, halt.into_seat())),
        Err(CrewError::Failed) => Err(NodeRefusal::CrewFault),
        Err(CrewError::NoMemory) => Err(NodeRefusal::NoMemory),
    }
}

/// The same, where frames are carried to these ports over this link, by this seat at the hub and a port with the next two seats.
fn run_jobs<
    'a,
    'p,
    G: Program + Send,
    C: Crew,
    P: Pacer + Send,
    L: Link + Send,
    R: Wait + Threads + Clock + Sync,
>(
    rt: &R,
    stock: NodeStock<'a>,
    halt: TurnSeat<HubState>,
    roster: NodeRoster<'a, 'p, G, P>,
    line: Line<'a, L>,
    crew: &mut C,
) -> Result<(Vec<NodeEnd<L>>, TurnSeat<HubState>), NodeRefusal>
    requires halt { IsSeatOf stock.hub.now halt }
    requires unhalted { halt.mine ≡ [] }
    requires stock { IsStocked stock.cell.now stock.hub.now stock.host (length roster.programs.items + 2) stock.seats.items
        stock.hub_seats.items }
    requires processes { Each (λ (a : Assigned G). is_process_of stock.cell.now.origin a.pid ≡ true) roster.programs.items }
    requires fresh { Each (λ (a : Assigned G). G.is_after a.program []) roster.programs.items }
    requires seat { IsSeatOf stock.hub.now line.fetches }
    ensures ended { IfOk result (λ r. HasRunNodeJobs G.task L.handed L.sent L.fault_count stock.entry.cell.now
        stock.entry.hub.now stock.entry.host roster.entry.programs.items roster.entry.rounds line.entry.ports.now line.entry.fetches
        line.entry.link r.0.items r.1) }
    ensures crew { TellsCrew (C.fault_count crew.old) (C.fault_count crew.new) (C.job_count crew.old)
        (min (C.job_count crew.old + (length roster.entry.programs.items + 2)) (2 ^ 64 - 1)) (C.job_count crew.new) result }
{
    let Line {
        ports,
        fetches,
        link,
    } = line;
    let mut stock = stock;
    let Ok(port) = stock.port(false) else {
        return Err(NodeRefusal::NoMemory);
    };
    let route = Route {
        alloc: stock.alloc,
        hub: stock.hub,
        host: stock.host,
        ports,
    };
    let cargo = Cargo {
        route,
        port,
        hub_seat: fetches,
        link,
    };
    run_docked::<G, C, P, L, Brand, R>(rt, stock, halt, roster, cargo, crew)
}

/// The port of the station.
fn port_of(ports: &[StationPort], host: u16) -> u16
    requires { has_port ports.now host ≡ true }
    ensures { option_map (λ (p : ThePort). p.port) (find (λ (p : ThePort). p.host == host) ports.now) ≡ Some result }
{
    for port in ports {
        if port.host == host {
            return port.port;
        }
    }
    unreachable!()
}

/// How many programs there are, one for a process at most.
fn count_of<G: Program>(config: &Config, host: u16, programs: &[Assigned<G>]) -> u32
    requires processes { Each (IsProcessAt config.now.specs host) programs.now }
    requires apart { AreDifferent (map pid_of programs.now) }
    ensures count { result ≡ length programs.now }
    ensures few { result ≤ PROCESSES }
{
    let _processes = config.specs();
    programs.len() as u32
}

/// Runs the programs of one station, with the wire as its link to the others: what is posted for another station is sent to its port,
/// and what comes at this station's port and is for it is delivered. There are at most so many rounds of ticks; behind them, programs that
/// still wait end early. The wire's link is opened before the jobs run, and taken back when they have ended.
///
/// # Errors
///
/// [`NodeRefusal::LinkFault`] where the wire opened no link, or the link failed, also where the node was limited.
/// [`NodeRefusal::CrewFault`] where the crew failed. [`NodeRefusal::NoMemory`] where memory is wanting.
pub fn run_node<
    G: Program + Send,
    C: Crew,
    P: Pacer + Send,
    W: Wire,
    R: Wait + Threads + Clock + Net + Sync,
>(
    rt: &R,
    alloc: Global,
    config: Config,
    host: u16,
    programs: Vec<Assigned<G>>,
    plan: LinkPlan,
    rounds: u32,
    ports: &[StationPort],
    crew: &mut C,
    pacer: &mut P,
    wire: &mut W,
) -> Result<NodeRecord, NodeRefusal>
    requires station { has_station config.specs host ≡ true }
    requires processes { Each (IsProcessAt config.specs host) programs.items }
    requires apart { AreDifferent (map pid_of programs.items) }
    requires fresh { Each (λ (a : Assigned G). G.is_after a.program []) programs.items }
    requires ports { HavePort config.specs host ports.now }
    ensures ran { IfOk result (λ r. IsNodeRecord config host rounds (map (program_task G.task) programs.items) (W.handed wire.old)
        (W.handed wire.new) r.limited r.log) }
    ensures sent { IfOk result (λ r. HasSent config host plan ports.now r.log.events (W.sent wire.old) (W.sent wire.new)) }
    ensures jobs { TellsNodeJobs (C.job_count crew.old) (min (C.job_count crew.old + (length programs.items + 2)) (2 ^ 64 - 1))
        (C.job_count crew.new) result }
    ensures fault { TellsNodeFault (W.fault_count wire.old) (W.fault_count wire.new) (C.fault_count crew.old) (C.fault_count crew.new)
        result }
{
    let count = count_of(&config, host, &programs);
    let Ok(link) = wire.open(rt, port_of(ports, host)) else {
        return Err(NodeRefusal::LinkFault);
    };
    let Ok(station) = Station::new(alloc, &config, host) else {
        return Err(NodeRefusal::NoMemory);
    };
    let Ok((cell, seats)) = TurnCell::new(alloc, station, count + 2) else {
        return Err(NodeRefusal::NoMemory);
    };
    let Ok((hub, mut hub_seats)) = Hub::new(alloc, &config, plan, count + 1, count + 4) else {
        return Err(NodeRefusal::NoMemory);
    };
    let halt = take_hub_seat(&mut hub_seats);
    let fetches = take_hub_seat(&mut hub_seats);
    let stock = NodeStock {
        alloc,
        host,
        cell: &cell,
        hub: &hub,
        seats,
        hub_seats,
    };
    let Times { interval, life, .. } = config.times();
    let leap = interval.min(life / 2).max(1);
    pacer.catch_up(leap);
    let shared = Mutex::new(&mut *pacer);
    let roster = NodeRoster {
        programs,
        rounds,
        pacer: &shared,
        leap,
    };
    let line = Line {
        ports,
        fetches,
        link,
    };
    match run_jobs(rt, stock, halt, roster, line, crew) {
        Ok((ends, halt)) => {
            let node = NodeSite { host, cell, hub };
            record_of(alloc, &config, node, ends, halt, wire)
        }
        Err(why) => Err(why),
    }
}
