//! Jobs of a node, each with its port.
ghost use Rattle.std.specs.Prelude.{◌≡◌, ◌<◌, ◌+◌, ◌++◌, ◌∷◌, [], ℕ, List, suc, true, IfOk, length, vec_len};
ghost use Rattle.vk_port.specs.Stations.{is_process_of};
ghost use Rattle.vk_rules.specs.Each.{Each};
ghost use Rattle.vk_udp.specs.Dealt.{AreNodeDealt, AreProcesses, IsNodePort, IsStocked};
ghost use Rattle.vk_program.specs.declared.assigned.Assigned.{Assigned};

use crate::beat::Beat;
use crate::carrier::Carrier;
use crate::clock::NodeClock;
use crate::dock::{Carrying, Dock, Start};
use crate::link::Link;
use crate::work::NodeWork;
use std::alloc::Global;
use std::sync::Mutex;
use turn_cell::{TurnCell, TurnSeat};
use vk_base::NoMemory;
use vk_event::StationPort;
use vk_hub::{Hub, HubState};
use vk_io::Pacer;
use vk_port::{Port, Station};
use vk_program::{Assigned, Program};
use vk_threads::{ProcessWork, take_hub_seat};

/// The station of a node and its hub, and their seats that no job has yet.
#[derive(Drop)]
pub struct NodeStock<'a> {
    pub alloc: Global,
    pub host: u16,
    pub cell: &'a TurnCell<Station>,
    pub hub: &'a Hub,
    pub seats: Vec<TurnSeat<Station>>,
    pub hub_seats: Vec<TurnSeat<HubState>>,
}

/// What the jobs of a node are given beside their seats: the programs, the rounds of ticks at most, the pace of these, and how many there
/// may be at once where the clock is late.
#[derive(Drop)]
pub struct NodeRoster<'a, 'p, G: Program, P: Pacer> {
    pub programs: Vec<Assigned<G>>,
    pub rounds: u32,
    pub pacer: &'a Mutex<&'p mut P>,
    pub leap: u32,
}

/// Over what frames are carried: the ports of all stations, a seat at the hub and the link.
#[derive(Drop)]
pub struct Line<'a, L: Link> {
    pub ports: &'a [StationPort],
    pub fetches: TurnSeat<HubState>,
    pub link: L,
}

/// Takes a seat of the station out of these.
fn take_seat(seats: &mut Vec<TurnSeat<Station>>) -> TurnSeat<Station>
    requires { 0 < vec_len seats.old }
    ensures { seats.old.items ≡ seats.new.items ++ result ∷ [] }
{
    match seats.pop() {
        Some(seat) => seat,
        None => unreachable!(),
    }
}

impl<'a> NodeStock<'a> {
    /// A port with the next two seats.
    pub fn port(&mut self, ticks: bool) -> Result<Port<'a>, NoMemory>
        requires { (n : ℕ) × IsStocked self.old.cell.now self.old.hub.now self.old.host
            (suc n) self.old.seats.items self.old.hub_seats.items }
        ensures host { self.new.host ≡ self.old.host }
        ensures cell { self.new.cell ≡ self.old.cell }
        ensures hub { self.new.hub ≡ self.old.hub }
        ensures port { IfOk result (IsNodePort self.old.cell.now self.old.hub.now self.old.host ticks) }
        ensures left { (n : ℕ) →
            IsStocked self.old.cell.now self.old.hub.now self.old.host (suc n) self.old.seats.items self.old.hub_seats.items →
            IsStocked self.old.cell.now self.old.hub.now self.old.host n self.new.seats.items self.new.hub_seats.items }
    {
        let seat = take_seat(&mut self.seats);
        let hub_seat = take_hub_seat(&mut self.hub_seats);
        match Port::new(
            self.alloc, self.host, self.cell, seat, self.hub, hub_seat, ticks,
        ) {
            Ok(port) => Ok(port),
            Err(_) => Err(NoMemory),
        }
    }
}

/// Adds a job for each program.
fn add_programs<'s, 'a, 'p, G: Program, P: Pacer, L: Link, S: Start>(
    stock: &mut NodeStock<'a>,
    programs: Vec<Assigned<G>>,
    dock: &'s Dock<'a, L, S>,
    jobs: &mut Vec<NodeWork<'s, 'a, 'p, G, P, L, S>>,
) -> Result<(), NoMemory>
    requires stock { (n : ℕ) × IsStocked stock.old.cell.now stock.old.hub.now stock.old.host
        (length programs.items + n) stock.old.seats.items
        stock.old.hub_seats.items }
    requires processes { Each (λ (a : Assigned G). is_process_of stock.old.cell.now.origin a.pid ≡ true) programs.items }
    requires fresh { Each (λ (a : Assigned G). G.is_after a.program []) programs.items }
    ensures host { stock.new.host ≡ stock.old.host }
    ensures cell { stock.new.cell ≡ stock.old.cell }
    ensures hub { stock.new.hub ≡ stock.old.hub }
    ensures jobs { IfOk result (λ _. (front : List (Assigned G)) →
        AreProcesses stock.old.cell.now stock.old.hub.now stock.old.host front jobs.old.items →
        AreProcesses stock.old.cell.now stock.old.hub.now stock.old.host (front ++ programs.items) jobs.new.items) }
    ensures left { IfOk result (λ _. (n : ℕ) →
        IsStocked stock.old.cell.now stock.old.hub.now stock.old.host (length programs.items + n) stock.old.seats.items
        stock.old.hub_seats.items →
        IsStocked stock.old.cell.now stock.old.hub.now stock.old.host n stock.new.seats.items stock.new.hub_seats.items) }
{
    for assigned in programs {
        let Assigned { pid, program } = assigned;
        let port = stock.port(false)?;
        let rest = Carrying { dock };
        let work = ProcessWork::new(stock.alloc, stock.hub, port, pid, program, rest)?;
        jobs.push(NodeWork::Process(work))?;
    }
    Ok(())
}

/// The jobs of a node: one for each program, the clock, and what carries frames.
pub fn jobs_of<'s, 'a, 'p, G: Program, P: Pacer, L: Link, S: Start>(
    stock: NodeStock<'a>,
    roster: NodeRoster<'a, 'p, G, P>,
    dock: &'s Dock<'a, L, S>,
) -> Result<Vec<NodeWork<'s, 'a, 'p, G, P, L, S>>, NoMemory>
    requires stock { IsStocked stock.cell.now stock.hub.now stock.host (length roster.programs.items + 1) stock.seats.items
        stock.hub_seats.items }
    requires processes { Each (λ (a : Assigned G). is_process_of stock.cell.now.origin a.pid ≡ true) roster.programs.items }
    requires fresh { Each (λ (a : Assigned G). G.is_after a.program []) roster.programs.items }
    ensures { IfOk result (λ jobs. AreNodeDealt stock.entry.cell.now stock.entry.hub.now stock.entry.host roster.entry.programs.items
        roster.entry.rounds S.duty jobs.items) }
{
    let NodeRoster {
        programs,
        rounds,
        pacer,
        leap,
    } = roster;
    let mut stock = stock;
    let (alloc, hub, host) = (stock.alloc, stock.hub, stock.host);
    hub.bells().add_threads(programs.len());
    hub.bells().add_threads(1);
    let mut jobs = Vec::new(alloc);
    add_programs(&mut stock, programs, dock, &mut jobs)?;
    let port = stock.port(true)?;
    let beat = Beat::new(pacer, dock, hub.bells(), host, leap);
    let clock = NodeClock::new(alloc, hub, host, port, rounds, beat)?;
    jobs.push(NodeWork::Clock(clock))?;
    let carrier = Carrier::new(alloc, hub, host, dock)?;
    jobs.push(NodeWork::Carrier(carrier))?;
    Ok(jobs)
}
