//! Jobs, each with its ports.
ghost use Rattle.std.specs.Prelude.{◌≡◌, ◌≤◌, ◌<◌, ◌+◌, ◌++◌, ◌∷◌, [], ℕ, List, true, Some, IsSome, IfOk, find, length, map, slice_get, vec_len, position};
ghost use Rattle.vk_rules.specs.Each.{Each};
ghost use Rattle.vk_threads.specs.Dealt.{AreDealt, AreDue, AreJobsAt, ArePorts, HasSite, IsOwnAt, IsPort, IsStocked, IsTaken, host_of, hosts_for, pumps_at, runs_by, spare_host};
ghost use Rattle.v_run.specs.Passages.{Role};
ghost use Rattle.vk_program.specs.declared.assigned.Assigned.{Assigned};
ghost use Rattle.vk_threads.specs.declared.opening.Spare.{Spare};
ghost use Rattle.vk_threads.specs.Ended.{cell_at};
ghost use Rattle.vk_threads.specs.Opened.{count_of};

use crate::clock::ClockWork;
use crate::opening::{Site, Spare};
use crate::process::ProcessWork;
use crate::pump::PumpWork;
use crate::work::RunJob;
use std::alloc::Global;
use std::sync::Mutex;
use turn_cell::{TurnCell, TurnSeat};
use vk_base::NoMemory;
use vk_hub::{Hub, HubState};
use vk_io::Pacer;
use vk_port::{Port, Sleep, Station};
use vk_program::{Assigned, Program};

/// The stations and the hub, and their seats that no port has yet.
#[derive(Drop)]
pub struct Stock<'a> {
    pub alloc: Global,
    pub sites: &'a [Site],
    pub hub: &'a Hub,
    pub spares: Vec<Spare>,
    pub hub_seats: Vec<TurnSeat<HubState>>,
}

/// Who runs, and how long: the programs, the stations by rising hosts, and the rounds of ticks at most.
#[derive(Drop)]
pub struct Roster<G: Program> {
    pub programs: Vec<Assigned<G>>,
    pub stations: Vec<u16>,
    pub rounds: u32,
}

/// The cell of the station.
fn cell_at<'a>(sites: &'a [Site], host: u16) -> &'a TurnCell<Station>
    requires { HasSite sites.now host }
    ensures { cell_at sites.now host ≡ Some result.now }
{
    for site in sites {
        if site.host == host {
            return &site.cell;
        }
    }
    unreachable!()
}

/// The place of the first seat of the station.
fn place_of(spares: &[Spare], host: u16) -> usize
    requires { 1 ≤ count_of host (map spare_host spares.now) }
    ensures below { result < length spares.now }
    ensures at { (s : Spare) → slice_get spares.now result ≡ Some s → s.host ≡ host }
{
    for at in 0..spares.len() {
        if spares[at].host == host {
            return at;
        }
    }
    unreachable!()
}

/// Takes a seat of the station out of these.
fn take_seat(spares: &mut Vec<Spare>, host: u16) -> TurnSeat<Station>
    requires { 1 ≤ count_of host (map spare_host spares.old.items) }
    ensures { IsTaken host spares.old.items result spares.new.items }
{
    let at = place_of(spares.as_slice(), host);
    let Spare { host: _, seat } = spares.remove(at);
    seat
}

/// Takes a seat of the hub out of these.
pub fn take_hub_seat(seats: &mut Vec<TurnSeat<HubState>>) -> TurnSeat<HubState>
    requires { 0 < vec_len seats.old }
    ensures { seats.old.items ≡ seats.new.items ++ result ∷ [] }
{
    match seats.pop() {
        Some(seat) => seat,
        None => unreachable!(),
    }
}

impl<'a> Stock<'a> {
    /// A port at the station.
    pub fn port_at(&mut self, host: u16, ticks: bool) -> Result<Port<'a>, NoMemory>
        requires { AreDue (IsStocked self.old.sites.now self.old.hub.now self.old.spares.items self.old.hub_seats.items) (host ∷ []) }
        ensures sites { self.new.sites ≡ self.old.sites }
        ensures hub { self.new.hub ≡ self.old.hub }
        ensures port { IfOk result (λ p. IsPort self.old.sites.now self.old.hub.now ticks host p) }
        ensures left { (rest : List ℕ) →
            IsStocked self.old.sites.now self.old.hub.now self.old.spares.items self.old.hub_seats.items (host ∷ rest) →
            IsStocked self.old.sites.now self.old.hub.now self.new.spares.items self.new.hub_seats.items rest }
    {
        let seat = take_seat(&mut self.spares, host);
        let hub_seat = take_hub_seat(&mut self.hub_seats);
        let cell = cell_at(self.sites, host);
        match Port::new(self.alloc, host, cell, seat, self.hub, hub_seat, ticks) {
            Ok(port) => Ok(port),
            Err(_) => Err(NoMemory),
        }
    }

    /// A port at each of these stations, which may tick.
    fn clock_ports(&mut self, hosts: &[u16]) -> Result<Vec<Port<'a>>, NoMemory>
        requires { AreDue (IsStocked self.old.sites.now self.old.hub.now self.old.spares.items self.old.hub_seats.items) hosts.now }
        ensures { IfOk result (λ ports. ArePorts self.old.sites.now self.old.hub.now true hosts.now ports.items) }
    {
        let mut ports = Vec::new(self.alloc);
        for host in hosts {
            ports.push(self.port_at(*host, true)?)?;
        }
        Ok(ports)
    }

    /// Adds a job for each of these programs.
    fn add_programs<'p, G: Program, P: Pacer>(
        &mut self,
        programs: Vec<Assigned<G>>,
        jobs: &mut Vec<RunJob<'a, 'p, G, P>>,
    ) -> Result<(), NoMemory>
        requires due { AreDue (IsStocked self.old.sites.now self.old.hub.now self.old.spares.items self.old.hub_seats.items)
            (map host_of programs.items) }
        requires processes { Each (IsOwnAt self.old.sites.now) programs.items }
        requires fresh { Each (λ (a : Assigned G). G.is_after a.program []) programs.items }
        ensures sites { self.new.sites ≡ self.old.sites }
        ensures hub { self.new.hub ≡ self.old.hub }
        ensures jobs { IfOk result (λ _. (ds : List (ℕ × Role)) → AreJobsAt G.task self.old.sites.now self.old.hub.now ds jobs.old.items →
            AreJobsAt G.task self.old.sites.now self.old.hub.now (ds ++ map (runs_by G.task) programs.items) jobs.new.items) }
        ensures left { IfOk result (λ _. (rest : List ℕ) →
            IsStocked self.old.sites.now self.old.hub.now self.old.spares.items self.old.hub_seats.items
            (map host_of programs.items ++ rest) →
            IsStocked self.old.sites.now self.old.hub.now self.new.spares.items self.new.hub_seats.items rest) }
    {
        for assigned in programs {
            let Assigned { pid, program } = assigned;
            let port = self.port_at(pid.host, false)?;
            let work = ProcessWork::new(self.alloc, self.hub, port, pid, program, Sleep)?;
            jobs.push(RunJob::Process(work))?;
        }
        Ok(())
    }

    /// Adds a job for each of these stations, which delivers there.
    fn add_pumps<'p, G: Program, P: Pacer>(
        &mut self,
        stations: &[u16],
        jobs: &mut Vec<RunJob<'a, 'p, G, P>>,
    ) -> Result<(), NoMemory>
        requires { AreDue (IsStocked self.old.sites.now self.old.hub.now self.old.spares.items self.old.hub_seats.items) stations.now }
        ensures sites { self.new.sites ≡ self.old.sites }
        ensures hub { self.new.hub ≡ self.old.hub }
        ensures jobs { IfOk result (λ _. (ds : List (ℕ × Role)) → AreJobsAt G.task self.old.sites.now self.old.hub.now ds jobs.old.items →
            AreJobsAt G.task self.old.sites.now self.old.hub.now (ds ++ map pumps_at stations.now) jobs.new.items) }
        ensures left { IfOk result (λ _. (rest : List ℕ) →
            IsStocked self.old.sites.now self.old.hub.now self.old.spares.items self.old.hub_seats.items (stations.now ++ rest) →
            IsStocked self.old.sites.now self.old.hub.now self.new.spares.items self.new.hub_seats.items rest) }
    {
        for host in stations {
            let port = self.port_at(*host, false)?;
            jobs.push(RunJob::Pump(PumpWork::new(self.alloc, self.hub, *host, port)?))?;
        }
        Ok(())
    }
}

/// The jobs of a run: one for each program, one for each station that delivers what comes for it, and the clock.
pub fn jobs_of<'a, 'p, G: Program, P: Pacer>(
    stock: Stock<'a>,
    roster: Roster<G>,
    pacer: &'a Mutex<&'p mut P>,
) -> Result<Vec<RunJob<'a, 'p, G, P>>, NoMemory>
    requires stock { IsStocked stock.sites.now stock.hub.now stock.spares.items stock.hub_seats.items
        (hosts_for roster.programs.items roster.stations.items) }
    requires processes { Each (IsOwnAt stock.sites.now) roster.programs.items }
    requires fresh { Each (λ (a : Assigned G). G.is_after a.program []) roster.programs.items }
    ensures { IfOk result (λ jobs. AreDealt G.task stock.entry.sites.now stock.entry.hub.now roster.programs.items roster.stations.items
        roster.rounds jobs.items) }
{
    let Roster {
        programs,
        stations,
        rounds,
    } = roster;
    let mut stock = stock;
    let (alloc, hub) = (stock.alloc, stock.hub);
    hub.bells().add_threads(programs.len());
    hub.bells().add_threads(stations.len());
    hub.bells().add_threads(1);
    let mut jobs = Vec::new(alloc);
    stock.add_programs(programs, &mut jobs)?;
    stock.add_pumps(&stations, &mut jobs)?;
    let ports = stock.clock_ports(&stations)?;
    let clock = ClockWork::new(alloc, hub, stations, ports, rounds, pacer)?;
    jobs.push(RunJob::Clock(clock))?;
    Ok(jobs)
}
