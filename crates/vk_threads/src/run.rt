//! Runs of stations as threads.
ghost use Rattle.std.specs.Prelude.{◌≡◌, ◌≤◌, ◌+◌, ◌-◌, ◌^◌, ◌++◌, [], min, true, None, length, map, IfOk, IfErr, OnOk, Result};
ghost use Rattle.turn_cell.specs.Seats.{IsSeatOf};
ghost use Rattle.v_run.specs.Ran.{IsRun};
ghost use Rattle.vk_base.specs.declared.limits.TheConstants.{PROCESSES};
ghost use Rattle.vk_base.specs.Settings.{has_process, stations_of};
ghost use Rattle.vk_event.specs.ScenarioLaws.{IsLawfulScenario};
ghost use Rattle.vk_rules.specs.Each.{Each};
ghost use Rattle.vk_threads.specs.Assigned.{AreDifferent, LeavesJobs, TellsRunFault, ArePrograms, assignments_of, pid_of, program_task};
ghost use Rattle.vk_threads.specs.Dealt.{HasRunJobs, IsOwnAt, IsStocked, TellsJobs, hosts_for};
ghost use Rattle.vk_pages.specs.Any.{IsTaskOf, are_any_kinds};
ghost use Rattle.vk_program.specs.declared.assigned.Assigned.{Assigned};

use crate::deal::{Roster, Stock, jobs_of, take_hub_seat};
use crate::end::End;
use crate::halt::HubHalt;
use crate::opening::{open_all, stations};
use crate::record::{RunRecord, RunRefusal, record_of};
use std::alloc::Global;
use std::sync::{Mutex, Wait};
use std::thread::Threads;
use std::time::Clock;
use turn_cell::TurnSeat;
use vk_base::{Config, NoMemory};
use vk_event::{Scenario, Task};
use vk_hub::{Hub, HubState};
use vk_io::{Crew, CrewError, Pacer};
use vk_pages::AnyProgram;
use vk_program::{Assigned, Program};
use vk_schedule::LinkPlan;

/// Deals seats to jobs and has the crew run them. Gives what they ended with, and the seat of the halt, which has halted nothing.
fn run_jobs<'a, 'p, G: Program + Send, C: Crew, P: Pacer + Send, R: Wait + Threads + Clock + Sync>(
    rt: &R,
    stock: Stock<'a>,
    halt: TurnSeat<HubState>,
    roster: Roster<G>,
    crew: &mut C,
    pacer: &'a Mutex<&'p mut P>,
) -> Result<(Vec<End>, TurnSeat<HubState>), RunRefusal>
    requires halt { IsSeatOf stock.hub.now halt }
    requires unhalted { halt.mine ≡ [] }
    requires stock { IsStocked stock.sites.now stock.hub.now stock.spares.items stock.hub_seats.items
        (hosts_for roster.programs.items roster.stations.items) }
    requires processes { Each (IsOwnAt stock.sites.now) roster.programs.items }
    requires fresh { Each (λ (a : Assigned G). G.is_after a.program []) roster.programs.items }
    ensures ended { IfOk result (λ r. HasRunJobs G P G.task stock.entry.sites.now stock.entry.hub.now roster.programs.items
        roster.stations.items roster.rounds r.0.items r.1) }
    ensures jobs { TellsJobs (C.job_count crew.old)
        (min (C.job_count crew.old + (length roster.programs.items + length roster.stations.items + 1)) (2 ^ 64 - 1))
        (C.job_count crew.new) result }
    ensures fault { TellsRunFault (C.fault_count crew.old) (C.fault_count crew.new) result }
{
    let (alloc, hub) = (stock.alloc, stock.hub);
    let mut halt = HubHalt::new(hub, halt);
    let Ok(jobs) = jobs_of(stock, roster, pacer) else {
        return Err(RunRefusal::NoMemory);
    };
    match crew.run_all(rt, alloc, jobs, &mut halt) {
        Ok(ends) => Ok((ends, halt.into_seat())),
        Err(CrewError::Failed) => Err(RunRefusal::CrewFault),
        Err(CrewError::NoMemory) => Err(RunRefusal::NoMemory),
    }
}

/// The stations of all ports: those of the programs, and each station twice, for what delivers there and for the clock.
fn hosts_of<G: Program>(
    alloc: Global,
    programs: &[Assigned<G>],
    stations: &[u16],
) -> Result<Vec<u16>, NoMemory>
    ensures { IfOk result (λ hosts. hosts.items ≡ hosts_for programs.now stations.now) }
{
    let mut hosts = Vec::new(alloc);
    for assigned in programs {
        hosts.push(assigned.pid.host)?;
    }
    hosts.extend_from_slice(stations)?;
    hosts.extend_from_slice(stations)?;
    Ok(hosts)
}

/// How many programs there are, one for a process at most.
fn count_of<G: Program>(config: &Config, programs: &[Assigned<G>]) -> u32
    requires processes { Each (λ (a : Assigned G). has_process config.now.specs a.pid ≡ true) programs.now }
    requires apart { AreDifferent (map pid_of programs.now) }
    ensures count { result ≡ length programs.now }
    ensures few { result ≤ PROCESSES }
{
    let _processes = config.specs();
    programs.len() as u32
}

/// Runs each of these processes with its program. There are at most so many rounds of ticks, in each of which every station ticks once;
/// what becomes of frames on the way, the plan says.
///
/// # Errors
///
/// [`RunRefusal::CrewFault`] where the crew failed. [`RunRefusal::NoMemory`] where memory is wanting, before the crew's call or behind it.
pub fn run_programs<G: Program + Send, C: Crew, P: Pacer + Send, R: Wait + Threads + Clock + Sync>(
    rt: &R,
    alloc: Global,
    config: Config,
    programs: Vec<Assigned<G>>,
    plan: LinkPlan,
    rounds: u32,
    crew: &mut C,
    pacer: &mut P,
) -> Result<RunRecord, RunRefusal>
    requires processes { Each (λ (a : Assigned G). has_process config.specs a.pid ≡ true) programs.items }
    requires apart { AreDifferent (map pid_of programs.items) }
    requires fresh { Each (λ (a : Assigned G). G.is_after a.program []) programs.items }
    ensures ran { IfOk result (λ r. IsRun config plan rounds (map (program_task G.task) programs.items) r.end r.schedule) }
    ensures jobs { OnOk result (C.job_count crew.new
        ≡ min (C.job_count crew.old + (length programs.items + length (stations_of config.specs) + 1)) (2 ^ 64 - 1)) }
    ensures no_jobs { IfErr result (LeavesJobs (C.job_count crew.old)
        (min (C.job_count crew.old + (length programs.items + length (stations_of config.specs) + 1)) (2 ^ 64 - 1))
        (C.job_count crew.new)) }
    ensures fault { TellsRunFault (C.fault_count crew.old) (C.fault_count crew.new) result }
{
    let count = count_of(&config, &programs);
    let Ok(stations) = stations(alloc, &config) else {
        return Err(RunRefusal::NoMemory);
    };
    let Ok(hosts) = hosts_of(alloc, &programs, &stations) else {
        return Err(RunRefusal::NoMemory);
    };
    let Ok((sites, spares)) = open_all(alloc, &config, &stations, &hosts) else {
        return Err(RunRefusal::NoMemory);
    };
    let Ok((hub, mut hub_seats)) = Hub::new(alloc, &config, plan, count, hosts.len() as u32 + 1)
    else {
        return Err(RunRefusal::NoMemory);
    };
    let halt = take_hub_seat(&mut hub_seats);
    let stock = Stock {
        alloc,
        sites: &sites,
        hub: &hub,
        spares,
        hub_seats,
    };
    let roster = Roster {
        programs,
        stations,
        rounds,
    };
    let shared = Mutex::new(&mut *pacer);
    match run_jobs(rt, stock, halt, roster, crew, &shared) {
        Ok((ends, halt)) => record_of(rt, alloc, config, sites, hub, ends, halt, rounds),
        Err(why) => Err(why),
    }
}

/// The programs of these tasks.
fn programs_of(
    alloc: Global,
    config: &Config,
    tasks: &[Task],
) -> Result<Vec<Assigned<AnyProgram>>, NoMemory>
    requires { Each (IsTaskOf config.now.specs) tasks.now }
    ensures { IfOk result (λ programs. ArePrograms tasks.now programs.items) }
{
    let mut programs = Vec::new(alloc);
    for task in tasks {
        let program = AnyProgram::new(alloc, config, task)?;
        programs.push(Assigned {
            pid: task.pid,
            program,
        })?;
    }
    Ok(programs)
}

/// Runs each process of the scenario with its program, where each is a script or a program of pages.
///
/// # Errors
///
/// [`RunRefusal::CrewFault`] where the crew failed. [`RunRefusal::NoMemory`] where memory is wanting, before the crew's call or behind it.
pub fn run_stations<C: Crew, P: Pacer + Send, R: Wait + Threads + Clock + Sync>(
    rt: &R,
    alloc: Global,
    scenario: Scenario,
    crew: &mut C,
    pacer: &mut P,
) -> Result<RunRecord, RunRefusal>
    requires lawful { IsLawfulScenario scenario }
    requires kinds { are_any_kinds scenario.tasks ≡ true }
    ensures ran { IfOk result (λ r. IsRun scenario.config scenario.plan scenario.rounds (assignments_of scenario.tasks) r.end
        r.schedule) }
    ensures jobs { OnOk result (C.job_count crew.new
        ≡ min (C.job_count crew.old + (length scenario.tasks + length (stations_of scenario.config.specs) + 1)) (2 ^ 64 - 1)) }
    ensures no_jobs { IfErr result (LeavesJobs (C.job_count crew.old)
        (min (C.job_count crew.old + (length scenario.tasks + length (stations_of scenario.config.specs) + 1)) (2 ^ 64 - 1))
        (C.job_count crew.new)) }
    ensures fault { TellsRunFault (C.fault_count crew.old) (C.fault_count crew.new) result }
{
    let Scenario {
        config,
        tasks,
        plan,
        rounds,
        ..
    } = scenario;
    let Ok(programs) = programs_of(alloc, &config, tasks.as_slice()) else {
        return Err(RunRefusal::NoMemory);
    };
    run_programs(rt, alloc, config, programs, plan, rounds, crew, pacer)
}
