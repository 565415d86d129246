//! Scenarios as texts.

ghost use Rattle.std.specs.Prelude.{◌≡◌, ◌≢◌, ◌⊎◌, ◌+◌, ◌<◌, ◌≤◌, ◌^◌, Ok, Err, IfOk, IfErr, map, drop, length};
ghost use Rattle.vk_base.specs.declared.limits.TheConstants.{PROCESSES, STATIONS};
ghost use Rattle.vk_text.specs.Lines.{lines_of};
ghost use Rattle.vk_event.specs.Endings.{ending_from};
ghost use Rattle.vk_event.specs.ScenarioLaws.{IsLawfulScenario};
ghost use Rattle.vk_event.specs.Scenario.{HasScenarioProcess, idle, most_rounds, scenario_end, scenario_from, scenario_of, scenario_with};

use crate::port::{PortLines, StationPort, read_ports};
use crate::task::{Task, TaskKind};
use crate::task_line::{read_plan, read_rounds, take_line};
use std::alloc::Global;
use vk_base::{Config, List, NoMemory, ProcessSpec};
use vk_schedule::{LinkPlan, TextRefusal, refused};
use vk_text::{Head, next_line, read_opening};

/// Ticks of all stations of a scenario together.
pub const TICKS: u32 = 50_000;

/// A configuration, what each of its processes is to do, in their order, ports of some of its stations, by rising stations, what
/// becomes of frames on the way, and how many rounds of ticks there are, of which each ticks every station once.
#[derive(Drop)]
pub struct Scenario {
    pub config: Config,
    pub tasks: List<Task>,
    pub ports: List<StationPort>,
    pub plan: LinkPlan,
    pub rounds: u32,
}

/// What the last two lines tell.
#[derive(Clone, Copy)]
struct Ending {
    plan: LinkPlan,
    rounds: u32,
}

/// A task for each process, which has nothing to do yet.
fn idle_tasks(alloc: Global, specs: &[ProcessSpec]) -> Result<Vec<Task>, NoMemory>
    ensures { IfOk result (λ tasks. tasks.items ≡ map idle specs.now) }
{
    let mut tasks = Vec::with_capacity(alloc, specs.len())?;
    for spec in specs {
        let kind = TaskKind::Script {
            calls: List::empty(alloc),
        };
        tasks.push(Task {
            pid: spec.pid,
            kind,
        })?;
    }
    Ok(tasks)
}

/// How many rounds of ticks a configuration may have.
fn most_rounds(config: &Config) -> u32
    requires { 0 < length config.now.specs }
    ensures { result ≡ most_rounds config.now.specs }
{
    TICKS / config.station_count()
}

/// What the last two lines tell, of which the first starts at `at` and has the number `line`; or the number of the bad line.
#[tactic(auto, unfolding(crate::specs::Endings::ending_from, crate::specs::Endings::rounds_from))]
fn read_ending(text: &[u8], at: usize, line: u64, most: u32) -> Result<Ending, u64>
    requires { line + 2 < 2 ^ 64 }
    ensures { result ≡ ending_from most line (lines_of (drop at text.now)) }
{
    let Some((words, at)) = next_line(text, at) else {
        return Err(line);
    };
    let Some(plan) = read_plan(words) else {
        return Err(line);
    };
    let Some((words, at)) = next_line(text, at) else {
        return Err(line + 1);
    };
    let Some(rounds) = read_rounds(words, most) else {
        return Err(line + 1);
    };
    if next_line(text, at).is_some() {
        return Err(line + 2);
    }
    Ok(Ending { plan, rounds })
}

/// The scenario of these tasks, of these ports, and of the last two lines, of which the first starts at `at` and has the number `line`.
fn close(
    config: Config,
    tasks: Vec<Task>,
    ports: List<StationPort>,
    text: &[u8],
    at: usize,
    line: u64,
) -> Result<Scenario, TextRefusal>
    requires some { 0 < length config.specs }
    requires line { line + 2 < 2 ^ 64 }
    ensures { result ≡ scenario_with config tasks.items ports
        (ending_from (most_rounds config.specs) line (lines_of (drop at text.now))) }
{
    match read_ending(text, at, line, most_rounds(&config)) {
        Ok(Ending { plan, rounds }) => Ok(Scenario {
            config,
            tasks: List::new(tasks),
            ports,
            plan,
            rounds,
        }),
        Err(line) => Err(TextRefusal::BadInput { line }),
    }
}

/// The scenario of these tasks and of the lines behind them, of which the first starts at `at` and has the number `line`.
fn end(
    alloc: Global,
    config: Config,
    tasks: Vec<Task>,
    text: &[u8],
    at: usize,
    line: u64,
) -> Result<Scenario, TextRefusal>
    requires some { 0 < length config.specs }
    requires line { line ≤ at + PROCESSES + STATIONS + 3 }
    requires within { at ≤ length text.now }
    ensures scenario { IfOk result (λ s. scenario_end config tasks.items line (lines_of (drop at text.now)) ≡ Ok s) }
    ensures refused { IfErr result (λ e. (e ≡ TextRefusal.NoMemory)
        ⊎ (scenario_end config tasks.items line (lines_of (drop at text.now)) ≡ Err e)) }
{
    match read_ports(alloc, &config, text, at) {
        Ok(PortLines { ports, at }) => {
            let line = line + ports.len() as u64;
            close(config, tasks, ports, text, at, line)
        }
        Err(NoMemory) => Err(TextRefusal::NoMemory),
    }
}

/// The scenario of this configuration and of the lines from `start` on, of which the first has the number `first`.
fn read_body(
    alloc: Global,
    config: Config,
    text: &[u8],
    start: usize,
    first: u64,
) -> Result<Scenario, TextRefusal>
    requires some { 0 < length config.specs }
    requires first { first ≤ PROCESSES + STATIONS + 3 }
    requires within { start ≤ length text.now }
    ensures scenario { IfOk result (λ s. scenario_from config (map idle config.specs) first (lines_of (drop start text.now)) ≡ Ok s) }
    ensures refused { IfErr result (λ e. (e ≡ TextRefusal.NoMemory)
        ⊎ (scenario_from config (map idle config.specs) first (lines_of (drop start text.now)) ≡ Err e)) }
{
    let Ok(mut tasks) = idle_tasks(alloc, config.specs()) else {
        return Err(TextRefusal::NoMemory);
    };
    let mut at = start;
    let mut line = first;
    while let Some((words, next)) = next_line(text, at) {
        match take_line(alloc, config.specs(), &mut tasks, words) {
            Ok(true) => {}
            Ok(false) => return end(alloc, config, tasks, text, at, line),
            Err(NoMemory) => return Err(TextRefusal::NoMemory),
        }
        at = next;
        line += 1;
    }
    Err(TextRefusal::BadInput { line })
}

/// The scenario that the text spells. In format 1 its first line is `vkernel scenario 1`, and then come `process PID SIZE` lines by
/// rising pids, at least one; in format 2 it is `vkernel scenario 2`, then come `times TRIES INTERVAL LIFE`, the `process` lines, and
/// `pool HOST POOL` lines by rising stations. Then come lines of tasks, of processes that the text names: `do PID CALLTEXT` puts a call
/// behind those of the process's script, and `program PID NAME ..` gives it a program instead, for which it needs so much memory:
/// `pageserver PAGES REQUESTS` 512 bytes, `pageclient SERVER PAGES ROUNDS` 1,024, `fileserver FILES REQUESTS` and `loader SERVER I`
/// 65,536, `pipeserver REQUESTS` 512, `group REQUESTS HELPER MEMBER ..` with 1 to 16 pairs that make a group 512, and
/// `grouphelper COORDINATOR MEMBER` 32. Then come `port HOST PORT` lines by rising stations, PORT 1 to 65,535. The last two lines are
/// `link LOSE DOUBLE HOLD SEED` and `ticks ROUNDS`, of at most 50,000 rounds by the number of stations. The first line that
/// is none of these decides. Memory is wanted only where the text opens with a process.
pub fn read_scenario(alloc: Global, text: &[u8]) -> Result<Scenario, TextRefusal>
    ensures scenario { IfOk result (λ s. scenario_of text.now ≡ Ok s) }
    ensures refused { IfErr result (λ e. ((e ≡ TextRefusal.NoMemory) × HasScenarioProcess text.now) ⊎ (scenario_of text.now ≡ Err e)) }
    // no scenario is above a limit of events
    ensures never_limit { IfErr result (λ e. e ≢ TextRefusal.Limit) }
    ensures lawful { IfOk result IsLawfulScenario }
{
    let Head { config, at, line } = match read_opening(
        alloc,
        text,
        b"vkernel scenario 1",
        b"vkernel scenario 2",
    ) {
        Ok(head) => head,
        Err(refusal) => return Err(refused(refusal)),
    };
    if config.specs().is_empty() {
        return Err(TextRefusal::BadInput { line });
    }
    read_body(alloc, config, text, at, line)
}
