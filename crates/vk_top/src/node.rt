//! `node H`: one station of a scenario, with a wire to the others.

ghost use Rattle.std.specs.Prelude.{◌≡◌, ◌≢◌, ◌<◌, ◌≤◌, ◌⊎◌, ◌+◌, ◌-◌, ◌^◌, min, length, true, Ok, IfOk, IfErr, OnOk};
ghost use Rattle.vk_base.specs.declared.limits.TheConstants.{INPUT_BYTES};
ghost use Rattle.vk_edge.specs.Answers.{CountsFaults, TellsFaults};
ghost use Rattle.vk_event.specs.NodeLaws.{IsLawfulNodes, node_text, one_log};
ghost use Rattle.vk_event.specs.Nodes.{nodes_of};
ghost use Rattle.vk_event.specs.Ports.{has_all_ports};
ghost use Rattle.vk_event.specs.ScenarioLaws.{IsLawfulScenario};
ghost use Rattle.vk_top.specs.Nodes.{IsNodeAnswer, IsNodeFailure, Passed, TellsNode, jobs_at, node_asked, node_end, node_scenario};
ghost use Rattle.vk_top.specs.Programs.{assignments_at};
ghost use Rattle.vk_top.specs.Threaded.{IsTextRefusal, IsThreadedAnswered, IsThreadedRefusal, IsThreadedWork, ended};
ghost use Rattle.vk_udp.specs.Node.{IsNodeRecord, TellsNodeFault, TellsNodeJobs};

use crate::program::programs_at;
use crate::run::ended_as;
use crate::status::Status;
use crate::top::{TextOutput, write_work};
use std::alloc::Global;
use std::net::Net;
use std::sync::Wait;
use std::thread::Threads;
use std::time::Clock;
use v_run::RunEnd;
use vk_base::{Config, StationEvent};
use vk_edge::read_text;
use vk_event::{Scenario, has_all_ports, line_behind, read_scenario, write_node};
use vk_io::{Crew, Pacer, Sink, Source};
use vk_udp::{NodeRecord, NodeRefusal, Wire, run_node};

/// The text of a scenario, and the station that is asked for.
#[derive(Drop)]
struct NodeText<'a> {
    alloc: Global,
    host: u16,
    text: &'a [u8],
}

/// A scenario, and the station that is asked for.
#[derive(Drop)]
struct NodeScenario {
    host: u16,
    scenario: Scenario,
}

/// The scenario that the text spells. It has the station, and a port for each; else the line behind its last is bad.
fn read_for(alloc: Global, host: u16, text: &[u8]) -> Result<Scenario, Status>
    ensures scenario { IfOk result (λ s. node_scenario host text.now ≡ Ok s) }
    ensures lawful { IfOk result IsLawfulScenario }
    ensures ports { IfOk result (λ s. has_all_ports s.config.specs s.ports host ≡ true) }
    ensures some { OnOk result (0 < length text.now) }
    ensures refused { IfErr result (IsTextRefusal (node_asked host) text.now) }
{
    let scenario = read_scenario(alloc, text)?;
    if has_all_ports(&scenario, host) {
        Ok(scenario)
    } else {
        Err(Status::BadInput {
            line: line_behind(text),
        })
    }
}

/// How a node's run ended, which was limited or not.
fn node_end(limited: bool) -> RunEnd
    ensures { result ≡ node_end limited }
{
    if limited {
        RunEnd::Limited
    } else {
        RunEnd::Done
    }
}

/// The node text of the station with these events, and the answer then.
fn written(
    alloc: Global,
    config: &Config,
    host: u16,
    events: &[StationEvent],
    limited: bool,
) -> Result<TextOutput, Status>
    requires { IsLawfulNodes (one_log config.now host events.now) }
    ensures work { IfOk result (λ w. (w.text.items ≡ node_text config.now host events.now) × (w.status ≡ ended (node_end limited))) }
    ensures read { OnOk result (nodes_of (node_text config.now host events.now) ≡ Ok (one_log config.now host events.now)) }
    ensures refused { IfErr result (λ s. s ≡ Status.NoMemory) }
{
    let text = write_node(alloc, config, host, events)?;
    Ok(TextOutput {
        text,
        status: ended_as(node_end(limited)),
    })
}

/// What happened where the station of the scenario ran.
fn run_station<C: Crew, P: Pacer + Send, W: Wire, R: Wait + Threads + Clock + Net + Sync>(
    rt: &R,
    alloc: Global,
    asked: &NodeScenario,
    crew: &mut C,
    pacer: &mut P,
    wire: &mut W,
) -> Result<NodeRecord, NodeRefusal>
    requires lawful { IsLawfulScenario asked.now.scenario }
    requires ports { has_all_ports asked.now.scenario.config.specs asked.now.scenario.ports asked.now.host ≡ true }
    ensures ran { IfOk result (λ r. IsNodeRecord asked.now.scenario.config asked.now.host asked.now.scenario.rounds
        (assignments_at asked.now.host asked.now.scenario.tasks) (W.handed wire.old) (W.handed wire.new) r.limited r.log) }
    ensures jobs { TellsNodeJobs (C.job_count crew.old)
        (min (C.job_count crew.old + jobs_at asked.now.host asked.now.scenario) (2 ^ 64 - 1)) (C.job_count crew.new) result }
    ensures fault { TellsNodeFault (W.fault_count wire.old) (W.fault_count wire.new) (C.fault_count crew.old) (C.fault_count crew.new)
        result }
    ensures crew_faults_never_fall { C.fault_count crew.old ≤ C.fault_count crew.new }
    ensures link_faults_never_fall { W.fault_count wire.old ≤ W.fault_count wire.new }
{
    let _crew_faults = crew.faults();
    let _link_faults = wire.faults();
    let scenario = &asked.scenario;
    let host = asked.host;
    let Ok(config) = scenario.config.copy(alloc) else {
        return Err(NodeRefusal::NoMemory);
    };
    let Ok(programs) = programs_at(alloc, &config, scenario.tasks.as_slice(), host) else {
        return Err(NodeRefusal::NoMemory);
    };
    run_node(
        rt,
        alloc,
        config,
        host,
        programs,
        scenario.plan,
        scenario.rounds,
        scenario.ports.as_slice(),
        crew,
        pacer,
        wire,
    )
}

/// `node H`: what happened at the station where it ran.
fn node_work<C: Crew, P: Pacer + Send, W: Wire, R: Wait + Threads + Clock + Net + Sync>(
    rt: &R,
    asked: &NodeText,
    crew: &mut C,
    pacer: &mut P,
    wire: &mut W,
) -> Result<TextOutput, Status>
    requires { length asked.now.text.now ≤ INPUT_BYTES }
    ensures work { IfOk result (IsThreadedWork (TellsNode asked.now.host
        (record { handed = W.handed wire.old; jobs = C.job_count crew.old })
        (record { handed = W.handed wire.new; jobs = C.job_count crew.new })) (node_asked asked.now.host) asked.now.text.now) }
    ensures refused { IfErr result (IsThreadedRefusal (node_asked asked.now.host)
        (IsNodeFailure asked.now.host (C.job_count crew.old) (C.job_count crew.new))
        ((crew.new ≡ crew.old) × (wire.new ≡ wire.old)) asked.now.text.now) }
    ensures kept { OnOk result ((C.fault_count crew.new ≡ C.fault_count crew.old) × (W.fault_count wire.new ≡ W.fault_count wire.old)) }
    ensures crew_faults { IfErr result (λ s. TellsFaults Status.CrewFault s (C.fault_count crew.old) (C.fault_count crew.new)) }
    ensures link_faults { IfErr result (λ s. TellsFaults Status.LinkFault s (W.fault_count wire.old) (W.fault_count wire.new)) }
    ensures crew_faults_never_fall { C.fault_count crew.old ≤ C.fault_count crew.new }
    ensures link_faults_never_fall { W.fault_count wire.old ≤ W.fault_count wire.new }
{
    let (alloc, host) = (asked.alloc, asked.host);
    let scenario = read_for(alloc, host, asked.text)?;
    let asked = NodeScenario { host, scenario };
    let ran = run_station(rt, alloc, &asked, crew, pacer, wire)?;
    let events = ran.log.events.as_slice();
    written(alloc, &asked.scenario.config, host, events, ran.limited)
}

/// The whole work on the text of a scenario that was read.
fn answer_node<K: Sink, C: Crew, P: Pacer + Send, W: Wire, R: Wait + Threads + Clock + Net + Sync>(
    rt: &R,
    asked: &NodeText,
    output: &mut K,
    crew: &mut C,
    pacer: &mut P,
    wire: &mut W,
) -> Status
    requires { length asked.now.text.now ≤ INPUT_BYTES }
    ensures answered { IsThreadedAnswered (TellsNode asked.now.host (record { handed = W.handed wire.old; jobs = C.job_count crew.old })
        (record { handed = W.handed wire.new; jobs = C.job_count crew.new })) (node_asked asked.now.host)
        (IsNodeFailure asked.now.host (C.job_count crew.old) (C.job_count crew.new))
        (output.new ≡ output.old) ((crew.new ≡ crew.old) × (wire.new ≡ wire.old))
        asked.now.text.now (K.written output.old) (K.written output.new) result }
    ensures flushed { result ≡ Status.Done → K.flushed output.new }
    ensures all_flushed { result ≢ Status.WriteFault → (output.new ≡ output.old) ⊎ K.flushed output.new }
    ensures write_count { CountsFaults Status.WriteFault result (K.fault_count output.old) (K.fault_count output.new) }
    ensures crew_faults { TellsFaults Status.CrewFault result (C.fault_count crew.old) (C.fault_count crew.new) }
    ensures link_faults { TellsFaults Status.LinkFault result (W.fault_count wire.old) (W.fault_count wire.new) }
    ensures write_faults_never_fall { K.fault_count output.old ≤ K.fault_count output.new }
    ensures crew_faults_never_fall { C.fault_count crew.old ≤ C.fault_count crew.new }
    ensures link_faults_never_fall { W.fault_count wire.old ≤ W.fault_count wire.new }
{
    match node_work(rt, asked, crew, pacer, wire) {
        Ok(work) => write_work(output, &work),
        Err(status) => status,
    }
}

/// The whole work of `node H`.
pub(crate) fn node<
    S: Source,
    K: Sink,
    C: Crew,
    P: Pacer + Send,
    W: Wire,
    R: Wait + Threads + Clock + Net + Sync,
>(
    rt: &R,
    alloc: Global,
    host: u16,
    input: &mut S,
    output: &mut K,
    crew: &mut C,
    pacer: &mut P,
    wire: &mut W,
) -> Status
    ensures answer { IsNodeAnswer host (input.new ≡ input.old) (output.new ≡ output.old) ((crew.new ≡ crew.old) × (wire.new ≡ wire.old))
        (S.left input.old) (S.left input.new)
        (record { handed = W.handed wire.old; jobs = C.job_count crew.old })
        (record { handed = W.handed wire.new; jobs = C.job_count crew.new }) (K.written output.old) (K.written output.new) result }
    ensures flushed { result ≡ Status.Done → K.flushed output.new }
    ensures all_flushed { result ≢ Status.WriteFault → (output.new ≡ output.old) ⊎ K.flushed output.new }
    ensures read_count { CountsFaults Status.ReadFault result (S.fault_count input.old) (S.fault_count input.new) }
    ensures write_count { CountsFaults Status.WriteFault result (K.fault_count output.old) (K.fault_count output.new) }
    ensures crew_faults { TellsFaults Status.CrewFault result (C.fault_count crew.old) (C.fault_count crew.new) }
    ensures link_faults { TellsFaults Status.LinkFault result (W.fault_count wire.old) (W.fault_count wire.new) }
    ensures read_faults_never_fall { S.fault_count input.old ≤ S.fault_count input.new }
    ensures write_faults_never_fall { K.fault_count output.old ≤ K.fault_count output.new }
    ensures crew_faults_never_fall { C.fault_count crew.old ≤ C.fault_count crew.new }
    ensures link_faults_never_fall { W.fault_count wire.old ≤ W.fault_count wire.new }
{
    match read_text(alloc, input) {
        Ok(text) => {
            let text = text.as_slice();
            let asked = NodeText { alloc, host, text };
            answer_node(rt, &asked, output, crew, pacer, wire)
        }
        Err(refusal) => Status::from(refusal),
    }
}
