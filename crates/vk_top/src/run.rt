//! `run`: all stations of a scenario, beside each other.

ghost use Rattle.std.specs.Prelude.{◌≡◌, ◌≢◌, ◌≤◌, ◌⊎◌, ◌+◌, ◌-◌, ◌^◌, min, length, Ok, IfOk, IfErr, OnOk};
ghost use Rattle.vk_base.specs.declared.limits.TheConstants.{INPUT_BYTES};
ghost use Rattle.vk_edge.specs.Answers.{CountsFaults, TellsFaults};
ghost use Rattle.v_run.specs.Ran.{IsRun};
ghost use Rattle.vk_event.specs.ScenarioLaws.{IsLawfulScenario};
ghost use Rattle.vk_schedule.specs.Lawful.{IsLawful};
ghost use Rattle.vk_schedule.specs.Schedule.{schedule_of};
ghost use Rattle.vk_schedule.specs.Spelling.{schedule_text};
ghost use Rattle.vk_threads.specs.Assigned.{LeavesJobs, TellsRunFault};
ghost use Rattle.vk_top.specs.Programs.{assignments_of};
ghost use Rattle.vk_top.specs.Runs.{IsRunAnswer, IsRunFailure, TellsRun, jobs_of, run_asked};
ghost use Rattle.vk_top.specs.Threaded.{IsThreadedAnswered, IsThreadedRefusal, IsThreadedWork, ended};

use crate::program::programs_of;
use crate::status::Status;
use crate::top::{TextOutput, write_work};
use std::alloc::Global;
use std::sync::Wait;
use std::thread::Threads;
use std::time::Clock;
use v_run::RunEnd;
use vk_edge::read_text;
use vk_event::{Scenario, read_scenario};
use vk_io::{Crew, Pacer, Sink, Source};
use vk_join::JoinedSchedule;
use vk_threads::{RunRecord, RunRefusal, run_programs};

/// The answer to a run that ended so.
pub(crate) fn ended_as(end: RunEnd) -> Status
    ensures { result ≡ ended end }
{
    match end {
        RunEnd::Done => Status::Done,
        RunEnd::Limited => Status::Limit,
        RunEnd::Waiting => Status::Waiting,
    }
}

/// The text of the schedule that a run gave, and the answer then.
fn written(alloc: Global, schedule: &JoinedSchedule, end: RunEnd) -> Result<TextOutput, Status>
    requires { IsLawful schedule.now }
    ensures work { IfOk result (λ w. (w.text.items ≡ schedule_text schedule.now) × (w.status ≡ ended end)) }
    ensures read { OnOk result (schedule_of (schedule_text schedule.now) ≡ Ok schedule.now) }
    ensures refused { IfErr result (λ s. s ≡ Status.NoMemory) }
{
    let text = schedule.write(alloc)?;
    Ok(TextOutput {
        text,
        status: ended_as(end),
    })
}

/// What happened where each process of the scenario was run with its program.
fn run_scenario<C: Crew, P: Pacer + Send, R: Wait + Threads + Clock + Sync>(
    rt: &R,
    alloc: Global,
    scenario: Scenario,
    crew: &mut C,
    pacer: &mut P,
) -> Result<RunRecord, RunRefusal>
    requires { IsLawfulScenario scenario }
    ensures ran { IfOk result (λ r. IsRun scenario.config scenario.plan scenario.rounds (assignments_of scenario.tasks) r.end
        r.schedule) }
    ensures jobs { OnOk result (C.job_count crew.new ≡ min (C.job_count crew.old + jobs_of scenario) (2 ^ 64 - 1)) }
    ensures no_jobs { IfErr result (LeavesJobs (C.job_count crew.old)
        (min (C.job_count crew.old + jobs_of scenario) (2 ^ 64 - 1)) (C.job_count crew.new)) }
    ensures fault { TellsRunFault (C.fault_count crew.old) (C.fault_count crew.new) result }
    ensures never_falls { C.fault_count crew.old ≤ C.fault_count crew.new }
{
    let _faults = crew.faults();
    let Scenario {
        config,
        tasks,
        plan,
        rounds,
        ..
    } = scenario;
    let Ok(programs) = programs_of(alloc, &config, tasks.as_slice()) else {
        return Err(RunRefusal::NoMemory);
    };
    run_programs(rt, alloc, config, programs, plan, rounds, crew, pacer)
}

/// `run`: the schedule of what happened where the stations of the scenario ran.
fn run_text<C: Crew, P: Pacer + Send, R: Wait + Threads + Clock + Sync>(
    rt: &R,
    alloc: Global,
    text: &[u8],
    crew: &mut C,
    pacer: &mut P,
) -> Result<TextOutput, Status>
    requires { length text.now ≤ INPUT_BYTES }
    ensures work { IfOk result (IsThreadedWork (TellsRun (C.job_count crew.old) (C.job_count crew.new)) run_asked text.now) }
    ensures refused { IfErr result (IsThreadedRefusal run_asked (IsRunFailure (C.job_count crew.old) (C.job_count crew.new))
        (crew.new ≡ crew.old) text.now) }
    ensures kept { OnOk result (C.fault_count crew.new ≡ C.fault_count crew.old) }
    ensures faults { IfErr result (λ s. TellsFaults Status.CrewFault s (C.fault_count crew.old) (C.fault_count crew.new)) }
    ensures never_falls { C.fault_count crew.old ≤ C.fault_count crew.new }
{
    let scenario = read_scenario(alloc, text)?;
    let ran = run_scenario(rt, alloc, scenario, crew, pacer)?;
    written(alloc, &ran.schedule, ran.end)
}

/// The whole work on the text of a scenario that was read.
fn answer_run<K: Sink, C: Crew, P: Pacer + Send, R: Wait + Threads + Clock + Sync>(
    rt: &R,
    alloc: Global,
    text: &[u8],
    output: &mut K,
    crew: &mut C,
    pacer: &mut P,
) -> Status
    requires { length text.now ≤ INPUT_BYTES }
    ensures answered { IsThreadedAnswered (TellsRun (C.job_count crew.old) (C.job_count crew.new)) run_asked
        (IsRunFailure (C.job_count crew.old) (C.job_count crew.new)) (output.new ≡ output.old) (crew.new ≡ crew.old)
        text.now (K.written output.old) (K.written output.new) result }
    ensures flushed { result ≡ Status.Done → K.flushed output.new }
    ensures all_flushed { result ≢ Status.WriteFault → (output.new ≡ output.old) ⊎ K.flushed output.new }
    ensures write_count { CountsFaults Status.WriteFault result (K.fault_count output.old) (K.fault_count output.new) }
    ensures crew_faults { TellsFaults Status.CrewFault result (C.fault_count crew.old) (C.fault_count crew.new) }
    ensures write_faults_never_fall { K.fault_count output.old ≤ K.fault_count output.new }
    ensures crew_faults_never_fall { C.fault_count crew.old ≤ C.fault_count crew.new }
{
    match run_text(rt, alloc, text, crew, pacer) {
        Ok(work) => write_work(output, &work),
        Err(status) => status,
    }
}

/// The whole work of `run`.
pub(crate) fn run<S: Source, K: Sink, C: Crew, P: Pacer + Send, R: Wait + Threads + Clock + Sync>(
    rt: &R,
    alloc: Global,
    input: &mut S,
    output: &mut K,
    crew: &mut C,
    pacer: &mut P,
) -> Status
    ensures answer { IsRunAnswer (input.new ≡ input.old) (output.new ≡ output.old) (crew.new ≡ crew.old)
        (S.left input.old) (S.left input.new) (C.job_count crew.old) (C.job_count crew.new)
        (K.written output.old) (K.written output.new) result }
    ensures flushed { result ≡ Status.Done → K.flushed output.new }
    ensures all_flushed { result ≢ Status.WriteFault → (output.new ≡ output.old) ⊎ K.flushed output.new }
    ensures read_count { CountsFaults Status.ReadFault result (S.fault_count input.old) (S.fault_count input.new) }
    ensures write_count { CountsFaults Status.WriteFault result (K.fault_count output.old) (K.fault_count output.new) }
    ensures crew_faults { TellsFaults Status.CrewFault result (C.fault_count crew.old) (C.fault_count crew.new) }
    ensures read_faults_never_fall { S.fault_count input.old ≤ S.fault_count input.new }
    ensures write_faults_never_fall { K.fault_count output.old ≤ K.fault_count output.new }
    ensures crew_faults_never_fall { C.fault_count crew.old ≤ C.fault_count crew.new }
{
    match read_text(alloc, input) {
        Ok(text) => answer_run(rt, alloc, &text, output, crew, pacer),
        Err(refusal) => Status::from(refusal),
    }
}
