//! The lines of a scenario behind its processes.

ghost use Rattle.std.specs.Prelude.{◌≡◌, ◌&&◌, ◌≤◌, true, false, Some, None, IfOk, nat_le, position, if◌then◌else◌};
ghost use Rattle.vk_base.specs.Pids.{same_pid};
ghost use Rattle.vk_text.specs.Lines.{words_from};
ghost use Rattle.vk_event.specs.Tasks.{do_of, given_to, has_memory, memory_for, memory_of, program_of, task_line_of, with_task_line};
ghost use Rattle.vk_event.specs.Endings.{plan_fields_of, plan_of, round_count_of, rounds_of};

use crate::programs::read_kind;
use crate::task::{Given, IMAGE_BYTES, PAGE_BYTES, Task, TaskKind};
use std::alloc::Global;
use vk_base::limits::{MESSAGE_BYTES, SEGMENT_BYTES};
use vk_base::{NoMemory, Pid, ProcessSpec};
use vk_schedule::LinkPlan;
use vk_text::{is_end, next_number, next_pid, next_word, read_call};

/// A process, and what a line gives it.
#[derive(Drop)]
pub struct TaskLine {
    pub pid: Pid,
    pub given: Given,
}

/// `PID CALLTEXT`
#[tactic(auto, unfolding(crate::specs::Tasks::do_of))]
fn read_do(line: &[u8], at: usize) -> Option<TaskLine>
    ensures { result ≡ do_of (words_from line.now at) }
{
    let (pid, at) = next_pid(line, at)?;
    let call = read_call(line, at)?;
    Some(TaskLine {
        pid,
        given: Given::Call { call },
    })
}

/// `PID PROGRAM`
#[tactic(auto, unfolding(crate::specs::Tasks::program_of))]
fn read_program(alloc: Global, line: &[u8], at: usize) -> Result<Option<TaskLine>, NoMemory>
    ensures { IfOk result (λ told. told ≡ program_of (words_from line.now at)) }
{
    let Some((pid, at)) = next_pid(line, at) else {
        return Ok(None);
    };
    match read_kind(alloc, line, at)? {
        Some(kind) => Ok(Some(TaskLine {
            pid,
            given: Given::Program { kind },
        })),
        None => Ok(None),
    }
}

/// What the line gives to a process.
#[tactic(auto, unfolding(crate::specs::Tasks::task_line_of))]
fn read_task_line(alloc: Global, line: &[u8]) -> Result<Option<TaskLine>, NoMemory>
    ensures { IfOk result (λ told. told ≡ task_line_of (words_from line.now 0)) }
{
    let Some((word, at)) = next_word(line, 0) else {
        return Ok(None);
    };
    if word == b"do".as_slice() {
        Ok(read_do(line, at))
    } else if word == b"program".as_slice() {
        read_program(alloc, line, at)
    } else {
        Ok(None)
    }
}

/// The bytes of memory that a process needs for it.
fn memory_for(given: &Given) -> u32
    ensures { result ≡ memory_for given.now }
{
    match given {
        Given::Call { .. } => 0,
        Given::Program { kind } => match kind {
            TaskKind::Script { .. } => 0,
            TaskKind::PageServer { .. } => PAGE_BYTES as u32,
            TaskKind::PageClient { .. } => 2 * PAGE_BYTES as u32,
            TaskKind::FileServer { .. } | TaskKind::Loader { .. } => IMAGE_BYTES as u32,
            TaskKind::PipeServer { .. } | TaskKind::Group { .. } => SEGMENT_BYTES,
            TaskKind::GroupHelper { .. } => MESSAGE_BYTES as u32,
        },
    }
}

/// Whether there is this process, with so many bytes of memory.
fn has_memory(specs: &[ProcessSpec], pid: Pid, bytes: u32) -> bool
    ensures { result ≡ has_memory specs.now pid bytes }
{
    specs.iter().any(|s| s.pid == pid && bytes <= s.size)
}

fn place_of(tasks: &[Task], pid: Pid) -> Option<usize>
    ensures { result ≡ position (λ t. same_pid t.pid pid) tasks.now }
{
    tasks.iter().position(|t| t.pid == pid)
}

/// Gives this to the process, and tells whether it may have it. Otherwise nothing changes.
fn give(tasks: &mut Vec<Task>, pid: Pid, given: Given) -> Result<bool, NoMemory>
    ensures given { IfOk result (λ done. given_to pid given tasks.old.items ≡ (if done then Some tasks.new.items else None)) }
    ensures same { IfOk result (λ done. done ≡ false → tasks.new.items ≡ tasks.old.items) }
{
    match place_of(tasks, pid) {
        Some(at) => tasks[at].give(given),
        None => Ok(false),
    }
}

/// Gives to a process what the line says, and tells whether the line is one of a task. Otherwise nothing changes.
pub fn take_line(
    alloc: Global,
    specs: &[ProcessSpec],
    tasks: &mut Vec<Task>,
    line: &[u8],
) -> Result<bool, NoMemory>
    ensures taken { IfOk result (λ done. with_task_line specs.now tasks.old.items line.now
        ≡ (if done then Some tasks.new.items else None)) }
    ensures same { IfOk result (λ done. done ≡ false → tasks.new.items ≡ tasks.old.items) }
{
    let Some(TaskLine { pid, given }) = read_task_line(alloc, line)? else {
        return Ok(false);
    };
    if has_memory(specs, pid, memory_for(&given)) {
        give(tasks, pid, given)
    } else {
        Ok(false)
    }
}

/// `LOSE DOUBLE HOLD SEED`
#[tactic(auto, unfolding(crate::specs::Endings::plan_fields_of))]
fn read_plan_fields(line: &[u8], at: usize) -> Option<LinkPlan>
    ensures { result ≡ plan_fields_of (words_from line.now at) }
{
    let (lose, at) = next_number(line, at, u64::from(u8::MAX))?;
    let (double, at) = next_number(line, at, u64::from(u8::MAX))?;
    let (hold, at) = next_number(line, at, u64::from(u8::MAX))?;
    let (seed, at) = next_number(line, at, u64::MAX)?;
    if is_end(line, at) {
        Some(LinkPlan {
            lose: lose as u8,
            double: double as u8,
            hold: hold as u8,
            seed,
        })
    } else {
        None
    }
}

/// `link LOSE DOUBLE HOLD SEED`
#[tactic(auto, unfolding(crate::specs::Endings::plan_of))]
pub fn read_plan(line: &[u8]) -> Option<LinkPlan>
    ensures { result ≡ plan_of (words_from line.now 0) }
{
    let (word, at) = next_word(line, 0)?;
    if word == b"link".as_slice() {
        read_plan_fields(line, at)
    } else {
        None
    }
}

/// `ROUNDS`
#[tactic(auto, unfolding(crate::specs::Endings::round_count_of))]
fn read_round_count(line: &[u8], at: usize, most: u32) -> Option<u32>
    ensures { result ≡ round_count_of most (words_from line.now at) }
{
    let (rounds, at) = next_number(line, at, u64::from(most))?;
    if is_end(line, at) {
        Some(rounds as u32)
    } else {
        None
    }
}

/// `ticks ROUNDS`, of at most so many rounds
#[tactic(auto, unfolding(crate::specs::Endings::rounds_of))]
pub fn read_rounds(line: &[u8], most: u32) -> Option<u32>
    ensures { result ≡ rounds_of most (words_from line.now 0) }
{
    let (word, at) = next_word(line, 0)?;
    if word == b"ticks".as_slice() {
        read_round_count(line, at, most)
    } else {
        None
    }
}
