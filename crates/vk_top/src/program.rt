//! Any program of a scenario.

ghost use Rattle.std.specs.Prelude.{◌≡◌, ◌≤◌, [], IfOk};
ghost use Rattle.vk_files.specs.MemoryDisks.{sure_state};
ghost use Rattle.vk_files.specs.Numbered.{numbered_blocks};
ghost use Rattle.vk_files.specs.Tasks.{IsAfter as IsServerAfter, file_task};
ghost use Rattle.vk_rules.specs.Each.{Each};
ghost use Rattle.vk_top.specs.Programs.{AreTopPrograms, IsAfter, IsTopTask, call_by, tasks_at, top_call};

use std::alloc::Global;
use vk_base::{Answer, Call, Config, NoMemory};
use vk_event::{Task, TaskKind};
use vk_files::{FileServer, Loader, SureDisk, VolumeFault, VolumeRefusal, numbered_disk};
use vk_group::{Coordinator, Helper};
use vk_pages::AnyProgram;
use vk_pipe::PipeServer;
use vk_program::{Assigned, Program};

/// The program of a task.
#[derive(Drop)]
pub enum TopProgram {
    /// A script or a program of pages.
    Old { program: AnyProgram },
    FileServer { program: FileServer<SureDisk> },
    Loader { program: Loader },
    PipeServer { program: PipeServer },
    Coordinator { program: Coordinator },
    Helper { program: Helper },
}

/// A server of so many files that are named by their numbers.
fn file_server(alloc: Global, files: u32, requests: u32) -> Result<FileServer<SureDisk>, NoMemory>
    requires { files ≤ 16 }
    ensures task { IfOk result (λ s. file_task s.first s.requests ≡ file_task (sure_state (numbered_blocks files)) requests) }
    ensures after { IfOk result (λ s. IsServerAfter s []) }
{
    let disk = numbered_disk(alloc, files)?;
    match FileServer::new(alloc, disk, requests) {
        Ok(server) => Ok(server),
        Err(VolumeRefusal { why, .. }) => match why {
            VolumeFault::NoMemory => Err(NoMemory),
            // the disk never fails, and its directory is lawful
            VolumeFault::Failed => unreachable!(),
            VolumeFault::BadVolume { .. } => unreachable!(),
        },
    }
}

impl TopProgram {
    /// The program of a task that is one of this configuration.
    ///
    /// # Errors
    ///
    /// [`NoMemory`] where memory is wanting.
    pub fn new(alloc: Global, config: &Config, task: &Task) -> Result<Self, NoMemory>
        requires { IsTopTask config.now.specs task.now }
        ensures task { IfOk result (λ p. call_by p ≡ top_call task.now) }
        ensures after { IfOk result (λ p. IsAfter p []) }
    {
        match &task.kind {
            TaskKind::FileServer { files, requests } => Ok(TopProgram::FileServer {
                program: file_server(alloc, *files, *requests)?,
            }),
            TaskKind::Loader { server, file } => Ok(TopProgram::Loader {
                program: Loader::new(*server, *file),
            }),
            TaskKind::PipeServer { requests } => Ok(TopProgram::PipeServer {
                program: PipeServer::new(alloc, *requests)?,
            }),
            TaskKind::Group { requests, pairs } => {
                match Coordinator::new(pairs.as_slice(), *requests) {
                    Some(program) => Ok(TopProgram::Coordinator { program }),
                    None => unreachable!(),
                }
            }
            TaskKind::GroupHelper {
                coordinator,
                member,
            } => Ok(TopProgram::Helper {
                program: Helper::new(*coordinator, *member),
            }),
            TaskKind::Script { .. } | TaskKind::PageServer { .. } | TaskKind::PageClient { .. } => {
                Ok(TopProgram::Old {
                    program: AnyProgram::new(alloc, config, task)?,
                })
            }
        }
    }
}

impl Program for TopProgram {
    ghost task = { call_by };

    ghost is_after = { IsAfter };

    fn next(&mut self, last: Option<&Answer>) -> Option<Call> {
        match self {
            TopProgram::Old { program } => program.next(last),
            TopProgram::FileServer { program } => program.next(last),
            TopProgram::Loader { program } => program.next(last),
            TopProgram::PipeServer { program } => program.next(last),
            TopProgram::Coordinator { program } => program.next(last),
            TopProgram::Helper { program } => program.next(last),
        }
    }
}

/// The programs of these tasks.
///
/// # Errors
///
/// [`NoMemory`] where memory is wanting.
pub fn programs_of(
    alloc: Global,
    config: &Config,
    tasks: &[Task],
) -> Result<Vec<Assigned<TopProgram>>, NoMemory>
    requires { Each (IsTopTask config.now.specs) tasks.now }
    ensures { IfOk result (λ programs. AreTopPrograms tasks.now programs.items) }
{
    let mut programs = Vec::new(alloc);
    for task in tasks {
        let program = TopProgram::new(alloc, config, task)?;
        programs.push(Assigned {
            pid: task.pid,
            program,
        })?;
    }
    Ok(programs)
}

/// The programs of those of these tasks whose processes are on this station.
///
/// # Errors
///
/// [`NoMemory`] where memory is wanting.
pub fn programs_at(
    alloc: Global,
    config: &Config,
    tasks: &[Task],
    host: u16,
) -> Result<Vec<Assigned<TopProgram>>, NoMemory>
    requires { Each (IsTopTask config.now.specs) tasks.now }
    ensures { IfOk result (λ programs. AreTopPrograms (tasks_at host tasks.now) programs.items) }
{
    let mut programs = Vec::new(alloc);
    for task in tasks {
        if task.pid.host == host {
            let program = TopProgram::new(alloc, config, task)?;
            programs.push(Assigned {
                pid: task.pid,
                program,
            })?;
        }
    }
    Ok(programs)
}
