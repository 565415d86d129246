//! The four processes of a storm.

ghost use Rattle.std.specs.Prelude.{◌≡◌, IfOk};
ghost use Rattle.vk_base.specs.Settings.{has_station};
ghost use Rattle.vk_drive.specs.Tasks.{client, server, settings, specs, tasks};

use std::alloc::Global;
use vk_base::{Config, NoMemory, Pid, ProcessSpec};
use vk_event::{Task, TaskKind};
use vk_text::{USUAL_POOL, empty_config};

/// The page server's process.
const SERVER: Pid = Pid { host: 1, local: 1 };
/// The pages that it serves.
const PAGES: u32 = 16;
/// More requests and rounds than there are events.
const WITHOUT_END: u32 = u32::MAX;
/// Bytes of each process's memory.
const MEMORY: u32 = 1_024;

fn server() -> Task
    ensures { result ≡ server }
{
    Task {
        pid: SERVER,
        kind: TaskKind::PageServer {
            pages: PAGES,
            requests: WITHOUT_END,
        },
    }
}

/// A client of the server, as this process.
fn client(pid: Pid) -> Task
    ensures { result ≡ client pid }
{
    Task {
        pid,
        kind: TaskKind::PageClient {
            server: SERVER,
            pages: PAGES,
            rounds: WITHOUT_END,
        },
    }
}

/// What each process does.
pub fn tasks() -> [Task; 4]
    ensures { result ≡ tasks }
{
    [
        server(),
        client(Pid { host: 2, local: 1 }),
        client(Pid { host: 3, local: 1 }),
        client(Pid { host: 4, local: 1 }),
    ]
}

/// The configuration of these processes.
///
/// # Errors
///
/// [`NoMemory`] where memory is wanting.
pub fn settings(alloc: Global) -> Result<Config, NoMemory>
    ensures { IfOk result (λ config. config ≡ settings) }
{
    let mut config = empty_config(alloc);
    let tasks = tasks();
    for task in &tasks {
        let size = MEMORY;
        let pid = task.pid;
        match config.add(ProcessSpec { pid, size }, USUAL_POOL) {
            Ok(()) => {}
            Err(_) => return Err(NoMemory),
        }
    }
    Ok(config)
}

/// Whether the host is one of the four stations.
pub fn is_station(host: u16) -> bool
    ensures { result ≡ has_station specs host }
{
    host >= 1 && host <= 4
}
