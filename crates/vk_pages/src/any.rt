//! Scripts and programs of pages, as one program.

ghost use Rattle.std.specs.Prelude.{◌≡◌, [], IfOk};
ghost use Rattle.vk_pages.specs.Any.{IsAfter, IsTaskOf, are_any_kinds, call_by, is_any_kind};
ghost use Rattle.vk_pages.specs.Programs.{task_call};

use crate::client::PageClient;
use crate::server::PageServer;
use crate::store::MemoryPages;
use std::alloc::Global;
use vk_base::{Answer, Call, Config, List, NoMemory};
use vk_event::{Task, TaskKind};
use vk_program::{Program, Script};

/// The program of a task that is a script or a program of pages.
#[derive(Drop)]
pub enum AnyProgram {
    Script { script: Script },
    Server { server: PageServer<MemoryPages> },
    Client { client: PageClient },
}

/// Whether it is a script or a program of pages.
fn is_any_kind(kind: &TaskKind) -> bool
    ensures { result ≡ is_any_kind kind.now }
{
    matches!(
        kind,
        TaskKind::Script { .. } | TaskKind::PageServer { .. } | TaskKind::PageClient { .. }
    )
}

/// Whether each of the tasks is a script or a program of pages.
pub fn are_any_kinds(tasks: &[Task]) -> bool
    ensures { result ≡ are_any_kinds tasks.now }
{
    tasks.iter().all(|task| is_any_kind(&task.kind))
}

/// The calls once more.
fn copied(alloc: Global, calls: &[Call]) -> Result<List<Call>, NoMemory>
    ensures { IfOk result (λ l. l ≡ calls.now) }
{
    let mut copies = List::empty(alloc);
    for call in calls {
        copies.push(call.copy())?;
    }
    Ok(copies)
}

impl AnyProgram {
    /// The program of a task that is one of this configuration, a script or a program of pages.
    ///
    /// # Errors
    ///
    /// [`NoMemory`] where memory is wanting.
    pub fn new(alloc: Global, _config: &Config, task: &Task) -> Result<Self, NoMemory>
        requires { IsTaskOf _config.now.specs task.now }
        ensures task { IfOk result (λ p. call_by p ≡ task_call task.now) }
        ensures after { IfOk result (λ p. IsAfter p []) }
    {
        match &task.kind {
            TaskKind::Script { calls } => Ok(AnyProgram::Script {
                script: Script::new(copied(alloc, calls.as_slice())?),
            }),
            TaskKind::PageServer { pages, requests } => {
                let store = MemoryPages::new(alloc, *pages)?;
                let server = PageServer::new(store, *pages, *requests);
                Ok(AnyProgram::Server { server })
            }
            TaskKind::PageClient {
                server,
                pages,
                rounds,
            } => Ok(AnyProgram::Client {
                client: PageClient::new(task.pid.host, *server, *pages, *rounds),
            }),
            _ => unreachable!(),
        }
    }
}

impl Program for AnyProgram {
    ghost task = { call_by };

    ghost is_after = { IsAfter };

    fn next(&mut self, last: Option<&Answer>) -> Option<Call> {
        match self {
            AnyProgram::Script { script } => script.next(last),
            AnyProgram::Server { server } => server.next(last),
            AnyProgram::Client { client } => client.next(last),
        }
    }
}
