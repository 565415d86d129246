//! What each process of a scenario is to do.

ghost use Rattle.std.specs.Prelude.{◌≡◌, true, false, Some, None, IfOk, if◌then◌else◌};
ghost use Rattle.vk_event.specs.Tasks.{given_kind, is_idle};

use crate::pair::HelperPair;
use vk_base::{Call, List, NoMemory, Pid};

/// Bytes of a page.
pub const PAGE_BYTES: usize = 512;
/// Pages of one page server.
pub const PAGES: u32 = 4_096;
/// Files of one file server.
pub const FILES: u32 = 16;
/// Bytes of memory that one file wants of those who move it whole.
pub const IMAGE_BYTES: usize = 65_536;

/// The program of a process.
#[derive(Drop)]
pub enum TaskKind {
    /// Makes these calls, one after the other, whatever they are answered.
    Script {
        calls: List<Call>,
    },
    /// Serves reads and writes of so many pages, 1 to 4,096, and ends after so many replies.
    PageServer {
        pages: u32,
        requests: u32,
    },
    /// In each round writes a page of the server, which has so many, 1 to 4,096, and reads it again.
    PageClient {
        server: Pid,
        pages: u32,
        rounds: u32,
    },
    /// Serves so many files, 1 to 16, and ends after so many replies.
    FileServer {
        files: u32,
        requests: u32,
    },
    /// Loads the file of this number, 0 to 15, from the server.
    Loader {
        server: Pid,
        file: u32,
    },
    /// Serves a pipe, and ends after so many replies.
    PipeServer {
        requests: u32,
    },
    /// Brings messages to the members of these pairs, which make a group, by their helpers, and ends after so many replies.
    Group {
        requests: u32,
        pairs: List<HelperPair>,
    },
    /// Sends to the member what the coordinator gives it.
    GroupHelper {
        coordinator: Pid,
        member: Pid,
    },
}

/// A process and its program.
#[derive(Drop)]
pub struct Task {
    pub pid: Pid,
    pub kind: TaskKind,
}

/// What a line gives a process: a call behind those of its script, or a program.
#[derive(Drop)]
pub enum Given {
    Call { call: Call },
    Program { kind: TaskKind },
}

impl Task {
    /// Whether no line has given it anything yet.
    fn is_idle(&self) -> bool
        ensures { result ≡ is_idle self.now.kind }
    {
        match &self.kind {
            TaskKind::Script { calls } => calls.len() == 0,
            _ => false,
        }
    }

    /// Puts the call behind those of its script, and tells whether it has one.
    fn add_call(&mut self, call: Call) -> Result<bool, NoMemory>
        ensures kind { IfOk result (λ done. given_kind (Given.Call call) self.old.kind ≡ (if done then Some self.new.kind else None)) }
        ensures pid { self.new ≡ record self.old { kind = self.new.kind } }
        ensures same { IfOk result (λ done. done ≡ false → self.new ≡ self.old) }
    {
        match self.kind {
            TaskKind::Script { ref mut calls } => {
                calls.push(call)?;
                Ok(true)
            }
            _ => Ok(false),
        }
    }

    /// Gives the process this program, where no line has given it anything yet, and tells whether it did.
    fn set_program(&mut self, kind: TaskKind) -> bool
        ensures kind { given_kind (Given.Program kind) self.old.kind ≡ (if result then Some self.new.kind else None) }
        ensures pid { self.new ≡ record self.old { kind = self.new.kind } }
        ensures same { result ≡ false → self.new ≡ self.old }
    {
        let idle = self.is_idle();
        if idle {
            self.kind = kind;
        }
        idle
    }

    /// Gives the process what its line says, and tells whether it may have it. Otherwise nothing changes.
    pub fn give(&mut self, given: Given) -> Result<bool, NoMemory>
        ensures kind { IfOk result (λ done. given_kind given self.old.kind ≡ (if done then Some self.new.kind else None)) }
        ensures pid { self.new ≡ record self.old { kind = self.new.kind } }
        ensures same { IfOk result (λ done. done ≡ false → self.new ≡ self.old) }
    {
        match given {
            Given::Call { call } => self.add_call(call),
            Given::Program { kind } => Ok(self.set_program(kind)),
        }
    }
}
