//! The server and the scripts of its clients, as one program.

ghost use Rattle.vk_values.specs.Any.{IsAfter, call_by};

use crate::server::KeyServer;
use vk_base::{Answer, Call};
use vk_program::{Program, Script};

/// A server, or a script: the calls of a client.
#[derive(Drop)]
pub enum KeyProgram {
    Server { server: KeyServer },
    Script { script: Script },
}

impl Program for KeyProgram {
    ghost task = { call_by };

    ghost is_after = { IsAfter };

    fn next(&mut self, last: Option<&Answer>) -> Option<Call> {
        match self {
            KeyProgram::Server { server } => server.next(last),
            KeyProgram::Script { script } => script.next(last),
        }
    }
}
