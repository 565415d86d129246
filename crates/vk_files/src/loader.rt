//! The loader.

ghost use Rattle.std.specs.Prelude.{◌≡◌, ◌≤◌, ◌+◌, [], min, length, slice_get, if◌then◌else◌};
ghost use Rattle.vk_program.specs.Tasks.{script_call};
ghost use Rattle.vk_files.specs.Loaders.{IsLoaderAfter, loader_calls, loader_name};

use crate::limits::{FILE_BYTES, NAME_BYTES};
use crate::message::{load_of, open_of};
use vk_base::{Answer, Call, Pid};
use vk_program::Program;

/// Opens a file by its name, loads it to the beginning of its memory, and looks at its last bytes, whatever the answers are.
#[derive(Drop)]
pub struct Loader {
    server: Pid,
    file: u32,
    /// How many of its calls were answered.
    at: usize,
    ghost few: { file ≤ 15 },
}

/// The name of a file of this number.
pub fn loader_name(file: u32) -> [u8; NAME_BYTES]
    requires { file ≤ 15 }
    ensures { result ≡ loader_name file }
{
    if file < 10 {
        let digit = 48 + file as u8;
        [
            102, digit, 0, 0, 0, 0, 0, 0, 0, 0, 0, 0, 0, 0, 0, 0, 0, 0, 0, 0,
        ]
    } else {
        let digit = 48 + (file - 10) as u8;
        [
            102, 49, digit, 0, 0, 0, 0, 0, 0, 0, 0, 0, 0, 0, 0, 0, 0, 0, 0, 0,
        ]
    }
}

impl Loader {
    /// A loader of the file with this number, at most 15, from this server.
    pub fn new(server: Pid, file: u32) -> Self
        requires { file ≤ 15 }
        ensures server { result.server ≡ server }
        ensures file { result.file ≡ file }
        ensures after { IsLoaderAfter result.at [] }
    {
        Loader {
            server,
            file,
            at: 0,
        }
    }

    /// Its call at this place.
    fn call_at(&self, at: usize) -> Option<Call>
        ensures { result ≡ slice_get (loader_calls self.now.server self.now.file) at }
    {
        let target = self.server;
        match at {
            0 => Some(Call::Send {
                target,
                message: open_of(&loader_name(self.file)),
            }),
            1 => Some(Call::Send {
                target,
                message: load_of(self.file, 0, FILE_BYTES),
            }),
            2 => Some(Call::Load {
                start: 64_512,
                count: 1_024,
            }),
            _ => None,
        }
    }
}

impl Program for Loader {
    ghost task = { λ l. script_call (loader_calls l.server l.file) };

    ghost is_after = { λ l answers. IsLoaderAfter l.at answers };

    fn next(&mut self, last: Option<&Answer>) -> Option<Call> {
        self.at = counted(self.at, last.is_some());
        self.call_at(self.at)
    }
}

/// How many of the three calls were answered, with one answer more or not.
fn counted(at: usize, is_told: bool) -> usize
    ensures { result ≡ min (if is_told then at + 1 else at) 3 }
{
    if is_told && at < 3 { at + 1 } else { at.min(3) }
}
