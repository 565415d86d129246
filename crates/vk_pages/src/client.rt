//! The page client.

ghost use Rattle.std.specs.Prelude.{◌≡◌, ℕ, ◌<◌, ◌+◌, min, [], length, replicate, option_copied};
ghost use Rattle.vk_program.specs.Tasks.{told_by};
ghost use Rattle.vk_event.specs.declared.task.TheConstants.{PAGE_BYTES};
ghost use Rattle.vk_pages.specs.Clients.{IsClientAfter, client_call, fill_of, round_call};

use crate::message::request_of;
use vk_base::{Answer, Call, Data, Pid};
use vk_event::PAGE_BYTES;
use vk_program::Program;

/// Writes in each round a page of the server and reads it again, whatever the answers are.
#[derive(Drop)]
pub struct PageClient {
    host: u16,
    server: Pid,
    pages: u32,
    rounds: u32,
    /// How many of its calls were answered, four a round.
    at: u64,
    ghost some: { 0 < pages },
}

/// A page of this byte.
fn filled(byte: u8) -> Data
    ensures { result ≡ replicate PAGE_BYTES byte }
{
    match Data::new(&[byte; PAGE_BYTES]) {
        Some(bytes) => bytes,
        None => unreachable!(),
    }
}

/// The byte that a client on this host writes in a round.
fn fill_of(host: u16, round: u32) -> u8
    ensures { result ≡ fill_of host round }
{
    ((u64::from(round) + u64::from(host)) % 256) as u8
}

impl PageClient {
    /// A client on this host, of a server with so many pages, at least one.
    pub fn new(host: u16, server: Pid, pages: u32, rounds: u32) -> Self
        requires { 0 < pages }
        ensures host { result.host ≡ host }
        ensures server { result.server ≡ server }
        ensures pages { result.pages ≡ pages }
        ensures rounds { result.rounds ≡ rounds }
        ensures after { IsClientAfter rounds result.at [] }
    {
        PageClient {
            host,
            server,
            pages,
            rounds,
            at: 0,
        }
    }

    /// The call of this round, of its four from 0.
    fn round_call(&self, round: u32, call: u64) -> Call
        ensures { result ≡ round_call self.now.host self.now.server self.now.pages round call }
    {
        let page = round % self.pages;
        if call == 0 {
            let bytes = filled(fill_of(self.host, round));
            Call::Store { start: 0, bytes }
        } else if call == 1 {
            let message = request_of(1, 2, page, 0, PAGE_BYTES as u32);
            let target = self.server;
            Call::Send { target, message }
        } else if call == 2 {
            let message = request_of(2, 1, page, PAGE_BYTES as u32, PAGE_BYTES as u32);
            let target = self.server;
            Call::Send { target, message }
        } else {
            let start = PAGE_BYTES as u32;
            let count = PAGE_BYTES as u32;
            Call::Load { start, count }
        }
    }
}

/// How many of so many calls are answered with this, where `at` of them were before, or all.
fn answered(last: Option<&Answer>, at: u64, most: u64) -> u64
    ensures { (n : ℕ) → at ≡ min n most → result ≡ min (n + length (told_by (option_copied last.entry))) most }
{
    if last.is_some() && at < most {
        at + 1
    } else {
        at
    }
}

impl Program for PageClient {
    ghost task = { λ c. client_call c.host c.server c.pages c.rounds };

    ghost is_after = { λ c answers. IsClientAfter c.rounds c.at answers };

    fn next(&mut self, last: Option<&Answer>) -> Option<Call> {
        let end = 4 * u64::from(self.rounds);
        self.at = answered(last, self.at, end);
        if self.at < end {
            Some(self.round_call((self.at / 4) as u32, self.at % 4))
        } else {
            None
        }
    }
}
