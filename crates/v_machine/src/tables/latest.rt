//! For each host the last Send of a process to it whose message has come to a queue.

ghost use Rattle.std.specs.Prelude.{◌≡◌, ℕ, ◌==◌, [], Some, IfOk, position, if◌then◌else◌};
ghost use Rattle.v_machine.specs.Latest.{is_for, latest_in};

use std::alloc::Global;
use std::marker::Model;
use vk_base::NoMemory;

/// The number of a Send, and the host of its target.
#[derive(Clone, Copy)]
pub struct Latest {
    pub host: u16,
    pub number: u64,
}

/// A number for each host: 0 where none was put.
#[derive(Drop)]
pub struct Latests {
    items: Vec<Latest>,
}

impl Model for Latests {
    ghost use Rattle.std.specs.Prelude.{List};
    ghost use Rattle.v_machine.specs.declared.tables.latest.Latest.{Latest};

    ghost Value = { List Latest };

    ghost view = { λ l. l.items.items };
}

impl Latests {
    pub fn new(alloc: Global) -> Self
        ensures { result ≡ [] }
    {
        Latests {
            items: Vec::new(alloc),
        }
    }

    /// The number of a host.
    pub fn get(&self, host: u16) -> u64
        ensures { result ≡ latest_in self.now host }
    {
        number_of(&self.items, host)
    }

    /// The place of the number of a host, which is made where there is none. That changes no number.
    pub fn make_room(&mut self, host: u16) -> Result<usize, NoMemory>
        ensures same { (h : ℕ) → latest_in self.new h ≡ latest_in self.old h }
        ensures room { IfOk result (λ at. position (is_for host) self.new ≡ Some at) }
    {
        if let Some(at) = place_of(&self.items, host) {
            return Ok(at);
        }
        let at = self.items.len();
        self.items.push(Latest { host, number: 0 })?;
        Ok(at)
    }

    /// The number in a place.
    pub fn number(&self, at: usize) -> u64
        ensures { (host : ℕ) → position (is_for host) self.now ≡ Some at → result ≡ latest_in self.now host }
    {
        match self.items.get(at) {
            Some(latest) => latest.number,
            None => 0,
        }
    }

    /// This is the number in the place from now on.
    pub fn put(&mut self, at: usize, number: u64)
        ensures { (host h : ℕ) → position (is_for host) self.old ≡ Some at →
            latest_in self.new h ≡ (if h == host then number else latest_in self.old h) }
    {
        put_number(&mut self.items, at, number);
    }
}

fn put_number(items: &mut [Latest], at: usize, number: u64)
    ensures { (host h : ℕ) → position (is_for host) items.old ≡ Some at →
        latest_in items.new h ≡ (if h == host then number else latest_in items.old h) }
{
    if at < items.len() {
        items[at].number = number;
    }
}

#[tactic(auto, unfolding(crate::specs::Latest::latest_in))]
fn number_of(items: &[Latest], host: u16) -> u64
    ensures { result ≡ latest_in items.now host }
{
    match items.iter().find(|l| l.host == host) {
        Some(latest) => latest.number,
        None => 0,
    }
}

fn place_of(items: &[Latest], host: u16) -> Option<usize>
    ensures { result ≡ position (is_for host) items.now }
{
    items.iter().position(|l| l.host == host)
}
