// What waits for one station.
ghost use Rattle.std.specs.Prelude.{◌≡◌, ◌<◌, [], drop, length, Some, None, if◌then◌else◌, is_some, IfOk};
ghost use Rattle.vk_generator.specs.Numbers.{next};
ghost use Rattle.vk_hub.specs.Links.{drawn_byte, first_of, posted, rest_of, third_next};

use crate::places::Delivery;
use circular_buffer::HeapCircularBuffer;
use std::alloc::{AllocError, Global};
use std::marker::Model;
use vk_base::FrameBytes;
use vk_generator::Generator;
use vk_schedule::LinkPlan;

const MOST: usize = 128;

/// The frames that wait for one station: a ring of at most 128, and one that is held back.
#[derive(Drop)]
pub struct Inbox {
    station: u16,
    ring: HeapCircularBuffer<FrameBytes>,
    held: Option<FrameBytes>,
}

impl Model for Inbox {
    ghost use Rattle.std.specs.Prelude.{◌≡◌};
    ghost use Rattle.vk_hub.specs.Links.{Waiting};

    ghost Value = { Waiting };

    ghost view = { λ i. record { station = i.station; ring = i.ring.items; held = i.held } };

    ghost invariant = { λ i. i.ring.capacity ≡ 128 };
}

/// Drops the oldest frame, which there is. Where no other waits the next one comes to its place, which is in the cache.
fn drop_oldest(ring: &mut HeapCircularBuffer<FrameBytes>)
    requires { 0 < length ring.old.items }
    ensures items { ring.new.items ≡ drop 1 ring.old.items }
    ensures capacity { ring.new.capacity ≡ ring.old.capacity }
{
    let left = ring.len() - 1;
    if left == 0 {
        ring.clear();
    } else {
        ring.truncate_front(left);
    }
}

/// A draw of the generator, of 256.
fn draw_byte(generator: &mut Generator) -> u8
    ensures state { generator.new ≡ next generator.old }
    ensures drawn { result ≡ drawn_byte generator.new }
{
    (generator.draw() % 256) as u8
}

impl Inbox {
    pub fn new(alloc: Global, station: u16) -> Result<Inbox, AllocError>
        ensures { IfOk result (λ i. i ≡ record { station = station; ring = []; held = None }) }
    {
        Ok(Inbox {
            station,
            ring: HeapCircularBuffer::with_capacity(alloc, MOST)?,
            held: None,
        })
    }

    pub fn station(&self) -> u16
        ensures { result ≡ self.now.station }
    {
        self.station
    }

    pub fn has_frame(&self) -> bool
        ensures { result ≡ is_some (first_of self.now.ring self.now.held) }
    {
        !self.ring.is_empty() || self.held.is_some()
    }

    /// A post of the frame, by three draws of the generator.
    pub fn post(&mut self, plan: &LinkPlan, generator: &mut Generator, frame: &FrameBytes)
        ensures waiting { self.new ≡ posted plan.now generator.old self.old frame.now }
        ensures state { generator.new ≡ third_next generator.old }
    {
        let first = draw_byte(generator);
        let second = draw_byte(generator);
        let third = draw_byte(generator);
        if first < plan.lose {
            return;
        }
        if third < plan.hold {
            if let Some(earlier) = self.held.take() {
                self.ring.push_back(earlier);
            }
            self.held = Some(frame.copy());
            return;
        }
        self.ring.push_back(frame.copy());
        if second < plan.double {
            self.ring.push_back(frame.copy());
        }
    }

    /// Takes the oldest frame of the ring, else the held one, and puts it there. Whether there was one.
    pub fn take(&mut self, into: &mut Delivery) -> bool
        ensures value { first_of self.old.ring self.old.held ≡ (if result then Some into.new else None) }
        ensures rest { self.new ≡ rest_of self.old.station self.old.ring self.old.held }
    {
        if let Some(frame) = self.ring.front() {
            into.fill(frame.as_slice());
            drop_oldest(&mut self.ring);
            return true;
        }
        self.take_held(into)
    }

    /// Takes the frame that is held back, and puts it there. Whether there was one. It stays a function of its own, since it has room for a
    /// frame.
    #[inline(never)]
    fn take_held(&mut self, into: &mut Delivery) -> bool
        ensures value { self.old.held ≡ (if result then Some into.new else None) }
        ensures rest { self.new ≡ record self.old { held = None } }
    {
        match self.held.take() {
            Some(frame) => {
                into.fill(frame.as_slice());
                true
            }
            None => false,
        }
    }
}
