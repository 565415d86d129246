//! The packets that a station posts in one event.

ghost use Rattle.std.specs.Prelude.{◌≡◌, ◌+◌, ◌-◌, ◌<◌, ◌++◌, length, replicate, vec_capacity};
ghost use Rattle.vk_packet.specs.Slots.{empty_slot};

use crate::packet::PacketView;
use crate::slot::Slot;
use std::alloc::Global;
use std::marker::Model;
use vk_base::NoMemory;
use vk_base::limits::HEADER_BYTES;
use vk_wire::PACKET_BYTES;

/// The packets of one event in the order in which they were posted, each with the station that it is for. In front of each place
/// for a packet are 32 bytes, which stay until they are written: so a packet becomes a frame where it lies. The room for all is
/// taken once, at `new`, and each place is first written when a packet comes to it.
#[derive(Drop)]
pub struct Outbox {
    slots: Vec<Slot>,
    used: u32,
    room: u32,
}

impl Model for Outbox {
    ghost use Rattle.std.specs.Prelude.{length, vec_capacity, ◌≤◌, ◌<◌, ◌^◌};
    ghost use Rattle.vk_packet.specs.Posts.{Posts};
    ghost use Rattle.vk_packet.specs.Slots.{fronts_of, posts_of, AreSome};

    ghost Value = { Posts };

    ghost view = { λ o. record {
      room = o.room;
      fronts = fronts_of o.room o.slots.items;
      posts = posts_of o.used o.slots.items;
    } };

    ghost invariant = { λ o. (o.used ≤ length o.slots.items) × (length o.slots.items ≤ o.room) × (o.room ≤ vec_capacity o.slots)
        × (o.room < 2 ^ 32) × AreSome o.used o.slots.items };
}

impl Outbox {
    ghost use Rattle.std.specs.Prelude.{◌≡◌, ◌<◌, ◌≤◌, ◌++◌, ◌∷◌, [], true, length, replicate, slice_get, slice_set, Some, IfOk};
    ghost use Rattle.vk_packet.specs.Posts.{framed};
    ghost use Rattle.vk_packet.specs.Rules.{is_lawful};
    ghost use Rattle.vk_packet.specs.Spelling.{packet_bytes};
    ghost use Rattle.vk_packet.specs.Views.{value_of};

    /// An empty outbox with room for so many packets, and zeros in front of each. No other call takes memory.
    pub fn new(alloc: Global, packets: u32) -> Result<Self, NoMemory>
        ensures { IfOk result (λ o. o ≡ record { room = packets; fronts = replicate packets (replicate HEADER_BYTES 0); posts = [] }) }
    {
        Ok(Outbox {
            slots: Vec::with_capacity(alloc, packets as usize)?,
            used: 0,
            room: packets,
        })
    }

    /// Takes all packets out.
    pub fn clear(&mut self)
        ensures { self.new ≡ record self.old { posts = [] } }
    {
        self.used = 0;
    }

    /// Appends a packet that keeps to the rules, for the station `to`. It is put into its callers, each of which posts one kind.
    #[inline(always)]
    pub fn post(&mut self, to: u16, packet: &PacketView)
        requires lawful { is_lawful (value_of packet.now) ≡ true }
        requires room { length self.old.posts < self.old.room }
        ensures { self.new ≡ record self.old { posts = self.old.posts ++ (to, packet_bytes (value_of packet.now)) ∷ [] } }
    {
        make_slots(&mut self.slots, self.used as usize);
        let slot = &mut self.slots[self.used as usize];
        slot.fill(to, packet);
        self.used += 1;
    }

    /// How many packets there are: at most as many as there is room for.
    pub fn len(&self) -> u32
        ensures count { result ≡ length self.now.posts }
        ensures room { length self.now.posts ≤ self.now.room }
        ensures framed { length (framed self.now) ≡ length self.now.posts }
    {
        self.used
    }

    /// The packet that was posted as number `at`, counted from 0, and the station that it is for.
    pub fn packet(&self, at: u32) -> (u16, &[u8])
        requires { at < length self.now.posts }
        ensures post { slice_get self.now.posts at ≡ Some (result.0, result.1.now) }
        ensures some { 0 < length result.1.now }
        ensures few { length result.1.now ≤ PACKET_BYTES }
    {
        let slot = &self.slots[at as usize];
        (slot.to(), slot.packet())
    }

    /// Writes these bytes in front of place number `at`, counted from 0.
    #[inline(always)]
    pub fn put_front(&mut self, at: u32, front: &[u8; HEADER_BYTES])
        requires { at < self.old.room }
        ensures { self.new ≡ record self.old { fronts = slice_set self.old.fronts at front.now } }
    {
        make_slots(&mut self.slots, at as usize);
        let slot = &mut self.slots[at as usize];
        slot.put_front(front);
    }

    /// The packet that was posted as number `at`, counted from 0, behind what stands in front of it.
    pub fn framed(&self, at: u32) -> &[u8]
        requires { at < length (framed self.now) }
        ensures { slice_get (framed self.now) at ≡ Some result.now }
    {
        self.slots[at as usize].framed()
    }
}

/// Makes the slots that are wanting up to this place, for which there is room: none but for the most packets so far.
#[inline(always)]
fn make_slots(slots: &mut Vec<Slot>, at: usize)
    requires { at < vec_capacity slots.old }
    ensures items { slots.new.items ≡ slots.old.items ++ replicate (at + 1 - length slots.old.items) empty_slot }
    ensures capacity { vec_capacity slots.new ≡ vec_capacity slots.old }
{
    if slots.len() <= at {
        push_slots(slots, at);
    }
}

#[inline(never)]
fn push_slots(slots: &mut Vec<Slot>, at: usize)
    requires { at < vec_capacity slots.old }
    ensures items { slots.new.items ≡ slots.old.items ++ replicate (at + 1 - length slots.old.items) empty_slot }
    ensures capacity { vec_capacity slots.new ≡ vec_capacity slots.old }
{
    for _made in slots.len()..at + 1 {
        slots.push_reserved(Slot::empty());
    }
}
