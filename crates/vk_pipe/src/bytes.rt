//! The bytes of a pipe.

ghost use Rattle.std.specs.Prelude.{◌≡◌, ◌≤◌, ◌+◌, [], ◌++◌, length, take, drop, IfOk};
ghost use Rattle.vk_base.specs.declared.limits.TheConstants.{DATA_BYTES};

use crate::limits::PIPE_BYTES;
use circular_buffer::HeapCircularBuffer;
use std::alloc::{AllocError, Global};
use std::marker::Model;
use vk_base::Data;
use vk_base::limits::DATA_BYTES;

/// At most 2,048 bytes, first in and first out. Their memory is taken at `new`.
#[derive(Drop)]
pub struct PipeBytes {
    ring: HeapCircularBuffer<u8>,
}

impl Model for PipeBytes {
    ghost use Rattle.std.specs.Prelude.{◌≡◌, List, ℕ};
    ghost use Rattle.vk_pipe.specs.declared.limits.TheConstants.{PIPE_BYTES};

    ghost Value = { List ℕ };

    ghost view = { λ b. b.ring.items };

    ghost invariant = { λ b. b.ring.capacity ≡ PIPE_BYTES };
}

/// The first bytes of both, one behind the other, as many as there is room for.
fn copy_front(first: &[u8], second: &[u8], room: &mut [u8])
    requires { length room.old ≤ length first.now + length second.now }
    ensures { room.new ≡ take (length room.old) (first.now ++ second.now) }
{
    let len = room.len();
    if len <= first.len() {
        room.copy_from_slice(&first[..len]);
    } else {
        let (front, back) = room.split_at_mut(first.len());
        let rest = back.len();
        front.copy_from_slice(first);
        back.copy_from_slice(&second[..rest]);
    }
}

impl PipeBytes {
    /// No bytes.
    pub fn new(alloc: Global) -> Result<Self, AllocError>
        ensures { IfOk result (λ b. b ≡ []) }
    {
        Ok(PipeBytes {
            ring: HeapCircularBuffer::with_capacity(alloc, PIPE_BYTES)?,
        })
    }

    /// How many there are.
    pub fn len(&self) -> usize
        ensures count { result ≡ length self.now }
        ensures within { result ≤ PIPE_BYTES }
    {
        self.ring.len()
    }

    /// Puts these bytes behind the others.
    pub fn put(&mut self, bytes: &[u8])
        requires { length self.old + length bytes.now ≤ PIPE_BYTES }
        ensures { self.new ≡ self.old ++ bytes.now }
    {
        self.ring.extend_from_slice(bytes);
    }

    /// The first ones, so many, which stay.
    pub fn front(&self, count: usize) -> Data
        requires there { count ≤ length self.now }
        requires few { count ≤ DATA_BYTES }
        ensures { result ≡ take count self.now }
    {
        let mut room = [0; DATA_BYTES];
        let (first, second) = self.ring.as_slices();
        copy_front(first, second, &mut room[..count]);
        match Data::new(&room[..count]) {
            Some(bytes) => bytes,
            None => unreachable!(),
        }
    }

    /// The first ones, so many, leave.
    pub fn leave(&mut self, count: usize)
        requires { count ≤ length self.old }
        ensures { self.new ≡ drop count self.old }
    {
        let left = self.ring.len() - count;
        self.ring.truncate_front(left);
    }
}
