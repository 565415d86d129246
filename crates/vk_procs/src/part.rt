//! The first part of the segment that a process lets be read, and the room for it.

ghost use Rattle.std.specs.Prelude.{◌≡◌, ◌≤◌, [], length, min, IfOk};
ghost use Rattle.vk_base.specs.declared.limits.TheConstants.{SEGMENT_BYTES};

use std::alloc::Global;
use std::marker::Model;
use vk_base::NoMemory;
use vk_base::limits::SEGMENT_BYTES;

/// Bytes of a process's memory, in room that was taken for them once. Contracts see the bytes, and how many there is room for.
#[derive(Drop)]
pub struct Part {
    bytes: Vec<u8>,
    room: u32,
}

impl Model for Part {
    ghost use Rattle.std.specs.Prelude.{◌≤◌, length, vec_capacity};
    ghost use Rattle.vk_base.specs.declared.limits.TheConstants.{SEGMENT_BYTES};
    ghost use Rattle.vk_procs.specs.Parts.{RoomyBytes};

    ghost Value = { RoomyBytes };

    ghost view = { λ p. record { bytes = p.bytes.items; room = p.room } };

    ghost invariant = { λ p. (length p.bytes.items ≤ p.room) × (p.room ≤ vec_capacity p.bytes) × (p.room ≤ SEGMENT_BYTES) };
}

impl Part {
    /// No bytes, with room for as many as may be let read of a memory of this size, at most 512.
    ///
    /// # Errors
    ///
    /// [`NoMemory`] where memory is wanting.
    pub fn new(alloc: Global, size: u32) -> Result<Self, NoMemory>
        ensures { IfOk result (λ p. p ≡ record { bytes = []; room = min size SEGMENT_BYTES }) }
    {
        let room = size.min(SEGMENT_BYTES);
        Ok(Part {
            bytes: Vec::with_capacity(alloc, room as usize)?,
            room,
        })
    }

    /// No bytes from now on.
    pub fn clear(&mut self)
        ensures { self.new ≡ record self.old { bytes = [] } }
    {
        self.bytes.clear();
    }

    /// These bytes from now on, for which there is room. It takes no memory.
    pub fn fill(&mut self, bytes: &[u8])
        requires { length bytes.now ≤ self.old.room }
        ensures { self.new ≡ record self.old { bytes = bytes.now } }
    {
        self.bytes.clear();
        match self.bytes.extend_from_slice(bytes) {
            Ok(()) => {}
            Err(_) => unreachable!(),
        }
    }

    /// The bytes, in order.
    pub fn as_slice(&self) -> &[u8]
        ensures value { result.now ≡ self.now.bytes }
        ensures fits { length result.now ≤ SEGMENT_BYTES }
    {
        &self.bytes
    }
}
