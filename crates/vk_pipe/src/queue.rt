//! Requests that wait.

ghost use Rattle.std.specs.Prelude.{◌≡◌, ◌≤◌, ◌<◌, [], ◌∷◌, ◌++◌, length, drop, slice_get, option_copied, IfOk};

use crate::limits::WAITING_REQUESTS;
use circular_buffer::HeapCircularBuffer;
use std::alloc::{AllocError, Global};
use std::marker::Model;

/// At most sixteen requests, first come and first served. Their memory is taken at `new`.
#[derive(Drop)]
pub struct Queue<T> {
    ring: HeapCircularBuffer<T>,
}

impl<T> Model for Queue<T> {
    ghost use Rattle.std.specs.Prelude.{◌≡◌, List};
    ghost use Rattle.vk_pipe.specs.declared.limits.TheConstants.{WAITING_REQUESTS};

    ghost Value = { List T };

    ghost view = { λ q. q.ring.items };

    ghost invariant = { λ q. q.ring.capacity ≡ WAITING_REQUESTS };
}

impl<T: Drop> Queue<T> {
    /// No requests.
    pub fn new(alloc: Global) -> Result<Self, AllocError>
        ensures { IfOk result (λ q. q ≡ []) }
    {
        Ok(Queue {
            ring: HeapCircularBuffer::with_capacity(alloc, WAITING_REQUESTS)?,
        })
    }

    /// How many there are.
    pub fn len(&self) -> usize
        ensures count { result ≡ length self.now }
        ensures within { result ≤ WAITING_REQUESTS }
    {
        self.ring.len()
    }

    /// The first that came.
    pub fn first(&self) -> Option<&T>
        ensures { option_copied result ≡ slice_get self.now 0 }
    {
        self.ring.front()
    }

    /// Puts the request behind the others, of which there are fewer than sixteen.
    pub fn push(&mut self, request: T)
        ensures { length self.old < WAITING_REQUESTS → self.new ≡ self.old ++ request ∷ [] }
    {
        let _oldest = self.ring.push_back(request);
    }

    /// Takes the first that came.
    pub fn pop(&mut self) -> Option<T>
        ensures value { result ≡ slice_get self.old 0 }
        ensures rest { self.new ≡ drop 1 self.old }
    {
        self.ring.pop_front()
    }
}
