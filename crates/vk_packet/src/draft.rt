//! The bytes of a frame, written into known room, where nothing fails.

ghost use Rattle.std.specs.Prelude.{◌≡◌, ◌+◌, ◌<◌, ◌≤◌, ◌++◌, ◌∷◌, [], drop, length, take};

use std::marker::Model;
use vk_base::limits::{FRAME_BYTES, HEADER_BYTES};

/// A frame that is being written. Contracts see its bytes.
#[derive(Drop)]
pub struct FrameDraft {
    bytes: [u8; FRAME_BYTES],
    len: usize,
}

impl Model for FrameDraft {
    ghost use Rattle.std.specs.Prelude.{ℕ, List, ◌≡◌, ◌≤◌, length, take};

    ghost Value = { List ℕ };

    ghost view = { λ d. take d.len d.bytes };

    ghost invariant = { λ d. (d.len ≤ 1152) × (length d.bytes ≡ 1152) };
}

impl FrameDraft {
    /// No bytes.
    pub fn new() -> Self
        ensures { result ≡ [] }
    {
        FrameDraft {
            bytes: [0; FRAME_BYTES],
            len: 0,
        }
    }

    /// What is written.
    #[inline(always)]
    pub fn as_slice(&self) -> &[u8]
        ensures value { result.now ≡ self.now }
        ensures fits { length result.now ≤ FRAME_BYTES }
    {
        &self.bytes[..self.len]
    }

    /// Takes away what stands behind so many bytes, of which none is cleared.
    #[inline(always)]
    pub fn cut_back(&mut self, len: usize)
        requires { len ≤ length self.old }
        ensures { self.new ≡ take len self.old }
    {
        self.len = len;
    }

    /// Writes one byte, for which there is room.
    #[inline(always)]
    pub fn byte(&mut self, byte: u8)
        requires { length self.old < FRAME_BYTES }
        ensures { self.new ≡ self.old ++ byte ∷ [] }
    {
        self.bytes[self.len] = byte;
        self.len += 1;
    }

    /// Writes the bytes, for which there is room. Where it is known how many they are, nothing is called for them.
    #[inline(always)]
    pub fn put(&mut self, bytes: &[u8])
        requires { length self.old + length bytes.now ≤ FRAME_BYTES }
        ensures { self.new ≡ self.old ++ bytes.now }
    {
        let end = self.len + bytes.len();
        self.bytes[self.len..end].copy_from_slice(bytes);
        self.len = end;
    }

    /// Writes a part that mostly has no bytes, and then nothing is called.
    #[inline(always)]
    pub fn put_part(&mut self, part: &[u8])
        requires { length self.old + length part.now ≤ FRAME_BYTES }
        ensures { self.new ≡ self.old ++ part.now }
    {
        if !part.is_empty() {
            self.put(part);
        }
    }

    /// Writes a header over the first bytes.
    #[inline(always)]
    pub fn put_first(&mut self, front: &[u8; HEADER_BYTES])
        requires { HEADER_BYTES ≤ length self.old }
        ensures { self.new ≡ front.now ++ drop HEADER_BYTES self.old }
    {
        self.bytes[..HEADER_BYTES].copy_from_slice(front);
    }
}
