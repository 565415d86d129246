//! Text that is written into known room, where nothing fails, before it is appended at once.

ghost use Rattle.std.specs.Prelude.{◌≡◌, ◌+◌, ◌<◌, ◌≤◌, ◌++◌, ◌∷◌, [], length, take, OnOk, OnErr};
ghost use Rattle.hex.specs.Hex.{encode_lower};

use crate::digits::encode;
use crate::spelling::put;
use std::marker::Model;
use std::simd::Simd;
use vk_base::NoMemory;

/// The bytes that a draft has room for.
pub const DRAFT_ROOM: usize = 1_024;

/// Text that is being written. Contracts see its bytes.
#[derive(Drop)]
pub struct Draft {
    bytes: [u8; DRAFT_ROOM],
    len: usize,
}

impl Model for Draft {
    ghost use Rattle.std.specs.Prelude.{ℕ, List, ◌≡◌, ◌≤◌, length, take};

    ghost Value = { List ℕ };

    ghost view = { λ d. take d.len d.bytes };

    ghost invariant = { λ d. (d.len ≤ 1024) × (length d.bytes ≡ 1024) };
}

impl Draft {
    /// No text.
    pub fn new() -> Self
        ensures { result ≡ [] }
    {
        Draft {
            bytes: [0; DRAFT_ROOM],
            len: 0,
        }
    }

    /// How many bytes are written.
    #[inline(always)]
    pub fn len(&self) -> usize
        ensures value { result ≡ length self.now }
        ensures fits { result ≤ DRAFT_ROOM }
    {
        self.len
    }

    /// What is written.
    #[inline(always)]
    pub fn as_slice(&self) -> &[u8]
        ensures { result.now ≡ self.now }
    {
        &self.bytes[..self.len]
    }

    /// Begins anew.
    #[inline(always)]
    pub fn clear(&mut self)
        ensures { self.new ≡ [] }
    {
        self.len = 0;
    }

    /// Takes away what stands behind so many bytes.
    pub fn truncate(&mut self, len: usize)
        ensures { self.new ≡ take len self.old }
    {
        self.len = self.len.min(len);
    }

    /// Writes one byte, for which there is room.
    #[inline(always)]
    pub fn byte(&mut self, byte: u8)
        requires { length self.old < DRAFT_ROOM }
        ensures { self.new ≡ self.old ++ byte ∷ [] }
    {
        self.bytes[self.len] = byte;
        self.len += 1;
    }

    /// Writes the bytes, for which there is room. Where it is known how many they are, nothing is called for them, and no loop is left.
    #[inline(always)]
    pub fn put(&mut self, bytes: &[u8])
        requires { length self.old + length bytes.now ≤ DRAFT_ROOM }
        ensures { self.new ≡ self.old ++ bytes.now }
    {
        write_at(&mut self.bytes, self.len, bytes);
        self.len += bytes.len();
    }

    /// The same, for bytes of which it is not known how many they are: they are copied at once.
    #[inline(always)]
    pub fn copy(&mut self, bytes: &[u8])
        requires { length self.old + length bytes.now ≤ DRAFT_ROOM }
        ensures { self.new ≡ self.old ++ bytes.now }
    {
        let end = self.len + bytes.len();
        copy_over(&mut self.bytes[self.len..end], bytes);
        self.len = end;
    }

    /// Writes the hexadecimal of at most 32 bytes.
    #[inline(always)]
    pub fn hexadecimal(&mut self, bytes: &[u8])
        requires few { length bytes.now ≤ 32 }
        requires room { length self.old + 64 ≤ DRAFT_ROOM }
        ensures { self.new ≡ self.old ++ encode_lower bytes.now }
    {
        let end = self.len + 2 * bytes.len();
        encode(bytes, &mut self.bytes[self.len..end]);
        self.len = end;
    }
}

/// Writes the bytes over as many, the first sixteen and the last.
#[inline(always)]
fn copy_sixteens(into: &mut [u8], bytes: &[u8])
    requires same { length into.old ≡ length bytes.now }
    requires some { 16 ≤ length bytes.now }
    requires few { length bytes.now ≤ 32 }
    ensures { into.new ≡ bytes.now }
{
    let last = bytes.len() - 16;
    Simd::<u8, 16>::from_slice(bytes).copy_to_slice(into);
    Simd::<u8, 16>::from_slice(&bytes[last..]).copy_to_slice(&mut into[last..]);
}

/// Writes the bytes over as many, the first eight and the last.
#[inline(always)]
fn copy_eights(into: &mut [u8], bytes: &[u8])
    requires same { length into.old ≡ length bytes.now }
    requires some { 8 ≤ length bytes.now }
    requires few { length bytes.now ≤ 16 }
    ensures { into.new ≡ bytes.now }
{
    let last = bytes.len() - 8;
    Simd::<u8, 8>::from_slice(bytes).copy_to_slice(into);
    Simd::<u8, 8>::from_slice(&bytes[last..]).copy_to_slice(&mut into[last..]);
}

/// Writes the bytes over as many. For 8 to 32, as most lines have, nothing is called.
#[inline(always)]
fn copy_over(into: &mut [u8], bytes: &[u8])
    requires { length into.old ≡ length bytes.now }
    ensures { into.new ≡ bytes.now }
{
    match bytes.len() {
        8..=15 => copy_eights(into, bytes),
        16..=32 => copy_sixteens(into, bytes),
        _ => into.copy_from_slice(bytes),
    }
}

/// Writes the bytes over those that stand at this place and behind it, one by one: a loop of known length is unrolled, and its bytes are
/// written together.
#[inline(always)]
fn write_at(text: &mut [u8; DRAFT_ROOM], place: usize, bytes: &[u8])
    requires { place + length bytes.now ≤ DRAFT_ROOM }
    ensures written { take (place + length bytes.now) text.new ≡ take place text.old ++ bytes.now }
    ensures same { length text.new ≡ length text.old }
{
    for at in 0..bytes.len() {
        text[place + at] = bytes[at];
    }
}

/// Appends what is written, and begins anew. A refusal changes nothing.
#[inline(always)]
pub fn give(into: &mut Vec<u8>, draft: &mut Draft) -> Result<(), NoMemory>
    ensures ok { OnOk result (into.new.items ≡ into.old.items ++ draft.old) }
    ensures empty { OnOk result (draft.new ≡ []) }
    ensures err { OnErr result ((into.new.items ≡ into.old.items) × (draft.new ≡ draft.old)) }
{
    put(into, draft.as_slice())?;
    draft.clear();
    Ok(())
}
