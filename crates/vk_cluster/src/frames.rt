//! A list of frames, whose bytes are never copied again, and the station that each is for.

ghost use Rattle.std.specs.Prelude.{◌≡◌, ◌<◌, ◌≤◌, ◌+◌, ◌-◌, ◌++◌, ◌∷◌, [], None, Some, length, map, slice_get, slice_index_or, sum_by, vec_len, vec_capacity, IfOk, IfSome, OnOk, OnErr, MatchOption};
ghost use Rattle.vk_frame.specs.Reading.{frame_of};
ghost use Rattle.vk_cluster.specs.Blocks.{AreKept, IsInBlock, block_bytes, named_by, placed_bytes};

use std::alloc::Global;
use std::marker::Model;
use std::mem::replace;
use vk_base::NoMemory;
use vk_base::limits::FRAME_BYTES;

/// How many bytes a block has room for.
pub const BLOCK_BYTES: usize = 8_388_608;
/// No block is left behind before half of it is used.
pub const HALF_BYTES: usize = 4_194_304;
/// The most bytes that all frames have.
pub const MOST_BYTES: usize = 268_435_456;

/// Where the bytes of a frame stand: from which one on, where each block before counts as 8,388,608, and how many they are; and the station
/// that the frame is for, so that it is not opened to find it: 65,535 where it is for all, or opens as no frame.
#[derive(Clone, Copy)]
pub struct FramePlace {
    pub from: u32,
    pub count: u16,
    pub to: u16,
}

/// Frames, one behind another. Their bytes stand in blocks, each frame in one of them whole: in the full ones, or in the last, behind which
/// the next frame goes. So no byte is moved any more. For how many bytes and frames memory is taken, is told beside the frames
/// (`FrameList` of `specs/Blocks.antt`).
#[derive(Drop)]
pub struct Frames {
    full: Vec<Vec<u8>>,
    last: Vec<u8>,
    places: Vec<FramePlace>,
    size: usize,
}

impl Model for Frames {
    ghost use Rattle.std.specs.Prelude.{◌≤◌, ◌-◌, length, map, vec_len, vec_capacity};
    ghost use Rattle.vk_cluster.specs.Blocks.{AreKept, FrameList, block_bytes, placed_bytes};
    ghost use Rattle.vk_cluster.specs.declared.frames.TheConstants.{BLOCK_BYTES};

    ghost Value = { FrameList };

    ghost view = { λ f. record {
      items = map (placed_bytes (map block_bytes f.full.items) f.last.items) f.places.items;
      bytes = BLOCK_BYTES - length f.last.items;
      places = vec_capacity f.places - vec_len f.places;
    } };

    ghost invariant = { λ f. AreKept (map block_bytes f.full.items) f.last.items f.places.items f.size
        × (length f.last.items ≤ BLOCK_BYTES) × (BLOCK_BYTES ≤ vec_capacity f.last) };
}

impl Frames {
    /// No frames.
    ///
    /// # Errors
    ///
    /// [`NoMemory`] where memory is wanting.
    pub fn new(alloc: Global) -> Result<Self, NoMemory>
        ensures { IfOk result (λ f. f.items ≡ []) }
    {
        Ok(Frames {
            full: Vec::new(alloc),
            last: Vec::with_capacity(alloc, BLOCK_BYTES)?,
            places: Vec::new(alloc),
            size: 0,
        })
    }

    /// Makes room for so many bytes and frames more. Changes nothing else.
    ///
    /// # Errors
    ///
    /// [`NoMemory`] where memory is wanting.
    #[inline(always)]
    pub fn make_room(&mut self, alloc: Global, bytes: usize, frames: usize) -> Result<(), NoMemory>
        requires { bytes ≤ HALF_BYTES }
        ensures items { self.new.items ≡ self.old.items }
        ensures bytes { OnOk result (bytes ≤ self.new.bytes) }
        ensures frames { OnOk result (frames ≤ self.new.places) }
    {
        room_for_places(&mut self.places, frames)?;
        if BLOCK_BYTES - self.last.len() < bytes {
            next_block(alloc, &mut self.full, &mut self.last)?;
        }
        Ok(())
    }

    /// One more frame, for which there is room, and the station that it is for.
    pub fn put(&mut self, frame: &[u8], to: u16)
        requires to { named_by (frame_of frame.now) ≡ to }
        requires some { 0 < length frame.now }
        requires few { length frame.now ≤ FRAME_BYTES }
        requires bytes { length frame.now ≤ self.old.bytes }
        requires places { 0 < self.old.places }
        requires most { sum_by length self.old.items + length frame.now ≤ MOST_BYTES }
        ensures items { self.new.items ≡ self.old.items ++ frame.now ∷ [] }
        ensures bytes { self.new.bytes + length frame.now ≡ self.old.bytes }
        ensures places { self.old.places ≤ self.new.places + 1 }
    {
        let place = FramePlace {
            from: (self.full.len() * BLOCK_BYTES + self.last.len()) as u32,
            count: frame.len() as u16,
            to,
        };
        push_bytes(&mut self.last, frame);
        self.places.push_reserved(place);
        self.size += frame.len();
    }

    /// The frame with this number, counted from 0, and the station that it is for; `None` behind the last.
    pub fn get(&self, at: usize) -> Option<(&[u8], u16)>
        ensures frame { MatchOption result (slice_get self.now.items at ≡ None) (λ r. slice_get self.now.items at ≡ Some r.0.now) }
        ensures to { IfSome result (λ r. named_by (frame_of r.0.now) ≡ r.1) }
    {
        match self.places.get(at) {
            Some(place) => Some((bytes_at(&self.full, &self.last, place), place.to)),
            None => None,
        }
    }

    /// How many frames there are.
    pub fn len(&self) -> u32
        ensures { result ≡ length self.now.items }
    {
        self.places.len() as u32
    }

    /// How many bytes the frames have.
    pub fn size(&self) -> usize
        ensures { result ≡ sum_by length self.now.items }
    {
        self.size
    }
}

/// The last block is a full one from now on, and the next one, which is empty, the last.
fn next_block(alloc: Global, full: &mut Vec<Vec<u8>>, last: &mut Vec<u8>) -> Result<(), NoMemory>
    ensures full { OnOk result (map block_bytes full.new.items ≡ map block_bytes full.old.items ++ last.old.items ∷ []) }
    ensures last { OnOk result (last.new.items ≡ []) }
    ensures room { OnOk result (BLOCK_BYTES ≤ vec_capacity last.new) }
    ensures full_same { OnErr result (full.new.items ≡ full.old.items) }
    ensures last_same { OnErr result (last.new ≡ last.old) }
{
    full.reserve(1)?;
    let block = Vec::with_capacity(alloc, BLOCK_BYTES)?;
    full.push_reserved(replace(last, block));
    Ok(())
}

/// Makes room for so many frames more. Most events find it.
#[inline(always)]
fn room_for_places(places: &mut Vec<FramePlace>, frames: usize) -> Result<(), NoMemory>
    ensures same { places.new.items ≡ places.old.items }
    ensures room { OnOk result (vec_len places.new + frames ≤ vec_capacity places.new) }
{
    if places.capacity() - places.len() < frames {
        places.reserve(frames)?;
    }
    Ok(())
}

/// These bytes more, for which there is room.
fn push_bytes(bytes: &mut Vec<u8>, more: &[u8])
    requires { vec_len bytes.old + length more.now ≤ vec_capacity bytes.old }
    ensures items { bytes.new.items ≡ bytes.old.items ++ more.now }
    ensures capacity { vec_capacity bytes.old ≤ vec_capacity bytes.new }
{
    if bytes.extend_from_slice(more).is_err() {
        unreachable!();
    }
}

/// The bytes of a frame that stands there.
fn bytes_at<'a>(full: &'a [Vec<u8>], last: &'a [u8], place: &FramePlace) -> &'a [u8]
    requires { IsInBlock (map block_bytes full.now) last.now place.now }
    ensures { result.now ≡ placed_bytes (map block_bytes full.now) last.now place.now }
{
    let block = frame_block(full, last, place.from as usize / BLOCK_BYTES);
    let from = place.from as usize % BLOCK_BYTES;
    &block[from..from + place.count as usize]
}

/// The block with this number, the last one behind the full ones.
fn frame_block<'a>(full: &'a [Vec<u8>], last: &'a [u8], at: usize) -> &'a [u8]
    ensures { result.now ≡ slice_index_or (map block_bytes full.now) at last.now }
{
    match full.get(at) {
        Some(block) => block.as_slice(),
        None => last,
    }
}
