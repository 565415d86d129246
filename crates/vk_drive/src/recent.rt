//! The frames of which a delivery chooses one.

ghost use Rattle.std.specs.Prelude.{◌≡◌, ◌+◌, ◌-◌, ◌%◌, ◌≤◌, ◌<◌, ◌^◌, [], ◌++◌, List, length, min, slice_get, slice_set, sum_by, Some, IfOk};
ghost use Rattle.vk_base.specs.declared.limits.TheConstants.{FRAME_BYTES};
ghost use Rattle.vk_cluster.specs.declared.emitted.TheConstants.{EVENT_BYTES};
ghost use Rattle.vk_cluster.specs.Piles.{AreFrames};
ghost use Rattle.vk_rules.specs.Frames.{Frame as TheFrame};
ghost use Rattle.vk_drive.specs.Driving.{KeepsRecent, ShowsHeaders};
ghost use Rattle.vk_drive.specs.Told.{headers};

use std::alloc::Global;
use vk_base::{FrameBytes, NoMemory};
use vk_frame::Header;
use vk_host::Host;

/// How many frames a delivery chooses from.
const RECENT: usize = 32;

/// A frame, and its header.
#[derive(Drop)]
pub struct RecentFrame {
    pub header: Header,
    pub bytes: FrameBytes,
}

/// The last 32 of all frames that were emitted, and how many all are, and how many bytes they have. Frame number n of all, counted from 0,
/// stands in place n % 32 until a later one does, so no frame is moved, and none takes memory.
#[derive(Drop)]
pub struct RecentFrames {
    pub frames: Vec<RecentFrame>,
    pub count: usize,
    pub size: usize,
}

/// What stands in a place before a frame does.
fn no_frame() -> RecentFrame {
    let header = Header {
        source: 0,
        destination: 0,
        stamp: 0,
        number: 0,
        event: 0,
        output: 0,
    };
    match FrameBytes::new(&[]) {
        Some(bytes) => RecentFrame { header, bytes },
        None => unreachable!(),
    }
}

/// The header of frame number `at` of the station's last event, counted from 0. The station tells all of it: the frame is not opened.
fn header_of(station: &Host, at: u32) -> Header
    requires at { at < length station.now.frames }
    requires told { (fs : List TheFrame) × ShowsHeaders station.now fs }
    ensures { (fs : List TheFrame) → ShowsHeaders station.now fs → slice_get (headers fs) at ≡ Some result }
{
    let (destination, _) = station.packet(at);
    Header {
        source: station.host(),
        destination,
        stamp: station.now(),
        number: station.number(),
        event: station.events(),
        output: at as u16 + 1,
    }
}

impl RecentFrame {
    /// This frame from now on.
    fn fill(&mut self, header: Header, bytes: &[u8])
        requires { length bytes.now ≤ FRAME_BYTES }
        ensures { self.new ≡ record { header = header; bytes = bytes.now } }
    {
        self.header = header;
        self.bytes.clear();
        self.bytes.append(bytes);
    }
}

impl RecentFrames {
    /// Before the first frame.
    ///
    /// # Errors
    ///
    /// [`NoMemory`] where memory is wanting.
    pub fn new(alloc: Global) -> Result<Self, NoMemory>
        ensures frames { IfOk result (KeepsRecent []) }
        ensures size { IfOk result (λ r. r.size ≡ 0) }
    {
        let mut frames = Vec::with_capacity(alloc, RECENT)?;
        for _place in 0..RECENT {
            frames.push(no_frame())?;
        }
        Ok(RecentFrames {
            frames,
            count: 0,
            size: 0,
        })
    }

    /// How many of the last 32 frames there are.
    pub fn len(&self) -> usize
        ensures { result ≡ min 32 self.now.count }
    {
        if self.count < RECENT {
            self.count
        } else {
            RECENT
        }
    }

    /// The place of the frame that was emitted so many before the last.
    pub fn place(&self, back: usize) -> usize
        requires { back < self.now.count }
        ensures { result ≡ (self.now.count - 1 - back) % 32 }
    {
        (self.count - 1 - back) % RECENT
    }

    /// The frame in this place.
    pub fn get(&self, place: usize) -> &RecentFrame
        requires { place < length self.now.frames.items }
        ensures { slice_get self.now.frames.items place ≡ Some result.now }
    {
        &self.frames[place]
    }

    /// One frame more.
    fn put(&mut self, header: Header, bytes: &[u8])
        requires places { length self.old.frames.items ≡ 32 }
        requires bytes { length bytes.now ≤ FRAME_BYTES }
        requires count { self.old.count < 2 ^ 63 }
        requires size { self.old.size < 2 ^ 63 }
        ensures frames { self.new.frames.items ≡
            slice_set self.old.frames.items (self.old.count % 32) (record { header = header; bytes = bytes.now }) }
        ensures count { self.new.count ≡ self.old.count + 1 }
        ensures size { self.new.size ≡ self.old.size + length bytes.now }
    {
        let place = self.count % RECENT;
        self.frames[place].fill(header, bytes);
        self.count += 1;
        self.size += bytes.len();
    }

    /// The frames of the station's last event, which are not too many.
    #[inline(always)]
    pub fn keep(&mut self, station: &Host)
        requires told { (fs : List TheFrame) × ShowsHeaders station.now fs }
        requires places { length self.old.frames.items ≡ 32 }
        requires few { AreFrames station.now.frames }
        requires bytes { sum_by length station.now.frames ≤ EVENT_BYTES }
        requires count { self.old.count < 2 ^ 62 }
        requires size { self.old.size < 2 ^ 62 }
        ensures kept { (all fs : List TheFrame) → ShowsHeaders station.now fs → KeepsRecent all self.old →
            KeepsRecent (all ++ fs) self.new }
        ensures count { self.new.count ≡ self.old.count + length station.now.frames }
        ensures size { self.new.size ≡ self.old.size + sum_by length station.now.frames }
    {
        for at in 0..station.frame_count() {
            self.put(header_of(station, at), station.frame(at));
        }
    }
}
