//! A disk of which one block is read ahead.

ghost use Rattle.std.specs.Prelude.{◌≡◌, ◌<◌, ◌≤◌, ℕ, List, None, length};
ghost use Rattle.vk_files.specs.Ahead.{IsFetched, IsFetchedAhead, IsPut, DiskAhead};

use crate::disk::Disk;
use crate::limits::BLOCK_BYTES;
use std::marker::Model;

/// A disk, and at most one of its blocks, which was fetched before it was asked for.
#[derive(Drop)]
pub struct ReadAhead<D: Disk> {
    disk: D,
    ahead: Option<u32>,
    bytes: [u8; BLOCK_BYTES],
}

impl<D: Disk> Model for ReadAhead<D> {
    ghost use Rattle.std.specs.Prelude.{◌≡◌, IfSome};
    ghost use Rattle.vk_files.specs.Ahead.{DiskAhead};
    ghost use Rattle.vk_files.specs.Disks.{block_at};

    ghost Value = { DiskAhead };

    ghost view = { λ r. record { disk = D.state r.disk; ahead = r.ahead } };

    ghost invariant = { λ r. IfSome r.ahead (λ block. r.bytes ≡ block_at (D.state r.disk).blocks block) };
}

impl<D: Disk> ReadAhead<D> {
    /// This disk, of which nothing is read ahead.
    pub fn new(disk: D) -> Self
        ensures { result ≡ record { disk = D.state disk; ahead = None } }
    {
        ReadAhead {
            disk,
            ahead: None,
            bytes: [0; BLOCK_BYTES],
        }
    }

    /// The disk.
    pub fn disk(&self) -> &D
        ensures { D.state result.now ≡ self.now.disk }
    {
        &self.disk
    }

    /// The bytes of a block, which are those that were read ahead, where it is that one. `None` where the disk failed.
    pub fn fetch(&mut self, block: u32) -> Option<[u8; BLOCK_BYTES]>
        requires { block < length self.old.disk.blocks }
        ensures { IsFetched block self.old self.new result }
    {
        if self.ahead == Some(block) {
            return Some(self.bytes);
        }
        let mut bytes = [0; BLOCK_BYTES];
        match self.disk.read(block, &mut bytes) {
            Ok(()) => Some(bytes),
            Err(_) => None,
        }
    }

    /// Makes these bytes a block, and tells whether the disk did it. Where it was read ahead it is forgotten.
    pub fn write(&mut self, block: u32, bytes: &[u8; BLOCK_BYTES]) -> bool
        requires { block < length self.old.disk.blocks }
        ensures { IsPut block bytes.now self.old self.new result }
    {
        if self.ahead == Some(block) {
            self.ahead = None;
        }
        self.disk.write(block, bytes).is_ok()
    }

    /// Fetches a block ahead, in place of the one that was. There is none then where the disk failed.
    pub fn fetch_ahead(&mut self, block: u32)
        requires { block < length self.old.disk.blocks }
        ensures { IsFetchedAhead block self.old self.new }
    {
        let mut bytes = [0; BLOCK_BYTES];
        self.ahead = match self.disk.read(block, &mut bytes) {
            Ok(()) => Some(block),
            Err(_) => None,
        };
        self.bytes = bytes;
    }
}
