//! Disks in memory.

ghost use Rattle.std.specs.Prelude.{◌≡◌, ◌<◌, ◌≤◌, ◌+◌, ◌^◌, min, max, drop, length, slice_set, IfOk};
ghost use Rattle.vk_files.specs.Disks.{Counts, IsBlockRead, IsBlockWritten, block_at, told_at};
ghost use Rattle.vk_files.specs.MemoryDisks.{after_write, begun, faults_after, memory_state, new_memory, sure_state};

use crate::disk::{Disk, Telling};
use crate::limits::BLOCK_BYTES;
use std::alloc::Global;
use std::marker::Model;
use vk_base::NoMemory;
use vk_io::Failed;

/// A disk in memory that never fails.
#[derive(Drop)]
pub struct SureDisk {
    blocks: Vec<[u8; BLOCK_BYTES]>,
}

impl Model for SureDisk {
    ghost use Rattle.std.specs.Prelude.{ℕ, ◌≤◌, ◌<◌, ◌^◌, List, length};

    ghost Value = { List (List ℕ) };

    ghost view = { λ d. d.blocks.items };

    ghost invariant = { λ d. (1 ≤ length d.blocks.items) × (length d.blocks.items < 2 ^ 32) };
}

impl SureDisk {
    /// A disk of these blocks.
    pub fn new(blocks: Vec<[u8; BLOCK_BYTES]>) -> Self
        requires some { 1 ≤ length blocks.items }
        requires few { length blocks.items < 2 ^ 32 }
        ensures { result ≡ blocks.items }
    {
        SureDisk { blocks }
    }

    /// The bytes of a block.
    fn block(&self, block: u32) -> [u8; BLOCK_BYTES]
        requires { block < length self.now }
        ensures { result ≡ block_at self.now block }
    {
        self.blocks[block as usize]
    }

    /// Makes these bytes a block.
    fn set_block(&mut self, block: u32, bytes: &[u8; BLOCK_BYTES])
        requires { block < length self.old }
        ensures { self.new ≡ slice_set self.old block bytes.now }
    {
        self.blocks[block as usize] = *bytes;
    }
}

impl Disk for SureDisk {
    ghost state = { sure_state };

    fn faults(&self) -> u64 {
        0
    }

    fn blocks(&self) -> u32 {
        self.blocks.len() as u32
    }

    fn read(&mut self, block: u32, into: &mut [u8; BLOCK_BYTES]) -> Result<(), Failed> {
        *into = self.block(block);
        Ok(())
    }

    fn write(&mut self, block: u32, bytes: &[u8; BLOCK_BYTES]) -> Result<(), Failed> {
        self.set_block(block, bytes);
        Ok(())
    }
}

/// A call of a disk.
#[derive(Clone, Copy, Debug, PartialEq, Eq)]
pub enum DiskCall {
    Read { block: u32 },
    Write { block: u32 },
}

/// A disk in memory whose calls fail as they are told, and are recorded.
#[derive(Drop)]
pub struct MemoryDisk {
    disk: SureDisk,
    plan: Vec<Telling>,
    /// How many calls were made, or as many as the plan has.
    made: usize,
    faults: u64,
    calls: Vec<DiskCall>,
    room: usize,
}

impl Model for MemoryDisk {
    ghost use Rattle.std.specs.Prelude.{◌≤◌, drop, vec_capacity};
    ghost use Rattle.vk_files.specs.MemoryDisks.{MemoryState};

    ghost Value = { MemoryState };

    ghost view = { λ d. record {
      blocks = d.disk;
      coming = drop d.made d.plan.items;
      faults = d.faults;
      calls = d.calls.items;
      room = d.room;
    } };

    ghost invariant = { λ d. d.room ≤ vec_capacity d.calls };
}

/// What is planned of the call behind so many.
fn planned(plan: &[Telling], made: usize) -> Telling
    ensures { result ≡ told_at (drop made plan.now) 0 }
{
    match plan.get(made) {
        Some(told) => *told,
        None => Telling::Done,
    }
}

/// One call more, of at most as many as there are.
fn one_more(made: usize, count: usize) -> usize
    ensures { result ≡ min (made + 1) (max made count) }
{
    if made < count { made + 1 } else { made }
}

/// One fault more, where the call failed.
fn counted(faults: u64, told: Telling) -> u64
    ensures count { result ≡ faults_after told faults }
    ensures counted { Counts told faults result }
{
    match told {
        Telling::Done => faults,
        Telling::Lost | Telling::Landed => faults.saturating_add(1),
    }
}

impl MemoryDisk {
    /// A disk of these blocks, whose calls, reads and writes together, tell in order what is planned; those behind the last of the
    /// plan are done. It keeps a record of its first calls, of so many.
    ///
    /// # Errors
    ///
    /// [`NoMemory`] where memory is wanting.
    pub fn new(
        alloc: Global,
        blocks: Vec<[u8; BLOCK_BYTES]>,
        plan: Vec<Telling>,
        room: usize,
    ) -> Result<Self, NoMemory>
        requires some { 1 ≤ length blocks.items }
        requires few { length blocks.items < 2 ^ 32 }
        ensures { IfOk result (λ d. d ≡ new_memory blocks.items plan.items room) }
    {
        let calls = Vec::with_capacity(alloc, room)?;
        Ok(MemoryDisk {
            disk: SureDisk::new(blocks),
            plan,
            made: 0,
            faults: 0,
            calls,
            room,
        })
    }

    /// Its first calls, in order.
    pub fn calls(&self) -> &[DiskCall]
        ensures { result.now ≡ self.now.calls }
    {
        self.calls.as_slice()
    }

    /// Counts the call that comes, and records it, where there is room. Gives what it tells.
    fn begin(&mut self, call: DiskCall) -> Telling
        ensures told { result ≡ told_at self.old.coming 0 }
        ensures begun { self.new ≡ begun self.old call }
        ensures counted { Counts result self.old.faults self.new.faults }
    {
        let told = planned(&self.plan, self.made);
        self.made = one_more(self.made, self.plan.len());
        self.faults = counted(self.faults, told);
        if self.calls.len() < self.room {
            self.calls.push_reserved(call);
        }
        told
    }
}

impl Disk for MemoryDisk {
    ghost state = { memory_state };

    fn faults(&self) -> u64 {
        self.faults
    }

    fn blocks(&self) -> u32 {
        self.disk.blocks()
    }

    fn read(&mut self, block: u32, into: &mut [u8; BLOCK_BYTES]) -> Result<(), Failed>
        requires { block < length self.old.blocks }
        ensures told { IsBlockRead block (memory_state self.old) (memory_state self.new) result into.new }

        // the call is recorded, where there is room
        ensures now { self.new ≡ begun self.old (DiskCall.Read block) }
    {
        match self.begin(DiskCall::Read { block }) {
            Telling::Done => {
                *into = self.disk.block(block);
                Ok(())
            }
            Telling::Lost | Telling::Landed => Err(Failed),
        }
    }

    fn write(&mut self, block: u32, bytes: &[u8; BLOCK_BYTES]) -> Result<(), Failed>
        requires { block < length self.old.blocks }
        ensures told { IsBlockWritten block bytes.now (memory_state self.old) (memory_state self.new) result }

        // the call is recorded, where there is room
        ensures now { self.new ≡ after_write self.old block bytes.now }
    {
        match self.begin(DiskCall::Write { block }) {
            Telling::Done => {
                self.disk.set_block(block, bytes);
                Ok(())
            }
            Telling::Lost => Err(Failed),
            Telling::Landed => {
                self.disk.set_block(block, bytes);
                Err(Failed)
            }
        }
    }
}
