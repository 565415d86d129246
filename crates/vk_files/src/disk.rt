// What every disk promises.
ghost use Rattle.std.specs.Prelude.{◌≡◌, ◌<◌, ◌≤◌, length};
ghost use Rattle.vk_files.specs.Disks.{DiskState, IsBlockRead, IsBlockWritten};

use crate::limits::BLOCK_BYTES;
use vk_io::Failed;

/// What a call of a disk tells.
#[derive(Clone, Copy, Debug, PartialEq, Eq)]
pub enum Telling {
    /// It was done.
    Done,
    /// It failed, and no block changed.
    Lost,
    /// It failed, and a block that was to be written was written all the same.
    Landed,
}

/// Blocks of 512 bytes, numbered from 0. Any call may fail, and then its count of faults rises.
pub trait Disk: Drop {
    /// What stands on it, its count of faults, and what its calls to come will tell, where it tells this beforehand.
    ghost state: { Self → DiskState };

    /// How many faults there were. The count stays at `u64::MAX` once it is there.
    fn faults(&self) -> u64
        ensures { result ≡ (state self.now).faults };

    /// How many blocks there are, at least one. No call changes it.
    fn blocks(&self) -> u32
        ensures count { result ≡ length (state self.now).blocks }
        ensures some { 1 ≤ result };

    /// Puts the bytes of a block into `into`. No block changes.
    ///
    /// # Errors
    ///
    /// [`Failed`] only where the count of faults rose.
    fn read(&mut self, block: u32, into: &mut [u8; BLOCK_BYTES]) -> Result<(), Failed>
        requires { block < length (state self.old).blocks }
        ensures told { IsBlockRead block (state self.old) (state self.new) result into.new };

    /// Makes these bytes a block. No other block changes.
    ///
    /// # Errors
    ///
    /// [`Failed`] only where the count of faults rose; the block has its old bytes or the new ones.
    fn write(&mut self, block: u32, bytes: &[u8; BLOCK_BYTES]) -> Result<(), Failed>
        requires { block < length (state self.old).blocks }
        ensures told { IsBlockWritten block bytes.now (state self.old) (state self.new) result };
}
