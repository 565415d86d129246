//! The limits of files. docs/RULES.md has them in a table.
//!
//! Two of them stand in `vk_event` too, since this crate stands on no scenario: what a scenario may ask for is bounded by the `FILES`
//! there, and what memory it gives is the `IMAGE_BYTES`, the same number as [`FILE_BYTES`].

/// Bytes of a block of a disk, and of a page of a file.
pub const BLOCK_BYTES: usize = 512;
/// Entries of a directory.
pub const FILES: usize = 16;
/// Bytes of a directory entry.
pub const ENTRY_BYTES: usize = 32;
/// Bytes of a file's name, with the zeros behind it.
pub const NAME_BYTES: usize = 20;
/// Bytes of a file, so that one move can bring it.
pub const FILE_BYTES: u32 = 65_536;
/// Blocks of a file that has as many bytes as a file may have.
pub const FILE_BLOCKS: u32 = 128;
