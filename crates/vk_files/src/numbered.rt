//! A disk of files that are named by their numbers.

ghost use Rattle.std.specs.Prelude.{◌≡◌, ◌≤◌, ◌+◌, ◌*◌, ◌++◌, None, OnOk, IfOk, length};
ghost use Rattle.vk_files.specs.Numbered.{directory, directory_byte, entry_byte, file_blocks, numbered_blocks, page_bytes};
ghost use Rattle.vk_files.specs.Volumes.{files_of, first_bad};

use crate::limits::{BLOCK_BYTES, ENTRY_BYTES, FILE_BLOCKS, FILE_BYTES};
use crate::loader::loader_name;
use crate::memory::SureDisk;
use std::alloc::Global;
use vk_base::NoMemory;

/// The byte at this place of the entry of a file.
fn entry_byte(file: u32, place: usize) -> u8
    requires file { file ≤ 15 }
    requires place { place ≤ 31 }
    ensures { result ≡ entry_byte file place }
{
    if place < 20 {
        loader_name(file)[place]
    } else if place < 24 {
        (1 + FILE_BLOCKS * file).to_be_bytes()[place - 20]
    } else if place < 28 {
        FILE_BLOCKS.to_be_bytes()[place - 24]
    } else {
        FILE_BYTES.to_be_bytes()[place - 28]
    }
}

/// The byte at this place of a directory of so many files.
fn directory_byte(files: u32, at: usize) -> u8
    requires { files ≤ 16 }
    ensures { result ≡ directory_byte files at }
{
    let file = at / ENTRY_BYTES;
    if file >= files as usize {
        0
    } else {
        entry_byte(file as u32, at % ENTRY_BYTES)
    }
}

/// The directory of so many files.
fn directory(files: u32) -> [u8; BLOCK_BYTES]
    requires { files ≤ 16 }
    ensures { result ≡ directory files }
{
    let mut block = [0; BLOCK_BYTES];
    for at in 0..BLOCK_BYTES {
        block[at] = directory_byte(files, at);
    }
    block
}

/// The block at this place of a file.
fn page_bytes(file: u32, page: u32) -> [u8; BLOCK_BYTES]
    requires file { file ≤ 15 }
    requires page { page ≤ 127 }
    ensures { result ≡ page_bytes file page }
{
    [((file + page) % 256) as u8; BLOCK_BYTES]
}

/// Appends the blocks of a file.
fn add_file(blocks: &mut Vec<[u8; BLOCK_BYTES]>, file: u32) -> Result<(), NoMemory>
    requires { file ≤ 15 }
    ensures { OnOk result (blocks.new.items ≡ blocks.old.items ++ file_blocks file) }
{
    for page in 0..FILE_BLOCKS {
        blocks.push(page_bytes(file, page))?;
    }
    Ok(())
}

/// A disk with so many files, at most 16: `f0`, `f1` and so on, each of 65,536 bytes in 128 blocks, one file behind the other from block 1
/// on. In file I each byte of its block P, from 0, is I + P, taken mod 256.
///
/// # Errors
///
/// [`NoMemory`] where memory is wanting.
pub fn numbered_disk(alloc: Global, files: u32) -> Result<SureDisk, NoMemory>
    requires { files ≤ 16 }
    ensures blocks { IfOk result (λ d. d ≡ numbered_blocks files) }
    ensures lawful { IfOk result (λ d. first_bad (length d) (files_of d) ≡ None) }
{
    let mut blocks = Vec::new(alloc);
    blocks.push(directory(files))?;
    for file in 0..files {
        add_file(&mut blocks, file)?;
    }
    Ok(SureDisk::new(blocks))
}
