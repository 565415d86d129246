//! The directory of a volume.

ghost use Rattle.std.specs.Prelude.{◌≡◌, ◌≤◌, ◌+◌, length, position, IfOk};
ghost use Rattle.vk_files.specs.Volumes.{are_zeros, blocks_for, ends_in_zeros, entries_in, entry_from, file_at, file_from, file_named, first_bad, has_name, is_free, is_lawful, is_taken, lies_on, meets, number_in};

use crate::entry::{Entry, File};
use crate::limits::{BLOCK_BYTES, ENTRY_BYTES, FILE_BYTES, FILES, NAME_BYTES};
use std::alloc::Global;
use vk_base::{List, NoMemory};

/// The number in the four bytes from this place on.
fn number_in(bytes: &[u8; BLOCK_BYTES], at: usize) -> u32
    requires { at + 4 ≤ BLOCK_BYTES }
    ensures { result ≡ number_in bytes.now at }
{
    u32::from_be_bytes([bytes[at], bytes[at + 1], bytes[at + 2], bytes[at + 3]])
}

/// The entry that begins at this place of a block.
fn entry_from(block: &[u8; BLOCK_BYTES], at: usize) -> Entry
    requires { at + ENTRY_BYTES ≤ BLOCK_BYTES }
    ensures { result ≡ entry_from block.now at }
{
    let mut name = [0; NAME_BYTES];
    name.copy_from_slice(&block[at..at + NAME_BYTES]);
    Entry {
        name,
        start: number_in(block, at + 20),
        blocks: number_in(block, at + 24),
        length: number_in(block, at + 28),
    }
}

/// The entries of a directory.
pub fn entries_in(alloc: Global, block: &[u8; BLOCK_BYTES]) -> Result<List<Entry>, NoMemory>
    ensures { IfOk result (λ l. l ≡ entries_in block.now FILES) }
{
    let mut entries = List::empty(alloc);
    for place in 0..FILES {
        entries.push(entry_from(block, ENTRY_BYTES * place))?;
    }
    Ok(entries)
}

/// Whether each of the bytes is zero.
fn are_zeros(bytes: &[u8]) -> bool
    ensures { result ≡ are_zeros bytes.now }
{
    bytes.iter().all(|b| *b == 0)
}

/// Whether no zero stands before a byte that is none.
fn ends_in_zeros(bytes: &[u8]) -> bool
    ensures { result ≡ ends_in_zeros bytes.now }
{
    let mut ended = false;
    for byte in bytes {
        if *byte == 0 {
            ended = true;
        } else if ended {
            return false;
        }
    }
    true
}

fn is_free(entry: &Entry) -> bool
    ensures { result ≡ is_free entry.now }
{
    are_zeros(entry.name.as_slice()) && entry.start == 0 && entry.blocks == 0 && entry.length == 0
}

/// As many blocks as so many bytes want.
fn blocks_for(bytes: u32) -> u32
    requires { bytes ≤ FILE_BYTES }
    ensures { result ≡ blocks_for bytes }
{
    (bytes + 511) / BLOCK_BYTES as u32
}

/// Whether its blocks, if it has any, lie among so many.
fn lies_on(count: u32, entry: &Entry) -> bool
    ensures { result ≡ lies_on count entry.now }
{
    entry.blocks == 0 || u64::from(entry.start) + u64::from(entry.blocks) <= u64::from(count)
}

/// The number of the block behind its last.
fn end_of(entry: &Entry) -> u64
    ensures { result ≡ entry.now.start + entry.now.blocks }
{
    u64::from(entry.start) + u64::from(entry.blocks)
}

/// Whether two entries have a block in common.
fn meets(a: &Entry, b: &Entry) -> bool
    ensures { result ≡ meets a.now b.now }
{
    u64::from(a.start.max(b.start)) < end_of(a).min(end_of(b))
}

/// Whether an earlier entry has a block or the name of this one.
fn is_taken(earlier: &[Entry], entry: &Entry) -> bool
    ensures { result ≡ is_taken earlier.now entry.now }
{
    earlier
        .iter()
        .any(|other| meets(other, entry) || other.name == entry.name)
}

/// Whether it is an entry of a file, on a disk of so many blocks, behind these entries.
fn is_lawful(count: u32, earlier: &[Entry], entry: &Entry) -> bool
    ensures { result ≡ is_lawful count earlier.now entry.now }
{
    !are_zeros(entry.name.as_slice())
        && ends_in_zeros(entry.name.as_slice())
        && entry.start >= 1
        && entry.length <= FILE_BYTES
        && entry.blocks == blocks_for(entry.length)
        && lies_on(count, entry)
        && !is_taken(earlier, entry)
}

/// The place of the first entry that is neither free nor lawful, on a disk of so many blocks.
pub fn first_bad(count: u32, files: &[Entry]) -> Option<u32>
    requires { length files.now ≤ FILES }
    ensures { result ≡ first_bad count files.now }
{
    for place in 0..files.len() {
        let entry = &files[place];
        if !is_free(entry) && !is_lawful(count, &files[..place], entry) {
            return Some(place as u32);
        }
    }
    None
}

/// The file of an entry at this place.
fn file_from(number: u32, entry: &Entry) -> Option<File>
    ensures { result ≡ file_from number entry.now }
{
    if is_free(entry) {
        None
    } else {
        Some(File {
            number,
            start: entry.start,
            blocks: entry.blocks,
            length: entry.length,
        })
    }
}

/// The file of this number.
pub fn file_at(files: &[Entry], number: u32) -> Option<File>
    ensures { result ≡ file_at files.now number }
{
    let entry = files.get(number as usize)?;
    file_from(number, entry)
}

/// The place of the file of this name.
fn place_named(files: &[Entry], name: &[u8; NAME_BYTES]) -> Option<usize>
    ensures { result ≡ position (has_name name.now) files.now }
{
    files
        .iter()
        .position(|entry| !is_free(entry) && entry.name == *name)
}

/// The file of this name.
pub fn file_named(files: &[Entry], name: &[u8; NAME_BYTES]) -> Option<File>
    requires { length files.now ≤ FILES }
    ensures { result ≡ file_named files.now name.now }
{
    let place = place_named(files, name)?;
    file_at(files, place as u32)
}
