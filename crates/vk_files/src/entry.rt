//! Directory entries and files.

use crate::limits::NAME_BYTES;

/// An entry of a directory, lawful or not: a name with zeros behind it, the first block, how many blocks, and how many bytes.
#[derive(Clone, Copy)]
pub struct Entry {
    pub name: [u8; NAME_BYTES],
    pub start: u32,
    pub blocks: u32,
    pub length: u32,
}

/// A file: the place of its entry from 0, its first block, how many blocks, and how many bytes.
#[derive(Clone, Copy)]
pub struct File {
    pub number: u32,
    pub start: u32,
    pub blocks: u32,
    pub length: u32,
}
