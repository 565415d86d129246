//! An entry of the table.

/// A key and the value that was put under it last.
#[derive(Clone, Copy)]
pub struct Entry {
    pub key: u32,
    pub value: u32,
}
