//! Values under keys.

ghost use Rattle.std.specs.Prelude.{◌≡◌, ◌<◌, ◌≤◌, ◌++◌, ◌∷◌, [], length, position, vec_len, vec_capacity, IfOk};
ghost use Rattle.vk_values.specs.Tables.{has_room, is_under, value_of, with_value};

use crate::entry::Entry;
use crate::limits::KEYS;
use std::alloc::Global;
use std::marker::Model;
use vk_base::NoMemory;

/// Values under at most 64 keys. All memory is taken when it is made.
#[derive(Drop)]
pub struct Table {
    entries: Vec<Entry>,
}

impl Model for Table {
    ghost use Rattle.std.specs.Prelude.{List, ◌≤◌, vec_capacity};
    ghost use Rattle.vk_values.specs.declared.entry.Entry.{Entry};
    ghost use Rattle.vk_values.specs.declared.limits.TheConstants.{KEYS};

    ghost Value = { List Entry };

    ghost view = { λ t. t.entries.items };

    ghost invariant = { λ t. KEYS ≤ vec_capacity t.entries };
}

impl Table {
    /// A table without a key.
    ///
    /// # Errors
    ///
    /// [`NoMemory`] where memory is wanting.
    pub fn new(alloc: Global) -> Result<Self, NoMemory>
        ensures { IfOk result (λ t. t ≡ []) }
    {
        Ok(Table {
            entries: Vec::with_capacity(alloc, KEYS)?,
        })
    }

    /// The value that was put last under the key.
    pub fn get(&self, key: u32) -> Option<u32>
        ensures { result ≡ value_of self.now key }
    {
        let entry = self.entries.iter().find(|e| e.key == key)?;
        Some(entry.value)
    }

    /// Keeps the value under the key, in place of what was put there before; `false` exactly where 64 other keys have values, and then
    /// nothing changes.
    pub fn put(&mut self, key: u32, value: u32) -> bool
        ensures room { result ≡ has_room self.old key }
        ensures kept { self.new ≡ with_value self.old key value }
    {
        let entry = Entry { key, value };
        match place_of(&self.entries, key) {
            Some(at) => {
                self.entries[at] = entry;
                true
            }
            None => {
                let fits = self.entries.len() < KEYS;
                if fits {
                    push(&mut self.entries, entry);
                }
                fits
            }
        }
    }
}

/// Where the key stands.
fn place_of(entries: &[Entry], key: u32) -> Option<usize>
    ensures { result ≡ position (is_under key) entries.now }
{
    entries.iter().position(|e| e.key == key)
}

/// One entry more, for which there is room.
fn push(entries: &mut Vec<Entry>, entry: Entry)
    requires { vec_len entries.old < vec_capacity entries.old }
    ensures items { entries.new.items ≡ entries.old.items ++ entry ∷ [] }
    ensures capacity { vec_capacity entries.old ≤ vec_capacity entries.new }
{
    if entries.push(entry).is_err() {
        unreachable!();
    }
}
