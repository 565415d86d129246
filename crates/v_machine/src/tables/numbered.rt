//! Lists whose items are numbered from 1.

ghost use Rattle.std.specs.Prelude.{◌≡◌, ◌≤◌, ◌-◌, ◌++◌, ◌∷◌, [], drop, length, slice_get, option_copied, OnOk, OnErr};
ghost use Rattle.std.specs.Borrow.{sem};
ghost use Rattle.std.specs.Option.{option_copied_mut};
ghost use Rattle.v_machine.specs.Places.{index_of, numbered};

use std::alloc::Global;
use std::marker::Model;
use vk_base::NoMemory;

/// A list of items, the first of which has the number 1.
#[derive(Drop)]
pub struct Numbered<T> {
    items: Vec<T>,
}

impl<T> Model for Numbered<T> {
    ghost use Rattle.std.specs.Prelude.{List};

    ghost Value = { List T };

    ghost view = { λ n. n.items.items };
}

impl<T> Numbered<T> {
    ghost use Rattle.v_machine.specs.Lends.{lends_numbered};

    pub fn new(alloc: Global) -> Self
        ensures { result ≡ [] }
    {
        Numbered {
            items: Vec::new(alloc),
        }
    }

    /// The items, in order.
    pub fn as_slice(&self) -> &[T]
        ensures { result.now ≡ self.now }
    {
        self.items.as_slice()
    }

    /// How many there are, which is the number of the last.
    pub fn count(&self) -> u64
        ensures { result ≡ length self.now }
    {
        self.items.len() as u64
    }

    /// Whether one more item takes more memory.
    pub fn is_full(&self) -> bool {
        self.items.len() == self.items.capacity()
    }

    /// The item of a number.
    pub fn get(&self, number: u64) -> Option<&T>
        ensures { option_copied result ≡ numbered self.now number }
    {
        self.items.get(index_of(number))
    }

    /// The item of a number, where so many were forgotten: the first stands for each of these.
    pub fn get_after(&self, forgotten: u64, number: u64) -> Option<&T>
        ensures { option_copied result ≡ slice_get self.now (index_of number - forgotten) }
    {
        self.items
            .get(index_of(number).saturating_sub(forgotten as usize))
    }

    /// The item of a number, to be changed.
    pub fn get_mut(&mut self, number: u64) -> Option<&mut T>
        ensures* writes_back { sem 𝓛 (lends_numbered T.row self.entry number result) }
        ensures value { option_copied_mut result ≡ numbered self.old number }
    {
        self.items.get_mut(index_of(number))
    }

    /// One more item. Where memory is wanting nothing changes. It is put into its callers, so that the item is written where it
    /// stays.
    #[inline(always)]
    pub fn push(&mut self, item: T) -> Result<(), NoMemory>
    where
        T: Drop,
        ensures ok { OnOk result (self.new ≡ self.old ++ item ∷ []) }
        ensures err { OnErr result (self.new ≡ self.old) }
    {
        self.items.push(item)?;
        Ok(())
    }

    /// The first items are forgotten, so many, and those behind them have the numbers from 1 on.
    pub fn forget(&mut self, count: u64)
    where
        T: Drop,
        requires { count ≤ length self.old }
        ensures { self.new ≡ drop count self.old }
    {
        let count = count as usize;
        let rest = self.items.len() - count;
        if count == 0 {
            return;
        }
        for at in 0..rest {
            self.items.swap(at, count + at);
        }
        self.items.truncate(rest);
    }
}

/// The place of a number in a slice, where no item stands for the number 0.
pub fn index_of(number: u64) -> usize
    ensures { result ≡ index_of number }
{
    (number as usize).wrapping_sub(1)
}
