//! The remote moves of an exchange.

ghost use Rattle.std.specs.Prelude.{◌≡◌, ◌≤◌};
ghost use Rattle.v_machine.specs.Lists.{change_numbered};
ghost use Rattle.v_machine.specs.Sends.{opened_moving, written_moving, emptied_moving, with_noted};

use crate::tables::numbered::Numbered;
use crate::tables::spent::{empty_moves, keeps_bytes};
use std::alloc::Global;
use vk_base::{List, Move};

/// The remote moves of an exchange, the number of the one that was opened last, 0 where none was, and how many bytes of
/// it were written.
#[derive(Drop)]
pub struct Moving {
    pub moves: Numbered<Move>,
    pub opened: u64,
    pub done: u32,
}

impl Moving {
    /// The move of a number is the open one from now on, with these bytes, if some are given. Where there is no move nothing
    /// changes, as where nothing lies apart.
    pub fn open(&mut self, number: u64, noted: Option<List<u8>>)
        ensures { self.new ≡ opened_moving number noted self.old }
    {
        if self.moves.count() == 0 {
            return;
        }
        if let Some(bytes) = noted {
            put_bytes(&mut self.moves, number, bytes);
        }
        self.opened = number;
        self.done = 0;
    }

    /// So many bytes of the open move were written. Where there is no move nothing changes.
    pub fn put_done(&mut self, done: u32)
        ensures { self.new ≡ written_moving done self.old }
    {
        if self.moves.count() > 0 {
            self.done = done;
        }
    }

    /// Of the moves from one number up to another, the spent ones give their bytes back.
    pub fn give_back(&mut self, alloc: Global, from: u64, to: u64)
        requires { from ≤ to }
        ensures { self.new ≡ emptied_moving from to self.old }
    {
        // Most steps write bytes of a move that is not spent by them.
        if from != to || !keeps_bytes(&self.moves, self.opened, self.done, to) {
            self.give_all_back(alloc, from, to);
        }
    }

    /// The same, whether there are some or not. It stays a function of its own, so that those who give nothing back do not pay for it.
    #[inline(never)]
    fn give_all_back(&mut self, alloc: Global, from: u64, to: u64)
        requires { from ≤ to }
        ensures { self.new ≡ emptied_moving from to self.old }
    {
        empty_moves(&mut self.moves, alloc, self.opened, self.done, from, to);
    }
}

/// The move of this number has these bytes.
#[tactic(auto, using(crate::proofs::Changes::changes))]
fn put_bytes(moves: &mut Numbered<Move>, number: u64, bytes: List<u8>)
    ensures { moves.new ≡ change_numbered number (with_noted bytes) moves.old }
{
    if let Some(opened) = moves.get_mut(number) {
        opened.bytes = bytes;
    }
}
