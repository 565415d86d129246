//! Remote moves of which no byte can be written any more: their bytes are given back.

ghost use Rattle.std.specs.Prelude.{◌≡◌, ◌≤◌, ◌+◌, true};
ghost use Rattle.v_machine.specs.Lists.{change_numbered};
ghost use Rattle.v_machine.specs.Sends.{emptied_between};
ghost use Rattle.v_machine.specs.Spent.{emptied, is_spent};

use crate::tables::numbered::Numbered;
use std::alloc::Global;
use vk_base::{List, Move};

/// Each move from one number up to another gives its bytes back, if it is spent.
pub fn empty_moves(
    moves: &mut Numbered<Move>,
    alloc: Global,
    opened: u64,
    done: u32,
    from: u64,
    to: u64,
)
    requires { from ≤ to }
    ensures { moves.new ≡ emptied_between opened done from (to + 1) 1 moves.old }
{
    for number in from..to {
        empty_move(moves, alloc, opened, done, number);
    }
    empty_move(moves, alloc, opened, done, to);
}

#[tactic(auto, using(crate::proofs::Changes::changes))]
fn empty_move(moves: &mut Numbered<Move>, alloc: Global, opened: u64, done: u32, number: u64)
    ensures { moves.new ≡ change_numbered number (emptied opened done number) moves.old }
{
    if let Some(begun) = moves.get_mut(number) {
        if is_spent(opened, done, number, begun) {
            begun.bytes = List::empty(alloc);
        }
    }
}

/// Whether the move of a number has nothing to give back: it is not spent, or there is none.
pub fn keeps_bytes(moves: &Numbered<Move>, opened: u64, done: u32, number: u64) -> bool
    ensures { result ≡ true → change_numbered number (emptied opened done number) moves.now ≡ moves.now }
{
    match moves.get(number) {
        Some(found) => !is_spent(opened, done, number, found),
        None => true,
    }
}

/// Whether a later move was opened, or all bytes of this one were written.
fn is_spent(opened: u64, done: u32, number: u64, begun: &Move) -> bool
    ensures { result ≡ is_spent opened done number begun.now }
{
    number < opened || (number == opened && done == begun.count)
}
