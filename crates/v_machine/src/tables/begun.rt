//! The Sends that one process has begun. The first of them may be forgotten.

ghost use Rattle.std.specs.Prelude.{◌≡◌, ◌≤◌, ◌<◌, ◌+◌, ◌++◌, ◌∷◌, [], length, ℕ, true, false, not, position, option_copied, option_map, OnOk, OnErr};
ghost use Rattle.vk_base.specs.Calls.{dropped_at};
ghost use Rattle.vk_base.specs.Kernel.{holds_of, is_posted};
ghost use Rattle.vk_base.specs.declared.kernel.Stage.TheVariants as stages;
ghost use Rattle.v_machine.specs.Begun.{AreEnded, Forgets};
ghost use Rattle.v_machine.specs.Lists.{change_numbered};
ghost use Rattle.v_machine.specs.Places.{numbered};
ghost use Rattle.v_machine.specs.Sends.{at_stage, come_at, dropped_to, handed_on, with_begun, with_opened, with_written, given_back};
ghost use Rattle.v_machine.specs.Spent.{has_ended};

use crate::tables::numbered::Numbered;
use crate::tables::sends;
use crate::tables::sent::{Replied, Sent};
use std::alloc::Global;
use std::marker::Model;
use vk_base::{List, Message, Move, NoMemory, Pid};

/// No more Sends than these are forgotten of one process.
const MOST: u64 = 4_611_686_018_427_387_904;

/// The Sends of one process. Some of the first are forgotten: they have ended, and the first that is kept, which has ended too, stands
/// for each of them.
#[derive(Drop)]
pub struct Begun {
    /// How many are forgotten.
    forgotten: u64,
    /// Those behind them.
    rest: Numbered<Sent>,
}

impl Model for Begun {
    ghost use Rattle.std.specs.Prelude.{◌≤◌, List};
    ghost use Rattle.vk_base.specs.declared.kernel.Exchange.{Exchange};
    ghost use Rattle.v_machine.specs.Begun.{HaveEnded, behind};
    ghost use Rattle.v_machine.specs.declared.tables.begun.TheConstants.{MOST};

    ghost Value = { List Exchange };

    ghost view = { λ b. behind b.forgotten b.rest };

    ghost invariant = { λ b. HaveEnded b.forgotten b.rest × (b.forgotten ≤ MOST) };
}

impl Begun {
    pub fn new(alloc: Global) -> Self
        ensures { result ≡ [] }
    {
        Begun {
            forgotten: 0,
            rest: Numbered::new(alloc),
        }
    }

    /// How many there are, which is the number of the last.
    pub fn count(&self) -> u64
        ensures { result ≡ length self.now }
    {
        self.forgotten + self.rest.as_slice().len() as u64
    }

    /// The Send of a number.
    pub fn get(&self, number: u64) -> Option<&Sent>
        ensures { option_copied result ≡ numbered self.now number }
    {
        let _few = self.rest.as_slice().len();
        self.rest.get_after(self.forgotten, number)
    }

    /// Whether one more Send takes more memory.
    pub fn is_full(&self) -> bool {
        self.rest.is_full()
    }

    /// One more Send. It is put into its callers, so that the Send is written where it stays.
    #[inline(always)]
    pub fn push(&mut self, sent: Sent) -> Result<(), NoMemory>
        ensures ok { OnOk result (self.new ≡ self.old ++ sent ∷ []) }
        ensures err { OnErr result (self.new ≡ self.old) }
    {
        self.rest.push(sent)
    }

    /// Where no room is left, no fewer than `few` are kept, and half of these have ended, the ended ones are forgotten, but for the last.
    #[inline(always)]
    pub fn forget(&mut self, few: u64)
        ensures { Forgets self.old self.new }
    {
        if self.rest.is_full() && self.rest.count() >= few {
            self.forget_ended();
        }
    }

    #[inline(never)]
    fn forget_ended(&mut self)
        ensures { Forgets self.old self.new }
    {
        let ended = ended_of(self.rest.as_slice());
        if ended == 0 || ended < self.rest.count() / 2 || self.forgotten > MOST - ended {
            return;
        }
        self.rest.forget(ended);
        self.forgotten += ended;
    }
}

/// How many of the first have ended, and the one behind them, too, which is not the last.
fn ended_of(sends: &[Sent]) -> u64
    ensures { 0 < result → AreEnded result sends.now }
{
    match first_live(sends) {
        Some(at) => (at as u64).saturating_sub(1),
        None => 0,
    }
}

/// The place of the first that has not ended.
fn first_live(sends: &[Sent]) -> Option<usize>
    ensures { result ≡ position (λ e. not (has_ended e)) sends.now }
{
    sends.iter().position(|s| !s.has_ended())
}

/// The number of the next Send.
pub fn next_number(sends: &Begun) -> u64
    ensures { result ≡ length sends.now + 1 }
{
    sends.forgotten + sends.rest.as_slice().len() as u64 + 1
}

/// The message of the Send of a number is taken.
#[inline(always)]
pub fn take(sends: &mut Begun, number: u64)
    requires { holds_of has_ended (numbered sends.old number) ≡ false }
    ensures { sends.new ≡ change_numbered number (at_stage stages.Taken) sends.old }
{
    let number = number.saturating_sub(sends.forgotten);
    sends::take(&mut sends.rest, number);
}

/// The Send of a number is handed on to another process, which is shown this message. Where memory is wanting nothing changes.
#[inline(always)]
pub fn hand_on(
    sends: &mut Begun,
    alloc: Global,
    number: u64,
    shown: Message,
    to: Pid,
) -> Result<(), NoMemory>
    requires { holds_of has_ended (numbered sends.old number) ≡ false }
    ensures ok { OnOk result (sends.new ≡ change_numbered number (handed_on shown to) sends.old) }
    ensures err { OnErr result (sends.new ≡ sends.old) }
{
    let number = number.saturating_sub(sends.forgotten);
    sends::hand_on(&mut sends.rest, alloc, number, shown, to)
}

/// The Send of a number is replied to, by a message alone.
#[inline(always)]
pub fn answer(sends: &mut Begun, alloc: Global, number: u64, message: Message)
    requires { holds_of has_ended (numbered sends.old number) ≡ false }
    ensures { sends.new ≡ change_numbered number (at_stage (stages.Replied message 0 [])) sends.old }
{
    let number = number.saturating_sub(sends.forgotten);
    sends::answer(&mut sends.rest, alloc, number, message);
}

/// The Send of a number is replied to, with bytes for its sender's memory. Where memory is wanting nothing changes.
#[inline(always)]
pub fn answer_with(
    sends: &mut Begun,
    alloc: Global,
    number: u64,
    reply: Replied,
) -> Result<(), NoMemory>
    requires { holds_of has_ended (numbered sends.old number) ≡ false }
    ensures ok { OnOk result (sends.new ≡ change_numbered number
        (at_stage (stages.Replied reply.message reply.dest reply.bytes)) sends.old) }
    ensures err { OnErr result (sends.new ≡ sends.old) }
{
    let number = number.saturating_sub(sends.forgotten);
    sends::answer_with(&mut sends.rest, alloc, number, reply)
}

/// The Send of a number comes to a queue of the host. Those to the host before it, from the latest that came on, are
/// dropped, where they are under way.
pub fn come(sends: &mut Begun, latest: u64, number: u64, host: u16)
    requires order { latest ≤ number }
    requires live { holds_of (λ e. is_posted e.stage) (numbered sends.old number) ≡ true }
    ensures value { (n : ℕ) → numbered sends.new n ≡ option_map (come_at latest number host n) (numbered sends.old n) }
    ensures count { length sends.new ≡ length sends.old }
{
    for earlier in latest..number {
        drop_to(sends, earlier, host);
    }
    queue(sends, number);
}

#[inline(always)]
fn queue(sends: &mut Begun, number: u64)
    requires { holds_of has_ended (numbered sends.old number) ≡ false }
    ensures { sends.new ≡ change_numbered number (at_stage stages.Queued) sends.old }
{
    let number = number.saturating_sub(sends.forgotten);
    sends::queue(&mut sends.rest, number);
}

/// The Send of a number is dropped, where it is under way to the host.
#[inline(always)]
fn drop_to(sends: &mut Begun, number: u64, host: u16)
    ensures { sends.new ≡ change_numbered number (dropped_to host) sends.old }
{
    let number = number.saturating_sub(sends.forgotten);
    sends::drop_to(&mut sends.rest, number, host);
}

/// The Send of a number is dropped, where it is queued at the process or held by it.
pub fn drop_at(sends: &mut Begun, number: u64, gone: Pid)
    ensures { sends.new ≡ change_numbered number (dropped_at gone) sends.old }
{
    let number = number.saturating_sub(sends.forgotten);
    sends::drop_at(&mut sends.rest, number, gone);
}

/// One more move of the Send of a number. Where memory is wanting nothing changes.
#[inline(always)]
pub fn push_move(sends: &mut Begun, alloc: Global, number: u64, begun: Move) -> Result<(), NoMemory>
    requires { holds_of has_ended (numbered sends.old number) ≡ false }
    ensures ok { OnOk result (sends.new ≡ change_numbered number (with_begun begun) sends.old) }
    ensures err { OnErr result (sends.new ≡ sends.old) }
{
    let number = number.saturating_sub(sends.forgotten);
    sends::push_move(&mut sends.rest, alloc, number, begun)
}

/// The move of a number of the Send of a number is the open one from now on, with these bytes, if some are given.
/// Where no move was begun nothing changes.
#[inline(always)]
pub fn open_move(sends: &mut Begun, number: u64, moving: u64, noted: Option<List<u8>>)
    ensures { sends.new ≡ change_numbered number (with_opened moving noted) sends.old }
{
    let number = number.saturating_sub(sends.forgotten);
    sends::open_move(&mut sends.rest, number, moving, noted);
}

/// So many bytes of the open move of the Send of a number were written. Where no move was begun nothing changes.
#[inline(always)]
pub fn put_done(sends: &mut Begun, number: u64, done: u32)
    ensures { sends.new ≡ change_numbered number (with_written done) sends.old }
{
    let number = number.saturating_sub(sends.forgotten);
    sends::put_done(&mut sends.rest, number, done);
}

/// Of the moves from one number up to another of the Send of a number, the spent ones give their bytes back.
#[inline(always)]
pub fn give_back(sends: &mut Begun, alloc: Global, number: u64, from: u64, to: u64)
    requires { from ≤ to }
    ensures { sends.new ≡ change_numbered number (given_back from to) sends.old }
{
    let number = number.saturating_sub(sends.forgotten);
    sends::give_back(&mut sends.rest, alloc, number, from, to);
}
