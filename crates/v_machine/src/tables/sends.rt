//! The Sends of one process, which are the exchanges of the kernel: changes of one of them.

ghost use Rattle.std.specs.Prelude.{◌≡◌, ◌≤◌, ◌||◌, [], OnOk, OnErr};
ghost use Rattle.vk_base.specs.Calls.{is_message_at, dropped_at};
ghost use Rattle.vk_base.specs.Kernel.{is_posted, is_at_target};
ghost use Rattle.vk_base.specs.declared.kernel.Stage.TheVariants as stages;
ghost use Rattle.v_machine.specs.Lists.{change_numbered};
ghost use Rattle.v_machine.specs.Sends.{at_stage, dropped_to, handed_on, with_begun, with_opened, with_written, given_back};

use crate::tables::numbered::Numbered;
use crate::tables::sent::{Replied, Sent};
use std::alloc::Global;
use vk_base::{List, Message, Move, NoMemory, Pid};

/// The message of the Send of a number is taken.
#[tactic(auto, using(crate::proofs::Changes::changes))]
pub fn take(sends: &mut Numbered<Sent>, number: u64)
    ensures { sends.new ≡ change_numbered number (at_stage stages.Taken) sends.old }
{
    if let Some(sent) = sends.get_mut(number) {
        sent.take();
    }
}

/// The Send of a number is handed on to another process, which is shown this message. Where memory is wanting nothing changes.
#[tactic(auto, using(crate::proofs::Changes::changes))]
pub fn hand_on(
    sends: &mut Numbered<Sent>,
    alloc: Global,
    number: u64,
    shown: Message,
    to: Pid,
) -> Result<(), NoMemory>
    ensures ok { OnOk result (sends.new ≡ change_numbered number (handed_on shown to) sends.old) }
    ensures err { OnErr result (sends.new ≡ sends.old) }
{
    match sends.get_mut(number) {
        Some(sent) => sent.hand_on(alloc, shown, to),
        None => Ok(()),
    }
}

/// The Send of a number is replied to, by a message alone.
#[tactic(auto, using(crate::proofs::Changes::changes))]
pub fn answer(sends: &mut Numbered<Sent>, alloc: Global, number: u64, message: Message)
    ensures { sends.new ≡ change_numbered number (at_stage (stages.Replied message 0 [])) sends.old }
{
    if let Some(sent) = sends.get_mut(number) {
        sent.answer(alloc, message);
    }
}

/// The Send of a number is replied to, with bytes for its sender's memory. Where memory is wanting nothing changes.
#[tactic(auto, using(crate::proofs::Changes::changes))]
pub fn answer_with(
    sends: &mut Numbered<Sent>,
    alloc: Global,
    number: u64,
    reply: Replied,
) -> Result<(), NoMemory>
    ensures ok { OnOk result (sends.new ≡ change_numbered number
        (at_stage (stages.Replied reply.message reply.dest reply.bytes)) sends.old) }
    ensures err { OnErr result (sends.new ≡ sends.old) }
{
    match sends.get_mut(number) {
        Some(sent) => sent.answer_with(alloc, reply),
        None => Ok(()),
    }
}

/// The Send of a number is queued.
#[tactic(auto, using(crate::proofs::Changes::changes))]
pub fn queue(sends: &mut Numbered<Sent>, number: u64)
    ensures { sends.new ≡ change_numbered number (at_stage stages.Queued) sends.old }
{
    if let Some(sent) = sends.get_mut(number) {
        sent.queue();
    }
}

/// The Send of a number is dropped, where it is under way to the host.
#[tactic(auto, using(crate::proofs::Changes::changes))]
pub fn drop_to(sends: &mut Numbered<Sent>, number: u64, host: u16)
    ensures { sends.new ≡ change_numbered number (dropped_to host) sends.old }
{
    if let Some(sent) = sends.get_mut(number) {
        if sent.target().host == host && is_under_way(sent) {
            sent.drop_it();
        }
    }
}

/// The Send of a number is dropped, where it is queued at the process or held by it.
#[tactic(auto, using(crate::proofs::Changes::changes))]
pub fn drop_at(sends: &mut Numbered<Sent>, number: u64, gone: Pid)
    ensures { sends.new ≡ change_numbered number (dropped_at gone) sends.old }
{
    if let Some(sent) = sends.get_mut(number) {
        if is_message_at(sent, gone) {
            sent.drop_it();
        }
    }
}

/// Whether a Send is queued at the process or held by it.
pub fn is_message_at(sent: &Sent, pid: Pid) -> bool
    ensures { result ≡ is_message_at pid sent.now }
{
    sent.at() == pid && (sent.is_queued() || sent.is_taken())
}

/// Whether a Send is neither replied to nor dropped.
fn is_under_way(sent: &Sent) -> bool
    ensures { result ≡ (is_posted sent.now.stage || is_at_target sent.now.stage) }
{
    sent.is_posted() || sent.is_queued() || sent.is_taken()
}

/// One more move of the Send of a number. Where memory is wanting nothing changes.
#[tactic(auto, using(crate::proofs::Changes::changes))]
pub fn push_move(
    sends: &mut Numbered<Sent>,
    alloc: Global,
    number: u64,
    begun: Move,
) -> Result<(), NoMemory>
    ensures ok { OnOk result (sends.new ≡ change_numbered number (with_begun begun) sends.old) }
    ensures err { OnErr result (sends.new ≡ sends.old) }
{
    match sends.get_mut(number) {
        Some(sent) => sent.push_move(alloc, begun),
        None => Ok(()),
    }
}

/// The move of a number of the Send of a number is the open one from now on, with these bytes, if some are given.
/// Where no move was begun nothing changes.
#[tactic(auto, using(crate::proofs::Changes::changes))]
pub fn open_move(sends: &mut Numbered<Sent>, number: u64, moving: u64, noted: Option<List<u8>>)
    ensures { sends.new ≡ change_numbered number (with_opened moving noted) sends.old }
{
    if let Some(sent) = sends.get_mut(number) {
        sent.open(moving, noted);
    }
}

/// So many bytes of the open move of the Send of a number were written. Where no move was begun nothing changes.
#[tactic(auto, using(crate::proofs::Changes::changes))]
pub fn put_done(sends: &mut Numbered<Sent>, number: u64, done: u32)
    ensures { sends.new ≡ change_numbered number (with_written done) sends.old }
{
    if let Some(sent) = sends.get_mut(number) {
        sent.put_done(done);
    }
}

/// Of the moves from one number up to another of the Send of a number, the spent ones give their bytes back.
#[tactic(auto, using(crate::proofs::Changes::changes))]
pub fn give_back(sends: &mut Numbered<Sent>, alloc: Global, number: u64, from: u64, to: u64)
    requires { from ≤ to }
    ensures { sends.new ≡ change_numbered number (given_back from to) sends.old }
{
    if let Some(sent) = sends.get_mut(number) {
        sent.give_back(alloc, from, to);
    }
}
