//! One exchange of the kernel, in few bytes.

ghost use Rattle.std.specs.Prelude.{◌≡◌, ◌≤◌, [], Some, None, IfSome, IfNone, OnOk, OnErr, IfOk};
ghost use Rattle.vk_base.specs.declared.kernel.Stage.TheVariants as stages;
ghost use Rattle.vk_base.specs.Kernel.{is_posted, is_queued, is_taken, reply_of};
ghost use Rattle.v_machine.specs.Sends.{at_stage, handed_on, with_begun, with_opened, with_written, given_back};
ghost use Rattle.v_machine.specs.Sent.{first_stage};
ghost use Rattle.v_machine.specs.Spent.{has_ended};

use crate::tables::apart::Apart;
use crate::tables::handed::Handing;
use std::alloc::Global;
use std::marker::Model;
use vk_base::{List, Message, Move, NoMemory, Pid};

/// How far an exchange is.
#[derive(Clone, Copy)]
pub enum Phase {
    Posted,
    Queued,
    Taken,
    Replied,
    Dropped,
}

/// What a reply brings: its message, and bytes for the memory of the sender from `dest` on.
#[derive(Drop)]
pub struct Replied {
    pub message: Message,
    pub dest: u32,
    pub bytes: List<u8>,
}

/// An exchange of the kernel in few bytes. What most have not lies apart.
#[derive(Drop)]
pub struct Sent {
    apart: Apart,
    target: Pid,
    message: Message,
    /// The message of the reply, where there is one.
    reply: Message,
    phase: Phase,
    /// The message was handed on; to whom lies apart.
    is_handed: bool,
}

impl Model for Sent {
    ghost use Rattle.vk_base.specs.declared.kernel.Exchange.{Exchange};
    ghost use Rattle.v_machine.specs.Sent.{exchange_by};

    ghost Value = { Exchange };

    ghost view = { λ s. exchange_by s.target s.message s.phase s.reply s.is_handed s.apart };
}

impl Sent {
    /// A Send that has begun.
    #[inline(always)]
    pub fn new(
        alloc: Global,
        target: Pid,
        message: Message,
        part: List<u8>,
        phase: Phase,
    ) -> Result<Self, NoMemory>
        ensures { IfOk result (λ s. s ≡ record {
          target = target;
          message = message;
          part = part;
          at = target;
          shown = message;
          stage = first_stage phase message;
          moves = [];
          opened = 0;
          done = 0;
        }) }
    {
        let apart = Apart::new(alloc, part)?;
        Ok(Sent {
            apart,
            target,
            message,
            reply: message,
            phase,
            is_handed: false,
        })
    }

    /// The process that it was sent to.
    pub fn target(&self) -> Pid
        ensures { result ≡ self.now.target }
    {
        self.target
    }

    /// The message as it was sent.
    pub fn message(&self) -> &Message
        ensures { result.now ≡ self.now.message }
    {
        &self.message
    }

    /// The process in whose queue it waits, or that took it last.
    #[inline(always)]
    pub fn at(&self) -> Pid
        ensures { result ≡ self.now.at }
    {
        if !self.is_handed {
            return self.target;
        }
        match self.apart.handed() {
            Some(last) => last.at,
            None => self.target,
        }
    }

    /// The message that this process is shown.
    #[inline(always)]
    pub fn shown(&self) -> Message
        ensures { result ≡ self.now.shown }
    {
        if !self.is_handed {
            return self.message;
        }
        match self.apart.handed() {
            Some(last) => last.shown,
            None => self.message,
        }
    }

    /// The bytes that go with the message.
    pub fn part(&self) -> &[u8]
        ensures { result.now ≡ self.now.part }
    {
        self.apart.part()
    }

    /// The remote moves that were begun under it.
    pub fn moves(&self) -> &[Move]
        ensures { result.now ≡ self.now.moves }
    {
        self.apart.moves()
    }

    /// The number of the move that was opened last, 0 where none was.
    pub fn opened(&self) -> u64
        ensures { result ≡ self.now.opened }
    {
        self.apart.opened()
    }

    /// How many bytes of that move were written.
    pub fn done(&self) -> u32
        ensures { result ≡ self.now.done }
    {
        self.apart.done()
    }

    /// Whether it is on its way to another station.
    pub fn is_posted(&self) -> bool
        ensures { result ≡ is_posted self.now.stage }
    {
        matches!(self.phase, Phase::Posted)
    }

    /// Whether it waits to be received.
    pub fn is_queued(&self) -> bool
        ensures { result ≡ is_queued self.now.stage }
    {
        matches!(self.phase, Phase::Queued)
    }

    /// Whether it was received, and neither replied to nor handed on.
    pub fn is_taken(&self) -> bool
        ensures { result ≡ is_taken self.now.stage }
    {
        matches!(self.phase, Phase::Taken)
    }

    /// Whether nothing more becomes of it: it is replied to or dropped, and no remote move was begun.
    pub fn has_ended(&self) -> bool
        ensures { result ≡ has_ended self.now }
    {
        matches!(self.phase, Phase::Replied | Phase::Dropped) && self.moves().is_empty()
    }

    /// The message, the place and the bytes of the reply.
    pub fn replied(&self) -> Option<(Message, u32, &[u8])>
        ensures none { IfNone result (reply_of self.now.stage ≡ None) }
        ensures some { IfSome result (λ r. reply_of self.now.stage ≡ Some (r.0, r.1, r.2.now)) }
    {
        match self.phase {
            Phase::Replied => Some((self.reply, self.apart.dest(), self.apart.bytes())),
            _ => None,
        }
    }

    /// It waits to be received from now on.
    pub fn queue(&mut self)
        ensures { self.new ≡ at_stage stages.Queued self.old }
    {
        self.phase = Phase::Queued;
    }

    /// It is received.
    pub fn take(&mut self)
        ensures { self.new ≡ at_stage stages.Taken self.old }
    {
        self.phase = Phase::Taken;
    }

    /// It is handed on to another process, which is shown this message. Where memory is wanting nothing changes.
    pub fn hand_on(&mut self, alloc: Global, shown: Message, to: Pid) -> Result<(), NoMemory>
        ensures ok { OnOk result (self.new ≡ handed_on shown to self.old) }
        ensures err { OnErr result (self.new ≡ self.old) }
    {
        self.apart.hand_on(alloc, Handing { at: to, shown })?;
        self.is_handed = true;
        self.phase = Phase::Queued;
        Ok(())
    }

    /// It is dropped: nobody replies to it.
    pub fn drop_it(&mut self)
        ensures { self.new ≡ at_stage stages.Dropped self.old }
    {
        self.phase = Phase::Dropped;
    }

    /// The reply is a message alone.
    pub fn answer(&mut self, alloc: Global, message: Message)
        ensures { self.new ≡ at_stage (stages.Replied message 0 []) self.old }
    {
        self.apart.clear_answer(alloc);
        self.reply = message;
        self.phase = Phase::Replied;
    }

    /// The reply has bytes for the sender's memory. Where memory is wanting nothing changes.
    pub fn answer_with(&mut self, alloc: Global, reply: Replied) -> Result<(), NoMemory>
        ensures ok { OnOk result (self.new ≡ at_stage (stages.Replied reply.message reply.dest reply.bytes) self.old) }
        ensures err { OnErr result (self.new ≡ self.old) }
    {
        let Replied {
            message,
            dest,
            bytes,
        } = reply;
        self.apart.put_answer(alloc, dest, bytes)?;
        self.reply = message;
        self.phase = Phase::Replied;
        Ok(())
    }

    /// One more move. Where memory is wanting nothing changes.
    pub fn push_move(&mut self, alloc: Global, begun: Move) -> Result<(), NoMemory>
        ensures ok { OnOk result (self.new ≡ with_begun begun self.old) }
        ensures err { OnErr result (self.new ≡ self.old) }
    {
        self.apart.push_move(alloc, begun)
    }

    /// The move of a number is the open one from now on, with these bytes, if some are given. Where no move was begun
    /// nothing changes.
    pub fn open(&mut self, moving: u64, noted: Option<List<u8>>)
        ensures { self.new ≡ with_opened moving noted self.old }
    {
        self.apart.open(moving, noted);
    }

    /// So many bytes of the open move were written. Where no move was begun nothing changes.
    pub fn put_done(&mut self, done: u32)
        ensures { self.new ≡ with_written done self.old }
    {
        self.apart.put_done(done);
    }

    /// Of the moves from one number up to another, the spent ones give their bytes back.
    pub fn give_back(&mut self, alloc: Global, from: u64, to: u64)
        requires { from ≤ to }
        ensures { self.new ≡ given_back from to self.old }
    {
        self.apart.give_back(alloc, from, to);
    }
}
