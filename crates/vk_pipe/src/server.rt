//! The pipe server.

ghost use Rattle.std.specs.Prelude.{◌≡◌, ◌≤◌, ◌+◌, List, [], ◌++◌, length, drop, slice_get, is_some, option_copied, IfOk, if◌then◌else◌};
ghost use Rattle.vk_base.specs.declared.answer.Answer.{Answer as TheAnswer};
ghost use Rattle.vk_program.specs.Tasks.{told_by};
ghost use Rattle.vk_pipe.specs.Pipes.{after_news, by_rule, delivered, fitting, judged, loaded, news_of, piece_len, pipe_call, read_rule, received, settled, stage_call, waiting, with_news};
ghost use Rattle.vk_pipe.specs.Standing.{IsPipeAfter, pipe_of, server_of};

use crate::bytes::PipeBytes;
use crate::limits::{PIPE_BYTES, WAITING_REQUESTS};
use crate::message::{is_close, is_request, is_write, message_for, read_of, reply_of};
use crate::news::News;
use crate::queue::Queue;
use crate::serving::{PipeServing, Verdict};
use crate::waiting::{Read, Write};
use std::alloc::Global;
use vk_base::limits::SEGMENT_BYTES;
use vk_base::{Answer, Call, Message, NoMemory, Pid};
use vk_program::Program;

/// Serves the writes and reads of one pipe.
#[derive(Drop)]
pub struct PipeServer {
    bytes: PipeBytes,
    writes: Queue<Write>,
    reads: Queue<Read>,
    closed: bool,
    /// How many replies are left to be made.
    left: u32,
    /// How many it makes in all.
    requests: u32,
    stage: PipeServing,
}

/// This process is told so.
fn refused(to: Pid, verdict: Verdict) -> News
    ensures { result ≡ News.Due (PipeServing.Reply to verdict) }
{
    let stage = PipeServing::Reply { to, verdict };
    News::Due { stage }
}

/// The server is at its end.
fn ended() -> News
    ensures { result ≡ News.Due PipeServing.Ended }
{
    let stage = PipeServing::Ended;
    News::Due { stage }
}

/// The write of this process, once so many bytes were loaded.
fn loaded(from: Pid, count: u32, answer: &Answer) -> News
    ensures { result ≡ loaded from count answer.now }
{
    let Answer::Loaded { bytes } = answer else {
        return ended();
    };
    if bytes.as_slice().len() != count as usize {
        return ended();
    }
    let bytes = bytes.copy();
    let write = Write { from, bytes };
    News::WriteWaits { write }
}

/// What becomes of a read whose bytes were replied with.
fn delivered(read: Read, answer: &Answer) -> News
    ensures { result ≡ delivered read answer.now }
{
    match answer {
        Answer::Ok => News::Delivered { read },
        _ => News::Replied,
    }
}

/// Takes the first write where its bytes fit behind so many.
fn take_fitting(writes: &mut Queue<Write>, held: usize) -> Option<Write>
    requires { held ≤ PIPE_BYTES }
    ensures value { result ≡ fitting held (slice_get writes.old 0) }
    ensures rest { writes.new ≡ (if is_some result then drop 1 writes.old else writes.old) }
{
    let write = writes.first()?;
    if held + write.bytes.as_slice().len() > PIPE_BYTES {
        return None;
    }
    writes.pop()
}

impl PipeServer {
    /// A server of an empty pipe, which makes so many replies and then exits. It takes no memory after this.
    ///
    /// # Errors
    ///
    /// [`NoMemory`] where memory is wanting.
    pub fn new(alloc: Global, requests: u32) -> Result<Self, NoMemory>
        ensures requests { IfOk result (λ s. s.requests ≡ requests) }
        ensures after { IfOk result (λ s. IsPipeAfter s []) }
    {
        let mut server = PipeServer {
            bytes: PipeBytes::new(alloc)?,
            writes: Queue::new(alloc)?,
            reads: Queue::new(alloc)?,
            closed: false,
            left: requests,
            requests,
            stage: PipeServing::Exit,
        };
        server.settle();
        Ok(server)
    }

    /// How many bytes of the pipe this read gets.
    fn piece_len(&self, read: Read) -> u32
        ensures { result ≡ piece_len (pipe_of self.now) read }
    {
        SEGMENT_BYTES.min(read.len.min(self.bytes.len() as u32))
    }

    /// What a request is that was taken with so many bytes.
    fn judge(&self, from: Pid, message: &Message, count: u32) -> News
        ensures { result ≡ judged (pipe_of self.now) from message.now count }
    {
        if !is_request(message) {
            refused(from, Verdict::Bad)
        } else if is_close(message) {
            News::Close { from }
        } else if is_write(message) && self.closed {
            refused(from, Verdict::Shut)
        } else if self.writes.len() + self.reads.len() == WAITING_REQUESTS {
            refused(from, Verdict::Full)
        } else if is_write(message) {
            let stage = PipeServing::Load { from, count };
            News::Due { stage }
        } else {
            let read = read_of(from, message);
            News::ReadWaits { read }
        }
    }

    /// What the answer to its receive brings.
    fn receive(&self, answer: &Answer) -> News
        ensures { result ≡ received (pipe_of self.now) answer.now }
    {
        match answer {
            Answer::ReceivedSegment {
                from,
                message,
                count,
            } => self.judge(*from, message, *count),
            _ => ended(),
        }
    }

    /// What the answer to its last call brings.
    fn news_of(&self, answer: &Answer) -> News
        ensures { result ≡ news_of (pipe_of self.now) self.now.stage answer.now }
    {
        match self.stage {
            PipeServing::Receive => self.receive(answer),
            PipeServing::Load { from, count } => loaded(from, count, answer),
            PipeServing::Store { read } => News::Due {
                stage: PipeServing::ReplyBytes { read },
            },
            PipeServing::ReplyBytes { read } => delivered(read, answer),
            PipeServing::Reply { .. } => News::Replied,
            PipeServing::Exit => ended(),
            PipeServing::Ended => ended(),
        }
    }

    /// Puts the bytes of a write into the pipe.
    fn put(&mut self, write: Write)
        requires { length self.old.bytes + length write.bytes ≤ PIPE_BYTES }
        ensures { self.new ≡ record self.old {
          bytes = self.old.bytes ++ write.bytes;
          stage = PipeServing.Reply write.from (Verdict.Written (length write.bytes));
        } }
    {
        let bytes = write.bytes.as_slice();
        self.bytes.put(bytes);
        self.stage = PipeServing::Reply {
            to: write.from,
            verdict: Verdict::Written {
                count: bytes.len() as u32,
            },
        };
    }

    /// Serves the first read so.
    fn serve(&mut self, stage: PipeServing)
        ensures { self.new ≡ record self.old { reads = drop 1 self.old.reads; stage = stage } }
    {
        let _served = self.reads.pop();
        self.stage = stage;
    }

    /// Settles the first read, where it can be.
    fn settle_read(&mut self)
        ensures settled { server_of self.new
            ≡ by_rule (pipe_of self.old) (read_rule (pipe_of self.old) (slice_get self.old.reads 0)) }
        ensures requests { self.new.requests ≡ self.old.requests }
    {
        match self.reads.first().copied() {
            None => self.stage = PipeServing::Receive,
            Some(read) => {
                if self.bytes.len() != 0 {
                    self.serve(PipeServing::Store { read });
                } else if self.closed && self.writes.len() == 0 {
                    self.serve(PipeServing::Reply {
                        to: read.from,
                        verdict: Verdict::End,
                    });
                } else {
                    self.stage = PipeServing::Receive;
                }
            }
        }
    }

    /// Does what can be settled first, and else waits for a request.
    fn settle(&mut self)
        ensures settled { server_of self.new ≡ by_rule (pipe_of self.old) (settled (pipe_of self.old)) }
        ensures requests { self.new.requests ≡ self.old.requests }
    {
        if self.left == 0 {
            self.stage = PipeServing::Exit;
            return;
        }
        let held = self.bytes.len();
        match take_fitting(&mut self.writes, held) {
            Some(write) => self.put(write),
            None => self.settle_read(),
        }
    }

    /// Goes on by what an answer brought.
    fn follow(&mut self, news: News)
        ensures state { waiting (with_news (pipe_of self.old) news) ≤ WAITING_REQUESTS →
            server_of self.new ≡ after_news (pipe_of self.old) news }
        ensures requests { self.new.requests ≡ self.old.requests }
    {
        match news {
            News::Due { stage } => self.stage = stage,
            News::Close { from } => {
                self.closed = true;
                self.stage = PipeServing::Reply {
                    to: from,
                    verdict: Verdict::Closed,
                };
            }
            News::WriteWaits { write } => {
                self.writes.push(write);
                self.settle();
            }
            News::ReadWaits { read } => {
                self.reads.push(read);
                self.settle();
            }
            News::Delivered { read } => {
                let count = self.piece_len(read) as usize;
                self.bytes.leave(count);
                self.left = self.left.saturating_sub(1);
                self.settle();
            }
            News::Replied => {
                self.left = self.left.saturating_sub(1);
                self.settle();
            }
        }
    }

    /// After its last call was answered so, where it made one.
    fn hear(&mut self, last: Option<&Answer>)
        ensures after { (given : List TheAnswer) → IsPipeAfter self.old given →
            IsPipeAfter self.new (given ++ told_by (option_copied last.entry)) }
        ensures requests { self.new.requests ≡ self.old.requests }
    {
        if let Some(answer) = last {
            let news = self.news_of(answer);
            self.follow(news);
        }
    }

    /// What it calls.
    fn call(&self) -> Option<Call>
        ensures { result ≡ stage_call (pipe_of self.now) self.now.stage }
    {
        match self.stage {
            PipeServing::Receive => Some(Call::ReceiveSegment {
                start: 0,
                count: SEGMENT_BYTES,
            }),
            PipeServing::Load { count, .. } => Some(Call::Load { start: 0, count }),
            PipeServing::Store { read } => Some(Call::Store {
                start: 0,
                bytes: self.bytes.front(self.piece_len(read) as usize),
            }),
            PipeServing::ReplyBytes { read } => {
                let count = self.piece_len(read);
                Some(Call::ReplySegment {
                    message: reply_of(0, count),
                    to: read.from,
                    dest: read.start,
                    src: 0,
                    count,
                })
            }
            PipeServing::Reply { to, verdict } => Some(Call::Reply {
                message: message_for(verdict),
                to,
            }),
            PipeServing::Exit => Some(Call::Exit),
            PipeServing::Ended => None,
        }
    }
}

impl Program for PipeServer {
    ghost task = { λ s. pipe_call s.requests };

    ghost is_after = { IsPipeAfter };

    fn next(&mut self, last: Option<&Answer>) -> Option<Call> {
        self.hear(last);
        self.call()
    }
}
