//! The key-value server.

ghost use Rattle.std.specs.Prelude.{◌≡◌, List, [], ◌++◌, option_copied};
ghost use Rattle.vk_base.specs.declared.answer.Answer.{Answer as TheAnswer};
ghost use Rattle.vk_program.specs.Tasks.{told_by};
ghost use Rattle.vk_values.specs.Requests.{kept_after, reply_got, replied_to};
ghost use Rattle.vk_values.specs.Servers.{IsServerAfter, answered, between, received, replied, seen, server_call, stage_call};

use crate::limits::{BAD, DONE, FULL, GET, PUT, UNKNOWN};
use crate::message::{reply_of, word_at};
use crate::stage::Stage;
use crate::table::Table;
use vk_base::{Answer, Call, Message};
use vk_program::Program;

/// Keeps what its clients put, and gives it to who asks.
#[derive(Drop)]
pub struct KeyServer {
    table: Table,
    requests: u32,
    replies: u32,
    stage: Stage,
}

/// What a server does that has made so many replies of so many.
fn between(requests: u32, replies: u32) -> Stage
    ensures { result ≡ between requests replies }
{
    if replies == requests {
        Stage::Exit
    } else {
        Stage::Receive
    }
}

/// The reply to a get of this key, of which the value is this.
fn reply_got(value: Option<u32>, key: u32) -> Message
    ensures { result ≡ reply_got value key }
{
    match value {
        Some(value) => reply_of(DONE, key, value),
        None => reply_of(UNKNOWN, key, 0),
    }
}

/// Does what the request asks for, and gives the reply.
fn serve(table: &mut Table, request: &Message) -> Message
    ensures kept { table.new ≡ kept_after table.old request.now }
    ensures reply { result ≡ replied_to table.old request.now }
{
    let code = request.0[1];
    let key = word_at(request, 4);
    let value = word_at(request, 8);
    if code == PUT {
        if table.put(key, value) {
            reply_of(DONE, key, value)
        } else {
            reply_of(FULL, key, 0)
        }
    } else if code == GET {
        reply_got(table.get(key), key)
    } else {
        reply_of(BAD, key, 0)
    }
}

impl KeyServer {
    /// A server with this table, which is empty. It makes so many replies, and exits then.
    pub fn new(table: Table, requests: u32) -> Self
        requires { table ≡ [] }
        ensures requests { result.requests ≡ requests }
        ensures after { IsServerAfter result.table requests result.replies result.stage [] }
    {
        KeyServer {
            table,
            requests,
            replies: 0,
            stage: between(requests, 0),
        }
    }

    /// After its receive was answered so.
    fn take(&mut self, answer: &Answer)
        ensures state { seen self.new.table self.new.replies self.new.stage
            ≡ received (seen self.old.table self.old.replies self.old.stage) answer.now }
        ensures requests { self.new.requests ≡ self.old.requests }
    {
        match answer {
            Answer::Received { from, message } => {
                self.stage = Stage::Reply {
                    to: *from,
                    message: serve(&mut self.table, message),
                };
            }
            _ => self.stage = Stage::Ended,
        }
    }

    /// After a reply.
    fn count_reply(&mut self)
        ensures state { seen self.new.table self.new.replies self.new.stage
            ≡ replied self.old.requests (seen self.old.table self.old.replies self.old.stage) }
        ensures requests { self.new.requests ≡ self.old.requests }
    {
        self.replies = self.replies.saturating_add(1).min(self.requests);
        self.stage = between(self.requests, self.replies);
    }

    /// After its last call was answered so.
    fn answer(&mut self, answer: &Answer)
        ensures state { seen self.new.table self.new.replies self.new.stage
            ≡ answered self.old.requests (seen self.old.table self.old.replies self.old.stage) answer.now }
        ensures requests { self.new.requests ≡ self.old.requests }
    {
        match self.stage {
            Stage::Receive => self.take(answer),
            Stage::Reply { .. } => self.count_reply(),
            Stage::Exit => self.stage = Stage::Ended,
            Stage::Ended => {}
        }
    }

    /// After its last call was answered so, where it made one.
    fn hear(&mut self, last: Option<&Answer>)
        ensures after { (given : List TheAnswer) →
            IsServerAfter self.old.table self.old.requests self.old.replies self.old.stage given →
            IsServerAfter self.new.table self.new.requests self.new.replies self.new.stage
            (given ++ told_by (option_copied last.entry)) }
        ensures requests { self.new.requests ≡ self.old.requests }
    {
        if let Some(answer) = last {
            self.answer(answer);
        }
    }

    /// What it calls.
    fn call(&self) -> Option<Call>
        ensures { result ≡ stage_call self.now.stage }
    {
        match self.stage {
            Stage::Receive => Some(Call::Receive),
            Stage::Reply { to, message } => Some(Call::Reply { message, to }),
            Stage::Exit => Some(Call::Exit),
            Stage::Ended => None,
        }
    }
}

impl Program for KeyServer {
    ghost task = { λ s. server_call s.requests };

    ghost is_after = { λ s given. IsServerAfter s.table s.requests s.replies s.stage given };

    fn next(&mut self, last: Option<&Answer>) -> Option<Call> {
        self.hear(last);
        self.call()
    }
}
