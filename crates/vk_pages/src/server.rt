//! The page server.

ghost use Rattle.std.specs.Prelude.{◌≡◌, List, [], ◌++◌, length, option_copied};
ghost use Rattle.vk_base.specs.declared.answer.Answer.{Answer as TheAnswer};
ghost use Rattle.vk_program.specs.Tasks.{told_by};
ghost use Rattle.vk_pages.specs.Pages.{zero_pages};
ghost use Rattle.vk_pages.specs.Servers.{IsServerAfter, answered, between, loaded, one_more, page_in, received, seen, server_call, stage_call, taken};

use crate::message::{page_of, reply_of};
use crate::serving::PageServing;
use crate::store::PageStore;
use vk_base::{Answer, Call, Data, Message, Pid};
use vk_event::PAGE_BYTES;
use vk_program::Program;

/// Serves reads and writes of pages.
#[derive(Drop)]
pub struct PageServer<S> {
    store: S,
    pages: u32,
    requests: u32,
    replies: u32,
    stage: PageServing,
}

/// What a server with so many pages does with a request.
fn taken(pages: u32, from: Pid, message: &Message) -> PageServing
    ensures { result ≡ taken pages from message.now }
{
    let code = message.0[1];
    let page = page_of(message);
    let grants = message.grants();
    if code != 1 && code != 2 {
        PageServing::Reply {
            from,
            page,
            code: 2,
        }
    } else if page >= pages {
        PageServing::Reply {
            from,
            page,
            code: 1,
        }
    } else if code == 1 {
        if grants.write && grants.range.len >= PAGE_BYTES as u32 {
            let dest = grants.range.start;
            PageServing::Store { from, page, dest }
        } else {
            PageServing::Reply {
                from,
                page,
                code: 2,
            }
        }
    } else if grants.read && grants.range.len == PAGE_BYTES as u32 {
        PageServing::Load { from, page }
    } else {
        PageServing::Reply {
            from,
            page,
            code: 2,
        }
    }
}

/// What a server does that has made so many replies of so many.
fn between(requests: u32, replies: u32) -> PageServing
    ensures { result ≡ between requests replies }
{
    if replies == requests {
        PageServing::Exit
    } else {
        PageServing::Receive
    }
}

/// What a server with so many pages does with this answer to its receive.
fn received(pages: u32, answer: &Answer) -> PageServing
    ensures { result ≡ received pages answer.now }
{
    match answer {
        Answer::ReceivedSegment { from, message, .. } => taken(pages, *from, message),
        _ => PageServing::Ended,
    }
}

/// One reply more, of at most so many.
fn one_more(requests: u32, replies: u32) -> u32
    ensures { result ≡ one_more requests replies }
{
    replies.saturating_add(1).min(requests)
}

/// The page that was loaded, where it is one.
fn page_in(answer: &Answer) -> Option<[u8; PAGE_BYTES]>
    ensures { result ≡ page_in answer.now }
{
    let Answer::Loaded { bytes } = answer else {
        return None;
    };
    if bytes.as_slice().len() != PAGE_BYTES {
        return None;
    }
    let mut page = [0; PAGE_BYTES];
    page.copy_from_slice(bytes.as_slice());
    Some(page)
}

/// The bytes of a page.
fn data_of(page: &[u8; PAGE_BYTES]) -> Data
    ensures { result ≡ page.now }
{
    match Data::new(page.as_slice()) {
        Some(bytes) => bytes,
        None => unreachable!(),
    }
}

impl<S: PageStore> PageServer<S> {
    /// A server of so many pages, which the store has, all of zeros. It makes so many replies.
    pub fn new(store: S, pages: u32, requests: u32) -> Self
        requires { S.pages store ≡ zero_pages pages }
        ensures pages { result.pages ≡ pages }
        ensures requests { result.requests ≡ requests }
        ensures after { IsServerAfter (S.pages result.store) pages requests result.replies result.stage [] }
    {
        PageServer {
            store,
            pages,
            requests,
            replies: 0,
            stage: between(requests, 0),
        }
    }

    /// After a reply.
    fn count_reply(&mut self)
        ensures { self.new ≡ record self.old {
          replies = one_more self.old.requests self.old.replies;
          stage = between self.old.requests (one_more self.old.requests self.old.replies);
        } }
    {
        self.replies = one_more(self.requests, self.replies);
        self.stage = between(self.requests, self.replies);
    }

    /// After the bytes for a page were loaded, where they are a page.
    fn load(&mut self, from: Pid, page: u32, bytes: Option<[u8; PAGE_BYTES]>)
        ensures state { seen (S.pages self.new.store) self.new.replies self.new.stage
            ≡ loaded (seen (S.pages self.old.store) self.old.replies self.old.stage) from page bytes }
        ensures pages { self.new.pages ≡ self.old.pages }
        ensures requests { self.new.requests ≡ self.old.requests }
    {
        match bytes {
            Some(bytes) => {
                let _known = self.store.write(page, &bytes);
                self.stage = PageServing::Reply {
                    from,
                    page,
                    code: 0,
                };
            }
            None => self.stage = PageServing::Ended,
        }
    }

    /// After its last call was answered so.
    fn answer(&mut self, answer: &Answer)
        ensures state { length (S.pages self.old.store) ≡ self.old.pages →
            seen (S.pages self.new.store) self.new.replies self.new.stage
            ≡ answered self.old.requests (seen (S.pages self.old.store) self.old.replies self.old.stage) answer.now }
        ensures pages { self.new.pages ≡ self.old.pages }
        ensures requests { self.new.requests ≡ self.old.requests }
    {
        match self.stage {
            PageServing::Receive => self.stage = received(self.pages, answer),
            PageServing::Load { from, page } => self.load(from, page, page_in(answer)),
            PageServing::Store { from, page, dest } => {
                self.stage = PageServing::ReplyPage { from, page, dest }
            }
            PageServing::ReplyPage { .. } | PageServing::Reply { .. } => self.count_reply(),
            PageServing::Exit => self.stage = PageServing::Ended,
            PageServing::Ended => {}
        }
    }

    /// What it calls.
    fn call(&self) -> Option<Call>
        ensures { result ≡ stage_call (S.pages self.now.store) self.now.stage }
    {
        match self.stage {
            PageServing::Receive => Some(Call::ReceiveSegment {
                start: 0,
                count: PAGE_BYTES as u32,
            }),
            PageServing::Load { .. } => Some(Call::Load {
                start: 0,
                count: PAGE_BYTES as u32,
            }),
            PageServing::Store { page, .. } => {
                let bytes = self.store.read(page)?;
                Some(Call::Store {
                    start: 0,
                    bytes: data_of(&bytes),
                })
            }
            PageServing::ReplyPage { from, page, dest } => Some(Call::ReplySegment {
                message: reply_of(0, page),
                to: from,
                dest,
                src: 0,
                count: PAGE_BYTES as u32,
            }),
            PageServing::Reply { from, page, code } => Some(Call::Reply {
                message: reply_of(code, page),
                to: from,
            }),
            PageServing::Exit => Some(Call::Exit),
            PageServing::Ended => None,
        }
    }
}

impl<S: PageStore> PageServer<S> {
    /// After its last call was answered so, where it made one.
    fn hear(&mut self, last: Option<&Answer>)
        ensures after { (given : List TheAnswer) →
            IsServerAfter (S.pages self.old.store) self.old.pages self.old.requests self.old.replies self.old.stage given →
            IsServerAfter (S.pages self.new.store) self.new.pages self.new.requests self.new.replies self.new.stage
            (given ++ told_by (option_copied last.entry)) }
        ensures pages { self.new.pages ≡ self.old.pages }
        ensures requests { self.new.requests ≡ self.old.requests }
    {
        if let Some(answer) = last {
            self.answer(answer);
        }
    }
}

impl<S: PageStore + Send> Program for PageServer<S> {
    ghost task = { λ s. server_call s.pages s.requests };

    ghost is_after = { λ s given. IsServerAfter (S.pages s.store) s.pages s.requests s.replies s.stage given };

    fn next(&mut self, last: Option<&Answer>) -> Option<Call> {
        self.hear(last);
        self.call()
    }
}
