//! A group between two calls of its coordinator.

ghost use Rattle.std.specs.Prelude.{◌≡◌};
ghost use Rattle.vk_group.specs.Groups.{left_after};

use crate::code::Code;
use crate::members::Members;
use crate::message::{bringing, message_in, replying, storing};
use crate::notes::{Note, Notes};
use crate::request::{Request, request_in};
use crate::stage::{HelperJob, OpenSend, Stage, Wait};
use vk_base::limits::{MESSAGE_BYTES, SEGMENT_BYTES};
use vk_base::{Answer, Call, Message, Pid};
use vk_event::HelperPair;

/// What a coordinator knows of its group, and what it does.
#[derive(Drop)]
pub struct Group {
    pub members: Members,
    /// The current group Send.
    pub asked: Option<OpenSend>,
    /// The replies to it that were not handed over.
    pub notes: Notes,
    /// The client that waits for one.
    pub waiting: Option<Wait>,
    /// How many replies to clients are left.
    pub left: u32,
    pub stage: Stage,
}

/// How many replies to clients are left, after one that counts or does not.
fn left_after(counts: bool, left: u32) -> u32
    ensures { result ≡ left_after counts left }
{
    if counts { left.saturating_sub(1) } else { left }
}

impl Group {
    ghost use Rattle.std.specs.Prelude.{◌≡◌, ◌≤◌, ◌<◌, length, slice_get};
    ghost use Rattle.vk_group.specs.Groups.{HasRoomForNote, answered, begun, by_waiting, ended, heard, helper_due, is_busy, is_client, is_ending, job_due, left_after, loaded_result, loaded_send, new_group, next_stage, notes_after, refused, refused_as, rest, settled, stage_call, taken, verdict, wait_over};
    ghost use Rattle.vk_group.specs.Members.{given, holds_job, pairs_of, told};
    ghost use Rattle.vk_event.specs.declared.pair.TheConstants.{GROUP_MEMBERS};

    /// The group of these pairs before its first call. So many replies are made to clients.
    pub fn new(pairs: &[HelperPair], requests: u32) -> Self
        requires { length pairs.now ≤ GROUP_MEMBERS }
        ensures { result ≡ new_group pairs.now requests }
    {
        let mut group = Group {
            members: Members::new(pairs),
            asked: None,
            notes: Notes::new(),
            waiting: None,
            left: requests,
            stage: Stage::Receive,
        };
        group.rest();
        group
    }

    /// Whether all replies to clients were made, and no helper has a job.
    fn is_ending(&self) -> bool
        ensures { result ≡ is_ending self.now }
    {
        self.left == 0 && !self.members.have_jobs()
    }

    /// Whether a member has not reported on the current group Send.
    fn is_busy(&self) -> bool
        ensures { result ≡ is_busy self.now }
    {
        self.asked.is_some() && !self.members.have_reported()
    }

    /// Whether the current group Send is of this process.
    fn is_client(&self, from: Pid) -> bool
        ensures { result ≡ is_client self.now.asked from }
    {
        match self.asked {
            Some(asked) => asked.client == from,
            None => false,
        }
    }

    /// The job of the first helper that is ready and has not got it.
    fn job_due(&self) -> Option<HelperJob>
        ensures { result ≡ job_due self.now }
    {
        let asked = self.asked?;
        let member = self.members.first_due()?;
        let due = self.members.get(member)?;
        let dest = due.ready?;
        Some(HelperJob {
            member,
            helper: due.pair.helper,
            dest,
            message: asked.message,
        })
    }

    /// The first helper that is ready is told that there are no jobs any more.
    fn helper_due(&self) -> Option<Stage>
        ensures { result ≡ helper_due self.now }
    {
        let member = self.members.first_ready()?;
        let due = self.members.get(member)?;
        let helper = due.pair.helper;
        Some(Stage::Tell { member, helper })
    }

    /// What is done for a client that waits.
    fn settled(&self, wait: Wait) -> Stage
        ensures { result ≡ settled self.now wait (slice_get self.now.notes 0) }
    {
        let client = wait.client;
        if let Some(note) = self.notes.first() {
            Stage::StoreReply { wait, note }
        } else if self.members.have_reported() {
            let code = if self.members.have_replies() {
                Code::NoMore
            } else {
                Code::Nobody
            };
            Stage::EndWait { client, code }
        } else if self.is_ending() {
            let code = Code::Bad;
            Stage::EndWait { client, code }
        } else {
            Stage::Receive
        }
    }

    /// What is done where no job is to be given.
    fn by_waiting(&self) -> Stage
        ensures { result ≡ by_waiting self.now self.now.waiting }
    {
        if let Some(wait) = self.waiting {
            self.settled(wait)
        } else if !self.is_ending() {
            Stage::Receive
        } else if let Some(stage) = self.helper_due() {
            stage
        } else if self.members.were_told() {
            Stage::Exit
        } else {
            Stage::Receive
        }
    }

    /// What is done between two requests.
    fn next_stage(&self) -> Stage
        ensures { result ≡ next_stage self.now }
    {
        if self.is_ending() {
            self.by_waiting()
        } else if let Some(job) = self.job_due() {
            Stage::StoreJob { job }
        } else {
            self.by_waiting()
        }
    }

    fn rest(&mut self)
        ensures { self.new ≡ rest self.old }
    {
        self.stage = self.next_stage();
    }

    fn end(&mut self)
        ensures { self.new ≡ ended self.old }
    {
        self.stage = Stage::Ended;
    }

    fn refuse(&mut self, to: Pid, code: Code, counts: bool)
        ensures { self.new ≡ refused self.old to code counts }
    {
        self.stage = Stage::Refuse { to, code, counts };
    }

    /// Refuses what a process asked that has this number as a helper.
    fn refuse_as(&mut self, to: Pid, number: Option<u32>)
        ensures { self.new ≡ refused_as self.old to number }
    {
        self.refuse(to, Code::Bad, number.is_none());
    }

    /// A group Send comes, whose message is loaded.
    fn take_send(&mut self, client: Pid, dest: u32)
        ensures { self.new ≡ taken self.old client (Request.GroupSend dest) }
    {
        if self.is_ending() {
            self.refuse(client, Code::Bad, true);
        } else {
            self.stage = Stage::LoadSend { client, dest };
        }
    }

    /// A client waits for a reply; an earlier wait of it ends.
    fn take_get(&mut self, client: Pid, dest: u32)
        ensures { self.new ≡ taken self.old client (Request.GetReply dest) }
    {
        if self.is_ending() || !self.is_client(client) {
            self.refuse(client, Code::Bad, true);
        } else {
            self.waiting = Some(Wait { client, dest });
            self.rest();
        }
    }

    /// A helper is ready.
    fn take_ready(&mut self, from: Pid, dest: u32)
        ensures { self.new ≡ taken self.old from (Request.Ready dest) }
    {
        match self.members.number_of(from) {
            Some(number) => {
                self.members.make_ready(number, dest);
                self.rest();
            }
            None => self.refuse_as(from, None),
        }
    }

    /// Whether the helper of the member of this number has a job.
    fn has_job(&self, number: u32) -> bool
        ensures { result ≡ holds_job (slice_get self.now.members number) }
    {
        match self.members.get(number) {
            Some(member) => member.has_job(),
            None => false,
        }
    }

    /// A helper reports.
    fn take_result(&mut self, from: Pid, replied: bool)
        ensures { self.new ≡ taken self.old from (Request.Result replied) }
    {
        match self.members.number_of(from) {
            Some(member) => {
                if self.has_job(member) {
                    let helper = from;
                    self.stage = Stage::LoadResult {
                        member,
                        helper,
                        replied,
                    };
                } else {
                    self.refuse_as(from, Some(member));
                }
            }
            None => self.refuse_as(from, None),
        }
    }

    /// A request comes.
    fn take(&mut self, from: Pid, request: Request)
        ensures { self.new ≡ taken self.old from request }
    {
        match request {
            Request::GroupSend { dest } => self.take_send(from, dest),
            Request::GetReply { dest } => self.take_get(from, dest),
            Request::Ready { dest } => self.take_ready(from, dest),
            Request::Result { replied } => self.take_result(from, replied),
            Request::Bad => {
                let number = self.members.number_of(from);
                self.refuse_as(from, number);
            }
        }
    }

    /// What it received, if it did.
    fn hear(&mut self, answer: &Answer)
        ensures { self.new ≡ heard self.old answer.now }
    {
        match answer {
            Answer::ReceivedSegment {
                from,
                message,
                count,
            } => self.take(*from, request_in(message, *count)),
            _ => self.end(),
        }
    }

    /// Why a group Send of this message is refused, if it is.
    fn verdict(&self, message: &Message) -> Option<Code>
        ensures { result ≡ verdict self.now message.now }
    {
        let grants = message.grants();
        if grants.read || grants.write {
            Some(Code::Bad)
        } else if self.is_busy() {
            Some(Code::Busy)
        } else {
            None
        }
    }

    /// A new group Send begins.
    fn begin(&mut self, client: Pid, dest: u32, message: Message)
        ensures { self.new ≡ begun self.old client dest message }
    {
        self.members.restart();
        self.asked = Some(OpenSend { client, message });
        self.notes.clear();
        self.waiting = Some(Wait { client, dest });
        self.rest();
    }

    /// The message of a group Send was loaded.
    fn load_send(&mut self, client: Pid, dest: u32, loaded: Option<Message>)
        ensures { self.new ≡ loaded_send self.old client dest loaded }
    {
        match loaded {
            Some(message) => match self.verdict(&message) {
                Some(code) => self.refuse(client, code, true),
                None => self.begin(client, dest, message),
            },
            None => self.end(),
        }
    }

    /// What a member replied was loaded.
    fn load_result(&mut self, member: u32, helper: Pid, replied: bool, loaded: Option<Message>)
        ensures state { length self.old.notes < GROUP_MEMBERS → self.new ≡ loaded_result self.old member helper replied loaded }
        ensures pairs { pairs_of self.new.members ≡ pairs_of self.old.members }
    {
        match loaded {
            Some(message) => {
                self.members.report(member, replied);
                self.notes.note(replied, Note { member, message });
                self.stage = Stage::Thank { helper };
            }
            None => self.end(),
        }
    }

    /// A reply was made, which may count.
    fn count_reply(&mut self, counts: bool)
        ensures { self.new ≡ rest (record self.old { left = left_after counts self.old.left }) }
    {
        self.left = left_after(counts, self.left);
        self.rest();
    }

    /// A client got a reply.
    fn end_wait(&mut self)
        ensures { self.new ≡ rest (wait_over self.old) }
    {
        self.waiting = None;
        self.left = self.left.saturating_sub(1);
        self.rest();
    }

    /// A client was to get the reply of a member.
    fn hand_over(&mut self, answer: &Answer)
        ensures { self.new ≡ rest (wait_over (record self.old { notes = notes_after answer.now self.old.notes })) }
    {
        if let Answer::Ok = answer {
            self.notes.drop_first();
        }
        self.end_wait();
    }

    /// A helper got a job.
    fn give(&mut self, member: u32)
        ensures { self.new ≡ rest (record self.old { members = given member self.old.members }) }
    {
        self.members.give(member);
        self.rest();
    }

    /// A helper was told that there are no jobs any more.
    fn tell(&mut self, member: u32)
        ensures { self.new ≡ rest (record self.old { members = told member self.old.members }) }
    {
        self.members.tell(member);
        self.rest();
    }

    /// After its last call was answered so.
    pub fn answer(&mut self, answer: &Answer)
        ensures state { HasRoomForNote self.old → self.new ≡ answered self.old answer.now }
        ensures pairs { pairs_of self.new.members ≡ pairs_of self.old.members }
    {
        match self.stage {
            Stage::Receive => self.hear(answer),
            Stage::LoadSend { client, dest } => self.load_send(client, dest, message_in(answer)),
            Stage::LoadResult {
                member,
                helper,
                replied,
            } => self.load_result(member, helper, replied, message_in(answer)),
            Stage::Refuse { counts, .. } => self.count_reply(counts),
            Stage::Thank { .. } => self.rest(),
            Stage::StoreJob { job } => self.stage = Stage::GiveJob { job },
            Stage::GiveJob { job } => self.give(job.member),
            Stage::StoreReply { wait, note } => self.stage = Stage::HandOver { wait, note },
            Stage::HandOver { .. } => self.hand_over(answer),
            Stage::EndWait { .. } => self.end_wait(),
            Stage::Tell { member, .. } => self.tell(member),
            Stage::Exit => self.end(),
            Stage::Ended => self.end(),
        }
    }

    /// What it calls.
    pub fn call(&self) -> Option<Call>
        ensures { result ≡ stage_call self.now.stage }
    {
        match self.stage {
            Stage::Receive => Some(Call::ReceiveSegment {
                start: 0,
                count: SEGMENT_BYTES,
            }),
            Stage::LoadSend { .. } | Stage::LoadResult { .. } => Some(Call::Load {
                start: 0,
                count: MESSAGE_BYTES as u32,
            }),
            Stage::Refuse { to, code, .. } => Some(replying(code, to)),
            Stage::Thank { helper } => Some(replying(Code::Done, helper)),
            Stage::StoreJob { job } => Some(storing(&job.message)),
            Stage::GiveJob { job } => Some(bringing(0, job.helper, job.dest)),
            Stage::StoreReply { note, .. } => Some(storing(&note.message)),
            Stage::HandOver { wait, note } => {
                Some(bringing(note.member, wait.client, wait.dest))
            }
            Stage::EndWait { client, code } => Some(replying(code, client)),
            Stage::Tell { helper, .. } => Some(replying(Code::End, helper)),
            Stage::Exit => Some(Call::Exit),
            Stage::Ended => None,
        }
    }
}
