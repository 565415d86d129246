//! The members of a group.

ghost use Rattle.std.specs.Prelude.{◌≡◌, ◌≤◌, ◌<◌, IfSome, length, map, slice_get, slice_set};
ghost use Rattle.std.specs.List.{list_any, list_all, position};
ghost use Rattle.vk_group.specs.Members.{given, has_job, has_replied, has_reported, is_due, is_helper, is_ready, made_ready, new_member, reopened, reported, restarted, told, was_told, work_of};
ghost use Rattle.vk_event.specs.declared.pair.TheConstants.{GROUP_MEMBERS as MOST};

use crate::member::{Member, Progress};
use arrayvec::ArrayVec;
use std::marker::Model;
use vk_base::Pid;
use vk_event::{GROUP_MEMBERS, HelperPair};

/// The members of a group, at most 16, numbered from 0, which contracts see as their list.
#[derive(Drop)]
pub struct Members {
    list: ArrayVec<Member, GROUP_MEMBERS>,
}

impl Model for Members {
    ghost use Rattle.std.specs.Prelude.{List};
    ghost use Rattle.vk_group.specs.declared.member.Member.{Member as TheMember};

    ghost Value = { List TheMember };

    ghost view = { λ m. m.list.items };
}

/// The member of a pair, before anything was asked.
fn new_member(pair: HelperPair) -> Member
    ensures { result ≡ new_member pair }
{
    Member {
        pair,
        ready: None,
        work: Progress::Open,
        told: false,
    }
}

/// The place of the member that has this helper.
fn place_of(list: &[Member], helper: Pid) -> Option<usize>
    ensures place { result ≡ position (is_helper helper) list.now }
    ensures bound { IfSome result (λ at. at < length list.now) }
{
    list.iter().position(|m| m.pair.helper == helper)
}

/// The place of the first member whose helper waits for a job that it has not got.
fn first_due(list: &[Member]) -> Option<usize>
    ensures place { result ≡ position is_due list.now }
    ensures bound { IfSome result (λ at. at < length list.now) }
{
    list.iter().position(|m| m.is_due())
}

/// The place of the first member whose helper waits for a job.
fn first_ready(list: &[Member]) -> Option<usize>
    ensures place { result ≡ position is_ready list.now }
    ensures bound { IfSome result (λ at. at < length list.now) }
{
    list.iter().position(|m| m.ready.is_some())
}

/// Whether some helper has a job.
fn have_jobs(list: &[Member]) -> bool
    ensures { result ≡ list_any has_job list.now }
{
    list.iter().any(|m| m.has_job())
}

/// Whether some member replied.
fn have_replies(list: &[Member]) -> bool
    ensures { result ≡ list_any has_replied list.now }
{
    list.iter().any(|m| m.has_replied())
}

/// Whether all reported.
fn have_reported(list: &[Member]) -> bool
    ensures { result ≡ list_all has_reported list.now }
{
    list.iter().all(|m| m.has_reported())
}

/// Whether all helpers were told that there are no jobs any more.
fn were_told(list: &[Member]) -> bool
    ensures { result ≡ list_all was_told list.now }
{
    list.iter().all(|m| m.told)
}

/// How far a member is that was reported on.
fn work_of(replied: bool) -> Progress
    ensures { result ≡ work_of replied }
{
    if replied {
        Progress::Replied
    } else {
        Progress::Failed
    }
}

/// Puts a member into this place, where there is one.
#[tactic(auto, using(std::proofs::lemmas::List::set_past))]
fn put(list: &mut [Member], at: usize, member: Member)
    ensures { list.new ≡ slice_set list.old at member }
{
    if at < list.len() {
        list[at] = member;
    }
}

/// No helper has a job any more, and no member has reported.
fn restart(list: &mut [Member])
    ensures { list.new ≡ map reopened list.old }
{
    for member in list.iter_mut() {
        member.reopen();
    }
}

impl Members {
    /// The members of these pairs, before anything was asked.
    pub fn new(pairs: &[HelperPair]) -> Self
        requires { length pairs.now ≤ MOST }
        ensures { result ≡ map new_member pairs.now }
    {
        let mut list = ArrayVec::new();
        for pair in pairs {
            list.push(new_member(*pair));
        }
        Members { list }
    }

    /// The member of this number.
    pub fn get(&self, number: u32) -> Option<Member>
        ensures { result ≡ slice_get self.now number }
    {
        self.list.as_slice().get(number as usize).copied()
    }

    /// The number of the member that has this helper.
    pub fn number_of(&self, helper: Pid) -> Option<u32>
        ensures { result ≡ position (is_helper helper) self.now }
    {
        let at = place_of(self.list.as_slice(), helper)?;
        Some(at as u32)
    }

    /// The first member whose helper waits for a job that it has not got.
    pub fn first_due(&self) -> Option<u32>
        ensures { result ≡ position is_due self.now }
    {
        let at = first_due(self.list.as_slice())?;
        Some(at as u32)
    }

    /// The first member whose helper waits for a job.
    pub fn first_ready(&self) -> Option<u32>
        ensures { result ≡ position is_ready self.now }
    {
        let at = first_ready(self.list.as_slice())?;
        Some(at as u32)
    }

    /// Whether some helper has a job.
    pub fn have_jobs(&self) -> bool
        ensures { result ≡ list_any has_job self.now }
    {
        have_jobs(self.list.as_slice())
    }

    /// Whether some member replied.
    pub fn have_replies(&self) -> bool
        ensures { result ≡ list_any has_replied self.now }
    {
        have_replies(self.list.as_slice())
    }

    /// Whether all reported.
    pub fn have_reported(&self) -> bool
        ensures { result ≡ list_all has_reported self.now }
    {
        have_reported(self.list.as_slice())
    }

    /// Whether all helpers were told that there are no jobs any more.
    pub fn were_told(&self) -> bool
        ensures { result ≡ list_all was_told self.now }
    {
        were_told(self.list.as_slice())
    }

    /// Makes this the member of this number, where there is one.
    fn put(&mut self, number: u32, member: Member)
        ensures { self.new ≡ slice_set self.old number member }
    {
        put(self.list.as_mut_slice(), number as usize, member);
    }

    /// Its helper waits for a job.
    pub fn make_ready(&mut self, number: u32, dest: u32)
        ensures { self.new ≡ made_ready number dest self.old }
    {
        if let Some(member) = self.get(number) {
            let ready = Some(dest);
            self.put(number, Member { ready, ..member });
        }
    }

    /// Its helper got the job.
    pub fn give(&mut self, number: u32)
        ensures { self.new ≡ given number self.old }
    {
        if let Some(member) = self.get(number) {
            let ready = None;
            let work = Progress::Given;
            let member = Member {
                ready,
                work,
                ..member
            };
            self.put(number, member);
        }
    }

    /// Its helper reported.
    pub fn report(&mut self, number: u32, replied: bool)
        ensures { self.new ≡ reported number replied self.old }
    {
        if let Some(member) = self.get(number) {
            let work = work_of(replied);
            self.put(number, Member { work, ..member });
        }
    }

    /// Its helper was told that there are no jobs any more.
    pub fn tell(&mut self, number: u32)
        ensures { self.new ≡ told number self.old }
    {
        if let Some(member) = self.get(number) {
            let ready = None;
            let told = true;
            let member = Member {
                ready,
                told,
                ..member
            };
            self.put(number, member);
        }
    }

    /// A new group Send begins, of which no helper has a job.
    pub fn restart(&mut self)
        ensures { self.new ≡ restarted self.old }
    {
        restart(self.list.as_mut_slice());
    }
}
