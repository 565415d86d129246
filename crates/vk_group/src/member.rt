//! A member of a group, with its helper.

use vk_base::Pid;
use vk_event::HelperPair;

/// How far a member is with the current group Send.
#[derive(Clone, Copy, Debug, PartialEq, Eq)]
pub enum Progress {
    /// Its helper has not got the job yet.
    Open,
    /// Its helper has the job.
    Given,
    /// Its helper reported a reply.
    Replied,
    /// Its helper reported that there is none.
    Failed,
}

/// A member, and how its helper stands.
#[derive(Clone, Copy)]
pub struct Member {
    pub pair: HelperPair,
    /// Where its helper waits for a job: the place in the helper's memory to which the message goes.
    pub ready: Option<u32>,
    pub work: Progress,
    /// Whether its helper was told that there are no jobs any more.
    pub told: bool,
}

impl Member {
    ghost use Rattle.std.specs.Prelude.{◌≡◌};
    ghost use Rattle.vk_group.specs.Members.{has_job, has_replied, has_reported, is_due, reopened};

    /// Whether its helper waits for a job that it has not got.
    pub fn is_due(&self) -> bool
        ensures { result ≡ is_due self.now }
    {
        self.ready.is_some() && matches!(self.work, Progress::Open)
    }

    /// Whether its helper has the job.
    pub fn has_job(&self) -> bool
        ensures { result ≡ has_job self.now }
    {
        matches!(self.work, Progress::Given)
    }

    /// A new group Send begins.
    pub fn reopen(&mut self)
        ensures { self.new ≡ reopened self.old }
    {
        self.work = Progress::Open;
    }

    /// Whether it replied.
    pub fn has_replied(&self) -> bool
        ensures { result ≡ has_replied self.now }
    {
        matches!(self.work, Progress::Replied)
    }

    /// Whether its helper reported.
    pub fn has_reported(&self) -> bool
        ensures { result ≡ has_reported self.now }
    {
        match self.work {
            Progress::Replied => true,
            Progress::Failed => true,
            _ => false,
        }
    }
}

impl Default for Member {
    fn default() -> Self {
        let pid = Pid { host: 1, local: 1 };
        Member {
            pair: HelperPair {
                helper: pid,
                member: pid,
            },
            ready: None,
            work: Progress::Open,
            told: false,
        }
    }
}
