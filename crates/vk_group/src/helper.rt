//! The helper of a member.

ghost use Rattle.std.specs.Prelude.{◌≡◌, List, [], ◌++◌, option_copied};
ghost use Rattle.vk_base.specs.declared.answer.Answer.{Answer as TheAnswer};
ghost use Rattle.vk_program.specs.Tasks.{told_by};
ghost use Rattle.vk_group.specs.Helpers.{IsHelperAfter, helped, helper_call, helping_call, is_job};

use crate::helping::Helping;
use crate::message::{data_of, message_in, ready_message, result_message};
use vk_base::limits::MESSAGE_BYTES;
use vk_base::{Answer, Call, Pid};
use vk_program::Program;

/// Asks its coordinator for jobs, sends each to its member, and reports what that replied, until there are no jobs any more.
#[derive(Drop)]
pub struct Helper {
    coordinator: Pid,
    member: Pid,
    stage: Helping,
}

/// Whether this answer to a helper that is ready gives it a job.
fn is_job(answer: &Answer) -> bool
    ensures { result ≡ is_job answer.now }
{
    match answer {
        Answer::Replied { message } => message.0[1] == 0,
        _ => false,
    }
}

/// What a helper does that did this, after this answer.
fn helped(stage: Helping, answer: &Answer) -> Helping
    ensures { result ≡ helped stage answer.now }
{
    match stage {
        Helping::Ready => {
            if is_job(answer) {
                Helping::Load
            } else {
                Helping::Exit
            }
        }
        Helping::Load => match message_in(answer) {
            Some(message) => Helping::Send { message },
            None => Helping::Ended,
        },
        Helping::Send { .. } => match answer {
            Answer::Replied { message } => Helping::Store { reply: *message },
            _ => Helping::Report { replied: false },
        },
        Helping::Store { .. } => Helping::Report { replied: true },
        Helping::Report { .. } => Helping::Ready,
        Helping::Exit => Helping::Ended,
        Helping::Ended => Helping::Ended,
    }
}

impl Helper {
    /// A helper of this coordinator, for this member.
    pub fn new(coordinator: Pid, member: Pid) -> Self
        ensures coordinator { result.coordinator ≡ coordinator }
        ensures member { result.member ≡ member }
        ensures after { IsHelperAfter result.stage [] }
    {
        Helper {
            coordinator,
            member,
            stage: Helping::Ready,
        }
    }

    /// After its last call was answered so, where it made one.
    fn hear(&mut self, last: Option<&Answer>)
        ensures after { (answers : List TheAnswer) → IsHelperAfter self.old.stage answers →
            IsHelperAfter self.new.stage (answers ++ told_by (option_copied last.entry)) }
        ensures coordinator { self.new.coordinator ≡ self.old.coordinator }
        ensures member { self.new.member ≡ self.old.member }
    {
        if let Some(answer) = last {
            self.stage = helped(self.stage, answer);
        }
    }

    /// What it calls.
    fn call(&self) -> Option<Call>
        ensures { result ≡ helping_call self.now.coordinator self.now.member self.now.stage }
    {
        match self.stage {
            Helping::Ready => Some(Call::Send {
                target: self.coordinator,
                message: ready_message(),
            }),
            Helping::Load => Some(Call::Load {
                start: 0,
                count: MESSAGE_BYTES as u32,
            }),
            Helping::Send { message } => Some(Call::Send {
                target: self.member,
                message,
            }),
            Helping::Store { reply } => Some(Call::Store {
                start: 0,
                bytes: data_of(&reply),
            }),
            Helping::Report { replied } => Some(Call::Send {
                target: self.coordinator,
                message: result_message(replied),
            }),
            Helping::Exit => Some(Call::Exit),
            Helping::Ended => None,
        }
    }
}

impl Program for Helper {
    ghost task = { λ h. helper_call h.coordinator h.member };

    ghost is_after = { λ h answers. IsHelperAfter h.stage answers };

    fn next(&mut self, last: Option<&Answer>) -> Option<Call> {
        self.hear(last);
        self.call()
    }
}
