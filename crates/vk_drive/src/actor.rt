//! A process of a storm.

ghost use Rattle.std.specs.Prelude.{◌≡◌, [], ◌∷◌, ◌++◌, List, None, Some, false, IfOk};
ghost use Rattle.vk_base.specs.declared.event.EventAnswer.{EventAnswer as TheAnswer};
ghost use Rattle.vk_event.specs.declared.task.Task.{Task as TheTask};
ghost use Rattle.vk_host.specs.Responses.{answer_given, answer_of};
ghost use Rattle.vk_pages.specs.Any.{IsTaskOf};
ghost use Rattle.vk_procs.specs.declared.seat.Seat.{Seat as TheSeat};
ghost use Rattle.vk_stands.specs.Rules.{given_by};
ghost use Rattle.vk_drive.specs.Driving.{ChoosesEvent, IsActor, tells_too_early};

use crate::next::NextEvent;
use std::alloc::Global;
use vk_base::{Answer, Config, EventAnswer, NoMemory, Outcome, Pid, Refusal};
use vk_event::Task;
use vk_host::{Host, Response};
use vk_pages::AnyProgram;
use vk_program::Program;

/// A process and its program.
#[derive(Drop)]
pub struct Actor {
    pid: Pid,
    program: AnyProgram,
    /// What the process was told and its program was not.
    told: Option<Answer>,
    /// Whether its last call is to be collected.
    waits: bool,
}

/// Whether the outcome tells that a collect came too early.
fn is_not_yet(outcome: &Outcome) -> bool
    ensures { result ≡ tells_too_early (given_by (Some outcome.now)) }
{
    match outcome {
        Outcome::Refused { why } => *why == Refusal::NotYet,
        _ => false,
    }
}

/// Whether the response tells that a collect came too early.
fn is_too_early(response: &Response) -> bool
    ensures { (seats : List TheSeat) → result ≡ tells_too_early (answer_given seats response.now) }
{
    match response {
        Response::Given { outcome } => is_not_yet(outcome),
        _ => false,
    }
}

impl Actor {
    /// The process of a task of this configuration, before its first call.
    ///
    /// # Errors
    ///
    /// [`NoMemory`] where memory is wanting.
    pub fn new(alloc: Global, config: &Config, task: &Task) -> Result<Self, NoMemory>
        requires { IsTaskOf config.now.specs task.now }
        ensures { IfOk result (λ a. IsActor a task.now []) }
    {
        Ok(Actor {
            pid: task.pid,
            program: AnyProgram::new(alloc, config, task)?,
            told: None,
            waits: false,
        })
    }

    /// Its next event: it collects, or makes its program's next call.
    pub fn choose(&mut self, next: &mut NextEvent)
        ensures { (t : TheTask) (heard : List TheAnswer) → IsActor self.old t heard → ChoosesEvent self.new t heard next.new }
    {
        if self.waits {
            next.set_collect(self.pid);
        } else {
            self.call(next);
        }
    }

    /// It makes its program's next call, or collects at the program's end. A call has the room of a Store, so this is not put into its
    /// caller.
    #[inline(never)]
    fn call(&mut self, next: &mut NextEvent)
        requires { self.old.waits ≡ false }
        ensures { (t : TheTask) (heard : List TheAnswer) → IsActor self.old t heard → ChoosesEvent self.new t heard next.new }
    {
        let pid = self.pid;
        match self.program.next(self.told.as_ref()) {
            Some(call) => next.set_call(pid, &call),
            None => next.set_collect(pid),
        }
        self.told = None;
    }

    /// Its last event was answered so, and not that a collect came too early.
    fn hear_whole(&mut self, answer: EventAnswer)
        requires told { self.old.told ≡ None }
        requires late { tells_too_early answer ≡ false }
        ensures { (t : TheTask) (heard : List TheAnswer) → IsActor self.old t heard → IsActor self.new t (heard ++ answer ∷ []) }
    {
        match answer {
            EventAnswer::Begun => self.waits = true,
            EventAnswer::Answered { answer } => {
                self.told = Some(answer);
                self.waits = false;
            }
            EventAnswer::Ticked { .. } | EventAnswer::Taken | EventAnswer::Old | EventAnswer::Bad =>
                {}
        }
    }

    /// Its last event was answered so, in few bytes of this station. No answer is made of a call that begins, nor of a collect that came
    /// too early.
    pub fn hear(&mut self, station: &Host, response: &Response)
        requires { self.old.told ≡ None }
        ensures { (t : TheTask) (heard : List TheAnswer) → IsActor self.old t heard →
            IsActor self.new t (heard ++ answer_of station.now response.now ∷ []) }
    {
        if is_too_early(response) {
            return;
        }
        match response {
            Response::Begun => self.waits = true,
            _ => self.hear_whole(station.answer(*response)),
        }
    }
}
