//! An answer in fields.

ghost use Rattle.std.specs.Prelude.{◌≡◌, ◌^◌, ◌<◌};
ghost use Rattle.vk_base.specs.Activities.{answer_of};
ghost use Rattle.vk_fields.specs.Telling.{blank, code_of, told_answer, told_loaded, told_tick};

use crate::kinds;
use vk_base::{Outcome, Refusal};

/// What an event was answered with. `kind` tells which of the others count; those that do not are 0. `why` is why a call was refused;
/// `host` and `local` are who sent a message, or whom a name stands for; `count` is how many bytes of its segment came with a message,
/// or how many were loaded; `now` is the new tick.
#[repr(C)]
#[derive(Clone, Copy)]
pub struct AnswerFields {
    pub kind: u32,
    pub why: u32,
    pub host: u16,
    pub local: u16,
    pub count: u32,
    pub now: u64,
    pub message: [u8; 32],
}

impl AnswerFields {
    /// Of this kind, with nothing else.
    #[inline(always)]
    pub fn set(&mut self, kind: u32)
        ensures { self.new ≡ blank kind }
    {
        *self = AnswerFields {
            kind,
            why: 0,
            host: 0,
            local: 0,
            count: 0,
            now: 0,
            message: [0; 32],
        };
    }

    /// That the clock ticked.
    pub fn set_tick(&mut self, now: u64)
        ensures { self.new ≡ told_tick now }
    {
        self.set(kinds::TICKED);
        self.now = now;
    }

    /// That so many bytes were loaded.
    pub fn set_loaded(&mut self, count: u32)
        ensures { self.new ≡ told_loaded count }
    {
        self.set(kinds::LOADED);
        self.count = count;
    }

    /// What a call ended with.
    pub fn set_outcome(&mut self, outcome: &Outcome)
        ensures { self.new ≡ told_answer (answer_of outcome.now) }
    {
        match outcome {
            Outcome::Ok => self.set(kinds::DONE),
            Outcome::Replied { message } => {
                self.set(kinds::REPLIED);
                self.message = message.0;
            }
            Outcome::Received { from, message } => {
                self.set(kinds::RECEIVED);
                self.host = from.host;
                self.local = from.local;
                self.message = message.0;
            }
            Outcome::ReceivedSegment {
                from,
                message,
                count,
            } => {
                self.set(kinds::RECEIVED_SEGMENT);
                self.host = from.host;
                self.local = from.local;
                self.count = *count;
                self.message = message.0;
            }
            Outcome::Found { pid } => {
                self.set(kinds::FOUND);
                self.host = pid.host;
                self.local = pid.local;
            }
            Outcome::Refused { why } => {
                self.set(kinds::REFUSED);
                self.why = code_of(*why);
            }
        }
    }
}

/// The number of a refusal.
pub fn code_of(why: Refusal) -> u32
    ensures { result ≡ code_of why }
{
    match why {
        Refusal::NoProcess => kinds::WHY_NO_PROCESS,
        Refusal::TimedOut => kinds::WHY_TIMED_OUT,
        Refusal::BadSegment => kinds::WHY_BAD_SEGMENT,
        Refusal::NotAwaiting => kinds::WHY_NOT_AWAITING,
        Refusal::NoAccess => kinds::WHY_NO_ACCESS,
        Refusal::BadRange => kinds::WHY_BAD_RANGE,
        Refusal::TooLong => kinds::WHY_TOO_LONG,
        Refusal::Gone => kinds::WHY_GONE,
        Refusal::NotFound => kinds::WHY_NOT_FOUND,
        Refusal::NamesFull => kinds::WHY_NAMES_FULL,
        Refusal::Busy => kinds::WHY_BUSY,
        Refusal::NotYet => kinds::WHY_NOT_YET,
        Refusal::Dead => kinds::WHY_DEAD,
    }
}
