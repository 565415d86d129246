//! Scripts.

ghost use Rattle.std.specs.Prelude.{◌≡◌, [], slice_get};
ghost use Rattle.vk_program.specs.Tasks.{IsScriptAfter, script_call};

use crate::program::Program;
use vk_base::{Answer, Call, List};

/// Calls that are made one after the other, whatever they are answered.
#[derive(Drop)]
pub struct Script {
    calls: List<Call>,
    /// How many were answered.
    at: usize,
}

impl Script {
    /// The script of these calls, of which none was made yet.
    pub fn new(calls: List<Call>) -> Self
        ensures calls { result.calls ≡ calls }
        ensures after { IsScriptAfter result [] }
    {
        Script { calls, at: 0 }
    }
}

/// The call at this place.
fn call_at(calls: &[Call], at: usize) -> Option<Call>
    ensures { result ≡ slice_get calls.now at }
{
    let call = calls.get(at)?;
    Some(call.copy())
}

impl Program for Script {
    ghost task = { λ s. script_call s.calls };

    ghost is_after = { IsScriptAfter };

    fn next(&mut self, last: Option<&Answer>) -> Option<Call> {
        if last.is_some() && self.at < self.calls.len() {
            self.at += 1;
        }
        call_at(self.calls.as_slice(), self.at)
    }
}
