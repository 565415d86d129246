//! The coordinator of a group.

ghost use Rattle.std.specs.Prelude.{◌≡◌, ◌↔◌, true, List, [], ◌++◌, IsSome, IfSome, option_copied};
ghost use Rattle.vk_base.specs.declared.answer.Answer.{Answer as TheAnswer};
ghost use Rattle.vk_program.specs.Tasks.{told_by};
ghost use Rattle.vk_group.specs.Coordinators.{IsCoordinatorAfter};
ghost use Rattle.vk_group.specs.Groups.{coordinator_call, stage_call};
ghost use Rattle.vk_group.specs.Members.{pairs_of};
ghost use Rattle.vk_event.specs.Pairs.{are_pairs as make_a_group};

use crate::group::Group;
use vk_base::{Answer, Call};
use vk_event::{HelperPair, are_pairs};
use vk_program::Program;

/// Brings a group Send to the helpers of all members, and their replies to the client, one by one.
#[derive(Drop)]
pub struct Coordinator {
    requests: u32,
    group: Group,
}

impl Coordinator {
    /// A coordinator of these pairs, which makes so many replies to clients. `None` exactly where they make no group: where there are
    /// none, more than 16, two equal helpers or two equal members.
    pub fn new(pairs: &[HelperPair], requests: u32) -> Option<Self>
        ensures found { IsSome result ↔ (make_a_group pairs.now ≡ true) }
        ensures pairs { IfSome result (λ c. pairs_of c.group.members ≡ pairs.now) }
        ensures requests { IfSome result (λ c. c.requests ≡ requests) }
        ensures after { IfSome result (λ c. IsCoordinatorAfter c.requests c.group []) }
    {
        if are_pairs(pairs) {
            let group = Group::new(pairs, requests);
            Some(Coordinator { requests, group })
        } else {
            None
        }
    }

    /// After its last call was answered so, where it made one.
    fn hear(&mut self, last: Option<&Answer>)
        ensures after { (answers : List TheAnswer) → IsCoordinatorAfter self.old.requests self.old.group answers →
            IsCoordinatorAfter self.new.requests self.new.group (answers ++ told_by (option_copied last.entry)) }
        ensures pairs { pairs_of self.new.group.members ≡ pairs_of self.old.group.members }
        ensures requests { self.new.requests ≡ self.old.requests }
    {
        if let Some(answer) = last {
            self.group.answer(answer);
        }
    }
}

impl Program for Coordinator {
    ghost task = { λ c. coordinator_call (pairs_of c.group.members) c.requests };

    ghost is_after = { λ c answers. IsCoordinatorAfter c.requests c.group answers };

    fn next(&mut self, last: Option<&Answer>) -> Option<Call> {
        self.hear(last);
        self.group.call()
    }
}
