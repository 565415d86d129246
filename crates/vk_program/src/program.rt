// What a program promises.
ghost use Rattle.std.specs.Prelude.{◌≡◌, List, ◌++◌, Option, option_copied};
ghost use Rattle.vk_base.specs.declared.answer.Answer.{Answer as TheAnswer};
ghost use Rattle.vk_base.specs.declared.call.Call.{Call as TheCall};
ghost use Rattle.vk_program.specs.Tasks.{told_by};

use vk_base::{Answer, Call};

/// The program of a process. It stands for a task, which is a function: what is called next after these answers, one to each
/// call before, or nothing more. And it stands for the answers that it was given so far.
pub trait Program: Drop {
    /// What is called next after these answers.
    ghost task: { Self → List TheAnswer → Option TheCall };

    /// It may have been given these answers, and no others, in this order.
    ghost is_after: { Self → List TheAnswer → Type 0 };

    /// The next call of its task, after the answer to its last one, which there is none before its first. `None` exactly at the
    /// task's end.
    fn next(&mut self, last: Option<&Answer>) -> Option<Call>
        ensures task { task self.new ≡ task self.old }
        ensures after { (answers : List TheAnswer) → is_after self.old answers →
            is_after self.new (answers ++ told_by (option_copied last.entry)) }
        ensures call { (answers : List TheAnswer) → is_after self.old answers →
            result ≡ task self.old (answers ++ told_by (option_copied last.entry)) };
}
