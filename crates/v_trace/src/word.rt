//! The words of steps that no other text has.

ghost use Rattle.std.specs.Prelude.{◌≡◌, ◌≤◌, Some, None, MatchOption};
ghost use Rattle.vk_text.specs.Calls.{first_as};
ghost use Rattle.vk_text.specs.Lines.{words_from};
ghost use Rattle.vk_text.specs.Words.{count_of, pid_of};
ghost use Rattle.v_trace.specs.Steps.{ordinal_of, failure_of, ending_of, last_as};

use vk_base::limits::LAST_NUMBER;
use vk_base::{Ending, Pid};
use vk_text::{is_end, next_count, next_pid, next_positive, next_word};

/// How a Send fails.
fn failure(word: &[u8]) -> Option<Ending>
    ensures { result ≡ failure_of word.now }
{
    if word == b"noprocess".as_slice() {
        Some(Ending::NoProcess)
    } else if word == b"timedout".as_slice() {
        Some(Ending::TimedOut)
    } else {
        None
    }
}

/// How a move ends.
fn ending(word: &[u8]) -> Option<Ending>
    ensures { result ≡ ending_of word.now }
{
    if word == b"ok".as_slice() {
        Some(Ending::Ok)
    } else if word == b"timedout".as_slice() {
        Some(Ending::TimedOut)
    } else if word == b"gone".as_slice() {
        Some(Ending::Gone)
    } else {
        None
    }
}

/// The next word as the number of a Send, a move or a lookup, and where the word after it would start.
#[inline(always)]
pub fn next_ordinal(line: &[u8], at: usize) -> Option<(u64, usize)>
    ensures { MatchOption result (first_as ordinal_of (words_from line.now at) ≡ None)
        (λ r. first_as ordinal_of (words_from line.now at) ≡ Some (r.0, words_from line.now r.1)) }
{
    next_positive(line, at, LAST_NUMBER)
}

/// The number of 32 bits, which is the last word.
#[inline(always)]
pub fn last_count(line: &[u8], at: usize) -> Option<u32>
    ensures { result ≡ last_as count_of (words_from line.now at) }
{
    let (count, at) = next_count(line, at)?;
    if is_end(line, at) { Some(count) } else { None }
}

/// The pid, which is the last word.
#[inline(always)]
pub fn last_pid(line: &[u8], at: usize) -> Option<Pid>
    ensures { result ≡ last_as pid_of (words_from line.now at) }
{
    let (pid, at) = next_pid(line, at)?;
    if is_end(line, at) { Some(pid) } else { None }
}

/// The number from 1, which is the last word.
#[inline(always)]
pub fn last_ordinal(line: &[u8], at: usize) -> Option<u64>
    ensures { result ≡ last_as ordinal_of (words_from line.now at) }
{
    let (n, at) = next_ordinal(line, at)?;
    if is_end(line, at) { Some(n) } else { None }
}

/// How a Send fails, which is the last word.
#[tactic(auto, using(crate::proofs::LastWords::no_failure))]
pub fn last_failure(line: &[u8], at: usize) -> Option<Ending>
    ensures { result ≡ last_as failure_of (words_from line.now at) }
{
    let (word, at) = next_word(line, at)?;
    let why = failure(word)?;
    if is_end(line, at) { Some(why) } else { None }
}

/// How a move ends, which is the last word.
#[tactic(auto, using(crate::proofs::LastWords::no_ending))]
pub fn last_ending(line: &[u8], at: usize) -> Option<Ending>
    ensures { result ≡ last_as ending_of (words_from line.now at) }
{
    let (word, at) = next_word(line, at)?;
    let why = ending(word)?;
    if is_end(line, at) { Some(why) } else { None }
}
