//! How far a line follows the forms.

ghost use Rattle.std.specs.Prelude.{◌≡◌, ◌+◌, ◌≤◌, ◌||◌, length, nat_lt, if◌then◌else◌};
ghost use Rattle.vk_text.specs.Lines.{lines_of, words_from};
ghost use Rattle.vk_forms.specs.Follow.{farthest, follows, is_whole, stop, stop_at, unread};
ghost use Rattle.vk_forms.specs.Forms.{behind, forms_of};

use crate::slot::fits;
use crate::table::{
    TextKind, body_rows, call_front, call_rows, extra_front, extra_rows, opening_rows,
};
use vk_base::Config;
use vk_text::{is_end, next_line, next_word};

/// How many words of a line follow a form, where the next one would start, and the word of the form that is next: none at its end.
#[derive(Clone, Copy)]
pub struct Reach<'a> {
    pub words: usize,
    pub at: usize,
    pub slot: &'a [u8],
}

/// How many words of a line were read, and where the next one would start.
#[derive(Clone, Copy)]
pub struct Mark {
    pub words: usize,
    pub at: usize,
}

/// How far the words of the line from `start` on follow the form.
pub fn follow<'a>(config: &Config, form: &'a [u8], line: &[u8], start: usize) -> Reach<'a>
    requires { start ≤ length line.now + 1 }
    ensures slot { result.slot.now ≡ (stop config.now.specs (words_from form.now 0) (words_from line.now start)).slot }
    ensures left { words_from line.now result.at ≡ (stop config.now.specs (words_from form.now 0) (words_from line.now start)).left }
    ensures words { result.words + length (words_from line.now result.at) ≡ length (words_from line.now start) }
    ensures within { result.at ≤ length line.now + 1 }
    ensures few { start + result.words ≤ result.at }
{
    let mut words = 0;
    let mut at = start;
    let mut place = 0;
    while let Some((slot, behind)) = next_word(form, place) {
        let Some((word, next)) = next_word(line, at) else {
            return Reach { words, at, slot };
        };
        if !fits(config, slot, word) {
            return Reach { words, at, slot };
        }
        words += 1;
        at = next;
        place = behind;
    }
    Reach {
        words,
        at,
        slot: b"",
    }
}

/// The same for a row behind words that the line follows so far.
pub fn follow_behind<'a>(config: &Config, head: Reach<'a>, row: &'a [u8], line: &[u8]) -> Reach<'a>
    requires words { head.words + length (words_from line.now head.at) ≡ length (words_from line.now 0) }
    requires within { head.at ≤ length line.now + 1 }
    requires few { head.words ≤ head.at }
    ensures slot { result.slot.now ≡ (stop_at config.now.specs row.now
        head.entry.slot.now (words_from line.now head.entry.at)).slot }
    ensures left { words_from line.now result.at ≡ (stop_at config.now.specs row.now
        head.entry.slot.now (words_from line.now head.entry.at)).left }
    ensures words { result.words + length (words_from line.now result.at) ≡ length (words_from line.now 0) }
    ensures within { result.at ≤ length line.now + 1 }
    ensures few { result.words ≤ result.at }
{
    if !head.slot.is_empty() {
        return head;
    }
    let reach = follow(config, row, line, head.at);
    Reach {
        words: head.words + reach.words,
        at: reach.at,
        slot: reach.slot,
    }
}

/// The one behind which more words were read, or the first.
fn farther(best: Mark, other: Mark) -> Mark
    ensures { result ≡ (if nat_lt best.words other.words then other else best) }
{
    if best.words < other.words {
        other
    } else {
        best
    }
}

/// How far the line follows these rows behind these words, where it is farther than that.
fn farthest_in(config: &Config, front: &[u8], rows: &[u8], line: &[u8], start: Mark) -> Mark
    requires words { start.words + length (words_from line.now start.at) ≡ length (words_from line.now 0) }
    requires within { start.at ≤ length line.now + 1 }
    ensures left { words_from line.now result.at ≡ farthest config.now.specs (words_from line.now 0)
        (words_from line.now start.at) (behind front.now (lines_of rows.now)) }
    ensures words { result.words + length (words_from line.now result.at) ≡ length (words_from line.now 0) }
    ensures within { result.at ≤ length line.now + 1 }
{
    let head = follow(config, front, line, 0);
    let mut best = start;
    let mut at = 0;
    while let Some((row, next)) = next_line(rows, at) {
        let reach = follow_behind(config, head, row, line);
        best = farther(
            best,
            Mark {
                words: reach.words,
                at: reach.at,
            },
        );
        at = next;
    }
    best
}

/// How far the line follows a form of the text: all that is behind is not read.
pub fn mark_of(text: TextKind, config: &Config, line: &[u8]) -> Mark
    ensures left { words_from line.now result.at ≡ unread config.now.specs (forms_of text) (words_from line.now 0) }
    ensures words { result.words + length (words_from line.now result.at) ≡ length (words_from line.now 0) }
    ensures within { result.at ≤ length line.now + 1 }
{
    let rows = opening_rows(text);
    let opened = farthest_in(config, b"", rows, line, Mark { words: 0, at: 0 });
    let front = call_front(text);
    let calls = call_rows();
    let called = farthest_in(config, front, calls, line, opened);
    let extra = extra_front(text);
    let extras = extra_rows(text);
    let more = farthest_in(config, extra, extras, line, called);
    let body = body_rows(text);
    farthest_in(config, b"", body, line, more)
}

/// Whether the line follows a form whole, where it follows it so far.
fn is_followed(reach: Reach, line: &[u8]) -> bool
    ensures { result ≡ is_whole (record { slot = reach.entry.slot.now; left = words_from line.now reach.entry.at }) }
{
    reach.slot.is_empty() && is_end(line, reach.at)
}

/// Whether the line follows one of these rows whole behind these words.
fn follows_in(config: &Config, front: &[u8], rows: &[u8], line: &[u8]) -> bool
    ensures { result ≡ follows config.now.specs (words_from line.now 0) (behind front.now (lines_of rows.now)) }
{
    let head = follow(config, front, line, 0);
    let mut at = 0;
    while let Some((row, next)) = next_line(rows, at) {
        let reach = follow_behind(config, head, row, line);
        let whole = is_followed(reach, line);
        if whole {
            return true;
        }
        at = next;
    }
    false
}

/// Whether one of the four holds.
fn any(first: bool, second: bool, third: bool, fourth: bool) -> bool
    ensures { result ≡ (((first || second) || third) || fourth) }
{
    first || second || third || fourth
}

/// Whether the line follows a form of the text whole.
pub fn is_whole(text: TextKind, config: &Config, line: &[u8]) -> bool
    ensures { result ≡ follows config.now.specs (words_from line.now 0) (forms_of text) }
{
    let rows = opening_rows(text);
    let opened = follows_in(config, b"", rows, line);
    let front = call_front(text);
    let calls = call_rows();
    let called = follows_in(config, front, calls, line);
    let extra = extra_front(text);
    let extras = extra_rows(text);
    let more = follows_in(config, extra, extras, line);
    let body = body_rows(text);
    let last = follows_in(config, b"", body, line);
    any(opened, called, more, last)
}
