//! The line of an event and its answer.

ghost use Rattle.std.specs.Prelude.{◌≡◌, ◌+◌, ◌≤◌, ◌++◌, false, length, OnOk};
ghost use Rattle.vk_text.specs.Spelling.{StartsWith};
ghost use Rattle.vk_text.specs.Texts.{shown};
ghost use Rattle.vk_text.specs.declared.draft.TheConstants.{DRAFT_ROOM as ROOM};
ghost use Rattle.vk_report.specs.Report.{place_text, answer_text_of, answer_line, number_and_host, missing_line, event_place};
ghost use Rattle.vk_base.specs.declared.event.EventAnswer.TheVariants as answers;
ghost use Rattle.vk_report.specs.Views.{IsShort, is_loaded, viewed};

use crate::entry::EventPlace;
use std::alloc::Global;
use v_trace::{draft_outcome, put_loaded};
use vk_base::{NoMemory, Outcome};
use vk_text::{Draft, Text, add_number, draft_number, give};

/// What an event is answered: what a call ended with is lent, and the bytes that a Load gives, at most 1,024.
#[derive(Clone, Copy)]
pub enum AnswerView<'a> {
    Begun,
    Given { outcome: &'a Outcome },
    Loaded { bytes: &'a [u8] },
    Ticked { now: u64 },
    Taken,
    Old,
    Bad,
}

/// `now TICK`
fn draft_ticked(into: &mut Draft, now: u64)
    requires { length into.old + 24 ≤ ROOM }
    ensures text { into.new ≡ into.old ++ answer_text_of (answers.Ticked now) }
    ensures few { length into.new ≤ length into.old + 24 }
{
    into.put(b"now");
    draft_number(into, now);
}

/// What an event is answered, which is not what a Load gives.
#[inline(always)]
fn draft_answer(into: &mut Draft, answer: &AnswerView)
    requires plain { is_loaded answer.now ≡ false }
    requires room { length into.old + 100 ≤ ROOM }
    ensures text { into.new ≡ into.old ++ answer_text_of (viewed answer.now) }
    ensures few { length into.new ≤ length into.old + 90 }
{
    match answer {
        AnswerView::Begun => into.put(b"begun"),
        AnswerView::Given { outcome } => draft_outcome(into, outcome),
        AnswerView::Loaded { .. } => unreachable!(),
        AnswerView::Ticked { now } => draft_ticked(into, *now),
        AnswerView::Taken => into.put(b"taken"),
        AnswerView::Old => into.put(b"old"),
        AnswerView::Bad => into.put(b"bad"),
    }
}

/// What an event is answered. The bytes that a Load gives stand behind the draft.
#[inline(always)]
fn go_on_with_answer(alloc: Global, text: &mut Text, answer: &AnswerView) -> Result<(), NoMemory>
    requires short { IsShort answer.now }
    requires room { length text.old.draft + 100 ≤ ROOM }
    ensures ok { OnOk result (shown text.new ≡ shown text.old ++ answer_text_of (viewed answer.now)) }
    ensures few { OnOk result (length text.new.draft ≤ length text.old.draft + 90) }
    ensures front { StartsWith text.old.bytes.items text.new.bytes.items }
    ensures whole { StartsWith (shown text.old) (shown text.new) }
{
    if let AnswerView::Loaded { bytes } = answer {
        give(&mut text.bytes, &mut text.draft)?;
        return put_loaded(alloc, &mut text.bytes, bytes);
    }
    draft_answer(&mut text.draft, answer);
    Ok(())
}

/// `H:E`
#[inline(always)]
pub fn draft_event(into: &mut Draft, host: u16, own: u64)
    requires { length into.old + 41 ≤ ROOM }
    ensures text { into.new ≡ into.old ++ event_place host own }
    ensures few { length into.new ≤ length into.old + 41 }
{
    add_number(into, u64::from(host));
    into.byte(b':');
    add_number(into, own);
}

/// `N H:E `
#[inline(always)]
fn draft_place(into: &mut Draft, place: EventPlace)
    requires { length into.old + 63 ≤ ROOM }
    ensures text { into.new ≡ into.old ++ place_text place }
    ensures few { length into.new ≤ length into.old + 63 }
{
    add_number(into, place.number);
    into.byte(b' ');
    draft_event(into, place.host, place.own);
    into.byte(b' ');
}

/// `N H:E ANSWER`
#[inline(always)]
pub fn write_answer_line(
    alloc: Global,
    text: &mut Text,
    place: EventPlace,
    answer: &AnswerView,
) -> Result<(), NoMemory>
    requires { IsShort answer.now }
    ensures ok { OnOk result (shown text.new ≡ shown text.old ++ answer_line place (viewed answer.now)) }
    ensures front { StartsWith text.old.bytes.items text.new.bytes.items }
    ensures whole { StartsWith (shown text.old) (shown text.new) }
{
    text.make_room()?;
    draft_place(&mut text.draft, place);
    go_on_with_answer(alloc, text, answer)?;
    text.draft.byte(b'\n');
    Ok(())
}

/// `N H`
fn draft_number_and_host(into: &mut Draft, number: u64, host: u16)
    requires { length into.old + 41 ≤ ROOM }
    ensures text { into.new ≡ into.old ++ number_and_host number host }
    ensures few { length into.new ≤ length into.old + 41 }
{
    add_number(into, number);
    draft_number(into, u64::from(host));
}

/// `N H:- missing`
pub fn draft_missing_line(into: &mut Draft, number: u64, host: u16)
    requires { length into.old + 60 ≤ ROOM }
    ensures text { into.new ≡ into.old ++ missing_line number host }
    ensures few { length into.new ≤ length into.old + 60 }
{
    draft_number_and_host(into, number, host);
    into.put(b":- missing\n");
}
