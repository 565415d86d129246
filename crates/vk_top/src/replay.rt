//! One event of a schedule, had by the stations of its configuration, and its lines in the report or the trace.

ghost use Rattle.std.specs.Prelude.{◌≡◌, ◌<◌, ◌++◌, Ok, Err, List, map, true, false, IfSome, OnOk};
ghost use Rattle.vk_base.specs.Settings.{Settings};
ghost use Rattle.vk_schedule.specs.declared.event.Event.{Event as TheEvent};
ghost use Rattle.vk_schedule.specs.Lawful.{has_actors};
ghost use Rattle.vk_schedule.specs.Spelling.{event_text};
ghost use Rattle.vk_cluster.specs.Standing.{StandsFor, StandsSomewhere, advanced, logs_of};
ghost use Rattle.vk_cluster.specs.Values.{is_full};
ghost use Rattle.vk_host.specs.Responses.{answer_of};
ghost use Rattle.vk_report.specs.Histories.{frames_from, told_lines};
ghost use Rattle.vk_report.specs.Views.{IsShort, viewed};
ghost use Rattle.vk_report.specs.Report.{BeginsAs};
ghost use Rattle.vk_text.specs.Texts.{shown};
ghost use Rattle.vk_rules.specs.Entries.{Entry};
ghost use Rattle.vk_rules.specs.Frames.{Frame as TheFrame};
ghost use Rattle.vk_rules.specs.Histories.{happened};
ghost use Rattle.vk_cluster.specs.Shown.{HasAdvanced, IsLastEvent, Sends};
ghost use Rattle.vk_top.specs.Playing.{AreFew, CanEnd, IsHad, IsOwnLine, IsReported, told_entry};
ghost use Rattle.vk_top.specs.Report.{emitted_of};

use crate::emitted::emitted_of;
use std::alloc::Global;
use vk_base::NoMemory;
use vk_cluster::{Cluster, ClusterRefusal, acting};
use vk_host::{Host, Response};
use vk_report::{
    AnswerView, Counts, EventPlace, Form, ToldSteps, put_frame, put_missing, put_told_entry,
};
use vk_schedule::{EventBuffer, EventKind};
use vk_text::Text;

/// What is written of a schedule.
#[derive(Drop)]
pub(crate) struct Written {
    pub text: Vec<u8>,
    /// Whether an event was refused, since the frames emitted before it hold too many bytes. Then the text is that of the events before it,
    /// without the last line.
    pub is_cut: bool,
}

/// How an event is written: in which form, and for a call or a collect behind which line, which its first step is copied from.
#[derive(Clone, Copy)]
pub(crate) struct Manner<'a> {
    pub form: Form,
    pub line: Option<&'a [u8]>,
}

/// The place of one event, and of what it was answered.
#[derive(Drop)]
pub(crate) struct EventSlot {
    pub event: EventBuffer,
    pub response: Response,
}

/// What the cluster reports of its last event, of the station of this host: the place of the station that had it, with its answer; or none,
/// where there was nothing to deliver.
#[derive(Clone, Copy)]
struct Told<'a> {
    host: u16,
    place: Option<usize>,
    response: &'a Response,
}

/// The line of an event that is a call or a collect, whose own step is spelled so.
#[inline(always)]
pub(crate) fn own_line<'a>(event: &EventBuffer, line: &'a [u8]) -> Option<&'a [u8]>
    requires { line.now ≡ event_text event.now }
    ensures { IfSome result (λ own. IsOwnLine own.now event.now) }
{
    match event.view().parts().0 {
        EventKind::Call { .. } | EventKind::Collect { .. } => Some(line),
        EventKind::Tick { .. } | EventKind::Deliver { .. } => None,
    }
}

/// The frames of the station's last event, which is the event `own` of the station `host`.
fn put_frames(
    station: &Host,
    text: &mut Text,
    form: Form,
    host: u16,
    own: u64,
) -> Result<(), NoMemory>
    requires { (fs : List TheFrame) × Sends station.now fs }
    ensures { OnOk result ((fs : List TheFrame) → Sends station.now fs →
        shown text.new ≡ shown text.old ++ frames_from form host own 0 (map emitted_of fs)) }
{
    let mut output = 0u16;
    for at in 0..station.frame_count() {
        output += 1;
        let frame = emitted_of(station, at);
        put_frame(text, form, host, own, output, frame)?;
    }
    Ok(())
}

/// The answer that the station's response stands for.
fn answer_view<'a>(station: &'a Host, response: &'a Response) -> AnswerView<'a>
    ensures value { viewed result ≡ answer_of station.now response.now }
    ensures short { IsShort result }
{
    match response {
        Response::Begun => AnswerView::Begun,
        Response::Given { outcome } => AnswerView::Given { outcome },
        Response::Loaded { pid, start, count } => AnswerView::Loaded {
            bytes: station.loaded(*pid, *start, *count),
        },
        Response::Ticked { now } => AnswerView::Ticked { now: *now },
        Response::Taken => AnswerView::Taken,
        Response::Old => AnswerView::Old,
        Response::Bad => AnswerView::Bad,
    }
}

/// The lines of the station's last event, which was answered so.
fn put_told(
    alloc: Global,
    station: &Host,
    text: &mut Text,
    manner: Manner,
    place: EventPlace,
    response: &Response,
) -> Result<(), NoMemory>
    requires last { (e : Entry) × IsLastEvent station.now (answer_of station.now response.now) e }
    requires first { IfSome manner.line (λ line. BeginsAs line.now station.now.doing.steps) }
    ensures { OnOk result ((e : Entry) → IsLastEvent station.now (answer_of station.now response.now) e →
        shown text.new ≡ shown text.old ++ told_lines manner.entry.form (told_entry place e)) }
{
    let answer = answer_view(station, response);
    let told = ToldSteps {
        steps: station.steps(),
        line: manner.line,
    };
    put_told_entry(alloc, text, manner.form, place, &answer, told)?;
    match manner.form {
        Form::Report => put_frames(station, text, manner.form, place.host, place.own),
        Form::Trace => Ok(()),
    }
}

/// The lines of what the cluster reports of its last event, which is counted.
fn put_report(
    alloc: Global,
    cluster: &Cluster,
    text: &mut Text,
    manner: Manner,
    counts: &mut Counts,
    told: Told,
) -> Result<(), NoMemory>
    requires few { AreFew counts.old }
    requires advanced { (c : Settings) × (es : List TheEvent) × (e : TheEvent)
        × HasAdvanced c es cluster.now e (advanced told.host told.response.now told.place)
        × IfSome manner.line (λ line. IsOwnLine line.now e) }
    ensures { OnOk result ((c : Settings) (es : List TheEvent) (e : TheEvent) →
        HasAdvanced c es cluster.now e (advanced told.entry.host told.entry.response.now told.entry.place) →
        IsReported manner.entry.form counts.old counts.new (shown text.old) (shown text.new) (happened c (logs_of c es) e)) }
{
    let number = counts.events + 1;
    counts.events = number;
    match told.place {
        None => put_missing(text, manner.form, number, told.host),
        Some(place) => {
            let station = cluster.station(place);
            counts.steps += station.steps().len() as u64;
            counts.frames += u64::from(station.frame_count());
            let place = EventPlace {
                number,
                host: station.host(),
                own: station.events(),
            };
            put_told(alloc, station, text, manner, place, told.response)
        }
    }
}

/// Makes room for what stands in the draft, so that the text can end without more memory.
#[inline(always)]
pub(crate) fn keep_room(text: &mut Text) -> Result<(), NoMemory>
    ensures same { shown text.new ≡ shown text.old }
    ensures room { OnOk result (CanEnd text.new) }
{
    if text.bytes.capacity() - text.bytes.len() < text.draft.len() {
        text.bytes.reserve(text.draft.len())?;
    }
    Ok(())
}

/// The bytes of the text, for which there is room.
pub(crate) fn ended(text: Text) -> Vec<u8>
    requires { CanEnd text }
    ensures { result.items ≡ shown text }
{
    let Text { mut bytes, draft } = text;
    match bytes.extend_from_slice(draft.as_slice()) {
        Ok(()) => bytes,
        Err(_) => unreachable!(),
    }
}

/// The same as [`put_report`], and room for the end of the text.
fn put_played(
    alloc: Global,
    cluster: &Cluster,
    text: &mut Text,
    manner: Manner,
    counts: &mut Counts,
    told: Told,
) -> Result<(), NoMemory>
    requires few { AreFew counts.old }
    requires advanced { (c : Settings) × (es : List TheEvent) × (e : TheEvent)
        × HasAdvanced c es cluster.now e (advanced told.host told.response.now told.place)
        × IfSome manner.line (λ line. IsOwnLine line.now e) }
    ensures lines { OnOk result ((c : Settings) (es : List TheEvent) (e : TheEvent) →
        HasAdvanced c es cluster.now e (advanced told.entry.host told.entry.response.now told.entry.place) →
        IsReported manner.entry.form counts.old counts.new (shown text.old) (shown text.new) (happened c (logs_of c es) e)) }
    ensures end { OnOk result (CanEnd text.new) }
{
    put_report(alloc, cluster, text, manner, counts, told)?;
    keep_room(text)
}

/// One event, and its lines.
pub(crate) fn put_event(
    alloc: Global,
    cluster: &mut Cluster,
    text: &mut Text,
    manner: Manner,
    counts: &mut Counts,
    slot: &mut EventSlot,
) -> Result<(), ClusterRefusal>
    requires few { AreFew counts.old }
    requires line { IfSome manner.line (λ line. IsOwnLine line.now slot.old.event) }
    requires somewhere { StandsSomewhere cluster.old }
    requires actors { has_actors cluster.old.config.specs slot.old.event ≡ true }
    ensures had { OnOk result ((c : Settings) (es : List TheEvent) → StandsFor c es cluster.old →
        IsHad manner.entry.form c es slot.old.event counts.old counts.new (shown text.old) (shown text.new) cluster.new) }
    ensures room { OnOk result (is_full cluster.old ≡ false) }
    ensures end { OnOk result (CanEnd text.new) }
    ensures refused { result ≡ Err ClusterRefusal.Limit → (is_full cluster.old ≡ true) × (text.new ≡ text.old) }
    ensures memory { result ≡ Err ClusterRefusal.NoMemory → is_full cluster.old ≡ false }
{
    let event = slot.event.view();
    match cluster.advance_with(alloc, &event, &mut slot.response) {
        Ok(place) => {
            let told = Told {
                host: acting(&event),
                place,
                response: &slot.response,
            };
            match put_played(alloc, cluster, text, manner, counts, told) {
                Ok(()) => Ok(()),
                Err(NoMemory) => Err(ClusterRefusal::NoMemory),
            }
        }
        Err(refusal) => Err(refusal),
    }
}
