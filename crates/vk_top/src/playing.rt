//! A schedule whose text is read piece by piece, played as far as it was read.

ghost use Rattle.std.specs.Prelude.{◌≡◌, ◌⊎◌, ◌+◌, ◌≤◌, ◌++◌, ◌∷◌, ℕ, [], true, false, Err, Some, List, length, IfOk, IfErr, IfSome};
ghost use Rattle.vk_base.specs.declared.limits.TheConstants.{EVENTS};
ghost use Rattle.vk_schedule.specs.declared.event.Event.{Event as TheEvent};
ghost use Rattle.vk_schedule.specs.Remaining.{HasFewLines};
ghost use Rattle.vk_schedule.specs.Schedule.{schedule_of};
ghost use Rattle.vk_report.specs.Report.{end_lines};
ghost use Rattle.vk_text.specs.Texts.{shown};
ghost use Rattle.vk_top.specs.Pieces.{ArePlayed, GoesWay, HasCome, HasPlayedAll, IsPiecePlayed, IsUnwritten};
ghost use Rattle.vk_top.specs.Playing.{IsWrittenOf, without_events};
ghost use Rattle.vk_top.specs.Work.{KeepsLines};
ghost use Rattle.vk_top.specs.declared.words.TextCommand.TheVariants as asked;

use crate::replay::{EventSlot, Manner, Written, ended, keep_room, own_line, put_event};
use std::alloc::Global;
use vk_base::{Config, NoMemory};
use vk_cluster::{Cluster, ClusterRefusal};
use vk_host::Response;
use vk_report::{Counts, Form, put_end, put_opening};
use vk_schedule::{EventBuffer, EventReader, TextRefusal};
use vk_text::{Text, read_opening};

/// How the events that were read were played.
#[derive(Clone, Copy)]
pub(crate) enum Way {
    /// All of them were had.
    On,
    /// One was refused, since the frames emitted before it hold too many bytes. Nothing is played behind it.
    Cut,
    /// Memory was wanting. Nothing is played from there on.
    WantsMemory,
}

/// What came of the events that were read.
#[derive(Drop)]
pub(crate) struct Played {
    cluster: Cluster,
    text: Text,
    counts: Counts,
    /// How many events were read.
    read: usize,
}

/// How far the playing of a schedule has come, of whose text only a front was read.
#[derive(Drop)]
pub(crate) struct Playing {
    config: Config,
    /// The number of the next line, from 1.
    line: u64,
    way: Way,
    played: Played,
}

/// Nothing is played yet: what is written begins with the opening lines.
fn unplayed(alloc: Global, form: Form, config: &Config) -> Result<Played, NoMemory>
    ensures { IfOk result (λ p. ArePlayed form Way.On config.now [] p) }
{
    let mut opening = Vec::new(alloc);
    put_opening(alloc, &mut opening, form, config)?;
    Ok(Played {
        cluster: Cluster::new(alloc, config)?,
        text: Text::new(opening),
        counts: Counts {
            events: 0,
            steps: 0,
            frames: 0,
        },
        read: 0,
    })
}

/// Plays the events that are left in the reader, behind those that were had, up to the first that is refused or wants memory. Tells how.
fn put_more(alloc: Global, form: Form, played: &mut Played, reader: &mut EventReader<'_>) -> Way
    requires few { played.old.read + length reader.old.schedule.events ≤ EVENTS }
    requires way { (es : List TheEvent) × ArePlayed form Way.On reader.old.schedule.config es played.old }
    ensures ending { without_events reader.new ≡ without_events reader.old }
    ensures count { played.new.read + length reader.new.schedule.events ≡ played.old.read + length reader.old.schedule.events }
    ensures way { (es : List TheEvent) → GoesWay form Way.On reader.old.schedule.config es played.old →
        GoesWay form result reader.old.schedule.config (es ++ reader.old.schedule.events) played.new }
{
    let mut slot = EventSlot {
        event: EventBuffer::new(),
        response: Response::Begun,
    };
    while let Some(line) = reader.next_with_line(&mut slot.event) {
        played.read += 1;
        let line = own_line(&slot.event, line);
        match put_event(
            alloc,
            &mut played.cluster,
            &mut played.text,
            Manner { form, line },
            &mut played.counts,
            &mut slot,
        ) {
            Ok(()) => {}
            Err(ClusterRefusal::Limit) => return Way::Cut,
            Err(ClusterRefusal::NoMemory) => return Way::WantsMemory,
        }
    }
    Way::On
}

/// Plays the events that are left in the reader, behind those that were played this way. Tells how. Not all of them need be read then.
fn go_way(
    alloc: Global,
    form: Form,
    played: &mut Played,
    way: Way,
    reader: &mut EventReader<'_>,
) -> Way
    requires few { played.old.read + length reader.old.schedule.events ≤ EVENTS }
    requires way { (es : List TheEvent) × ArePlayed form way reader.old.schedule.config es played.old }
    ensures ending { without_events reader.new ≡ without_events reader.old }
    ensures count { played.new.read + length reader.new.schedule.events ≡ played.old.read + length reader.old.schedule.events }
    ensures way { (es : List TheEvent) → GoesWay form way reader.old.schedule.config es played.old →
        GoesWay form result reader.old.schedule.config (es ++ reader.old.schedule.events) played.new }
{
    match way {
        Way::On => put_more(alloc, form, played, reader),
        Way::Cut => Way::Cut,
        Way::WantsMemory => Way::WantsMemory,
    }
}

/// Reads all that is left. Tells how many events these are.
fn count_left(reader: &mut EventReader<'_>) -> usize
    requires { length reader.old.schedule.events ≤ EVENTS }
    ensures left { reader.new ≡ without_events reader.old }
    ensures count { result ≡ length reader.old.schedule.events }
{
    let mut count = 0;
    let mut event = EventBuffer::new();
    while reader.next(&mut event) {
        count += 1;
    }
    count
}

/// The same as [`go_way`], and reads all.
fn play_left(
    alloc: Global,
    form: Form,
    played: &mut Played,
    way: Way,
    reader: &mut EventReader<'_>,
) -> Way
    requires few { played.old.read + length reader.old.schedule.events ≤ EVENTS }
    requires way { (es : List TheEvent) × ArePlayed form way reader.old.schedule.config es played.old }
    ensures left { reader.new ≡ without_events reader.old }
    ensures count { played.new.read ≡ played.old.read + length reader.old.schedule.events }
    ensures way { (es : List TheEvent) → ArePlayed form way reader.old.schedule.config es played.old →
        ArePlayed form result reader.old.schedule.config (es ++ reader.old.schedule.events) played.new }
{
    let way = go_way(alloc, form, played, way, reader);
    played.read += count_left(reader);
    way
}

/// Plays the lines that are left in the reader, of which the first has this number, behind what was played this way. The first line that
/// is refused ends it.
fn play_lines(
    alloc: Global,
    form: Form,
    mut played: Played,
    way: Way,
    line: u64,
    mut reader: EventReader<'_>,
) -> Result<Playing, TextRefusal>
    requires lines { HasFewLines played.read line }
    requires few { played.read + length reader.schedule.events ≤ EVENTS }
    requires way { (es : List TheEvent) × ArePlayed form way reader.schedule.config es played }
    ensures played { IfOk result (λ p. IsPiecePlayed form reader.entry way line played p) }
    ensures refused { IfErr result (λ e. reader.entry.refused ≡ Some e) }
{
    let before = played.read;
    let way = play_left(alloc, form, &mut played, way, &mut reader);
    let front = reader.into_front();
    if let Some(refusal) = front.refused {
        return Err(refusal);
    }
    Ok(Playing {
        config: front.schedule.config,
        line: line + (played.read - before) as u64,
        way,
        played,
    })
}

/// Plays the first piece of a text, where the opening ends in it before another line, and no line of it is refused. Where it gives none,
/// nothing is said of the text, or memory is wanting.
pub(crate) fn begin(alloc: Global, form: Form, piece: &[u8]) -> Option<Playing>
    ensures { IfSome result (λ p. (front : List ℕ) → piece.now ≡ front ++ 10 ∷ [] → HasCome form piece.now p) }
{
    let Ok(head) = read_opening(alloc, piece, b"vkernel 1", b"vkernel 2") else {
        return None;
    };
    if head.at >= piece.len() {
        return None;
    }
    let Ok(played) = unplayed(alloc, form, &head.config) else {
        return None;
    };
    let reader = EventReader::resume(alloc, head.config, 0, head.line, &piece[head.at..]);
    match play_lines(alloc, form, played, Way::On, head.line, reader) {
        Ok(playing) => Some(playing),
        Err(_) => None,
    }
}

/// The text that ends behind these events, all of which were had.
fn finish_whole(mut text: Text, form: Form, counts: Counts) -> Result<Written, NoMemory>
    ensures { IfOk result (λ w. (w.text.items ≡ shown text ++ end_lines form counts) × (w.is_cut ≡ false)) }
{
    put_end(&mut text, form, counts)?;
    keep_room(&mut text)?;
    Ok(Written {
        text: ended(text),
        is_cut: false,
    })
}

/// The text before an event that was refused.
fn finish_cut(mut text: Text) -> Result<Written, NoMemory>
    ensures { IfOk result (λ w. (w.text.items ≡ shown text) × (w.is_cut ≡ true)) }
{
    keep_room(&mut text)?;
    Ok(Written {
        text: ended(text),
        is_cut: true,
    })
}

impl Playing {
    /// Plays the next piece, behind a text that was played before. The first line that is refused ends it.
    pub(crate) fn go_on(
        self,
        alloc: Global,
        form: Form,
        piece: &[u8],
    ) -> Result<Playing, TextRefusal>
        requires { (text : List ℕ) × HasCome form text self }
        ensures more { IfOk result (λ p. (text : List ℕ) → HasCome form text self → (front : List ℕ) → piece.now ≡ front ++ 10 ∷ [] →
            HasCome form (text ++ piece.now) p) }
        ensures all { IfOk result (λ p. (text : List ℕ) → HasCome form text self → HasPlayedAll form (text ++ piece.now) p) }
        ensures refused { IfErr result (λ e. (text : List ℕ) → HasCome form text self → (schedule_of (text ++ piece.now) ≡ Err e)
            × ((front more : List ℕ) → piece.now ≡ front ++ 10 ∷ [] → schedule_of (text ++ piece.now ++ more) ≡ Err e)) }
    {
        let Playing {
            config,
            line,
            way,
            played,
        } = self;
        let reader = EventReader::resume(alloc, config, played.read, line, piece);
        play_lines(alloc, form, played, way, line, reader)
    }

    /// The text that is to be written, where all events were read.
    pub(crate) fn finish(self, form: Form) -> Result<Written, NoMemory>
        ensures { IfOk result (λ w. (text : List ℕ) → HasPlayedAll form text self → IsWrittenOf form text w) }
    {
        let Playing { way, played, .. } = self;
        let Played { text, counts, .. } = played;
        match way {
            Way::On => finish_whole(text, form, counts),
            Way::Cut => finish_cut(text),
            Way::WantsMemory => Err(NoMemory),
        }
    }
}

/// Why nothing is written of what is left in the reader where memory is wanting: the first line that is refused decides.
fn unwritten(mut reader: EventReader<'_>) -> TextRefusal
    requires { length reader.schedule.events ≤ EVENTS }
    ensures { IsUnwritten reader.entry.refused result }
{
    let _count = count_left(&mut reader);
    match reader.into_front().refused {
        Some(refusal) => refusal,
        None => TextRefusal::NoMemory,
    }
}

/// The report of the schedule that the text spells, or its trace, in one pass. The first line that is bad, or that has an event too many,
/// decides, also where an event or memory ends the playing before it.
pub(crate) fn output(alloc: Global, form: Form, text: &[u8]) -> Result<Written, TextRefusal>
    ensures written { IfOk result (IsWrittenOf form text.now) }
    ensures refused { IfErr result (λ e. ((e ≡ TextRefusal.NoMemory) × KeepsLines (asked.Replay form) text.now)
        ⊎ (schedule_of text.now ≡ Err e)) }
{
    let reader = EventReader::new(alloc, text)?;
    let Ok(played) = unplayed(alloc, form, reader.config()) else {
        return Err(unwritten(reader));
    };
    let playing = play_lines(alloc, form, played, Way::On, 1, reader)?;
    match playing.finish(form) {
        Ok(written) => Ok(written),
        Err(NoMemory) => Err(TextRefusal::NoMemory),
    }
}
