//! The frames that were emitted, and which of them are of which event.

ghost use Rattle.std.specs.Prelude.{◌≡◌, ◌<◌, ◌≤◌, ◌+◌, ◌-◌, ◌++◌, ◌∷◌, [], ℕ, List, None, Some, length, map, replicate, drop, slice_get, slice_set, slice_index_or, vec_len, vec_capacity, IfOk, IfSome, OnOk, MatchOption};
ghost use Rattle.std.specs.Global.{Vec as TheVec};
ghost use Rattle.vk_cluster.specs.declared.emitted.Span.{Span as TheSpan};
ghost use Rattle.vk_frame.specs.Reading.{frame_of};
ghost use Rattle.vk_cluster.specs.Blocks.{IsFrameSized, named_by};
ghost use Rattle.vk_cluster.specs.declared.frames.TheConstants.{MOST_BYTES};
ghost use Rattle.vk_cluster.specs.Piles.{HasFrameRoom, IsPileKept, IsSpanWithin, end_event, event_added, event_span, frame_at, frames_by_event, from_one, items_of, pile_of, put_frame, spanned};

use crate::frames::Frames;
use std::alloc::Global;
use vk_base::NoMemory;

/// The most bytes that the frames of one event have: [`TICK_PACKETS`](vk_base::limits::TICK_PACKETS) of 1,152 bytes.
pub const EVENT_BYTES: usize = 2_359_296;
/// No event is taken where the frames so far hold more bytes than this; so they never hold more than 268,435,456.
pub const LAST_BYTES: usize = 266_076_160;

/// A part of a list: where it begins, and how many elements it has.
#[derive(Clone, Copy)]
pub struct Span {
    pub from: u32,
    pub count: u32,
}

/// The frames of all events of all stations, one behind another: each event of a station is a span of the frames. What it stands for is
/// `frames_by_event` of `specs/Piles.antt`. Only this crate puts frames into it ([`keep`](crate::keep)) and finds them
/// ([`handed_over`](crate::handed_over)).
#[derive(Drop)]
pub struct EmittedFrames {
    pub(crate) frames: Frames,
    pub events: Vec<Vec<Span>>,
}

impl EmittedFrames {
    /// No events of so many stations.
    ///
    /// # Errors
    ///
    /// [`NoMemory`] where memory is wanting.
    pub fn new(alloc: Global, stations: usize) -> Result<Self, NoMemory>
        ensures { IfOk result (λ e. pile_of e ≡ record { bytes = []; frames = []; events = replicate stations [] }) }
    {
        Ok(EmittedFrames {
            frames: Frames::new(alloc)?,
            events: no_events(alloc, stations)?,
        })
    }

    /// Makes room for an event of the station at this place, of so many bytes and frames. Changes nothing else.
    ///
    /// # Errors
    ///
    /// [`NoMemory`] where memory is wanting.
    #[inline(always)]
    pub fn make_room(
        &mut self,
        alloc: Global,
        place: usize,
        bytes: usize,
        frames: usize,
    ) -> Result<(), NoMemory>
        requires place { place < length self.old.events.items }
        requires small { bytes ≤ EVENT_BYTES }
        requires few { length (pile_of self.old).bytes + bytes ≤ MOST_BYTES }
        ensures frames { self.new.frames.items ≡ self.old.frames.items }
        ensures events { map items_of self.new.events.items ≡ map items_of self.old.events.items }
        ensures room { OnOk result (HasFrameRoom self.new place bytes frames) }
    {
        self.frames.make_room(alloc, bytes, frames)?;
        room_for_event(&mut self.events, place)
    }

    /// One more frame, for which there is room, of the event that [`EmittedFrames::end_event`] ends; and the station that it is for.
    pub(crate) fn put(&mut self, frame: &[u8], to: u16)
        requires to { named_by (frame_of frame.now) ≡ to }
        requires frame { IsFrameSized frame.now }
        requires bytes { length frame.now ≤ self.old.frames.bytes }
        requires frames { 0 < self.old.frames.places }
        requires most { length (pile_of self.old).bytes + length frame.now ≤ MOST_BYTES }
        ensures pile { pile_of self.new ≡ put_frame (pile_of self.old) frame.now }
        ensures bytes { self.new.frames.bytes + length frame.now ≡ self.old.frames.bytes }
        ensures frames { self.old.frames.places ≤ self.new.frames.places + 1 }
        ensures events { self.new.events ≡ self.old.events }
    {
        self.frames.put(frame, to);
    }

    /// The frames from the one numbered `first` on, counted from 0, are those of one event of the station at this place.
    #[inline(always)]
    pub(crate) fn end_event(&mut self, place: usize, first: u32)
        requires place { place < length self.old.events.items }
        requires first { first ≤ length self.old.frames.items }
        requires room { (s : TheVec TheSpan) → slice_get self.old.events.items place ≡ Some s → vec_len s < vec_capacity s }
        ensures { pile_of self.new ≡ end_event (pile_of self.old) place first }
    {
        let span = Span {
            from: first,
            count: self.frames.len() - first,
        };
        push_event(&mut self.events, place, span);
    }

    /// The frame with this output number of the event with this number of the station at this place, each number counted from 1; and
    /// the station that it is for.
    pub(crate) fn find(&self, place: usize, event: u64, output: u16) -> Option<(&[u8], u16)>
        requires { IsPileKept (pile_of self.now) }
        ensures frame { MatchOption result (frame_at (frames_by_event (pile_of self.now)) place event output ≡ None)
            (λ r. frame_at (frames_by_event (pile_of self.now)) place event output ≡ Some r.0.now) }
        ensures to { IfSome result (λ r. named_by (frame_of r.0.now) ≡ r.1) }
    {
        match self.event_span(place, event) {
            Some(span) => self.frame(span, output as usize),
            None => None,
        }
    }

    /// How many bytes the frames have.
    pub fn size(&self) -> usize
        ensures { result ≡ length (pile_of self.now).bytes }
    {
        self.frames.size()
    }

    fn event_span(&self, place: usize, event: u64) -> Option<Span>
        ensures { result ≡ event_span (pile_of self.now) place event }
    {
        match self.events.get(place) {
            Some(events) => numbered(events.as_slice(), event as usize),
            None => None,
        }
    }

    /// The frame of this number of an event, counted from 1, and the station that it is for.
    fn frame(&self, event: Span, output: usize) -> Option<(&[u8], u16)>
        requires { IsSpanWithin (length self.now.frames.items) event }
        ensures frame { MatchOption result (from_one (spanned self.now.frames.items event) output ≡ None)
            (λ r. from_one (spanned self.now.frames.items event) output ≡ Some r.0.now) }
        ensures to { IfSome result (λ r. named_by (frame_of r.0.now) ≡ r.1) }
    {
        if output == 0 || output > event.count as usize {
            return None;
        }
        self.frames.get(event.from as usize + output - 1)
    }
}

#[tactic(auto, using(crate::proofs::Rooms::more_none))]
fn no_events(alloc: Global, stations: usize) -> Result<Vec<Vec<Span>>, NoMemory>
    ensures { IfOk result (λ v. map items_of v.items ≡ replicate stations []) }
{
    let mut events = Vec::with_capacity(alloc, stations)?;
    for _station in 0..stations {
        events.push(Vec::new(alloc))?;
    }
    Ok(events)
}

/// The event of this number, counted from 1.
fn numbered(spans: &[Span], number: usize) -> Option<Span>
    ensures { result ≡ from_one spans.now number }
{
    if number == 0 {
        return None;
    }
    spans.get(number - 1).copied()
}

fn room_for_event(events: &mut Vec<Vec<Span>>, place: usize) -> Result<(), NoMemory>
    requires { place < length events.old.items }
    ensures same { map items_of events.new.items ≡ map items_of events.old.items }
    ensures room { OnOk result ((s : TheVec TheSpan) → slice_get events.new.items place ≡ Some s → vec_len s < vec_capacity s) }
{
    reserve_one(&mut events[place])
}

fn reserve_one(spans: &mut Vec<Span>) -> Result<(), NoMemory>
    ensures same { spans.new.items ≡ spans.old.items }
    ensures room { OnOk result (vec_len spans.new < vec_capacity spans.new) }
{
    if spans.len() == spans.capacity() {
        spans.reserve(1)?;
    }
    Ok(())
}

/// One more event of the station at this place, for which there is room.
fn push_event(events: &mut Vec<Vec<Span>>, place: usize, span: Span)
    requires place { place < length events.old.items }
    requires room { (s : TheVec TheSpan) → slice_get events.old.items place ≡ Some s → vec_len s < vec_capacity s }
    ensures { map items_of events.new.items ≡ event_added (map items_of events.old.items) place span }
{
    push_span(&mut events[place], span);
}

/// One more span, for which there is room.
fn push_span(spans: &mut Vec<Span>, span: Span)
    requires { vec_len spans.old < vec_capacity spans.old }
    ensures { spans.new.items ≡ spans.old.items ++ span ∷ [] }
{
    spans.push_reserved(span);
}
