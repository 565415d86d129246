//! The events of a schedule's text, one after another.

ghost use Rattle.std.specs.Prelude.{◌≡◌, ◌⊎◌, ℕ, true, [], None, IfOk, IfErr, IfSome, option_map, if◌then◌else◌};
ghost use Rattle.vk_schedule.specs.Lawful.{IsLawful, IsReadableEvent, has_actors};
ghost use Rattle.vk_text.specs.Lines.{lines_of};
ghost use Rattle.vk_schedule.specs.Remaining.{HasFewLines, IsNextEvent, end_of, front_left};
ghost use Rattle.vk_schedule.specs.Schedule.{HasProcess, front_of, unopened};
ghost use Rattle.vk_schedule.specs.Spelling.{event_text};

use crate::event::Event;
use crate::line::read_event;
use crate::schedule::{Front, Schedule, TextRefusal, refused};
use crate::view::EventBuffer;
use std::alloc::Global;
use std::marker::Model;
use vk_base::limits::EVENTS;
use vk_base::{Config, List};
use vk_text::{next_line, read_opening};

/// What is left to be read of a text: the events that are still to come, which [`EventReader::next`] gives one by one, and how the
/// reading ends. It keeps none of the events.
#[derive(Drop)]
pub struct EventReader<'a> {
    alloc: Global,
    config: Config,
    text: &'a [u8],
    /// Where the next line starts.
    at: usize,
    /// The number of that line, from 1.
    line: u64,
    /// How many events were given.
    given: usize,
}

impl<'a> Model for EventReader<'a> {
    ghost use Rattle.std.specs.Prelude.{drop};
    ghost use Rattle.vk_text.specs.Lines.{lines_of};
    ghost use Rattle.vk_schedule.specs.declared.schedule.Front.{Front};

    ghost Value = { Front };

    ghost use Rattle.vk_schedule.specs.Remaining.{HasFewLines, front_left};

    ghost view = { λ r. front_left r.config r.given r.line (lines_of (drop r.at r.text.now)) };

    ghost invariant = { λ r. HasFewLines r.given r.line };
}

/// What is left where no event is.
fn ended(
    alloc: Global,
    config: Config,
    refused: Option<TextRefusal>,
    beyond: Option<Event>,
) -> Front
    ensures { result ≡ end_of config refused beyond }
{
    Front {
        schedule: Schedule {
            config,
            events: List::empty(alloc),
        },
        refused,
        beyond,
    }
}

impl<'a> EventReader<'a> {
    /// All of the text is left to be read, but its opening. A text without a title, or without the times of its format, is bad in that
    /// line; other bad lines, and an event too many, are told at the end of the reading. Memory is wanted only for processes.
    pub fn new(alloc: Global, text: &'a [u8]) -> Result<Self, TextRefusal>
        ensures front { IfOk result (λ r. r ≡ front_of text.now) }
        ensures lawful { IfOk result (λ r. IsLawful r.schedule) }
        ensures refused { IfErr result (λ e. ((e ≡ TextRefusal.NoMemory) × HasProcess text.now)
            ⊎ ((line : ℕ) × (e ≡ TextRefusal.BadInput line) × (front_of text.now ≡ unopened line))) }
    {
        match read_opening(alloc, text, b"vkernel 1", b"vkernel 2") {
            Ok(head) => Ok(EventReader {
                alloc,
                config: head.config,
                text,
                at: head.at,
                line: head.line,
                given: 0,
            }),
            Err(refusal) => Err(refused(refusal)),
        }
    }

    /// The events of a text whose opening and first events, so many, were read before it. Its first line has this number.
    pub fn resume(alloc: Global, config: Config, given: usize, line: u64, text: &'a [u8]) -> Self
        requires { HasFewLines given line }
        ensures { result ≡ front_left config given line (lines_of text.now) }
    {
        EventReader {
            alloc,
            config,
            text,
            at: 0,
            line,
            given,
        }
    }

    /// The configuration of the text.
    pub fn config(&self) -> &Config
        ensures { result.now ≡ self.now.schedule.config }
    {
        &self.config
    }

    /// Writes the next event over this one, and tells whether there is one. Where there is none, any may be left in its place.
    pub fn next(&mut self, event: &mut EventBuffer) -> bool
        ensures next { IsNextEvent self.old self.new (if result then Some event.new else None) }
        ensures lawful { result ≡ true → IsReadableEvent event.new × (has_actors self.old.schedule.config.specs event.new ≡ true) }
    {
        self.next_with_line(event).is_some()
    }

    /// The same, and gives the event's line, which is spelled as it is, without the line's end; `None` where there is no event.
    pub fn next_with_line(&mut self, event: &mut EventBuffer) -> Option<&'a [u8]>
        ensures next { IsNextEvent self.old self.new (option_map (λ _. event.new) result) }
        ensures lawful { IfSome result (λ _. IsReadableEvent event.new × (has_actors self.old.schedule.config.specs event.new ≡ true)) }
        ensures text { IfSome result (λ line. line.now ≡ event_text event.new) }
    {
        let Some((line, next)) = next_line(self.text, self.at) else {
            return None;
        };
        if self.given >= EVENTS {
            return None;
        }
        let Some(()) = read_event(&self.config, line, event) else {
            return None;
        };
        self.at = next;
        self.line += 1;
        self.given += 1;
        Some(line)
    }

    /// How the reading ends, with the configuration of the text and with none of its events.
    pub fn into_front(self) -> Front
        requires { self.schedule.events ≡ [] }
        ensures { result ≡ self.entry }
    {
        let Some((line, _)) = next_line(self.text, self.at) else {
            return ended(self.alloc, self.config, None, None);
        };
        let mut event = EventBuffer::new();
        if let Some(()) = read_event(&self.config, line, &mut event) {
            let refused = Some(TextRefusal::Limit);
            return ended(self.alloc, self.config, refused, Some(event.view().whole()));
        }
        let refused = Some(TextRefusal::BadInput { line: self.line });
        ended(self.alloc, self.config, refused, None)
    }
}
