//! Schedules as texts.

ghost use Rattle.std.specs.Prelude.{◌≡◌, ◌⊎◌, ◌<◌, None, Ok, Err, IfOk, IfErr, OnErr, length};
ghost use Rattle.vk_schedule.specs.Lawful.{IsLawful};
ghost use Rattle.vk_schedule.specs.Schedule.{HasProcess, as_text, front_of, schedule_of, unopened};

use crate::event::Event;
use crate::reader::EventReader;
use crate::view::EventBuffer;
use std::alloc::Global;
use thiserror::Error;
use vk_base::{Config, List, NoMemory};
use vk_text::{OpeningRefusal, empty_config};

/// A configuration, and the events of a run of it.
#[derive(Drop)]
pub struct Schedule {
    pub config: Config,
    pub events: List<Event>,
}

/// Why a text gives no value.
#[derive(Clone, Copy, Debug, PartialEq, Eq, Error)]
pub enum TextRefusal {
    /// The first bad line. Lines count from 1; a text that ends too early is bad in the line after its last.
    #[error("line {line} is not valid")]
    BadInput { line: u64 },
    /// There are more than 100,000 events.
    #[error("there are too many events")]
    Limit,
    #[error("out of memory")]
    NoMemory,
}

/// Why a text gives no value where it does not open.
pub fn refused(refusal: OpeningRefusal) -> TextRefusal
    ensures { result ≡ as_text refusal }
{
    match refusal {
        OpeningRefusal::Bad { line } => TextRefusal::BadInput { line },
        OpeningRefusal::NoMemory => TextRefusal::NoMemory,
    }
}

/// The schedule of a text up to its first line that is refused.
#[derive(Drop)]
pub struct Front {
    /// The processes and the events of the lines before it.
    pub schedule: Schedule,
    /// Why it is refused, where there is such a line: it is bad, or has an event too many.
    pub refused: Option<TextRefusal>,
    /// The event that is too many.
    pub beyond: Option<Event>,
}

/// What is read of a text that does not open, since this line is bad.
fn unopened(alloc: Global, line: u64) -> Front
    ensures { result ≡ unopened line }
{
    Front {
        schedule: Schedule {
            config: empty_config(alloc),
            events: List::empty(alloc),
        },
        refused: Some(TextRefusal::BadInput { line }),
        beyond: None,
    }
}

/// What is left to be read, with its events.
fn collect(alloc: Global, mut reader: EventReader<'_>) -> Result<Front, NoMemory>
    ensures front { IfOk result (λ f. f ≡ reader.entry) }
    ensures memory { OnErr result (0 < length reader.entry.schedule.config.specs) }
{
    let mut events = List::empty(alloc);
    let mut event = EventBuffer::new();
    while reader.next(&mut event) {
        events.push(event.view().whole())?;
    }
    let mut front = reader.into_front();
    front.schedule.events = events;
    Ok(front)
}

/// The schedule of the text up to the first line that is refused. In format 1 the first line is `vkernel 1`, and then come
/// `process PID SIZE` lines by rising pids; in format 2 it is `vkernel 2`, then come `times TRIES INTERVAL LIFE`, the `process` lines, and
/// `pool HOST POOL` lines by rising stations. Behind them stand the events: lines `call PID CALLTEXT`, `collect PID`, `tick H` and
/// `deliver TO FROM EVENT OUTPUT`, of processes and stations that the text names. Memory is wanted only for lines that are
/// taken, so only where the text opens with a process.
pub fn read_front(alloc: Global, text: &[u8]) -> Result<Front, NoMemory>
    ensures front { IfOk result (λ f. f ≡ front_of text.now) }
    ensures lawful { IfOk result (λ f. IsLawful f.schedule) }
    ensures memory { OnErr result (HasProcess text.now) }
{
    match EventReader::new(alloc, text) {
        Ok(reader) => collect(alloc, reader),
        Err(TextRefusal::BadInput { line }) => Ok(unopened(alloc, line)),
        Err(_) => Err(NoMemory),
    }
}

/// The schedule that the whole text spells, as [`read_front`] reads it. The first line that is bad, or that has an event
/// too many, decides.
pub fn read_schedule(alloc: Global, text: &[u8]) -> Result<Schedule, TextRefusal>
    ensures schedule { IfOk result (λ s. schedule_of text.now ≡ Ok s) }
    ensures refused { IfErr result (λ e. ((e ≡ TextRefusal.NoMemory) × HasProcess text.now) ⊎ (schedule_of text.now ≡ Err e)) }
    ensures lawful { IfOk result IsLawful }
{
    let Front {
        schedule,
        refused,
        ..
    } = match read_front(alloc, text) {
        Ok(front) => front,
        Err(NoMemory) => return Err(TextRefusal::NoMemory),
    };
    match refused {
        None => Ok(schedule),
        Some(refusal) => Err(refusal),
    }
}
