//! The storm of a number.

ghost use Rattle.std.specs.Prelude.{◌≡◌, ◌≤◌, ◌<◌, [], List, length, Some, Err, IfErr, IfOk, OnOk};
ghost use Rattle.vk_base.specs.declared.limits.TheConstants.{EVENTS};
ghost use Rattle.vk_schedule.specs.declared.event.Event.{Event as TheEvent};
ghost use Rattle.vk_rules.specs.Frames.{Frame as TheFrame};
ghost use Rattle.vk_rules.specs.Histories.{Happened, history_of};
ghost use Rattle.vk_drive.specs.Driving.{AreActors, ComesFrom, EmitsManyBytes, IsChosen, IsDriver, IsNextOf, IsOfStation, IsPlayed, IsStormOpen, KeepsRecent, counts_of};
ghost use Rattle.vk_drive.specs.Storms.{IsStormTooMuch, StormFits, choice, chosen, delivery_choice, delivery_of, process_choice, storm_schedule_of, summary_by, summary_of, tick_choice};
ghost use Rattle.vk_drive.specs.Tasks.{settings};
ghost use Rattle.vk_drive.specs.Told.{headers};

use crate::actor::Actor;
use crate::actors::{choose, hear, new_actors};
use crate::counts::StormCounts;
use crate::course::StormCourse;
use crate::next::NextEvent;
use crate::recent::RecentFrames;
use crate::summary::{StormRefusal, StormSummary};
use crate::tasks::{is_station, settings};
use std::alloc::Global;
use vk_base::{Config, List, NoMemory};
use vk_frame::Header;
use vk_generator::Generator;
use vk_schedule::Schedule;

/// A storm under way.
#[derive(Drop)]
struct Driver {
    config: Config,
    generator: Generator,
    actors: Vec<Actor>,
    course: StormCourse,
    /// What happens next, once it is chosen; until then what happened last.
    next: NextEvent,
    /// The place of the frame that comes, where one does.
    frame: usize,
}

/// The frame with this header comes to its destination; or station 1 ticks, where one of its stations is none of the storm.
fn set_delivery(next: &mut NextEvent, header: &Header)
    ensures { next.new ≡ delivery_of header.now }
{
    if is_station(header.destination) && is_station(header.source) {
        next.set_delivery(header);
    } else {
        next.set_tick(1);
    }
}

/// One of the frames that were emitted last comes, the one in the place that this gives; or station 1 ticks, where there is none.
fn choose_delivery(generator: &mut Generator, recent: &RecentFrames, next: &mut NextEvent) -> usize
    requires { (fs : List TheFrame) × KeepsRecent fs recent.now }
    ensures chosen { (fs : List TheFrame) → KeepsRecent fs recent.now →
        chosen generator.new next.new ≡ delivery_choice generator.old (headers fs) }
    ensures station { IsOfStation next.new }
    ensures frame { (fs : List TheFrame) → KeepsRecent fs recent.now → ComesFrom fs recent.now next.new result }
{
    let count = recent.len();
    if count == 0 {
        next.set_tick(1);
        return 0;
    }
    let place = recent.place(generator.draw() as usize % count);
    set_delivery(next, &recent.get(place).header);
    place
}

/// A station ticks.
fn choose_tick(generator: &mut Generator, next: &mut NextEvent)
    ensures chosen { chosen generator.new next.new ≡ tick_choice generator.old }
    ensures station { IsOfStation next.new }
{
    let host = 1 + (generator.draw() % 4) as u16;
    next.set_tick(host);
}

/// A process calls or collects, the one at the place that this gives.
fn choose_process(generator: &mut Generator, actors: &mut Vec<Actor>, next: &mut NextEvent) -> usize
    requires { length actors.old.items ≡ 4 }
    ensures next { (hs : List Happened) → AreActors actors.old.items hs → IsNextOf (Some result) actors.new.items hs next.new }
    ensures chosen { (hs : List Happened) → AreActors actors.old.items hs →
        chosen generator.new next.new ≡ process_choice generator.old hs }
{
    let place = (generator.draw() % 4) as usize;
    choose(actors, place, next);
    place
}

/// What is told of a storm with these numbers.
fn summary_by(n: u32, counts: &StormCounts) -> StormSummary
    ensures { (hs : List Happened) → counts.now ≡ counts_of hs → result ≡ summary_by n hs }
{
    StormSummary {
        n,
        frames: counts.frames,
        taken: counts.taken,
        old: counts.late,
        answers: counts.answers,
        timedout: counts.timedout,
    }
}

impl Driver {
    /// The storm of this number before its first event.
    fn new(alloc: Global, n: u32) -> Result<Self, NoMemory>
        ensures driver { IfOk result (IsDriver []) }
        ensures state { IfOk result (λ d. d.generator ≡ n) }
    {
        let config = settings(alloc)?;
        let actors = new_actors(alloc, &config)?;
        let course = StormCourse::new(alloc, &config)?;
        Ok(Driver {
            config,
            generator: Generator::new(u64::from(n)),
            actors,
            course,
            next: NextEvent::new(),
            frame: 0,
        })
    }

    /// Chooses what comes next. Gives the place of the process that calls or collects, where one does.
    fn choose(&mut self) -> Option<usize>
        requires { IsStormOpen self.old }
        ensures { (es : List TheEvent) → IsDriver es self.old → IsChosen es self.old self.new result }
    {
        let kind = self.generator.draw() % 8;
        if kind < 3 {
            Some(choose_process(&mut self.generator, &mut self.actors, &mut self.next))
        } else if kind < 6 {
            self.frame = choose_delivery(
                &mut self.generator,
                &self.course.stations.recent,
                &mut self.next,
            );
            None
        } else {
            choose_tick(&mut self.generator, &mut self.next);
            None
        }
    }

    /// The next event.
    fn advance(&mut self) -> Result<(), StormRefusal>
        requires { IsStormOpen self.old }
        ensures played { (es : List TheEvent) → IsDriver es self.old → length es < EVENTS →
            OnOk result (IsPlayed es self.new (choice self.old.generator (history_of settings es))) }
        ensures limit { (es : List TheEvent) → IsDriver es self.old → result ≡ Err StormRefusal.Limit → EmitsManyBytes es }
        ensures cause { IfErr result (λ e. e ≡ StormRefusal.Limit) }
    {
        let place = self.choose();
        let at = self.course.happen(&self.next, self.frame)?;
        hear(&mut self.actors, place, &self.course, at);
        Ok(())
    }
}

/// What is told of the storm of this number, at most 100,000: so many events from this seed, by a page server and three clients of it on
/// four stations. They are a function of the number, nothing is read, and none is kept.
///
/// # Errors
///
/// [`StormRefusal::Limit`] exactly where the frames that are emitted before some event hold more than 266,076,160 bytes; then
/// [`StormRefusal::NoMemory`] where memory is wanting.
pub fn storm(alloc: Global, n: u32) -> Result<StormSummary, StormRefusal>
    requires { n ≤ EVENTS }
    ensures summary { IfOk result (λ s. s ≡ summary_of n) }
    ensures fits { OnOk result (StormFits n) }
    ensures limit { result ≡ Err StormRefusal.Limit → IsStormTooMuch n }
{
    let mut driver = Driver::new(alloc, n)?;
    for _event in 0..n {
        driver.advance()?;
    }
    Ok(summary_by(n, &driver.course.counts))
}

/// The events of the storm of this number, at most 100,000, and the configuration that every storm has.
///
/// # Errors
///
/// Those of [`storm`].
pub fn storm_schedule(alloc: Global, n: u32) -> Result<Schedule, StormRefusal>
    requires { n ≤ EVENTS }
    ensures schedule { IfOk result (λ s. s ≡ storm_schedule_of n) }
    ensures fits { OnOk result (StormFits n) }
    ensures limit { result ≡ Err StormRefusal.Limit → IsStormTooMuch n }
{
    let mut driver = Driver::new(alloc, n)?;
    let mut events = List::empty(alloc);
    for _event in 0..n {
        driver.advance()?;
        events.push(driver.next.view().whole())?;
    }
    Ok(Schedule {
        config: driver.config,
        events,
    })
}
