//! The four processes of a storm, in order.

ghost use Rattle.std.specs.Prelude.{◌≡◌, ◌≢◌, ◌<◌, [], ◌∷◌, ◌++◌, ℕ, List, length, slice_get, Some, IfOk};
ghost use Rattle.vk_base.specs.declared.event.EventAnswer.{EventAnswer as TheAnswer};
ghost use Rattle.vk_cluster.specs.Standing.{logs_of};
ghost use Rattle.vk_host.specs.Responses.{answer_of};
ghost use Rattle.vk_host.specs.Values.{StationValue};
ghost use Rattle.vk_schedule.specs.declared.event.Event.{Event as TheEvent};
ghost use Rattle.vk_rules.specs.Histories.{Happened, happened, history_of};
ghost use Rattle.vk_drive.specs.Driving.{AreActors, HasHappened, HasPassedOn, IsChosenAt, IsNextOf};
ghost use Rattle.vk_drive.specs.Tasks.{settings, task_at};
ghost use Rattle.vk_drive.specs.Told.{answered_in};

use crate::actor::Actor;
use crate::course::StormCourse;
use crate::next::NextEvent;
use crate::tasks::tasks;
use std::alloc::Global;
use vk_base::{Config, NoMemory};

/// The processes before their first calls.
pub fn new_actors(alloc: Global, config: &Config) -> Result<Vec<Actor>, NoMemory>
    requires { config.now ≡ settings }
    ensures { IfOk result (λ actors. AreActors actors.items []) }
{
    let mut actors = Vec::new(alloc);
    let tasks = tasks();
    for task in &tasks {
        actors.push(Actor::new(alloc, config, task)?)?;
    }
    Ok(actors)
}

/// The process at this place chooses its next event.
pub fn choose(actors: &mut Vec<Actor>, place: usize, next: &mut NextEvent)
    requires { place < length actors.old.items }
    ensures { (hs : List Happened) → AreActors actors.old.items hs → IsChosenAt actors.new.items hs place next.new }
{
    actors[place].choose(next);
}

/// The last event was that of the process at this place, which is told what the station at the other answered.
fn hear_at(actors: &mut Vec<Actor>, place: usize, course: &StormCourse, at: usize)
    requires within { place < length actors.old.items }
    requires none { HasPassedOn actors.old.items place }
    requires there { at < length course.now.stations.hosts.items }
    ensures { (hs : List Happened) (h : Happened) (a : TheAnswer) (s : StationValue) → AreActors actors.old.items hs →
        slice_get course.now.stations.hosts.items at ≡ Some s → answer_of s course.now.response ≡ a →
        answered_in (task_at place).pid h ≡ a ∷ [] → ((q : ℕ) → q < 4 → q ≢ place → answered_in (task_at q).pid h ≡ []) →
        AreActors actors.new.items (hs ++ h ∷ []) }
{
    let station = course.stations.station(at);
    actors[place].hear(station, &course.response);
}

/// The last event was that of the process at this place, where there is one, and of the station at the other: the process is told of it.
pub fn hear(actors: &mut Vec<Actor>, place: Option<usize>, course: &StormCourse, at: usize)
    requires { (es : List TheEvent) × (e : TheEvent) × IsNextOf place actors.old.items (history_of settings es) e
        × HasHappened es course.now e at }
    ensures { (es : List TheEvent) (e : TheEvent) → IsNextOf place actors.old.items (history_of settings es) e →
        HasHappened es course.now e at →
        AreActors actors.new.items (history_of settings es ++ happened settings (logs_of settings es) e ∷ []) }
{
    if let Some(place) = place {
        hear_at(actors, place, course, at);
    }
}
