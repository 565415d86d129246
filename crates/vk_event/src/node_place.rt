//! How far texts of stations are read.

ghost use Rattle.std.specs.Prelude.{◌≡◌, ◌+◌, ◌-◌, ◌<◌, ◌∷◌, [], true, nat_lt, length, MatchOption, IfSome};
ghost use Rattle.vk_base.specs.declared.limits.TheConstants.{EVENTS as MOST_EVENTS};
ghost use Rattle.vk_base.specs.Settings.{has_station};
ghost use Rattle.vk_event.specs.NodePlaces.{IsOfStation, IsRead, lines_at, reading_by};
ghost use Rattle.vk_event.specs.Nodes.{Reading, event_count, has_log, new_station};

use crate::node_line::{read_host, read_own_event};
use std::alloc::Global;
use vk_base::limits::EVENTS;
use vk_base::{Config, List, NoMemory};
use vk_schedule::{StationLog, TextRefusal};
use vk_text::next_line;

/// What the next line is to be.
#[derive(Drop)]
pub enum Due {
    /// One of an opening: so many lines are left of it, which stand in the first text from `at` on; behind them comes the line of a
    /// station.
    Opening { at: usize, left: u64 },
    /// An event of the station whose log this is so far, or the title of the next text.
    Events { log: StationLog },
}

/// The lines that are left of an opening: so many, from a place of the first text on.
#[derive(Clone, Copy)]
struct LinesLeft {
    at: usize,
    count: u64,
}

/// The opening of the first text, which is that of each.
#[derive(Drop)]
pub struct FirstText<'a> {
    pub text: &'a [u8],
    pub config: Config,
    /// Where the line behind the title starts.
    pub second: usize,
    /// How many lines the opening has behind the title.
    pub count: u64,
}

/// Whether one of the logs is of this station.
fn has_log(logs: &[StationLog], host: u16) -> bool
    ensures { result ≡ has_log logs.now host }
{
    logs.iter().any(|log| log.host == host)
}

/// How many events more there may be behind those of the logs.
fn room_behind(logs: &[StationLog]) -> usize
    ensures { result ≡ MOST_EVENTS - event_count logs.now }
{
    let mut room = EVENTS;
    for log in logs {
        room = room.saturating_sub(log.events.len());
    }
    room
}

/// The station of the line, where it is one of the configuration and has no log yet.
fn new_station(config: &Config, logs: &[StationLog], line: &[u8]) -> Option<u16>
    ensures { result ≡ new_station config.now.specs logs.now line.now }
{
    let host = read_host(line)?;
    if config.has_station(host) && !has_log(logs, host) {
        Some(host)
    } else {
        None
    }
}

/// Whether there may be one event more behind those of the logs and of this one.
fn has_room(logs: &[StationLog], log: &StationLog) -> bool
    ensures { result ≡ nat_lt (event_count logs.now + length log.now.events) MOST_EVENTS }
{
    log.events.len() < room_behind(logs)
}

impl<'a> FirstText<'a> {
    /// The next line of an opening of which so many lines are left, from `at` on, and where the one behind it starts. `None` where none
    /// is left.
    fn due_line(&self, at: usize, left: u64) -> Option<(&'a [u8], usize)>
        ensures line { MatchOption result (lines_at self.now.text.now at left ≡ [])
            (λ r. lines_at self.now.text.now at left ≡ r.0.now ∷ lines_at self.now.text.now r.1 (left - 1)) }
        ensures some { IfSome result (λ _. 0 < left) }
    {
        if left == 0 {
            None
        } else {
            next_line(self.text, at)
        }
    }

    /// The line is that of a new station, whose log begins.
    fn begin(
        &self,
        alloc: Global,
        logs: &[StationLog],
        number: u64,
        line: &[u8],
    ) -> Result<Due, TextRefusal>
        ensures { IsRead self.now.config (lines_at self.now.text.now self.now.second self.now.count) number
            (Reading.Opening logs.now []) line.now self.now.text.now logs.now result }
    {
        match new_station(&self.config, logs, line) {
            Some(host) => Ok(Due::Events {
                log: StationLog {
                    host,
                    events: List::empty(alloc),
                },
            }),
            None => Err(TextRefusal::BadInput { line: number }),
        }
    }

    /// The line is the next of the opening, or behind the opening that of a new station.
    fn open(
        &self,
        alloc: Global,
        logs: &[StationLog],
        left: LinesLeft,
        number: u64,
        line: &[u8],
    ) -> Result<Due, TextRefusal>
        ensures { IsRead self.now.config (lines_at self.now.text.now self.now.second self.now.count) number
            (Reading.Opening logs.now (lines_at self.now.text.now left.at left.count)) line.now self.now.text.now logs.now result }
    {
        let Some((due, next)) = self.due_line(left.at, left.count) else {
            return self.begin(alloc, logs, number, line);
        };
        if line == due {
            Ok(Due::Opening {
                at: next,
                left: left.count - 1,
            })
        } else {
            Err(TextRefusal::BadInput { line: number })
        }
    }

    /// The line is an event of this log, or the title of the next text.
    fn note(
        &self,
        logs: &mut List<StationLog>,
        mut log: StationLog,
        number: u64,
        line: &[u8],
    ) -> Result<Due, TextRefusal>
        requires { has_station self.now.config.specs log.host ≡ true }
        ensures { IsRead self.now.config (lines_at self.now.text.now self.now.second self.now.count) number
            (Reading.Events logs.old log) line.now self.now.text.now logs.new result }
    {
        if let Some(event) = read_own_event(&self.config, log.host, line) {
            if !has_room(logs.as_slice(), &log) {
                return Err(TextRefusal::Limit);
            }
            return match log.events.push(event) {
                Ok(()) => Ok(Due::Events { log }),
                Err(NoMemory) => Err(TextRefusal::NoMemory),
            };
        }
        if line != b"vkernel node 1".as_slice() {
            return Err(TextRefusal::BadInput { line: number });
        }
        match logs.push(log) {
            Ok(()) => Ok(Due::Opening {
                at: self.second,
                left: self.count,
            }),
            Err(NoMemory) => Err(TextRefusal::NoMemory),
        }
    }

    /// What is due behind this line, which has this number and was to be what was due. The logs that it ends stand behind the others.
    pub fn read_line(
        &self,
        alloc: Global,
        logs: &mut List<StationLog>,
        due: Due,
        number: u64,
        line: &[u8],
    ) -> Result<Due, TextRefusal>
        requires { IsOfStation self.now.config due }
        ensures { IsRead self.now.config (lines_at self.now.text.now self.now.second self.now.count) number
            (reading_by self.now.text.now logs.old due) line.now self.now.text.now logs.new result }
    {
        match due {
            Due::Opening { at, left } => {
                let left = LinesLeft { at, count: left };
                self.open(alloc, logs.as_slice(), left, number, line)
            }
            Due::Events { log } => self.note(logs, log, number, line),
        }
    }
}
