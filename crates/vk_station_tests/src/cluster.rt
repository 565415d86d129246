//! All stations of a configuration, which play events and tell of them.

ghost use Rattle.std.specs.Prelude.{◌≡◌};
ghost use Rattle.vk_schedule.specs.Lawful.{has_actors};

use crate::frames::is_bad;
use crate::told::{entry_text, missing_text, out_of_memory};
use std::alloc::Global;
use std::io;
use std::marker::Model;
use vk_base::Config;
use vk_cluster::{Cluster, ClusterAnswer, ClusterRefusal, StepReport};
use vk_report::EventPlace;
use vk_schedule::Event;

/// The stations, how many events they had, and how many of these were deliveries of what was not emitted.
#[derive(Drop)]
pub struct Stations {
    config: Config,
    cluster: Cluster,
    events: u64,
    missing: u64,
}

impl Model for Stations {
    ghost use Rattle.std.specs.Prelude.{◌≡◌};
    ghost use Rattle.vk_base.specs.Settings.{Settings};
    ghost use Rattle.vk_cluster.specs.Standing.{StandsSomewhere};

    ghost Value = { Settings };

    ghost view = { λ s. s.config };

    ghost invariant = { λ s. StandsSomewhere s.cluster × (s.cluster.config.specs ≡ s.config.specs) };
}

/// Whether the processes and stations of the event are of the configuration.
fn has_actors(config: &Config, event: &Event) -> bool
    ensures { result ≡ has_actors config.now.specs event.now }
{
    match event {
        Event::Call { pid, .. } | Event::Collect { pid } => config.has_process(*pid),
        Event::Tick { host } => config.has_station(*host),
        Event::Deliver { to, from, .. } => config.has_station(*to) && config.has_station(*from),
    }
}

impl Stations {
    #[tactic(auto, using(crate::proofs::Standing::cluster_stands))]
    pub fn new(alloc: Global, config: &Config) -> io::Result<Self> {
        let Ok(config) = config.copy(alloc) else {
            return Err(out_of_memory());
        };
        let Ok(cluster) = Cluster::new(alloc, &config) else {
            return Err(out_of_memory());
        };
        Ok(Stations {
            config,
            cluster,
            events: 0,
            missing: 0,
        })
    }

    /// How many deliveries there were of what was not emitted.
    pub fn missing(&self) -> u64 {
        self.missing
    }

    /// One event. Nothing where it is not of these stations.
    #[tactic(auto, using(crate::proofs::Standing::cluster_goes_on))]
    fn step(&mut self, alloc: Global, event: &Event) -> Option<Result<StepReport, ClusterRefusal>> {
        if has_actors(&self.config, event) {
            Some(self.cluster.step(alloc, event))
        } else {
            None
        }
    }

    /// Appends the lines of the entry, as a report has them, and the bytes of each frame.
    fn tell(&self, alloc: Global, report: &StepReport, told: &mut Vec<u8>) -> io::Result<()> {
        let ClusterAnswer::Event { answer } = &report.answer else {
            let missing = missing_text(alloc, self.events, report.host)?;
            return Ok(told.extend_from_slice(missing.as_slice())?);
        };
        if !self.config.has_station(report.host) {
            return Err(is_bad());
        }
        let station = self.cluster.host(report.host);
        let place = EventPlace {
            number: self.events,
            host: report.host,
            own: report.event,
        };
        let entry = entry_text(alloc, place, answer, station.steps())?;
        told.extend_from_slice(entry.as_slice())?;
        for at in 0..station.frame_count() {
            told.extend_from_slice(b"frame ")?;
            told.extend_from_slice(hex::encode(alloc, station.frame(at))?.as_bytes())?;
            told.push(b'\n')?;
        }
        Ok(())
    }

    /// Plays an event, and appends what the stations tell of it, or that it was one too many.
    pub fn play(&mut self, alloc: Global, event: &Event, told: &mut Vec<u8>) -> io::Result<()> {
        let Some(stepped) = self.step(alloc, event) else {
            return Err(is_bad());
        };
        let report = match stepped {
            Ok(report) => report,
            Err(ClusterRefusal::Limit) => {
                told.extend_from_slice(b"limit\n")?;
                return Ok(());
            }
            Err(ClusterRefusal::NoMemory) => return Err(out_of_memory()),
        };
        self.events = self.events.saturating_add(1);
        if matches!(report.answer, ClusterAnswer::Missing) {
            self.missing = self.missing.saturating_add(1);
        }
        self.tell(alloc, &report, told)
    }
}
