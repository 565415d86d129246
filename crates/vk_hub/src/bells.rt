//! The bells of all threads at a hub, and who rings which.
//!
//! Each process has a bell, and so have what delivers at each station and the clock. An event that gives processes something to collect
//! rings for them; a frame that waits for a station calls one process that waits there, or else what delivers there; where no thread is
//! awake any more the clock's bell rings; the end of the hub calls all.

use crate::bell::Bell;
use std::alloc::Global;
use std::sync::Wait;
use std::sync::atomic::AtomicU64;
use std::sync::atomic::Ordering::SeqCst;
use vk_base::{Config, NoMemory, Pid};

/// A process and its bell.
#[derive(Drop)]
struct ProcessBell {
    local: u16,
    bell: Bell,
}

/// The bells at one station.
#[derive(Drop)]
struct StationBells {
    host: u16,
    processes: Vec<ProcessBell>,
    pump: Bell,
}

/// The bells of all threads at a hub, and how many of those threads are awake.
#[derive(Drop)]
pub struct Bells {
    stations: Vec<StationBells>,
    /// Of whoever is no process and delivers at no station of the configuration. Nobody is.
    stranger: Bell,
    clock: Bell,
    awake: AtomicU64,
}

impl StationBells {
    /// A frame waits for the station: one process is called that waits, or else what delivers there.
    fn call_one(&self, awake: &AtomicU64) {
        for process in &self.processes {
            if process.bell.call(awake) {
                return;
            }
        }
        self.pump.call(awake);
    }
}

/// The bells of the processes of one station.
fn process_bells(alloc: Global, config: &Config, host: u16) -> Result<Vec<ProcessBell>, NoMemory> {
    let mut processes = Vec::new(alloc);
    for spec in config.specs() {
        if spec.pid.host == host {
            processes.push(ProcessBell {
                local: spec.pid.local,
                bell: Bell::new(),
            })?;
        }
    }
    Ok(processes)
}

impl Bells {
    /// Of the processes and stations of this configuration, where nobody waits yet.
    ///
    /// # Errors
    ///
    /// [`NoMemory`] where memory is wanting.
    pub(crate) fn new(alloc: Global, config: &Config) -> Result<Bells, NoMemory> {
        let mut stations = Vec::new(alloc);
        for at in 0..config.station_count() {
            let host = config.station(at);
            stations.push(StationBells {
                host,
                processes: process_bells(alloc, config, host)?,
                pump: Bell::new(),
            })?;
        }
        Ok(Bells {
            stations,
            stranger: Bell::new(),
            clock: Bell::new(),
            awake: AtomicU64::new(0),
        })
    }

    /// So many threads more are to wait by these bells. They are awake.
    pub fn add_threads(&self, threads: usize) {
        self.awake.fetch_add(threads as u64, SeqCst);
    }

    fn at(&self, host: u16) -> Option<&StationBells> {
        for station in &self.stations {
            if station.host == host {
                return Some(station);
            }
        }
        None
    }

    /// The bell of this process.
    pub fn of_process(&self, pid: Pid) -> &Bell {
        if let Some(station) = self.at(pid.host) {
            for process in &station.processes {
                if process.local == pid.local {
                    return &process.bell;
                }
            }
        }
        &self.stranger
    }

    /// The bell of what delivers at this station.
    pub fn of_pump(&self, host: u16) -> &Bell {
        match self.at(host) {
            Some(station) => &station.pump,
            None => &self.stranger,
        }
    }

    /// The bell of the clock.
    pub fn of_clock(&self) -> &Bell {
        &self.clock
    }

    /// Sleeps until a ring of this bell, unless something has happened since its thread began to look. The last to fall asleep rings for the
    /// clock.
    pub fn sleep<R: Wait>(&self, rt: &R, bell: &Bell) {
        if bell.is_quiet() && bell.lie_down() {
            if self.awake.fetch_sub(1, SeqCst) == 1 {
                self.clock.ring(&self.awake);
            }
            bell.sleep(rt);
        }
    }

    /// Whether all threads but one sleep or have ended: the one that asks.
    pub fn is_last(&self) -> bool {
        self.awake.load(SeqCst) == 1
    }

    /// The same, unless all other threads sleep. Whether they do.
    pub fn sleep_unless_last<R: Wait>(&self, rt: &R, bell: &Bell) -> bool {
        if self.is_last() {
            return true;
        }
        if !bell.is_quiet() || !bell.lie_down() {
            return false;
        }
        if self.awake.fetch_sub(1, SeqCst) == 1 && bell.get_up() {
            self.awake.fetch_add(1, SeqCst);
            return true;
        }
        bell.sleep(rt);
        false
    }

    /// The process waits no longer. Where frames are left that it was called for, what delivers at its station is called.
    pub fn leave(&self, pid: Pid, bell: &Bell, are_left: bool) {
        if bell.leave() || are_left {
            self.call_pump(pid.host);
        }
    }

    /// The process has something to collect.
    pub fn ring(&self, pid: Pid) {
        self.of_process(pid).ring(&self.awake);
    }

    /// Any process of the station may have something to collect.
    pub fn ring_station(&self, host: u16) {
        if let Some(station) = self.at(host) {
            for process in &station.processes {
                process.bell.ring(&self.awake);
            }
        }
    }

    /// Frames wait for these stations, which are told by their places, bit by bit.
    pub(crate) fn call(&self, reached: u32) {
        let mut left = reached;
        for station in &self.stations {
            if left == 0 {
                return;
            }
            if left & 1 == 1 {
                station.call_one(&self.awake);
            }
            left >>= 1;
        }
    }

    /// What delivers at the station is called.
    pub fn call_pump(&self, host: u16) {
        self.of_pump(host).call(&self.awake);
    }

    /// A process of the station ends. Where it was the last that was awake, another one that waits at the station is called.
    pub fn end_one(&self, host: u16) {
        if self.awake.fetch_sub(1, SeqCst) == 1 {
            if let Some(station) = self.at(host) {
                station.call_one(&self.awake);
            }
        }
    }

    /// The hub has ended: all are called.
    pub(crate) fn call_all(&self) {
        for station in &self.stations {
            for process in &station.processes {
                process.bell.call(&self.awake);
            }
            station.pump.call(&self.awake);
        }
        self.stranger.call(&self.awake);
        self.clock.call(&self.awake);
    }
}
