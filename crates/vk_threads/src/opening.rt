//! Cells for the stations, and their seats.
ghost use Rattle.std.specs.Prelude.{◌≡◌, ◌≤◌, ◌++◌, None, true, length, map, IfOk};
ghost use Rattle.vk_base.specs.declared.limits.TheConstants.{STATIONS};
ghost use Rattle.vk_base.specs.Settings.{has_station, stations_of};
ghost use Rattle.vk_rules.specs.Each.{Each};
ghost use Rattle.vk_threads.specs.Opened.{AreOpened, HasOpened, count_of, spare_at};

use std::alloc::Global;
use turn_cell::{TurnCell, TurnSeat};
use vk_base::{Config, NoMemory};
use vk_port::Station;

/// A station under a turn.
#[derive(Drop)]
pub struct Site {
    pub host: u16,
    pub cell: TurnCell<Station>,
}

/// A seat of this station.
#[derive(Drop)]
pub struct Spare {
    pub host: u16,
    pub seat: TurnSeat<Station>,
}

/// The stations by rising hosts.
pub fn stations(alloc: Global, config: &Config) -> Result<Vec<u16>, NoMemory>
    ensures stations { IfOk result (λ hosts. hosts.items ≡ stations_of config.now.specs) }
    ensures few { IfOk result (λ hosts. length hosts.items ≤ STATIONS) }
{
    let count = config.station_count();
    let mut hosts = Vec::new(alloc);
    for at in 0..count {
        hosts.push(config.station(at))?;
    }
    Ok(hosts)
}

/// How often the host is among these.
fn count_of(hosts: &[u16], host: u16) -> u32
    requires { length hosts.now ≤ 1000 }
    ensures { result ≡ count_of host hosts.now }
{
    let mut count = 0;
    for h in hosts {
        if *h == host {
            count += 1;
        }
    }
    count
}

/// A cell for each station, with as many seats as the station stands among these hosts, each of them at least once.
pub fn open_all(
    alloc: Global,
    config: &Config,
    stations: &[u16],
    hosts: &[u16],
) -> Result<(Vec<Site>, Vec<Spare>), NoMemory>
    requires stations { Each (λ h. has_station config.now.specs h ≡ true) stations.now }
    requires some { Each (λ h. 1 ≤ count_of h hosts.now) stations.now }
    requires few { length hosts.now ≤ 1000 }
    ensures { IfOk result (λ made. AreOpened config.now hosts.now stations.now made.0.items made.1.items) }
{
    let mut sites = Vec::new(alloc);
    let mut spares = Vec::new(alloc);
    for host in stations {
        let cell = open_one(alloc, config, *host, count_of(hosts, *host), &mut spares)?;
        sites.push(Site { host: *host, cell })?;
    }
    Ok((sites, spares))
}

/// A cell for the station, with so many seats, which come to the spares.
fn open_one(
    alloc: Global,
    config: &Config,
    host: u16,
    seats: u32,
    spares: &mut Vec<Spare>,
) -> Result<TurnCell<Station>, NoMemory>
    requires station { has_station config.now.specs host ≡ true }
    requires some { 1 ≤ seats }
    ensures { IfOk result (λ cell. HasOpened config.now host seats cell spares.old.items spares.new.items) }
{
    let station = Station::new(alloc, config, host)?;
    let Ok((cell, seats)) = TurnCell::new(alloc, station, seats) else {
        return Err(NoMemory);
    };
    add_spares(host, seats, spares)?;
    Ok(cell)
}

/// Adds these seats of the station to the spares.
fn add_spares(
    host: u16,
    seats: Vec<TurnSeat<Station>>,
    spares: &mut Vec<Spare>,
) -> Result<(), NoMemory>
    ensures { IfOk result (λ _. spares.new.items ≡ spares.old.items ++ map (spare_at host) seats.items) }
{
    for seat in seats {
        spares.push(Spare { host, seat })?;
    }
    Ok(())
}
