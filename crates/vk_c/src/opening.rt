//! A station's begin and end.

ghost use Rattle.std.specs.Prelude.{◌≡◌, ◌⊎◌, [], None, Some, IfOk, IfErr, OnErr, OnOk};
ghost use Rattle.vk_fields.specs.Processes.{specs_in};
ghost use Rattle.vk_c.specs.Opening.{HasOpened, IsOpenStatus, IsOpened, close_status, config_in, named_status, open_status, status_of};
ghost use Rattle.vk_c.specs.declared.status.TheConstants.{NO_MEMORY, OK};

use crate::station::Station;
use crate::status;
use std::alloc::Global;
use vk_base::limits::EVERY_STATION;
use vk_base::{Config, ConfigRefusal, PoolRefusal};
use vk_fields::{PoolFields, ProcessFields, ProcessTrouble, SettingsFields, set_pools, specs_of};
use vk_host::Host;

/// Puts a new station of this host there, before its first event. The processes are those of all stations, by rising pids.
#[unsafe(no_mangle)]
pub extern "C" fn vk_station_open(
    alloc: Global,
    station: &mut Station,
    settings: &SettingsFields,
    processes: &[ProcessFields],
    host: u16,
) -> u32
    ensures status { IsOpenStatus station.old.value settings.now processes.now [] host result }
    ensures opened { result ≡ OK → HasOpened settings.now processes.now [] host station.new.value }
    ensures refused { (result ≡ OK → ⊥) → station.new.value ≡ station.old.value }
{
    open(alloc, station, settings, processes, &[], host)
}

/// The same, where these stations have pools of their own; of two for one station the later counts.
#[unsafe(no_mangle)]
pub extern "C" fn vk_station_open_with_pools(
    alloc: Global,
    station: &mut Station,
    settings: &SettingsFields,
    processes: &[ProcessFields],
    pools: &[PoolFields],
    host: u16,
) -> u32
    ensures status { IsOpenStatus station.old.value settings.now processes.now pools.now host result }
    ensures opened { result ≡ OK → HasOpened settings.now processes.now pools.now host station.new.value }
    ensures refused { (result ≡ OK → ⊥) → station.new.value ≡ station.old.value }
{
    open(alloc, station, settings, processes, pools, host)
}

/// Ends what the station holds, if anything.
#[unsafe(no_mangle)]
pub extern "C" fn vk_station_close(alloc: Global, station: &mut Station) -> u32
    ensures status { result ≡ close_status station.old.value }
    ensures closed { station.new.value ≡ None }
{
    match station.take(alloc) {
        Some(_ended) => status::OK,
        None => status::NO_STATION,
    }
}

fn open(
    alloc: Global,
    station: &mut Station,
    settings: &SettingsFields,
    processes: &[ProcessFields],
    pools: &[PoolFields],
    host: u16,
) -> u32
    ensures status { IsOpenStatus station.old.value settings.now processes.now pools.now host result }
    ensures opened { result ≡ OK → HasOpened settings.now processes.now pools.now host station.new.value }
    ensures refused { (result ≡ OK → ⊥) → station.new.value ≡ station.old.value }
{
    if let Some(held) = station.take(alloc) {
        station.put(held);
        return status::HELD;
    }
    match new_host(alloc, settings, processes, pools, host) {
        Ok(host) => {
            station.put(host);
            status::OK
        }
        Err(trouble) => trouble.status(),
    }
}

/// Why a station was not opened.
#[derive(Clone, Copy)]
enum Trouble {
    BadHost,
    BadPid,
    NoMemory,
    /// There is no such configuration.
    Config { why: ConfigRefusal },
    /// A pool is not possible.
    Pool { why: PoolRefusal },
}

impl Trouble {
    fn status(self) -> u32
        ensures number { result ≡ status_of self }
        ensures bad { result ≡ OK → ⊥ }
    {
        match self {
            Trouble::BadHost => status::BAD_HOST,
            Trouble::BadPid => status::BAD_PID,
            Trouble::NoMemory => status::NO_MEMORY,
            Trouble::Config { why } => match why {
                ConfigRefusal::BadTimes => status::BAD_TIMES,
                ConfigRefusal::BadPool => status::BAD_POOL,
                ConfigRefusal::NotRising { .. } => status::NOT_RISING,
                ConfigRefusal::BadSize { .. } => status::BAD_SIZE,
                ConfigRefusal::TooMany { .. } => status::TOO_MANY,
                ConfigRefusal::NoMemory => status::NO_MEMORY,
            },
            Trouble::Pool { why } => match why {
                PoolRefusal::NoStation => status::NO_SUCH_STATION,
                PoolRefusal::BadPool => status::BAD_POOL,
            },
        }
    }
}

fn new_host(
    alloc: Global,
    settings: &SettingsFields,
    processes: &[ProcessFields],
    pools: &[PoolFields],
    host: u16,
) -> Result<Box<Host>, Trouble>
    ensures ok { IfOk result (λ b. (open_status settings.now processes.now pools.now host ≡ OK)
        × IsOpened settings.now processes.now pools.now host b.value) }
    ensures err { IfErr result (λ e. (open_status settings.now processes.now pools.now host ≡ status_of e) ⊎ (status_of e ≡ NO_MEMORY)) }
{
    if host == 0 || host >= EVERY_STATION {
        return Err(Trouble::BadHost);
    }
    let config = new_config(alloc, settings, processes, pools)?;
    let Ok(host) = Host::new(alloc, &config, host) else {
        return Err(Trouble::NoMemory);
    };
    match Box::new(alloc, host) {
        Ok(host) => Ok(host),
        Err(_) => Err(Trouble::NoMemory),
    }
}

/// The configuration of these fields.
fn new_config(
    alloc: Global,
    settings: &SettingsFields,
    processes: &[ProcessFields],
    pools: &[PoolFields],
) -> Result<Config, Trouble>
    ensures ok { IfOk result (λ c. (named_status settings.now pools.now (specs_in processes.now) ≡ OK)
        × (config_in settings.now processes.now pools.now ≡ Some c)) }
    ensures err { IfErr result (λ e. (named_status settings.now pools.now (specs_in processes.now) ≡ status_of e) ⊎ (status_of e ≡ NO_MEMORY)) }
{
    let specs = match specs_of(alloc, processes) {
        Ok(specs) => specs,
        Err(ProcessTrouble::BadPid) => return Err(Trouble::BadPid),
        Err(ProcessTrouble::NoMemory) => return Err(Trouble::NoMemory),
    };
    let mut config = match Config::new(alloc, settings.times(), settings.pool, specs.as_slice()) {
        Ok(config) => config,
        Err(why) => return Err(Trouble::Config { why }),
    };
    match set_pools(&mut config, pools) {
        Ok(()) => Ok(config),
        Err(why) => Err(Trouble::Pool { why }),
    }
}
