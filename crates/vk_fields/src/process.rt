//! The times, the processes and the pools of a configuration in fields.

ghost use Rattle.std.specs.Prelude.{◌≡◌, None, Some, IfErr, IfOk, OnErr, OnOk};
ghost use Rattle.vk_fields.specs.Processes.{pools_refusal, spec_in, specs_in, times_in, with_pools};

use std::alloc::Global;
use vk_base::{Config, Pid, PoolRefusal, ProcessSpec, Times};

/// A process: its host, 1 to 65,534, its number there, 1 to 65,535, and the bytes of its memory.
#[repr(C)]
#[derive(Clone, Copy)]
pub struct ProcessFields {
    pub host: u16,
    pub local: u16,
    pub size: u32,
}

impl ProcessFields {
    /// The process, or none where the numbers of its pid are those of none.
    fn spec(&self) -> Option<ProcessSpec>
        ensures { result ≡ spec_in self.now }
    {
        let pid = Pid::new(self.host, self.local)?;
        Some(ProcessSpec {
            pid,
            size: self.size,
        })
    }
}

/// The times of all stations, and how many aliens each has.
#[repr(C)]
#[derive(Clone, Copy)]
pub struct SettingsFields {
    pub tries: u32,
    pub interval: u32,
    pub life: u32,
    pub pool: u32,
}

impl SettingsFields {
    /// The times, which may be out of range.
    pub fn times(&self) -> Times
        ensures { result ≡ times_in self.now }
    {
        Times {
            tries: self.tries,
            interval: self.interval,
            life: self.life,
        }
    }
}

/// How many aliens the station of this host has.
#[repr(C)]
#[derive(Clone, Copy)]
pub struct PoolFields {
    pub host: u16,
    pub slots: u16,
}

/// Why there are no such processes.
#[derive(Clone, Copy, Debug, PartialEq, Eq)]
pub enum ProcessTrouble {
    /// The numbers of a pid are those of none.
    BadPid,
    NoMemory,
}

/// The processes of these fields, in order.
///
/// # Errors
///
/// [`ProcessTrouble::BadPid`] where the numbers of a pid are those of none; [`ProcessTrouble::NoMemory`] where memory is wanting.
pub fn specs_of(
    alloc: Global,
    processes: &[ProcessFields],
) -> Result<Vec<ProcessSpec>, ProcessTrouble>
    ensures ok { IfOk result (λ specs. specs_in processes.now ≡ Some specs.items) }
    ensures err { IfErr result (λ e. e ≡ ProcessTrouble.BadPid → specs_in processes.now ≡ None) }
{
    let mut specs = Vec::new(alloc);
    for process in processes {
        let Some(spec) = process.spec() else {
            return Err(ProcessTrouble::BadPid);
        };
        if specs.push(spec).is_err() {
            return Err(ProcessTrouble::NoMemory);
        }
    }
    Ok(specs)
}

/// The stations have these pools from now on; of two for one station the later counts. Takes no memory.
///
/// # Errors
///
/// The refusal of the first of these that its station can't have; those before it count.
pub fn set_pools(config: &mut Config, pools: &[PoolFields]) -> Result<(), PoolRefusal>
    ensures ok { OnOk result ((pools_refusal config.old pools.now ≡ None) × (config.new ≡ with_pools config.old pools.now)) }
    ensures err { IfErr result (λ e. pools_refusal config.old pools.now ≡ Some e) }
{
    for pool in pools {
        config.set_pool(pool.host, u32::from(pool.slots))?;
    }
    Ok(())
}
