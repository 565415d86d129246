//! The tables of the initial kernel.

ghost use Rattle.std.specs.Prelude.{◌≡◌, [], IfOk, OnOk};
ghost use Rattle.vk_base.specs.Kernel.{initial_kernel};
ghost use Rattle.v_machine.specs.Kept.{IsIndexed, kernel_in};
ghost use Rattle.v_machine.specs.Initial.{IsGrown, IsInitial};

use crate::tables::Store;
use crate::tables::arrived::Arrived;
use crate::tables::begun::Begun;
use crate::tables::latest::Latests;
use crate::tables::numbered::Numbered;
use crate::tables::places::Places;
use crate::tables::proc::Proc;
use crate::tables::queue::Queue;
use std::alloc::Global;
use vk_base::{Activity, Memory, NoMemory, ProcessSpec};

/// The store whose tables spell the initial kernel of these processes.
pub fn initial_store(alloc: Global, specs: &[ProcessSpec]) -> Result<Store, NoMemory>
    ensures kernel { IfOk result (λ s. kernel_in s ≡ initial_kernel specs.now) }
    ensures indexed { IfOk result (λ s. IsIndexed s) }
{
    let places = Places::new(alloc, specs)?;
    let mut store = empty(alloc, places);
    for spec in specs {
        add(&mut store, alloc, spec)?;
    }
    Ok(store)
}

fn empty(alloc: Global, places: Places) -> Store
    ensures places { result.places ≡ places }
    ensures filled { IsInitial [] result }
{
    Store {
        places,
        procs: Vec::new(alloc),
        sends: Vec::new(alloc),
        asked: Vec::new(alloc),
        names: Vec::new(alloc),
        arrived: Arrived::new(),
        crowded: false,
        queues: Vec::new(alloc),
        latest: Vec::new(alloc),
    }
}

/// One more process, which is ready and has begun nothing.
fn add(store: &mut Store, alloc: Global, spec: &ProcessSpec) -> Result<(), NoMemory>
    ensures { OnOk result (IsGrown spec.now store.old store.new) }
{
    store.procs.push(Proc {
        alive: true,
        memory: Memory::new(alloc, spec.size)?,
        activity: Activity::Ready,
        moving: None,
    })?;
    store.sends.push(Begun::new(alloc))?;
    store.asked.push(Numbered::new(alloc))?;
    store.queues.push(Queue::new(alloc))?;
    store.latest.push(Latests::new(alloc))?;
    Ok(())
}
