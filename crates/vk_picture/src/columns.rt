//! The columns of a configuration's processes.

ghost use Rattle.std.specs.Prelude.{◌≡◌, ◌≤◌, ◌<◌, ◌+◌, ◌++◌, ◌∷◌, [], length, IfOk, OnOk};
ghost use Rattle.vk_base.specs.declared.limits.TheConstants.{PROCESSES};
ghost use Rattle.vk_picture.specs.Places.{columns_of, place_behind, station_column};

use crate::picture::Column;
use std::alloc::Global;
use vk_base::{List, NoMemory, ProcessSpec};

/// Adds the column of a process's station, unless the process before is of it too. How many columns there are then.
fn put_station(
    columns: &mut List<Column>,
    last: u16,
    place: u16,
    host: u16,
) -> Result<u16, NoMemory>
    requires { place < 2000 }
    ensures columns { OnOk result (columns.new ≡ columns.old ++ station_column last place host) }
    ensures place { IfOk result (λ behind. behind ≡ place_behind last place host) }
    ensures few { IfOk result (λ behind. behind ≤ place + 1) }
{
    if host == last {
        return Ok(place);
    }
    columns.push(Column {
        host,
        process: None,
        place,
    })?;
    Ok(place + 1)
}

/// A column for each station, and behind it one for each of its processes.
pub fn columns_of(alloc: Global, specs: &[ProcessSpec]) -> Result<List<Column>, NoMemory>
    requires { length specs.now ≤ PROCESSES }
    ensures { IfOk result (λ columns. columns ≡ columns_of 0 0 specs.now) }
{
    let mut columns = List::empty(alloc);
    let mut last = 0u16;
    let mut place = 0u16;
    for spec in specs {
        let host = spec.pid.host;
        place = put_station(&mut columns, last, place, host)?;
        columns.push(Column {
            host,
            process: Some(spec.pid),
            place,
        })?;
        place += 1;
        last = host;
    }
    Ok(columns)
}
