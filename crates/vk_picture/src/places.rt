//! Where things stand on the page.

ghost use Rattle.std.specs.Prelude.{◌≡◌, ◌<◌, ◌^◌, find, option_copied};
ghost use Rattle.vk_picture.specs.Places.{act_x, column_x, is_of_process, is_of_station, process_x, station_x, row_y, most_steps};

use crate::picture::{Act, Column, EventRow};
use vk_base::Pid;

/// A place on the page.
#[derive(Clone, Copy, Debug, PartialEq, Eq)]
pub(crate) struct Point {
    pub x: u64,
    pub y: u64,
}

pub(crate) fn column_x(column: Column) -> u64
    ensures x { result ≡ column_x column }
    ensures few { result < 2 ^ 32 }
{
    100 + 110 * u64::from(column.place)
}

fn is_of_process(column: &Column, pid: Pid) -> bool
    ensures { result ≡ is_of_process pid column.now }
{
    match column.process {
        Some(process) => process == pid,
        None => false,
    }
}

fn is_of_station(column: &Column, host: u16) -> bool
    ensures { result ≡ is_of_station host column.now }
{
    column.host == host && column.process.is_none()
}

fn process_column(columns: &[Column], pid: Pid) -> Option<&Column>
    ensures { option_copied result ≡ find (is_of_process pid) columns.now }
{
    columns.iter().find(|c| is_of_process(c, pid))
}

fn station_column(columns: &[Column], host: u16) -> Option<&Column>
    ensures { option_copied result ≡ find (is_of_station host) columns.now }
{
    columns.iter().find(|c| is_of_station(c, host))
}

/// The line of a process.
pub(crate) fn process_x(columns: &[Column], pid: Pid) -> u64
    ensures x { result ≡ process_x columns.now pid }
    ensures few { result < 2 ^ 32 }
{
    match process_column(columns, pid) {
        Some(column) => column_x(*column),
        None => 0,
    }
}

/// The line of a station.
fn station_x(columns: &[Column], host: u16) -> u64
    ensures x { result ≡ station_x columns.now host }
    ensures few { result < 2 ^ 32 }
{
    match station_column(columns, host) {
        Some(column) => column_x(*column),
        None => 0,
    }
}

/// Where an event stands.
pub(crate) fn act_x(columns: &[Column], act: Act) -> u64
    ensures x { result ≡ act_x columns.now act }
    ensures few { result < 2 ^ 32 }
{
    match act {
        Act::Call { pid, .. } | Act::Collect { pid } => process_x(columns, pid),
        Act::Tick { host } => station_x(columns, host),
        Act::Deliver { to, .. } => station_x(columns, to),
    }
}

/// The line of an event.
pub(crate) fn row_y(number: u16) -> u64
    ensures { result ≡ row_y number }
{
    64 + 26 * u64::from(number)
}

/// The most steps of an event, or this many.
pub(crate) fn most_steps(rows: &[EventRow]) -> usize
    ensures { result ≡ most_steps 0 rows.now }
{
    let mut most = 0;
    for row in rows {
        most = most.max(row.steps.len());
    }
    most
}
