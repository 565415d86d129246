//! The lines of columns.

ghost use Rattle.std.specs.Prelude.{◌≡◌, ◌<◌, ◌^◌, ◌++◌, OnOk};
ghost use Rattle.vk_picture.specs.Svg.{next_text, turn_text, turned, turns_text, lane_text, station_text, name_text, column_line, column_text};
ghost use Rattle.vk_picture.specs.declared.lanes.Activity.TheVariants as activities;

use crate::elements::{write_line, write_open, write_shape_start};
use crate::labels::write_name;
use crate::lanes::{Activity, activity_word, turn_of};
use crate::picture::{Column, EventRow};
use crate::places::{Point, column_x, row_y};
use std::alloc::Global;
use vk_base::{NoMemory, Pid};
use vk_text::{put, put_number};

fn write_next(
    alloc: Global,
    text: &mut Vec<u8>,
    x: u64,
    y: u64,
    activity: Activity,
) -> Result<(), NoMemory>
    ensures { OnOk result (text.new.items ≡ text.old.items ++ next_text x y activity) }
{
    put_number(alloc, text, y)?;
    put(text, b"\"/>\n")?;
    write_shape_start(
        alloc,
        text,
        activity_word(activity),
        b"line",
        Point { x, y },
    )?;
    put(text, b"V")
}

/// The end of what a process did, and the beginning of what it does next, where that changes.
fn write_turn(
    alloc: Global,
    text: &mut Vec<u8>,
    x: u64,
    y: u64,
    turn: Option<Activity>,
) -> Result<(), NoMemory>
    ensures { OnOk result (text.new.items ≡ text.old.items ++ turn_text x y turn) }
{
    match turn {
        Some(activity) => write_next(alloc, text, x, y, activity),
        None => Ok(()),
    }
}

fn turned(activity: Activity, turn: Option<Activity>) -> Activity
    ensures { result ≡ turned activity turn }
{
    match turn {
        Some(next) => next,
        None => activity,
    }
}

fn write_turns(
    alloc: Global,
    text: &mut Vec<u8>,
    pid: Pid,
    x: u64,
    rows: &[EventRow],
) -> Result<(), NoMemory>
    ensures { OnOk result (text.new.items ≡ text.old.items ++ turns_text pid x activities.Ready rows.now) }
{
    let mut activity = Activity::Ready;
    for row in rows {
        let turn = turn_of(pid, activity, row);
        write_turn(alloc, text, x, row_y(row.number), turn)?;
        activity = turned(activity, turn);
    }
    Ok(())
}

fn write_lane(
    alloc: Global,
    text: &mut Vec<u8>,
    pid: Pid,
    x: u64,
    bottom: u64,
    rows: &[EventRow],
) -> Result<(), NoMemory>
    ensures { OnOk result (text.new.items ≡ text.old.items ++ lane_text pid x bottom rows.now) }
{
    write_shape_start(alloc, text, b"ready", b"line", Point { x, y: 50 })?;
    put(text, b"V")?;
    write_turns(alloc, text, pid, x, rows)?;
    put_number(alloc, text, bottom)?;
    put(text, b"\"/>\n")
}

fn write_station(alloc: Global, text: &mut Vec<u8>, x: u64, bottom: u64) -> Result<(), NoMemory>
    ensures { OnOk result (text.new.items ≡ text.old.items ++ station_text x bottom) }
{
    write_line(alloc, text, b"wall", Point { x, y: 20 }, b"m-50 0V", bottom)?;
    write_line(alloc, text, b"kernel", Point { x, y: 50 }, b"V", bottom)
}

fn write_column_line(
    alloc: Global,
    text: &mut Vec<u8>,
    x: u64,
    bottom: u64,
    rows: &[EventRow],
    process: Option<Pid>,
) -> Result<(), NoMemory>
    ensures { OnOk result (text.new.items ≡ text.old.items ++ column_line x bottom rows.now process) }
{
    match process {
        Some(pid) => write_lane(alloc, text, pid, x, bottom, rows),
        None => write_station(alloc, text, x, bottom),
    }
}

#[tactic(auto, unfolding(crate::specs::Svg::words_text))]
fn write_name_at(alloc: Global, text: &mut Vec<u8>, column: &Column, y: u64) -> Result<(), NoMemory>
    ensures { OnOk result (text.new.items ≡ text.old.items ++ name_text column.now y) }
{
    let x = column_x(*column);
    write_open(alloc, text, b"name", Point { x, y })?;
    put(text, b">")?;
    write_name(alloc, text, column.host, column.process)?;
    put(text, b"</text>\n")
}

/// A column, with its name above and below.
#[tactic(auto, unfolding(crate::specs::Svg::column_text))]
pub(crate) fn write_column(
    alloc: Global,
    text: &mut Vec<u8>,
    bottom: u64,
    rows: &[EventRow],
    column: &Column,
) -> Result<(), NoMemory>
    requires { bottom < 2 ^ 32 }
    ensures { OnOk result (text.new.items ≡ text.old.items ++ column_text bottom rows.now column.now) }
{
    write_column_line(alloc, text, column_x(*column), bottom, rows, column.process)?;
    write_name_at(alloc, text, column, 40)?;
    write_name_at(alloc, text, column, bottom + 20)
}
