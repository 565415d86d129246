//! The whole picture as a text.

ghost use Rattle.std.specs.Prelude.{◌≡◌, ◌≤◌, ◌<◌, ◌^◌, ◌+◌, ◌++◌, flat_map, length, IfOk, OnOk};
ghost use Rattle.vk_picture.specs.Places.{bottom_y, steps_x, width_of};
ghost use Rattle.vk_picture.specs.Svg.{arrow_line, column_text, picture_text, row_line, ruler_text, head_text};

use crate::drawn::{write_arrow_to, write_row, write_ruler};
use crate::elements::{write_opening, write_page};
use crate::lines::write_column;
use crate::picture::{Column, EventRow, Picture};
use crate::places::most_steps;
use crate::style::STYLE;
use std::alloc::Global;
use vk_base::NoMemory;
use vk_base::limits::STEPS;
use vk_text::put;

/// How many events a picture has at the most.
pub const ROWS: usize = 500;
/// How many columns.
pub const COLUMNS: usize = 1_024;

/// Where the lines of columns end.
fn bottom_y(rows: &[EventRow]) -> u64
    requires { length rows.now ≤ ROWS }
    ensures { result ≡ bottom_y rows.now }
{
    64 + 26 * (rows.len() as u64 + 1)
}

/// Where the steps stand.
fn steps_x(columns: &[Column]) -> u64
    requires { length columns.now ≤ COLUMNS }
    ensures { result ≡ steps_x columns.now }
{
    100 + 110 * columns.len() as u64
}

fn width_of(columns: &[Column], rows: &[EventRow]) -> u64
    requires { length columns.now ≤ COLUMNS }
    ensures { result ≡ width_of columns.now rows.now }
{
    steps_x(columns) + 120 * most_steps(rows).min(STEPS) as u64 + 20
}

/// The head of the text, and the page.
#[tactic(auto, unfolding(crate::specs::Svg::head_text))]
fn write_head(alloc: Global, text: &mut Vec<u8>, width: u64, height: u64) -> Result<(), NoMemory>
    ensures { OnOk result (text.new.items ≡ text.old.items ++ head_text width height) }
{
    write_opening(alloc, text, width, height)?;
    put(text, STYLE)?;
    write_page(alloc, text, width, height)
}

fn write_rulers(
    alloc: Global,
    text: &mut Vec<u8>,
    steps: u64,
    width: u64,
    rows: &[EventRow],
) -> Result<(), NoMemory>
    ensures { OnOk result (text.new.items ≡ text.old.items ++ flat_map (ruler_text steps width) rows.now) }
{
    for row in rows {
        write_ruler(alloc, text, steps, width, row)?;
    }
    Ok(())
}

fn write_columns(
    alloc: Global,
    text: &mut Vec<u8>,
    bottom: u64,
    rows: &[EventRow],
    columns: &[Column],
) -> Result<(), NoMemory>
    requires { bottom < 2 ^ 32 }
    ensures { OnOk result (text.new.items ≡ text.old.items ++ flat_map (column_text bottom rows.now) columns.now) }
{
    for column in columns {
        write_column(alloc, text, bottom, rows, column)?;
    }
    Ok(())
}

fn write_arrows(
    alloc: Global,
    text: &mut Vec<u8>,
    picture: &Picture,
    rows: &[EventRow],
) -> Result<(), NoMemory>
    ensures { OnOk result (text.new.items ≡ text.old.items ++ flat_map (arrow_line picture.now) rows.now) }
{
    for row in rows {
        write_arrow_to(alloc, text, picture, row)?;
    }
    Ok(())
}

fn write_rows(
    alloc: Global,
    text: &mut Vec<u8>,
    picture: &Picture,
    rows: &[EventRow],
) -> Result<(), NoMemory>
    ensures { OnOk result (text.new.items ≡ text.old.items ++ flat_map (row_line picture.now) rows.now) }
{
    for row in rows {
        write_row(alloc, text, picture, row)?;
    }
    Ok(())
}

/// The picture as a text of SVG.
pub fn picture_text(alloc: Global, picture: &Picture) -> Result<Vec<u8>, NoMemory>
    requires columns { length picture.now.columns ≤ COLUMNS }
    requires rows { length picture.now.rows ≤ ROWS }
    ensures { IfOk result (λ text. text.items ≡ picture_text picture.now) }
{
    let columns = picture.columns.as_slice();
    let rows = picture.rows.as_slice();
    let bottom = bottom_y(rows);
    let width = width_of(columns, rows);
    let mut text = Vec::new(alloc);
    write_head(alloc, &mut text, width, bottom + 40)?;
    write_rulers(alloc, &mut text, steps_x(columns), width, rows)?;
    write_columns(alloc, &mut text, bottom, rows, columns)?;
    write_arrows(alloc, &mut text, picture, rows)?;
    write_rows(alloc, &mut text, picture, rows)?;
    put(&mut text, b"</svg>\n")?;
    Ok(text)
}
