//! The text of marks.

ghost use Rattle.std.specs.Prelude.{◌≡◌, ◌++◌, flat_map, OnOk};
ghost use Rattle.vk_report.specs.Report.{kind_text};
ghost use Rattle.vk_picture.specs.Marks.{cross_marks};
ghost use Rattle.vk_picture.specs.Svg.{marks_text, label_at_text, arrow_line, arrow_text, cross_text, dot_text, event_text, frame_line, hand_line, hand_text, row_line, ruler_text};
ghost use Rattle.vk_picture.specs.Svg.{across_text, arrow_start, way_text, number_text, steps_text, sign_shape, sign_text, sign_word};

use crate::elements::{
    write_light, write_open, write_point, write_shape, write_shape_start, write_words,
};
use crate::labels::{write_label, write_steps};
use crate::marks::{
    Start, arrives, brought, event_point, frame_point, handed, is_light, kind_brought,
};
use crate::picture::{Act, EventRow, FrameMark, Picture, StepMark};
use crate::places::{Point, process_x, row_y};
use std::alloc::Global;
use vk_base::NoMemory;
use vk_report::{PacketKind, kind_word};
use vk_text::{put, put_number};

/// The end of words.
const END: &[u8] = b"</text>\n";

/// The beginning of an arrow: its kind, and how it looks.
fn write_arrow_start(text: &mut Vec<u8>, kind: PacketKind, light: bool) -> Result<(), NoMemory>
    ensures { OnOk result (text.new.items ≡ text.old.items ++ arrow_start kind light) }
{
    put(text, b"<path class=\"frame ")?;
    put(text, kind_word(kind))?;
    put(text, b"\"")?;
    write_light(text, light)
}

fn write_arrow(
    alloc: Global,
    text: &mut Vec<u8>,
    start: Start,
    end: Point,
    light: bool,
) -> Result<(), NoMemory>
    ensures { OnOk result (text.new.items ≡ text.old.items ++ arrow_text start end light) }
{
    write_arrow_start(text, start.kind, light)?;
    put(text, b" marker-end=\"url(#head)\" d=\"M")?;
    write_way(alloc, text, start.point, end)
}

/// From one point to the other.
fn write_way(alloc: Global, text: &mut Vec<u8>, start: Point, end: Point) -> Result<(), NoMemory>
    ensures { OnOk result (text.new.items ≡ text.old.items ++ way_text start end) }
{
    write_point(alloc, text, start)?;
    put(text, b"L")?;
    write_point(alloc, text, end)?;
    put(text, b"\"/>\n")
}

/// The arrow to an event, where a frame comes at it.
#[tactic(auto, unfolding(crate::specs::Svg::arrow_line))]
pub(crate) fn write_arrow_to(
    alloc: Global,
    text: &mut Vec<u8>,
    picture: &Picture,
    row: &EventRow,
) -> Result<(), NoMemory>
    ensures { OnOk result (text.new.items ≡ text.old.items ++ arrow_line picture.now row.now) }
{
    match brought(picture, row) {
        Some(start) => {
            let end = event_point(picture.columns.as_slice(), row);
            write_arrow(alloc, text, start, end, is_light(row))
        }
        None => Ok(()),
    }
}

fn write_dot(alloc: Global, text: &mut Vec<u8>, at: Point, kind: PacketKind) -> Result<(), NoMemory>
    ensures { OnOk result (text.new.items ≡ text.old.items ++ dot_text at kind) }
{
    let circle = b"m-2 0a2 2 0 1 0 4 0a2 2 0 1 0-4 0".as_slice();
    write_shape(alloc, text, b"dot", kind_word(kind), at, circle)
}

fn write_cross(
    alloc: Global,
    text: &mut Vec<u8>,
    at: Point,
    kind: PacketKind,
) -> Result<(), NoMemory>
    ensures { OnOk result (text.new.items ≡ text.old.items ++ cross_text at kind) }
{
    let cross = b"l8 16m-5-5l10 10m0-10l-10 10".as_slice();
    let distance = b" dx=\"16\" dy=\"20\">".as_slice();
    write_shape(alloc, text, b"frame", kind_word(kind), at, cross)?;
    write_words(alloc, text, b"lost", at, distance, kind_word(kind))
}

/// The cross of a frame that came nowhere.
fn write_end(
    alloc: Global,
    text: &mut Vec<u8>,
    picture: &Picture,
    row: &EventRow,
    frame: &FrameMark,
) -> Result<(), NoMemory>
    ensures { OnOk result (text.new.items ≡ text.old.items ++ marks_text (cross_marks picture.now row.now frame.now)) }
{
    if arrives(picture, row, frame.output) {
        return Ok(());
    }
    let at = frame_point(picture.columns.as_slice(), row, frame.output);
    write_cross(alloc, text, at, frame.kind)
}

/// A frame that an event emitted, and its cross where it came nowhere.
#[tactic(auto, unfolding(crate::specs::Svg::frame_line))]
fn write_frame(
    alloc: Global,
    text: &mut Vec<u8>,
    picture: &Picture,
    row: &EventRow,
    frame: &FrameMark,
) -> Result<(), NoMemory>
    ensures { OnOk result (text.new.items ≡ text.old.items ++ frame_line picture.now row.now frame.now) }
{
    let at = frame_point(picture.columns.as_slice(), row, frame.output);
    write_dot(alloc, text, at, frame.kind)?;
    write_end(alloc, text, picture, row, frame)
}

/// A line to that of the process that has the message now, and a diamond there.
fn write_hand(alloc: Global, text: &mut Vec<u8>, start: Point, holder: u64) -> Result<(), NoMemory>
    ensures { OnOk result (text.new.items ≡ text.old.items ++ hand_text start holder) }
{
    write_shape_start(alloc, text, b"hand", b"send", start)?;
    put(text, b"H")?;
    put_number(alloc, text, holder)?;
    put(text, b"m-5 0l5-5 5 5-5 5z\"/>\n")
}

/// The message that an event hands on, where it hands one on.
#[tactic(auto, unfolding(crate::specs::Svg::hand_line))]
fn write_handed(
    alloc: Global,
    text: &mut Vec<u8>,
    picture: &Picture,
    row: &EventRow,
) -> Result<(), NoMemory>
    ensures { OnOk result (text.new.items ≡ text.old.items ++ hand_line picture.now row.now) }
{
    match handed(row) {
        Some(to) => {
            let columns = picture.columns.as_slice();
            let start = event_point(columns, row);
            write_hand(alloc, text, start, process_x(columns, to))
        }
        None => Ok(()),
    }
}

fn sign_word(act: Act) -> &'static [u8]
    ensures { result.now ≡ sign_word act }
{
    match act {
        Act::Call { .. } => b"call",
        Act::Collect { .. } => b"answer",
        Act::Tick { .. } => b"tick",
        Act::Deliver { .. } => b"come",
    }
}

fn sign_shape(act: Act) -> &'static [u8]
    ensures { result.now ≡ sign_shape act }
{
    match act {
        Act::Call { .. } => b"m-4 0a4 4 0 1 0 8 0a4 4 0 1 0-8 0",
        Act::Collect { .. } => b"m-4 0a4 4 0 1 0 8 0a4 4 0 1 0-8 0",
        Act::Tick { .. } => b"m-8 0h16",
        Act::Deliver { .. } => b"m-3-3h6v6h-6z",
    }
}

fn write_sign(alloc: Global, text: &mut Vec<u8>, at: Point, act: Act) -> Result<(), NoMemory>
    ensures { OnOk result (text.new.items ≡ text.old.items ++ sign_text at act) }
{
    write_shape(alloc, text, b"event", sign_word(act), at, sign_shape(act))
}

#[tactic(auto, unfolding(crate::specs::Svg::words_text))]
fn write_label_at(
    alloc: Global,
    text: &mut Vec<u8>,
    at: Point,
    brings: Option<PacketKind>,
    row: &EventRow,
) -> Result<(), NoMemory>
    ensures { OnOk result (text.new.items ≡ text.old.items ++ label_at_text at brings row.now) }
{
    write_open(alloc, text, b"label", at)?;
    put(text, b" dx=\"8\" dy=\"-5\">")?;
    write_label(alloc, text, brings, row.act, row.said)?;
    put(text, END)
}

fn write_event(
    alloc: Global,
    text: &mut Vec<u8>,
    row: &EventRow,
    at: Point,
    brings: Option<PacketKind>,
) -> Result<(), NoMemory>
    ensures { OnOk result (text.new.items ≡ text.old.items ++ event_text row.now at brings) }
{
    write_sign(alloc, text, at, row.act)?;
    write_label_at(alloc, text, at, brings, row)
}

fn write_frames(
    alloc: Global,
    text: &mut Vec<u8>,
    picture: &Picture,
    row: &EventRow,
    frames: &[FrameMark],
) -> Result<(), NoMemory>
    ensures { OnOk result (text.new.items ≡ text.old.items ++ flat_map (frame_line picture.now row.now) frames.now) }
{
    for frame in frames {
        write_frame(alloc, text, picture, row, frame)?;
    }
    Ok(())
}

/// The frames of an event, what it hands on, and the event.
#[tactic(auto, unfolding(crate::specs::Svg::row_line))]
pub(crate) fn write_row(
    alloc: Global,
    text: &mut Vec<u8>,
    picture: &Picture,
    row: &EventRow,
) -> Result<(), NoMemory>
    ensures { OnOk result (text.new.items ≡ text.old.items ++ row_line picture.now row.now) }
{
    write_frames(alloc, text, picture, row, row.frames.as_slice())?;
    write_handed(alloc, text, picture, row)?;
    let at = event_point(picture.columns.as_slice(), row);
    write_event(alloc, text, row, at, kind_brought(picture, row))
}

fn write_across(alloc: Global, text: &mut Vec<u8>, y: u64, width: u64) -> Result<(), NoMemory>
    ensures { OnOk result (text.new.items ≡ text.old.items ++ across_text y width) }
{
    put(text, b"<path class=\"row\" d=\"M50 ")?;
    put_number(alloc, text, y)?;
    put(text, b"H")?;
    put_number(alloc, text, width)?;
    put(text, b"\"/>\n")
}

#[tactic(auto, unfolding(crate::specs::Svg::words_text))]
fn write_number(alloc: Global, text: &mut Vec<u8>, y: u64, number: u16) -> Result<(), NoMemory>
    ensures { OnOk result (text.new.items ≡ text.old.items ++ number_text y number) }
{
    write_open(alloc, text, b"number", Point { x: 40, y })?;
    put(text, b" dy=\"4\">")?;
    put_number(alloc, text, u64::from(number))?;
    put(text, END)
}

#[tactic(auto, unfolding(crate::specs::Svg::words_text))]
fn write_margin(
    alloc: Global,
    text: &mut Vec<u8>,
    at: Point,
    steps: &[StepMark],
) -> Result<(), NoMemory>
    ensures { OnOk result (text.new.items ≡ text.old.items ++ steps_text at.x at.y steps.now) }
{
    write_open(alloc, text, b"step", at)?;
    put(text, b" dy=\"4\">")?;
    write_steps(alloc, text, steps)?;
    put(text, END)
}

/// The line of an event, its number, and its steps behind this place.
#[tactic(auto, unfolding(crate::specs::Svg::ruler_text))]
pub(crate) fn write_ruler(
    alloc: Global,
    text: &mut Vec<u8>,
    steps: u64,
    width: u64,
    row: &EventRow,
) -> Result<(), NoMemory>
    ensures { OnOk result (text.new.items ≡ text.old.items ++ ruler_text steps width row.now) }
{
    let y = row_y(row.number);
    write_across(alloc, text, y, width)?;
    write_number(alloc, text, y, row.number)?;
    write_margin(alloc, text, Point { x: steps, y }, row.steps.as_slice())
}
