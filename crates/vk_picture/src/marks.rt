//! The marks of a history: where frames begin, and where they come, and to whom messages are handed on.

ghost use Rattle.std.specs.Prelude.{◌≡◌, find, option_copied};
ghost use Rattle.vk_picture.specs.Marks.{event_point, frame_point, is_missing, is_taken, is_event, is_output, start_in, start_of, brought_by, brought, kind_brought, is_light, is_delivery, is_arrival, arrives, handed_to, handed_by, handed};

use crate::picture::{Act, CallKind, Column, EventRow, FrameMark, Picture, Said};
use crate::places::{Point, act_x, row_y};
use vk_base::Pid;
use vk_report::PacketKind;

/// A frame where it begins.
#[derive(Clone, Copy, Debug, PartialEq, Eq)]
pub(crate) struct Start {
    pub point: Point,
    pub kind: PacketKind,
}

/// Where an event stands.
pub(crate) fn event_point(columns: &[Column], row: &EventRow) -> Point
    ensures { result ≡ event_point columns.now row.now }
{
    Point {
        x: act_x(columns, row.act),
        y: row_y(row.number),
    }
}

/// Where a frame of the event begins.
pub(crate) fn frame_point(columns: &[Column], row: &EventRow, output: u16) -> Point
    ensures { result ≡ frame_point columns.now row.now output }
{
    Point {
        x: act_x(columns, row.act) + 6 + 6 * u64::from(output),
        y: row_y(row.number),
    }
}

fn is_missing(said: Said) -> bool
    ensures { result ≡ is_missing said }
{
    match said {
        Said::Missing => true,
        _ => false,
    }
}

fn is_taken(said: Said) -> bool
    ensures { result ≡ is_taken said }
{
    match said {
        Said::Taken => true,
        _ => false,
    }
}

fn is_event(row: &EventRow, host: u16, own: u64) -> bool
    ensures { result ≡ is_event host own row.now }
{
    row.host == host && row.own == own
}

fn start_in(columns: &[Column], row: &EventRow, output: u16) -> Option<Start>
    ensures { result ≡ start_in columns.now row.now output }
{
    match row.frames.as_slice().iter().find(|f| f.output == output) {
        Some(frame) => Some(Start {
            point: frame_point(columns, row, output),
            kind: frame.kind,
        }),
        None => None,
    }
}

/// The event with this number of a station.
fn row_of(rows: &[EventRow], host: u16, own: u64) -> Option<&EventRow>
    ensures { option_copied result ≡ find (is_event host own) rows.now }
{
    rows.iter().find(|r| is_event(r, host, own))
}

fn start_of(picture: &Picture, host: u16, own: u64, output: u16) -> Option<Start>
    ensures { result ≡ start_of picture.now host own output }
{
    let row = row_of(picture.rows.as_slice(), host, own)?;
    start_in(picture.columns.as_slice(), row, output)
}

/// The frame that comes at the event, where one does.
pub(crate) fn brought(picture: &Picture, row: &EventRow) -> Option<Start>
    ensures { result ≡ brought picture.now row.now }
{
    match row.act {
        Act::Deliver {
            from,
            event,
            output,
            ..
        } => {
            if is_missing(row.said) {
                None
            } else {
                start_of(picture, from, event, output)
            }
        }
        _ => None,
    }
}

/// Its kind.
pub(crate) fn kind_brought(picture: &Picture, row: &EventRow) -> Option<PacketKind>
    ensures { result ≡ kind_brought picture.now row.now }
{
    match brought(picture, row) {
        Some(start) => Some(start.kind),
        None => None,
    }
}

/// Whether what comes at the event changes nothing that is seen.
pub(crate) fn is_light(row: &EventRow) -> bool
    ensures { result ≡ is_light row.now }
{
    !is_taken(row.said) || (row.steps.len() == 0 && row.frames.len() == 0)
}

fn is_arrival(row: &EventRow, host: u16, own: u64, number: u16) -> bool
    ensures { result ≡ is_arrival host own number row.now }
{
    match row.act {
        Act::Deliver {
            from,
            event,
            output,
            ..
        } => !is_missing(row.said) && from == host && event == own && output == number,
        _ => false,
    }
}

/// Whether this output of the event comes somewhere.
pub(crate) fn arrives(picture: &Picture, row: &EventRow, output: u16) -> bool
    ensures { result ≡ arrives picture.now row.now output }
{
    picture
        .rows
        .as_slice()
        .iter()
        .any(|r| is_arrival(r, row.host, row.own, output))
}

fn handed_to(kind: CallKind, partner: Option<Pid>, said: Said) -> Option<Pid>
    ensures { result ≡ handed_to kind partner said }
{
    match (said, kind) {
        (Said::Ok, CallKind::Forward { .. }) => partner,
        _ => None,
    }
}

/// The process to which the event, which is a Forward, brings a message.
pub(crate) fn handed(row: &EventRow) -> Option<Pid>
    ensures { result ≡ handed row.now }
{
    match row.act {
        Act::Call { kind, partner, .. } => handed_to(kind, partner, row.said),
        _ => None,
    }
}
