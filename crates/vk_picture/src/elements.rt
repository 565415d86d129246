//! The elements of SVG that a picture is made of.

ghost use Rattle.std.specs.Prelude.{◌≡◌, ◌++◌, OnOk};
ghost use Rattle.vk_picture.specs.Svg.{point_text, shape_start, shape_text, down_text, size_text, place_text, open_text, light_text, opening_text, page_text, view_text, words_text};

use crate::places::Point;
use std::alloc::Global;
use vk_base::NoMemory;
use vk_text::{put, put_number, write_number, write_word};

/// What every picture begins with, up to its width.
const START: &[u8] = b"<svg xmlns=\"http://www.w3.org/2000/svg\" width=\"";

/// `X Y`
pub(crate) fn write_point(alloc: Global, text: &mut Vec<u8>, at: Point) -> Result<(), NoMemory>
    ensures { OnOk result (text.new.items ≡ text.old.items ++ point_text at) }
{
    put_number(alloc, text, at.x)?;
    write_number(alloc, text, at.y)
}

/// The beginning of a shape: its class, and the first point.
pub(crate) fn write_shape_start(
    alloc: Global,
    text: &mut Vec<u8>,
    class: &[u8],
    kind: &[u8],
    at: Point,
) -> Result<(), NoMemory>
    ensures { OnOk result (text.new.items ≡ text.old.items ++ shape_start class.now kind.now at) }
{
    put(text, b"<path class=\"")?;
    put(text, class)?;
    write_word(text, kind)?;
    put(text, b"\" d=\"M")?;
    write_point(alloc, text, at)
}

/// A line or a sign, which goes on so from its first point.
#[tactic(auto, unfolding(crate::specs::Svg::shape_text))]
pub(crate) fn write_shape(
    alloc: Global,
    text: &mut Vec<u8>,
    class: &[u8],
    kind: &[u8],
    at: Point,
    rest: &[u8],
) -> Result<(), NoMemory>
    ensures { OnOk result (text.new.items ≡ text.old.items ++ shape_text class.now kind.now at rest.now) }
{
    write_shape_start(alloc, text, class, kind, at)?;
    put(text, rest)?;
    put(text, b"\"/>\n")
}

/// A line straight down to this place.
pub(crate) fn write_line(
    alloc: Global,
    text: &mut Vec<u8>,
    class: &[u8],
    at: Point,
    start: &[u8],
    bottom: u64,
) -> Result<(), NoMemory>
    ensures { OnOk result (text.new.items ≡ text.old.items ++ down_text class.now at start.now bottom) }
{
    write_shape_start(alloc, text, class, b"line", at)?;
    put(text, start)?;
    put_number(alloc, text, bottom)?;
    put(text, b"\"/>\n")
}

fn write_place(alloc: Global, text: &mut Vec<u8>, at: Point) -> Result<(), NoMemory>
    ensures { OnOk result (text.new.items ≡ text.old.items ++ place_text at) }
{
    put(text, b" x=\"")?;
    put_number(alloc, text, at.x)?;
    put(text, b"\" y=\"")?;
    put_number(alloc, text, at.y)?;
    put(text, b"\"")
}

/// The beginning of words: their class and place.
pub(crate) fn write_open(
    alloc: Global,
    text: &mut Vec<u8>,
    class: &[u8],
    at: Point,
) -> Result<(), NoMemory>
    ensures { OnOk result (text.new.items ≡ text.old.items ++ open_text class.now at) }
{
    put(text, b"<text class=\"")?;
    put(text, class)?;
    put(text, b"\"")?;
    write_place(alloc, text, at)
}

/// Words behind a point, at a distance which ends the beginning of their element.
#[tactic(auto, unfolding(crate::specs::Svg::words_text))]
pub(crate) fn write_words(
    alloc: Global,
    text: &mut Vec<u8>,
    class: &[u8],
    at: Point,
    distance: &[u8],
    words: &[u8],
) -> Result<(), NoMemory>
    ensures { OnOk result (text.new.items ≡ text.old.items ++ words_text class.now at distance.now words.now) }
{
    write_open(alloc, text, class, at)?;
    put(text, distance)?;
    put(text, words)?;
    put(text, b"</text>\n")
}

pub(crate) fn write_light(text: &mut Vec<u8>, light: bool) -> Result<(), NoMemory>
    ensures { OnOk result (text.new.items ≡ text.old.items ++ light_text light) }
{
    if light {
        put(text, b" opacity=\".4\"")
    } else {
        Ok(())
    }
}

/// `WIDTH" height="HEIGHT`
fn write_size(alloc: Global, text: &mut Vec<u8>, width: u64, height: u64) -> Result<(), NoMemory>
    ensures { OnOk result (text.new.items ≡ text.old.items ++ size_text width height) }
{
    put_number(alloc, text, width)?;
    put(text, b"\" height=\"")?;
    put_number(alloc, text, height)
}

/// What is seen of the page: all of it.
fn write_view(alloc: Global, text: &mut Vec<u8>, width: u64, height: u64) -> Result<(), NoMemory>
    ensures { OnOk result (text.new.items ≡ text.old.items ++ view_text width height) }
{
    put(text, b"\" viewBox=\"0 0 ")?;
    put_number(alloc, text, width)?;
    write_number(alloc, text, height)?;
    put(text, b"\">\n")
}

/// The head of the whole: how large the page is.
pub(crate) fn write_opening(
    alloc: Global,
    text: &mut Vec<u8>,
    width: u64,
    height: u64,
) -> Result<(), NoMemory>
    ensures { OnOk result (text.new.items ≡ text.old.items ++ opening_text width height) }
{
    put(text, START)?;
    write_size(alloc, text, width, height)?;
    write_view(alloc, text, width, height)
}

/// The page.
pub(crate) fn write_page(
    alloc: Global,
    text: &mut Vec<u8>,
    width: u64,
    height: u64,
) -> Result<(), NoMemory>
    ensures { OnOk result (text.new.items ≡ text.old.items ++ page_text width height) }
{
    put(text, b"<rect class=\"page\" width=\"")?;
    write_size(alloc, text, width, height)?;
    put(text, b"\"/>\n")
}
