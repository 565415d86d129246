//! Texts of at most 96 bytes, which take no memory.

ghost use Rattle.std.specs.Prelude.{◌≡◌, ◌≤◌, ◌+◌, ◌++◌, length, decimal};
ghost use Rattle.std.specs.Fmt.{WritesOnOk, WritesStyledOnOk};

use arrayvec::ArrayVec;
use itoa::Buffer;
use std::{fmt, str};

/// The most bytes of such a text.
const MOST: usize = 96;

fn put(text: &mut ArrayVec<u8, MOST>, bytes: &[u8])
    requires { length text.old.items + length bytes.now ≤ 96 }
    ensures { text.new.items ≡ text.old.items ++ bytes.now }
{
    match text.try_extend_from_slice(bytes) {
        Ok(()) => {}
        Err(_) => unreachable!(),
    }
}

/// A text of these bytes, at most 96.
pub fn short_text(bytes: &[u8]) -> ArrayVec<u8, MOST>
    requires { length bytes.now ≤ 96 }
    ensures { result.items ≡ bytes.now }
{
    let mut text = ArrayVec::new();
    put(&mut text, bytes);
    text
}

/// Appends a number, of at most 20 digits.
fn put_number(text: &mut ArrayVec<u8, MOST>, number: u64)
    requires { length text.old.items ≤ 76 }
    ensures digits { text.new.items ≡ text.old.items ++ decimal number }
    ensures few { length text.new.items ≤ length text.old.items + 20 }
{
    let mut buffer = Buffer::new();
    put(text, buffer.format(number).as_bytes());
}

/// A text with a number, of at most 20 digits, in its midst. The bytes around it are at most 76.
pub fn numbered_text(before: &[u8], number: u64, behind: &[u8]) -> ArrayVec<u8, MOST>
    requires { length before.now + length behind.now ≤ 76 }
    ensures { result.items ≡ before.now ++ decimal number ++ behind.now }
{
    let mut text = short_text(before);
    put_number(&mut text, number);
    put(&mut text, behind);
    text
}

/// A text with two numbers, each of at most 20 digits and behind a text. The bytes of these are at most 56.
pub fn twice_numbered_text(
    before: &[u8],
    number: u64,
    between: &[u8],
    other: u64,
) -> ArrayVec<u8, MOST>
    requires { length before.now + length between.now ≤ 56 }
    ensures { result.items ≡ before.now ++ decimal number ++ between.now ++ decimal other }
{
    let mut text = short_text(before);
    put_number(&mut text, number);
    put(&mut text, between);
    put_number(&mut text, other);
    text
}

/// Writes the text where a value is shown.
pub fn put_short<W: fmt::Write>(text: &[u8], to: &mut fmt::Formatter<W>) -> fmt::Result
    ensures writes { WritesOnOk W.write_str_gives to.old result text.now to.new }
    ensures styled { WritesStyledOnOk W.write_str_gives to.old result text.now to.new }
{
    match str::from_utf8(text) {
        Ok(text) => to.write_str(text),
        Err(_) => Err(fmt::Error),
    }
}
