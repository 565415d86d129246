//! Frames by their names. A line `NAME: HEX` gives a frame, and `NAME: HEX + COUNT` one with so many bytes 0 behind; blanks may stand
//! between the digits.

use std::alloc::Global;
use std::io;

/// The text is none that can be played.
pub fn is_bad() -> io::Error {
    io::Error::from(io::ErrorKind::InvalidData)
}

/// The bytes of these digits.
fn hexadecimal(alloc: Global, text: &str) -> io::Result<Vec<u8>> {
    let mut digits = Vec::new(alloc);
    for digit in text.as_bytes() {
        if *digit != b' ' {
            digits.push(*digit)?;
        }
    }
    match hex::decode(alloc, digits.as_slice()) {
        Ok(bytes) => Ok(bytes),
        Err(_) => Err(is_bad()),
    }
}

/// The bytes of a frame.
fn bytes_of(alloc: Global, text: &str) -> io::Result<Vec<u8>> {
    let Some((front, zeros)) = text.split_once(" + ") else {
        return hexadecimal(alloc, text);
    };
    let Ok(zeros) = zeros.parse::<u16>() else {
        return Err(is_bad());
    };
    let mut bytes = hexadecimal(alloc, front)?;
    for _ in 0..zeros {
        bytes.push(0)?;
    }
    Ok(bytes)
}

/// The name and the digits of a frame, where the line gives one and is no remark.
fn frame_of(line: &str) -> Option<(&str, &str)> {
    if line.starts_with("# ") {
        return None;
    }
    line.split_once(": ")
}

/// The frame of that name.
pub fn frame_named(alloc: Global, text: &str, name: &str) -> io::Result<Vec<u8>> {
    for line in text.lines() {
        if let Some((named, frame)) = frame_of(line) {
            if named == name {
                return bytes_of(alloc, frame);
            }
        }
    }
    Err(is_bad())
}

/// The name of the first frame with these bytes; where there is none, the bytes.
pub fn name_of(alloc: Global, text: &str, bytes: &[u8]) -> io::Result<String> {
    for line in text.lines() {
        if let Some((name, frame)) = frame_of(line) {
            if bytes_of(alloc, frame)?.as_slice() == bytes {
                return Ok(String::from_str(alloc, name)?);
            }
        }
    }
    Ok(hex::encode(alloc, bytes)?)
}
