//! The files of the rows, in the folder where the program runs.

use crate::row::Row;
use std::alloc::Global;
use std::rt::Files;
use std::{fs, io};

/// What the name of each file of words ends with.
const WORDS: &str = ".args";

/// The reasons of all rows, a line each.
pub fn read_reasons(rt: &HostRuntime) -> io::Result<String> {
    fs::read_to_string(rt, "README")
}

/// The reason of the row among the lines.
pub fn reason_of<'a>(reasons: &'a str, name: &str) -> Option<&'a str> {
    for line in reasons.lines() {
        if let Some((named, reason)) = line.split_once(": ") {
            if named == name {
                return Some(reason);
            }
        }
    }
    None
}

/// Appends the rows of a folder.
fn put_names(rt: &HostRuntime, folder: &str, names: &mut Vec<String>) -> io::Result<()> {
    for entry in fs::read_dir(rt, folder)? {
        let entry = entry?;
        if let Some(name) = entry.file_name().strip_suffix(WORDS) {
            let alloc = rt.alloc();
            names.push(format!(in alloc; "{folder}/{name}")?)?;
        }
    }
    Ok(())
}

/// The rows of all folders, sorted.
pub fn names(rt: &HostRuntime) -> io::Result<Vec<String>> {
    let mut names = Vec::new(rt.alloc());
    for entry in fs::read_dir(rt, ".")? {
        let entry = entry?;
        if entry.file_type()?.is_dir() {
            put_names(rt, entry.file_name(), &mut names)?;
        }
    }
    names.sort()?;
    Ok(names)
}

/// The bytes of a file of the row.
fn read_part(rt: &HostRuntime, name: &str, ending: &str) -> io::Result<Vec<u8>> {
    let alloc = rt.alloc();
    let path = format!(in alloc; "{name}{ending}")?;
    fs::read(rt, path.as_str())
}

/// The words of the row, one a line.
fn read_words(rt: &HostRuntime, name: &str) -> io::Result<Vec<String>> {
    let alloc = rt.alloc();
    let path = format!(in alloc; "{name}{WORDS}")?;
    let text = fs::read_to_string(rt, path.as_str())?;
    let mut words = Vec::new(alloc);
    for word in text.lines() {
        words.push(String::from_str(alloc, word)?)?;
    }
    Ok(words)
}

/// The answers that the row wants, where it wants them.
fn read_answers(rt: &HostRuntime, name: &str) -> io::Result<Option<Vec<u8>>> {
    match read_part(rt, name, ".answers") {
        Ok(answers) => Ok(Some(answers)),
        Err(error) if error.kind() == io::ErrorKind::NotFound => Ok(None),
        Err(error) => Err(error),
    }
}

/// The line that the file of the status has, without its line feed.
fn read_status(rt: &HostRuntime, name: &str) -> io::Result<Vec<u8>> {
    let mut status = read_part(rt, name, ".status")?;
    if status.last() == Some(&b'\n') {
        let _ = status.pop();
    }
    Ok(status)
}

/// The files of the row.
pub fn read_row(rt: &HostRuntime, name: &str) -> io::Result<Row> {
    Ok(Row {
        words: read_words(rt, name)?,
        input: read_part(rt, name, "")?,
        output: read_part(rt, name, ".stdout")?,
        status: read_status(rt, name)?,
        answers: read_answers(rt, name)?,
    })
}
