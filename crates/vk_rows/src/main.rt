//! Worked rows as files: each is run through the whole top call, over a source and a sink in memory, and what it writes and
//! answers is compared with what its files want. A row `NAME` is a file in a folder of `data/`, the input; beside it stand
//! `NAME.args`, the words, one a line; `NAME.stdout`, the whole output; `NAME.status`, the number of the status, and behind
//! it, where that is to be told too, the text on standard error; and for a trace, where wanted, `NAME.answers`, what its
//! steps give to see. The reason of each row is a line of `data/README`. A row more is its files and its line, and one more in
//! the number of rows in the file `stdout`.
//!
//! Stands on the top call (`vk_top`) and on sources and sinks (`vk_io`), and for the answers on traces (`v_trace`) and the
//! machine that applies them (`v_machine`).
#![tactic(auto)]

mod files;
mod found;
mod row;

use crate::files::{names, read_reasons, read_row, reason_of};
use crate::found::found_of;
use crate::row::difference;
use std::fmt::Write;
use std::io;

/// Tells what is wrong with the row: nothing where it agrees.
fn judge(rt: &HostRuntime, name: &str, reasons: &str) -> io::Result<Option<&'static str>> {
    if reason_of(reasons, name).is_none() {
        return Ok(Some("it has no reason in data/README"));
    }
    let row = read_row(rt, name)?;
    let found = found_of(rt.alloc(), &row)?;
    Ok(difference(&row, &found))
}

fn main(rt: HostRuntime) -> io::Result<()> {
    let reasons = read_reasons(&rt)?;
    let mut agreeing = 0u64;
    for name in names(&rt)? {
        match judge(&rt, &name, &reasons)? {
            None => agreeing = agreeing.saturating_add(1),
            Some(what) => println!(rt; "{name}: {what}")?,
        }
    }
    println!(rt; "{agreeing} rows agree")
}
