//! What could stand at a place, in words.

ghost use Rattle.std.specs.Prelude.{◌≡◌, ◌==◌, ◌++◌, ◌+◌, ◌∷◌, [], length, List, ℕ, flat_map, bytes_eq, codes, if◌then◌else◌, IfOk, OnOk};
ghost use Rattle.vk_text.specs.Lines.{lines_of, words_from};
ghost use Rattle.vk_forms.specs.Faults.{kind_text, process_words, slot_text, told_text};
ghost use Rattle.vk_forms.specs.Follow.{goes_on};
ghost use Rattle.vk_forms.specs.Forms.{behind};

use crate::follow::{Reach, follow, follow_behind};
use crate::slot::{SlotKind, kind_of};
use std::alloc::Global;
use vk_base::{Config, NoMemory, ProcessSpec};
use vk_text::{next_line, put, put_number, write_pid};

/// Whether something was told, and what was told last.
#[derive(Clone, Copy)]
pub struct Told<'a> {
    pub some: bool,
    pub last: &'a [u8],
}

/// Appends a space and the pid, of each process.
fn put_processes(alloc: Global, into: &mut Vec<u8>, specs: &[ProcessSpec]) -> Result<(), NoMemory>
    ensures { OnOk result (into.new.items ≡ into.old.items ++ flat_map process_words specs.now) }
{
    for spec in specs {
        write_pid(alloc, into, spec.pid)?;
    }
    Ok(())
}

/// Appends this text and the processes of the configuration.
fn put_named(
    alloc: Global,
    into: &mut Vec<u8>,
    config: &Config,
    what: &[u8],
) -> Result<(), NoMemory>
    ensures { OnOk result (into.new.items ≡ into.old.items ++ (what.now ++ flat_map process_words config.now.specs)) }
{
    put(into, what)?;
    put_processes(alloc, into, config.specs())?;
    Ok(())
}

/// Appends `SLOT, LEAST to MOST`.
fn put_range(
    alloc: Global,
    into: &mut Vec<u8>,
    slot: &[u8],
    least: u64,
    most: u64,
) -> Result<(), NoMemory>
    ensures { OnOk result (into.new.items ≡ into.old.items ++ kind_text [] (SlotKind.Number least most) slot.now) }
{
    put(into, slot)?;
    put(into, b", ")?;
    put_number(alloc, into, least)?;
    put(into, b" to ")?;
    put_number(alloc, into, most)
}

/// Appends what a word of this kind is.
fn put_kind(
    alloc: Global,
    into: &mut Vec<u8>,
    config: &Config,
    kind: SlotKind,
    slot: &[u8],
) -> Result<(), NoMemory>
    ensures { OnOk result (into.new.items ≡ into.old.items ++ kind_text config.now.specs kind slot.now) }
{
    match kind {
        SlotKind::Word => put(into, slot),
        SlotKind::Pid => put(
            into,
            b"a pid HOST.LOCAL, each from 1, HOST to 65534 and LOCAL to 65535",
        ),
        SlotKind::Process => put_named(alloc, into, config, b"a process, of which there are:"),
        SlotKind::Host => put_named(
            alloc,
            into,
            config,
            b"the station of a process, of which there are:",
        ),
        SlotKind::Message => put(
            into,
            b"a message in lower-case hexadecimal without zero bytes at its end, or -",
        ),
        SlotKind::Bytes => put(into, b"1 to 1024 bytes in lower-case hexadecimal, or -"),
        SlotKind::Frame => put(
            into,
            b"a frame of 33 to 1152 bytes in lower-case hexadecimal",
        ),
        SlotKind::Number { least, most } => put_range(alloc, into, slot, least, most),
    }
}

/// Appends what could stand where this word of a form stands, none at its end.
fn put_slot(alloc: Global, into: &mut Vec<u8>, config: &Config, slot: &[u8]) -> Result<(), NoMemory>
    ensures { OnOk result (into.new.items ≡ into.old.items ++ slot_text config.now.specs slot.now) }
{
    if slot.is_empty() {
        put(into, b"the end of the line")?;
        return Ok(());
    }
    let kind = kind_of(slot);
    put_kind(alloc, into, config, kind, slot)?;
    Ok(())
}

/// Whether something was told.
fn is_begun(told: Told) -> bool
    ensures { result ≡ told.entry.some }
{
    told.some
}

/// Whether this was told last, where something was.
fn is_last(told: Told, slot: &[u8]) -> bool
    ensures { result ≡ bytes_eq told.entry.last.now slot.now }
{
    told.last == slot
}

/// Appends this behind a bar.
fn put_separated(
    alloc: Global,
    into: &mut Vec<u8>,
    config: &Config,
    slot: &[u8],
) -> Result<(), NoMemory>
    ensures { OnOk result (into.new.items ≡ into.old.items ++ (codes " | " ++ slot_text config.now.specs slot.now)) }
{
    put(into, b" | ")?;
    put_slot(alloc, into, config, slot)?;
    Ok(())
}

/// Appends this behind what was told, unless it is what was told last.
fn put_next<'a>(
    alloc: Global,
    into: &mut Vec<u8>,
    config: &Config,
    told: Told<'a>,
    slot: &'a [u8],
) -> Result<Told<'a>, NoMemory>
    ensures { IfOk result (λ now. (more : List (List ℕ)) → into.new.items ++ told_text config.now.specs now.some now.last.now more
        ≡ into.old.items ++ told_text config.now.specs told.entry.some told.entry.last.now (slot.now ∷ more)) }
{
    if !is_begun(told) {
        put_slot(alloc, into, config, slot)?;
        return Ok(Told {
            some: true,
            last: slot,
        });
    }
    if is_last(told, slot) {
        return Ok(told);
    }
    put_separated(alloc, into, config, slot)?;
    Ok(Told {
        some: true,
        last: slot,
    })
}

/// Whether the line follows a row so many words far.
fn is_as_far(reach: Reach, words: usize) -> bool
    ensures { result ≡ (reach.entry.words == words) }
{
    reach.words == words
}

/// The same where the line follows a row so many words far.
fn put_reach<'a>(
    alloc: Global,
    into: &mut Vec<u8>,
    config: &Config,
    told: Told<'a>,
    reach: Reach<'a>,
    words: usize,
) -> Result<Told<'a>, NoMemory>
    ensures { IfOk result (λ now. (more : List (List ℕ)) → into.new.items ++ told_text config.now.specs now.some now.last.now more
        ≡ into.old.items ++ told_text config.now.specs told.entry.some told.entry.last.now
        (if reach.entry.words == words then reach.entry.slot.now ∷ more else more)) }
{
    if is_as_far(reach, words) {
        let next = put_next(alloc, into, config, told, reach.slot)?;
        return Ok(next);
    }
    Ok(told)
}

/// Appends with which words those of these rows go on behind these words that leave as many words of the line.
pub fn put_rows<'a>(
    alloc: Global,
    into: &mut Vec<u8>,
    config: &Config,
    front: &'a [u8],
    rows: &'a [u8],
    line: &[u8],
    words: usize,
    start: Told<'a>,
) -> Result<Told<'a>, NoMemory>
    ensures { IfOk result (λ now. (left : ℕ) (more : List (List ℕ)) → words + left ≡ length (words_from line.now 0)
        → into.new.items ++ told_text config.now.specs now.some now.last.now more
        ≡ into.old.items ++ told_text config.now.specs start.entry.some start.entry.last.now
        (goes_on config.now.specs (words_from line.now 0) left (behind front.now (lines_of rows.now)) ++ more)) }
{
    let head = follow(config, front, line, 0);
    let mut told = start;
    let mut at = 0;
    while let Some((row, next)) = next_line(rows, at) {
        let reach = follow_behind(config, head, row, line);
        let longer = put_reach(alloc, into, config, told, reach, words)?;
        told = longer;
        at = next;
    }
    Ok(told)
}
