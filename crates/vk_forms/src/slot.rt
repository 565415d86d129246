//! The kinds of words of a form, and which words are of a kind.

ghost use Rattle.std.specs.Prelude.{◌≡◌, []};
ghost use Rattle.std.specs.List.{list_all};
ghost use Rattle.vk_text.specs.Words.{is_lower_hex};
ghost use Rattle.vk_forms.specs.Slots.{fits, fits_kind, is_frame, kind_of, limit_of, range_of};

use vk_base::Config;
use vk_text::{bytes, message, number, pid};

/// What a word of a form stands for.
#[derive(Clone, Copy, Debug, PartialEq, Eq)]
pub enum SlotKind {
    /// The word itself.
    Word,
    /// Any pid.
    Pid,
    /// The pid of a process of the configuration.
    Process,
    /// A station of the configuration.
    Host,
    /// A message.
    Message,
    /// The bytes of a Store.
    Bytes,
    /// The bytes of a frame.
    Frame,
    /// A number in this range.
    Number { least: u64, most: u64 },
}

/// The range of the numbers that tell of times, sizes and links.
fn limit_of(slot: &[u8]) -> Option<(u64, u64)>
    ensures { result ≡ limit_of slot.now }
{
    if slot == b"TRIES".as_slice() {
        Some((1, 16))
    } else if slot == b"INTERVAL".as_slice() {
        Some((1, 64))
    } else if slot == b"LIFE".as_slice() {
        Some((0, 1_024))
    } else if slot == b"POOL".as_slice() {
        Some((1, 64))
    } else if slot == b"BYTE".as_slice() {
        Some((0, 255))
    } else if slot == b"SEED".as_slice() {
        Some((0, u64::MAX))
    } else if slot == b"ROUNDS".as_slice() {
        Some((0, 50_000))
    } else {
        None
    }
}

/// The range of the numbers of this kind.
fn range_of(slot: &[u8]) -> Option<(u64, u64)>
    ensures { result ≡ range_of slot.now }
{
    if slot == b"COUNT".as_slice() {
        Some((0, 4_294_967_295))
    } else if slot == b"SIZE".as_slice() {
        Some((0, 131_072))
    } else if slot == b"NUMBER".as_slice() {
        Some((1, 9_223_372_036_854_775_807))
    } else if slot == b"OUTPUT".as_slice() || slot == b"PORT".as_slice() {
        Some((1, 65_535))
    } else if slot == b"STATION".as_slice() {
        Some((1, 65_534))
    } else if slot == b"PAGES".as_slice() {
        Some((1, 4_096))
    } else if slot == b"FILES".as_slice() {
        Some((1, 16))
    } else if slot == b"FILE".as_slice() {
        Some((0, 15))
    } else {
        limit_of(slot)
    }
}

/// What the word of a form stands for.
#[tactic(auto, unfolding(crate::specs::Slots::kind_of))]
pub fn kind_of(slot: &[u8]) -> SlotKind
    ensures { result ≡ kind_of slot.now }
{
    if slot == b"PID".as_slice() {
        SlotKind::Pid
    } else if slot == b"PROCESS".as_slice() {
        SlotKind::Process
    } else if slot == b"HOST".as_slice() {
        SlotKind::Host
    } else if slot == b"MESSAGE".as_slice() {
        SlotKind::Message
    } else if slot == b"BYTES".as_slice() {
        SlotKind::Bytes
    } else if slot == b"FRAME".as_slice() {
        SlotKind::Frame
    } else {
        match range_of(slot) {
            Some((least, most)) => SlotKind::Number { least, most },
            None => SlotKind::Word,
        }
    }
}

/// Whether it is `0` to `9` or `a` to `f`.
fn is_lower_hex(byte: u8) -> bool
    ensures { result ≡ is_lower_hex byte }
{
    byte.is_ascii_digit() || (b'a' <= byte && byte <= b'f')
}

/// Whether each byte of the word is `0` to `9` or `a` to `f`.
fn is_hexadecimal(word: &[u8]) -> bool
    ensures { result ≡ list_all is_lower_hex word.now }
{
    word.iter().all(|byte| is_lower_hex(*byte))
}

/// Whether the word is the lower-case hexadecimal of 33 to 1,152 bytes.
#[tactic(auto, unfolding(crate::specs::Slots::is_frame))]
fn is_frame(word: &[u8]) -> bool
    ensures { result ≡ is_frame word.now }
{
    word.len() % 2 == 0 && word.len() >= 66 && word.len() <= 2_304 && is_hexadecimal(word)
}

/// Whether the word is that of a process of the configuration.
fn is_process(config: &Config, word: &[u8]) -> bool
    ensures { result ≡ fits_kind config.now.specs SlotKind.Process [] word.now }
{
    match pid(word) {
        Some(pid) => config.has_process(pid),
        None => false,
    }
}

/// Whether the word is that of a station of the configuration.
fn is_host(config: &Config, word: &[u8]) -> bool
    ensures { result ≡ fits_kind config.now.specs SlotKind.Host [] word.now }
{
    match number(word, 65_534) {
        Some(host) => config.has_station(host as u16),
        None => false,
    }
}

/// Whether the word is a number in this range.
fn is_number(word: &[u8], least: u64, most: u64) -> bool
    ensures { result ≡ fits_kind [] (SlotKind.Number least most) [] word.now }
{
    match number(word, most) {
        Some(n) => least <= n,
        None => false,
    }
}

/// Whether the word, which is not empty, is of this kind.
fn fits_kind(config: &Config, kind: SlotKind, slot: &[u8], word: &[u8]) -> bool
    ensures { result ≡ fits_kind config.now.specs kind slot.now word.now }
{
    match kind {
        SlotKind::Word => slot == word,
        SlotKind::Pid => pid(word).is_some(),
        SlotKind::Process => is_process(config, word),
        SlotKind::Host => is_host(config, word),
        SlotKind::Message => message(word).is_some(),
        SlotKind::Bytes => bytes(word).is_some(),
        SlotKind::Frame => is_frame(word),
        SlotKind::Number { least, most } => is_number(word, least, most),
    }
}

/// Whether the word may stand where this word of a form stands. An empty word may stand nowhere.
pub fn fits(config: &Config, slot: &[u8], word: &[u8]) -> bool
    ensures { result ≡ fits config.now.specs slot.now word.now }
{
    if word.is_empty() {
        return false;
    }
    let kind = kind_of(slot);
    fits_kind(config, kind, slot, word)
}
