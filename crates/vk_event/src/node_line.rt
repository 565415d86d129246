//! The lines of a station's text. Each of these reads the words from `at` on, or the whole line. `None` is a bad line.

ghost use Rattle.std.specs.Prelude.{◌≡◌, ◌&&◌, nat_le, nat_lt};
ghost use Rattle.std.specs.List.{list_all};
ghost use Rattle.vk_base.specs.declared.limits.TheConstants.{FRAME_BYTES as MOST_BYTES, HEADER_BYTES as LEAST_BYTES};
ghost use Rattle.vk_text.specs.Calls.{first_as};
ghost use Rattle.vk_text.specs.Lines.{words_from};
ghost use Rattle.vk_text.specs.Words.{is_lower_hex};
ghost use Rattle.vk_event.specs.Nodes.{delivery_of, frame_of, host_of, named_of, own_call_of, own_collect_of, own_event, is_own, station_event_of};

use hex::decode_to_slice;
use vk_base::limits::{FRAME_BYTES, HEADER_BYTES};
use vk_base::{Config, FrameBytes, StationEvent};
use vk_text::{is_end, next_long_word, next_pid, next_station, next_word, read_call};

/// Whether it is one of `0` to `9` and `a` to `f`.
fn is_digit(byte: u8) -> bool
    ensures { result ≡ is_lower_hex byte }
{
    byte.is_ascii_digit() || (byte >= b'a' && byte <= b'f')
}

/// Whether there are only such digits.
fn are_digits(word: &[u8]) -> bool
    ensures { result ≡ list_all is_lower_hex word.now }
{
    word.iter().all(|byte| is_digit(*byte))
}

/// Whether a frame may have so many bytes: more than a header, and not too many.
fn is_frame_size(bytes: usize) -> bool
    ensures { result ≡ nat_lt LEAST_BYTES bytes && nat_le bytes MOST_BYTES }
{
    bytes > HEADER_BYTES && bytes <= FRAME_BYTES
}

/// The frame that the word spells: lower-case hexadecimal of all its bytes, of which there are more than a header has.
#[tactic(auto, unfolding(crate::specs::Nodes::frame_of))]
fn frame(word: &[u8]) -> Option<FrameBytes>
    ensures { result ≡ frame_of word.now }
{
    let half = word.len() / 2;
    if !is_frame_size(half) {
        return None;
    }
    if !are_digits(word) {
        return None;
    }
    let mut bytes = [0u8; FRAME_BYTES];
    match decode_to_slice(word, &mut bytes[..half]) {
        Ok(()) => FrameBytes::new(&bytes[..half]),
        Err(_) => None,
    }
}

/// `PID CALLTEXT`
#[tactic(auto, unfolding(crate::specs::Nodes::own_call_of))]
fn read_own_call(line: &[u8], at: usize) -> Option<StationEvent>
    ensures { result ≡ own_call_of (words_from line.now at) }
{
    let (pid, at) = next_pid(line, at)?;
    let call = read_call(line, at)?;
    Some(StationEvent::Call { pid, call })
}

/// `PID`
#[tactic(auto, unfolding(crate::specs::Nodes::own_collect_of))]
fn read_own_collect(line: &[u8], at: usize) -> Option<StationEvent>
    ensures { result ≡ own_collect_of (words_from line.now at) }
{
    let (pid, at) = next_pid(line, at)?;
    if is_end(line, at) {
        Some(StationEvent::Collect { pid })
    } else {
        None
    }
}

/// `F`
#[tactic(auto, unfolding(crate::specs::Nodes::delivery_of), using(crate::proofs::NodeFrames::no_frame))]
fn read_delivery(line: &[u8], at: usize) -> Option<StationEvent>
    ensures { result ≡ delivery_of (words_from line.now at) }
{
    let (word, at) = next_long_word(line, at)?;
    let frame = frame(word)?;
    if is_end(line, at) {
        Some(StationEvent::Deliver { frame })
    } else {
        None
    }
}

/// The event that the line spells.
#[tactic(auto, unfolding(crate::specs::Nodes::station_event_of))]
fn read_event(line: &[u8]) -> Option<StationEvent>
    ensures { result ≡ station_event_of (words_from line.now 0) }
{
    let (word, at) = next_word(line, 0)?;
    if word == b"call".as_slice() {
        read_own_call(line, at)
    } else if word == b"collect".as_slice() {
        read_own_collect(line, at)
    } else if word == b"tick".as_slice() {
        if is_end(line, at) {
            Some(StationEvent::Tick)
        } else {
            None
        }
    } else if word == b"frame".as_slice() {
        read_delivery(line, at)
    } else {
        None
    }
}

/// Whether the event is one of this station: who calls or collects is a process of it, in the configuration.
fn is_own(config: &Config, host: u16, event: &StationEvent) -> bool
    ensures { result ≡ is_own config.now.specs host event.now }
{
    match *event {
        StationEvent::Call { pid, .. } | StationEvent::Collect { pid } => {
            pid.host == host && config.has_process(pid)
        }
        StationEvent::Tick | StationEvent::Deliver { .. } => true,
    }
}

/// The event of the line, where it is one of this station.
pub fn read_own_event(config: &Config, host: u16, line: &[u8]) -> Option<StationEvent>
    ensures { result ≡ own_event config.now.specs host line.now }
{
    let event = read_event(line)?;
    if is_own(config, host, &event) {
        Some(event)
    } else {
        None
    }
}

/// `H`
#[tactic(auto, unfolding(crate::specs::Nodes::named_of))]
fn read_named(line: &[u8], at: usize) -> Option<u16>
    ensures { result ≡ named_of (words_from line.now at) }
{
    let (host, at) = next_station(line, at)?;
    if is_end(line, at) { Some(host) } else { None }
}

/// `station H`
#[tactic(auto, unfolding(crate::specs::Nodes::host_of))]
pub fn read_host(line: &[u8]) -> Option<u16>
    ensures { result ≡ host_of (words_from line.now 0) }
{
    let (word, at) = next_word(line, 0)?;
    if word == b"station".as_slice() {
        read_named(line, at)
    } else {
        None
    }
}
