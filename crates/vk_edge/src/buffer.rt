//! The buffer of a text that is read piece by piece.

ghost use Rattle.std.specs.Prelude.{◌≡◌, ◌<◌, ◌≤◌, ◌+◌, ◌++◌, [], length, take, drop, None, Err, IfSome, IfOk, IfErr, OnOk, OnErr};
ghost use Rattle.std.specs.Io.KnownBytes.{IsAtEnd, Keeps};
ghost use Rattle.vk_io.specs.Causes.{HasCause, TellsFault};
ghost use Rattle.vk_edge.specs.Pieces.{EndsLine, EndsNone, IsCut, IsFilled, IsGathered, IsReadBehind, IsReadOut, IsUnreadBehind};

use std::alloc::Global;
use std::marker::Model;
use vk_base::NoMemory;
use vk_base::limits::INPUT_BYTES;
use vk_io::{Failed, ReadRefusal, Source};

/// How many bytes a buffer has room for at first.
const ROOM: usize = 65536;

/// Where a piece ends, and whether it is the last.
#[derive(Clone, Copy)]
pub struct Cut {
    pub end: usize,
    pub is_last: bool,
}

/// Bytes that were read and are kept, with room behind them, and how many were read in all.
#[derive(Drop)]
pub struct Buffer {
    bytes: Vec<u8>,
    filled: usize,
    count: usize,
}

impl Model for Buffer {
    ghost use Rattle.std.specs.Prelude.{take};
    ghost use Rattle.vk_edge.specs.Pieces.{Gathered, IsFitBuffer};

    ghost Value = { Gathered };

    ghost view = { λ b. record { bytes = take b.filled b.bytes.items; count = b.count } };

    ghost invariant = { λ b. IsFitBuffer b.bytes.items b.filled b.count };
}

/// Where the last line ends that ends behind `from`.
fn line_end(bytes: &[u8], from: usize) -> Option<usize>
    ensures last { IfSome result (λ at. (at ≤ length bytes.now) × EndsLine (take at bytes.now) × EndsNone (drop at bytes.now)) }
    ensures none { result ≡ None → EndsNone (drop from bytes.now) }
{
    let mut at = bytes.len();
    while at > from {
        if bytes[at - 1] == b'\n' {
            return Some(at);
        }
        at -= 1;
    }
    None
}

/// Writes these bytes to the front.
fn put_front(bytes: &mut Vec<u8>, first: &[u8])
    requires { length first.now ≤ length bytes.old.items }
    ensures items { bytes.new.items ≡ first.now ++ drop (length first.now) bytes.old.items }
    ensures len { length bytes.new.items ≡ length bytes.old.items }
{
    let count = first.len();
    bytes[0..count].copy_from_slice(first);
}

/// Makes as much room again, where so many filled bytes are all that there is.
fn make_room(bytes: &mut Vec<u8>, filled: usize) -> Result<(), NoMemory>
    requires within { filled ≤ length bytes.old.items }
    requires some { 0 < length bytes.old.items }
    ensures room { OnOk result (filled < length bytes.new.items) }
    ensures kept { take filled bytes.new.items ≡ take filled bytes.old.items }
    ensures more { length bytes.old.items ≤ length bytes.new.items }
{
    if filled == bytes.len() {
        bytes.extend_from_within(..)?;
    }
    Ok(())
}

/// Reads once, behind the bytes that are filled.
fn read_behind<S: Source>(
    bytes: &mut Vec<u8>,
    filled: usize,
    input: &mut S,
) -> Result<usize, Failed>
    requires { filled < length bytes.old.items }
    ensures read { IfOk result (IsReadBehind (S.left input.old) (S.left input.new) filled bytes.old.items bytes.new.items) }
    ensures unread { OnErr result (Keeps (S.left input.old) (S.left input.new)) }
    ensures within { IfOk result (λ n. filled + n ≤ length bytes.new.items) }
    ensures front { take filled bytes.new.items ≡ take filled bytes.old.items }
    ensures len { length bytes.new.items ≡ length bytes.old.items }
    ensures cause { HasCause (S.fault_count input.old) (S.fault_count input.new) result }
{
    input.read(&mut bytes[filled..])
}

impl Buffer {
    /// No bytes, of which none was read. It takes no memory.
    pub fn empty(alloc: Global) -> Self
        ensures bytes { result.bytes ≡ [] }
        ensures count { result.count ≡ 0 }
    {
        Buffer {
            bytes: Vec::new(alloc),
            filled: 0,
            count: 0,
        }
    }

    /// The first bytes that were read, and room for more.
    pub fn new(alloc: Global, first: &[u8]) -> Result<Self, NoMemory>
        requires { length first.now ≤ ROOM }
        ensures bytes { IfOk result (λ b. b.bytes ≡ first.now) }
        ensures count { IfOk result (λ b. b.count ≡ length first.now) }
    {
        let mut bytes = vec![in alloc; 0u8; ROOM]?;
        put_front(&mut bytes, first);
        Ok(Buffer {
            bytes,
            filled: first.len(),
            count: first.len(),
        })
    }

    /// What is kept.
    pub fn as_slice(&self) -> &[u8]
        ensures { result.now ≡ self.now.bytes }
    {
        &self.bytes[..self.filled]
    }

    /// Forgets so many bytes, and moves the others to the front.
    pub fn forget(&mut self, end: usize)
        requires { end ≤ length self.old.bytes }
        ensures bytes { self.new.bytes ≡ drop end self.old.bytes }
        ensures count { self.new.count ≡ self.old.count }
    {
        self.bytes.copy_within(end..self.filled, 0);
        self.filled -= end;
    }

    /// Forgets all that is kept.
    fn clear(&mut self)
        ensures bytes { self.new.bytes ≡ [] }
        ensures count { self.new.count ≡ self.old.count }
    {
        self.filled = 0;
    }

    /// Reads once, behind what is kept. Where the buffer is full it has as much room again.
    fn fill<S: Source>(&mut self, input: &mut S) -> Result<usize, ReadRefusal>
        requires { 0 < self.old.count }
        ensures read { IfOk result (IsFilled (S.left input.old) (S.left input.new) self.old self.new) }
        ensures refused { IfErr result (IsUnreadBehind self.old.count (S.left input.old) (S.left input.new)) }
        ensures grows { self.old.count ≤ self.new.count }
        ensures kept { OnOk result (S.fault_count input.new ≡ S.fault_count input.old) }
        ensures cause { IfErr result (λ e. TellsFault (S.fault_count input.old) (S.fault_count input.new) (Err e)) }
        ensures never_falls { S.fault_count input.old ≤ S.fault_count input.new }
    {
        if make_room(&mut self.bytes, self.filled).is_err() {
            return Err(ReadRefusal::NoMemory);
        }
        let count = match read_behind(&mut self.bytes, self.filled, input) {
            Ok(count) => count,
            Err(Failed) => return Err(ReadRefusal::Failed),
        };
        if count > INPUT_BYTES - self.count {
            return Err(ReadRefusal::TooLong);
        }
        self.filled += count;
        self.count += count;
        Ok(count)
    }

    /// Reads on until a read brings the end of a line, or the source is at its end.
    pub fn read_line<S: Source>(&mut self, input: &mut S) -> Result<Cut, ReadRefusal>
        requires { 0 < self.old.count }
        ensures read { IfOk result (λ cut. IsCut (S.left input.old) (S.left input.new) self.old self.new cut.end cut.is_last) }
        ensures refused { IfErr result (IsUnreadBehind self.old.count (S.left input.old) (S.left input.new)) }
        ensures grows { self.old.count ≤ self.new.count }
        ensures kept { OnOk result (S.fault_count input.new ≡ S.fault_count input.old) }
        ensures cause { IfErr result (λ e. TellsFault (S.fault_count input.old) (S.fault_count input.new) (Err e)) }
        ensures never_falls { S.fault_count input.old ≤ S.fault_count input.new }
    {
        let mut from = self.filled;
        loop {
            let count = self.fill(input)?;
            if count == 0 {
                return Ok(Cut {
                    end: self.filled,
                    is_last: true,
                });
            }
            if let Some(end) = line_end(self.as_slice(), from) {
                return Ok(Cut {
                    end,
                    is_last: false,
                });
            }
            from = self.filled;
        }
    }

    /// Reads on to the end.
    pub fn read_rest<S: Source>(&mut self, input: &mut S) -> Result<(), ReadRefusal>
        requires { 0 < self.old.count }
        ensures read { OnOk result (IsGathered (S.left input.old) (S.left input.new) self.old self.new) }
        ensures at_end { OnOk result (IsAtEnd (S.left input.new)) }
        ensures refused { IfErr result (IsUnreadBehind self.old.count (S.left input.old) (S.left input.new)) }
        ensures grows { self.old.count ≤ self.new.count }
        ensures kept { OnOk result (S.fault_count input.new ≡ S.fault_count input.old) }
        ensures cause { IfErr result (λ e. TellsFault (S.fault_count input.old) (S.fault_count input.new) (Err e)) }
        ensures never_falls { S.fault_count input.old ≤ S.fault_count input.new }
    {
        let mut count = self.count;
        while count > 0 {
            count = self.fill(input)?;
        }
        Ok(())
    }

    /// Reads on to the end, and keeps nothing.
    pub fn skip_rest<S: Source>(&mut self, input: &mut S) -> Result<(), ReadRefusal>
        requires { 0 < self.old.count }
        ensures read { OnOk result (IsReadOut (S.left input.old) (S.left input.new) self.old.count self.new.count) }
        ensures bytes { OnOk result (self.new.bytes ≡ []) }
        ensures refused { IfErr result (IsUnreadBehind self.old.count (S.left input.old) (S.left input.new)) }
        ensures grows { self.old.count ≤ self.new.count }
        ensures kept { OnOk result (S.fault_count input.new ≡ S.fault_count input.old) }
        ensures cause { IfErr result (λ e. TellsFault (S.fault_count input.old) (S.fault_count input.new) (Err e)) }
        ensures never_falls { S.fault_count input.old ≤ S.fault_count input.new }
    {
        let mut count = self.count;
        while count > 0 {
            self.clear();
            count = self.fill(input)?;
        }
        Ok(())
    }
}
