//! A text that is read piece by piece, into one buffer that is used again.

ghost use Rattle.std.specs.Prelude.{◌≡◌, ◌≤◌, ◌++◌, [], true, false, Err, IfOk, IfErr, OnOk};
ghost use Rattle.vk_io.specs.Causes.{TellsFault};
ghost use Rattle.vk_edge.specs.Pieces.{IsNextPiece, IsReadOut, IsUnreadBehind};

use crate::buffer::Buffer;
use std::alloc::Global;
use std::marker::Model;
use vk_io::{Failed, ReadRefusal, Source};

/// How many bytes the first read asks for. It needs no memory.
const START: usize = 4096;

/// A piece of a text, which ends where a line does, or the text, and what was read behind it. The text is of at most 16,777,216 bytes.
/// Where a read was refused nothing is said of the piece.
#[derive(Drop)]
pub struct TextPieces {
    buffer: Buffer,
    end: usize,
    is_last: bool,
}

impl Model for TextPieces {
    ghost use Rattle.std.specs.Prelude.{◌≡◌, ◌<◌, ◌≤◌, false, length, take, drop};
    ghost use Rattle.vk_edge.specs.Pieces.{Pieces};

    ghost Value = { Pieces };

    ghost view = { λ t. record {
      piece = take t.end t.buffer.bytes;
      behind = drop t.end t.buffer.bytes;
      count = t.buffer.count;
      is_last = t.is_last;
    } };

    ghost invariant = { λ t. (t.end ≤ length t.buffer.bytes) × (t.is_last ≡ false → 0 < t.buffer.count) };
}

impl TextPieces {
    /// Reads the first piece.
    pub fn first<S: Source>(alloc: Global, input: &mut S) -> Result<TextPieces, ReadRefusal>
        ensures piece { IfOk result (IsNextPiece (S.left input.old) (S.left input.new) [] 0) }
        ensures refused { IfErr result (IsUnreadBehind 0 (S.left input.old) (S.left input.new)) }
        ensures kept { OnOk result (S.fault_count input.new ≡ S.fault_count input.old) }
        ensures cause { IfErr result (λ e. TellsFault (S.fault_count input.old) (S.fault_count input.new) (Err e)) }
        ensures never_falls { S.fault_count input.old ≤ S.fault_count input.new }
    {
        let mut start = [0u8; START];
        let count = match input.read(&mut start) {
            Ok(count) => count,
            Err(Failed) => return Err(ReadRefusal::Failed),
        };
        if count == 0 {
            return Ok(TextPieces {
                buffer: Buffer::empty(alloc),
                end: 0,
                is_last: true,
            });
        }
        let Ok(mut buffer) = Buffer::new(alloc, &start[..count]) else {
            return Err(ReadRefusal::NoMemory);
        };
        let cut = buffer.read_line(input)?;
        Ok(TextPieces {
            buffer,
            end: cut.end,
            is_last: cut.is_last,
        })
    }

    /// Forgets the piece, and reads the next.
    pub fn next<S: Source>(&mut self, input: &mut S) -> Result<(), ReadRefusal>
        requires { self.old.is_last ≡ false }
        ensures piece { OnOk result (IsNextPiece (S.left input.old) (S.left input.new) self.old.behind self.old.count self.new) }
        ensures refused { IfErr result (IsUnreadBehind self.old.count (S.left input.old) (S.left input.new)) }
        ensures kept { OnOk result (S.fault_count input.new ≡ S.fault_count input.old) }
        ensures cause { IfErr result (λ e. TellsFault (S.fault_count input.old) (S.fault_count input.new) (Err e)) }
        ensures never_falls { S.fault_count input.old ≤ S.fault_count input.new }
    {
        self.buffer.forget(self.end);
        self.end = 0;
        let cut = self.buffer.read_line(input)?;
        self.end = cut.end;
        self.is_last = cut.is_last;
        Ok(())
    }

    /// Reads to the end: the piece is then all that was shown and what stands behind it.
    pub fn read_rest<S: Source>(&mut self, input: &mut S) -> Result<(), ReadRefusal>
        requires { self.old.is_last ≡ false }
        ensures last { OnOk result (self.new.is_last ≡ true) }
        ensures piece { OnOk result (IsNextPiece (S.left input.old) (S.left input.new)
            (self.old.piece ++ self.old.behind) self.old.count self.new) }
        ensures refused { IfErr result (IsUnreadBehind self.old.count (S.left input.old) (S.left input.new)) }
        ensures kept { OnOk result (S.fault_count input.new ≡ S.fault_count input.old) }
        ensures cause { IfErr result (λ e. TellsFault (S.fault_count input.old) (S.fault_count input.new) (Err e)) }
        ensures never_falls { S.fault_count input.old ≤ S.fault_count input.new }
    {
        self.end = 0;
        self.buffer.read_rest(input)?;
        self.end = self.buffer.as_slice().len();
        self.is_last = true;
        Ok(())
    }

    /// Reads to the end and keeps nothing.
    pub fn skip_rest<S: Source>(&mut self, input: &mut S) -> Result<(), ReadRefusal>
        requires { self.old.is_last ≡ false }
        ensures read { OnOk result (IsReadOut (S.left input.old) (S.left input.new) self.old.count self.new.count) }
        ensures refused { IfErr result (IsUnreadBehind self.old.count (S.left input.old) (S.left input.new)) }
        ensures kept { OnOk result (S.fault_count input.new ≡ S.fault_count input.old) }
        ensures cause { IfErr result (λ e. TellsFault (S.fault_count input.old) (S.fault_count input.new) (Err e)) }
        ensures never_falls { S.fault_count input.old ≤ S.fault_count input.new }
    {
        self.end = 0;
        self.buffer.skip_rest(input)?;
        self.is_last = true;
        Ok(())
    }

    /// The piece.
    pub fn piece(&self) -> &[u8]
        ensures { result.now ≡ self.now.piece }
    {
        &self.buffer.as_slice()[..self.end]
    }

    /// Whether the piece is the last.
    pub fn is_last(&self) -> bool
        ensures { result ≡ self.now.is_last }
    {
        self.is_last
    }
}
