//! Text that grows line by line, of which the last part stands in a draft until there is more of it.

ghost use Rattle.std.specs.Prelude.{◌≡◌, ◌+◌, ◌≤◌, length, take, IfOk, OnOk};
ghost use Rattle.vk_text.specs.Spelling.{StartsWith};
ghost use Rattle.vk_text.specs.Texts.{shown};
ghost use Rattle.vk_text.specs.declared.draft.TheConstants.{DRAFT_ROOM as ROOM};

use crate::draft::{DRAFT_ROOM, Draft, give};
use vk_base::NoMemory;

/// The room that one line may want in a draft.
pub const LINE_ROOM: usize = 200;

/// A text: the bytes that are appended, and those of the draft behind them.
#[derive(Drop)]
pub struct Text {
    pub bytes: Vec<u8>,
    pub draft: Draft,
}

/// Where a text ended: so many bytes were appended, and so many stood in the draft.
#[derive(Clone, Copy)]
pub struct TextEnd {
    bytes: usize,
    draft: usize,
}

impl Text {
    /// The text that these bytes begin.
    pub fn new(bytes: Vec<u8>) -> Text
        ensures { shown result ≡ bytes.items }
    {
        Text {
            bytes,
            draft: Draft::new(),
        }
    }

    /// Where it ends.
    #[inline(always)]
    pub fn end(&self) -> TextEnd
        ensures bytes { result.bytes ≡ length self.now.bytes.items }
        ensures draft { result.draft ≡ length self.now.draft }
    {
        TextEnd {
            bytes: self.bytes.len(),
            draft: self.draft.len(),
        }
    }

    /// Takes away what was written since the text ended there. What was in the draft then may be appended now.
    pub fn cut_back(&mut self, end: TextEnd)
        requires { end.bytes ≤ length self.old.bytes.items }
        ensures { shown self.new ≡ take (end.bytes + end.draft) (shown self.old) }
    {
        let appended = self.bytes.len() - end.bytes;
        if appended < end.draft {
            self.draft.truncate(end.draft - appended);
        } else {
            self.bytes.truncate(end.bytes + end.draft);
            self.draft.clear();
        }
    }

    /// Makes room in the draft for one line more.
    #[inline(always)]
    pub fn make_room(&mut self) -> Result<(), NoMemory>
        ensures same { shown self.new ≡ shown self.old }
        ensures room { OnOk result (length self.new.draft + LINE_ROOM ≤ ROOM) }
        ensures front { StartsWith self.old.bytes.items self.new.bytes.items }
    {
        if self.draft.len() > DRAFT_ROOM - LINE_ROOM {
            return give(&mut self.bytes, &mut self.draft);
        }
        Ok(())
    }

    /// The bytes of the whole.
    pub fn into_bytes(mut self) -> Result<Vec<u8>, NoMemory>
        ensures { IfOk result (λ bytes. bytes.items ≡ shown self) }
    {
        give(&mut self.bytes, &mut self.draft)?;
        Ok(self.bytes)
    }
}
