//! Replies that were reported and not handed over.

ghost use Rattle.std.specs.Prelude.{◌≡◌, ◌<◌, [], drop, length, slice_get};
ghost use Rattle.vk_group.specs.Notes.{noted};
ghost use Rattle.vk_event.specs.declared.pair.TheConstants.{GROUP_MEMBERS as MOST};

use arrayvec::ArrayVec;
use std::marker::Model;
use vk_base::Message;
use vk_base::limits::MESSAGE_BYTES;
use vk_event::GROUP_MEMBERS;

/// What a member replied.
#[derive(Clone, Copy)]
pub struct Note {
    /// The member's number.
    pub member: u32,
    pub message: Message,
}

impl Default for Note {
    fn default() -> Self {
        Note {
            member: 0,
            message: Message([0; MESSAGE_BYTES]),
        }
    }
}

/// Replies in the order in which they were reported, at most one of each member, which contracts see as their list.
#[derive(Drop)]
pub struct Notes {
    list: ArrayVec<Note, GROUP_MEMBERS>,
}

impl Model for Notes {
    ghost use Rattle.std.specs.Prelude.{List};
    ghost use Rattle.vk_group.specs.declared.notes.Note.{Note as TheNote};

    ghost Value = { List TheNote };

    ghost view = { λ n. n.list.items };
}

impl Notes {
    /// No replies.
    pub fn new() -> Self
        ensures { result ≡ [] }
    {
        Notes {
            list: ArrayVec::new(),
        }
    }

    /// The earliest.
    pub fn first(&self) -> Option<Note>
        ensures { result ≡ slice_get self.now 0 }
    {
        self.list.as_slice().first().copied()
    }

    /// Adds one behind the others where there is one. Of more than 16 the last would be left out; there are never more.
    pub fn note(&mut self, replied: bool, note: Note)
        ensures { length self.old < MOST → self.new ≡ noted replied note self.old }
    {
        if replied {
            let _room = self.list.try_push(note);
        }
    }

    /// Takes the earliest away.
    pub fn drop_first(&mut self)
        ensures { self.new ≡ drop 1 self.old }
    {
        let _first = self.list.pop_at(0);
    }

    /// Takes all away.
    pub fn clear(&mut self)
        ensures { self.new ≡ [] }
    {
        self.list.clear();
    }
}
