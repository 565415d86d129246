//! What most exchanges have not. It lies apart of them, and takes no memory where there is nothing.

ghost use Rattle.std.specs.Prelude.{◌≡◌, ◌≤◌, [], OnOk, OnErr, IfOk};
ghost use Rattle.v_machine.specs.Apart.{only_part, answer_in, handed_in, moves_in};
ghost use Rattle.v_machine.specs.Sends.{begun_moving, opened_moving, written_moving, emptied_moving};

use crate::tables::handed::{Handed, Handing};
use crate::tables::numbered::Numbered;
use crate::tables::remote::Moving;
use std::alloc::Global;
use std::marker::Model;
use vk_base::{List, Move, NoMemory};

/// The first part of the segment, the place and the bytes of the reply, the remote moves, and where the message was handed on to.
#[derive(Drop)]
pub struct Rare {
    pub part: List<u8>,
    pub dest: u32,
    pub bytes: List<u8>,
    pub moving: Moving,
    pub handed: Handed,
}

#[derive(Drop)]
pub struct Apart {
    rare: Option<Box<Rare>>,
}

impl Model for Apart {
    ghost use Rattle.v_machine.specs.declared.tables.apart.Rare.{Rare};
    ghost use Rattle.v_machine.specs.Apart.{rare_in};

    ghost Value = { Rare };

    ghost view = { λ a. rare_in a.rare };
}

impl Apart {
    /// This part alone.
    pub fn new(alloc: Global, part: List<u8>) -> Result<Self, NoMemory>
        ensures { IfOk result (λ a. a ≡ only_part part) }
    {
        if part.len() == 0 {
            return Ok(Apart { rare: None });
        }
        let rare = Some(boxed(alloc, part)?);
        Ok(Apart { rare })
    }

    pub fn part(&self) -> &[u8]
        ensures { result.now ≡ self.now.part }
    {
        match &self.rare {
            Some(rare) => rare.part.as_slice(),
            None => &[],
        }
    }

    pub fn dest(&self) -> u32
        ensures { result ≡ self.now.dest }
    {
        match &self.rare {
            Some(rare) => rare.dest,
            None => 0,
        }
    }

    pub fn bytes(&self) -> &[u8]
        ensures { result.now ≡ self.now.bytes }
    {
        match &self.rare {
            Some(rare) => rare.bytes.as_slice(),
            None => &[],
        }
    }

    pub fn moves(&self) -> &[Move]
        ensures { result.now ≡ self.now.moving.moves }
    {
        match &self.rare {
            Some(rare) => rare.moving.moves.as_slice(),
            None => &[],
        }
    }

    /// The reply has no bytes.
    pub fn clear_answer(&mut self, alloc: Global)
        ensures { self.new ≡ answer_in 0 [] self.old }
    {
        if let Some(rare) = &mut self.rare {
            rare.dest = 0;
            rare.bytes = List::empty(alloc);
        }
    }

    /// The place and the bytes of the reply. Where memory is wanting nothing changes.
    pub fn put_answer(&mut self, alloc: Global, dest: u32, bytes: List<u8>) -> Result<(), NoMemory>
        ensures ok { OnOk result (self.new ≡ answer_in dest bytes self.old) }
        ensures err { OnErr result (self.new ≡ self.old) }
    {
        if let Some(rare) = &mut self.rare {
            rare.dest = dest;
            rare.bytes = bytes;
            return Ok(());
        }
        let mut rare = boxed(alloc, List::empty(alloc))?;
        rare.dest = dest;
        rare.bytes = bytes;
        self.rare = Some(rare);
        Ok(())
    }

    /// One more move. Where memory is wanting nothing changes.
    pub fn push_move(&mut self, alloc: Global, begun: Move) -> Result<(), NoMemory>
        ensures ok { OnOk result (self.new ≡ moves_in (begun_moving begun) self.old) }
        ensures err { OnErr result (self.new ≡ self.old) }
    {
        if let Some(rare) = &mut self.rare {
            return rare.moving.moves.push(begun);
        }
        let mut rare = boxed(alloc, List::empty(alloc))?;
        rare.moving.moves.push(begun)?;
        self.rare = Some(rare);
        Ok(())
    }

    /// Where the message was handed on to last, if it was.
    pub fn handed(&self) -> Option<Handing>
        ensures { result ≡ self.now.handed }
    {
        match &self.rare {
            Some(rare) => rare.handed.get(),
            None => None,
        }
    }

    /// The message is handed on. Where memory is wanting nothing changes.
    pub fn hand_on(&mut self, alloc: Global, handing: Handing) -> Result<(), NoMemory>
        ensures ok { OnOk result (self.new ≡ handed_in handing self.old) }
        ensures err { OnErr result (self.new ≡ self.old) }
    {
        if let Some(rare) = &mut self.rare {
            return rare.handed.put(alloc, handing);
        }
        let mut rare = boxed(alloc, List::empty(alloc))?;
        rare.handed.put(alloc, handing)?;
        self.rare = Some(rare);
        Ok(())
    }

    /// The number of the move that was opened last, 0 where none was.
    pub fn opened(&self) -> u64
        ensures { result ≡ self.now.moving.opened }
    {
        match &self.rare {
            Some(rare) => rare.moving.opened,
            None => 0,
        }
    }

    /// How many bytes of that move were written.
    pub fn done(&self) -> u32
        ensures { result ≡ self.now.moving.done }
    {
        match &self.rare {
            Some(rare) => rare.moving.done,
            None => 0,
        }
    }

    /// The move of a number is the open one from now on, with these bytes, if some are given. Where no move was begun
    /// nothing changes.
    pub fn open(&mut self, number: u64, noted: Option<List<u8>>)
        ensures { self.new ≡ moves_in (opened_moving number noted) self.old }
    {
        if let Some(rare) = &mut self.rare {
            rare.moving.open(number, noted);
        }
    }

    /// So many bytes of the open move were written. Where no move was begun nothing changes.
    pub fn put_done(&mut self, done: u32)
        ensures { self.new ≡ moves_in (written_moving done) self.old }
    {
        if let Some(rare) = &mut self.rare {
            rare.moving.put_done(done);
        }
    }

    /// Of the moves from one number up to another, the spent ones give their bytes back.
    pub fn give_back(&mut self, alloc: Global, from: u64, to: u64)
        requires { from ≤ to }
        ensures { self.new ≡ moves_in (emptied_moving from to) self.old }
    {
        if let Some(rare) = &mut self.rare {
            rare.moving.give_back(alloc, from, to);
        }
    }
}

fn boxed(alloc: Global, part: List<u8>) -> Result<Box<Rare>, NoMemory>
    ensures { IfOk result (λ b. b.value ≡ only_part part) }
{
    let rare = Rare {
        part,
        dest: 0,
        bytes: List::empty(alloc),
        moving: Moving {
            moves: Numbered::new(alloc),
            opened: 0,
            done: 0,
        },
        handed: Handed::none(),
    };
    Ok(Box::new(alloc, rare)?)
}
