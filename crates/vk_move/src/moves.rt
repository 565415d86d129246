//! What goes together of a move, as one value.

ghost use Rattle.std.specs.Prelude.{◌≡◌, ◌≤◌, ◌+◌, length};
ghost use Rattle.vk_base.specs.declared.limits.TheConstants.{MOVE_BYTES};
ghost use Rattle.vk_move.specs.Moved.{subject_by};

use vk_base::{Direction, MoveName, Name, Pid};

/// What a packet is about: which move, and who makes it. `moving` is the number of a move, as in packets and steps.
#[derive(Clone, Copy)]
pub struct Subject {
    pub name: MoveName,
    pub mover: Pid,
}

/// What a process calls for: a move of `count` bytes, to a partner or from one.
#[derive(Clone, Copy)]
pub struct Transfer {
    pub way: Direction,
    pub partner: Pid,
    pub dest: u32,
    pub src: u32,
    pub count: u32,
}

/// Which bytes are asked for: of `total` in all, which start at `src`, those from `offset` on.
#[derive(Clone, Copy)]
pub struct WantedBytes {
    pub src: u32,
    pub total: u32,
    pub offset: u32,
}

/// The bytes of one packet: of `total` in all, those from `offset` on.
#[derive(Clone, Copy)]
pub struct Piece<'a> {
    pub total: u32,
    pub offset: u32,
    pub bytes: &'a [u8],
}

/// How many bytes of the move there are up to the end of these.
pub fn end_of(piece: Piece<'_>) -> u32
    requires { piece.offset + length piece.bytes.now ≤ MOVE_BYTES }
    ensures { result ≡ piece.entry.offset + length piece.entry.bytes.now }
{
    piece.offset + piece.bytes.len() as u32
}

/// The move of this number in the Send of this number, which the mover makes.
pub fn subject_by(mover: Pid, sender: Pid, number: u64, moving: u64) -> Subject
    ensures { result ≡ subject_by mover sender number moving }
{
    Subject {
        name: MoveName {
            exchange: Name { sender, number },
            number: moving,
        },
        mover,
    }
}
