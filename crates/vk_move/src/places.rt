//! Bytes of a move are written so far behind a place of a memory.

ghost use Rattle.std.specs.Prelude.{◌≡◌, ◌≤◌, ◌<◌, ◌+◌, ◌++◌, ◌∷◌, [], ◌^◌, length, option_copied};
ghost use Rattle.vk_base.specs.declared.limits.TheConstants.{STEPS};
ghost use Rattle.vk_base.specs.Firsts.{change_first};
ghost use Rattle.vk_move.specs.Moved.{place_behind, place_in};
ghost use Rattle.vk_move.specs.Mover.{piece_written};
ghost use Rattle.vk_procs.specs.Seats.{is_seat, written};
ghost use Rattle.vk_rules.specs.PacketOutcomes.{copies_bytes};

use crate::moves::Piece;
use vk_base::{MoveName, Pid};
use vk_brief::{BriefStep, Steps};
use vk_procs::{Procs, Seat};

/// The place so far behind `start`, where the process has so much memory.
fn place_behind(seat: Option<&Seat>, start: u32, offset: u32) -> Option<u32>
    ensures { result ≡ place_behind (option_copied seat.entry) start offset }
{
    let Some(seat) = seat else {
        return None;
    };
    if start as u64 + offset as u64 <= seat.memory.size() as u64 {
        Some(start + offset)
    } else {
        None
    }
}

/// Writes bytes into the memory of the process, `offset` behind `start`. Where they do not all lie in it, nothing changes.
fn write_behind(procs: &mut Procs, pid: Pid, start: u32, offset: u32, bytes: &[u8])
    ensures { procs.new ≡ change_first (is_seat pid) (written (place_in start offset) bytes.now) procs.old }
{
    if let Some(at) = place_behind(procs.seat(pid), start, offset) {
        procs.write(pid, at, bytes);
    }
}

/// The next bytes of a move are written into the memory of the process, of a range that starts at `dest`.
#[inline(always)]
pub fn write_piece(
    procs: &mut Procs,
    steps: &mut Steps,
    pid: Pid,
    name: MoveName,
    dest: u32,
    piece: Piece<'_>,
)
    requires few { length piece.bytes.now < 2 ^ 32 }
    requires room { length steps.old + 1 ≤ STEPS }
    ensures seats { procs.new ≡ piece_written pid dest piece.entry.offset piece.entry.bytes.now procs.old }
    ensures steps { steps.new ≡ steps.old
        ++ copies_bytes name.exchange name.number piece.entry.offset piece.entry.bytes.now ∷ [] }
{
    write_behind(procs, pid, dest, piece.offset, piece.bytes);
    steps.push(BriefStep::Copy {
        sender: name.exchange.sender,
        number: name.exchange.number,
        moving: name.number,
        offset: piece.offset,
        count: piece.bytes.len() as u32,
    });
}
