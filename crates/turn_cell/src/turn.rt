// One turn at a cell's table: it is taken, used for one event or for none, and given back.
ghost use Rattle.std.specs.Prelude.{◌≡◌, ℕ, ◌+◌, ◌*◌, ◌^◌, ◌<◌, true, false, [], ◌∷◌, ◌++◌, length, IsOk, IfErr, OnOk, OnErr};
ghost use Rattle.turn_cell.specs.Held.{Began, HasState, HasTurn, KnowsMine, OnState};
ghost use Rattle.turn_cell.specs.Rooms.{is_full};
ghost use Rattle.turn_cell.specs.Standings.{after_entering, after_looking, after_turn};
ghost use Rattle.turn_cell.specs.Turns.{Returns, Took, Waits};

use crate::replay::{Replay, Room};
use crate::rule::{CellRule, Give, Setup, Standing, Take};
use crate::seat::Place;
use atomic_table::Shared;
use std::alloc::Global;
use std::hint::spin_loop;
use std::sync::Wait;
use std::thread::yield_now;

/// How often it is looked whether the turn is free before other threads may have the processor: as long as most turns take.
const LOOKS: u32 = 100;

/// What a cell's seats share.
pub type Board<S> = Shared<S, Standing<S, <S as Replay>::Event>, Setup<S>, CellRule<S>>;

// Waits until the turn is free, for a short time; else lets other threads have the processor.
fn stand_by<S: Replay>(board: &Board<S>)
    requires { board.now.table_id.words ≡ 1 }
{
    for _ in 0..LOOKS {
        if board.peek(0) % 2 == 0 {
            return;
        }
        spin_loop();
    }
    yield_now();
}

// Waits for the turn, and answers the word that it found: twice the length of the history.
fn take<S: Replay, R: Wait>(rt: &R, board: &Board<S>, seat: &mut Place<S>) -> u64
    requires board { (seat.old.table_id ≡ board.now.table_id) × (board.now.table_id.words ≡ 1) }
    requires waits { Waits (S.origin board.now.key.start.value) seat.old.me }
    ensures same { (seat.new.table_id ≡ seat.old.table_id) × (seat.new.id ≡ seat.old.id) }
    ensures took { Took S.history S.origin seat.old.me result seat.new.me }
{
    for _ in rt.forever() {
        let word = board.peek(0);
        if word % 2 == 0 && board.compare_exchange::<Take>(seat, 0, word, word + 1) == word {
            return word;
        }
        stand_by(board);
    }
    unreachable!()
}

// Gives the turn and the state back.
fn give<S: Replay>(board: &Board<S>, seat: &mut Place<S>, word: u64)
    requires board { (seat.old.table_id ≡ board.now.table_id) × (board.now.table_id.words ≡ 1) }
    requires back { (x : S) × Returns S.history S.origin seat.old.me x × (word ≡ 2 * length (S.history x)) }
    ensures same { (seat.new.table_id ≡ seat.old.table_id) × (seat.new.id ≡ seat.old.id) }
    ensures gave { OnState seat.old.me (λ x. seat.new.me ≡ (after_turn seat.old.me.0 (S.history x), [])) }
{
    board.store::<Give>(seat, 0, word);
}

// Enters the event into the state that the seat has, if there is room.
fn try_enter<S: Replay>(
    board: &Board<S>,
    seat: &mut Place<S>,
    number: u32,
    alloc: Global,
    event: &S::Event,
    out: &mut S::Out,
) -> Result<(), Room>
    requires board { seat.old.table_id ≡ board.now.table_id }
    requires state { HasState seat.old.me (λ x. S.event_fits (S.origin x) event.now) }
    requires out_fits { S.out_fits event.now out.old }
    ensures same { (seat.new.table_id ≡ seat.old.table_id) × (seat.new.id ≡ seat.old.id) × (seat.new.me.0 ≡ seat.old.me.0) }
    ensures out_fits { (other : S.Event) → S.out_fits other out.old → S.out_fits other out.new }
    ensures ok { OnOk result (OnState seat.old.me (λ x. HasState seat.new.me (λ y.
        (S.history y ≡ S.history x ++ (number, event.now) ∷ []) × (S.origin y ≡ S.origin x)
        × (length (S.history x) + 1 < 2 ^ 32) × (S.full_at (S.origin x) (S.history x) event.now ≡ false)
        × S.gives (S.origin x) (S.history x) number event.now out.old out.new))) }
    ensures err { IfErr result (λ why. OnState seat.old.me (λ x. HasState seat.new.me (λ y.
        (S.history y ≡ S.history x) × (S.origin y ≡ S.origin x)
        × (S.full_at (S.origin x) (S.history x) event.now ≡ is_full why)))) }
    ensures unchanged { OnErr result (out.new ≡ out.old) }
    ensures own { OnState seat.old.me (λ x.
        S.ready_at (S.origin x) (S.history x) event.now ≡ true → S.has_own_room event.now ≡ true → IsOk result) }
{
    let state = seat.slot_mut(board, 0);
    state.room(alloc, event)?;
    state.act(number, event, out);
    Ok(())
}

/// Begins a turn: waits for it, and answers the word that it found, which says nothing but to proofs.
pub fn begin<S: Replay, R: Wait>(rt: &R, board: &Board<S>, seat: &mut Place<S>) -> u64
    requires board { (seat.old.table_id ≡ board.now.table_id) × (board.now.table_id.words ≡ 1) }
    requires waits { Waits (S.origin board.now.key.start.value) seat.old.me }
    ensures same { (seat.new.table_id ≡ seat.old.table_id) × (seat.new.id ≡ seat.old.id) }
    ensures began { Began seat.old.me seat.new.me }
    ensures turn { HasTurn S.history S.origin (S.origin board.now.key.start.value) seat.new.me result }
{
    take(rt, board, seat)
}

/// Whether the event may come after the history so far.
pub fn is_ready<S: Replay>(
    board: &Board<S>,
    seat: &mut Place<S>,
    word: u64,
    event: &S::Event,
) -> bool
    requires board { seat.old.table_id ≡ board.now.table_id }
    requires turn { HasTurn S.history S.origin (S.origin board.now.key.start.value) seat.old.me word }
    ensures same { (seat.new.table_id ≡ seat.old.table_id) × (seat.new.id ≡ seat.old.id) × (seat.new.me ≡ seat.old.me) }
    ensures turn { HasTurn S.history S.origin (S.origin board.now.key.start.value) seat.new.me word }
    ensures ready { result ≡ S.ready_at (S.origin board.now.key.start.value) seat.old.me.0.account.seen event.now }
{
    let _ = word;
    let state = seat.slot_mut(board, 0);
    state.is_ready(event)
}

/// Ends a turn in which nothing was entered.
pub fn leave<S: Replay>(board: &Board<S>, seat: &mut Place<S>, word: u64)
    requires board { (seat.old.table_id ≡ board.now.table_id) × (board.now.table_id.words ≡ 1) }
    requires turn { HasTurn S.history S.origin (S.origin board.now.key.start.value) seat.old.me word }
    ensures same { (seat.new.table_id ≡ seat.old.table_id) × (seat.new.id ≡ seat.old.id) }
    ensures ended { seat.new.me ≡ (after_looking seat.old.me.0, []) }
    ensures mine { KnowsMine seat.new.me }
{
    give(board, seat, word);
}

/// Ends a turn, in which it enters the event if there is room.
pub fn enter<S: Replay>(
    board: &Board<S>,
    seat: &mut Place<S>,
    word: u64,
    number: u32,
    alloc: Global,
    event: &S::Event,
    out: &mut S::Out,
) -> Result<(), Room>
    requires board { (seat.old.table_id ≡ board.now.table_id) × (board.now.table_id.words ≡ 1) }
    requires turn { HasTurn S.history S.origin (S.origin board.now.key.start.value) seat.old.me word }
    requires number { seat.old.me.0.account.number ≡ number }
    requires event_fits { S.event_fits (S.origin board.now.key.start.value) event.now }
    requires out_fits { S.out_fits event.now out.old }
    ensures same { (seat.new.table_id ≡ seat.old.table_id) × (seat.new.id ≡ seat.old.id) }
    ensures out_fits { (other : S.Event) → S.out_fits other out.old → S.out_fits other out.new }
    ensures mine { KnowsMine seat.new.me }
    ensures ok { OnOk result ((seat.new.me ≡ (after_entering seat.old.me.0 event.now, []))
        × (S.full_at (S.origin board.now.key.start.value) seat.old.me.0.account.seen event.now ≡ false)
        × S.gives (S.origin board.now.key.start.value) seat.old.me.0.account.seen number event.now out.old out.new) }
    ensures err { OnErr result ((seat.new.me ≡ (after_looking seat.old.me.0, [])) × (out.new ≡ out.old)) }
    ensures refused { IfErr result (λ why.
        S.full_at (S.origin board.now.key.start.value) seat.old.me.0.account.seen event.now ≡ is_full why) }
    ensures own { S.ready_at (S.origin board.now.key.start.value) seat.old.me.0.account.seen event.now ≡ true
        → S.has_own_room event.now ≡ true → IsOk result }
{
    match try_enter(board, seat, number, alloc, event, out) {
        Ok(()) => {
            give(board, seat, word + 2);
            Ok(())
        }
        Err(why) => {
            give(board, seat, word);
            Err(why)
        }
    }
}
