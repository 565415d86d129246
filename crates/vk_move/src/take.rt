//! A packet of a move comes.

ghost use Rattle.std.specs.Prelude.{◌≡◌, ◌≤◌, ◌<◌, ◌+◌, ◌++◌, true, length};
ghost use Rattle.vk_base.specs.declared.limits.TheConstants.{ROUND_PACKETS, STATION_EVENTS, STEPS};
ghost use Rattle.vk_move.specs.Moved.{HasFitSeats};
ghost use Rattle.vk_move.specs.Right.{IsPacketTaken};
ghost use Rattle.vk_move.specs.Taken.{mover_taken};
ghost use Rattle.vk_packet.specs.Rules.{is_lawful};
ghost use Rattle.vk_packet.specs.Views.{value_of};
ghost use Rattle.vk_stands.specs.Rules.{posted};

use crate::mover::{take_ack, take_bytes, take_gone};
use crate::moves::{Piece, WantedBytes, subject_by};
use crate::sender::{take_data, take_request};
use vk_base::Times;
use vk_brief::Steps;
use vk_packet::{Outbox, PacketView};
use vk_procs::Procs;
use vk_timer::Tick;

/// What a packet of a move does at the tick `now`, below 2^48: a MoveData, MoveAck, MoveRequest, MoveBytes or MoveNegative that keeps to
/// the rules. Any other changes nothing. There is room for two steps and 64 packets.
pub fn take_packet(
    procs: &mut Procs,
    now: u64,
    times: &Times,
    out: &mut Outbox,
    steps: &mut Steps,
    packet: &PacketView,
)
    requires now { now < STATION_EVENTS }
    requires lawful { is_lawful (value_of packet.now) ≡ true }
    requires fit { HasFitSeats procs.old }
    requires packets { length out.old.posts + ROUND_PACKETS ≤ out.old.room }
    requires room { length steps.old + 2 ≤ STEPS }
    ensures { IsPacketTaken times.now now (value_of packet.now) procs.old procs.new steps.old steps.new out.old out.new }
{
    match *packet {
        PacketView::MoveData {
            from,
            to,
            number,
            moving,
            dest,
            total,
            offset,
            bytes,
        } => {
            let piece = Piece {
                total,
                offset,
                bytes,
            };
            let subject = subject_by(from, to, number, moving);
            take_data(procs, out, steps, subject, dest, piece);
        }
        PacketView::MoveRequest {
            from,
            to,
            number,
            moving,
            src,
            total,
            offset,
        } => {
            let asked = WantedBytes { src, total, offset };
            let subject = subject_by(from, to, number, moving);
            take_request(procs, out, steps, subject, asked);
        }
        _ => {
            let tick = Tick {
                at: now,
                times: *times,
            };
            take_to_mover(procs, tick, out, steps, packet);
        }
    }
}

/// What a packet to a mover does.
fn take_to_mover(
    procs: &mut Procs,
    tick: Tick,
    out: &mut Outbox,
    steps: &mut Steps,
    packet: &PacketView,
)
    requires now { tick.at < STATION_EVENTS }
    requires lawful { is_lawful (value_of packet.now) ≡ true }
    requires fit { HasFitSeats procs.old }
    requires packets { length out.old.posts + ROUND_PACKETS ≤ out.old.room }
    requires room { length steps.old + 2 ≤ STEPS }
    ensures seats { procs.new ≡ (mover_taken tick.times tick.at (value_of packet.now) procs.old).seats }
    ensures steps { steps.new ≡ steps.old ++ (mover_taken tick.times tick.at (value_of packet.now) procs.old).steps }
    ensures packets { out.new ≡ posted out.old (mover_taken tick.times tick.at (value_of packet.now) procs.old).packets }
{
    match *packet {
        PacketView::MoveAck {
            from,
            to,
            number,
            moving,
            received,
        } => {
            let subject = subject_by(to, from, number, moving);
            take_ack(procs, tick, out, steps, subject, received);
        }
        PacketView::MoveBytes {
            from,
            to,
            number,
            moving,
            total,
            offset,
            bytes,
        } => {
            let piece = Piece {
                total,
                offset,
                bytes,
            };
            let subject = subject_by(to, from, number, moving);
            take_bytes(procs, tick, out, steps, subject, piece);
        }
        PacketView::MoveNegative {
            from,
            to,
            number,
            moving,
        } => take_gone(procs, steps, subject_by(to, from, number, moving)),
        _ => {}
    }
}
