//! The whole top call: what runs in threads, and behind it all that needs no runtime.

ghost use Rattle.std.specs.Prelude.{◌≡◌, ◌≢◌, ◌≤◌, ◌⊎◌, ℕ, false, Some, map, string_bytes};
ghost use Rattle.vk_edge.specs.Answers.{TellsFaults};
ghost use Rattle.vk_top.specs.Jobs.{IsAloneAnswer};
ghost use Rattle.vk_top.specs.Nodes.{IsNodeAnswer, Passed};
ghost use Rattle.vk_top.specs.Runs.{IsRunAnswer};
ghost use Rattle.vk_top.specs.Words.{is_threaded, job_of};

use crate::node::node;
use crate::run::run;
use crate::status::Status;
use crate::top::vkernel_alone;
use crate::words::{Invocation, read_words};
use std::alloc::Global;
use std::net::Net;
use std::sync::Wait;
use std::thread::Threads;
use std::time::Clock;
use vk_base::NoMemory;
use vk_io::{Crew, Pacer, Sink, Source};
use vk_udp::Wire;

/// The whole work that the words ask for. For all words but those of `run` and `node H` it is that of [`vkernel_alone`], and crew, pacer
/// and wire are not asked. `run` reads a scenario, runs its stations beside each other, each process and each station's pump in a job of
/// its own and the clock in one more, and writes the schedule of what happened, which `replay` reads. `node H` reads a scenario that has
/// the station H and a port of each station, runs the programs of its station H, and by the wire sends frames to the ports of the others
/// and takes those that come at its own; it writes what happened there, a node text, which `join` reads. The input is read to its end, then
/// its text is read, then the jobs run, and only then is anything written; after it is flushed once. `Limit` comes for more than 16,777,216
/// bytes, and then nothing is written; or where a limit of events, emitted bytes or frames ended the run, and then all that happened is
/// written. `CrewFault` comes where the crew failed, `LinkFault` where the wire or its link did. The pacer waits between the ticks of the
/// stations' clocks.
///
/// `run` and `node H` may wait for their jobs. Where the source does not tell what is left, the clauses speak of some input that it may
/// have had.
pub fn vkernel<
    S: Source,
    K: Sink,
    C: Crew,
    P: Pacer + Send,
    W: Wire,
    R: Wait + Threads + Clock + Net + Sync,
>(
    rt: &R,
    alloc: Global,
    words: &[String],
    input: &mut S,
    output: &mut K,
    crew: &mut C,
    pacer: &mut P,
    wire: &mut W,
) -> Status
    // Words that are neither those of `run` nor of `node H` are answered without crew and wire.
    ensures others { is_threaded (job_of (map string_bytes words.now)) ≡ false →
        IsAloneAnswer (input.new ≡ input.old) (output.new ≡ output.old) (map string_bytes words.now) (S.left input.old) (S.left input.new)
        (K.written output.old) (K.written output.new) result }
    ensures idle { is_threaded (job_of (map string_bytes words.now)) ≡ false → (crew.new ≡ crew.old) × (wire.new ≡ wire.old) }
    // The words of `run` have their own answers, without the wire.
    ensures run { job_of (map string_bytes words.now) ≡ Some Invocation.Run →
        IsRunAnswer (input.new ≡ input.old) (output.new ≡ output.old) (crew.new ≡ crew.old) (S.left input.old) (S.left input.new)
        (C.job_count crew.old) (C.job_count crew.new) (K.written output.old) (K.written output.new) result }
    ensures unlinked { job_of (map string_bytes words.now) ≡ Some Invocation.Run → wire.new ≡ wire.old }
    // And so have those of `node H`.
    ensures node { (host : ℕ) → job_of (map string_bytes words.now) ≡ Some (Invocation.Node host) →
        IsNodeAnswer host (input.new ≡ input.old) (output.new ≡ output.old) ((crew.new ≡ crew.old) × (wire.new ≡ wire.old))
        (S.left input.old) (S.left input.new)
        (record { handed = W.handed wire.old; jobs = C.job_count crew.old })
        (record { handed = W.handed wire.new; jobs = C.job_count crew.new }) (K.written output.old) (K.written output.new) result }
    // What was written is flushed, unless a write failed, or the flush did: at Done, and at each other answer that writes a text.
    ensures flushed { result ≡ Status.Done → K.flushed output.new }
    ensures all_flushed { result ≢ Status.WriteFault → (output.new ≡ output.old) ⊎ K.flushed output.new }

    // ReadFault, WriteFault, CrewFault and LinkFault are answered only where a fault of the input, the output, the crew and the wire was
    // counted, and every such fault is told so. The counts never fall.
    ensures read_faults { TellsFaults Status.ReadFault result (S.fault_count input.old) (S.fault_count input.new) }
    ensures write_faults { TellsFaults Status.WriteFault result (K.fault_count output.old) (K.fault_count output.new) }
    ensures crew_faults { TellsFaults Status.CrewFault result (C.fault_count crew.old) (C.fault_count crew.new) }
    ensures link_faults { TellsFaults Status.LinkFault result (W.fault_count wire.old) (W.fault_count wire.new) }
    ensures read_faults_never_fall { S.fault_count input.old ≤ S.fault_count input.new }
    ensures write_faults_never_fall { K.fault_count output.old ≤ K.fault_count output.new }
    ensures crew_faults_never_fall { C.fault_count crew.old ≤ C.fault_count crew.new }
    ensures link_faults_never_fall { W.fault_count wire.old ≤ W.fault_count wire.new }
{
    match vkernel_alone(alloc, words, input, output) {
        Some(status) => status,
        None => match read_words(alloc, words) {
            Ok(Some(Invocation::Run)) => run(rt, alloc, input, output, crew, pacer),
            Ok(Some(Invocation::Node { host })) => node(
                rt, alloc, host, input, output, crew, pacer, wire,
            ),
            Ok(_) => unreachable!(),
            Err(NoMemory) => Status::NoMemory,
        },
    }
}
