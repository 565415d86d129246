//! Steps of messages.

ghost use Rattle.std.specs.Prelude.{◌≡◌, ◌+◌, ◌<◌, ◌≤◌, length, min, ℕ};
ghost use Rattle.vk_base.specs.declared.kernel.Exchange.{Exchange as TheExchange};
ghost use Rattle.vk_base.specs.Kernel.{Kernel, is_live};
ghost use Rattle.vk_base.specs.Ranges.{with_bytes};
ghost use Rattle.vk_base.specs.Steps.{collect_step, take_step, finish_step, fail_step, failure, received, with_part};
ghost use Rattle.v_machine.specs.Kept.{IsKept, kernel_in};
ghost use Rattle.vk_base.specs.Activities.{call_of, answer_of};
ghost use Rattle.v_machine.specs.Queues.{LeadsQueue};
ghost use Rattle.v_machine.specs.Rules.{IsLive, Answers, GoesOrNot, Delivers, HasRoom};

use crate::refusal::ApplyRefusal;
use crate::tables::put::{find, is_live, proc, put_activity, sends_of, sent_of};
use crate::tables::queues::front;
use crate::tables::sent::Sent;
use crate::tables::{Store, begun};
use vk_base::{Activity, Ending, Memory, Name, Observation, Outcome, Pid, Refusal, Waiting};

/// Take.
#[tactic(auto, unfolding(vk_base::specs::Steps::taking))]
pub fn take(store: &mut Store, pid: Pid) -> Option<()>
    requires { IsKept store.old }
    ensures { GoesOrNot (take_step (kernel_in store.old) pid) store.old store.new result }
{
    let at = find(store, pid)?;
    let waiting = proc(store, at).activity.receiving()?;
    let name = front(store, at, pid)?;
    let from = find(store, name.sender)?;
    deliver(store, at, from, name, waiting)
}

/// The process of the first place takes the message of a name of the process of the second, in this receive. The name, which is the
/// first that is kept for its queue, is taken away there, so that the next Take does not look at it.
#[inline(always)]
fn deliver(store: &mut Store, at: usize, from: usize, name: Name, waiting: Waiting) -> Option<()>
    requires at { at < length store.old.procs.items }
    requires from { from < length store.old.sends.items }
    requires queue { at < length store.old.queues.items }
    requires first { LeadsQueue store.old at name }
    requires live { IsLive store.old from name.number }
    ensures { Delivers at from name (call_of waiting) store.old store.new result }
{
    let sent = store.sends[from].get(name.number)?;
    let proc = &mut store.procs[at];
    let outcome = receive_into(&mut proc.memory, sent, waiting, name.sender);
    proc.activity = Activity::Done { waiting, outcome };
    begun::take(&mut store.sends[from], name.number);
    store.queues[at].pop();
    Some(())
}

/// What a receive gives, and the first bytes of the part into the memory, where they were asked for.
#[inline(always)]
fn receive_into(memory: &mut Memory, sent: &Sent, waiting: Waiting, sender: Pid) -> Outcome
    ensures answer { answer_of result ≡ received (call_of waiting) sender sent.now }
    ensures memory { HasRoom (call_of waiting) memory.old → memory.new ≡ with_part (call_of waiting) sent.now memory.old }
{
    let message = sent.shown();
    match waiting {
        Waiting::ReceiveSegment { start, count } => {
            let part = sent.part();
            let count = part_count(count, part);
            let _fits = memory.write(start, &part[..count as usize]);
            Outcome::ReceivedSegment {
                from: sender,
                message,
                count,
            }
        }
        _ => Outcome::Received {
            from: sender,
            message,
        },
    }
}

/// How many bytes of a part come, where so many are asked for.
fn part_count(count: u32, part: &[u8]) -> u32
    ensures { result ≡ min count (length part.now) }
{
    if (count as usize) < part.len() {
        count
    } else {
        part.len() as u32
    }
}

/// Writes the bytes of a reply into its sender's memory, where it has some: most have none.
#[inline(always)]
fn write_reply(memory: &mut Memory, dest: u32, bytes: &[u8])
    requires { dest + length bytes.now ≤ length memory.old }
    ensures { memory.new ≡ with_bytes memory.old dest bytes.now }
{
    if !bytes.is_empty() {
        let _fits = memory.write(dest, bytes);
    }
}

/// Finish.
#[tactic(auto, unfolding(vk_base::specs::Steps::finishing))]
pub fn finish(store: &mut Store, pid: Pid) -> Option<()>
    requires { IsKept store.old }
    ensures { GoesOrNot (finish_step (kernel_in store.old) pid) store.old store.new result }
{
    let at = find(store, pid)?;
    let send = proc(store, at).activity.sending()?;
    let number = sends_of(store, at);
    let sent = store.sends[at].get(number)?;
    let (message, dest, bytes) = sent.replied()?;
    let proc = &mut store.procs[at];
    write_reply(&mut proc.memory, dest, bytes);
    proc.activity = Activity::Done {
        waiting: Waiting::Send {
            target: send.0,
            message: send.1,
        },
        outcome: Outcome::Replied { message },
    };
    Some(())
}

/// Fail.
#[tactic(auto, unfolding(vk_base::specs::Steps::failing))]
pub fn fail(store: &mut Store, pid: Pid, why: Ending) -> Option<()>
    requires { IsKept store.old }
    ensures { GoesOrNot (fail_step (kernel_in store.old) pid why) store.old store.new result }
{
    let at = find(store, pid)?;
    let activity = proc(store, at).activity;
    let _send = activity.sending()?;
    let sent = sent_of(store, at, sends_of(store, at))?;
    if sent.target().host == pid.host {
        return None;
    }
    let why = failure(why, is_live(store, sent.at()))?;
    put_activity(store, at, activity.ended(Outcome::Refused { why }));
    Some(())
}

/// Why a remote Send fails, if the process that has its message is alive or not.
fn failure(why: Ending, live: bool) -> Option<Refusal>
    ensures { (k : Kernel) (e : TheExchange) → is_live (k.procs e.at) ≡ live → result ≡ failure k e why }
{
    match why {
        Ending::TimedOut => Some(Refusal::TimedOut),
        Ending::NoProcess if !live => Some(Refusal::NoProcess),
        _ => None,
    }
}

/// Collect.
#[inline(always)]
#[tactic(auto, unfolding(vk_base::specs::Steps::collecting))]
pub fn collect(store: &mut Store, pid: Pid) -> Result<Option<Observation>, ApplyRefusal>
    requires { IsKept store.old }
    ensures { (room : ℕ) → Answers (collect_step (kernel_in store.old) pid) 0 room store.old store.new result }
{
    let Some(at) = find(store, pid) else {
        return Err(ApplyRefusal::NotAllowed);
    };
    let Some(ended) = proc(store, at).activity.finished() else {
        return Err(ApplyRefusal::NotAllowed);
    };
    put_activity(store, at, Activity::Ready);
    Ok(Some(Observation {
        pid,
        call: ended.0.call(),
        answer: ended.1.answer(),
    }))
}
