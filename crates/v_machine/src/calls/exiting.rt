//! Exit.

ghost use Rattle.std.specs.Prelude.{◌≡◌, length, filter, not, ℕ, Ok};
ghost use Rattle.vk_base.specs.Calls.{is_message_at};
ghost use Rattle.vk_base.specs.Pids.{same_pid};
ghost use Rattle.vk_base.specs.Activities.{state_of};
ghost use Rattle.v_machine.specs.Kept.{IsKept, IsAt};
ghost use Rattle.v_machine.specs.Leaving.{is_left, left, Leaves, Drops};
ghost use Rattle.v_machine.specs.Lists.{Each};
ghost use Rattle.v_machine.specs.Rules.{Judges};
ghost use Rattle.v_machine.specs.Tables.{process_of};

use crate::calls::response::Response;
use crate::tables::Store;
use crate::tables::begun::{Begun, drop_at};
use crate::tables::latest::Latests;
use crate::tables::places::Places;
use crate::tables::proc::Proc;
use crate::tables::sends::is_message_at;
use vk_base::{Activity, Call, Outcome, Pid, Refusal, Registration};

/// Exit.
pub fn exit(store: &mut Store, at: usize, pid: Pid) -> Response
    requires kept { IsKept store.old }
    requires here { IsAt store.old pid at }
    ensures { Judges pid Call.Exit store.old store.new (Ok result) }
{
    release(&store.places, &store.sends, &mut store.procs, pid);
    drop_at_target(&store.latest, &mut store.sends, pid);
    forget(&mut store.names, pid);
    store.procs[at].alive = false;
    Response::Ok
}

/// The processes of its station that wait on the one that is gone are refused.
fn release(places: &Places, sends: &[Begun], procs: &mut [Proc], gone: Pid)
    requires { length sends.now ≡ length procs.old }
    ensures each { Each (Leaves gone places.now sends.now) procs.old procs.new }
    ensures count { length procs.new ≡ length procs.old }
{
    for at in 0..procs.len() {
        let pid = places.pid(at).unwrap_or(gone);
        leave(&mut procs[at], pid, &sends[at], gone);
    }
}

fn leave(proc: &mut Proc, pid: Pid, sends: &Begun, gone: Pid)
    ensures { (s l : ℕ) → process_of proc.new s l ≡ left gone pid sends.now (process_of proc.old s l) }
{
    if is_left(&proc.activity, pid, sends, gone) {
        let outcome = Outcome::Refused {
            why: Refusal::NoProcess,
        };
        proc.activity = proc.activity.ended(outcome);
    }
}

/// Whether the process of the first pid waits on the one that is gone.
fn is_left(activity: &Activity, pid: Pid, sends: &Begun, gone: Pid) -> bool
    ensures { result ≡ is_left gone pid sends.now (state_of activity.now) }
{
    if pid.host != gone.host || activity.sending().is_none() {
        return false;
    }
    match sends.get(sends.count()) {
        Some(sent) => is_message_at(sent, gone),
        None => false,
    }
}

/// What is queued at the process that is gone, or held by it, is dropped: of each sender that can be only the latest.
fn drop_at_target(latest: &[Latests], sends: &mut [Begun], gone: Pid)
    requires { length latest.now ≡ length sends.old }
    ensures each { Each (Drops gone latest.now) sends.old sends.new }
    ensures count { length sends.new ≡ length sends.old }
{
    for at in 0..sends.len() {
        let number = latest[at].get(gone.host);
        drop_at(&mut sends[at], number, gone);
    }
}

/// The process is registered no more.
fn forget(names: &mut Vec<Registration>, gone: Pid)
    ensures { names.new.items ≡ filter (λ r. not (same_pid r.pid gone)) names.old.items }
{
    names.retain(|r| r.pid != gone);
}
