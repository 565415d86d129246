//! The forms of each text.

ghost use Rattle.std.specs.Prelude.{◌≡◌};
ghost use Rattle.vk_forms.specs.Forms.{body_rows, call_front, calls, extra_front, extra_rows, opening_rows};
ghost use Rattle.vk_text.specs.Lines.{lines_of};

/// Which text a line is of.
#[derive(Clone, Copy, Debug, PartialEq, Eq)]
pub enum TextKind {
    /// A schedule, in either format.
    Schedule,
    /// A scenario, in either format.
    Scenario,
    /// A trace.
    Trace,
    /// A trace with lines of answers.
    Observed,
    /// What stations did that ran as nodes.
    Nodes,
}

/// What stands behind `call PID`, or behind `do PID` in a scenario.
const CALLS: &[u8] = b"send PID MESSAGE
receive
receivesegment COUNT COUNT
reply MESSAGE PID
replysegment MESSAGE PID COUNT COUNT COUNT
forward MESSAGE PID PID
moveto PID COUNT COUNT COUNT
movefrom PID COUNT COUNT COUNT
setpid COUNT PID local
setpid COUNT PID remote
setpid COUNT PID both
getpid COUNT local
getpid COUNT remote
getpid COUNT both
load COUNT COUNT
store COUNT BYTES
exit";

const SCHEDULE_OPENING: &[u8] = b"vkernel 1
vkernel 2
times TRIES INTERVAL LIFE
process PID SIZE
pool HOST POOL";

const SCENARIO_OPENING: &[u8] = b"vkernel scenario 1
vkernel scenario 2
times TRIES INTERVAL LIFE
process PID SIZE
pool HOST POOL";

const TRACE_OPENING: &[u8] = b"vkernel trace 1
process PID SIZE";

const OBSERVED_OPENING: &[u8] = b"vkernel observed 1
process PID SIZE";

const NODES_OPENING: &[u8] = b"vkernel node 1
times TRIES INTERVAL LIFE
process PID SIZE
pool HOST POOL
station HOST";

const SCHEDULE_BODY: &[u8] = b"collect PROCESS
tick HOST
deliver HOST HOST NUMBER OUTPUT";

const SCENARIO_BODY: &[u8] = b"program PROCESS pageserver PAGES COUNT
program PROCESS pageclient PID PAGES COUNT
program PROCESS fileserver FILES COUNT
program PROCESS loader PID FILE
program PROCESS pipeserver COUNT
program PROCESS grouphelper PID PID
port HOST PORT
link BYTE BYTE BYTE SEED
ticks ROUNDS";

const STEPS: &[u8] = b"arrive PID NUMBER
take PID
finish PID
fail PID noprocess
fail PID timedout
open PID NUMBER NUMBER
copy PID NUMBER NUMBER COUNT COUNT
end PID ok
end PID timedout
end PID gone
hear PID NUMBER PID
found PID PID
lost PID
collect PROCESS";

const NODES_BODY: &[u8] = b"collect PROCESS
tick
frame FRAME";

/// The pairs of a group, 1 to 16.
const PAIRS: &[u8] = b"PID PID
PID PID PID PID
PID PID PID PID PID PID
PID PID PID PID PID PID PID PID
PID PID PID PID PID PID PID PID PID PID
PID PID PID PID PID PID PID PID PID PID PID PID
PID PID PID PID PID PID PID PID PID PID PID PID PID PID
PID PID PID PID PID PID PID PID PID PID PID PID PID PID PID PID
PID PID PID PID PID PID PID PID PID PID PID PID PID PID PID PID PID PID
PID PID PID PID PID PID PID PID PID PID PID PID PID PID PID PID PID PID PID PID
PID PID PID PID PID PID PID PID PID PID PID PID PID PID PID PID PID PID PID PID PID PID
PID PID PID PID PID PID PID PID PID PID PID PID PID PID PID PID PID PID PID PID PID PID PID PID
PID PID PID PID PID PID PID PID PID PID PID PID PID PID PID PID PID PID PID PID PID PID PID PID PID PID
PID PID PID PID PID PID PID PID PID PID PID PID PID PID PID PID PID PID PID PID PID PID PID PID PID PID PID PID
PID PID PID PID PID PID PID PID PID PID PID PID PID PID PID PID PID PID PID PID PID PID PID PID PID PID PID PID PID PID
PID PID PID PID PID PID PID PID PID PID PID PID PID PID PID PID PID PID PID PID PID PID PID PID PID PID PID PID PID PID PID PID";

const ANSWERS: &[u8] = b"ok
ok BYTES
ok MESSAGE
ok PID
ok PID MESSAGE
ok PID MESSAGE COUNT
noprocess
timedout
badsegment
notawaiting
noaccess
badrange
toolong
gone
notfound
namesfull
busy
notyet
dead";

/// The forms of the lines that the text begins with.
pub fn opening_rows(text: TextKind) -> &'static [u8]
    ensures { lines_of result.now ≡ opening_rows text }
{
    match text {
        TextKind::Schedule => SCHEDULE_OPENING,
        TextKind::Scenario => SCENARIO_OPENING,
        TextKind::Trace => TRACE_OPENING,
        TextKind::Observed => OBSERVED_OPENING,
        TextKind::Nodes => NODES_OPENING,
    }
}

/// The words in front of a call.
pub fn call_front(text: TextKind) -> &'static [u8]
    ensures { result.now ≡ call_front text }
{
    match text {
        TextKind::Scenario => b"do PROCESS",
        _ => b"call PROCESS",
    }
}

/// The calls.
pub fn call_rows() -> &'static [u8]
    ensures { lines_of result.now ≡ calls }
{
    CALLS
}

/// The words in front of what no other text has: the pairs of a group, or an answer.
pub fn extra_front(text: TextKind) -> &'static [u8]
    ensures { result.now ≡ extra_front text }
{
    match text {
        TextKind::Scenario => b"program PROCESS group COUNT",
        TextKind::Observed => b"saw",
        _ => b"",
    }
}

/// What stands behind those words.
pub fn extra_rows(text: TextKind) -> &'static [u8]
    ensures { lines_of result.now ≡ extra_rows text }
{
    match text {
        TextKind::Schedule => b"",
        TextKind::Scenario => PAIRS,
        TextKind::Trace => b"",
        TextKind::Observed => ANSWERS,
        TextKind::Nodes => b"",
    }
}

/// The forms of all other lines.
pub fn body_rows(text: TextKind) -> &'static [u8]
    ensures { lines_of result.now ≡ body_rows text }
{
    match text {
        TextKind::Schedule => SCHEDULE_BODY,
        TextKind::Scenario => SCENARIO_BODY,
        TextKind::Trace => STEPS,
        TextKind::Observed => STEPS,
        TextKind::Nodes => NODES_BODY,
    }
}
