//! Whether two processes are the same.

ghost use Rattle.std.specs.Prelude.{◌≡◌, ◌+◌, ◌*◌};
ghost use Rattle.vk_base.specs.Pids.{same_pid};

use vk_base::Pid;

/// Whether two processes are the same, by one test in place of two.
pub fn is_same(a: Pid, b: Pid) -> bool
    ensures { result ≡ same_pid a b }
{
    both(a) == both(b)
}

/// The numbers of a process in one.
fn both(pid: Pid) -> u32
    ensures { result ≡ pid.local * 65536 + pid.host }
{
    u32::from(pid.local) * 65536 + u32::from(pid.host)
}
