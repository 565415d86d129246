//! Helpers and their members.

ghost use Rattle.std.specs.Prelude.{◌≡◌};
ghost use Rattle.vk_event.specs.Pairs.{are_different, are_pairs, belongs_once, helps_once};

use vk_base::Pid;

/// Members of a group.
pub const GROUP_MEMBERS: usize = 16;

/// A helper, and the member to which it sends.
#[derive(Clone, Copy, Debug, PartialEq, Eq)]
pub struct HelperPair {
    pub helper: Pid,
    pub member: Pid,
}

/// Whether this process is the helper of one pair and no other.
fn helps_once(pairs: &[HelperPair], pid: Pid) -> bool
    ensures { result ≡ helps_once pairs.now pid }
{
    pairs.iter().filter(|pair| pair.helper == pid).count() == 1
}

/// Whether it is the member of one pair and no other.
fn belongs_once(pairs: &[HelperPair], pid: Pid) -> bool
    ensures { result ≡ belongs_once pairs.now pid }
{
    pairs.iter().filter(|pair| pair.member == pid).count() == 1
}

/// Whether no two helpers are equal, and no two members.
fn are_different(pairs: &[HelperPair]) -> bool
    ensures { result ≡ are_different pairs.now }
{
    pairs.iter().all(|pair| helps_once(pairs, pair.helper) && belongs_once(pairs, pair.member))
}

/// Whether these are the pairs of a group: 1 to 16, no two helpers equal and no two members.
pub fn are_pairs(pairs: &[HelperPair]) -> bool
    ensures { result ≡ are_pairs pairs.now }
{
    !pairs.is_empty() && pairs.len() <= GROUP_MEMBERS && are_different(pairs)
}
