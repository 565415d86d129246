//! Sets of slots, a bit for each.

ghost use Rattle.std.specs.Int.{bit_at};
ghost use Rattle.std.specs.Prelude.{◌≡◌, ◌==◌, ◌<◌, ◌≤◌, ℕ, IfNone, IfSome, if◌then◌else◌};
ghost use Rattle.vk_timer.specs.Sets.{AreOver, IsNextSlot};

/// The lowest slot of the set that is not below `from`, which is at most 32; `None` where there is none.
pub fn next_slot(slots: u32, from: u32) -> Option<u32>
    requires { from ≤ 32 }
    ensures next { IfSome result (IsNextSlot slots from) }
    ensures none { IfNone result (AreOver slots from) }
{
    if from == 32 {
        return None;
    }
    let left = slots >> from;
    if left == 0 {
        None
    } else {
        Some(from + left.trailing_zeros())
    }
}

/// The set with this slot, which is below 32.
pub fn with_slot(slots: u32, slot: u32) -> u32
    requires { slot < 32 }
    ensures { (k : ℕ) → bit_at result k ≡ (if k == slot then 1 else bit_at slots k) }
{
    slots | 1 << slot
}

/// The set without this slot, which is below 32.
pub fn without_slot(slots: u32, slot: u32) -> u32
    requires { slot < 32 }
    ensures { (k : ℕ) → bit_at result k ≡ (if k == slot then 0 else bit_at slots k) }
{
    slots & !(1 << slot)
}
