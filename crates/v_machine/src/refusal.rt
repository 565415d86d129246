//! Why a step is not applied.

ghost use Rattle.std.specs.Prelude.{◌≡◌};
ghost use Rattle.v_machine.specs.declared.refusal.ApplyRefusal.TheVariants.{NoMemory as memory_wanting};

use thiserror::Error;
use vk_base::NoMemory;

/// Why a step was not applied.
#[derive(Clone, Copy, Debug, PartialEq, Eq, Error)]
pub enum ApplyRefusal {
    /// The kernel does not allow it.
    #[error("the step is not allowed")]
    NotAllowed,
    /// More than 268,435,456 bytes would be noted for remote moves.
    #[error("too many bytes would be noted")]
    Limit,
    /// Memory was wanting.
    #[error("out of memory")]
    NoMemory,
}

impl From<NoMemory> for ApplyRefusal {
    ghost from_gives = { λ _ e. e ≡ memory_wanting };

    fn from(_wanting: NoMemory) -> ApplyRefusal {
        ApplyRefusal::NoMemory
    }
}
