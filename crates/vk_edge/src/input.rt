//! The input, read to its end.

ghost use Rattle.std.specs.Prelude.{◌≡◌, ◌≤◌, [], length, Some, IfSome, IfOk, IfErr};
ghost use Rattle.vk_base.specs.declared.limits.TheConstants.{INPUT_BYTES};
ghost use Rattle.vk_edge.specs.Inputs.{IsText, IsUnread};
ghost use Rattle.vk_io.specs.Causes.{TellsFault};

use std::alloc::Global;
use vk_base::limits::INPUT_BYTES;
use vk_io::{ReadRefusal, Source, read_all};

/// The text of the input, read to its end, of at most 16,777,216 bytes.
pub fn read_text<S: Source>(alloc: Global, input: &mut S) -> Result<Vec<u8>, ReadRefusal>
    ensures text { IfOk result (λ text. IsText (S.left input.old) (S.left input.new) text.items) }
    ensures refused { IfErr result (IsUnread (S.left input.old) (S.left input.new)) }
    ensures cause { TellsFault (S.fault_count input.old) (S.fault_count input.new) result }
    ensures never_falls { S.fault_count input.old ≤ S.fault_count input.new }
{
    read_all(alloc, input, INPUT_BYTES)
}
