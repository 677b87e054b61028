// Sums of counts and lengths.
ghost use Rattle.std.specs.Prelude.{◌≡◌, ◌+◌, IfOk, IsOkUnless};

use crate::WriteError;

/// A count or an offset with so much more. More messages or bytes than a number counts are in no
/// memory.
pub(crate) fn sum(count: u64, more: u64) -> Result<u64, WriteError>
    ensures sum { IfOk result (λ n. n ≡ count + more) }
    ensures only_memory { IsOkUnless result WriteError.Memory }
{
    count.checked_add(more).ok_or(WriteError::Memory)
}
