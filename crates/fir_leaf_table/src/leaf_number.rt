//! Numbers of leaves.

ghost use Rattle.std.specs.Prelude.{◌≡◌, ◌+◌, IfOk};

use fir_base::MemoryOut;

/// The number of the leaf that stands so many behind one.
pub fn behind(leaf: usize, count: usize) -> Result<usize, MemoryOut>
    ensures { IfOk result (λ number. number ≡ leaf + count) }
{
    leaf.checked_add(count).ok_or(MemoryOut)
}
