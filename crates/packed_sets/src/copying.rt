//! Copies of lists.

ghost use Rattle.std.specs.Prelude.{◌≡◌, map, IfOk};
ghost use Rattle.std.specs.Result.{IsOkUnless};

use crate::ItemId;
use fixed_geom::Refusal;
use std::alloc::Global;

/// A copy of each list, in their order.
pub(crate) fn copies<I: ItemId>(alloc: Global, lists: &[Vec<I>]) -> Result<Vec<Vec<I>>, Refusal>
    ensures lists { IfOk result (λ copied. map (λ v. v.items) copied.items ≡ map (λ v. v.items) lists.now) }
    ensures memory_only { IsOkUnless result Refusal.NoMemory }
{
    let mut copied = Vec::with_capacity(alloc, lists.len())?;
    for place in 0..lists.len() {
        let list = Vec::from_slice(alloc, lists[place].as_slice())?;
        copied.push(list)?;
    }
    Ok(copied)
}
