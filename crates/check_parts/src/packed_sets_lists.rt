//! Each call of a `PackedSets` that takes memory gets it.

use crate::assertions::same;
use fixed_geom::Refusal;
use packed_sets::PackedSets;
use std::alloc::Global;
use std::test::Fail;

/// Two sets of ids below four, with room for two in the second.
fn two_sets(alloc: Global) -> Result<PackedSets<u32>, Refusal> {
    let mut sets = PackedSets::new(alloc);
    sets.reserve(2, 4)?;
    sets.reserve_in(1, 2)?;
    Ok(sets)
}

#[test]
fn memory_is_had(rt: HostRuntime) -> Result<(), Fail> {
    let mut sets = two_sets(rt.alloc())?;
    same(&rt, &sets.add_set()?, &2);
    let copied = sets.try_copy()?;
    same(&rt, &copied.len(), &3);
    same(&rt, &copied.set_of(3), &None);
    Ok(())
}
