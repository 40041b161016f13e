//! Each call of `SleepingSets` that takes memory gets it.

use crate::assertions::same;
use fixed_geom::Refusal;
use std::alloc::Global;
use std::test::Fail;
use world_core_base::SleepingSets;

/// Room for items below four, and for names below two.
fn room_for_four(alloc: Global) -> Result<SleepingSets, Refusal> {
    let mut sets = SleepingSets::new(alloc);
    sets.reserve(4, 2)?;
    Ok(sets)
}

#[test]
fn memory_is_had(rt: HostRuntime) -> Result<(), Fail> {
    let sets = room_for_four(rt.alloc())?;
    same(&rt, &sets.name_of(3), &None);
    same(&rt, &sets.first(1), &None);
    Ok(())
}
