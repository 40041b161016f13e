//! Each call of a `JointTable` that takes memory gets it.

use crate::assertions::same_items;
use fixed_geom::{Refusal, ZERO_VECTOR};
use joint_rows::Joint;
use plain_world::BodyJoint;
use std::alloc::Global;
use std::test::Fail;
use world_core_base::JointTable;

/// A joint of length 0 between two bodies.
const fn joint_of(a: u32, b: u32) -> BodyJoint {
    BodyJoint {
        a,
        b,
        collide: false,
        joint: Joint {
            from: ZERO_VECTOR,
            to: ZERO_VECTOR,
            length: 0,
            impulse: 0,
        },
    }
}

/// A table that is given a joint in its second slot, with one more put into its first.
fn two_joints(alloc: Global) -> Result<JointTable, Refusal> {
    let mut table = JointTable::from_joints(alloc, &[None, Some(joint_of(2, 1))])?;
    let more = joint_of(1, 5);
    table.reserve_for(&more)?;
    table.put(0, more);
    Ok(table)
}

#[test]
fn memory_is_had(rt: HostRuntime) -> Result<(), Fail> {
    let table = two_joints(rt.alloc())?;
    let copied = table.try_copy()?;
    same_items(&rt, &copied.slots_of(1)?, &[0, 1]);
    Ok(())
}
