//! What the comparison finds in worlds that differ: one that found nothing would let every trial through.

use crate::whole_world::WholeWorld;
use crate::worlds::trials::SCENE;
use crate::worlds::trials::stop::Stop;
use crate::worlds::trials::worlds::TrialWorlds;
use check_scenes::{apply_all, commands_of};
use std::alloc::Global;
use world_core::Command;

/// In what two worlds differ, and the commands that are applied to the one and to the other.
pub const ALL: [(&str, &str, &str); 8] = [
    ("a body was created", "circle 1 0 30000000 0 100", ""),
    ("a body was pushed", "push 1 5 6", ""),
    ("a joint was made", "joint 1 5 1000", ""),
    ("an island was loosened", "disable 7\nenable 7", ""),
    ("sleepers woke", "wake 2", ""),
    ("gravity is another", "gravity 0 80", ""),
    (
        "two pushes came in the other order",
        "push 1 5 6\npush 1 -7 8",
        "push 1 -7 8\npush 1 5 6",
    ),
    ("nothing", "", ""),
];

/// Compares two worlds that differ so, and stops where something is found.
pub fn compare<W: WholeWorld>(alloc: Global, change: &str, other: &str) -> Result<(), Stop> {
    let changes = commands_of(alloc, change)?;
    let others = commands_of(alloc, other)?;
    compare_after::<W>(alloc, changes.as_slice(), others.as_slice())
}

fn compare_after<W: WholeWorld>(
    alloc: Global,
    changes: &[Command],
    others: &[Command],
) -> Result<(), Stop> {
    let mut worlds: TrialWorlds<W> = TrialWorlds::of(alloc, SCENE)?;
    compare_in(&mut worlds, changes, others)
}

fn compare_in<W: WholeWorld>(
    worlds: &mut TrialWorlds<W>,
    changes: &[Command],
    others: &[Command],
) -> Result<(), Stop> {
    apply_all(&mut worlds.world, changes)?;
    apply_all(&mut worlds.before, others)?;
    worlds.expect_kept()
}
