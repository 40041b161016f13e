//! What changes in a world as islands wake and fall asleep.

use plain_world::Constraint;
use sleep_wake::Sets;
use world_core_base::{BodyTable, SleepingSets};

/// The bodies, the islands of the movers, and what sleeps with them.
#[derive(Drop)]
pub(crate) struct Activity {
    pub bodies: BodyTable,
    // The constraints, the islands of their movers, and the colours of those that act.
    pub sets: Sets<Constraint>,
    // The joints that sleep, by slot.
    pub joint_sets: SleepingSets,
    // The contacts that sleep, by number.
    pub contact_sets: SleepingSets,
}
