//! Calls of a world to which memory may be refused. What refuses it is beside the program: `tests/faults/run`, which
//! also has the worlds.

mod compare;
mod differences;
mod looks;
mod saved;
mod stop;
mod trial;
mod worlds;

use crate::whole_world::WholeWorld;
use crate::worlds::check::Check;
use crate::worlds::seen::Seen;
use differences::compare;
pub use stop::Stop;
pub use trial::{Outcome, try_call};

/// A circle on the ground, two sleepers with a joint, a body that is disabled, a platform, and two movers with a joint
/// that have not moved yet.
pub const SCENE: &str = "gravity 0 -157
floor 0 0 1048576
circle 256 0 0 65536 65536
circle 1 0 10000000 0 100
circle 1 0 10001000 0 100
circle 1 0 10002000 0 100
lift 100 20000000 0
joint 2 3 1000
joint 3 4 1000
disable 4
sleep 2
push 1 5 6
step 4
circle 1 0 40000000 0 100
circle 1 0 40001000 0 100
joint 6 7 1000";

/// Calls that are made in it.
const CALLS: [&str; 18] = [
    "circle 1 0 30000000 0 100",
    "destroy 0",
    "joint 1 2 1000",
    "unjoin 0",
    "push 2 5 6",
    "push 2 1099511627777 0",
    "push_at 2 5 6 7 8",
    "set_pose 2 30000000 0",
    "set_velocity 5 3 4 5",
    "enable 4",
    "step 4",
    "plain",
    "census",
    "copy",
    "frame",
    "save",
    "look",
    "settle",
];

/// Makes each call while all memory is there, then tells what is found in worlds that differ in a known way.
pub fn run<W: WholeWorld>(check: &mut Check<W>) {
    check.name("calls to which no memory is refused");
    for call in CALLS {
        let outcome = try_call::<W>(check.alloc(), SCENE, call);
        check.see(Seen::Trial(call, outcome));
    }
    check.name("what is found in worlds that differ");
    for (difference, change, other) in differences::ALL {
        let found = compare::<W>(check.alloc(), change, other);
        check.see(Seen::Compared(difference, found));
    }
}
