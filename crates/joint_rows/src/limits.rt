//! The limits of a joint, and how fast the solver takes its error away.

ghost use Rattle.std.specs.Prelude.{◌≡◌, pos};

/// The greatest size of a coordinate of an anchor, given from its body's centre in the body's own axes, in u.
pub const MAX_ANCHOR: i64 = 1 << 24;

/// The greatest length of a joint, in u.
pub const MAX_JOINT_LENGTH: i64 = 1 << 25;

/// The greatest size of a joint's accumulated impulse, in mass·u/tick: it may pull and push.
pub const MAX_JOINT_IMPULSE: i64 = 1 << 42;

/// The most of a joint's error that is taken away in a tick, in u.
pub const MAX_JOINT_BIAS: i64 = 16_384;

/// No joint's anchors are farther apart, or nearer, than its length by more than this when a step begins, in u.
pub const MAX_STRETCH: i64 = 1 << 39;

/// The law of the limits: the numbers that definitions take from the code, in digits. The function does nothing; its
/// contract is the law.
pub fn limits_in_digits()
    ensures anchor { MAX_ANCHOR ≡ pos 16777216 }
    ensures length { MAX_JOINT_LENGTH ≡ pos 33554432 }
    ensures impulse { MAX_JOINT_IMPULSE ≡ pos 4398046511104 }
    ensures bias { MAX_JOINT_BIAS ≡ pos 16384 }
    ensures stretch { MAX_STRETCH ≡ pos 549755813888 }
{}
