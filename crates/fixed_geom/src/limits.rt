//! The limits of the numbers of a world that several crates speak of.

ghost use Rattle.std.specs.Prelude.{◌≡◌, pos};

use crate::{MAX_FACING, MIN_FACING, UNIT};

/// The greatest size of a coordinate of a body's centre, in u: the edge of the world.
pub const MAX_POSITION: i64 = 1 << 36;

/// The greatest size of a coordinate of a corner of a fat box, and of a region that is asked about, in u.
pub const MAX_CORNER: i64 = 1 << 37;

/// The greatest size of a coordinate of a contact point, given from the centre of one of its bodies, and of its
/// separation, in u.
pub const MAX_OFFSET: i64 = 1 << 27;

/// The greatest size of a spin, which is 2^30 times the tangent of the turn of a tick: a tangent of a quarter.
pub const MAX_SPIN: i64 = 1 << 28;

/// The greatest accumulated normal impulse of a contact point, in mass·u/tick.
pub const MAX_NORMAL_IMPULSE: i64 = 1 << 42;

/// The greatest size of the accumulated impulse along any line, in mass·u/tick: that of friction is up to twice the
/// normal one.
pub const MAX_LINE_IMPULSE: i64 = 1 << 43;

/// The law of the limits: the numbers that definitions take from the code, in digits. The function does nothing; its
/// contract is the law.
pub fn limits_in_digits()
    ensures position { MAX_POSITION ≡ pos 68719476736 }
    ensures corner { MAX_CORNER ≡ pos 137438953472 }
    ensures offset { MAX_OFFSET ≡ pos 134217728 }
    ensures spin { MAX_SPIN ≡ pos 268435456 }
    ensures normal_impulse { MAX_NORMAL_IMPULSE ≡ pos 4398046511104 }
    ensures impulse { MAX_LINE_IMPULSE ≡ pos 8796093022208 }
    ensures facing { MAX_FACING ≡ 1073741826 }
    ensures least_facing { MIN_FACING ≡ 1073741822 }
    ensures unit { UNIT ≡ pos 1073741824 }
{}
