//! The sizes of the numbers of shapes' surfaces and of contact points.

ghost use Rattle.std.specs.Prelude.{◌≡◌, unsigned_abs};

use fixed_geom::{
    MAX_LINE_IMPULSE, MAX_NORMAL_IMPULSE as SOLVED_NORMAL_IMPULSE, MAX_OFFSET as POINT_OFFSET, UNIT,
};
use shapes::{MAX_FRICTION as SHAPE_FRICTION, MAX_RESTITUTION as SHAPE_RESTITUTION};

/// The greatest friction, in 256ths.
pub const MAX_FRICTION: u64 = SHAPE_FRICTION as u64;

/// The greatest restitution, in 256ths.
pub const MAX_RESTITUTION: u64 = SHAPE_RESTITUTION as u64;

/// The size of a part of a normal, times 2^30.
pub const MAX_NORMAL: u64 = UNIT as u64;

/// The size of a separation, in u.
pub const MAX_SEPARATION: u64 = POINT_OFFSET as u64;

/// The size of a part of an offset from a body's centre, in u.
pub const MAX_OFFSET: u64 = POINT_OFFSET as u64;

/// The size of an impulse along the normal, in mass·u/tick.
pub const MAX_NORMAL_IMPULSE: u64 = SOLVED_NORMAL_IMPULSE as u64;

/// The size of an impulse across the normal, in mass·u/tick: friction is at most 2, so twice that of one along it.
pub const MAX_TANGENT_IMPULSE: u64 = MAX_LINE_IMPULSE as u64;

/// The law of the limits: the numbers that definitions take from the code, in digits. The function does nothing; its
/// contract is the law.
pub fn limits_in_digits()
    ensures friction { MAX_FRICTION ≡ 512 }
    ensures restitution { MAX_RESTITUTION ≡ 256 }
    ensures normal { MAX_NORMAL ≡ 1073741824 }
    ensures separation { MAX_SEPARATION ≡ 134217728 }
    ensures offset { MAX_OFFSET ≡ 134217728 }
    ensures normal_impulse { MAX_NORMAL_IMPULSE ≡ 4398046511104 }
    ensures tangent_impulse { MAX_TANGENT_IMPULSE ≡ 8796093022208 }
{}

/// The law that limits of one thing agree, wherever they are named: a contact's surface has the numbers that its shapes
/// may have, its normal is a unit vector, and its impulses are those that the solver may leave. The function does
/// nothing; its contract is the law.
pub fn limits_agree()
    ensures friction { MAX_FRICTION ≡ unsigned_abs SHAPE_FRICTION }
    ensures restitution { MAX_RESTITUTION ≡ unsigned_abs SHAPE_RESTITUTION }
    ensures normal { MAX_NORMAL ≡ unsigned_abs UNIT }
    ensures impulse { MAX_TANGENT_IMPULSE ≡ unsigned_abs MAX_LINE_IMPULSE }
{}
