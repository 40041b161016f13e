//! The friction and the restitution of two shapes together.

ghost use Rattle.std.specs.Prelude.{◌≡◌, ◌≤◌, pos, ◌≤ℤ◌, unsigned_abs};
ghost use Rattle.shapes.specs.Mixing.{mixed_friction, mixed_restitution};

use crate::MAX_FRICTION;
use fixed_geom::{isqrt, product};

/// The friction of two shapes together, in 256ths: the root of the product, rounded down, as
/// Box2D mixes it. Each is at most `MAX_FRICTION`.
pub fn mixed_friction(a: i64, b: i64) -> i64
    requires first { pos 0 ≤ℤ a }
    requires second { pos 0 ≤ℤ b }
    requires first_small { unsigned_abs a ≤ unsigned_abs MAX_FRICTION }
    requires second_small { unsigned_abs b ≤ unsigned_abs MAX_FRICTION }
    ensures value { result ≡ mixed_friction a b }
    ensures nonnegative { pos 0 ≤ℤ result }
    ensures small { unsigned_abs result ≤ unsigned_abs MAX_FRICTION }
{
    isqrt(product(a, b)) as i64
}

/// The restitution of two shapes together: the greater.
pub fn mixed_restitution(a: i64, b: i64) -> i64
    ensures { result ≡ mixed_restitution a b }
{
    a.max(b)
}
