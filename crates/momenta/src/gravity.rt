//! Gravity, as a tick adds it to a momentum.

ghost use Rattle.std.specs.Prelude.{◌≡◌, ◌^◌, ◌≤◌, ◌+ℤ◌, ◌-ℤ◌, ◌*ℤ◌, unsigned_abs};
ghost use Rattle.fixed_geom.specs.Vectors.{IsWithin, minus};
ghost use Rattle.momenta.specs.Motions.{IsMass, IsMotion, IsPulled, pulled};

use crate::{MAX_GRAVITY, MAX_MASS, MAX_MOMENTUM, MassData, Motion};
use fixed_geom::Vec2;

/// A tick of gravity: `mass·gravity` is added to the momentum, before the body moves (semi-implicit
/// Euler, as in Box2D).
///
/// Gravity is in u/tick², each component within ±`MAX_GRAVITY`. The momentum may leave ±`MAX_MOMENTUM` until the speed
/// limit brings it back.
#[inline(always)]
pub fn pull(motion: Motion, mass: MassData, gravity: Vec2) -> Motion
    requires mass { IsMass mass }
    requires motion { IsMotion mass motion }
    requires gravity { IsWithin (unsigned_abs MAX_GRAVITY) gravity }
    ensures value { result ≡ pulled gravity mass motion }
    ensures pulled { IsPulled mass result }
    ensures kept { result ≡ record motion { p = result.p } }
    ensures near { IsWithin (2 ^ 36) (minus result.p motion.p) }
{
    Motion {
        p: Vec2 {
            x: add_product(motion.p.x, mass.mass, gravity.x),
            y: add_product(motion.p.y, mass.mass, gravity.y),
        },
        ..motion
    }
}

/// `p + mass·g`
#[inline(always)]
fn add_product(p: i64, mass: i64, g: i64) -> i64
    requires p { unsigned_abs p ≤ unsigned_abs MAX_MOMENTUM }
    requires mass { unsigned_abs mass ≤ unsigned_abs MAX_MASS }
    requires g { unsigned_abs g ≤ unsigned_abs MAX_GRAVITY }
    ensures value { result ≡ p +ℤ mass *ℤ g }
    ensures small { unsigned_abs result ≤ 2 ^ 61 }
    ensures near { unsigned_abs (result -ℤ p) ≤ 2 ^ 36 }
{
    p + mass * g
}
