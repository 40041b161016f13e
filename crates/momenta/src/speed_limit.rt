//! The speed limit.

ghost use Rattle.std.specs.Prelude.{◌≡◌, ℕ, ◌*◌, ◌^◌, ◌≤◌, true, pos, ◌≤ℤ◌, ◌<ℤ◌, ◌*ℤ◌, unsigned_abs};
ghost use Rattle.fixed_geom.specs.Numbers.{rdiv};
ghost use Rattle.fixed_geom.specs.Vectors.{IsWithin, minus};
ghost use Rattle.momenta.specs.Motions.{IsMass, IsMotion, IsPulled, speed_clamped, clamped_component, signed_as, velocity};

use crate::ranges::are_in;
use crate::{MAX_MASS, MAX_SPEED, MassData, Motion};
use fixed_geom::{Vec2, minus};

/// The speed limit: where a component of the velocity is beyond `MAX_SPEED`, that component of the
/// momentum becomes the mass times the limit, with its sign. Answers the motion and the change of its
/// momentum.
pub fn clamp_speed(motion: Motion, mass: MassData) -> (Motion, Vec2)
    requires mass { IsMass mass }
    requires motion { IsPulled mass motion }
    ensures value { result.0 ≡ speed_clamped mass motion }
    ensures change { result.1 ≡ minus result.0.p motion.p }
    ensures settled { speed_clamped mass result.0 ≡ result.0 }
    ensures kept { result.0 ≡ record motion { p = result.0.p } }
    ensures motion { IsMotion mass result.0 }
    ensures slow { IsWithin (unsigned_abs MAX_SPEED) (velocity mass.mass result.0.p) }
    ensures small { IsWithin (2 ^ 41) result.0.p }
{
    let p = Vec2 {
        x: clamp_component(motion.p.x, mass.mass),
        y: clamp_component(motion.p.y, mass.mass),
    };
    (Motion { p, ..motion }, minus(p, motion.p))
}

/// Whether the momentum is below the mass times `MAX_SPEED`, so that the speed limit leaves it as it is.
#[inline(always)]
pub fn is_slow(motion: Motion, mass: MassData) -> bool
    requires mass { IsMass mass }
    requires motion { IsPulled mass motion }
    ensures same { result ≡ true → speed_clamped mass motion ≡ motion }
    ensures motion { result ≡ true → IsMotion mass motion }
    ensures slow { result ≡ true → IsWithin (unsigned_abs MAX_SPEED) (velocity mass.mass motion.p) }
    ensures room { pos (unsigned_abs motion.p.x) <ℤ (mass.mass *ℤ MAX_SPEED) → pos (unsigned_abs motion.p.y) <ℤ (mass.mass *ℤ MAX_SPEED) → result ≡ true }
{
    is_below_limit(motion.p, mass.mass)
}

/// Whether both components of a momentum are below the mass times `MAX_SPEED`.
#[inline(always)]
fn is_below_limit(p: Vec2, mass: i64) -> bool
    requires positive { pos 1 ≤ℤ mass }
    requires mass { unsigned_abs mass ≤ unsigned_abs MAX_MASS }
    ensures slow { result ≡ true → IsWithin (unsigned_abs MAX_SPEED) (velocity mass p) }
    ensures small { result ≡ true → IsWithin (2 ^ 40) p }
    ensures room { pos (unsigned_abs p.x) <ℤ (mass *ℤ MAX_SPEED) → pos (unsigned_abs p.y) <ℤ (mass *ℤ MAX_SPEED) → result ≡ true }
{
    are_in(p.x, p.y, mass * MAX_SPEED)
}

/// One component of the momentum. The velocity `p / mass`, rounded, is within the limit exactly where
/// `2·|p|` is below `mass·(2·MAX_SPEED + 1)`, which takes no division.
fn clamp_component(p: i64, mass: i64) -> i64
    requires momentum { unsigned_abs p ≤ 2 ^ 61 }
    requires positive { pos 1 ≤ℤ mass }
    requires mass { unsigned_abs mass ≤ unsigned_abs MAX_MASS }
    ensures value { result ≡ clamped_component mass p }
    ensures slow { unsigned_abs (rdiv result mass) ≤ unsigned_abs MAX_SPEED }
    ensures small { unsigned_abs result ≤ 2 ^ 41 }
{
    if 2 * p.unsigned_abs() < mass.unsigned_abs() * (2 * MAX_SPEED.unsigned_abs() + 1) {
        p
    } else {
        limit_of(p, mass)
    }
}

/// The momentum at the speed limit, with the sign of `p`.
fn limit_of(p: i64, mass: i64) -> i64
    requires mass { unsigned_abs mass ≤ unsigned_abs MAX_MASS }
    ensures value { result ≡ mass *ℤ signed_as p (unsigned_abs MAX_SPEED) }
    ensures size { unsigned_abs result ≡ unsigned_abs mass * unsigned_abs MAX_SPEED }
{
    if p >= 0 {
        mass * MAX_SPEED
    } else {
        mass * -MAX_SPEED
    }
}
