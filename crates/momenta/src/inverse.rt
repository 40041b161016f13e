//! The inverse of the mass that two bodies show along a line.

ghost use Rattle.std.specs.Prelude.{◌≡◌, ◌^◌, ◌≤◌, ◌⊎◌, true, pos, ◌+ℤ◌, ◌≤ℤ◌, unsigned_abs};
ghost use Rattle.fixed_geom.specs.Numbers.{rdiv};
ghost use Rattle.fixed_geom.specs.Reciprocals.{over_inverse_reciprocal, share_reciprocal};
ghost use Rattle.fixed_geom.specs.Vectors.{IsWithin, cross, unit_length};
ghost use Rattle.momenta.specs.Motions.{IsMass};
ghost use Rattle.momenta.specs.Impulses.{turning_share, inverse_share, inverse_mass};
ghost use Rattle.momenta.specs.ImpulseBounds.{IsState, AreStates};
ghost use Rattle.momenta.specs.Reciprocals.{reciprocals_of};

use crate::accumulated_impulse::INVERSE_LIMIT_64;
use crate::{
    BodyState, Ends, MAX_INERTIA, MAX_INVERSE_MASS, MAX_MASS, MIN_INVERSE_MASS, MassData,
    Reciprocals,
};
use fixed_geom::{
    MAX_OFFSET, UNIT, Vec2, cross_64, inverse_by, over_inverse_reciprocal, quotient_40_by,
    rdiv_unit_64,
};

/// What turning adds to a body's share of the inverse mass: nothing at inertia 0, or where the line goes through the
/// centre.
#[inline(always)]
fn turning_share(inertia: i64, reciprocal: i64, lever: i64) -> i128
    requires inertia { pos 0 ≤ℤ inertia }
    requires inertia_size { unsigned_abs inertia ≤ unsigned_abs MAX_INERTIA }
    requires reciprocal { reciprocal ≡ share_reciprocal inertia }
    requires lever { unsigned_abs lever ≤ 2 ^ 28 }
    ensures value { result ≡ turning_share inertia lever }
    ensures nonnegative { pos 0 ≤ℤ result }
    ensures within { unsigned_abs result ≤ 2 ^ 96 }
{
    if inertia == 0 || lever == 0 {
        0
    } else {
        share_of_inertia(inertia, reciprocal, lever)
    }
}

/// What turning adds, of a body that turns.
#[inline(always)]
fn share_of_inertia(inertia: i64, reciprocal: i64, lever: i64) -> i128
    requires inertia { pos 1 ≤ℤ inertia }
    requires inertia_size { unsigned_abs inertia ≤ unsigned_abs MAX_INERTIA }
    requires reciprocal { reciprocal ≡ share_reciprocal inertia }
    requires lever { unsigned_abs lever ≤ 2 ^ 28 }
    ensures value { result ≡ turning_share inertia lever }
    ensures nonnegative { pos 0 ≤ℤ result }
    ensures within { unsigned_abs result ≤ 2 ^ 96 }
{
    quotient_40_by(lever * lever, inertia, reciprocal)
}

/// The share of a mass without turning, with its reciprocal.
#[inline(always)]
fn share_of_mass(mass: i64, reciprocal: i64) -> i64
    requires positive { pos 1 ≤ℤ mass }
    requires mass { unsigned_abs mass ≤ unsigned_abs MAX_MASS }
    requires reciprocal { pos 0 ≤ℤ reciprocal }
    ensures value { result ≡ rdiv (pos (2 ^ 40)) mass }
    ensures some { MIN_INVERSE_MASS ≤ℤ result }
    ensures within { unsigned_abs result ≤ 2 ^ 40 }
{
    inverse_by(mass, reciprocal)
}

/// The lever of a line through the point at the offset `r`, in u.
#[inline(always)]
fn lever(r: Vec2, direction: Vec2) -> i64
    requires offset { IsWithin (unsigned_abs MAX_OFFSET) r }
    requires direction { IsWithin (unsigned_abs UNIT) direction }
    ensures value { result ≡ rdiv (cross r direction) unit_length }
    ensures within { unsigned_abs result ≤ 2 ^ 28 }
{
    rdiv_unit_64(cross_64(r, direction))
}

/// A mover's share of the inverse mass, with the reciprocals of its mass.
#[inline(always)]
fn share_of_mover(direction: Vec2, r: Vec2, mass: MassData, reciprocals: Reciprocals) -> i128
    requires direction { IsWithin (unsigned_abs UNIT) direction }
    requires offset { IsWithin (unsigned_abs MAX_OFFSET) r }
    requires mass { IsMass mass }
    requires reciprocals { reciprocals ≡ reciprocals_of mass }
    ensures value { result ≡ rdiv (pos (2 ^ 40)) mass.mass +ℤ turning_share mass.inertia (rdiv (cross r direction) unit_length) }
    ensures some { MIN_INVERSE_MASS ≤ℤ result }
    ensures within { unsigned_abs result ≤ 2 ^ 97 }
{
    i128::from(share_of_mass(mass.mass, reciprocals.mass))
        + turning_share(mass.inertia, reciprocals.inertia, lever(r, direction))
}

/// A body's share of the inverse mass.
#[inline(always)]
fn inverse_share(direction: Vec2, r: Vec2, body: &BodyState) -> i128
    requires direction { IsWithin (unsigned_abs UNIT) direction }
    requires offset { IsWithin (unsigned_abs MAX_OFFSET) r }
    requires state { IsState body.now }
    ensures value { result ≡ inverse_share direction r body.now }
    ensures nonnegative { pos 0 ≤ℤ result }
    ensures within { unsigned_abs result ≤ 2 ^ 97 }
    ensures some { body.now.movable ≡ true → MIN_INVERSE_MASS ≤ℤ result }
{
    if body.movable {
        share_of_mover(direction, r, body.mass, body.reciprocals)
    } else {
        0
    }
}

/// The inverse of the mass that two bodies show along `direction` (times 2^30) at these offsets (u), times 2^40: for
/// each mover `1/m + (r × n)²/I`, as in Erin Catto's sequential impulses.
#[tactic(auto, unfolding(crate::specs::Impulses::inverse_mass))]
#[inline(always)]
pub fn inverse_mass(direction: Vec2, ra: Vec2, rb: Vec2, ends: &Ends) -> i128
    requires direction { IsWithin (unsigned_abs UNIT) direction }
    requires first { IsWithin (unsigned_abs MAX_OFFSET) ra }
    requires second { IsWithin (unsigned_abs MAX_OFFSET) rb }
    requires states { AreStates ends.now }
    requires mover { (ends.now.a.movable ≡ true) ⊎ (ends.now.b.movable ≡ true) }
    ensures value { result ≡ inverse_mass direction ra rb ends.now }
    ensures low { MIN_INVERSE_MASS ≤ℤ result }
    ensures high { unsigned_abs result ≤ unsigned_abs MAX_INVERSE_MASS }
{
    inverse_share(direction, ra, &ends.a) + inverse_share(direction, rb, &ends.b)
}

/// The reciprocal of an inverse mass that a `Line` has its impulses taken with: 0 where the inverse is too great to
/// have one.
#[inline(always)]
pub fn inverse_reciprocal(inverse: i128) -> i64
    requires { pos 0 ≤ℤ inverse }
    ensures { result ≡ over_inverse_reciprocal inverse }
{
    if inverse < INVERSE_LIMIT_64 {
        over_inverse_reciprocal(inverse as i64)
    } else {
        0
    }
}
