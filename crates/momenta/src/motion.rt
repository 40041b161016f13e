//! How a body stands and moves.

ghost use Rattle.std.specs.Prelude.{◌≡◌, ℕ, ◌*◌, ◌^◌, ◌<◌, ◌≤◌, pos, ◌≤ℤ◌, ◌*ℤ◌, unsigned_abs};
ghost use Rattle.fixed_geom.specs.Facings.{IsFacing};
ghost use Rattle.fixed_geom.specs.Numbers.{rdiv};
ghost use Rattle.fixed_geom.specs.Vectors.{IsWithin};
ghost use Rattle.momenta.specs.declared.mass.MassData.{MassData};
ghost use Rattle.momenta.specs.Motions.{IsMotion, limited, spin, velocity};

use crate::MAX_ANGULAR_MOMENTUM;
use fixed_geom::{MAX_POSITION, MAX_SPIN, Rot, Vec2, rdiv_64, share};

/// How a body stands and moves.
///
/// `p` is its momentum (mass·u/tick, each component within ±2^60), `l` its angular momentum (mass·u²/tick,
/// within ±2^90, and 0 for a body of inertia 0), `x` its centre (u, each coordinate within ±2^36), `rot` its facing.
#[derive(Clone, Copy, Debug, PartialEq, Eq)]
pub struct Motion {
    pub p: Vec2,
    pub l: i128,
    pub x: Vec2,
    pub rot: Rot,
}

/// The momentum of a body (mass·u/tick) and its angular momentum (mass·u²/tick).
#[derive(Clone, Copy, Debug, PartialEq, Eq)]
pub struct Momenta {
    pub p: Vec2,
    pub l: i128,
}

impl Motion {
    /// A body at rest, of any mass: no momentum of either kind.
    pub fn at_rest(x: Vec2, rot: Rot) -> Motion
        requires position { IsWithin (unsigned_abs MAX_POSITION) x }
        requires facing { IsFacing rot }
        ensures value { result ≡ record { p = record { x = pos 0; y = pos 0 }; l = pos 0; x = x; rot = rot } }
        ensures motion { (m : MassData) → IsMotion m result }
    {
        Motion {
            p: Vec2 { x: 0, y: 0 },
            l: 0,
            x,
            rot,
        }
    }
}

/// The velocity of a momentum, in u/tick: `p / mass` by component, rounded to the nearest, ties away
/// from zero.
#[inline(always)]
pub fn velocity(p: Vec2, mass: i64) -> Vec2
    requires momentum { IsWithin (2 ^ 62) p }
    requires positive { pos 1 ≤ℤ mass }
    ensures value { result ≡ velocity mass p }
    ensures within { (k : ℕ) → IsWithin (k * unsigned_abs mass) p → IsWithin k result }
{
    Vec2 {
        x: rdiv_64(p.x, mass),
        y: rdiv_64(p.y, mass),
    }
}

/// The spin of an angular momentum, a tangent a tick times 2^30: `l / inertia`, rounded to the nearest,
/// ties away from zero, and then brought within `MAX_SPIN`. A body of inertia 0 has none.
#[inline(always)]
pub fn spin(l: i128, inertia: i64) -> i64
    requires momentum { unsigned_abs l ≤ unsigned_abs MAX_ANGULAR_MOMENTUM }
    requires nonnegative { pos 0 ≤ℤ inertia }
    ensures value { result ≡ spin inertia l }
    ensures small { unsigned_abs result ≤ unsigned_abs MAX_SPIN }
{
    let most = i128::from(inertia);
    if l == 0 || inertia == 0 {
        0
    } else if -most <= l && l <= most {
        spin_64(l as i64, inertia)
    } else {
        greatest_spin(l, inertia)
    }
}

/// The spin of an angular momentum that isn't greater than the inertia.
#[inline(always)]
fn spin_64(l: i64, inertia: i64) -> i64
    requires part { unsigned_abs l ≤ unsigned_abs inertia }
    requires positive { pos 1 ≤ℤ inertia }
    ensures value { result ≡ spin inertia l }
    ensures small { unsigned_abs result ≤ unsigned_abs MAX_SPIN }
{
    limit_spin(share(l, inertia))
}

/// The spin of one that is greater, which would be a tangent of more than one: the limit, with its sign.
#[cold]
#[inline(never)]
fn greatest_spin(l: i128, inertia: i64) -> i64
    requires positive { pos 1 ≤ℤ inertia }
    requires greater { unsigned_abs inertia < unsigned_abs l }
    ensures value { result ≡ spin inertia l }
    ensures small { unsigned_abs result ≤ unsigned_abs MAX_SPIN }
{
    if l < 0 { -MAX_SPIN } else { MAX_SPIN }
}

/// A spin beyond `MAX_SPIN` is put on it.
#[inline(always)]
fn limit_spin(w: i64) -> i64
    ensures value { result ≡ limited (unsigned_abs MAX_SPIN) w }
    ensures small { unsigned_abs result ≤ unsigned_abs MAX_SPIN }
{
    if w > MAX_SPIN {
        MAX_SPIN
    } else if w < -MAX_SPIN {
        -MAX_SPIN
    } else {
        w
    }
}
