//! Velocities and spins of small momenta, by the reciprocals of the masses and the inertias.

ghost use Rattle.std.specs.Prelude.{◌≡◌, ◌^◌, ◌≤◌, ◌*◌, pos, ◌≤ℤ◌, unsigned_abs};
ghost use Rattle.fixed_geom.specs.Reciprocals.{rdiv_reciprocal, share_reciprocal};
ghost use Rattle.fixed_geom.specs.Vectors.{IsWithin};
ghost use Rattle.momenta.specs.Motions.{spin, velocity};
ghost use Rattle.momenta.specs.Impulses.{parting, velocity_at};
ghost use Rattle.momenta.specs.ImpulseBounds.{AreStates, IsState};
ghost use Rattle.momenta.specs.Line64.{LeaveRoom64, LeavesRoom64, ends_with, with_momenta};

use crate::line_64::ANGULAR_LIMIT_64;
use crate::state::{carried_back, carried_on};
use crate::{BodyState, MAX_ANGULAR_MOMENTUM, MAX_MASS, Momenta64, MomentaPair64, spin};
use fixed_geom::{MAX_OFFSET, MAX_SPIN, Vec2, minus, rdiv_by, share_by};

/// The spin of any angular momentum.
#[cold]
#[inline(never)]
fn divided_spin(l: i128, inertia: i64) -> i64
    requires momentum { unsigned_abs l ≤ unsigned_abs MAX_ANGULAR_MOMENTUM }
    requires nonnegative { pos 0 ≤ℤ inertia }
    ensures value { result ≡ spin inertia l }
    ensures small { unsigned_abs result ≤ unsigned_abs MAX_SPIN }
{
    spin(l, inertia)
}

/// The spin of an angular momentum, as `spin` has it, with the reciprocal of the inertia.
#[inline(always)]
fn spin_by_64(l: i64, inertia: i64, reciprocal: i64) -> i64
    requires inertia { pos 1 ≤ℤ inertia }
    requires reciprocal { reciprocal ≡ share_reciprocal inertia }
    ensures value { result ≡ spin inertia l }
    ensures small { unsigned_abs result ≤ unsigned_abs MAX_SPIN }
{
    match share_by(l, inertia, reciprocal) {
        Some(w) => w,
        None => divided_spin(i128::from(l), inertia),
    }
}

/// `spin` with the reciprocal of the inertia.
#[inline(always)]
pub(crate) fn spin_by(l: i128, inertia: i64, reciprocal: i64) -> i64
    requires momentum { unsigned_abs l ≤ unsigned_abs MAX_ANGULAR_MOMENTUM }
    requires nonnegative { pos 0 ≤ℤ inertia }
    requires reciprocal { reciprocal ≡ share_reciprocal inertia }
    ensures value { result ≡ spin inertia l }
    ensures small { unsigned_abs result ≤ unsigned_abs MAX_SPIN }
{
    if l == 0 || inertia == 0 {
        0
    } else if -ANGULAR_LIMIT_64 <= l && l < ANGULAR_LIMIT_64 {
        spin_by_64(l as i64, inertia, reciprocal)
    } else {
        divided_spin(l, inertia)
    }
}

/// The velocity of a small momentum, as `velocity` has it, with the reciprocal of the mass.
#[tactic(auto, unfolding(crate::specs::Motions::velocity))]
#[inline(always)]
pub(crate) fn velocity_64(p: Vec2, mass: i64, reciprocal: i64) -> Vec2
    requires momentum { IsWithin (3 * 2 ^ 39) p }
    requires positive { pos 1 ≤ℤ mass }
    requires mass { unsigned_abs mass ≤ unsigned_abs MAX_MASS }
    requires reciprocal { reciprocal ≡ rdiv_reciprocal mass }
    ensures value { result ≡ velocity mass p }
    ensures within { IsWithin (2 ^ 41) result }
{
    Vec2 {
        x: rdiv_by(p.x, mass, reciprocal),
        y: rdiv_by(p.y, mass, reciprocal),
    }
}

/// The velocity of a body's point at the offset `r` (u), in u/tick, with these momenta.
#[inline(always)]
fn velocity_at_64(body: &BodyState, now: Momenta64, r: Vec2) -> Vec2
    requires state { IsState (with_momenta body.now now) }
    requires leaves_room { LeavesRoom64 4 now }
    requires offset { IsWithin (unsigned_abs MAX_OFFSET) r }
    ensures value { result ≡ velocity_at r (with_momenta body.now now) }
    ensures within { IsWithin (2 ^ 61) result }
{
    let v = velocity_64(now.p, body.mass.mass, body.reciprocals.mass);
    if now.l == 0 {
        return v;
    }
    let w = spin_by_64(now.l, body.mass.inertia, body.reciprocals.inertia);
    Vec2 {
        x: carried_back(v.x, w, r.y),
        y: carried_on(v.y, w, r.x),
    }
}

/// The velocity at which the second body's point at the offset `rb` leaves the first's at `ra` (u), in u/tick, with
/// these momenta.
#[tactic(auto, unfolding(crate::specs::Impulses::parting))]
#[inline(always)]
pub fn parting_64(a: &BodyState, b: &BodyState, now: MomentaPair64, ra: Vec2, rb: Vec2) -> Vec2
    requires states { AreStates (ends_with a.now b.now now) }
    requires leaves_room { LeaveRoom64 4 now }
    requires first { IsWithin (unsigned_abs MAX_OFFSET) ra }
    requires second { IsWithin (unsigned_abs MAX_OFFSET) rb }
    ensures value { result ≡ parting ra rb (ends_with a.now b.now now) }
{
    minus(velocity_at_64(b, now.b, rb), velocity_at_64(a, now.a, ra))
}
