//! A small impulse given to small momenta, in 64 bits.

ghost use Rattle.std.specs.Prelude.{◌≡◌, ℕ, ◌^◌, ◌≤◌, ◌+◌, Some, unsigned_abs};
ghost use Rattle.fixed_geom.specs.Reciprocals.{share_reciprocal};
ghost use Rattle.fixed_geom.specs.Vectors.{IsWithin};
ghost use Rattle.momenta.specs.Impulses.{given, impulse_pair, turned_by};
ghost use Rattle.momenta.specs.ImpulseBounds.{AreStates};
ghost use Rattle.momenta.specs.Line64.{LeaveRoom64, IsImpulse, LeavesRoom64, ends_with, with_momenta};

use crate::{BodyState, Momenta64, MomentaPair64};
use fixed_geom::{MAX_OFFSET, Vec2, cross_64, opposite, plus};

/// An angular momentum with the moment of an impulse, of a body that turns, if it does.
#[inline(always)]
fn maybe_turned_by_64(inertia: i64, l: i64, moment: i64) -> i64
    requires l { unsigned_abs l ≤ 2 ^ 61 }
    requires moment { unsigned_abs moment ≤ 2 ^ 61 }
    ensures value { result ≡ turned_by inertia l moment }
    ensures size { unsigned_abs result ≤ unsigned_abs l + unsigned_abs moment }
{
    if inertia == 0 { l } else { l + moment }
}

/// The same with the reciprocal of its inertia: a body that has one turns.
#[inline(always)]
fn turned_by_64(inertia: i64, reciprocal: i64, l: i64, moment: i64) -> i64
    requires reciprocal { reciprocal ≡ share_reciprocal inertia }
    requires l { unsigned_abs l ≤ 2 ^ 61 }
    requires moment { unsigned_abs moment ≤ 2 ^ 61 }
    ensures value { result ≡ turned_by inertia l moment }
    ensures size { unsigned_abs result ≤ unsigned_abs l + unsigned_abs moment }
{
    if reciprocal == 0 {
        maybe_turned_by_64(inertia, l, moment)
    } else {
        l + moment
    }
}

/// The momenta with a small impulse given at the offset `r`.
#[inline(always)]
fn given_64(body: &BodyState, now: Momenta64, j: Vec2, r: Vec2) -> Momenta64
    requires reciprocal { body.now.reciprocals.inertia ≡ share_reciprocal body.now.mass.inertia }
    requires leaves_room { LeavesRoom64 4 now }
    requires impulse { IsWithin (2 ^ 30) j }
    requires offset { IsWithin (unsigned_abs MAX_OFFSET) r }
    ensures value { with_momenta body.now result ≡ given j r (with_momenta body.now now) }
    ensures leaves_room { (k : ℕ) → LeavesRoom64 k now → LeavesRoom64 (k + 1) result }
{
    if !body.movable {
        return now;
    }
    Momenta64 {
        p: plus(now.p, j),
        l: turned_by_64(
            body.mass.inertia,
            body.reciprocals.inertia,
            now.l,
            cross_64(r, j),
        ),
    }
}

/// A small impulse given to the second body at `rb` and taken from the first at `ra`.
#[inline(always)]
pub(crate) fn impulse_pair_64(
    a: &BodyState,
    b: &BodyState,
    now: MomentaPair64,
    j: Vec2,
    ra: Vec2,
    rb: Vec2,
) -> MomentaPair64
    requires states { AreStates (ends_with a.now b.now now) }
    requires leaves_room { LeaveRoom64 4 now }
    requires impulse { IsWithin (2 ^ 30) j }
    requires first { IsWithin (unsigned_abs MAX_OFFSET) ra }
    requires second { IsWithin (unsigned_abs MAX_OFFSET) rb }
    ensures value { impulse_pair j ra rb (ends_with a.now b.now now) ≡ Some (ends_with a.now b.now result) }
    ensures impulse { IsImpulse a.now b.now now result }
{
    MomentaPair64 {
        a: given_64(a, now.a, opposite(j), ra),
        b: given_64(b, now.b, j, rb),
    }
}
