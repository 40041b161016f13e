//! Impulses between two bodies whose momenta are so small that all is done in 64 bits: what `line` and `state` define,
//! on copies of the momenta alone. Where there is no room, the answer is `None`, and the wide forms are to be used.

ghost use Rattle.std.specs.Prelude.{◌≡◌, ◌^◌, ◌<◌, ◌≤◌, true, pos, ◌+ℤ◌, ◌-ℤ◌, ◌≤ℤ◌, ◌<ℤ◌, unsigned_abs, IfSome, is_some};
ghost use Rattle.fixed_geom.specs.Reciprocals.{over_inverse_reciprocal};
ghost use Rattle.fixed_geom.specs.Vectors.{IsWithin};
ghost use Rattle.momenta.specs.Impulses.{between, exerted, parting, solved_impulse, wanted, warmed};
ghost use Rattle.momenta.specs.ImpulseBounds.{AreStates, IsLine};
ghost use Rattle.momenta.specs.Line64.{LeaveRoom64, HasRoom64, IsImpulse, LeavesRoom64, FitsIn64, ends_with};

use crate::accumulated_impulse::{has_room_64, next_total_64};
use crate::impulses_64::impulse_pair_64;
use crate::line::{VELOCITY_LIMIT_64, along_64, part_along_64};
use crate::ranges::{are_in, is_in};
use crate::{BodyState, Goal, Line, LineImpulse, MIN_INVERSE_MASS};
use fixed_geom::{MAX_LINE_IMPULSE, Vec2, plus};

/// A component of a momentum up to this has room for the quotient by a mass and for some impulses.
const MOMENTUM_LIMIT_64: i64 = 1 << 40;

/// An angular momentum up to this has room for the moments of some impulses.
pub(crate) const ANGULAR_LIMIT_64: i128 = 1 << 60;

/// An impulse up to this has a moment that has room.
const IMPULSE_LIMIT_64: i64 = 1 << 30;

/// Each of two impulses up to this has room for the other.
const HALF_IMPULSE_LIMIT_64: i64 = 1 << 29;

/// The momentum of a body (mass·u/tick) and its angular momentum (mass·u²/tick), in 64 bits.
#[derive(Clone, Copy, Debug, PartialEq, Eq)]
pub struct Momenta64 {
    pub p: Vec2,
    pub l: i64,
}

/// Those of the two bodies of a constraint.
#[derive(Clone, Copy, Debug, PartialEq, Eq)]
pub struct MomentaPair64 {
    pub a: Momenta64,
    pub b: Momenta64,
}

/// Those after an impulse, and the accumulated impulse along the line (mass·u/tick).
#[derive(Clone, Copy, Debug, PartialEq, Eq)]
pub struct Exerted64 {
    pub now: MomentaPair64,
    pub total: i64,
}

/// Whether an angular momentum is small.
#[inline(always)]
fn is_angular_64(l: i128) -> bool
    ensures small { result ≡ true → unsigned_abs l ≤ 2 ^ 60 }
    ensures room { unsigned_abs l < 2 ^ 60 → result ≡ true }
{
    (-ANGULAR_LIMIT_64 <= l) & (l < ANGULAR_LIMIT_64)
}

/// Whether two angular momenta are small.
#[inline(always)]
fn are_angular_64(a: i128, b: i128) -> bool
    ensures a { result ≡ true → unsigned_abs a ≤ 2 ^ 60 }
    ensures b { result ≡ true → unsigned_abs b ≤ 2 ^ 60 }
    ensures room { unsigned_abs a < 2 ^ 60 → unsigned_abs b < 2 ^ 60 → result ≡ true }
{
    is_angular_64(a) & is_angular_64(b)
}

/// Whether the components of two momenta are small.
#[inline(always)]
fn are_linear_64(p: Vec2, q: Vec2) -> bool
    ensures a { result ≡ true → IsWithin (2 ^ 40) p }
    ensures b { result ≡ true → IsWithin (2 ^ 40) q }
    ensures room { unsigned_abs p.x < 2 ^ 40 → unsigned_abs p.y < 2 ^ 40 → unsigned_abs q.x < 2 ^ 40 → unsigned_abs q.y < 2 ^ 40 → result ≡ true }
{
    are_in(p.x, p.y, MOMENTUM_LIMIT_64) & are_in(q.x, q.y, MOMENTUM_LIMIT_64)
}

/// Whether the momenta of two bodies are small: told with no branch before the end, and what has the same limit in one
/// comparison.
#[inline(always)]
fn fit_in_64(a: &BodyState, b: &BodyState) -> bool
    ensures a { result ≡ true → LeavesRoom64 0 (record { p = a.now.motion.p; l = a.now.motion.l }) }
    ensures b { result ≡ true → LeavesRoom64 0 (record { p = b.now.motion.p; l = b.now.motion.l }) }
    ensures room { FitsIn64 a.now.motion → FitsIn64 b.now.motion → result ≡ true }
{
    are_linear_64(a.motion.p, b.motion.p) & are_angular_64(a.motion.l, b.motion.l)
}

/// The momenta of a body, which are small.
#[inline(always)]
fn momenta_of_64(body: &BodyState) -> Momenta64
    requires { LeavesRoom64 0 (record { p = body.now.motion.p; l = body.now.motion.l }) }
    ensures { result ≡ record { p = body.now.motion.p; l = body.now.motion.l } }
{
    Momenta64 {
        p: body.motion.p,
        l: body.motion.l as i64,
    }
}

/// The momenta of two bodies, if they are small.
#[inline(always)]
pub fn momenta_pair_64(a: &BodyState, b: &BodyState) -> Option<MomentaPair64>
    ensures same { IfSome result (λ n. ends_with a.now b.now n ≡ record { a = a.now; b = b.now }) }
    ensures leaves_room { IfSome result (LeaveRoom64 0) }
    ensures room { FitsIn64 a.now.motion → FitsIn64 b.now.motion → is_some result ≡ true }
{
    if fit_in_64(a, b) {
        Some(MomentaPair64 {
            a: momenta_of_64(a),
            b: momenta_of_64(b),
        })
    } else {
        None
    }
}

/// Brings the accumulated impulse from `old` to `new`, if the difference is small.
#[inline(always)]
fn exert_64(
    line: &Line,
    old: i64,
    new: i64,
    a: &BodyState,
    b: &BodyState,
    now: MomentaPair64,
) -> Option<Exerted64>
    requires line { IsLine line.now }
    requires states { AreStates (ends_with a.now b.now now) }
    requires leaves_room { LeaveRoom64 4 now }
    requires old { unsigned_abs old ≤ unsigned_abs MAX_LINE_IMPULSE }
    requires new { unsigned_abs new ≤ unsigned_abs MAX_LINE_IMPULSE }
    ensures value { IfSome result (λ r. exerted line.now old new (ends_with a.now b.now now) ≡ record { ends = ends_with a.now b.now r.now; total = r.total }) }
    ensures impulse { IfSome result (λ r. IsImpulse a.now b.now now r.now) }
    ensures total { IfSome result (λ r. r.total ≡ new) }
    ensures still { IfSome result (λ r. r.total ≡ old → r.now ≡ now) }
    ensures room { unsigned_abs (new -ℤ old) < 2 ^ 30 → is_some result ≡ true }
{
    if new == old {
        return Some(Exerted64 { now, total: new });
    }
    let size = new - old;
    if !is_in(size, IMPULSE_LIMIT_64) {
        return None;
    }
    let j = along_64(line.direction, size);
    Some(Exerted64 {
        now: impulse_pair_64(a, b, now, j, line.ra, line.rb),
        total: new,
    })
}

/// Whether a velocity has a product with a direction that has room in 64 bits.
#[inline(always)]
fn has_product_64(v: Vec2) -> bool
    ensures within { result ≡ true → IsWithin (2 ^ 31) v }
    ensures room { unsigned_abs v.x < 2 ^ 31 → unsigned_abs v.y < 2 ^ 31 → result ≡ true }
{
    are_in(v.x, v.y, VELOCITY_LIMIT_64)
}

/// The accumulated impulse with what brings the speed to the bias, within its range, if there is room.
#[inline(always)]
fn checked_total_64(speed: i64, inverse: i128, reciprocal: i64, goal: Goal) -> Option<i64>
    requires inverse { MIN_INVERSE_MASS ≤ℤ inverse }
    requires reciprocal { reciprocal ≡ over_inverse_reciprocal inverse }
    requires order { goal.low ≤ℤ goal.high }
    requires total { unsigned_abs goal.total ≤ unsigned_abs MAX_LINE_IMPULSE }
    ensures value { IfSome result (λ next. next ≡ between goal.low goal.high (goal.total +ℤ wanted speed goal.bias inverse)) }
    ensures low { IfSome result (λ next. goal.low ≤ℤ next) }
    ensures high { IfSome result (λ next. next ≤ℤ goal.high) }
    ensures room { unsigned_abs speed < 2 ^ 20 → unsigned_abs goal.bias < 2 ^ 20 → inverse <ℤ pos (2 ^ 62) → is_some result ≡ true }
{
    if has_room_64(speed, goal.bias, inverse, reciprocal) {
        let inverse = inverse as i64;
        Some(next_total_64(speed, inverse, reciprocal, goal))
    } else {
        None
    }
}

/// One impulse of the solver, as `solve_line` gives it to the two bodies with the momenta `now`: `None` where something
/// is too large for 64 bits.
#[tactic(auto, unfolding(crate::specs::Impulses::solved_impulse, crate::specs::Impulses::speed_along))]
#[inline(always)]
pub fn solve_line_64(
    line: &Line,
    apart: Vec2,
    goal: Goal,
    a: &BodyState,
    b: &BodyState,
    now: MomentaPair64,
) -> Option<Exerted64>
    requires line { IsLine line.now }
    requires states { AreStates (ends_with a.now b.now now) }
    requires leaves_room { LeaveRoom64 4 now }
    requires apart { apart ≡ parting line.now.ra line.now.rb (ends_with a.now b.now now) }
    requires order { goal.low ≤ℤ goal.high }
    requires low { unsigned_abs goal.low ≤ unsigned_abs MAX_LINE_IMPULSE }
    requires high { unsigned_abs goal.high ≤ unsigned_abs MAX_LINE_IMPULSE }
    requires total { unsigned_abs goal.total ≤ unsigned_abs MAX_LINE_IMPULSE }
    ensures value { IfSome result (λ r. solved_impulse line.now goal.bias goal.low goal.high goal.total (ends_with a.now b.now now) ≡ record { ends = ends_with a.now b.now r.now; total = r.total }) }
    ensures impulse { IfSome result (λ r. IsImpulse a.now b.now now r.now) }
    ensures low { IfSome result (λ r. goal.low ≤ℤ r.total) }
    ensures high { IfSome result (λ r. r.total ≤ℤ goal.high) }
    ensures still { IfSome result (λ r. r.total ≡ goal.total → r.now ≡ now) }
    ensures room { HasRoom64 line.now goal.bias goal.low goal.high goal.total (ends_with a.now b.now now) → is_some result ≡ true }
{
    if !has_product_64(apart) {
        return None;
    }
    let speed = part_along_64(apart, line.direction);
    match checked_total_64(speed, line.inverse_mass, line.reciprocal, goal) {
        None => None,
        Some(next) => exert_64(line, goal.total, next, a, b, now),
    }
}

/// Two accumulated impulses given once more along their lines, which go through the same points, one after the other,
/// to the two bodies with the momenta `now`: `None` where something is too large for 64 bits.
#[inline(always)]
pub fn warm_at_once_64(
    first: LineImpulse,
    second: LineImpulse,
    a: &BodyState,
    b: &BodyState,
    now: MomentaPair64,
) -> Option<MomentaPair64>
    requires first { IsLine first.line }
    requires second { IsLine second.line }
    requires ra { second.line.ra ≡ first.line.ra }
    requires rb { second.line.rb ≡ first.line.rb }
    requires states { AreStates (ends_with a.now b.now now) }
    requires leaves_room { LeaveRoom64 4 now }
    ensures value { IfSome result (λ n. ends_with a.now b.now n ≡ warmed second.line second.impulse (warmed first.line first.impulse (ends_with a.now b.now now))) }
    ensures impulse { IfSome result (λ n. IsImpulse a.now b.now now n) }
    ensures room { unsigned_abs first.impulse < 2 ^ 29 → unsigned_abs second.impulse < 2 ^ 29 → is_some result ≡ true }
{
    if !are_in(first.impulse, second.impulse, HALF_IMPULSE_LIMIT_64) {
        return None;
    }
    let j = plus(
        along_64(first.line.direction, first.impulse),
        along_64(second.line.direction, second.impulse),
    );
    Some(impulse_pair_64(a, b, now, j, first.line.ra, first.line.rb))
}
