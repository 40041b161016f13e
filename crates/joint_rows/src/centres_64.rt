//! The impulses of a joint between the centres of its bodies, in 64 bits. They turn neither body, and so need and
//! change the momenta of the two alone: angular momenta are neither read nor written.

ghost use Rattle.std.specs.Prelude.{◌≡◌, ◌^◌, ◌<◌, ◌≤◌, true, unsigned_abs, IfSome, is_some};
ghost use Rattle.fixed_geom.specs.Vectors.{zero_vector};
ghost use Rattle.momenta.specs.ImpulseBounds.{AreStates, IsState};
ghost use Rattle.momenta.specs.Line64.{LeaveRoom64, both_ends, ends_with};
ghost use Rattle.joint_rows.specs.Rows.{IsJointRow, joint_solved, joint_warmed};
ghost use Rattle.joint_rows.specs.Centres64.{AreMomentaSmall, HasCentreSolveRoom64, HasCentreWarmRoom64, IsBetweenCentres, IsPushedAfter64, without_turning};

use crate::JointRow;
use crate::row_64::{solve_with_64, warm_with_64};
use fixed_geom::Vec2;
use momenta::{BodyState, Exerted64, Line, Momenta64, MomentaPair64};

/// A component of a momentum up to this has room for the quotient by a mass and for some impulses.
const MOMENTUM_LIMIT_64: i64 = 1 << 40;

/// The momenta of the two bodies of a constraint (mass·u/tick), whose angular momenta stay as they are.
#[derive(Clone, Copy, Debug, PartialEq, Eq)]
pub struct MomentumPair {
    pub a: Vec2,
    pub b: Vec2,
}

/// Those after an impulse between the centres, and the accumulated impulse along the line (mass·u/tick).
#[derive(Clone, Copy, Debug, PartialEq, Eq)]
pub struct Pushed64 {
    pub now: MomentumPair,
    pub total: i64,
}

/// Whether an offset leads nowhere.
#[inline(always)]
fn is_centre(r: Vec2) -> bool
    ensures centre { result ≡ true → r ≡ zero_vector }
    ensures room { r ≡ zero_vector → result ≡ true }
{
    (r.x == 0) & (r.y == 0)
}

/// Whether a line leads from centre to centre.
#[inline(always)]
fn is_between_centres(line: &Line) -> bool
    ensures between { result ≡ true → IsBetweenCentres line.now }
    ensures room { IsBetweenCentres line.now → result ≡ true }
{
    is_centre(line.ra) & is_centre(line.rb)
}

/// Whether a component of a momentum is small.
#[inline(always)]
fn is_small(p: i64) -> bool
    ensures within { result ≡ true → unsigned_abs p ≤ 2 ^ 40 }
    ensures room { unsigned_abs p < 2 ^ 40 → result ≡ true }
{
    -MOMENTUM_LIMIT_64 <= p && p < MOMENTUM_LIMIT_64
}

/// Whether the momenta of two bodies are small: told with no branch before the end.
#[inline(always)]
fn are_small(a: Vec2, b: Vec2) -> bool
    ensures a_x { result ≡ true → unsigned_abs a.x ≤ 2 ^ 40 }
    ensures a_y { result ≡ true → unsigned_abs a.y ≤ 2 ^ 40 }
    ensures b_x { result ≡ true → unsigned_abs b.x ≤ 2 ^ 40 }
    ensures b_y { result ≡ true → unsigned_abs b.y ≤ 2 ^ 40 }
    ensures room { AreMomentaSmall a b → result ≡ true }
{
    is_small(a.x) & is_small(a.y) & is_small(b.x) & is_small(b.y)
}

/// The momenta of two bodies as if neither turned, if they are small.
#[inline(always)]
fn without_turning_64(a: &BodyState, b: &BodyState) -> Option<MomentaPair64>
    requires first { IsState a.now }
    requires second { IsState b.now }
    ensures value { IfSome result (λ n. n ≡ without_turning a.now b.now) }
    ensures states { IfSome result (λ n. AreStates (ends_with a.now b.now n)) }
    ensures leaves_room { IfSome result (LeaveRoom64 0) }
    ensures room { AreMomentaSmall a.now.motion.p b.now.motion.p → is_some result ≡ true }
{
    let p = a.motion.p;
    let q = b.motion.p;
    if are_small(p, q) {
        Some(MomentaPair64 {
            a: Momenta64 { p, l: 0 },
            b: Momenta64 { p: q, l: 0 },
        })
    } else {
        None
    }
}

/// What an impulse between the centres has made of bodies that were taken not to turn.
#[inline(always)]
fn pushed(after: Exerted64) -> Pushed64
    ensures { result ≡ record { now = record { a = after.now.a.p; b = after.now.b.p }; total = after.total } }
{
    Pushed64 {
        now: MomentumPair {
            a: after.now.a.p,
            b: after.now.b.p,
        },
        total: after.total,
    }
}

/// A joint between the centres in a solver pass, as `solve_joint` has it: `None` where it isn't one, or where something
/// is too large for 64 bits.
#[inline(always)]
pub fn solve_centres_64(row: &JointRow, a: &BodyState, b: &BodyState) -> Option<Pushed64>
    requires row { IsJointRow row.now }
    requires first { IsState a.now }
    requires second { IsState b.now }
    ensures value { IfSome result (IsPushedAfter64 (joint_solved row.now (both_ends a.now b.now)) row.now a.now b.now) }
    ensures room { HasCentreSolveRoom64 row.now a.now b.now → is_some result ≡ true }
{
    if !is_between_centres(&row.line) {
        return None;
    }
    let now = match without_turning_64(a, b) {
        None => return None,
        Some(now) => now,
    };
    match solve_with_64(row, a, b, now) {
        None => None,
        Some(after) => Some(pushed(after)),
    }
}

/// The warm start of a joint between the centres, as `warm_joint` has it: `None` where it isn't one, or where something
/// is too large for 64 bits.
#[inline(always)]
pub fn warm_centres_64(row: &JointRow, a: &BodyState, b: &BodyState) -> Option<Pushed64>
    requires row { IsJointRow row.now }
    requires first { IsState a.now }
    requires second { IsState b.now }
    ensures value { IfSome result (IsPushedAfter64 (joint_warmed row.now (both_ends a.now b.now)) row.now a.now b.now) }
    ensures room { HasCentreWarmRoom64 row.now a.now b.now → is_some result ≡ true }
{
    if !is_between_centres(&row.line) {
        return None;
    }
    let now = match without_turning_64(a, b) {
        None => return None,
        Some(now) => now,
    };
    match warm_with_64(row, a, b, now) {
        None => None,
        Some(after) => Some(pushed(after)),
    }
}
