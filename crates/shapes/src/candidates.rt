//! The candidates of two shapes, which are the ends of each core with the nearest place of the other, and the choice
//! among them. A point has one end, and beside its candidate those of the other core are mostly too far to count.

ghost use Rattle.std.specs.Prelude.{◌≡◌, ◌^◌, ◌≤◌, ◌∷◌, [], IfSome, true, pos, ◌+ℤ◌, ◌≤ℤ◌, unsigned_abs, int_lt};
ghost use Rattle.fixed_geom.specs.Vectors.{IsWithin, minus, span};
ghost use Rattle.shapes.specs.Poses.{IsPosed};
ghost use Rattle.shapes.specs.Cores.{is_point};
ghost use Rattle.shapes.specs.Spots.{of_a, of_b, others};
ghost use Rattle.shapes.specs.PointsWithin.{IsPair, IsCandidate, IsSpot};
ghost use Rattle.shapes.specs.Manifolds.{chosen_spots};
ghost use Rattle.shapes.specs.Choice.{chosen_from};

use crate::choice::{Chosen, alone, chosen_from};
use crate::cores::{closest, is_point};
use crate::spots::{Candidate, Pair, measured};
use crate::{Core, TOLERANCE};
use fixed_geom::{Vec2, dot, is_within, minus, product};

/// From where on a distance doesn't count beside this one.
fn limit_of(dist: i64) -> i64
    requires small { unsigned_abs dist ≤ 2 ^ 41 }
    ensures value { result ≡ dist +ℤ pos 20973 }
    ensures small { unsigned_abs result ≤ 2 ^ 42 }
{
    dist + (TOLERANCE + 1)
}

/// Two places are too far apart to count beside a candidate of this distance. Where no coordinate
/// tells it, squares are compared, which spares most roots.
fn is_beyond(dist: i64, a: Vec2, b: Vec2) -> bool
    requires nonnegative { pos 0 ≤ℤ dist }
    requires small { unsigned_abs dist ≤ 2 ^ 41 }
    requires first { IsWithin (2 ^ 37) a }
    requires second { IsWithin (2 ^ 37) b }
    ensures { result ≡ true → int_lt (dist +ℤ TOLERANCE) (span (minus b a)) ≡ true }
{
    let way = minus(b, a);
    let limit = limit_of(dist);
    if !is_within(way, limit.unsigned_abs()) {
        return true;
    }
    if dot(way, way) < product(limit, limit) {
        return false;
    }
    true
}

/// The first ends of two cores are too far apart to count beside this distance, and so are the
/// second ends.
fn are_beyond(dist: i64, a: &Core, b: &Core) -> bool
    requires nonnegative { pos 0 ≤ℤ dist }
    requires small { unsigned_abs dist ≤ 2 ^ 41 }
    requires first { IsPosed a.now }
    requires second { IsPosed b.now }
    ensures first { result ≡ true → int_lt (dist +ℤ TOLERANCE) (span (minus b.now.p a.now.p)) ≡ true }
    ensures second { result ≡ true → int_lt (dist +ℤ TOLERANCE) (span (minus b.now.q a.now.q)) ≡ true }
{
    if !is_beyond(dist, a.p, b.p) {
        return false;
    }
    is_beyond(dist, a.q, b.q)
}

/// An end of the first core against the second.
fn of_a(pair: &Pair, number: u64, e: Vec2) -> Candidate
    requires pair { IsPair pair.now }
    requires position { IsWithin (2 ^ 37) e }
    ensures value { result ≡ of_a pair.now number e }
    ensures candidate { IsCandidate result }
{
    measured(number, e, closest(&pair.b, e))
}

/// An end of the second core against the first.
fn of_b(pair: &Pair, number: u64, e: Vec2) -> Candidate
    requires pair { IsPair pair.now }
    requires position { IsWithin (2 ^ 37) e }
    ensures value { result ≡ of_b pair.now number e }
    ensures candidate { IsCandidate result }
{
    measured(number, closest(&pair.a, e), e)
}

/// The choice between two points: candidates 0 and 2 are the same two places.
fn chosen_of_points(pair: &Pair) -> Chosen
    requires pair { IsPair pair.now }
    requires first { is_point pair.now.a ≡ true }
    requires second { is_point pair.now.b ≡ true }
    ensures value { result ≡ chosen_from pair.now (of_a pair.now 0 pair.now.a.p) (of_b pair.now 2 pair.now.b.p ∷ []) }
    ensures first { IsSpot result.first }
    ensures second { IfSome result.second IsSpot }
{
    alone(pair, &of_a(pair, 0, pair.a.p))
}

/// The choice where the first core is a point: mostly its own candidate alone, since the ends of
/// the other core are too far to count.
fn chosen_of_first_point(pair: &Pair) -> Chosen
    requires pair { IsPair pair.now }
    requires first { is_point pair.now.a ≡ true }
    ensures value { result ≡ chosen_from pair.now (of_a pair.now 0 pair.now.a.p) (of_b pair.now 2 pair.now.b.p ∷ of_b pair.now 3 pair.now.b.q ∷ []) }
    ensures first { IsSpot result.first }
    ensures second { IfSome result.second IsSpot }
{
    let near = of_a(pair, 0, pair.a.p);
    let point = pair.a.p;
    if are_beyond(near.dist, &Core { p: point, q: point }, &pair.b) {
        return alone(pair, &near);
    }
    let third = of_b(pair, 2, pair.b.p);
    chosen_from(pair, near, &[third, of_b(pair, 3, pair.b.q)])
}

/// The choice where the second core is a point, likewise.
fn chosen_of_second_point(pair: &Pair) -> Chosen
    requires pair { IsPair pair.now }
    requires second { is_point pair.now.b ≡ true }
    ensures value { result ≡ chosen_from pair.now (of_a pair.now 0 pair.now.a.p) (of_a pair.now 1 pair.now.a.q ∷ of_b pair.now 2 pair.now.b.p ∷ []) }
    ensures first { IsSpot result.first }
    ensures second { IfSome result.second IsSpot }
{
    let near = of_b(pair, 2, pair.b.p);
    let point = pair.b.p;
    if are_beyond(near.dist, &pair.a, &Core { p: point, q: point }) {
        return alone(pair, &near);
    }
    let head = of_a(pair, 0, pair.a.p);
    chosen_from(pair, head, &[of_a(pair, 1, pair.a.q), near])
}

/// The first and the second of all candidates: 0 and 1 are the ends of the first core, 2 and 3
/// those of the second, and a point has one end.
#[tactic(auto, unfolding(crate::specs::Spots::others))]
fn chosen_of_all(pair: &Pair) -> Chosen
    requires { IsPair pair.now }
    ensures value { result ≡ chosen_from pair.now (of_a pair.now 0 pair.now.a.p) (others pair.now) }
    ensures first { IsSpot result.first }
    ensures second { IfSome result.second IsSpot }
{
    if is_point(&pair.a) {
        if is_point(&pair.b) {
            return chosen_of_points(pair);
        }
        return chosen_of_first_point(pair);
    }
    if is_point(&pair.b) {
        return chosen_of_second_point(pair);
    }
    let head = of_a(pair, 0, pair.a.p);
    let second = of_a(pair, 1, pair.a.q);
    let third = of_b(pair, 2, pair.b.p);
    chosen_from(pair, head, &[second, third, of_b(pair, 3, pair.b.q)])
}

/// The spots of the first and the second point of two shapes.
pub(crate) fn chosen_spots(pair: &Pair) -> Chosen
    requires { IsPair pair.now }
    ensures value { result ≡ chosen_spots pair.now }
    ensures first { IsSpot result.first }
    ensures second { IfSome result.second IsSpot }
{
    chosen_of_all(pair)
}
