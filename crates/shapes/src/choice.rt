//! The choice of at most two of up to four candidates.

ghost use Rattle.std.specs.Prelude.{◌≡◌, ◌^◌, All, IfSome, pos, int_le};
ghost use Rattle.fixed_geom.specs.Vectors.{IsWithin};
ghost use Rattle.shapes.specs.Spots.{separation_of, spot_of};
ghost use Rattle.shapes.specs.PointsWithin.{IsPair, IsCandidate, IsSpot};
ghost use Rattle.shapes.specs.Manifolds.{is_before, is_far, is_rival};
ghost use Rattle.shapes.specs.Choice.{nearer, nearest, sooner, sooner_of, tried, second_from, chosen_from, alone};

use crate::TOLERANCE;
use crate::spots::{Candidate, Pair, Spot, separation_of, spot_of};
use fixed_geom::{Vec2, dot_64, is_within, minus};

/// The tolerance as a size.
const TOLERANCE_SIZE: u64 = 20_972;

/// The spots of the first and the second point of a contact.
#[derive(Clone, Copy, Debug, PartialEq, Eq)]
pub(crate) struct Chosen {
    pub first: Spot,
    pub second: Option<Spot>,
}

/// Whether one distance comes before the other; the lesser number does at the same distance.
#[tactic(auto, unfolding(crate::specs::Manifolds::is_before))]
fn is_before(dist: i64, number: u64, other_dist: i64, other_number: u64) -> bool
    ensures { result ≡ is_before dist number other_dist other_number }
{
    dist < other_dist || (dist == other_dist && number < other_number)
}

#[tactic(auto, unfolding(crate::specs::Choice::nearer))]
fn nearer(best: Candidate, c: Candidate) -> Candidate
    requires best { IsCandidate best }
    requires other { IsCandidate c }
    ensures value { result ≡ nearer best c }
    ensures candidate { IsCandidate result }
{
    if is_before(c.dist, c.number, best.dist, best.number) {
        c
    } else {
        best
    }
}

/// The least of `head` and the rest, by distance and then by number.
fn nearest(head: Candidate, rest: &[Candidate]) -> Candidate
    requires head { IsCandidate head }
    requires rest { All IsCandidate rest.now }
    ensures value { result ≡ nearest head rest.now }
    ensures candidate { IsCandidate result }
{
    let mut best = head;
    for c in rest {
        best = nearer(best, *c);
    }
    best
}

#[tactic(auto, unfolding(crate::specs::Choice::sooner))]
fn sooner(best: Spot, spot: Spot) -> Spot
    requires best { IsSpot best }
    requires other { IsSpot spot }
    ensures value { result ≡ sooner best spot }
    ensures spot { IsSpot result }
{
    if is_before(spot.dist, spot.candidate, best.dist, best.candidate) {
        spot
    } else {
        best
    }
}

fn sooner_of(best: Option<Spot>, spot: Spot) -> Option<Spot>
    requires best { IfSome best IsSpot }
    requires other { IsSpot spot }
    ensures value { result ≡ sooner_of best spot }
    ensures spot { IfSome result IsSpot }
{
    match best {
        None => Some(spot),
        Some(best) => Some(sooner(best, spot)),
    }
}

/// Two places are more than the tolerance apart. Where a coordinate tells it, no square is needed;
/// elsewhere 64 bits have room for it.
fn is_far(a: Vec2, b: Vec2) -> bool
    requires first { IsWithin (2 ^ 44) a }
    requires second { IsWithin (2 ^ 44) b }
    ensures { result ≡ is_far a b }
{
    let way = minus(a, b);
    if is_within(way, TOLERANCE_SIZE) {
        dot_64(way, way) > 439_824_784
    } else {
        true
    }
}

/// The shapes overlap or touch at a candidate.
fn is_overlap(pair: &Pair, c: &Candidate) -> bool
    requires pair { IsPair pair.now }
    requires candidate { IsCandidate c.now }
    ensures { result ≡ int_le (separation_of pair.now c.now) (pos 0) }
{
    separation_of(pair, c) <= 0
}

/// The candidate is another than the first point's, about as near, and there the shapes overlap.
#[tactic(auto, unfolding(crate::specs::Manifolds::is_rival, crate::specs::Spots::spot_of))]
fn is_rival(pair: &Pair, first: &Spot, c: &Candidate) -> bool
    requires pair { IsPair pair.now }
    requires first { IsSpot first.now }
    requires candidate { IsCandidate c.now }
    ensures { result ≡ is_rival first.now (spot_of pair.now c.now) }
{
    if c.number == first.candidate {
        return false;
    }
    if c.dist > first.dist + TOLERANCE {
        return false;
    }
    is_overlap(pair, c)
}

/// The lesser of the best so far and a candidate's spot, if that may be the second point.
#[tactic(auto, unfolding(crate::specs::Choice::tried, crate::specs::Manifolds::is_second))]
fn tried(pair: &Pair, first: &Spot, best: Option<Spot>, c: &Candidate) -> Option<Spot>
    requires pair { IsPair pair.now }
    requires first { IsSpot first.now }
    requires best { IfSome best IsSpot }
    requires candidate { IsCandidate c.now }
    ensures value { result ≡ tried first.now best (spot_of pair.now c.now) }
    ensures spot { IfSome result IsSpot }
{
    if !is_rival(pair, first, c) {
        return best;
    }
    let spot = spot_of(pair, c);
    if is_far(spot.at, first.at) {
        sooner_of(best, spot)
    } else {
        best
    }
}

fn second_from(pair: &Pair, first: &Spot, start: Option<Spot>, rest: &[Candidate]) -> Option<Spot>
    requires pair { IsPair pair.now }
    requires first { IsSpot first.now }
    requires start { IfSome start IsSpot }
    requires rest { All IsCandidate rest.now }
    ensures value { result ≡ second_from pair.now first.now start rest.now }
    ensures spot { IfSome result IsSpot }
{
    let mut best = start;
    for c in rest {
        best = tried(pair, first, best, c);
    }
    best
}

pub(crate) fn chosen_from(pair: &Pair, head: Candidate, rest: &[Candidate]) -> Chosen
    requires pair { IsPair pair.now }
    requires head { IsCandidate head }
    requires rest { All IsCandidate rest.now }
    ensures value { result ≡ chosen_from pair.now head rest.now }
    ensures first { IsSpot result.first }
    ensures second { IfSome result.second IsSpot }
{
    let first = spot_of(pair, &nearest(head, rest));
    let start = tried(pair, &first, None, &head);
    let second = second_from(pair, &first, start, rest);
    Chosen { first, second }
}

/// The choice of a candidate alone.
pub(crate) fn alone(pair: &Pair, c: &Candidate) -> Chosen
    requires pair { IsPair pair.now }
    requires candidate { IsCandidate c.now }
    ensures value { result ≡ alone (spot_of pair.now c.now) }
    ensures first { IsSpot result.first }
    ensures second { IfSome result.second IsSpot }
{
    Chosen {
        first: spot_of(pair, c),
        second: None,
    }
}
