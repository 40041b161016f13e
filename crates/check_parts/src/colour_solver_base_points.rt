//! Rows of contacts between two bodies, worked by hand.

ghost use Rattle.std.specs.Prelude.{◌≡◌, ◌^◌, ◌≤◌, ◌≤ℤ◌, pos, unsigned_abs};
ghost use Rattle.fixed_geom.specs.Vectors.{IsWithin};
ghost use Rattle.momenta.specs.ImpulseBounds.{AreStates, IsState};
ghost use Rattle.colour_solver_base.specs.Rows.{IsPointRow, IsRow};

use crate::assertions::{same, same_items};
use colour_solver_base::{
    Bodies, ContactRow, PointImpulses, PointRow, RowAfter64, bounce_row, solve_row, solve_row_64,
    warm_row, warm_row_64,
};
use fixed_geom::{Rot, Vec2};
use momenta::{
    BodyState, Ends, MassData, Momenta64, MomentaPair64, Motion, inverse_reciprocal, reciprocals_of,
};

const ORIGIN: Vec2 = Vec2 { x: 0, y: 0 };

const UPWARDS: Vec2 = Vec2 { x: 0, y: 1 << 30 };

const AHEAD: Rot = Rot { c: 1 << 30, s: 0 };

fn at(x: i64, y: i64) -> Vec2 {
    Vec2 { x, y }
}

const UNIT_MASS: MassData = MassData {
    mass: 1,
    inertia: 0,
};

/// A body of mass 1 that never turns, at the origin.
fn body(movable: bool, p: Vec2) -> BodyState
    requires { IsWithin (2 ^ 60) p }
    ensures state { IsState result }
{
    BodyState {
        movable,
        mass: UNIT_MASS,
        motion: Motion {
            p,
            l: 0,
            x: ORIGIN,
            rot: AHEAD,
        },
        start: ORIGIN,
        reciprocals: reciprocals_of(UNIT_MASS),
    }
}

/// A mover with the momentum `p` on ground that doesn't move.
fn on_ground(p: Vec2) -> Ends
    requires { IsWithin (2 ^ 60) p }
    ensures { AreStates result }
{
    Ends {
        a: body(false, ORIGIN),
        b: body(true, p),
    }
}

/// A point of both on a level line.
fn point(separation: i64, start_speed: i64, normal_impulse: i64) -> PointRow
    requires separation { unsigned_abs separation ≤ 2 ^ 27 }
    requires start_speed { unsigned_abs start_speed ≤ 2 ^ 62 }
    requires normal_low { pos 0 ≤ℤ normal_impulse }
    requires normal_high { unsigned_abs normal_impulse ≤ 2 ^ 42 }
    ensures { IsPointRow result }
{
    PointRow {
        normal: UPWARDS,
        ra: ORIGIN,
        rb: ORIGIN,
        normal_inverse: 1 << 40,
        tangent_inverse: 1 << 40,
        normal_reciprocal: inverse_reciprocal(1 << 40),
        tangent_reciprocal: inverse_reciprocal(1 << 40),
        separation,
        start_speed,
        normal_impulse,
        tangent_impulse: 0,
    }
}

/// A contact with this point, with half of the friction and of the restitution that there can be.
fn contact_at(first: PointRow) -> ContactRow
    requires { IsPointRow first }
    ensures { IsRow result }
{
    let bodies = Bodies {
        a: 0,
        b: 1,
        first: 0,
        second: 0,
        friction: 128,
        restitution: 128,
    };
    ContactRow {
        bodies,
        first,
        second: None,
    }
}

/// A contact of both on a level line.
fn contact(separation: i64, start_speed: i64, normal_impulse: i64) -> ContactRow
    requires separation { unsigned_abs separation ≤ 2 ^ 27 }
    requires start_speed { unsigned_abs start_speed ≤ 2 ^ 62 }
    requires normal_low { pos 0 ≤ℤ normal_impulse }
    requires normal_high { unsigned_abs normal_impulse ≤ 2 ^ 42 }
    ensures { IsRow result }
{
    contact_at(point(separation, start_speed, normal_impulse))
}

/// The contact with a second point.
fn with_second(row: &ContactRow, second: PointRow) -> ContactRow
    requires row { IsRow row.now }
    requires second { IsPointRow second }
    ensures { IsRow result }
{
    ContactRow {
        bodies: row.bodies,
        first: row.first,
        second: Some(second),
    }
}

/// A contact whose first point touches, and whose second one overlaps by more than can be taken away in a tick.
fn two_points() -> ContactRow
    ensures { IsRow result }
{
    with_second(&contact(0, 0, 0), point(-200000, 0, 0))
}

/// The normal impulse that two bodies at rest get where they overlap.
fn push_out(separation: i64) -> i64
    requires { unsigned_abs separation ≤ 2 ^ 27 }
{
    let mut row = contact(separation, 0, 0);
    let mut ends = on_ground(ORIGIN);
    solve_row(&mut row, &mut ends);
    row.first.normal_impulse
}

/// A contact after a turn, with the two bodies.
#[derive(Clone, Copy)]
struct Turned {
    row: ContactRow,
    ends: Ends,
}

/// A contact and its two bodies after a solver pass, the second body having had the momentum `p`.
fn solved(normal_impulse: i64, p: Vec2) -> Turned
    requires normal_low { pos 0 ≤ℤ normal_impulse }
    requires normal_high { unsigned_abs normal_impulse ≤ 2 ^ 42 }
    requires momentum { IsWithin (2 ^ 60) p }
{
    let mut row = contact(0, 0, normal_impulse);
    let mut ends = on_ground(p);
    solve_row(&mut row, &mut ends);
    Turned { row, ends }
}

fn bounce(start_speed: i64) -> Turned
    requires { unsigned_abs start_speed ≤ 2 ^ 62 }
{
    let mut row = contact(0, start_speed, 1);
    let mut ends = on_ground(ORIGIN);
    bounce_row(&mut row, &mut ends);
    Turned { row, ends }
}

#[test]
fn an_overlap_beyond_the_slop_is_pushed_out(rt: HostRuntime) {
    let pushes = [
        push_out(-5243),
        push_out(-5250),
        push_out(-5251),
        push_out(-200000),
    ];
    same_items(&rt, &pushes, &[0, 0, 1, 16384]);
}

/// The two impulses of a turn, and the momenta after it.
fn left_by(after: &Turned) -> (i64, i64, Vec2, Vec2) {
    let Turned { row, ends } = after;
    (
        row.first.normal_impulse,
        row.first.tangent_impulse,
        ends.a.motion.p,
        ends.b.motion.p,
    )
}

/// Friction is at most its share of the push, which comes before it.
#[test]
fn a_pass_pushes_and_then_rubs(rt: HostRuntime) {
    let passes = [
        left_by(&solved(1000, Vec2 { x: 600, y: 0 })),
        left_by(&solved(0, Vec2 { x: 600, y: -1000 })),
    ];
    let left = (1000, -500, ORIGIN, at(100, 0));
    same_items(&rt, &passes, &[left, left]);
}

#[test]
fn a_fast_meeting_bounces_and_a_slow_one_does_not(rt: HostRuntime) {
    let bounces = [left_by(&bounce(-10000)), left_by(&bounce(-4096))];
    let fast = (5001, 0, ORIGIN, at(0, 5000));
    same_items(&rt, &bounces, &[fast, (1, 0, ORIGIN, ORIGIN)]);
}

#[test]
fn a_warm_start_gives_the_kept_impulses(rt: HostRuntime) {
    let row = contact(0, 0, 1000);
    let mut ends = on_ground(ORIGIN);
    warm_row(&row, &mut ends);
    let left = left_by(&Turned { row, ends });
    same(&rt, &left, &(1000, 0, ORIGIN, at(0, 1000)));
}

const NO_IMPULSES: PointImpulses = PointImpulses {
    normal: 0,
    tangent: 0,
};

/// What a pass in 64 bits leaves where the first body stands and the second has the momentum `p`.
fn after_points(first: PointImpulses, second: PointImpulses, p: Vec2) -> RowAfter64 {
    RowAfter64 {
        first,
        second,
        now: MomentaPair64 {
            a: Momenta64 { p: ORIGIN, l: 0 },
            b: Momenta64 { p, l: 0 },
        },
    }
}

/// The same of a contact with one point.
fn after_64(normal: i64, tangent: i64, p: Vec2) -> RowAfter64 {
    after_points(PointImpulses { normal, tangent }, NO_IMPULSES, p)
}

/// A pass in 64 bits over a mover with the momentum `p` on ground that doesn't move.
fn solved_64(p: Vec2) -> Option<RowAfter64>
    requires { IsWithin (2 ^ 60) p }
{
    let ends = on_ground(p);
    solve_row_64(&contact(0, 0, 0), &ends.a, &ends.b)
}

/// Great momenta have no pass in 64 bits.
#[test]
fn a_pass_in_64_bits_is_the_pass(rt: HostRuntime) {
    let p = Vec2 { x: 600, y: -1000 };
    let (normal_impulse, tangent_impulse, _, after) = left_by(&solved(0, p));
    let expected = Some(after_64(normal_impulse, tangent_impulse, after));
    let passes = [expected, solved_64(p), solved_64(Vec2 { x: 1 << 50, y: 0 })];
    let left = Some(after_64(1000, -500, at(100, 0)));
    same_items(&rt, &passes, &[left, left, None]);
}

#[test]
fn a_warm_start_in_64_bits_gives_the_kept_impulses(rt: HostRuntime) {
    let ends = on_ground(ORIGIN);
    let warmed = warm_row_64(&contact(0, 0, 1000), &ends.a, &ends.b);
    same(&rt, &warmed, &Some(after_64(1000, 0, at(0, 1000))));
}

/// A pass in 64 bits over the contact with two points, the mover having the momentum `p`.
fn solved_at_two(p: Vec2) -> Option<RowAfter64>
    requires { IsWithin (2 ^ 60) p }
{
    let ends = on_ground(p);
    solve_row_64(&two_points(), &ends.a, &ends.b)
}

/// The second point begins with what the first has left: it rubs away the slip of 100, and gives the speed of its bias.
#[test]
fn a_pass_in_64_bits_solves_the_first_point_and_then_the_second(rt: HostRuntime) {
    let first = PointImpulses {
        normal: 1000,
        tangent: -500,
    };
    let second = PointImpulses {
        normal: 16384,
        tangent: -100,
    };
    let left = Some(after_points(first, second, at(0, 16384)));
    let passes = [
        solved_at_two(Vec2 { x: 600, y: -1000 }),
        solved_at_two(Vec2 { x: 1 << 50, y: 0 }),
    ];
    same_items(&rt, &passes, &[left, None]);
}
