//! Joints between two bodies, as the solver passes over them: worked by hand.

ghost use Rattle.std.specs.Prelude.{◌≡◌, ◌^◌, ◌≤◌, ◌⊎◌, ◌≤ℤ◌, true, pos, unsigned_abs};
ghost use Rattle.fixed_geom.specs.Facings.{IsFacing};
ghost use Rattle.fixed_geom.specs.Vectors.{IsWithin};
ghost use Rattle.momenta.specs.ImpulseBounds.{AreStates, IsState};
ghost use Rattle.joint_rows.specs.Joints.{IsJoint};
ghost use Rattle.joint_rows.specs.Rows.{IsJointRow};

use crate::assertions::{same, same_items};
use fixed_geom::{Rot, Vec2};
use joint_rows::{
    Joint, JointAfter, JointBodies, JointRow, MomentumPair, Pushed64, joint_row, solve_centres_64,
    solve_joint, solve_joint_64, warm_centres_64, warm_joint, warm_joint_64,
};
use momenta::{
    BodyState, Ends, Exerted64, MassData, Momenta64, MomentaPair64, Motion, reciprocals_of,
};

const ORIGIN: Vec2 = Vec2 { x: 0, y: 0 };

const AHEAD: Rot = Rot { c: 1 << 30, s: 0 };

const LEFT: Rot = Rot { c: 0, s: 1 << 30 };

const UNIT_MASS: MassData = MassData {
    mass: 1,
    inertia: 0,
};

fn at(x: i64, y: i64) -> Vec2 {
    Vec2 { x, y }
}

/// A body of mass 1 that never turns, where it stood when the step began.
fn body(movable: bool, x: Vec2, rot: Rot, p: Vec2) -> BodyState
    requires position { IsWithin (2 ^ 36) x }
    requires facing { IsFacing rot }
    requires momentum { IsWithin (2 ^ 60) p }
    ensures state { IsState result }
    ensures movable { result.movable ≡ movable }
{
    BodyState {
        movable,
        mass: UNIT_MASS,
        motion: Motion { p, l: 0, x, rot },
        start: x,
        reciprocals: reciprocals_of(UNIT_MASS),
    }
}

/// Two movers 1000 apart, the first of which has the momentum `p`, and the second `q`.
fn two_movers(p: Vec2, q: Vec2) -> Ends
    requires first { IsWithin (2 ^ 60) p }
    requires second { IsWithin (2 ^ 60) q }
    ensures states { AreStates result }
    ensures mover { (result.a.movable ≡ true) ⊎ (result.b.movable ≡ true) }
{
    Ends {
        a: body(true, ORIGIN, AHEAD, p),
        b: body(true, Vec2 { x: 1000, y: 0 }, AHEAD, q),
    }
}

/// A joint of the two centres.
fn joint(length: i64, impulse: i64) -> Joint
    requires length_low { pos 0 ≤ℤ length }
    requires length_high { unsigned_abs length ≤ 2 ^ 25 }
    requires impulse { unsigned_abs impulse ≤ 2 ^ 42 }
    ensures { IsJoint result }
{
    Joint {
        from: ORIGIN,
        to: ORIGIN,
        length,
        impulse,
    }
}

/// The row of a joint of two bodies that stand as when the step began.
fn row_of(joint: Joint, ends: &Ends) -> JointRow
    requires joint { IsJoint joint }
    requires states { AreStates ends.now }
    requires mover { (ends.now.a.movable ≡ true) ⊎ (ends.now.b.movable ≡ true) }
    ensures { IsJointRow result }
{
    let bodies = JointBodies {
        index: 0,
        a: 0,
        b: 1,
    };
    joint_row(bodies, &joint, ends)
}

/// A joint and its bodies after a pass, if they stood so when the step began.
fn solved(joint: Joint, mut ends: Ends) -> JointAfter
    requires joint { IsJoint joint }
    requires states { AreStates ends }
    requires mover { (ends.a.movable ≡ true) ⊎ (ends.b.movable ≡ true) }
{
    let mut row = row_of(joint, &ends);
    solve_joint(&mut row, &mut ends);
    JointAfter { row, ends }
}

/// The same after a warm start.
fn warmed(joint: Joint, mut ends: Ends) -> JointAfter
    requires joint { IsJoint joint }
    requires states { AreStates ends }
    requires mover { (ends.a.movable ≡ true) ⊎ (ends.b.movable ≡ true) }
{
    let row = row_of(joint, &ends);
    warm_joint(&row, &mut ends);
    JointAfter { row, ends }
}

/// How far the anchors were apart beyond the length, the accumulated impulse and the two momenta.
fn left_by(after: &JointAfter) -> (i64, i64, Vec2, Vec2) {
    (
        after.row.stretch,
        after.row.impulse,
        after.ends.a.motion.p,
        after.ends.b.motion.p,
    )
}

/// A row of two movers that have parted by 16 u since the step began, after a pass.
fn solved_apart() -> JointAfter {
    let mut ends = two_movers(ORIGIN, ORIGIN);
    let mut row = row_of(joint(984, 0), &ends);
    ends.b.motion.x = Vec2 { x: 1016, y: 0 };
    solve_joint(&mut row, &mut ends);
    JointAfter { row, ends }
}

/// A stretched joint pulls its bodies together, and a pressed one pushes them apart. The error grows as the centres
/// part.
#[test]
fn joints_act_on_both_bodies(rt: HostRuntime) {
    let still = two_movers(ORIGIN, ORIGIN);
    let stretched = solved(joint(984, 0), still);
    same(&rt, &stretched.row.line.direction, &at(1 << 30, 0));
    let left = [
        left_by(&stretched),
        left_by(&solved(joint(1016, 0), still)),
        left_by(&solved_apart()),
        left_by(&warmed(joint(1000, -5), still)),
    ];
    let wanted = [
        (16, -1, at(1, 0), at(-1, 0)),
        (-16, 1, at(-1, 0), at(1, 0)),
        (16, -2, at(2, 0), at(-2, 0)),
        (0, -5, at(5, 0), at(-5, 0)),
    ];
    same_items(&rt, &left, &wanted);
}

/// An immovable end gets nothing. A far stretched joint has the greatest bias.
#[test]
fn bodies_far_apart_and_beside_one_that_stays(rt: HostRuntime) {
    let far = Ends {
        a: body(true, ORIGIN, AHEAD, ORIGIN),
        b: body(true, Vec2 { x: 0, y: 1 << 20 }, AHEAD, ORIGIN),
    };
    let beside = Ends {
        a: body(false, ORIGIN, AHEAD, ORIGIN),
        b: body(true, Vec2 { x: 1000, y: 0 }, AHEAD, ORIGIN),
    };
    let left = [
        left_by(&solved(joint(0, 0), far)),
        left_by(&solved(joint(984, 0), beside)),
    ];
    let wanted = [
        (1 << 20, -8192, at(0, 8192), at(0, -8192)),
        (16, -2, ORIGIN, at(-2, 0)),
    ];
    same_items(&rt, &left, &wanted);
}

#[test]
fn anchors_at_one_point_part_upwards(rt: HostRuntime) {
    let pinned = Joint {
        from: Vec2 { x: 0, y: -1000 },
        to: ORIGIN,
        length: 16,
        impulse: 0,
    };
    let ends = Ends {
        a: body(true, ORIGIN, LEFT, ORIGIN),
        b: body(true, Vec2 { x: 1000, y: 0 }, AHEAD, ORIGIN),
    };
    let after = solved(pinned, ends);
    same(&rt, &after.row.line.ra, &at(1000, 0));
    same(&rt, &left_by(&after), &(-16, 1, at(0, -1), at(0, 1)));
}

#[test]
fn an_impulse_beyond_a_limit_is_dropped(rt: HostRuntime) {
    let fast = Vec2 { x: 1 << 60, y: 0 };
    let left = [
        left_by(&solved(joint(984, 0), two_movers(fast, fast))),
        left_by(&warmed(joint(1000, 5), two_movers(ORIGIN, fast))),
    ];
    let limit = at(1 << 60, 0);
    same_items(&rt, &left, &[(16, 0, limit, limit), (0, 5, ORIGIN, limit)]);
}

/// What a pass in 64 bits leaves of two bodies that don't turn.
fn after_64(total: i64, p: Vec2, q: Vec2) -> Option<Exerted64> {
    Some(Exerted64 {
        now: MomentaPair64 {
            a: Momenta64 { p, l: 0 },
            b: Momenta64 { p: q, l: 0 },
        },
        total,
    })
}

/// What a pass in 64 bits leaves of two movers, the second of which has the momentum `q`.
fn solved_64(q: Vec2) -> Option<Exerted64>
    requires { IsWithin (2 ^ 60) q }
{
    let ends = two_movers(ORIGIN, q);
    solve_joint_64(&row_of(joint(984, 0), &ends), &ends.a, &ends.b)
}

/// A warm start gives the kept impulse, and great momenta have no pass.
#[test]
fn a_pass_in_64_bits_is_the_pass(rt: HostRuntime) {
    let ends = two_movers(ORIGIN, ORIGIN);
    let kept = row_of(joint(1000, -5), &ends);
    let left = [
        solved_64(ORIGIN),
        warm_joint_64(&kept, &ends.a, &ends.b),
        solved_64(Vec2 { x: 1 << 50, y: 0 }),
    ];
    let wanted = [
        after_64(-1, at(1, 0), at(-1, 0)),
        after_64(-5, at(5, 0), at(-5, 0)),
        None,
    ];
    same_items(&rt, &left, &wanted);
}

/// What a pass between the centres leaves of the momenta of two bodies.
fn pushed_64(total: i64, a: Vec2, b: Vec2) -> Option<Pushed64> {
    Some(Pushed64 {
        now: MomentumPair { a, b },
        total,
    })
}

/// What a pass between the centres leaves of two movers, the second of which has the momentum `q`.
fn solved_centres(q: Vec2) -> Option<Pushed64>
    requires { IsWithin (2 ^ 60) q }
{
    let ends = two_movers(ORIGIN, q);
    solve_centres_64(&row_of(joint(984, 0), &ends), &ends.a, &ends.b)
}

/// The row of a joint of two movers that holds the first one by a point beside its centre.
fn beside_the_centre(ends: &Ends) -> JointRow
    requires states { AreStates ends.now }
    requires mover { (ends.now.a.movable ≡ true) ⊎ (ends.now.b.movable ≡ true) }
    ensures { IsJointRow result }
{
    let off = Joint {
        from: Vec2 { x: 0, y: 8 },
        to: ORIGIN,
        length: 984,
        impulse: -5,
    };
    row_of(off, ends)
}

/// Between the centres a pass changes the momenta alone. Great momenta have none, and no joint that holds another
/// point.
#[test]
fn a_pass_between_centres_is_the_pass(rt: HostRuntime) {
    let ends = two_movers(ORIGIN, ORIGIN);
    let kept = row_of(joint(1000, -5), &ends);
    let off = beside_the_centre(&ends);
    let left = [
        solved_centres(ORIGIN),
        warm_centres_64(&kept, &ends.a, &ends.b),
        solved_centres(Vec2 { x: 1 << 50, y: 0 }),
        solve_centres_64(&off, &ends.a, &ends.b),
        warm_centres_64(&off, &ends.a, &ends.b),
    ];
    let wanted = [
        pushed_64(-1, at(1, 0), at(-1, 0)),
        pushed_64(-5, at(5, 0), at(-5, 0)),
        None,
        None,
        None,
    ];
    same_items(&rt, &left, &wanted);
}
