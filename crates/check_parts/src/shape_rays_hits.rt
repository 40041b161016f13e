//! Hits of rays on shapes and boxes, worked by hand.

ghost use Rattle.std.specs.Prelude.{◌^◌, ◌≤◌, unsigned_abs};
ghost use Rattle.shapes.specs.Shapes.{IsShape};
ghost use Rattle.shapes.specs.Poses.{IsPose};
ghost use Rattle.shape_rays.specs.Hits.{IsPosedShape};

use crate::assertions::{same, same_items};
use crate::shapes_outlines::{at, capsule, circle, segment};
use contacts_base::ShapeId;
use fixed_geom::{Box2, Vec2};
use shape_rays::*;
use shapes::{Pose, Shape};

/// The ray from `(x, y)` along `(dx, dy)`.
fn cast(x: i64, y: i64, dx: i64, dy: i64) -> RayCast
    requires x { unsigned_abs x ≤ 2 ^ 36 }
    requires y { unsigned_abs y ≤ 2 ^ 36 }
    requires dx { unsigned_abs dx ≤ 2 ^ 28 }
    requires dy { unsigned_abs dy ≤ 2 ^ 28 }
{
    RayCast::new(Vec2 { x, y }, Vec2 { x: dx, y: dy })
}

/// Where a ray meets a shape that stands at the origin.
fn hit(shape: Shape, cast: &RayCast) -> Option<u32>
    requires { IsShape shape }
{
    cast.hit(&shape, at(0, 0))
}

fn boxed(left: i64, down: i64, right: i64, up: i64) -> Box2 {
    Box2 {
        lo: Vec2 { x: left, y: down },
        hi: Vec2 { x: right, y: up },
    }
}

#[test]
fn rays_meet_circles_and_floors(rt: HostRuntime) {
    let ball = circle(0, 0, 100);
    let floor = segment(-1048576, 0, 1048576, 0);
    let hits = [
        cast(0, 0, 2000, 0).hit(&ball, at(1000, 0)),
        hit(floor, &cast(0, 100, 0, -400)),
        hit(floor, &cast(0, 100, 0, 400)),
        // A start in the shape, and a ray that has no way.
        hit(ball, &cast(10, -20, 5, 5)),
        hit(ball, &cast(60, 80, 0, 0)),
        hit(ball, &cast(61, 81, 0, 0)),
        // Circles that are grazed, passed, and of no radius.
        hit(ball, &cast(-1000, 100, 2000, 0)),
        hit(ball, &cast(-1000, 101, 2000, 0)),
        hit(circle(0, 0, 0), &cast(-1000, 0, 2000, 0)),
    ];
    let wanted = [
        Some(7549747),
        Some(4194304),
        None,
        Some(0),
        Some(0),
        None,
        Some(8388608),
        None,
        Some(8388608),
    ];
    same_items(&rt, &hits, &wanted);
}

#[test]
fn rays_meet_the_sides_and_ends_of_a_capsule(rt: HostRuntime) {
    let bar = capsule(-30000, 0, 30000, 0, 10000);
    let hits = [
        hit(bar, &cast(0, 100000, 0, -200000)),
        hit(bar, &cast(-100000, 10000, 200000, 0)),
        hit(bar, &cast(-100000, 10001, 200000, 0)),
        hit(bar, &cast(100000, 0, -200000, 0)),
        hit(bar, &cast(-100000, 0, 200000, 0)),
        hit(bar, &cast(37000, 100000, 0, -200000)),
    ];
    let wanted = [
        Some(7549747),
        Some(5872025),
        None,
        Some(5033164),
        Some(5033164),
        Some(7789541),
    ];
    same_items(&rt, &hits, &wanted);
}

/// Boxes, and whether the ray from the origin to (100000, 100000) reaches them.
fn on_the_way() -> [(Box2, bool); 9] {
    [
        (boxed(60000, 60000, 70000, 70000), true),
        // Two corners at the end of the slack, and just beyond it.
        (boxed(60000, 49872, 70000, 59872), true),
        (boxed(60000, 49871, 70000, 59871), false),
        (boxed(100064, 100064, 200000, 200000), true),
        (boxed(100065, 100065, 200000, 200000), false),
        (boxed(-200, -200, -64, -64), true),
        (boxed(-200, -200, -65, -65), false),
        // A box of all places, and one inside out.
        (boxed(i64::MIN, i64::MIN, i64::MAX, i64::MAX), true),
        (boxed(i64::MAX, i64::MAX, i64::MIN, i64::MIN), false),
    ]
}

#[test]
fn boxes_off_the_way_are_passed_over(rt: HostRuntime) {
    let across = cast(0, 0, 100000, 100000);
    for case in on_the_way() {
        same(&rt, &(case.0, across.reaches(&case.0)), &case);
    }
    let nowhere = cast(5, 5, 0, 0);
    let reached = [
        nowhere.reaches(&boxed(0, 0, 10, 10)),
        nowhere.reaches(&boxed(70, 0, 80, 10)),
    ];
    same_items(&rt, &reached, &[true, false]);
}

fn named(slot: u32, index: u8, shape: Shape, pose: Pose) -> PosedShape
    requires shape { IsShape shape }
    requires pose { IsPose pose }
    ensures { IsPosedShape result }
{
    PosedShape {
        id: ShapeId { slot, index },
        shape,
        pose,
    }
}

fn on(fraction: u32, slot: u32, index: u8) -> Option<Hit> {
    Some(Hit {
        fraction,
        shape: ShapeId { slot, index },
    })
}

/// The first hit on two shapes.
fn first_of(cast: &RayCast, one: PosedShape, other: PosedShape) -> Option<Hit>
    requires one { IsPosedShape one }
    requires other { IsPosedShape other }
{
    first_hit(cast, [one, other].as_slice())
}

#[test]
fn the_first_hit_is_the_nearest_and_then_of_the_lesser_name(rt: HostRuntime) {
    let ball = circle(0, 0, 100);
    let ray = cast(0, 0, 2000, 0);
    let near = named(7, 1, ball, at(1000, 0));
    let twin = named(7, 0, ball, at(1000, 0));
    let far = named(2, 0, ball, at(1500, 0));
    let hits = [
        first_of(&ray, far, near),
        first_of(&ray, near, twin),
        first_of(&ray, twin, near),
        first_of(&cast(0, 0, -2000, 0), twin, near),
        nearer(on(5, 3, 0), on(5, 2, 4)),
    ];
    let lesser = on(7549747, 7, 0);
    let wanted = [on(7549747, 7, 1), lesser, lesser, None, on(5, 2, 4)];
    same_items(&rt, &hits, &wanted);
    let over = [
        is_over(&ball, at(1000, 0), &boxed(0, 0, 900, 5)),
        is_over(&ball, at(1000, 0), &boxed(0, 0, 899, 5)),
    ];
    same_items(&rt, &over, &[true, false]);
}
