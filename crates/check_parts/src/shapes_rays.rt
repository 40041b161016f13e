//! Rays on one shape, worked by hand.

ghost use Rattle.std.specs.Prelude.{◌^◌, ◌≤◌, unsigned_abs};
ghost use Rattle.shapes.specs.Shapes.{IsShape};

use crate::assertions::{same, same_items};
use crate::shapes_outlines::{at, capsule, circle, segment};
use fixed_geom::Vec2;
use shapes::*;

/// Where a ray from `(x, y)` along `(dx, dy)` meets a shape that stands at the origin.
fn hit(shape: Shape, x: i64, y: i64, dx: i64, dy: i64) -> Option<u32>
    requires shape { IsShape shape }
    requires x { unsigned_abs x ≤ 2 ^ 36 }
    requires y { unsigned_abs y ≤ 2 ^ 36 }
    requires dx { unsigned_abs dx ≤ 2 ^ 28 }
    requires dy { unsigned_abs dy ≤ 2 ^ 28 }
{
    ray(&shape, at(0, 0), Vec2 { x, y }, Vec2 { x: dx, y: dy })
}

fn bar() -> Shape
    ensures { IsShape result }
{
    capsule(-30000, 0, 30000, 0, 10000)
}

#[test]
fn rays_meet_circles_and_floors(rt: HostRuntime) {
    let ball = circle(0, 0, 100);
    let floor = segment(-1048576, 0, 1048576, 0);
    let from = Vec2 { x: 0, y: 0 };
    let hits = [
        ray(&ball, at(1000, 0), from, Vec2 { x: 2000, y: 0 }),
        hit(ball, -1000, 100, 2000, 0),
        hit(ball, -1000, 101, 2000, 0),
        hit(circle(0, 0, 0), -1000, 0, 2000, 0),
        hit(floor, 0, 100, 0, -400),
        hit(floor, 0, 100, 0, 400),
        hit(segment(-100, 0, 100, 0), -1000, 0, 2000, 0),
    ];
    let wanted = [
        Some(7549747),
        Some(8388608),
        None,
        Some(8388608),
        Some(4194304),
        None,
        Some(7549747),
    ];
    same_items(&rt, &hits, &wanted);
}

#[test]
fn rays_meet_ends_and_sides(rt: HostRuntime) {
    let hits = [
        hit(bar(), 0, 100000, 0, -200000),
        hit(bar(), 100000, 0, -200000, 0),
        hit(bar(), 37000, 100000, 0, -200000),
        hit(bar(), 0, 100000, 0, -90000),
        hit(bar(), 0, 100000, 0, -80000),
        hit(bar(), 5, 5, 0, 0),
        hit(bar(), 50000, 0, 0, 0),
    ];
    let wanted = [
        Some(7549747),
        Some(5033164),
        Some(7789541),
        Some(16777216),
        None,
        Some(0),
        None,
    ];
    same_items(&rt, &hits, &wanted);
}

/// The distance from the ray's line, times the way's length, is beyond what may be squared.
#[test]
fn rays_far_off_miss(rt: HostRuntime) {
    let ball = circle(0, 0, 16777216);
    let far = Vec2 {
        x: -68719476736,
        y: 68719476736,
    };
    let along = Vec2 {
        x: 268435456,
        y: 268435456,
    };
    same(&rt, &ray(&ball, at(68719476736, 0), far, along), &None);
}
