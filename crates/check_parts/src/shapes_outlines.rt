//! Values worked by hand of shapes and of lists of them, each public function once.

ghost use Rattle.std.specs.Prelude.{◌^◌, ◌≤◌, pos, ◌≤ℤ◌, unsigned_abs};
ghost use Rattle.fixed_geom.specs.Facings.{IsFacing};
ghost use Rattle.shapes.specs.Shapes.{IsShape};
ghost use Rattle.shapes.specs.Poses.{IsPose};

use crate::assertions::{same, same_items};
use fixed_geom::{Box2, Refusal, Rot, UNIT, Vec2};
use shapes::*;
use std::alloc::Global;
use std::test::Fail;

fn ahead() -> Rot
    ensures { IsFacing result }
{
    Rot { c: UNIT, s: 0 }
}

/// A pose that faces along the x axis.
pub(crate) fn at(x: i64, y: i64) -> Pose
    requires x { unsigned_abs x ≤ 2 ^ 36 }
    requires y { unsigned_abs y ≤ 2 ^ 36 }
    ensures { IsPose result }
{
    Pose {
        x: Vec2 { x, y },
        rot: ahead(),
    }
}

pub(crate) fn circle(x: i64, y: i64, radius: i64) -> Shape
    requires x { unsigned_abs x ≤ 2 ^ 24 }
    requires y { unsigned_abs y ≤ 2 ^ 24 }
    requires nonnegative { pos 0 ≤ℤ radius }
    requires radius { unsigned_abs radius ≤ 2 ^ 24 }
    ensures { IsShape result }
{
    Shape::Circle {
        center: Vec2 { x, y },
        radius,
    }
}

pub(crate) fn capsule(px: i64, py: i64, qx: i64, qy: i64, radius: i64) -> Shape
    requires px { unsigned_abs px ≤ 2 ^ 24 }
    requires py { unsigned_abs py ≤ 2 ^ 24 }
    requires qx { unsigned_abs qx ≤ 2 ^ 24 }
    requires qy { unsigned_abs qy ≤ 2 ^ 24 }
    requires nonnegative { pos 0 ≤ℤ radius }
    requires radius { unsigned_abs radius ≤ 2 ^ 24 }
    ensures { IsShape result }
{
    Shape::Capsule {
        first: Vec2 { x: px, y: py },
        second: Vec2 { x: qx, y: qy },
        radius,
    }
}

pub(crate) fn segment(px: i64, py: i64, qx: i64, qy: i64) -> Shape
    requires px { unsigned_abs px ≤ 2 ^ 24 }
    requires py { unsigned_abs py ≤ 2 ^ 24 }
    requires qx { unsigned_abs qx ≤ 2 ^ 24 }
    requires qy { unsigned_abs qy ≤ 2 ^ 24 }
    ensures { IsShape result }
{
    Shape::Segment {
        first: Vec2 { x: px, y: py },
        second: Vec2 { x: qx, y: qy },
    }
}

/// A shape with nothing else said of it.
fn def(shape: Shape) -> ShapeDef {
    ShapeDef {
        shape,
        ..ShapeDef::default()
    }
}

#[test]
fn forms_are_refused_before_ranges(rt: HostRuntime) {
    let ball = def(circle(0, 0, 0));
    let bar = def(capsule(0, 0, 5, 0, 1));
    let line = def(segment(0, 0, 5, 0));
    let rough = ShapeDef {
        friction: 513,
        ..ball
    };
    let of_static = [
        check(&[ball, bar, line], true),
        check(&[def(capsule(0, 0, 5, 0, 0))], true),
        check(&[def(capsule(5, 0, 5, 0, 1))], true),
        check(&[def(segment(5, 7, 5, 7))], true),
        check(&[], true),
    ];
    let bad = Err(Refusal::BadShape);
    same_items(&rt, &of_static, &[Ok(()), bad, bad, bad, bad]);
    let of_movers = [
        check(&[ball, bar, line], false),
        check(&[ball; 8], false),
        check(&[ball; 9], false),
        check(&[rough], false),
        check(&[rough, line], false),
    ];
    let wide = Err(Refusal::OutOfRange);
    same_items(&rt, &of_movers, &[bad, Ok(()), bad, wide, bad]);
}

#[test]
fn groups_decide_before_masks(rt: HostRuntime) {
    let plain = Filter::default();
    let shy = Filter { mask: 2, ..plain };
    let broad = Filter {
        category: 6,
        ..plain
    };
    let friends = Filter { group: 3, ..shy };
    let strangers = Filter { group: -3, ..plain };
    let collide = [
        should_collide(plain, plain),
        should_collide(plain, shy),
        should_collide(shy, plain),
        shy.meets(broad),
        should_collide(friends, friends),
        should_collide(strangers, strangers),
        should_collide(strangers, plain),
    ];
    same_items(
        &rt,
        &collide,
        &[true, false, false, true, true, false, true],
    );
}

#[test]
fn numbers_of_two_shapes_mix(rt: HostRuntime) {
    let mixed = [
        mixed_friction(128, 511),
        mixed_friction(512, 512),
        mixed_restitution(7, 12),
    ];
    same_items(&rt, &mixed, &[255, 512, 12]);
}

#[test]
fn boxes_hold_their_shapes(rt: HostRuntime) {
    let tight = tight_box(&circle(0, 0, 100), at(0, 0));
    let boxes = [
        fat_box(tight),
        tight_box(&capsule(7, 3, -5, 40, 2), at(100, 200)),
    ];
    let fat = Box2 {
        lo: Vec2 {
            x: -131172,
            y: -131172,
        },
        hi: Vec2 {
            x: 131172,
            y: 131172,
        },
    };
    let turned = Box2 {
        lo: Vec2 { x: 93, y: 201 },
        hi: Vec2 { x: 109, y: 242 },
    };
    same_items(&rt, &boxes, &[fat, turned]);
    same(
        &rt,
        &transformed(at(100, 200), Vec2 { x: -5, y: 40 }),
        &Vec2 { x: 95, y: 240 },
    );
}

/// A copy of a list of two shapes.
fn copied(alloc: Global) -> Result<Shapes, Refusal> {
    let mut shapes = Shapes::new(alloc);
    shapes.push(def(circle(0, 0, 5)))?;
    shapes.push(def(segment(0, 0, 5, 0)))?;
    shapes.try_copy()
}

#[test]
fn a_list_keeps_its_shapes(rt: HostRuntime) -> Result<(), Fail> {
    let shapes = copied(rt.alloc())?;
    let wanted = [def(circle(0, 0, 5)), def(segment(0, 0, 5, 0))];
    same_items(&rt, shapes.as_slice(), &wanted);
    Ok(())
}
