//! Points of contact worked by hand.

ghost use Rattle.fixed_geom.specs.Facings.{IsFacing};

use crate::assertions::same;
use crate::shapes_outlines::{at, capsule, circle, segment};
use fixed_geom::{Rot, UNIT, Vec2};
use shapes::*;

/// A capsule on a longer segment touches it at both of its ends.
#[test]
fn a_capsule_rests_on_a_floor(rt: HostRuntime) {
    let floor = segment(-100000, 0, 100000, 0);
    let bar = capsule(-50000, 0, 50000, 0, 20000);
    let up = Vec2 { x: 0, y: UNIT };
    let first = Point {
        normal: up,
        separation: 0,
        ra: Vec2 { x: -50000, y: 0 },
        rb: Vec2 {
            x: -50000,
            y: -20000,
        },
        candidate: 2,
    };
    let second = Point {
        normal: up,
        separation: 0,
        ra: Vec2 { x: 50000, y: 0 },
        rb: Vec2 {
            x: 50000,
            y: -20000,
        },
        candidate: 3,
    };
    let wanted = Manifold {
        first,
        second: Some(second),
    };
    same(
        &rt,
        &manifold(&floor, at(0, 0), &bar, at(0, 20000)),
        &wanted,
    );
}

/// Cores that cross are pushed out by the end that is least far in.
#[test]
fn crossing_cores_push_out(rt: HostRuntime) {
    let line = segment(-100, 0, 100, 0);
    let bar = capsule(0, -30, 0, 70, 5);
    let found = manifold(&line, at(0, 0), &bar, at(10, 0));
    let first = Point {
        normal: Vec2 { x: 0, y: UNIT },
        separation: -35,
        ra: Vec2 { x: 10, y: -18 },
        rb: Vec2 { x: 0, y: -18 },
        candidate: 2,
    };
    let wanted = Manifold {
        first,
        second: None,
    };
    same(&rt, &found, &wanted);
}

fn eighth_turn() -> Rot
    ensures { IsFacing result }
{
    Rot {
        c: 759250125,
        s: 759250125,
    }
}

/// A short capsule whose ends are turned onto one place has a point for its core.
#[test]
fn a_turned_core_becomes_a_point(rt: HostRuntime) {
    let turned = Pose {
        x: Vec2 { x: 0, y: 0 },
        rot: eighth_turn(),
    };
    let found = manifold(
        &capsule(1, 0, 2, 0, 10),
        turned,
        &circle(0, 0, 10),
        at(16, 1),
    );
    let first = Point {
        normal: Vec2 { x: UNIT, y: 0 },
        separation: -5,
        ra: Vec2 { x: 8, y: 1 },
        rb: Vec2 { x: -8, y: 0 },
        candidate: 0,
    };
    let wanted = Manifold {
        first,
        second: None,
    };
    same(&rt, &found, &wanted);
}
