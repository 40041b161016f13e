//! Hits of rays on shapes, by a model that was written apart from this code.

ghost use Rattle.std.specs.Prelude.{IsTrue};
ghost use Rattle.shapes.specs.Shapes.{IsShape};
ghost use Rattle.shapes.specs.Poses.{IsPose};

use crate::assertions::same;
use fixed_geom::{MAX_POSITION, Rot, Vec2, is_facing, is_within};
use shape_rays::*;
use shapes::{MAX_CORE, MAX_RADIUS, MAX_RAY, Pose, Shape};
use std::process::Abort;

/// A shape, the position and facing of its body, the start and way of a ray, and where that hits.
type Case = (Form, [i64; 4], [i64; 4], Option<u32>);

/// A shape by its numbers: a centre or two ends, and a radius.
#[derive(Clone, Copy)]
enum Form {
    Circle([i64; 3]),
    Capsule([i64; 5]),
    Segment([i64; 4]),
}

fn point(x: i64, y: i64) -> Vec2 {
    Vec2 { x, y }
}

impl Form {
    fn shape(self) -> Shape {
        match self {
            Form::Circle(n) => Shape::Circle {
                center: point(n[0], n[1]),
                radius: n[2],
            },
            Form::Capsule(n) => Shape::Capsule {
                first: point(n[0], n[1]),
                second: point(n[2], n[3]),
                radius: n[4],
            },
            Form::Segment(n) => Shape::Segment {
                first: point(n[0], n[1]),
                second: point(n[2], n[3]),
            },
        }
    }
}

/// A list of cases: hits on ends and sides of turned shapes, near the origin and far from it, and misses.
const CASES: [Case; 24] = [
    (
        Form::Capsule([628, 414, 930, 723, 1]),
        [0, 0, 0, 1073741824],
        [157, 491, -1760, 878],
        Some(8349214),
    ),
    (
        Form::Segment([18, 21, -26, -22]),
        [-10, -10, 0, 1073741824],
        [-56, -56, 21, 20],
        None,
    ),
    (
        Form::Capsule([27, -6, 27, -29, 1]),
        [-11, 22, 1073741824, 0],
        [15, 58, 6, -123],
        None,
    ),
    (
        Form::Segment([-27, -14, 30, -29]),
        [4439675624, -9434482778, 1073741826, 0],
        [4439675725, -9434482890, -50, 42],
        None,
    ),
    (
        Form::Capsule([395866, 439534, 3749, 439534, 1]),
        [68553799147, -42490949538, 1073741826, 0],
        [68553775389, -42491422988, 102871, 0],
        None,
    ),
    (
        Form::Circle([16, 14, 1]),
        [0, 0, 1073741822, 0],
        [3, 0, 13, 15],
        Some(15499763),
    ),
    (
        Form::Segment([717, -576, 717, 498]),
        [-46719556414, -19541327296, 539175510, 928553323],
        [-46719557065, -19541328576, 3132, 5352],
        Some(5818912),
    ),
    (
        Form::Capsule([100812, 172061, 100812, 645039, 2629682]),
        [-293097, -674707, 1073741826, 0],
        [6633420, 4732599, -268435456, -268435456],
        Some(265437),
    ),
    (
        Form::Circle([-256, 145, 722]),
        [35564405590, 30050089242, -1073741824, 0],
        [35564408024, 30050087817, -171100, 58100],
        Some(182406),
    ),
    (
        Form::Circle([-99646, -353390, 0]),
        [-287112, 975854, 1073741824, 0],
        [-287107, 975860, -99651, -353396],
        Some(16777216),
    ),
    (
        Form::Capsule([-1, 0, -1, 3, 1]),
        [-3, -1, -1073741824, 0],
        [5, -2, -700, -200],
        Some(143804),
    ),
    (
        Form::Segment([762037, -99255, 1020936, 174040]),
        [51439810086, -43253016747, -1073741824, 0],
        [51439894324, -43252522509, -3315522, -2004834],
        Some(5592405),
    ),
    (
        Form::Segment([-8846358, -15691881, -8319329, 3401732]),
        [-14991058, 14383895, 1073741822, 0],
        [-35397172, -18913925, 115627290, 260758470],
        Some(1713435),
    ),
    (
        Form::Capsule([0, 3, 3, 0, 8]),
        [23224995650, 33790768512, -1073741824, 0],
        [23224995671, 33790768482, -69, 57],
        Some(5709699),
    ),
    (
        Form::Capsule([582604, -296452, 582604, -970180, 1]),
        [-16088045130, -4756454447, -1073741824, 0],
        [-16088941393, -4755575980, 313658, -13583],
        Some(16777216),
    ),
    (
        Form::Segment([17, -23, -25, 28]),
        [9, 2, 0, 1073741824],
        [-19, -15, 117, 42],
        Some(2469373),
    ),
    (
        Form::Segment([-2, -2, 2, -2]),
        [5015400464, -54676256085, 0, 1073741824],
        [5015400465, -54676256086, 2, 4],
        Some(8388608),
    ),
    (
        Form::Circle([2, 0, 0]),
        [-1, 0, 1073741822, 0],
        [-4, -7, 50, 0],
        None,
    ),
    (
        Form::Circle([-2, 0, 1]),
        [0, 2, 1073741826, 0],
        [-6, 0, 400, 200],
        Some(130275),
    ),
    (
        Form::Circle([4165940, 8914524, 16777216]),
        [42941136193, 12159710469, 1073741822, 0],
        [42890437238, 12131961074, 66050297, 44233638],
        Some(10385966),
    ),
    (
        Form::Circle([-2, 3, 2]),
        [10, 1, 0, 1073741824],
        [6, 2, 6, -2],
        None,
    ),
    (
        Form::Capsule([-240411, 984962, -913348, 215671, 1543471]),
        [12049406326, -31328332497, 1073741826, 0],
        [12048806827, -31326721485, 11014220, -17002760],
        Some(0),
    ),
    (
        Form::Circle([848, -279, 299]),
        [31761117272, -36294255094, 1019056241, 338298511],
        [31761118103, -36294255088, 90, -91],
        Some(0),
    ),
    (
        Form::Segment([-3, -2, 0, -2]),
        [-3117775188, -19603476642, 1073741826, 0],
        [-3117775190, -19603476644, 2, 0],
        Some(0),
    ),
];

fn is_shape(shape: &Shape) -> bool
    ensures { IsTrue result → IsShape shape.now }
{
    is_within(shape.first_end(), MAX_CORE)
        && is_within(shape.second_end(), MAX_CORE)
        && 0 <= shape.radius()
        && shape.radius() <= MAX_RADIUS
}

fn is_pose(pose: Pose) -> bool
    ensures { IsTrue result → IsPose pose }
{
    is_within(pose.x, MAX_POSITION as u64) && is_facing(pose.rot)
}

/// Where the case's ray hits, if all its numbers are within their limits.
fn answer(case: &Case) -> Option<Option<u32>> {
    let (form, [x, y, c, s], [left, down, across, up], _) = case;
    let shape = form.shape();
    let pose = Pose {
        x: Vec2 { x: *x, y: *y },
        rot: Rot { c: *c, s: *s },
    };
    let from = Vec2 { x: *left, y: *down };
    let along = Vec2 { x: *across, y: *up };
    if !is_shape(&shape) || !is_pose(pose) {
        return None;
    }
    if !is_within(from, MAX_POSITION as u64) || !is_within(along, MAX_RAY as u64) {
        return None;
    }
    Some(RayCast::new(from, along).hit(&shape, pose))
}

fn expect(rt: &impl Abort, cases: &[Case]) {
    for case in cases {
        same(rt, &answer(case), &Some(case.3));
    }
}

#[test]
fn rays_meet_what_a_model_says(rt: HostRuntime) {
    expect(&rt, &CASES);
}
