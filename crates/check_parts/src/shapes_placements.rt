//! Degenerate placements of each kind of shape against each kind. The values were computed from the definitions in
//! unbounded integers.

ghost use Rattle.shapes.specs.Shapes.{IsShape};

use crate::assertions::same;
use crate::shapes_meeting_cores::{
    AN_END_ON_A_CORE, CORES_ACROSS_ONE_ANOTHER, CORES_ALONG_ONE_ANOTHER, ENDS_THAT_MEET,
};
use crate::shapes_outlines::{at, capsule, circle, segment};
use crate::shapes_separate_cores::{CORES_NEAR_AND_FAR, CORES_SIDE_BY_SIDE, ENDS_AT_ONE_DISTANCE};
use Core::{Ball, Bar, Beam, Cut, Floor, Line, Mast, Post, Slope, Wall};
use shapes::*;
use std::process::Abort;

/// A shape that is placed.
#[derive(Clone, Copy, Debug, PartialEq, Eq)]
pub(crate) enum Core {
    Ball,
    Bar,
    Line,
    Post,
    Wall,
    Mast,
    Cut,
    Beam,
    Floor,
    Slope,
}

impl Core {
    fn shape(self) -> Shape
        ensures { IsShape result }
    {
        match self {
            Ball => circle(0, 0, 10000),
            Bar => capsule(-30000, 0, 30000, 0, 10000),
            Line => segment(-30000, 0, 30000, 0),
            Post => capsule(0, 0, 0, 30000, 10000),
            Wall => segment(0, 0, 0, 30000),
            Mast => capsule(0, -20000, 0, 20100, 10000),
            Cut => segment(0, -20000, 0, 20100),
            Beam => capsule(-50000, 0, 50000, 0, 10000),
            Floor => segment(-50000, 0, 50000, 0),
            Slope => segment(-16777216, -7000001, 16777215, 9000002),
        }
    }
}

/// A point: its candidate, and its normal, its separation and its two offsets.
pub(crate) type Spot = (u64, [i64; 7]);

/// Two shapes, where the second stands, and their one or two points.
pub(crate) type Row = ([Core; 2], [i32; 2], Spot, Option<Spot>);

fn spot(point: &Point) -> Spot {
    let Point {
        normal,
        separation,
        ra,
        rb,
        candidate,
    } = *point;
    (
        candidate,
        [normal.x, normal.y, separation, ra.x, ra.y, rb.x, rb.y],
    )
}

/// The shapes where they are placed so, with the points where they touch.
fn touched([a, b]: [Core; 2], [x, y]: [i32; 2]) -> Row {
    let found = manifold(
        &a.shape(),
        at(0, 0),
        &b.shape(),
        at(i64::from(x), i64::from(y)),
    );
    let second = match found.second {
        Some(second) => Some(spot(&second)),
        None => None,
    };
    ([a, b], [x, y], spot(&found.first), second)
}

fn expect(rt: &impl Abort, rows: &[Row]) {
    for row in rows {
        same(rt, &touched(row.0, row.1), row);
    }
}

#[test]
fn shapes_touch_as_they_stand(rt: HostRuntime) {
    expect(&rt, &CORES_ALONG_ONE_ANOTHER);
    expect(&rt, &CORES_ACROSS_ONE_ANOTHER);
    expect(&rt, &ENDS_THAT_MEET);
    expect(&rt, &CORES_SIDE_BY_SIDE);
    expect(&rt, &AN_END_ON_A_CORE);
    expect(&rt, &ENDS_AT_ONE_DISTANCE);
    expect(&rt, &CORES_NEAR_AND_FAR);
}
