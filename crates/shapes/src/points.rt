//! The points of a contact, as the two bodies keep them.

use fixed_geom::Vec2;

/// A point of contact: the normal from the first shape to the second, times 2^30, the separation in u
/// (below zero where the shapes overlap), the contact point by its offsets from the two bodies'
/// centres, in u, and the number of its candidate, 0 to 3.
#[derive(Clone, Copy, Debug, PartialEq, Eq)]
pub struct Point {
    pub normal: Vec2,
    pub separation: i64,
    pub ra: Vec2,
    pub rb: Vec2,
    pub candidate: u64,
}

/// The one or two points at which two shapes touch or are nearest.
#[derive(Clone, Copy, Debug, PartialEq, Eq)]
pub struct Manifold {
    pub first: Point,
    pub second: Option<Point>,
}
