//! What a joint is for the solver.

use fixed_geom::Vec2;

/// A joint of two bodies: the anchor on each of them, from its centre and in its own axes, and the distance at which
/// the joint holds the two anchors (all in u), and the accumulated impulse that it keeps from tick to tick
/// (mass·u/tick), above zero where it pushes the bodies apart.
#[derive(Clone, Copy, Debug, PartialEq, Eq)]
pub struct Joint {
    pub from: Vec2,
    pub to: Vec2,
    pub length: i64,
    pub impulse: i64,
}
