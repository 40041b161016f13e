//! What stands at the ends of a tree.

use fixed_geom::{Box2, ZERO_VECTOR};

/// A box under a key. The rank is the leaf's place among the others.
#[derive(Clone, Copy)]
pub struct Leaf {
    pub key: u32,
    pub rank: u64,
    /// Corners in u.
    pub bounds: Box2,
}

/// A leaf that stands in for another for the time of a change.
pub(crate) const BLANK: Leaf = Leaf {
    key: 0,
    rank: 0,
    bounds: Box2 {
        lo: ZERO_VECTOR,
        hi: ZERO_VECTOR,
    },
};
