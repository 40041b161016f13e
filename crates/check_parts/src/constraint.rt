//! A constraint that is a number alone.

use graph_colours::{ConstraintId, Movers};

#[derive(Clone, Copy, Debug, PartialEq, Eq)]
pub(crate) struct Joint(pub(crate) u32);

impl ConstraintId for Joint {
    ghost number = { λ joint. joint.0 };

    fn number(&self) -> u128 {
        self.0 as u128
    }
}

/// The movers of a constraint that acts on two.
pub(crate) fn between(first: u32, second: u32) -> Movers {
    Movers {
        first,
        second: Some(second),
    }
}
