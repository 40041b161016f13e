//! What the quotients of a body's momenta are taken with.

ghost use Rattle.std.specs.Prelude.{◌≡◌};
ghost use Rattle.momenta.specs.Reciprocals.{reciprocals_of};

use crate::MassData;
use fixed_geom::{rdiv_reciprocal, share_reciprocal};

/// The reciprocals of a body's mass and of its inertia, as `rdiv_by` and `share_by` take them.
#[derive(Clone, Copy, Debug, PartialEq, Eq)]
pub struct Reciprocals {
    pub mass: i64,
    pub inertia: i64,
}

/// Those of a body with this mass.
#[tactic(auto, unfolding(crate::specs::Reciprocals::reciprocals_of))]
pub fn reciprocals_of(mass: MassData) -> Reciprocals
    ensures { result ≡ reciprocals_of mass }
{
    Reciprocals {
        mass: rdiv_reciprocal(mass.mass),
        inertia: share_reciprocal(mass.inertia),
    }
}
