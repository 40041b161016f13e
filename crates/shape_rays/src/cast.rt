//! A ray as it is sent among shapes.

ghost use Rattle.std.specs.Prelude.{◌≡◌, unsigned_abs};
ghost use Rattle.fixed_geom.specs.Vectors.{IsWithin};
ghost use Rattle.shapes.specs.Shapes.{IsShape};
ghost use Rattle.shapes.specs.Poses.{IsPose};
ghost use Rattle.shapes.specs.Rays.{beam_of, ray_of};
ghost use Rattle.shape_rays.specs.Reach.{box_round, reaches};

use crate::boxes::{box_round, common, is_crossed};
use fixed_geom::{Box2, MAX_POSITION, Vec2, minus, overlaps};
use shapes::{MAX_RAY, Pose, Shape};
use std::marker::Model;

/// A ray that is sent among shapes: its start and its way, in u. Contracts see these two.
#[derive(Drop)]
pub struct RayCast {
    from: Vec2,
    along: Vec2,
    // The box round the way, which each box is tested against first.
    around: Box2,
}

impl Model for RayCast {
    ghost use Rattle.shapes.specs.declared.beam.Beam.{Beam};
    ghost use Rattle.shape_rays.specs.Casts.{IsRayCast};

    ghost Value = { Beam };

    ghost view = { λ a. record { from = a.from; along = a.along } };

    ghost invariant = { λ a. IsRayCast a };
}

impl RayCast {
    /// A ray from a start within 2^36 u in each coordinate, along a way within 2^28 u in each. A way of zero is
    /// allowed.
    pub fn new(from: Vec2, along: Vec2) -> RayCast
        requires from { IsWithin (unsigned_abs MAX_POSITION) from }
        requires along { IsWithin (unsigned_abs MAX_RAY) along }
        ensures { result ≡ beam_of from along }
    {
        RayCast {
            from,
            along,
            around: box_round(from, along),
        }
    }

    /// The box round its way, with [`RAY_SLACK`](crate::RAY_SLACK) on each side. A shape whose tight box doesn't
    /// overlap it isn't hit.
    pub fn around(&self) -> Box2
        ensures { result ≡ box_round self.now }
    {
        self.around
    }

    /// Whether the ray may meet something that lies in the box: whether its way passes the box with
    /// [`RAY_SLACK`](crate::RAY_SLACK) on each side. Any box may be asked about. A shape whose tight box lies in a box
    /// that is refused isn't hit.
    pub fn reaches(&self, bounds: &Box2) -> bool
        ensures { result ≡ reaches self.now bounds.now }
    {
        reaches(self.from, self.along, &self.around, bounds)
    }

    /// Where the ray first meets the shape of a body with this pose, as a fraction of its way times 2^24; `None` where
    /// it misses.
    pub fn hit(&self, shape: &Shape, pose: Pose) -> Option<u32>
        requires shape { IsShape shape.now }
        requires pose { IsPose pose }
        ensures { result ≡ ray_of shape.now pose self.now.from self.now.along }
    {
        shapes::ray(shape, pose, self.from, self.along)
    }
}

#[tactic(auto, unfolding(crate::specs::Reach::reaches))]
fn reaches(from: Vec2, along: Vec2, around: &Box2, bounds: &Box2) -> bool
    requires from { IsWithin (unsigned_abs MAX_POSITION) from }
    requires along { IsWithin (unsigned_abs MAX_RAY) along }
    requires around { around.now ≡ Rattle.shape_rays.specs.Reach.box_round (beam_of from along) }
    ensures { result ≡ reaches (beam_of from along) bounds.now }
{
    if !overlaps(*bounds, *around) {
        return false;
    }
    let part = common(bounds, around);
    is_crossed(along, minus(part.lo, from), minus(part.hi, from))
}
