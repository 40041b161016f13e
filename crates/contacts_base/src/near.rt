//! Which shapes are near one another.

ghost use Rattle.std.specs.Prelude.{◌≡◌, ◌^◌, ◌<◌};
ghost use Rattle.contacts_base.specs.Near.{is_near, one_stirs};
ghost use Rattle.contacts_base.specs.NearCodes.{pair_code};

use crate::{ShapeId, Surface};
use fixed_geom::{Box2, overlaps};
use shapes::{Filter, Pose, Shape, should_collide};

/// A shape of an enabled body as the collide reads it: its name, its fat box, its filter, whether
/// its body is dynamic, whether it stirs (as an awake mover does, and what is carried along and
/// moves), its friction and restitution, and the shape with its body's pose.
#[derive(Clone, Copy, Debug, PartialEq, Eq)]
pub struct Proxy {
    pub id: ShapeId,
    pub fat: Box2,
    pub filter: Filter,
    pub dynamic: bool,
    pub stirs: bool,
    pub surface: Surface,
    pub shape: Shape,
    pub pose: Pose,
}

/// Whether two shapes are near: of two bodies, one of them dynamic at least, with filters that let
/// them collide, and with fat boxes that overlap.
#[tactic(auto, unfolding(crate::specs::Near::is_near))]
pub fn is_near(p: &Proxy, q: &Proxy) -> bool
    ensures { result ≡ is_near p.now q.now }
{
    if p.id.slot == q.id.slot {
        return false;
    }
    if !(p.dynamic || q.dynamic) {
        return false;
    }
    if should_collide(p.filter, q.filter) {
        overlaps(p.fat, q.fat)
    } else {
        false
    }
}

/// Whether the body of one of two shapes stirs, so that their contact is evaluated.
#[inline(always)]
pub fn one_stirs(p: &Proxy, q: &Proxy) -> bool
    ensures { result ≡ one_stirs p.now q.now }
{
    p.stirs || q.stirs
}

/// The number of the pair of the shapes at two places of a list, below 2^32 both: 2^32 times the
/// one place, and the other.
pub fn code_of(place: usize, other: usize) -> u64
    requires place { place < 2 ^ 32 }
    requires other { other < 2 ^ 32 }
    ensures { result ≡ pair_code place other }
{
    (place as u64) * (1 << 32) + other as u64
}
