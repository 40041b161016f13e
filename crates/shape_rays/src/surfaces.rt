//! Where a ray hits one shape: the point, and the way in which the shape's surface faces there.

ghost use Rattle.std.specs.Prelude.{◌≡◌, ◌+◌, ◌^◌, ◌<◌, ◌≤◌, false, pos, ◌*ℤ◌, unsigned_abs};
ghost use Rattle.fixed_geom.specs.Facings.{IsFacing};
ghost use Rattle.fixed_geom.specs.Vectors.{IsWithin, minus};
ghost use Rattle.shapes.specs.Cores.{is_point, side};
ghost use Rattle.shapes.specs.Poses.{IsPose, IsPosed};
ghost use Rattle.shapes.specs.Rays.{IsBeam, beam_of};
ghost use Rattle.shapes.specs.Shapes.{IsShape};
ghost use Rattle.shapes.specs.Spots.{across, square_to};
ghost use Rattle.shape_rays.specs.Surfaces.{left_of, normal_at, normal_to, point_at, shape_hit, side_normal, unturned};

use fixed_geom::{MAX_POSITION, Rot, UNIT, Vec2, ZERO_VECTOR, cross, minus, moved, opposite, unit};
use shapes::{Core, MAX_RAY, Pose, Shape, core_of, manifold, ray};

/// Where a ray hits a shape: the fraction of its way, times 2^24, the point, in u, and the normal, times 2^30, from the
/// shape outwards.
#[derive(Clone, Copy, Debug, PartialEq, Eq)]
pub struct ShapeHit {
    pub fraction: u32,
    pub point: Vec2,
    pub normal: Vec2,
}

/// A fraction in 2^24ths, in 2^30ths.
fn share_of(fraction: u32) -> i64
    ensures value { result ≡ pos fraction *ℤ pos 64 }
    ensures small { unsigned_abs result ≤ 2 ^ 38 }
{
    i64::from(fraction) * 64
}

/// The place at a fraction of a way, in 2^24ths.
fn point_at(from: Vec2, along: Vec2, fraction: u32) -> Vec2
    requires from { IsWithin (unsigned_abs MAX_POSITION) from }
    requires along { IsWithin (unsigned_abs MAX_RAY) along }
    ensures value { result ≡ point_at (beam_of from along) fraction }
    ensures within { IsWithin (2 ^ 37) result }
{
    moved(from, along, share_of(fraction))
}

fn unturned() -> Rot
    ensures value { result ≡ unturned }
    ensures facing { IsFacing result }
{
    Rot { c: UNIT, s: 0 }
}

/// The normal of the contact of a shape with a point: from the nearest place of its core to the point, which is taken
/// from the centre of the shape's body.
fn normal_to(shape: &Shape, facing: Rot, place: Vec2) -> Vec2
    requires shape { IsShape shape.now }
    requires facing { IsFacing facing }
    requires near { IsWithin (unsigned_abs MAX_POSITION) place }
    ensures { result ≡ normal_to shape.now facing place }
{
    let body = Pose {
        x: ZERO_VECTOR,
        rot: facing,
    };
    let point = Shape::Circle {
        center: ZERO_VECTOR,
        radius: 0,
    };
    let at = Pose {
        x: place,
        rot: unturned(),
    };
    manifold(shape, body, &point, at).first.normal
}

/// `v` turned to the left by a quarter.
fn square_to(v: Vec2) -> Vec2
    requires { IsWithin (2 ^ 40) v }
    ensures value { result ≡ square_to v }
    ensures within { IsWithin (2 ^ 40) result }
    ensures same { unsigned_abs result.x + unsigned_abs result.y ≡ unsigned_abs v.x + unsigned_abs v.y }
{
    Vec2 { x: -v.y, y: v.x }
}

/// Both ends of a core are at one place.
#[tactic(auto, unfolding(shapes::specs::Cores::is_point))]
fn is_point(core: &Core) -> bool
    ensures { result ≡ is_point core.now }
{
    core.p.x == core.q.x && core.p.y == core.q.y
}

/// The unit vector square to a core that is no point, to its left.
fn across(core: &Core) -> Vec2
    requires core { IsPosed core.now }
    requires wide { is_point core.now ≡ false }
    ensures value { result ≡ across core.now }
    ensures within { IsWithin (unsigned_abs UNIT) result }
{
    unit(square_to(minus(core.q, core.p)))
}

/// The same of any core; up where it is a point.
fn left_of(core: &Core) -> Vec2
    requires { IsPosed core.now }
    ensures value { result ≡ left_of core.now }
    ensures within { IsWithin (unsigned_abs UNIT) result }
{
    if is_point(core) {
        return Vec2 { x: 0, y: UNIT };
    }
    across(core)
}

/// On which side of a core's line a place lies: above zero to the left, zero on the line.
fn side(core: &Core, place: Vec2) -> i128
    requires core { IsPosed core.now }
    requires place { IsWithin (unsigned_abs MAX_POSITION) place }
    ensures { result ≡ side core.now place }
{
    cross(minus(core.q, core.p), minus(place, core.p))
}

/// The one of the two unit vectors square to a core that leads to the side on which a place lies.
#[tactic(auto, unfolding(crate::specs::Surfaces::side_normal))]
fn side_normal(core: &Core, place: Vec2) -> Vec2
    requires core { IsPosed core.now }
    requires place { IsWithin (unsigned_abs MAX_POSITION) place }
    ensures { result ≡ side_normal core.now place }
{
    let left = left_of(core);
    if side(core, place) < 0 {
        return opposite(left);
    }
    left
}

/// The normal, from the shape outwards, where a ray from a start hits a shape at a point that is no further than 2^36 u
/// from its body's centre in each coordinate.
fn normal_at(shape: &Shape, pose: Pose, from: Vec2, point: Vec2) -> Vec2
    requires shape { IsShape shape.now }
    requires pose { IsPose pose }
    requires from { IsWithin (unsigned_abs MAX_POSITION) from }
    requires point { IsWithin (2 ^ 37) point }
    requires near { IsWithin (unsigned_abs MAX_POSITION) (minus point pose.x) }
    ensures { result ≡ normal_at shape.now pose from point }
{
    match shape {
        Shape::Segment { .. } => side_normal(&core_of(shape, pose), from),
        _ => normal_to(shape, pose.rot, minus(point, pose.x)),
    }
}

/// The first hit of the ray from a start along a way on the shape of a body with this pose: where it is, and how the
/// surface faces there. The start, in u, is within 2^36 in each coordinate, the way within 2^28.
pub fn ray_on_shape(shape: &Shape, pose: Pose, from: Vec2, along: Vec2) -> Option<ShapeHit>
    requires shape { IsShape shape.now }
    requires pose { IsPose pose }
    requires ray { IsBeam (beam_of from along) }
    ensures { result ≡ shape_hit (beam_of from along) shape.now pose }
{
    let fraction = ray(shape, pose, from, along)?;
    let point = point_at(from, along, fraction);
    Some(ShapeHit {
        fraction,
        point,
        normal: normal_at(shape, pose, from, point),
    })
}
