//! The first hit of a ray among shapes, and the shapes over a region.

ghost use Rattle.std.specs.Prelude.{◌≡◌, All};
ghost use Rattle.fixed_geom.specs.Boxes.{overlaps};
ghost use Rattle.shapes.specs.Shapes.{IsShape};
ghost use Rattle.shapes.specs.Poses.{IsPose};
ghost use Rattle.shapes.specs.Bounds.{tight_box};
ghost use Rattle.shape_rays.specs.Hits.{IsPosedShape, is_lesser, is_before, nearer, hit_at, hit_on, first_hit};

use crate::RayCast;
use contacts_base::ShapeId;
use fixed_geom::{Box2, overlaps};
use shapes::{Pose, Shape, tight_box};

/// Where a ray first meets a shape: the fraction of its way, times 2^24, and the shape's name.
#[derive(Clone, Copy, Debug, PartialEq, Eq)]
pub struct Hit {
    pub fraction: u32,
    pub shape: ShapeId,
}

/// A shape in the world: its name, its form, and the pose of its body.
#[derive(Clone, Copy, Debug, PartialEq, Eq)]
pub struct PosedShape {
    pub id: ShapeId,
    pub shape: Shape,
    pub pose: Pose,
}

/// Whether the first name is the lesser: that of a lower slot and, in one slot, of an earlier shape.
fn is_lesser(a: ShapeId, b: ShapeId) -> bool
    ensures { result ≡ is_lesser a b }
{
    if a.slot < b.slot {
        return true;
    }
    if b.slot < a.slot {
        return false;
    }
    a.index < b.index
}

/// Whether the first hit comes before the second: it is nearer or, where both are as near, its shape has the lesser
/// name.
fn is_before(a: Hit, b: Hit) -> bool
    ensures { result ≡ is_before a b }
{
    if a.fraction < b.fraction {
        return true;
    }
    if b.fraction < a.fraction {
        return false;
    }
    is_lesser(a.shape, b.shape)
}

/// The hit of two that comes first; any comes before none.
pub fn nearer(first: Option<Hit>, second: Option<Hit>) -> Option<Hit>
    ensures { result ≡ nearer first second }
{
    let Some(a) = first else {
        return second;
    };
    let Some(b) = second else {
        return first;
    };
    if is_before(b, a) { Some(b) } else { Some(a) }
}

fn hit_at(fraction: Option<u32>, shape: ShapeId) -> Option<Hit>
    ensures { result ≡ hit_at fraction shape }
{
    match fraction {
        None => None,
        Some(fraction) => Some(Hit { fraction, shape }),
    }
}

/// The ray's hit on one shape.
pub fn hit_on(cast: &RayCast, transformed: &PosedShape) -> Option<Hit>
    requires { IsPosedShape transformed.now }
    ensures { result ≡ hit_on cast.now transformed.now }
{
    hit_at(
        cast.hit(&transformed.shape, transformed.pose),
        transformed.id,
    )
}

/// The ray's first hit on all these shapes: the least by its fraction and then by the shape's name. It looks at each
/// shape, and takes no memory.
pub fn first_hit(cast: &RayCast, shapes: &[PosedShape]) -> Option<Hit>
    requires { All IsPosedShape shapes.now }
    ensures { result ≡ first_hit cast.now shapes.now }
{
    let mut best: Option<Hit> = None;
    for transformed in shapes {
        best = nearer(best, hit_on(cast, transformed));
    }
    best
}

/// Whether the shape's tight box overlaps a region; it does so where the two only touch.
pub fn is_over(shape: &Shape, pose: Pose, region: &Box2) -> bool
    requires shape { IsShape shape.now }
    requires pose { IsPose pose }
    ensures { result ≡ overlaps (tight_box shape.now pose) region.now }
{
    overlaps(tight_box(shape, pose), *region)
}
