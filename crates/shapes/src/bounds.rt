//! Boxes round shapes.

ghost use Rattle.std.specs.Prelude.{◌≡◌, ℕ, ◌+◌, ◌^◌, unsigned_abs};
ghost use Rattle.fixed_geom.specs.Boxes.{IsBoxWithin, Contains};
ghost use Rattle.fixed_geom.specs.Vectors.{IsWithin};
ghost use Rattle.shapes.specs.Shapes.{IsShape};
ghost use Rattle.shapes.specs.Poses.{IsPose};
ghost use Rattle.shapes.specs.Bounds.{box_of_ends, tight_box, fat_box};

use crate::{Core, MARGIN, Pose, Shape, core_of};
use fixed_geom::{Box2, Vec2, grow};

/// The least box that holds both ends of a core.
fn box_of_ends(core: &Core) -> Box2
    ensures value { result ≡ box_of_ends core.now }
    ensures within { (k : ℕ) → IsWithin k core.now.p → IsWithin k core.now.q → IsBoxWithin k result }
{
    Box2 {
        lo: Vec2 {
            x: core.p.x.min(core.q.x),
            y: core.p.y.min(core.q.y),
        },
        hi: Vec2 {
            x: core.p.x.max(core.q.x),
            y: core.p.y.max(core.q.y),
        },
    }
}

/// The box of a shape in the world: the box of its ends, grown by its radius.
pub fn tight_box(shape: &Shape, pose: Pose) -> Box2
    requires shape { IsShape shape.now }
    requires pose { IsPose pose }
    ensures value { result ≡ tight_box shape.now pose }
    ensures within { IsBoxWithin (2 ^ 36 + 2 ^ 25 + 2 ^ 24) result }
{
    grow(box_of_ends(&core_of(shape, pose)), shape.radius())
}

/// The tight box grown by `MARGIN`, which a shape may move in before its box is made anew.
pub fn fat_box(tight: Box2) -> Box2
    requires { IsBoxWithin (2 ^ 60) tight }
    ensures value { result ≡ fat_box tight }
    ensures within { (k : ℕ) → IsBoxWithin k tight → IsBoxWithin (k + unsigned_abs MARGIN) result }
    ensures contains { Contains result tight }
{
    grow(tight, MARGIN)
}
