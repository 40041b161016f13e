//! A ray among the shapes of a world: which boxes it may meet something in, which shape it hits first, and which shapes
//! lie over a region.
//!
//! Where a ray meets one shape is [`shapes::ray`]. Here are the order of hits, the scan over a list of shapes that says
//! which hit is the first, and a test of boxes that passes over no shape that is hit, so that a tree of boxes may leave
//! out what the test refuses.
#![tactic(auto)]

mod boxes;
mod cast;
mod hits;
pub mod laws;
mod surfaces;

pub use boxes::{RAY_SLACK, limits_in_digits};
pub use cast::RayCast;
pub use hits::{Hit, PosedShape, first_hit, hit_on, is_over, nearer};
pub use surfaces::{ShapeHit, ray_on_shape};
