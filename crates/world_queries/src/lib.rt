//! Questions about a world. About its shapes: what a ray hits first, and which shapes lie over a region, where only
//! enabled bodies are seen. The same may be asked of a frame, with the answers that the frame's world would give. And
//! about its bodies and joints: what one is, which joints and contacts a body has, and how many there are of each.
//!
//! A question changes nothing, and is no call of the world.
#![tactic(auto)]

mod counts;
mod filters;
mod frame_rays;
mod frame_regions;
mod framed;
mod hit_lists;
mod joints;
mod laws;
mod limits;
mod live;
mod on_shape;
mod own_contacts;
mod rays;
mod regions;
mod shapes_in;

pub use counts::{Counts, count};
pub use filters::QueryFilter;
pub use fixed_geom::MAX_CORNER;
pub use frame_rays::frame_ray;
pub use frame_regions::frame_region;
pub use hit_lists::all_hits;
pub use joints::{JointView, joint, joints_of};
pub use laws::frames_show_their_world;
pub use limits::{is_ray, is_region, limits_in_digits};
pub use live::body_named;
pub use on_shape::ray_on_shape;
pub use own_contacts::contacts_of;
pub use rays::{filtered_ray, ray};
pub use regions::{filtered_region, region};
pub use shape_rays::{Hit, ShapeHit};
