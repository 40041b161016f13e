//! What a world is, as lists, however it is kept.
//!
//! A world keeps its bodies and its joints by slot. This crate has what one slot contains (`Body`, `BodyDef`, `Kind`;
//! `BodyJoint`, `JointDef`), where a body stands (`SetName`), the fat boxes of its shapes
//! (`FatBoxes`), bodies of one shape by its density (`BodyDef::circle` and its like), what has a colour (`Constraint`), and the
//! whole world as plain lists (`Plain`). What a step gathers and moves stands above it.
#![tactic(auto)]

mod body;
mod changes;
mod constraint;
mod fats;
mod filters;
mod joint;
mod kind;
mod placement;
mod plain;
mod presets;
mod sleep;
mod slots;

pub use body::{Body, BodyDef, BodyView, SetName, is_mass_allowed};
pub use changes::{BodyChange, change_slot, disable_slot, enable_slot};
pub use constraint::Constraint;
pub use contacts_base::{ContactEntry, ContactKey, ShapeId, Surface};
pub use fats::FatBoxes;
pub use filters::know_filters_fit;
pub use joint::{BodyJoint, JointDef};
pub use joint_rows::Joint;
pub use kind::{Course, Kind, NO_COURSE};
pub use placement::{shape_of, surface_of};
pub use plain::{Plain, PlainParts};
pub use presets::{SMOOTH, smooth_in_digits};
pub use sleep::{SLOW_SPEED, SLOW_SPIN, limits_in_digits};
pub use slots::{body_of, clear_slot, copy_bodies, item_at, put_item};
