//! What only the extended form of a script asks for.

use body_handles::Handle;
use fixed_geom::{Box2, Vec2};
use world_script_base::Fields;

/// A ray: its start and its way (u), which shapes it may hit, and whether the id of the body that it hits is told.
#[derive(Clone, Copy)]
pub struct RayRequest {
    pub from: Vec2,
    pub along: Vec2,
    /// The body whose shapes it passes by, if there is one.
    pub without: Option<Handle>,
    /// The categories of the shapes that it may hit, or none where it may hit all.
    pub mask: Option<u64>,
    pub ids: bool,
}

/// A request of the extended form.
#[derive(Clone, Copy)]
pub enum Extended {
    /// The bodies by slot: all, or those alone that are awake.
    Bodies { awake: bool },
    /// The contacts that touch, and whether ids are told.
    Contacts { ids: bool },
    /// The joints by slot.
    Joints,
    /// The digest of the world.
    Digest,
    /// The world is to be kept under a number.
    Keep(i64),
    /// The world that was kept under a number is to come back.
    Back(i64),
    /// A step whose events have ids.
    Step(i64),
    /// A ray that passes some shapes by, or whose hit has an id.
    Ray(RayRequest),
    /// A region whose shapes have ids.
    Region(Box2),
}

/// What a key says that may be left out, and says no then.
fn take_choice<'a>(fields: &mut Fields<'a>, key: &'a str) -> bool {
    fields.has(key) && fields.take_truth(key)
}

/// The corners of a region.
pub(crate) fn take_box<'a>(fields: &mut Fields<'a>) -> Box2 {
    let lo = fields.take_vector("lo");
    let hi = fields.take_vector("hi");
    Box2 { lo, hi }
}

/// The body that a ray passes by, if it names one.
fn take_without<'a>(fields: &mut Fields<'a>) -> Option<Handle> {
    if fields.has("without") {
        Some(fields.take_id("without"))
    } else {
        None
    }
}

/// The categories that a ray may hit, if it names some.
fn take_mask<'a>(fields: &mut Fields<'a>) -> Option<u64> {
    if fields.has("mask") {
        Some(fields.take_unsigned("mask"))
    } else {
        None
    }
}

/// A ray, if it is one of the extended form: one that asks for ids, or says which shapes it may hit.
fn take_ray<'a>(fields: &mut Fields<'a>) -> Option<Extended> {
    let is_filtered = fields.has("without") || fields.has("mask");
    let ids = take_choice(fields, "ids");
    if !ids && !is_filtered {
        return None;
    }
    let from = fields.take_vector("from");
    let along = fields.take_vector("along");
    let without = take_without(fields);
    let mask = take_mask(fields);
    Some(Extended::Ray(RayRequest {
        from,
        along,
        without,
        mask,
        ids,
    }))
}

/// A step or a region, if it asks for ids in its answer.
fn take_with_ids<'a>(fields: &mut Fields<'a>, name: &str) -> Option<Extended> {
    if !take_choice(fields, "ids") {
        return None;
    }
    match name {
        "step" => Some(Extended::Step(fields.take_signed("ticks"))),
        _ => Some(Extended::Region(take_box(fields))),
    }
}

/// The request of this name that only the extended form has, if it is one's. A step, a ray and a region are such where
/// they ask for ids, and a ray where it says which shapes it may hit.
pub(crate) fn take_extended<'a>(fields: &mut Fields<'a>, name: &str) -> Option<Extended> {
    let request = match name {
        "bodies" => Extended::Bodies {
            awake: take_choice(fields, "awake"),
        },
        "contacts" => Extended::Contacts {
            ids: take_choice(fields, "ids"),
        },
        "joints" => Extended::Joints,
        "digest" => Extended::Digest,
        "keep" => Extended::Keep(fields.take_signed("number")),
        "back" => Extended::Back(fields.take_signed("number")),
        "ray" => return take_ray(fields),
        "step" | "region" => return take_with_ids(fields, name),
        _ => return None,
    };
    Some(request)
}
