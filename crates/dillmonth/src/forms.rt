//! Values as C has them.

/// A vector: a place or a way in u, an impulse or a momentum in mass·u/tick, a velocity in u/tick.
#[repr(C)]
#[derive(Clone, Copy)]
pub struct CVector {
    pub x: i64,
    pub y: i64,
}

/// A facing: a cosine and a sine, times 2^30.
#[repr(C)]
#[derive(Clone, Copy)]
pub struct CFacing {
    pub c: i64,
    pub s: i64,
}

/// The id of a body or of a joint.
#[repr(C)]
#[derive(Clone, Copy)]
pub struct CHandle {
    pub slot: u32,
    pub generation: u32,
}

/// The name of a shape: its body's slot, and its place among the body's shapes.
#[repr(C)]
#[derive(Clone, Copy)]
pub struct CShapeId {
    pub slot: u32,
    pub index: u32,
}

/// Two shapes, the lesser name first.
#[repr(C)]
#[derive(Clone, Copy)]
pub struct CPair {
    pub first: CShapeId,
    pub second: CShapeId,
}

/// A box from its lower to its upper corner, in u.
#[repr(C)]
#[derive(Clone, Copy)]
pub struct CBox {
    pub lo: CVector,
    pub hi: CVector,
}

/// A shape. The form is 0 for a circle round `first`, 1 for a capsule, 2 for a segment; friction and restitution are in
/// 256ths.
#[repr(C)]
#[derive(Clone, Copy)]
pub struct CShape {
    pub form: u32,
    pub group: i32,
    pub first: CVector,
    pub second: CVector,
    pub radius: i64,
    pub friction: i64,
    pub restitution: i64,
    pub category: u64,
    pub mask: u64,
}

/// A body to be made. The kind is 0 for a static one, 1 for a kinematic one with this velocity and spin, 2 for a
/// dynamic one.
#[repr(C)]
#[derive(Clone, Copy)]
pub struct CBodyDef {
    pub kind: u32,
    pub unused: u32,
    pub at: CVector,
    pub facing: CFacing,
    pub mass: i64,
    pub inertia: i64,
    pub velocity: CVector,
    pub spin: i64,
}

/// A joint to be made.
#[repr(C)]
#[derive(Clone, Copy)]
pub struct CJointDef {
    pub a: CHandle,
    pub b: CHandle,
    pub from: CVector,
    pub to: CVector,
    pub length: i64,
    /// 0 where its two bodies don't collide.
    pub collide: u32,
    pub unused: u32,
}

/// A body's id, its place and its facing.
#[repr(C)]
#[derive(Clone, Copy)]
pub struct CPose {
    pub handle: CHandle,
    pub at: CVector,
    pub facing: CFacing,
}

/// What can be seen of a body. Its angular momentum is `l_high` times 2^64 and `l_low`.
#[repr(C)]
#[derive(Clone, Copy)]
pub struct CView {
    pub pose: CPose,
    pub p: CVector,
    pub l_low: u64,
    pub l_high: i64,
    pub velocity: CVector,
    pub spin: i64,
    /// 0 static, 1 disabled, 2 awake, 3 asleep.
    pub set: u32,
    /// The name of the island with which it sleeps.
    pub island: u32,
    /// What `dm_set_tag` gave it, or 0.
    pub tag: u64,
}

/// A point of a contact; all zeros where there is none.
#[repr(C)]
#[derive(Clone, Copy)]
pub struct CContactPoint {
    /// Where it is, from the first body's centre, in u.
    pub offset: CVector,
    /// How far the shapes are apart there, in u; below zero where they overlap.
    pub separation: i64,
    /// Along the normal, in mass·u/tick.
    pub normal_impulse: i64,
    /// Across it, of friction.
    pub tangent_impulse: i64,
}

/// A contact. The normal leads from the first shape to the second.
#[repr(C)]
#[derive(Clone, Copy)]
pub struct CContact {
    pub pair: CPair,
    /// How many points it has: 0 to 2.
    pub points: u32,
    pub unused: u32,
    pub normal: CVector,
    pub first: CContactPoint,
    pub second: CContactPoint,
}

/// What a step told. The kind is 0 for shapes that began to touch, 1 for shapes that ceased to, 2 for a body that fell
/// asleep, 3 for one that woke.
#[repr(C)]
#[derive(Clone, Copy)]
pub struct CEvent {
    pub step: u64,
    pub kind: u32,
    pub unused: u32,
    pub first: CHandle,
    /// It names nothing where the event is of one body.
    pub second: CHandle,
    pub first_tag: u64,
    pub second_tag: u64,
    /// The contact as the step left it; without points where the shapes ceased to touch, and all zeros where the event
    /// is of one body.
    pub contact: CContact,
}

/// One command of a batch.
#[repr(C)]
#[derive(Clone, Copy)]
pub struct CCommand {
    pub kind: u32,
    pub shapes_from: u32,
    pub shapes_count: u32,
    pub unused: u32,
    pub body: CBodyDef,
    pub joint: CJointDef,
    pub by: CVector,
    pub offset: CVector,
    pub ticks: i64,
}

/// The answer to a command.
#[repr(C)]
#[derive(Clone, Copy)]
pub struct CAnswer {
    pub status: u32,
    pub unused: u32,
    pub made: CHandle,
    pub step: u64,
}
