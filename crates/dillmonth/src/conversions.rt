//! What values of C are for a world, and what those of a world are for C.

ghost use Rattle.std.specs.Prelude.{◌≡◌, IfErr, IfOk, Ok, Some};
ghost use Rattle.dillmonth.specs.Forms.{IsUnmade, body_said, box_said, course_said, def_said, facing_said, form_said, handle_said, handle_shown, id_shown, joint_said, kind_said, known, mass_said, pair_shown, pose_said, shape_said, shapes_said, vector_said, vector_shown};

use crate::forms::{CBodyDef, CBox, CFacing, CHandle, CJointDef, CPair, CShape, CShapeId, CVector};
use crate::statuses::{BAD_KIND, OUT_OF_RANGE};
use contacts_base::{ContactKey, ShapeId};
use fixed_geom::{Box2, Rot, Vec2};
use momenta::MassData;
use plain_world::{BodyDef, Course, JointDef, Kind};
use shapes::{Filter, Pose, Shape, ShapeDef, Shapes};
use std::alloc::Global;
use world_core::Handle;

pub(crate) fn vector_of(v: CVector) -> Vec2
    ensures { result ≡ vector_said v }
{
    Vec2 { x: v.x, y: v.y }
}

pub(crate) fn show_vector(v: Vec2) -> CVector
    ensures { result ≡ vector_shown v }
{
    CVector { x: v.x, y: v.y }
}

fn facing_of(facing: CFacing) -> Rot
    ensures { result ≡ facing_said facing }
{
    Rot {
        c: facing.c,
        s: facing.s,
    }
}

pub(crate) fn handle_of(handle: CHandle) -> Handle
    ensures { result ≡ handle_said handle }
{
    Handle {
        slot: handle.slot,
        generation: handle.generation,
    }
}

pub(crate) fn show_handle(handle: Handle) -> CHandle
    ensures { result ≡ handle_shown handle }
{
    CHandle {
        slot: handle.slot,
        generation: handle.generation,
    }
}

pub(crate) fn show_id(id: ShapeId) -> CShapeId
    ensures { result ≡ id_shown id }
{
    CShapeId {
        slot: id.slot,
        index: u32::from(id.index),
    }
}

pub(crate) fn show_pair(key: ContactKey) -> CPair
    ensures { result ≡ pair_shown key }
{
    CPair {
        first: show_id(key.first),
        second: show_id(key.second),
    }
}

pub(crate) fn pose_of(at: CVector, facing: CFacing) -> Pose
    ensures { result ≡ pose_said at facing }
{
    Pose {
        x: vector_of(at),
        rot: facing_of(facing),
    }
}

pub(crate) fn course_of(velocity: CVector, spin: i64) -> Course
    ensures { result ≡ course_said velocity spin }
{
    Course {
        velocity: vector_of(velocity),
        spin,
    }
}

pub(crate) fn box_of(bounds: &CBox) -> Box2
    ensures { result ≡ box_said bounds.now }
{
    Box2 {
        lo: vector_of(bounds.lo),
        hi: vector_of(bounds.hi),
    }
}

/// The joint to be made; a status where the field without a meaning isn't 0.
pub(crate) fn joint_of(def: &CJointDef) -> Result<JointDef, u32>
    ensures { result ≡ joint_said def.now }
{
    if def.unused == 0 {
        Ok(JointDef {
            a: handle_of(def.a),
            b: handle_of(def.b),
            from: vector_of(def.from),
            to: vector_of(def.to),
            length: def.length,
            collide: def.collide != 0,
        })
    } else {
        Err(OUT_OF_RANGE)
    }
}

/// The form, if there is one of this number.
fn form_of(shape: &CShape) -> Option<Shape>
    ensures { result ≡ form_said shape.now }
{
    match shape.form {
        0 => Some(Shape::Circle {
            center: vector_of(shape.first),
            radius: shape.radius,
        }),
        1 => Some(Shape::Capsule {
            first: vector_of(shape.first),
            second: vector_of(shape.second),
            radius: shape.radius,
        }),
        2 => Some(Shape::Segment {
            first: vector_of(shape.first),
            second: vector_of(shape.second),
        }),
        _ => None,
    }
}

fn shape_of(shape: &CShape) -> Option<ShapeDef>
    ensures { result ≡ shape_said shape.now }
{
    match form_of(shape) {
        None => None,
        Some(form) => Some(ShapeDef {
            shape: form,
            friction: shape.friction,
            restitution: shape.restitution,
            filter: Filter {
                category: shape.category,
                mask: shape.mask,
                group: shape.group,
            },
        }),
    }
}

/// The shapes; a status where a form is none, or where memory is wanting.
fn shapes_of(alloc: Global, shapes: &[CShape]) -> Result<Shapes, u32>
    ensures made { IfOk result (λ made. shapes_said shapes.now ≡ Some made) }
    ensures refused { IfErr result (λ status. IsUnmade (known (shapes_said shapes.now)) status) }
{
    let mut made = Shapes::new(alloc);
    for shape in shapes {
        match shape_of(shape) {
            None => return Err(BAD_KIND),
            Some(def) => {
                if made.push(def).is_err() {
                    return Err(1);
                }
            }
        }
    }
    Ok(made)
}

/// The kind, if there is one of this number.
fn kind_of(def: &CBodyDef) -> Option<Kind>
    ensures { result ≡ kind_said def.now }
{
    match def.kind {
        0 => Some(Kind::Static),
        1 => Some(Kind::Kinematic(course_of(def.velocity, def.spin))),
        2 => Some(Kind::Dynamic),
        _ => None,
    }
}

/// The mass that counts: of a dynamic body.
fn mass_of(def: &CBodyDef) -> MassData
    ensures { result ≡ mass_said def.now }
{
    if def.kind == 2 {
        MassData {
            mass: def.mass,
            inertia: def.inertia,
        }
    } else {
        MassData {
            mass: 0,
            inertia: 0,
        }
    }
}

/// The body to be made, whatever its field without a meaning has; a status where a kind or a form is none, or where
/// memory is wanting.
fn body_of(alloc: Global, def: &CBodyDef, shapes: &[CShape]) -> Result<BodyDef, u32>
    ensures made { IfOk result (λ made. body_said def.now (kind_said def.now) (shapes_said shapes.now) ≡ Some made) }
    ensures refused { IfErr result (λ status. IsUnmade (known (body_said def.now (kind_said def.now) (shapes_said shapes.now))) status) }
{
    let Some(kind) = kind_of(def) else {
        return Err(BAD_KIND);
    };
    let shapes = shapes_of(alloc, shapes)?;
    Ok(BodyDef {
        kind,
        mass: mass_of(def),
        x: vector_of(def.at),
        rot: facing_of(def.facing),
        shapes,
    })
}

/// The body to be made; a status where the field without a meaning isn't 0, where a kind or a form is none, or where
/// memory is wanting.
pub(crate) fn def_of(alloc: Global, def: &CBodyDef, shapes: &[CShape]) -> Result<BodyDef, u32>
    ensures made { IfOk result (λ made. def_said def.now shapes.now ≡ Ok made) }
    ensures refused { IfErr result (λ status. IsUnmade (def_said def.now shapes.now) status) }
{
    if def.unused != 0 {
        return Err(OUT_OF_RANGE);
    }
    body_of(alloc, def, shapes)
}
