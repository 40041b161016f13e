//! A body as it is written.

ghost use Rattle.std.specs.Prelude.{◌≡◌, IfOk, OnOk};
ghost use Rattle.std.specs.Result.{IsOkUnless};
ghost use Rattle.world_file_base.specs.Written.{list_data, written};
ghost use Rattle.world_file_base.specs.SavedBodies.{body_data, kind_name, put_course_data, put_label, put_numbers};
ghost use Rattle.world_file_base.specs.SavedShapes.{shapes_of};
ghost use Rattle.serde_json.specs.View.{view};

use crate::counts::lesser;
use crate::members::{Members, array_value, decimal_value};
use crate::saved_shapes::shape_value;
use fixed_geom::{Box2, Refusal, Vec2};
use islands::Label;
use plain_world::{Body, Kind};
use serde_json::Value;
use shapes::ShapeDef;
use std::alloc::Global;

/// The name of a kind, as texts have it.
pub fn kind_name(kind: Kind) -> &'static str
    ensures { result.now ≡ kind_name kind }
{
    match kind {
        Kind::Static => "static",
        Kind::Kinematic(_) => "kinematic",
        Kind::Dynamic => "dynamic",
    }
}

/// The course of a kinematic body.
fn put_course(members: &mut Members, kind: Kind) -> Result<(), Refusal>
    ensures put { OnOk result (written members.new ≡ put_course_data kind (written members.old)) }
    ensures memory_only { IsOkUnless result Refusal.NoMemory }
{
    match kind {
        Kind::Kinematic(course) => {
            members.put("spin", Value::from(course.spin))?;
            members.put_vector("velocity", course.velocity)
        }
        Kind::Static => Ok(()),
        Kind::Dynamic => Ok(()),
    }
}

/// What a mover says of its island.
fn put_label(members: &mut Members, label: Option<Label>) -> Result<(), Refusal>
    ensures put { OnOk result (written members.new ≡ put_label label (written members.old)) }
    ensures memory_only { IsOkUnless result Refusal.NoMemory }
{
    match label {
        Some(label) => {
            members.put("asleep", Value::from(label.state.is_asleep()))?;
            members.put("island", Value::from(label.name))?;
            members.put("loose", Value::from(label.state.is_loose()))
        }
        None => {
            members.put("asleep", Value::from(false))?;
            members.put("island", Value::from(()))?;
            members.put("loose", Value::from(false))
        }
    }
}

fn shapes_value(alloc: Global, defs: &[ShapeDef], fats: &[Box2]) -> Result<Value, Refusal>
    ensures value { IfOk result (λ value. view value ≡ list_data (shapes_of defs.now fats.now)) }
    ensures memory_only { IsOkUnless result Refusal.NoMemory }
{
    let mut items = Vec::new(alloc);
    for place in 0..lesser(defs.len(), fats.len()) {
        items.push(shape_value(alloc, &defs[place], fats[place])?)?;
    }
    Ok(array_value(items))
}

/// The numbers and the shapes of a body.
#[tactic(auto, unfolding(crate::specs::SavedBodies::put_numbers))]
fn put_numbers(members: &mut Members, alloc: Global, body: &Body) -> Result<(), Refusal>
    ensures put { OnOk result (written members.new ≡ put_numbers body.now (written members.old)) }
    ensures memory_only { IsOkUnless result Refusal.NoMemory }
{
    members.put_vector("at", body.motion.x)?;
    members.put("enabled", Value::from(body.enabled))?;
    let facing = Vec2 {
        x: body.motion.rot.c,
        y: body.motion.rot.s,
    };
    members.put_vector("facing", facing)?;
    members.put("inertia", Value::from(body.mass.inertia))?;
    members.put_text("kind", kind_name(body.kind))?;
    members.put("l", decimal_value(alloc, body.motion.l)?)?;
    members.put("mass", Value::from(body.mass.mass))?;
    members.put_vector("p", body.motion.p)?;
    let shapes = shapes_value(alloc, body.shapes.as_slice(), body.fats.as_slice())?;
    members.put("shapes", shapes)?;
    members.put("timer", Value::from(body.timer))
}

/// A body as it is written, with the label of its island if it is a mover.
#[tactic(auto, unfolding(crate::specs::SavedBodies::body_data))]
pub(crate) fn body_value(alloc: Global, body: &Body, label: Option<Label>) -> Result<Value, Refusal>
    ensures value { IfOk result (λ value. view value ≡ body_data body.now label) }
    ensures memory_only { IsOkUnless result Refusal.NoMemory }
{
    let mut members = Members::new(alloc);
    put_numbers(&mut members, alloc, body)?;
    put_course(&mut members, body.kind)?;
    put_label(&mut members, label)?;
    Ok(members.object())
}
