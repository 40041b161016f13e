//! A saved body as it is read.

ghost use Rattle.std.specs.Prelude.{◌≡◌, ◌∷◌, ◌++◌, [], IfErr, IfOk, OnOk};
ghost use Rattle.world_file_base.specs.declared.clause.Broken.TheVariants.{NoMemory};
ghost use Rattle.world_file_base.specs.SavedBodies.{body_in, membership_in, sleeping_under};
ghost use Rattle.world_file_base.specs.AskedBodies.{body_asks, keys_asks};
ghost use Rattle.world_file_base.specs.SavedShapes.{defs_in, fats_in};
ghost use Rattle.world_file_base.specs.AskedShapes.{shapes_asks};
ghost use Rattle.serde_json.specs.View.{items_view, view};

use crate::body_asks::ask_body;
use crate::body_numbers::read_numbers;
use crate::clause::Broken;
use crate::reader::Reader;
use crate::saved::Membership;
use crate::saved_shapes::{SavedShape, read_shape};
use crate::values::field;
use plain_world::{Body, FatBoxes};
use serde_json::Value;
use shapes::Shapes;
use std::alloc::Global;

/// A body and what it says of its island.
#[derive(Drop)]
pub(crate) struct SavedBody {
    pub body: Body,
    pub membership: Membership,
}

/// The name under which a body sleeps, if it does.
pub fn sleeping_under(membership: Membership) -> Option<u32>
    ensures { result ≡ sleeping_under membership }
{
    if membership.asleep {
        membership.island
    } else {
        None
    }
}

/// The shapes of a body and their fat boxes.
#[derive(Drop)]
struct SavedShapes {
    shapes: Shapes,
    fats: FatBoxes,
}

fn keep_shape(saved: &mut SavedShapes, shape: SavedShape) -> Result<(), Broken>
    ensures shapes { OnOk result (saved.new.shapes ≡ saved.old.shapes ++ shape.def ∷ []) }
    ensures fats { OnOk result (saved.new.fats ≡ saved.old.fats ++ shape.fat ∷ []) }
    ensures memory { IfErr result (λ e. e ≡ NoMemory) }
{
    if saved.shapes.push(shape.def).is_err() {
        return Err(Broken::NoMemory);
    }
    if saved.fats.push(shape.fat).is_err() {
        return Err(Broken::NoMemory);
    }
    Ok(())
}

/// Reads the shapes of a body.
fn read_shapes(alloc: Global, reader: &mut Reader, items: &[Value]) -> Result<SavedShapes, Broken>
    ensures shapes { IfOk result (λ saved. saved.shapes ≡ defs_in (items_view items.now)) }
    ensures fats { IfOk result (λ saved. saved.fats ≡ fats_in (items_view items.now)) }
    ensures asked { OnOk result (reader.new ≡ shapes_asks (items_view items.now) reader.old) }
    ensures memory { IfErr result (λ e. e ≡ NoMemory) }
{
    let mut saved = SavedShapes {
        shapes: Shapes::new(alloc),
        fats: FatBoxes::new(alloc),
    };
    for item in items {
        keep_shape(&mut saved, read_shape(reader, item))?;
    }
    Ok(saved)
}

/// Reads the keys of a body of a world in which none was slow for longer than `most_ticks`.
#[tactic(auto, unfolding(crate::specs::SavedBodies::body_in, crate::specs::AskedBodies::keys_asks))]
fn read_keys(
    alloc: Global,
    reader: &mut Reader,
    value: &Value,
    most_ticks: u64,
) -> Result<SavedBody, Broken>
    ensures body { IfOk result (λ saved. saved.body ≡ body_in most_ticks (view value.now)) }
    ensures membership { IfOk result (λ saved. saved.membership ≡ membership_in (view value.now)) }
    ensures asked { OnOk result (reader.new ≡ keys_asks most_ticks (view value.now) reader.old) }
    ensures memory { IfErr result (λ e. e ≡ NoMemory) }
{
    let numbers = read_numbers(reader, value, most_ticks);
    let items = reader.list(field(value, "shapes"));
    let saved = read_shapes(alloc, reader, items)?;
    Ok(SavedBody {
        body: Body {
            motion: numbers.motion,
            mass: numbers.mass,
            kind: numbers.kind,
            enabled: numbers.enabled,
            asleep: sleeping_under(numbers.membership),
            timer: numbers.timer,
            fats: saved.fats,
            shapes: saved.shapes,
        },
        membership: numbers.membership,
    })
}

/// Reads a body of a world in which none was slow for longer than `most_ticks`.
#[tactic(auto, unfolding(crate::specs::AskedBodies::body_asks))]
pub(crate) fn read_body(
    alloc: Global,
    reader: &mut Reader,
    value: &Value,
    most_ticks: u64,
) -> Result<SavedBody, Broken>
    ensures body { IfOk result (λ saved. saved.body ≡ body_in most_ticks (view value.now)) }
    ensures membership { IfOk result (λ saved. saved.membership ≡ membership_in (view value.now)) }
    ensures asked { OnOk result (reader.new ≡ body_asks most_ticks (view value.now) reader.old) }
    ensures memory { IfErr result (λ e. e ≡ NoMemory) }
{
    let saved = read_keys(alloc, reader, value, most_ticks)?;
    ask_body(reader, &saved.body, saved.membership);
    Ok(saved)
}
