//! The shapes of a body, each with its fat box, read.

ghost use Rattle.std.specs.Prelude.{◌≡◌, ◌∷◌, ◌++◌, [], IfSome};
ghost use Rattle.loaded_text.specs.Shapes.{ShapesHold, no_shapes};

use crate::forms::read_shape;
use crate::text::Text;
use plain_world::FatBoxes;
use shapes::{MAX_SHAPES, Shapes};
use std::alloc::Global;
use world_file_base::SavedShape;

/// The shapes of a body and their fat boxes.
#[derive(Drop)]
pub(crate) struct LoadedShapes {
    pub(crate) shapes: Shapes,
    pub(crate) fats: FatBoxes,
}

fn keep_shape(loaded: &mut LoadedShapes, shape: SavedShape) -> Option<()>
    ensures shapes { IfSome result (λ _. loaded.new.shapes ≡ loaded.old.shapes ++ shape.def ∷ []) }
    ensures fats { IfSome result (λ _. loaded.new.fats ≡ loaded.old.fats ++ shape.fat ∷ []) }
{
    loaded.shapes.push(shape.def).ok()?;
    loaded.fats.push(shape.fat).ok()
}

/// Reads a list of shapes, and adds them to those that there are.
fn add_shapes(text: &mut Text, lead: &[u8], loaded: &mut LoadedShapes) -> Option<()>
    ensures { IfSome result (λ _. ShapesHold lead.now loaded.old loaded.new text.old.rest.now text.new.rest.now) }
{
    text.expect(lead)?;
    text.expect(b"[")?;
    for place in 0..MAX_SHAPES + 1 {
        let more = text.has_item(place == 0)?;
        if !more {
            return Some(());
        }
        let shape = read_shape(text)?;
        keep_shape(loaded, shape)?;
    }
    None
}

fn no_shapes(alloc: Global) -> LoadedShapes
    ensures { result ≡ no_shapes }
{
    LoadedShapes {
        shapes: Shapes::new(alloc),
        fats: FatBoxes::new(alloc),
    }
}

/// The shapes of a body.
pub(crate) fn read_shapes(text: &mut Text, lead: &[u8], alloc: Global) -> Option<LoadedShapes>
    ensures { IfSome result (λ loaded. ShapesHold lead.now no_shapes loaded text.old.rest.now text.new.rest.now) }
{
    let mut loaded = no_shapes(alloc);
    add_shapes(text, lead, &mut loaded)?;
    Some(loaded)
}
