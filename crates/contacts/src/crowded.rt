//! Whether the marked bodies that aren't dynamic overlap so many others that a sweep of all shapes costs less than
//! asking what is near each: two bodies that aren't dynamic never collide, which a sweep knows beforehand.

ghost use Rattle.std.specs.Result.{IsOkUnless};

use crate::fates::ShapesById;
use contacts_base::ShapeId;
use fixed_geom::Refusal;
use shapes::MAX_SHAPES;

/// How many slots overlap the shape with this name, if it is there.
fn count_of_shape<S: ShapesById>(shapes: &S, id: ShapeId) -> Result<usize, Refusal>
    ensures memory_only { IsOkUnless result Refusal.NoMemory }
{
    match shapes.shape(id) {
        None => Ok(0),
        Some(p) => Ok(shapes.overlapping(&p.fat)?.len()),
    }
}

/// How many slots overlap the shapes of a slot, with those of each counted.
fn count_of_slot<S: ShapesById>(shapes: &S, slot: u32) -> Result<usize, Refusal>
    ensures memory_only { IsOkUnless result Refusal.NoMemory }
{
    let mut count: usize = 0;
    for index in 0..MAX_SHAPES {
        let id = ShapeId {
            slot,
            index: index as u8,
        };
        count = count.saturating_add(count_of_shape(shapes, id)?);
    }
    Ok(count)
}

/// Whether the body in a slot is enabled and isn't dynamic.
fn is_immovable<S: ShapesById>(shapes: &S, slot: u32) -> bool {
    match shapes.shape(ShapeId { slot, index: 0 }) {
        None => false,
        Some(p) => !p.dynamic,
    }
}

/// Whether the shapes of those of these slots whose bodies aren't dynamic overlap more than `most` slots, with those of
/// each shape counted. It decides the time alone.
pub(crate) fn are_crowded<S: ShapesById>(
    shapes: &S,
    marked: &[u32],
    most: usize,
) -> Result<bool, Refusal>
    ensures memory_only { IsOkUnless result Refusal.NoMemory }
{
    let mut count: usize = 0;
    for &slot in marked {
        if is_immovable(shapes, slot) {
            count = count.saturating_add(count_of_slot(shapes, slot)?);
        }
        if count > most {
            return Ok(true);
        }
    }
    Ok(false)
}
