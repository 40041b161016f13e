//! What a collide reads.

ghost use Rattle.std.specs.Prelude.{◌≡◌};
ghost use Rattle.packed_sets.specs.Marks.{AreListed};

use crate::fates::ShapesById;
use crate::forbidden::ForbiddenPairs;

/// What a collide reads: the shapes as they are now, which bodies' shapes have moved, and which bodies pass through one
/// another.
#[derive_where(Clone, Copy)]
pub(crate) struct Collide<'a, S: ShapesById, F: ForbiddenPairs> {
    pub shapes: &'a S,
    // By slot, whether the body's shapes have moved; a slot beyond the marks counts as marked.
    pub marks: &'a [bool],
    // The slots that are marked.
    pub marked: &'a [u32],
    // The pairs of bodies that may not collide.
    pub forbidden: &'a F,
}

impl<'a, S: ShapesById, F: ForbiddenPairs> Collide<'a, S, F> {
    /// What it reads of shapes and forbidden pairs.
    #[inline(always)]
    pub(crate) fn of(shapes: &'a S, forbidden: &'a F) -> Collide<'a, S, F>
        ensures shapes { result.shapes.now ≡ shapes.now }
        ensures forbidden { result.forbidden.now ≡ forbidden.now }
        ensures marks { result.marks.now ≡ S.marks shapes.now }
        ensures listed { AreListed (S.marks shapes.now) result.marked.now }
    {
        Collide {
            shapes,
            marks: shapes.marks(),
            marked: shapes.marked(),
            forbidden,
        }
    }
}
