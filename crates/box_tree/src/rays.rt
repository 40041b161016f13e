//! A ray among the boxes that the keys themselves have: in the tree each has a looser one.

ghost use Rattle.std.specs.Prelude.{◌≡◌};
ghost use Rattle.box_tree.specs.BoxLists.{asked_hit};

use crate::index;
use box_tree_base::Ray;
use fixed_geom::Box2;

/// A ray that is asked for its hit on a key only where it reaches the key's own box.
pub(crate) struct RayAmongBoxes<'a, R: Ray> {
    pub ray: &'a R,
    pub boxes: &'a [Option<Box2>],
}

impl<R: Ray> Drop for RayAmongBoxes<'_, R> {
    fn drop(self) {
        let Self { ray: _, boxes: _ } = self;
    }
}

impl<R: Ray> Ray for RayAmongBoxes<'_, R> {
    ghost reaches = { λ among bounds. R.reaches among.ray.now bounds };

    ghost hit = { λ among key. asked_hit (R.reaches among.ray.now) (R.hit among.ray.now) among.boxes.now key };

    fn reaches(&self, bounds: &Box2) -> bool {
        self.ray.reaches(bounds)
    }

    fn hit(&self, key: u32) -> Option<u32> {
        let bounds = index::box_in(self.boxes, key)?;
        if self.ray.reaches(&bounds) {
            self.ray.hit(key)
        } else {
            None
        }
    }

    ghost misses_within = { λ among outer inner h e. R.misses_within among.ray.now outer inner h e };
}
