//! Walks through a tree, which leave out what lies in a box that they can't meet.

ghost use Rattle.std.specs.Prelude.{◌≡◌, ◌++◌, OnOk};
ghost use Rattle.box_tree_base.specs.Lists.{Each};
ghost use Rattle.box_tree_base.specs.Queries.{keys_over};
ghost use Rattle.box_tree_base.specs.Rays.{first_among, IsHitWithin};

use crate::rays::{Hit, Ray, nearer};
use crate::tree::{Node, Tree};
use fixed_geom::{Box2, overlaps};
use std::alloc::AllocError;

impl Tree {
    /// Adds the keys of the leaves whose boxes overlap the wanted one, from left to right.
    pub fn collect(&self, wanted: &Box2, found: &mut Vec<u32>) -> Result<(), AllocError>
        ensures { OnOk result (found.new.items ≡ found.old.items ++ keys_over wanted.now self.now.leaves) }
    {
        match &self.node {
            Node::Tip(leaf) => {
                if overlaps(leaf.bounds, *wanted) {
                    found.push(leaf.key)?;
                }
            }
            Node::Fork(left, stem, right) => {
                if overlaps(stem.left, *wanted) {
                    left.collect(wanted, found)?;
                }
                if overlaps(stem.right, *wanted) {
                    right.collect(wanted, found)?;
                }
            }
        }
        Ok(())
    }

    /// Puts the nearest of the best hit so far and the ray's hits on the keys of all leaves in the best one's place. A
    /// key is hit only where the ray reaches its box.
    pub fn first_hit<R: Ray>(&self, ray: &R, best: &mut Option<Hit>)
        requires { Each (IsHitWithin (R.reaches ray.now) (R.hit ray.now)) self.now.leaves }
        ensures { best.new ≡ first_among (R.hit ray.now) self.now.leaves best.old }
    {
        match &self.node {
            Node::Tip(leaf) => *best = nearer(*best, leaf.key, ray.hit(leaf.key)),
            Node::Fork(left, stem, right) => {
                if ray.reaches(&stem.left) {
                    left.first_hit(ray, best);
                }
                if ray.reaches(&stem.right) {
                    right.first_hit(ray, best);
                }
            }
        }
    }
}
