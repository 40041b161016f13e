//! A tree that may be empty: a list of at most one. A list is dropped by one call, where a tree that stands in a type
//! is dropped in place by whoever drops the type.

ghost use Rattle.std.specs.Prelude.{◌≡◌, ℕ, ◌+◌, ◌^◌, ◌<◌, ◌≤◌, length, List, OnOk, OnErr, IfOk, None};
ghost use Rattle.box_tree_base.specs.Lists.{Each, IsIn, IsAdded};
ghost use Rattle.box_tree_base.specs.Trees.{IsOther};
ghost use Rattle.box_tree_base.specs.Roots.{leaves_of, depth_of, IsMoved};
ghost use Rattle.box_tree_base.specs.Depths.{least_leaves};
ghost use Rattle.box_tree_base.specs.Queries.{keys_over};
ghost use Rattle.box_tree_base.specs.Rays.{first_among, IsHitWithin};
ghost use Rattle.box_tree_base.specs.declared.leaves.Leaf.{Leaf as AnyLeaf};

use crate::joins::joined;
use crate::leaves::Leaf;
use crate::rays::{Hit, Ray};
use crate::tree::Tree;
use fixed_geom::Box2;
use std::alloc::{AllocError, Global};

/// Puts a leaf in, whose rank no other has.
pub fn insert(root: &mut Vec<Tree>, leaf: &Leaf, alloc: Global) -> Result<(), AllocError>
    requires other { Each (IsOther leaf.now.rank) (leaves_of root.old.items) }
    requires few { length (leaves_of root.old.items) + 1 < 2 ^ 32 }
    ensures inserted { OnOk result (IsAdded leaf.now (leaves_of root.old.items) (leaves_of root.new.items)) }
    ensures refused { OnErr result (leaves_of root.new.items ≡ leaves_of root.old.items) }
{
    if root.is_empty() {
        root.push(Tree::tip(*leaf))?;
    } else {
        let first = Tree::spare(alloc)?;
        let second = Tree::spare(alloc)?;
        root[0].insert(leaf, first, second);
    }
    Ok(())
}

/// Takes out a leaf that is there.
pub fn remove(root: &mut Vec<Tree>, leaf: &Leaf)
    requires there { IsIn leaf.now (leaves_of root.old.items) }
    requires few { length (leaves_of root.old.items) < 2 ^ 32 }
    ensures { IsAdded leaf.now (leaves_of root.new.items) (leaves_of root.old.items) }
{
    if root[0].height() == 0 {
        root.clear();
    } else {
        let _ = root[0].remove(leaf);
    }
}

/// Takes out a leaf that is there, and puts another in. It takes no memory: the new leaf stands in the boxes of the
/// old. With the old one's rank it stands in its place, and the tree keeps its form.
pub fn replace(root: &mut Vec<Tree>, old: &Leaf, new: &Leaf)
    requires there { IsIn old.now (leaves_of root.old.items) }
    requires few { length (leaves_of root.old.items) < 2 ^ 32 }
    requires other { (rest : List AnyLeaf) → IsAdded old.now rest (leaves_of root.old.items) → Each (IsOther new.now.rank) rest }
    ensures { IsMoved old.now new.now (leaves_of root.old.items) (leaves_of root.new.items) }
{
    if old.rank == new.rank {
        let span = joined(&old.bounds, &new.bounds);
        root[0].refit(old, new, &span);
    } else if root[0].height() == 0 {
        root[0] = Tree::tip(*new);
    } else {
        let (first, second) = root[0].remove(old);
        root[0].insert(new, first, second);
    }
}

// An answer has room for so many keys from the first on.
const FIRST_ROOM: usize = 16;

/// The keys of the leaves whose boxes overlap the wanted one, in the order of the leaves.
pub fn overlapping(root: &[Tree], wanted: &Box2, alloc: Global) -> Result<Vec<u32>, AllocError>
    ensures { IfOk result (λ keys. keys.items ≡ keys_over wanted.now (leaves_of root.now)) }
{
    let mut found = Vec::with_capacity(alloc, FIRST_ROOM)?;
    if let Some(tree) = root.first() {
        tree.collect(wanted, &mut found)?;
    }
    Ok(found)
}

/// The nearest of the ray's hits on the keys of all leaves. A key is hit only where the ray reaches its box.
pub fn first_hit<R: Ray>(root: &[Tree], ray: &R) -> Option<Hit>
    requires { Each (IsHitWithin (R.reaches ray.now) (R.hit ray.now)) (leaves_of root.now) }
    ensures { result ≡ first_among (R.hit ray.now) (leaves_of root.now) None }
{
    let mut best: Option<Hit> = None;
    if let Some(tree) = root.first() {
        tree.first_hit(ray, &mut best);
    }
    best
}

/// How many nodes stand on the longest way from the root to a leaf.
pub fn depth(root: &[Tree]) -> u64
    requires { length (leaves_of root.now) < 2 ^ 32 }
    ensures value { result ≡ depth_of root.now }
    ensures leaves { (forks : ℕ) → result ≡ forks + 1 → least_leaves forks ≤ length (leaves_of root.now) }
{
    match root.first() {
        None => 0,
        Some(tree) => tree.height() + 1,
    }
}

/// A copy of the same leaves in the same places.
pub fn try_copy(root: &[Tree], alloc: Global) -> Result<Vec<Tree>, AllocError>
    ensures { IfOk result (λ copy. leaves_of copy.items ≡ leaves_of root.now) }
{
    let mut copy = Vec::new(alloc);
    if let Some(tree) = root.first() {
        copy.push(tree.try_copy(alloc)?)?;
    }
    Ok(copy)
}
