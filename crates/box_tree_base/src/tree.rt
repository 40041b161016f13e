//! A tree of at least one leaf.

ghost use Rattle.std.specs.Prelude.{◌≡◌, ◌<◌, ◌≤◌, ◌∷◌, [], length, IfOk};
ghost use Rattle.box_tree_base.specs.Lists.{Each};
ghost use Rattle.box_tree_base.specs.Joins.{IsBounded};
ghost use Rattle.box_tree_base.specs.Trees.{outline, IsTree};
ghost use Rattle.box_tree_base.specs.Depths.{least_leaves};

use crate::joins::joined;
use crate::leaves::{BLANK, Leaf};
use fixed_geom::Box2;
use std::alloc::{AllocError, Global};
use std::marker::Model;
use std::mem;

/// What a fork keeps of the leaves below it: those on its left have ranks below the split, those on its right from it
/// on. A box round each side stands here and not below, so that a walk that passes a side over reads nothing of it.
#[derive(Clone, Copy)]
pub(crate) struct Stem {
    pub split: u64,
    pub height: u64,
    pub left: Box2,
    pub right: Box2,
}

/// A balanced tree of leaves in the order of their ranks. Contracts see its outline: the leaves from left to right, the
/// height (0 for a leaf alone) and a box round all.
#[cycle(tree)]
#[derive(Drop)]
pub struct Tree {
    pub(crate) node: Node,
}

#[cycle(tree)]
#[derive(Drop)]
pub(crate) enum Node {
    Tip(Leaf),
    Fork(Box<Tree>, Stem, Box<Tree>),
}

impl Model for Tree {
    ghost use Rattle.box_tree_base.specs.Outline.{Outline};

    ghost Value = { Outline };

    ghost use Rattle.box_tree_base.specs.Trees.{outline, IsTree};

    ghost view = { λ a. outline a.node };

    ghost invariant = { λ a. IsTree a.node };

    ghost size = { λ d. d.height };

    ghost use Rattle.box_tree_base.specs.Measure.{height_falls};

    ghost size_decreases = { λ a h. height_falls a.node h };
}

impl Tree {
    /// A tree of one leaf.
    pub fn tip(leaf: Leaf) -> Tree
        ensures { result ≡ record { leaves = leaf ∷ []; height = 0; bounds = leaf.bounds } }
    {
        Tree {
            node: Node::Tip(leaf),
        }
    }

    /// A box on the heap, to be filled.
    pub fn spare(alloc: Global) -> Result<Box<Tree>, AllocError> {
        Ok(Box::new(alloc, Tree::tip(BLANK))?)
    }

    /// How many forks stand above the deepest leaf.
    pub fn height(&self) -> u64
        ensures value { result ≡ self.now.height }
        ensures below { self.now.height < length self.now.leaves }
        ensures leaves { least_leaves self.now.height ≤ length self.now.leaves }
        ensures tip { self.now.height ≡ 0 → length self.now.leaves ≡ 1 }
    {
        match &self.node {
            Node::Tip(_) => 0,
            Node::Fork(_, stem, _) => stem.height,
        }
    }

    /// A box round all leaves.
    pub fn bounds(&self) -> Box2
        ensures value { result ≡ self.now.bounds }
        ensures round { Each (IsBounded result) self.now.leaves }
    {
        match &self.node {
            Node::Tip(leaf) => leaf.bounds,
            Node::Fork(_, stem, _) => joined(&stem.left, &stem.right),
        }
    }

    /// A copy of the same leaves in the same places.
    pub fn try_copy(&self, alloc: Global) -> Result<Tree, AllocError>
        ensures { IfOk result (λ copy. copy ≡ self.now) }
    {
        match &self.node {
            Node::Tip(leaf) => Ok(Tree::tip(*leaf)),
            Node::Fork(left, stem, right) => {
                let left = Box::new(alloc, left.try_copy(alloc)?)?;
                let right = Box::new(alloc, right.try_copy(alloc)?)?;
                Ok(Tree::close(Node::Fork(left, *stem, right)))
            }
        }
    }

    pub(crate) fn open(self) -> Node
        ensures same { outline result ≡ self }
        ensures tree { IsTree result }
    {
        self.node
    }

    pub(crate) fn close(node: Node) -> Tree
        requires { IsTree node }
        ensures { result ≡ outline node }
    {
        Tree { node }
    }
}

/// Takes what stands in a tree, and leaves a blank leaf.
pub(crate) fn taken(tree: &mut Tree) -> Node
    ensures same { outline result ≡ tree.old }
    ensures tree { IsTree result }
{
    mem::replace(tree, Tree::tip(BLANK)).open()
}
