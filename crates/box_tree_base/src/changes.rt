//! A leaf put into a tree, one taken out, and one that gets another box where it stands.

ghost use Rattle.std.specs.Prelude.{◌≡◌, ◌+◌, ◌^◌, ◌<◌, ◌≤◌, length};
ghost use Rattle.fixed_geom.specs.Boxes.{Contains};
ghost use Rattle.box_tree_base.specs.Lists.{Each, IsIn, IsAdded, IsRefitted};
ghost use Rattle.box_tree_base.specs.Joins.{IsBounded};
ghost use Rattle.box_tree_base.specs.Trees.{IsOther};

use crate::forks::{balanced, pair};
use crate::joins::is_inside;
use crate::leaves::{BLANK, Leaf};
use crate::tree::{Node, Tree, taken};
use fixed_geom::Box2;
use std::mem;

impl Tree {
    /// Puts a leaf into its place by rank, with two boxes for the fork that it makes.
    pub fn insert(&mut self, leaf: &Leaf, first: Box<Tree>, second: Box<Tree>)
        requires other { Each (IsOther leaf.now.rank) self.old.leaves }
        requires few { length self.old.leaves + 1 < 2 ^ 32 }
        ensures added { IsAdded leaf.now self.old.leaves self.new.leaves }
        ensures not_lower { self.old.height ≤ self.new.height }
        ensures at_most_one_higher { self.new.height ≤ self.old.height + 1 }
    {
        match mem::replace(&mut self.node, Node::Tip(BLANK)) {
            Node::Tip(other) => {
                self.node = pair(leaf, &other, first, second);
            }
            Node::Fork(mut left, stem, mut right) => {
                if leaf.rank < stem.split {
                    left.insert(leaf, first, second);
                    self.node = balanced(left, stem.split, right);
                } else {
                    right.insert(leaf, first, second);
                    self.node = balanced(left, stem.split, right);
                }
            }
        }
    }

    // The box round the tree, which had the kept one, and of which one leaf has moved within the span. Where the span
    // comes to no side of the kept one, that is still right.
    fn bounds_after(&self, kept: &Box2, span: &Box2) -> Box2
        requires { Contains kept.now span.now → Each (IsBounded kept.now) self.now.leaves }
        ensures { Each (IsBounded result) self.now.leaves }
    {
        if is_inside(kept, span) {
            *kept
        } else {
            self.bounds()
        }
    }

    /// Puts a leaf in the stead of one that is there and has its rank. The boxes of the forks above it are made anew,
    /// as far up as the box round both leaves, the span, comes to a side of them.
    pub fn refit(&mut self, old: &Leaf, new: &Leaf, span: &Box2)
        requires there { IsIn old.now self.old.leaves }
        requires rank { new.now.rank ≡ old.now.rank }
        requires span { Contains span.now new.now.bounds }
        ensures refitted { IsRefitted old.now new.now self.old.leaves self.new.leaves }
        ensures height { self.new.height ≡ self.old.height }
    {
        match &mut self.node {
            Node::Tip(leaf) => *leaf = *new,
            Node::Fork(left, stem, right) => {
                if old.rank < stem.split {
                    left.refit(old, new, span);
                    stem.left = left.bounds_after(&stem.left, span);
                } else {
                    right.refit(old, new, span);
                    stem.right = right.bounds_after(&stem.right, span);
                }
            }
        }
    }

    /// Takes a leaf out of a tree that has others, and gives back the two boxes of the fork that goes with it.
    pub fn remove(&mut self, leaf: &Leaf) -> (Box<Tree>, Box<Tree>)
        requires there { IsIn leaf.now self.old.leaves }
        requires more { 0 < self.old.height }
        requires few { length self.old.leaves < 2 ^ 32 }
        ensures removed { IsAdded leaf.now self.new.leaves self.old.leaves }
        ensures not_higher { self.new.height ≤ self.old.height }
        ensures at_most_one_lower { self.old.height ≤ self.new.height + 1 }
    {
        match mem::replace(&mut self.node, Node::Tip(BLANK)) {
            Node::Tip(_) => unreachable!(),
            Node::Fork(mut left, stem, mut right) => {
                if leaf.rank < stem.split {
                    if left.height() == 0 {
                        self.node = taken(&mut right);
                        (left, right)
                    } else {
                        let boxes = left.remove(leaf);
                        self.node = balanced(left, stem.split, right);
                        boxes
                    }
                } else if right.height() == 0 {
                    self.node = taken(&mut left);
                    (left, right)
                } else {
                    let boxes = right.remove(leaf);
                    self.node = balanced(left, stem.split, right);
                    boxes
                }
            }
        }
    }
}
