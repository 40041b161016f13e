//! Two trees under one fork, and the turns that keep a fork balanced.

ghost use Rattle.std.specs.Prelude.{◌≡◌, ◌≢◌, ◌+◌, ◌^◌, ◌<◌, ◌≤◌, max, ◌++◌, ◌∷◌, [], length};
ghost use Rattle.box_tree_base.specs.Lists.{Each, IsAdded};
ghost use Rattle.box_tree_base.specs.Trees.{outline, IsTree, IsBelow, IsFrom, DifferByAtMost, IsForkHeight};

use crate::leaves::Leaf;
use crate::tree::{Node, Stem, Tree, taken};

/// A fork of two trees whose heights differ by at most 1.
pub(crate) fn fork(left: Box<Tree>, split: u64, right: Box<Tree>) -> Node
    requires below { Each (IsBelow split) left.value.leaves }
    requires from { Each (IsFrom split) right.value.leaves }
    requires balanced { DifferByAtMost 1 left.value.height right.value.height }
    requires few { length (left.value.leaves ++ right.value.leaves) < 2 ^ 32 }
    ensures tree { IsTree result }
    ensures leaves { (outline result).leaves ≡ left.value.leaves ++ right.value.leaves }
    ensures height { (outline result).height ≡ max left.value.height right.value.height + 1 }
{
    let height = left.height().max(right.height()) + 1;
    let stem = Stem {
        split,
        height,
        left: left.bounds(),
        right: right.bounds(),
    };
    Node::Fork(left, stem, right)
}

/// A fork of two leaves, in two boxes for them.
pub(crate) fn pair(leaf: &Leaf, other: &Leaf, mut first: Box<Tree>, mut second: Box<Tree>) -> Node
    requires { other.now.rank ≢ leaf.now.rank }
    ensures tree { IsTree result }
    ensures added { IsAdded leaf.now (other.now ∷ []) (outline result).leaves }
    ensures height { (outline result).height ≡ 1 }
{
    if leaf.rank < other.rank {
        *first = Tree::tip(*leaf);
        *second = Tree::tip(*other);
        fork(first, other.rank, second)
    } else {
        *first = Tree::tip(*other);
        *second = Tree::tip(*leaf);
        fork(first, leaf.rank, second)
    }
}

/// The leaves of two trees, whose heights differ by at most 2, as a balanced tree.
pub(crate) fn balanced(left: Box<Tree>, split: u64, right: Box<Tree>) -> Node
    requires below { Each (IsBelow split) left.value.leaves }
    requires from { Each (IsFrom split) right.value.leaves }
    requires balanced { DifferByAtMost 2 left.value.height right.value.height }
    requires few { length (left.value.leaves ++ right.value.leaves) < 2 ^ 32 }
    ensures tree { IsTree result }
    ensures leaves { (outline result).leaves ≡ left.value.leaves ++ right.value.leaves }
    ensures height { IsForkHeight left.value.height right.value.height (outline result).height }
{
    let (high, low) = (left.height(), right.height());
    if high > low + 1 {
        rotated_right(left, split, right)
    } else if low > high + 1 {
        rotated_left(left, split, right)
    } else {
        fork(left, split, right)
    }
}

// The left tree is two higher: its inner side goes over to the right, or is parted between both.
fn rotated_right(mut left: Box<Tree>, split: u64, right: Box<Tree>) -> Node
    requires below { Each (IsBelow split) left.value.leaves }
    requires from { Each (IsFrom split) right.value.leaves }
    requires two_higher { left.value.height ≡ right.value.height + 2 }
    requires few { length (left.value.leaves ++ right.value.leaves) < 2 ^ 32 }
    ensures tree { IsTree result }
    ensures leaves { (outline result).leaves ≡ left.value.leaves ++ right.value.leaves }
    ensures not_lower { left.value.height ≤ (outline result).height }
    ensures at_most_one_higher { (outline result).height ≤ left.value.height + 1 }
{
    let Node::Fork(outer, stem, mut inner) = taken(&mut left) else {
        unreachable!()
    };
    if outer.height() >= inner.height() {
        *left = Tree::close(fork(inner, split, right));
        return fork(outer, stem.split, left);
    }
    let Node::Fork(low, middle, high) = taken(&mut inner) else {
        unreachable!()
    };
    *inner = Tree::close(fork(outer, stem.split, low));
    *left = Tree::close(fork(high, split, right));
    fork(inner, middle.split, left)
}

// The right tree is two higher: its inner side goes over to the left, or is parted between both.
fn rotated_left(left: Box<Tree>, split: u64, mut right: Box<Tree>) -> Node
    requires below { Each (IsBelow split) left.value.leaves }
    requires from { Each (IsFrom split) right.value.leaves }
    requires two_higher { right.value.height ≡ left.value.height + 2 }
    requires few { length (left.value.leaves ++ right.value.leaves) < 2 ^ 32 }
    ensures tree { IsTree result }
    ensures leaves { (outline result).leaves ≡ left.value.leaves ++ right.value.leaves }
    ensures not_lower { right.value.height ≤ (outline result).height }
    ensures at_most_one_higher { (outline result).height ≤ right.value.height + 1 }
{
    let Node::Fork(mut inner, stem, outer) = taken(&mut right) else {
        unreachable!()
    };
    if outer.height() >= inner.height() {
        *right = Tree::close(fork(left, split, inner));
        return fork(right, stem.split, outer);
    }
    let Node::Fork(low, middle, high) = taken(&mut inner) else {
        unreachable!()
    };
    *right = Tree::close(fork(left, split, low));
    *inner = Tree::close(fork(high, stem.split, outer));
    fork(right, middle.split, inner)
}
