//! Boxes by key, in a balanced tree: which boxes overlap one, and what a ray hits first.
//!
//! A [`BoxTree`] answers as a scan of all boxes does. Contracts see the list of boxes by key, and nothing of the tree.
//! The keys whose boxes overlap a given one come ascending; a ray's first hit is the least by fraction, then by key.
//!
//! # How it is kept
//!
//! Box2D's dynamic tree ('b2DynamicTree') gave the idea: a binary tree of boxes, with a leaf for each box, where the
//! leaf has a loose box so that small moves leave the tree as it is. Its leaves stand in no order; here they stand in
//! the order of a Morton code of the box's corner, so that one way down finds the leaf of a known rank. The tree is
//! balanced as Adelson-Velsky and Landis do it. A table gives the rank by key, with which `remove` and `replace` cost
//! by the logarithm. A box that moves a short way keeps its rank: its leaf stays where it is, and the boxes above it
//! follow. Its loose box then reaches further on the side towards which it moves than on the others, so that a walk
//! meets few boxes that it needn't. A ray that meets a leaf's loose box asks the key's own box before it looks for its
//! hit.
#![tactic(auto)]

mod boxes;
mod index;
mod key_entries;
mod rays;
mod table;

pub use box_tree_base::{Hit, Ray};
pub use boxes::BoxTree;
pub use key_entries::{MAX_KEYS, limits_in_digits};
