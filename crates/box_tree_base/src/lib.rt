//! A balanced tree of boxes: the leaves, the turns that keep it balanced, and the walks through it.
//!
//! A [`Tree`] has at least one leaf, and a fork has two trees. Each node keeps a box round all of its leaves, by which
//! a walk leaves out what it can't meet. The leaves stand in the order of their ranks, so that a leaf is found by its
//! rank in one way down. The two sides of a fork differ in height by at most 1 (Adelson-Velsky and Landis, 'An
//! algorithm for the organization of information', 1962), which is a fact of the type.
//!
//! A [`roots`](crate::roots) function works on a tree that may be empty.
#![tactic(auto)]

mod changes;
mod forks;
mod joins;
mod leaves;
mod rays;
pub mod roots;
mod tree;
mod walks;

pub use leaves::Leaf;
pub use rays::{Hit, Ray};
pub use tree::Tree;
