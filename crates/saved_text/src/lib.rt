//! A world as the text of a saved one, with no tree of values between: what `world_file` writes as a value, and its
//! writer prints.
//!
//! Each function writes the tokens of one part. A part without lists of its own is an array of keys and leaves
//! (`Leaf`).
#![tactic(auto)]

mod bodies;
mod joints;
mod leaves;
mod ledger;
mod members;
mod numbers;
mod saved_contacts;
mod saved_shapes;
mod world;

pub use world::write_text;
