//! A saved world that is read of its text, with no tree of values between.
//!
//! What saves write is read so: compact JSON of version 2, the keys of each object ascending, each number within its
//! limits. A text that says the same with spaces, or with keys in another order, is first written as saves write it
//! (`canonical`). Of any other text nothing is answered, and it is read as a value instead, by `world_file`. What is
//! answered is what `world_file` reads of the value that the text denotes.
//!
//! Each function takes one part from the front of the text. Its contract says that a value stands there, printed, of
//! which the part is read, and that no clause is broken by it.
//!
//! Below them is JSON as `serde_json` prints it with no space (`text`, `numbers`, `wide`, `truths`, `items`): what is
//! asked for is taken if it stands first. A call that answers nothing promises nothing, and costs no more than a look.
#![tactic(auto)]

mod bodies;
mod body_members;
mod body_slots;
mod canonical;
mod forms;
mod heads;
mod items;
mod joint_slots;
mod joints;
mod leaves;
mod names;
mod numbers;
mod pieces;
mod points;
mod saved_contacts;
mod saved_shapes;
mod spaced;
mod text;
mod totals;
mod truths;
mod vectors;
mod wide;
mod world;

pub use world::read_text;
