//! What the words of the program ask for.
#![tactic(auto)]

mod asked;
mod words;

pub use asked::{Instead, Options};
pub use words::options;
