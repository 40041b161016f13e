//! The digest of a world: 32 bytes that tell two worlds apart.
//!
//! A world is told as words of 64 bits, in one order (`Words`), from its own lists. Four sums take the words in turn
//! (`Sums`), and the digest is the SHA-256 of the sums. Worlds with the same plain lists, counts and totals have the
//! same digest.
#![tactic(auto)]

mod bodies;
mod constraints;
mod contact_lists;
mod digests;
mod labels;
mod sums;
mod words;

pub use digests::digest;
pub use sums::factor_in_digits;
