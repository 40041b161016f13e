//! A double-entry book of the world's momentum: which impulse was given to the moving bodies, and why.
//!
//! Whatever changes a mover's momentum p posts an [`Entry`] here with its [`Cause`], so that the sum of all entries
//! is the momentum that the movers have now. The [`Ledger`] keeps the entries in order, and their sums by cause, so
//! that totals cost nothing to ask for.
//!
//! Impulses are in mass·u/tick, as whole numbers; a sum is held in 128 bits. The book, and what each cause covers,
//! are this project's own rule.
#![tactic(auto)]

mod entry;
mod ledger;
mod limits;
mod totals;

pub use entry::{Cause, Entry};
pub use ledger::Ledger;
pub use limits::{MAX_ENTRY, MAX_TOTAL, MAX_TOTAL_OF_CAUSE, limits_in_digits};
pub use totals::{Total, Totals};
