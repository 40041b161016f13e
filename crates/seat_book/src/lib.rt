//! The history of what callers did to one value that they share, and what each of them has seen of it.
//!
//! The value lies under a lock, and each caller has a seat. With the value lies the [`Keeper`], who knows the history:
//! all calls that were accepted, in their order. With each seat lies its [`Pass`], which knows what the seat has seen.
//! Both are known to contracts alone, and take no memory. The [`Book`] ties them together, by one word that all seats
//! step on: what a seat has seen begins the history, and all that follows is of other seats. So whoever makes a call,
//! or looks at the value, learns under the lock that nothing it was shown before was taken back, and that no one made a
//! call in its name.
//!
//! Nothing here looks into a call: what is asked and answered are types of the caller's choice.
#![tactic(auto)]

mod book;
mod call;
mod named;
mod roster;
mod rule;

pub use book::{Book, Keeper, Pass};
pub use call::{Call, Entry};
pub use named::Named;
pub use roster::{MAX_SEATS, Roster, limits_in_digits, open};
pub use rule::{Desk, Known, View};
