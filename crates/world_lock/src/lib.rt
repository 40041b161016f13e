//! One world of bodies that many callers share.
//!
//! Whenever the world's lock is free, each body, joint and contact stands in exactly one solver set; no two constraints
//! of a colour share a mover; touching or jointed movers share an island, awake or asleep together; each sleeping set
//! is one connected component; the movers' momentum is the ledger's total; and the state is the one-thread replay of
//! the journal, however many threads called or solved. This is the invariant of what lies under the lock ([`Held`]),
//! and the contract of [`Held::headline`].
//!
//! A caller has a [`Seat`]. What it was shown, it is never shown otherwise: each call tells its seat a past that begins
//! with what the seat had seen and goes on with calls of other seats alone.
#![tactic(auto)]

mod crossing;
mod held;
mod journalled;
mod opened;
mod opening;
mod seat;
mod shared;
mod tally;

pub use crossing::may_be_shared;
pub use held::Held;
pub use journalled::{JournalEntry, JournalledWorld};
pub use opened::Opened;
pub use opening::Opening;
pub use seat::{Receipt, Seat};
pub use shared::{Closed, SharedWorld};
pub use tally::Tally;
