//! What the book holds: impulses, each with its cause.

ghost use Rattle.std.specs.Prelude.{◌≡◌};
ghost use Rattle.impulse_ledger.specs.Totals.{impulse_of};

use crate::totals::Total;

/// Why the momentum of movers changed.
#[derive(Clone, Copy, Debug, PartialEq, Eq, PartialOrd, Ord)]
pub enum Cause {
    /// A push.
    Command,
    /// Gravity, over the ticks of a step.
    Gravity,
    /// A contact or a joint whose other end doesn't move.
    Immovable,
    /// The limits on speed and on places.
    Clamp,
    /// A mover that fell asleep, and lost what it had.
    Rest,
    /// A mover that was destroyed or disabled, and took what it had with it.
    Departed,
}

/// The sum of what one call did to movers' momentum by one cause.
#[derive(Clone, Copy, Debug, PartialEq, Eq)]
pub struct Entry {
    /// The number of the call, counted from 1.
    pub call: u64,
    pub cause: Cause,
    /// In mass·u/tick.
    pub x: i128,
    /// In mass·u/tick.
    pub y: i128,
}

impl Entry {
    // What the entry adds to a sum.
    pub(crate) fn impulse(&self) -> Total
        ensures { result ≡ impulse_of self.now }
    {
        Total {
            x: self.x,
            y: self.y,
        }
    }
}
