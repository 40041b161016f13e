//! Sums of impulses, over everything or by cause.

ghost use Rattle.std.specs.Prelude.{◌≡◌, ◌<◌, ◌^◌, ◌+ℤ◌, unsigned_abs};
ghost use Rattle.impulse_ledger.specs.Totals.{zero_totals, sum_of, total_in, put_total};

use crate::entry::Cause;

/// A sum of impulses, in mass·u/tick.
#[derive(Clone, Copy, Debug, PartialEq, Eq)]
pub struct Total {
    pub x: i128,
    pub y: i128,
}

/// A sum of impulses for each cause.
#[derive(Clone, Copy, Debug, PartialEq, Eq)]
pub struct Totals {
    pub command: Total,
    pub gravity: Total,
    pub immovable: Total,
    pub clamp: Total,
    pub rest: Total,
    pub departed: Total,
}

impl Total {
    // No impulse.
    pub(crate) const ZERO: Total = Total { x: 0, y: 0 };

    // The sum of the two, which is in the range of its type.
    pub(crate) fn plus(self, other: Total) -> Total
        requires x { unsigned_abs (self.x +ℤ other.x) < 2 ^ 127 }
        requires y { unsigned_abs (self.y +ℤ other.y) < 2 ^ 127 }
        ensures { result ≡ sum_of self other }
    {
        Total {
            x: self.x + other.x,
            y: self.y + other.y,
        }
    }
}

impl Totals {
    // Nothing was booked.
    pub(crate) fn zero() -> Totals
        ensures { result ≡ zero_totals }
    {
        Totals {
            command: Total::ZERO,
            gravity: Total::ZERO,
            immovable: Total::ZERO,
            clamp: Total::ZERO,
            rest: Total::ZERO,
            departed: Total::ZERO,
        }
    }

    /// The sum of one cause.
    pub fn of(&self, cause: Cause) -> Total
        ensures { result ≡ total_in cause self.now }
    {
        match cause {
            Cause::Command => self.command,
            Cause::Gravity => self.gravity,
            Cause::Immovable => self.immovable,
            Cause::Clamp => self.clamp,
            Cause::Rest => self.rest,
            Cause::Departed => self.departed,
        }
    }

    // Puts another sum in the place of a cause's.
    pub(crate) fn put(&mut self, cause: Cause, total: Total)
        ensures { self.new ≡ put_total self.old cause total }
    {
        match cause {
            Cause::Command => self.command = total,
            Cause::Gravity => self.gravity = total,
            Cause::Immovable => self.immovable = total,
            Cause::Clamp => self.clamp = total,
            Cause::Rest => self.rest = total,
            Cause::Departed => self.departed = total,
        }
    }
}
