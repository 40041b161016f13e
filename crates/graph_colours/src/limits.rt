//! The numbers of the graph.

ghost use Rattle.std.specs.Prelude.{◌≡◌};

/// How many colours there are, 0 to `COLOURS - 1`, before the overflow.
pub const COLOURS: usize = 24;

/// The colour of the constraints that are free in none of the `COLOURS`.
pub const OVERFLOW: u8 = COLOURS as u8;

/// How many lists there are: one for each colour, and the overflow's.
pub(crate) const LISTS: usize = COLOURS + 1;

/// The law of the limits: the numbers that definitions take from the code, in digits. The function does nothing; its
/// contract is the law.
pub fn limits_in_digits()
    ensures colours { COLOURS ≡ 24 }
    ensures overflow { OVERFLOW ≡ 24 }
{}
