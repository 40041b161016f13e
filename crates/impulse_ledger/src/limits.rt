//! The sizes of what the book holds.

ghost use Rattle.std.specs.Prelude.{◌≡◌};

/// The size of a component of an entry: what one call does to the momentum by one cause. So 2^40 calls change no sum by
/// more than 2^123.
pub const MAX_ENTRY: u128 = 1 << 83;

/// The size of a component of the sum of all: it is the momentum that the movers have.
pub const MAX_TOTAL: u128 = 1 << 126;

/// The size of a component of the sum of one cause. Causes may add up to the sum of all and still be greater, by what
/// another takes back.
pub const MAX_TOTAL_OF_CAUSE: u128 = MAX_TOTAL + (1 << 124);

/// The law of the limits: the numbers that definitions take from the code, in digits. The function does nothing; its
/// contract is the law.
pub fn limits_in_digits()
    ensures impulse { MAX_ENTRY ≡ 9671406556917033397649408 }
    ensures total { MAX_TOTAL ≡ 85070591730234615865843651857942052864 }
    ensures total_of_cause { MAX_TOTAL_OF_CAUSE ≡ 106338239662793269832304564822427566080 }
{}
