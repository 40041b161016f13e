//! What the solver leaves alone, and how fast it takes an overlap away.

ghost use Rattle.std.specs.Prelude.{◌≡◌, pos};

/// An overlap up to this is left alone, in u (half a hundredth of a metre).
pub const SLOP: i64 = 5243;

/// The most of an overlap that is taken away in a tick, in u.
pub const MAX_BIAS: i64 = 16_384;

/// Bodies that come together no faster than this, in u/tick, don't bounce.
pub const BOUNCE_SPEED: i64 = 4096;

/// The law of the limits: the numbers that definitions take from the code, in digits. The function does nothing; its
/// contract is the law.
pub fn limits_in_digits()
    ensures slop { SLOP ≡ pos 5243 }
    ensures bias { MAX_BIAS ≡ pos 16384 }
    ensures bounce_speed { BOUNCE_SPEED ≡ pos 4096 }
{}
