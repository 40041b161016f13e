//! The limits of a body's masses and momenta, and of what two bodies show along a line.

ghost use Rattle.std.specs.Prelude.{◌≡◌, pos};

/// The greatest mass.
pub const MAX_MASS: i64 = 1 << 20;

/// The greatest moment of inertia, in mass·u².
pub const MAX_INERTIA: i64 = 1 << 60;

/// The greatest size of a component of a momentum, in mass·u/tick.
pub const MAX_MOMENTUM: i64 = 1 << 60;

/// The greatest size of an angular momentum, in mass·u²/tick.
pub const MAX_ANGULAR_MOMENTUM: i128 = 1 << 90;

/// The greatest size of a component of a velocity, in u/tick: what a body moves in a tick. This project's own rule.
pub const MAX_SPEED: i64 = 1 << 20;

/// The greatest size of a component of gravity, in u/tick².
pub const MAX_GRAVITY: i64 = 1 << 16;

/// The least inverse mass along a line, times 2^40: that of one body of the greatest mass, which doesn't turn.
pub const MIN_INVERSE_MASS: i128 = 1 << 20;

/// The greatest inverse mass along a line, times 2^40: that of two bodies of mass and inertia 1, and some more.
pub const MAX_INVERSE_MASS: i128 = 1 << 98;

/// The law of the limits: the numbers that definitions take from the code, in digits. The function does nothing; its
/// contract is the law.
pub fn limits_in_digits()
    ensures mass { MAX_MASS ≡ pos 1048576 }
    ensures inertia { MAX_INERTIA ≡ pos 1152921504606846976 }
    ensures momentum { MAX_MOMENTUM ≡ pos 1152921504606846976 }
    ensures angular_momentum { MAX_ANGULAR_MOMENTUM ≡ pos 1237940039285380274899124224 }
    ensures speed { MAX_SPEED ≡ pos 1048576 }
    ensures gravity { MAX_GRAVITY ≡ pos 65536 }
    ensures least_inverse_mass { MIN_INVERSE_MASS ≡ pos 1048576 }
    ensures inverse_mass { MAX_INVERSE_MASS ≡ pos 316912650057057350374175801344 }
{}
