//! Sums of changes of momentum.

ghost use Rattle.std.specs.Prelude.{◌≡◌, ◌^◌, ◌+ℤ◌, ◌-ℤ◌};
ghost use Rattle.fixed_geom.specs.Vectors.{IsWithin};
ghost use Rattle.momenta.specs.Gains.{IsGain};

use fixed_geom::Vec2;

/// A sum of changes of momentum, in mass·u/tick.
#[derive(Clone, Copy, Debug, PartialEq, Eq)]
pub struct Gain {
    pub x: i128,
    pub y: i128,
}

/// No change of momentum.
pub const NOTHING: Gain = Gain { x: 0, y: 0 };

/// What a momentum has gained from `old` to `new`.
pub fn gain_between(old: Vec2, new: Vec2) -> Gain
    requires first { IsWithin (2 ^ 61) old }
    requires second { IsWithin (2 ^ 61) new }
    ensures x { result.x ≡ new.x -ℤ old.x }
    ensures y { result.y ≡ new.y -ℤ old.y }
    ensures small { IsGain (2 ^ 62) result }
{
    Gain {
        x: i128::from(new.x - old.x),
        y: i128::from(new.y - old.y),
    }
}

/// A change of momentum as a sum of one.
pub fn gain_of(change: Vec2) -> Gain
    ensures x { result.x ≡ change.x }
    ensures y { result.y ≡ change.y }
{
    Gain {
        x: i128::from(change.x),
        y: i128::from(change.y),
    }
}

/// The sum of two changes of momentum.
pub fn plus(a: Gain, b: Gain) -> Gain
    requires first { IsGain (2 ^ 100) a }
    requires second { IsGain (2 ^ 100) b }
    ensures x { result.x ≡ a.x +ℤ b.x }
    ensures y { result.y ≡ a.y +ℤ b.y }
{
    Gain {
        x: a.x + b.x,
        y: a.y + b.y,
    }
}
