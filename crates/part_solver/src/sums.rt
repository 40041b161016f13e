//! What the parts together have added to the movers' momentum.

ghost use Rattle.std.specs.Prelude.{◌≡◌, ◌<◌, ◌≤◌, ◌^◌, ℕ, true, length};
ghost use Rattle.fixed_geom.specs.Vectors.{plus};
ghost use Rattle.momenta.specs.Gains.{IsGain};
ghost use Rattle.colour_solver.specs.States.{as_vector};
ghost use Rattle.colour_solver.specs.Ticks.{AreSums};
ghost use Rattle.part_runs.specs.Hidden.{sum_below};
ghost use Rattle.part_runs.specs.Runs.{IsInRange};
ghost use Rattle.part_solver.specs.Parts.{run_at};

use crate::seat::Part;
use colour_solver::StepSums;
use momenta::{Gain, NOTHING, plus};

/// The most parts that a step may have.
pub(crate) const MOST_PARTS: usize = 8;

/// How large a sum of a step may be (mass·u/tick).
const LARGEST: i128 = 1 << 83;

/// The sums of both.
fn both(one: StepSums, other: StepSums) -> StepSums
    requires first { AreSums (2 ^ 100) one }
    requires second { AreSums (2 ^ 100) other }
    ensures gravity { as_vector result.gravity ≡ plus (as_vector one.gravity) (as_vector other.gravity) }
    ensures immovable { as_vector result.immovable ≡ plus (as_vector one.immovable) (as_vector other.immovable) }
    ensures clamp { as_vector result.clamp ≡ plus (as_vector one.clamp) (as_vector other.clamp) }
{
    StepSums {
        gravity: plus(one.gravity, other.gravity),
        immovable: plus(one.immovable, other.immovable),
        clamp: plus(one.clamp, other.clamp),
    }
}

/// The sums of all parts, which are within their ranges.
pub(crate) fn sum_up(parts: &[Part]) -> StepSums
    requires { length parts.now ≤ MOST_PARTS }
    ensures gravity { as_vector result.gravity ≡ sum_below (length parts.now) (λ k. (run_at parts.now k).gravity) }
    ensures immovable { as_vector result.immovable ≡ sum_below (length parts.now) (λ k. (run_at parts.now k).immovable) }
    ensures clamp { as_vector result.clamp ≡ sum_below (length parts.now) (λ k. (run_at parts.now k).clamp) }
    ensures ranges { (k : ℕ) → k < length parts.now → IsInRange (run_at parts.now k) }
{
    let mut sums = StepSums {
        gravity: NOTHING,
        immovable: NOTHING,
        clamp: NOTHING,
    };
    for number in 0..parts.len() {
        sums = both(sums, parts[number].sums());
    }
    sums
}

fn is_small(gain: Gain) -> bool
    ensures { result ≡ true → IsGain (2 ^ 83) gain }
{
    -LARGEST <= gain.x && gain.x <= LARGEST && -LARGEST <= gain.y && gain.y <= LARGEST
}

/// Whether the sums are ones that a step may have.
pub(crate) fn are_small(sums: StepSums) -> bool
    ensures { result ≡ true → AreSums (2 ^ 83) sums }
{
    is_small(sums.gravity) && is_small(sums.immovable) && is_small(sums.clamp)
}
