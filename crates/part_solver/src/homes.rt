//! The test that each slot has a home in one of the parts.

ghost use Rattle.std.specs.Prelude.{◌≡◌, true, All};
ghost use Rattle.part_solver.specs.Parts.{AreDealt, IsHomeBelow};

use crate::sums::MOST_PARTS;
use momenta::BodyState;
use part_runs::laws::homes_are_below;

fn is_below(part: u32, parts: usize) -> bool
    ensures { result ≡ true → IsHomeBelow parts part }
{
    (part as usize) < parts
}

/// Whether all are below the number of parts.
fn are_below(home: &[u32], parts: usize) -> bool
    ensures { result ≡ true → All (IsHomeBelow parts) home.now }
{
    for slot in 0..home.len() {
        if !is_below(home[slot], parts) {
            return false;
        }
    }
    true
}

/// Whether the slots of these bodies are dealt out to so many parts.
pub(crate) fn are_dealt(home: &[u32], parts: usize, states: &[BodyState]) -> bool
    ensures { result ≡ true → AreDealt home.now parts states.now }
{
    homes_are_below();
    if parts < 1 {
        return false;
    }
    if parts > MOST_PARTS {
        return false;
    }
    if home.len() != states.len() {
        return false;
    }
    are_below(home, parts)
}
