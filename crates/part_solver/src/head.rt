//! The head of what one part sends to another in a step.

ghost use Rattle.std.specs.Prelude.{◌≡◌};

use crate::step_lists::StepLists;
use std::snapshot::Snapshot;

/// From which part to which, and, for contracts alone, in which step.
#[derive(Drop)]
pub(crate) struct Head {
    pub(crate) step: Snapshot<StepLists>,
    pub(crate) from: u32,
    pub(crate) to: u32,
}

impl Head {
    pub(crate) fn of(step: &StepLists, from: u32, to: u32) -> Head
        ensures step { result.step.value ≡ step.now }
        ensures from { result.from ≡ from }
        ensures to { result.to ≡ to }
    {
        Head {
            step: Snapshot::of(step),
            from,
            to,
        }
    }
}
