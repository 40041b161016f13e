//! The id of a body or of a joint.

ghost use Rattle.std.specs.Prelude.{◌≡◌};
ghost use Rattle.body_handles.specs.Orders.{handle_cmp};

use std::cmp::Ordering;

/// Names a slot at one generation. It names nothing once the slot was taken back.
#[derive(Clone, Copy, Debug, PartialEq, Eq, PartialOrd, Ord)]
pub struct Handle {
    /// Which slot, below `MAX_SLOTS`.
    pub slot: u32,
    /// How often the slot had been given out, this time included: 1 to `WORN_OUT - 1`.
    pub generation: u32,
}

/// What is taken where there is no id. It names nothing: generations begin with 1.
pub const NO_HANDLE: Handle = Handle {
    slot: 0,
    generation: 0,
};

impl Handle {
    /// How two handles compare: by slot, and of one slot by generation. Lists of handles ascend in this order.
    pub fn compare(self, other: Handle) -> Ordering
        ensures { result ≡ handle_cmp self other }
    {
        self.cmp(&other)
    }
}
