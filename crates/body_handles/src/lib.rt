//! Slots with generations: ids of bodies and of joints that are never given out twice.
//!
//! A [`Handle`] names a slot at one generation. [`Handles`] gives the lowest free slot out, and takes slots back.
//! A slot's generation starts at 1 and adds one at each removal, so a handle that was taken back stays dead
//! for ever, however often its slot is given out again ([`removed_stays_gone`]). A slot that reaches
//! generation [`WORN_OUT`] is worn out: it is never given out again. There are at most [`MAX_SLOTS`] slots.
//!
//! The scheme is that of Box2D's ids; to take always the lowest free slot is this project's own rule, which
//! makes the answers of a world a function of its calls.
//!
//! An [`IdText`] is written as a text of slot and generation, `0.1`, and [`handle_of`] reads just such texts.
#![tactic(auto)]

ghost use Rattle.body_handles.specs.Calls.{RemovedStaysGone};

mod handle;
mod handles;
mod ids;
mod slot_table;

pub use handle::{Handle, NO_HANDLE};
pub use handles::Handles;
pub use ids::{IdText, handle_of};
pub use slot_table::{MAX_SLOTS, SlotEntry, WORN_OUT, limits_in_digits};

/// The law of generations: a handle that was taken back is never live again, whatever is given out and taken
/// back afterwards. The function does nothing; its contract is the law.
pub fn removed_stays_gone()
    ensures { RemovedStaysGone }
{}
