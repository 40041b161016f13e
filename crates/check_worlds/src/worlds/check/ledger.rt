//! What a check sees of its world's ledger: totals and entries.

use super::Check;
use crate::whole_world::WholeWorld;
use crate::worlds::seen::Seen;
use world_core::Cause;

impl<W: WholeWorld> Check<W> {
    pub fn see_total(&mut self) {
        let total = self.world.ledger().total();
        self.see(Seen::Total(None, total));
    }

    pub fn see_total_of(&mut self, cause: Cause) {
        let total = self.world.ledger().total_of(cause);
        self.see(Seen::Total(Some(cause), total));
    }

    /// Tells the entries of the book but the first ones, so many, or that there are none.
    pub fn see_entries_after(&mut self, skipped: usize) {
        let count = self.world.ledger().entries().len();
        if count <= skipped {
            self.see(Seen::Count("entries", 0));
        }
        for index in skipped..count {
            if let Some(entry) = self.world.ledger().entries().get(index).copied() {
                self.see(Seen::Entry(entry));
            }
        }
    }
}
