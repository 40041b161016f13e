//! What a check sees of its world's census: what stands in each of the sets.

use super::Check;
use crate::whole_world::{WholeWorld, first_static};
use crate::worlds::seen::Seen;
use world_core::Item;

impl<W: WholeWorld> Check<W> {
    /// Tells the first body of the static set, and how many stand in the others.
    pub fn see_census(&mut self) {
        match self.world.census() {
            Ok(census) => {
                self.see(Seen::Listed(first_static(&census)));
                self.see(Seen::Count("static", census.static_set().len() as u64));
                self.see(Seen::Count("disabled", census.disabled().len() as u64));
                self.see(Seen::Count("awake", census.awake().len() as u64));
            }
            Err(_) => self.is_cut = true,
        }
    }

    /// Tells what stands in the set of the disabled.
    pub fn see_disabled(&mut self) {
        match self.world.census() {
            Ok(census) => self.see_disabled_of(census.disabled()),
            Err(_) => self.is_cut = true,
        }
    }

    fn see_disabled_of(&mut self, items: &[Item]) {
        for item in items {
            self.see(Seen::Disabled(*item));
        }
    }
}
