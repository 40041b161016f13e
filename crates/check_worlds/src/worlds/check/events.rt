//! What a check sees of the events of its world's last step.

use super::Check;
use crate::whole_world::WholeWorld;
use crate::worlds::seen::Seen;

impl<W: WholeWorld> Check<W> {
    /// Tells what the last step told.
    pub fn see_events(&mut self) {
        let before = self.lines.len();
        self.see_meetings();
        self.see_sleepers();
        if self.lines.len() == before {
            self.see(Seen::NoEvents);
        }
    }

    fn see_meetings(&mut self) {
        for index in 0..self.world.events().begin().len() {
            if let Some(key) = self.world.events().begin().get(index).copied() {
                self.see(Seen::Begun(key));
            }
        }
        for index in 0..self.world.events().end().len() {
            if let Some(key) = self.world.events().end().get(index).copied() {
                self.see(Seen::Ended(key));
            }
        }
    }

    fn see_sleepers(&mut self) {
        for index in 0..self.world.events().slept().len() {
            if let Some(handle) = self.world.events().slept().get(index).copied() {
                self.see(Seen::Slept(handle));
            }
        }
        for index in 0..self.world.events().woke().len() {
            if let Some(handle) = self.world.events().woke().get(index).copied() {
                self.see(Seen::Woke(handle));
            }
        }
    }
}
