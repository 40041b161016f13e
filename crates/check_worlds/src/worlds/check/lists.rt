//! What a check sees of its world's plain lists, of which it tells an excerpt.

use super::Check;
use crate::whole_world::WholeWorld;
use crate::worlds::seen::Seen;
use contacts_base::ContactEntry;
use islands::Label;
use world_core::{Body, Plain};

/// What a check asks of the plain lists.
#[derive(Clone, Copy)]
enum Excerpt {
    Counts,
    Contacts,
    /// The islands of the first bodies, so many.
    Islands(u32),
    FatBox,
    Timer,
}

impl<W: WholeWorld> Check<W> {
    /// Tells what stands in the plain lists: how many places, bodies, steps and calls.
    pub fn see_counts(&mut self) {
        self.see_lists(Excerpt::Counts);
    }

    /// Tells how many contacts there are, and how many of them touch.
    pub fn see_contacts(&mut self) {
        self.see_lists(Excerpt::Contacts);
    }

    /// Tells the islands of the first bodies, so many.
    pub fn see_islands(&mut self, slots: u32) {
        self.see_lists(Excerpt::Islands(slots));
    }

    /// Tells the first body's timer and the fat box of its first shape.
    pub fn see_fat_box(&mut self) {
        self.see_lists(Excerpt::FatBox);
    }

    /// Tells for how many ticks the first body was slow.
    pub fn see_timer(&mut self) {
        self.see_lists(Excerpt::Timer);
    }

    /// Makes the plain lists, and tells an excerpt of them.
    fn see_lists(&mut self, excerpt: Excerpt) {
        match self.world.lists() {
            Ok(lists) => self.see_excerpt(&lists, excerpt),
            Err(_) => self.is_cut = true,
        }
    }

    fn see_excerpt(&mut self, lists: &Plain, excerpt: Excerpt) {
        match excerpt {
            Excerpt::Counts => self.see_counts_of(lists),
            Excerpt::Contacts => self.see_contacts_of(lists.contacts()),
            Excerpt::Islands(slots) => self.see_islands_of(lists.islands(), slots),
            Excerpt::FatBox => self.see_fat_box_of(lists.bodies()),
            Excerpt::Timer => self.see_timer_of(lists.bodies()),
        }
    }

    fn see_counts_of(&mut self, lists: &Plain) {
        self.see(Seen::Count("places", lists.slot_entries().len() as u64));
        self.see(Seen::Count("bodies", lists.bodies().len() as u64));
        self.see(Seen::Count("steps", lists.steps()));
        self.see(Seen::Count("calls", lists.calls()));
    }

    fn see_contacts_of(&mut self, contacts: &[ContactEntry]) {
        let touching = contacts
            .iter()
            .filter(|entry| entry.contact.is_touching())
            .count();
        self.see(Seen::Count("contacts", contacts.len() as u64));
        self.see(Seen::Count("touching", touching as u64));
    }

    fn see_islands_of(&mut self, labels: &[Option<Label>], slots: u32) {
        for slot in 0..slots {
            let label = labels.get(slot as usize).copied().flatten();
            self.see(Seen::Island(slot, label));
        }
    }

    fn see_fat_box_of(&mut self, bodies: &[Option<Body>]) {
        let fat = match bodies.first() {
            Some(Some(body)) => body.fats.as_slice().first().copied(),
            _ => None,
        };
        self.see(Seen::FatBox(fat));
    }

    fn see_timer_of(&mut self, bodies: &[Option<Body>]) {
        if let Some(Some(body)) = bodies.first() {
            self.see(Seen::Count("ticks slow", body.timer));
        }
    }
}
