//! What a seat or a reader has seen.

use crate::calls::{SeatAnswer, Shown};
use world_core::Total;
use world_queries::Hit;

/// What a reader answered while a step waited, and whether it waited still.
#[derive(Clone, Copy)]
pub struct Answered {
    pub total: Total,
    pub hit: Option<Hit>,
    pub is_held: bool,
}

/// What one of them has seen, or all together.
#[derive(Clone, Copy)]
pub struct Notes {
    /// How many calls were known to be accepted.
    known: u64,
    /// How many calls were refused.
    pub refused: u64,
    /// How many looks were made at frames.
    pub looks: u64,
    /// How many rays hit a shape, of those that were cast in frames.
    pub hits: u64,
    /// How many frames were published.
    pub frames: u64,
    /// How many frames showed fewer calls than were known.
    pub went_back: u64,
    /// How many frames showed movers whose momentum isn't the ledger's total.
    pub unbalanced: u64,
    pub answered: Option<Answered>,
}

impl Notes {
    pub fn new() -> Notes {
        Notes {
            known: 0,
            refused: 0,
            looks: 0,
            hits: 0,
            frames: 0,
            went_back: 0,
            unbalanced: 0,
            answered: None,
        }
    }

    /// Notes a look at a frame, the total that was told of it, and what a ray hit in it.
    pub fn look(&mut self, shown: Shown, total: Total, hit: Option<Hit>) {
        self.looks = self.looks.saturating_add(1);
        if hit.is_some() {
            self.hits = self.hits.saturating_add(1);
        }
        if shown.calls < self.known {
            self.went_back = self.went_back.saturating_add(1);
        }
        if shown.momentum != shown.booked || total != shown.booked {
            self.unbalanced = self.unbalanced.saturating_add(1);
        }
        self.known = shown.calls;
    }

    /// Notes that so many frames were published.
    pub fn publish(&mut self, frames: u64) {
        self.frames = self.frames.saturating_add(frames);
    }

    /// Notes what a seat was answered: later frames count its call, too.
    pub fn call(&mut self, answer: SeatAnswer) {
        match answer {
            Ok((_, receipt)) => self.known = self.known.max(receipt.place.saturating_add(1)),
            Err(_) => self.refused = self.refused.saturating_add(1),
        }
    }

    /// Adds what another one has seen.
    pub fn add(&mut self, other: Notes) {
        self.refused = self.refused.saturating_add(other.refused);
        self.looks = self.looks.saturating_add(other.looks);
        self.hits = self.hits.saturating_add(other.hits);
        self.frames = self.frames.saturating_add(other.frames);
        self.went_back = self.went_back.saturating_add(other.went_back);
        self.unbalanced = self.unbalanced.saturating_add(other.unbalanced);
        if other.answered.is_some() {
            self.answered = other.answered;
        }
    }
}
