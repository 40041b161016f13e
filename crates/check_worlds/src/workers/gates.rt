//! Gates that hold pieces back.

use crew::Gate;
use std::sync::Wait;
use std::sync::atomic::{AtomicU64, Ordering};
use std::thread;

/// How often a hold yields before it lets go.
const LIMIT: u32 = 1_000_000;

/// Waits until the word has reached a number. Answers whether it did before the limit.
fn has_reached(word: &AtomicU64, number: u64) -> bool {
    for _ in 0..LIMIT {
        if word.load(Ordering::SeqCst) >= number {
            return true;
        }
        thread::yield_now();
    }
    false
}

/// Holds each piece of a map of two until the other one of the same map has entered. A solver that works one piece
/// after the other meets the limit.
#[derive(Drop)]
pub struct Meeting {
    first: AtomicU64,
    second: AtomicU64,
    late: AtomicU64,
}

impl Meeting {
    pub fn new() -> Meeting {
        Meeting {
            first: AtomicU64::new(0),
            second: AtomicU64::new(0),
            late: AtomicU64::new(0),
        }
    }

    /// Enters by the one word, and waits for the other to be entered as often. After a wait in vain there is no further
    /// one.
    fn meet(&self, own: &AtomicU64, other: &AtomicU64) {
        let number = own.fetch_add(1, Ordering::SeqCst).saturating_add(1);
        if self.late.load(Ordering::SeqCst) == 0 && !has_reached(other, number) {
            self.late.fetch_add(1, Ordering::SeqCst);
        }
    }

    /// How many pieces waited in vain.
    pub fn late(&self) -> u64 {
        self.late.load(Ordering::SeqCst)
    }

    /// Whether maps of two pieces were seen, and both pieces of each.
    pub fn has_met(&self) -> bool {
        let first = self.first.load(Ordering::SeqCst);
        first > 0 && first == self.second.load(Ordering::SeqCst)
    }
}

impl Gate for Meeting {
    fn enter<R: Wait>(&self, _rt: &R, piece: usize, of: usize) {
        match (piece, of) {
            (0, 2) => self.meet(&self.first, &self.second),
            (1, 2) => self.meet(&self.second, &self.first),
            _ => {}
        }
    }
}
