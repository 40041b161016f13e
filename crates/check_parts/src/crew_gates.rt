//! What the tests of crews do at each item, and the gates at which pieces wait for one another.

use crew::{Gate, Work};
use std::sync::Wait;
use std::sync::atomic::{AtomicU64, Ordering};
use std::thread;

/// How often a gate yields before it lets go.
const LIMIT: u32 = 1_000_000;

/// Sums of two numbers, below 2^32 each. Notes which items were worked, by the first of their numbers.
#[derive(Drop)]
pub(crate) struct Sums<'a> {
    pub worked: &'a AtomicU64,
}

impl Work for Sums<'_> {
    type Item = (u32, u32);

    type Out = u64;

    ghost use Rattle.std.specs.Prelude.{◌+◌};

    ghost answer = { λ _ x. x.0 + x.1 };

    fn work<R: Wait>(&self, _rt: &R, item: (u32, u32)) -> u64 {
        self.worked.fetch_or(1 << (item.0 % 64), Ordering::SeqCst);
        item.0 as u64 + item.1 as u64
    }
}

/// Yields until the bits of a word that the mask has are a number of at least this. Answers whether they became one.
fn yield_until(word: &AtomicU64, mask: u64, least: u64) -> bool {
    for _ in 0..LIMIT {
        if word.load(Ordering::SeqCst) & mask >= least {
            return true;
        }
        thread::yield_now();
    }
    false
}

/// Holds one piece until an item has been worked. Notes whether it waited too long, and what was worked as it let go.
#[derive(Drop)]
pub(crate) struct Holding<'a> {
    piece: usize,
    item: u32,
    worked: &'a AtomicU64,
    late: AtomicU64,
    let_go: AtomicU64,
}

impl<'a> Holding<'a> {
    pub(crate) fn new(piece: usize, item: u32, worked: &'a AtomicU64) -> Holding<'a> {
        Holding {
            piece,
            item,
            worked,
            late: AtomicU64::new(0),
            let_go: AtomicU64::new(0),
        }
    }

    /// How many pieces waited too long.
    pub(crate) fn late(&self) -> u64 {
        self.late.load(Ordering::SeqCst)
    }

    /// What was worked as it let go.
    pub(crate) fn let_go(&self) -> u64 {
        self.let_go.load(Ordering::SeqCst)
    }
}

impl Gate for Holding<'_> {
    fn enter<R: Wait>(&self, _rt: &R, piece: usize, _of: usize) {
        if piece == self.piece {
            let worked = 1 << (self.item % 64);
            if !yield_until(self.worked, worked, worked) {
                self.late.fetch_add(1, Ordering::SeqCst);
            }
            self.let_go
                .store(self.worked.load(Ordering::SeqCst), Ordering::SeqCst);
        }
    }
}

/// Holds each piece until all pieces of its map have entered. Notes which pieces have entered, and how many waited too
/// long or were of another number of pieces than is due.
#[derive(Drop)]
pub(crate) struct Gathering {
    due: u64,
    entered: AtomicU64,
    pieces: AtomicU64,
    late: AtomicU64,
    wrong: AtomicU64,
}

impl Gathering {
    pub(crate) fn new(due: u64) -> Gathering {
        Gathering {
            due,
            entered: AtomicU64::new(0),
            pieces: AtomicU64::new(0),
            late: AtomicU64::new(0),
            wrong: AtomicU64::new(0),
        }
    }

    /// Whether so many maps had each of their pieces once, and all of them at once.
    pub(crate) fn has_seen(&self, maps: u64) -> bool {
        let entered = self.entered.load(Ordering::SeqCst);
        let pieces = self.pieces.load(Ordering::SeqCst);
        let amiss = self.late.load(Ordering::SeqCst) != 0 || self.wrong.load(Ordering::SeqCst) != 0;
        !amiss && entered == maps.saturating_mul(self.due) && pieces == (1 << (self.due % 64)) - 1
    }
}

impl Gate for Gathering {
    fn enter<R: Wait>(&self, _rt: &R, piece: usize, of: usize) {
        if of as u64 != self.due {
            self.wrong.fetch_add(1, Ordering::SeqCst);
        }
        self.pieces.fetch_or(1 << (piece % 64), Ordering::SeqCst);
        let before = self.entered.fetch_add(1, Ordering::SeqCst);
        let maps = (before / self.due.max(1)).saturating_add(1);
        let due = maps.saturating_mul(self.due);
        if !yield_until(&self.entered, u64::MAX, due) {
            self.late.fetch_add(1, Ordering::SeqCst);
        }
    }
}
