//! What the threads of one round share.

use crate::shared::notes::Notes;
use std::sync::atomic::{AtomicU64, Ordering};
use std::sync::{Mutex, Wait};
use std::thread;
use world_workers::Gate;

/// The gate of the workers' pieces, which may be shut for a while, and what all threads have seen together.
#[derive(Drop)]
pub struct Round {
    /// Whether pieces may pass.
    is_open: AtomicU64,
    /// How many pieces have come to the gate.
    pieces: AtomicU64,
    /// How many seats have done their work.
    done: AtomicU64,
    is_over: AtomicU64,
    notes: Mutex<Notes>,
}

impl Round {
    pub fn new() -> Round {
        Round {
            is_open: AtomicU64::new(0),
            pieces: AtomicU64::new(0),
            done: AtomicU64::new(0),
            is_over: AtomicU64::new(0),
            notes: Mutex::new(Notes::new()),
        }
    }

    /// Lets all pieces pass from now on.
    pub fn open(&self) {
        self.is_open.store(1, Ordering::SeqCst);
    }

    fn is_open(&self) -> bool {
        self.is_open.load(Ordering::SeqCst) > 0
    }

    pub fn pieces(&self) -> u64 {
        self.pieces.load(Ordering::SeqCst)
    }

    /// The number of seats that have done their work.
    pub fn done(&self) -> &AtomicU64 {
        &self.done
    }

    /// Whether a piece waits at the gate: it came there, nobody lets it pass, and no seat has done its work.
    pub fn is_held(&self) -> bool {
        self.pieces() > 0 && !self.is_open() && self.done.load(Ordering::SeqCst) == 0
    }

    /// A seat has done its work, and has seen this.
    pub fn finish<R: Wait>(&self, rt: &R, notes: Notes) {
        self.add(rt, notes);
        self.done.fetch_add(1, Ordering::SeqCst);
    }

    /// Adds what somebody has seen.
    pub fn add<R: Wait>(&self, rt: &R, notes: Notes) {
        self.notes.lock(rt).add(notes);
    }

    /// Tells the readers that there is nothing more to see.
    pub fn end(&self) {
        self.is_over.store(1, Ordering::SeqCst);
    }

    pub fn is_over(&self) -> bool {
        self.is_over.load(Ordering::SeqCst) > 0
    }

    /// What all have seen together.
    pub fn into_notes(self) -> Notes {
        let Round {
            is_open: _,
            pieces: _,
            done: _,
            is_over: _,
            notes,
        } = self;
        notes.into_inner()
    }
}

impl Gate for Round {
    fn enter<R: Wait>(&self, rt: &R, _piece: usize, _of: usize) {
        self.pieces.fetch_add(1, Ordering::SeqCst);
        for _ in rt.forever() {
            if self.is_open() {
                break;
            }
            thread::yield_now();
        }
    }
}
