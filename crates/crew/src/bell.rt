//! Waiting: workers for the next map, and the caller for pieces that are in their hands. What a thread reads here is a
//! hint, and costs time at most if it is wrong: only what comes out of a mailbox decides.

use crossbeam_utils::sync::{Parker, Unparker};
use std::hint;
use std::sync::Wait;
use std::sync::atomic::{AtomicU64, Ordering};

/// The round in which the crew ends.
pub(crate) const OVER: u64 = u64::MAX;

/// How many rounds there are before they are counted from 1 again.
const ROUNDS: u64 = 1 << 62;

/// How often a thread looks before it sleeps. It takes some 100 microseconds, which is longer than the maps of a step
/// are apart, so that workers sleep between steps alone.
const LOOKS: u32 = 2_000;

/// Counts the maps, and wakes the workers that sleep until the next one, and the caller when a piece is back.
#[derive(Drop)]
pub(crate) struct Bell {
    round: AtomicU64,
    asleep: AtomicU64,
    caller: Unparker,
}

/// The round after this one.
pub(crate) fn next_round(round: u64) -> u64 {
    round % ROUNDS + 1
}

/// The caller waits a moment after a look in vain; answers how often there was one. If it has looked often, it sleeps
/// until a piece is back.
pub(crate) fn pause<R: Wait>(rt: &R, parker: &Parker, looks: u32) -> u32 {
    if looks < LOOKS {
        hint::spin_loop();
        looks + 1
    } else {
        parker.park(rt);
        looks
    }
}

impl Bell {
    pub(crate) fn new(caller: Unparker) -> Bell {
        Bell {
            round: AtomicU64::new(0),
            asleep: AtomicU64::new(0),
            caller,
        }
    }

    /// Tells the caller that a piece is back.
    pub(crate) fn tell_caller(&self) {
        self.caller.unpark();
    }

    /// Begins a round.
    pub(crate) fn ring(&self, round: u64) {
        self.round.store(round, Ordering::SeqCst);
        if self.asleep.load(Ordering::SeqCst) != 0 {
            self.round.wake_all();
        }
    }

    /// Sleeps until there is another round than this, and answers it.
    fn sleep_past<R: Wait>(&self, rt: &R, seen: u64) -> u64 {
        for _ in rt.forever() {
            self.asleep.fetch_add(1, Ordering::SeqCst);
            self.round.park(rt, (seen % (1 << 32)) as u32);
            self.asleep.fetch_sub(1, Ordering::SeqCst);
            let now = self.round.load(Ordering::SeqCst);
            if now != seen {
                return now;
            }
        }
        unreachable!()
    }

    /// Waits until there is another round than this, or until this word is not 0. Answers the round.
    pub(crate) fn wait_past<R: Wait>(&self, rt: &R, seen: u64, word: &AtomicU64) -> u64 {
        for _ in 0..LOOKS {
            let now = self.round.load(Ordering::SeqCst);
            if now != seen || word.load(Ordering::SeqCst) != 0 {
                return now;
            }
            hint::spin_loop();
        }
        self.sleep_past(rt, seen)
    }
}
