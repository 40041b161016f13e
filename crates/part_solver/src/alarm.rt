//! Waiting for another part: a thread looks for a while, and then sleeps until another part has sent something or given
//! something back. What it reads here is a hint, and costs time at most if it is wrong: only a ring has letters.

use std::hint;
use std::sync::Wait;
use std::sync::atomic::{AtomicU64, Ordering};

/// How often a wait looks before its thread sleeps between two looks. A wait that looks oftener is long.
const LOOKS: u32 = 2_000;

/// Counts what the other parts have done for a part, and wakes it if it sleeps.
#[derive(Drop)]
pub(crate) struct Alarm {
    rings: AtomicU64,
    asleep: AtomicU64,
}

/// How often a wait has looked, and how often the alarm had rung before the last look.
#[derive(Clone, Copy)]
pub(crate) struct Waited {
    looks: u32,
    rung: u64,
}

impl Waited {
    /// Nobody has looked yet.
    pub(crate) fn none() -> Waited {
        Waited {
            looks: 0,
            rung: u64::MAX,
        }
    }

    /// Whether the wait was long.
    pub(crate) fn is_long(self) -> bool {
        self.looks > LOOKS
    }
}

impl Alarm {
    pub(crate) fn new() -> Alarm {
        Alarm {
            rings: AtomicU64::new(0),
            asleep: AtomicU64::new(0),
        }
    }

    /// Wakes the part, if it sleeps, and keeps it from sleeping before it has looked again.
    pub(crate) fn ring(&self) {
        self.rings.fetch_add(1, Ordering::SeqCst);
        if self.asleep.load(Ordering::SeqCst) != 0 {
            self.rings.wake_all();
        }
    }

    /// Sleeps until the alarm has rung oftener than this.
    fn sleep_past<R: Wait>(&self, rt: &R, rung: u64) {
        self.asleep.store(1, Ordering::SeqCst);
        self.rings.park(rt, (rung % (1 << 32)) as u32);
        self.asleep.store(0, Ordering::SeqCst);
    }

    /// Waits a moment after a look in vain. After many of them it sleeps, unless the alarm has rung since the look
    /// began.
    pub(crate) fn wait<R: Wait>(&self, rt: &R, waited: Waited) -> Waited {
        let looks = waited.looks.saturating_add(1);
        if waited.looks < LOOKS {
            hint::spin_loop();
            return Waited { looks, ..waited };
        }
        let rung = self.rings.load(Ordering::SeqCst);
        if rung == waited.rung {
            self.sleep_past(rt, rung);
        }
        Waited { looks, rung }
    }
}
