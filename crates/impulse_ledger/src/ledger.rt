//! The book: its entries, and their kept sums.

mod from_totals;

ghost use Rattle.std.specs.Prelude.{◌≡◌, ◌+◌, ◌≤◌, ◌^◌, unsigned_abs, [], ◌∷◌, ◌++◌, OnOk, OnErr, IfOk, IsOk};
ghost use Rattle.std.specs.Result.{IsOkUnless};
ghost use Rattle.impulse_ledger.specs.Totals.{zero_totals};
ghost use Rattle.impulse_ledger.specs.Sums.{total, total_of, totals_of, Fits, HaveSameTotals};

use crate::entry::{Cause, Entry};
use crate::limits::{MAX_TOTAL, MAX_TOTAL_OF_CAUSE};
use crate::totals::{Total, Totals};
use fixed_geom::Refusal;
use std::alloc::Global;
use std::marker::Model;

/// The book of impulses. Contracts see its entries, oldest first (`entries`), the sums of entries that were settled and
/// dropped (`settled`), and how many more entries may be added with no memory (`room`).
///
/// A component of a sum by cause is at most `MAX_TOTAL_OF_CAUSE` in size, and one of the sum of all at most
/// `MAX_TOTAL`.
#[derive(Drop)]
pub struct Ledger {
    entries: Vec<Entry>,
    // The sums by cause of entries that were dropped.
    settled: Totals,
    // The sums by cause, and over all causes, kept up to date.
    by_cause: Totals,
    all: Total,
}

impl Model for Ledger {
    ghost use Rattle.std.specs.Prelude.{◌-◌, vec_capacity, vec_len};
    ghost use Rattle.impulse_ledger.specs.Sums.{Book, book_of, IsKept};

    ghost Value = { Book };

    ghost view = { λ a. book_of a.entries.items a.settled (vec_capacity a.entries - vec_len a.entries) };

    ghost invariant = { λ a. IsKept (book_of a.entries.items a.settled (vec_capacity a.entries - vec_len a.entries)) a.by_cause a.all };
}

impl Ledger {
    /// An empty book.
    pub fn new(alloc: Global) -> Self
        ensures entries { result.entries ≡ [] }
        ensures settled { result.settled ≡ zero_totals }
    {
        Ledger {
            entries: Vec::new(alloc),
            settled: Totals::zero(),
            by_cause: Totals::zero(),
            all: Total::ZERO,
        }
    }

    /// Makes room for that many more entries. Refused for want of memory only.
    pub fn reserve(&mut self, additional: usize) -> Result<(), Refusal>
        ensures ok { OnOk result (additional ≤ self.new.room) }
        ensures enough { additional ≤ self.old.room → IsOk result }
        ensures room { self.old.room ≤ self.new.room }
        ensures entries { self.new.entries ≡ self.old.entries }
        ensures settled { self.new.settled ≡ self.old.settled }
        ensures memory_only { IsOkUnless result Refusal.NoMemory }
    {
        self.entries.reserve(additional)?;
        Ok(())
    }

    /// Adds an entry. Refused for want of memory only, and then nothing is added.
    pub fn post(&mut self, entry: Entry) -> Result<(), Refusal>
        requires { Fits self.old entry }
        ensures ok { OnOk result (self.new.entries ≡ self.old.entries ++ entry ∷ []) }
        ensures err { OnErr result (self.new.entries ≡ self.old.entries) }
        ensures enough { 1 ≤ self.old.room → IsOk result }
        ensures room { self.old.room ≤ self.new.room + 1 }
        ensures settled { self.new.settled ≡ self.old.settled }
        ensures memory_only { IsOkUnless result Refusal.NoMemory }
    {
        self.reserve(1)?;
        self.post_reserved(entry);
        Ok(())
    }

    /// Adds an entry for which there is room.
    pub fn post_reserved(&mut self, entry: Entry)
        requires fits { Fits self.old entry }
        requires room { 1 ≤ self.old.room }
        ensures entries { self.new.entries ≡ self.old.entries ++ entry ∷ [] }
        ensures room { self.old.room ≤ self.new.room + 1 }
        ensures settled { self.new.settled ≡ self.old.settled }
    {
        let impulse = entry.impulse();
        let of_cause = self.by_cause.of(entry.cause).plus(impulse);
        self.by_cause.put(entry.cause, of_cause);
        self.all = self.all.plus(impulse);
        let _ = self.entries.push(entry);
    }

    /// Adds the entries to the settled sums, each to that of its cause, and drops them. No sum changes, and no memory
    /// is taken.
    pub fn settle(&mut self)
        ensures entries { self.new.entries ≡ [] }
        ensures settled { self.new.settled ≡ totals_of self.old }
        ensures totals { HaveSameTotals self.new self.old }
    {
        self.entries.clear();
        self.settled = self.by_cause;
    }

    /// The sums by cause of all entries and of what was settled.
    pub fn totals(&self) -> Totals
        ensures { result ≡ totals_of self.now }
    {
        self.by_cause
    }

    /// The sum of all entries and of what was settled.
    pub fn total(&self) -> Total
        ensures value { result ≡ total self.now }
        ensures x_small { unsigned_abs result.x ≤ MAX_TOTAL }
        ensures y_small { unsigned_abs result.y ≤ MAX_TOTAL }
    {
        self.all
    }

    /// The sum of the entries of one cause, and of what was settled of it.
    pub fn total_of(&self, cause: Cause) -> Total
        ensures value { result ≡ total_of cause self.now }
        ensures x_small { unsigned_abs result.x ≤ MAX_TOTAL_OF_CAUSE }
        ensures y_small { unsigned_abs result.y ≤ MAX_TOTAL_OF_CAUSE }
    {
        self.by_cause.of(cause)
    }

    /// The entries that aren't settled, oldest first.
    pub fn entries(&self) -> &[Entry]
        ensures { result.now ≡ self.now.entries }
    {
        self.entries.as_slice()
    }

    /// A copy of its own, with no promise on room. Refused for want of memory only.
    pub fn try_copy(&self) -> Result<Ledger, Refusal>
        ensures entries { IfOk result (λ c. c.entries ≡ self.now.entries) }
        ensures settled { IfOk result (λ c. c.settled ≡ self.now.settled) }
        ensures memory_only { IsOkUnless result Refusal.NoMemory }
    {
        let mut entries = Vec::new(*self.entries.allocator());
        entries.extend_from_slice(&self.entries)?;
        Ok(Ledger {
            entries,
            settled: self.settled,
            by_cause: self.by_cause,
            all: self.all,
        })
    }
}
