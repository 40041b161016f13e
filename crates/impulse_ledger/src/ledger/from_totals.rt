//! A book from its sums, as a saved world has them.

ghost use Rattle.std.specs.Prelude.{◌≡◌, []};
ghost use Rattle.impulse_ledger.specs.Given.{AreTotalsWithin, wrapped_sum};
ghost use Rattle.impulse_ledger.specs.Totals.{total_over};

use crate::ledger::Ledger;
use crate::totals::{Total, Totals};
use std::alloc::Global;

/// The sum of the two, of which 128 bits are kept.
fn wrapped_sum(a: Total, b: Total) -> Total
    ensures { result ≡ wrapped_sum a b }
{
    Total {
        x: a.x.wrapping_add(b.x),
        y: a.y.wrapping_add(b.y),
    }
}

/// The sum over the six causes. On the way to it a sum may be beyond 128 bits, and is wrapped; the whole sum isn't.
fn sum_over(totals: &Totals) -> Total
    requires { AreTotalsWithin totals.now }
    ensures { result ≡ total_over totals.now }
{
    let two = wrapped_sum(totals.command, totals.gravity);
    let three = wrapped_sum(two, totals.immovable);
    let four = wrapped_sum(three, totals.clamp);
    let five = wrapped_sum(four, totals.rest);
    wrapped_sum(five, totals.departed)
}

impl Ledger {
    /// The book with no entries of which these are the settled sums. Takes no memory.
    pub fn from_totals(alloc: Global, settled: Totals) -> Ledger
        requires { AreTotalsWithin settled }
        ensures entries { result.entries ≡ [] }
        ensures settled { result.settled ≡ settled }
    {
        Ledger {
            entries: Vec::new(alloc),
            settled,
            by_cause: settled,
            all: sum_over(&settled),
        }
    }
}
