//! What a seat did: how many calls it made, and what it pushed.

ghost use Rattle.std.specs.Prelude.{◌≡◌, ◌+◌, ◌*◌, ◌^◌, ◌≤◌, ◌<◌, All, IfOk, length, replicate, slice_index_or, slice_set};
ghost use Rattle.std.specs.Result.{IsOkUnless};
ghost use Rattle.fixed_geom.specs.Vectors.{IsWithin};
ghost use Rattle.world_lock.specs.Tallies.{IsTally, no_calls, with_call};

use fixed_geom::{Refusal, Vec2};
use impulse_ledger::Total;
use std::alloc::Global;

/// How many calls of a seat were accepted, and the sum of the impulses that they gave, in mass·u/tick.
#[derive(Clone, Copy, Debug, PartialEq, Eq)]
pub struct Tally {
    pub calls: u64,
    pub pushed: Total,
}

impl Tally {
    // No calls.
    const NONE: Tally = Tally {
        calls: 0,
        pushed: Total { x: 0, y: 0 },
    };

    // One call more, which gave a body this impulse.
    fn with(self, impulse: Vec2) -> Tally
        requires tally { IsTally (2 ^ 40) self }
        requires impulse { IsWithin (2 ^ 40) impulse }
        ensures { result ≡ with_call self impulse }
    {
        Tally {
            calls: self.calls + 1,
            pushed: Total {
                x: self.pushed.x + i128::from(impulse.x),
                y: self.pushed.y + i128::from(impulse.y),
            },
        }
    }
}

/// The tallies of so many seats that made no calls.
pub(crate) fn no_tallies(alloc: Global, seats: u64) -> Result<Vec<Tally>, Refusal>
    ensures none { IfOk result (λ tallies. tallies.items ≡ replicate seats no_calls) }
    ensures memory_only { IsOkUnless result Refusal.NoMemory }
{
    let mut tallies = Vec::new(alloc);
    for _seat in 0..seats {
        tallies.push(Tally::NONE)?;
    }
    Ok(tallies)
}

/// How many calls a seat made.
pub(crate) fn calls_in(tallies: &[Tally], seat: u64) -> u64
    requires seat { seat < length tallies.now }
    ensures { result ≡ (slice_index_or tallies.now seat no_calls).calls }
{
    tallies[seat as usize].calls
}

/// A seat made one call more, which gave a body this impulse.
pub(crate) fn count_call(tallies: &mut Vec<Tally>, seat: u64, impulse: Vec2)
    requires seat { seat < length tallies.old.items }
    requires tallies { All (IsTally (2 ^ 40)) tallies.old.items }
    requires impulse { IsWithin (2 ^ 40) impulse }
    ensures { tallies.new.items ≡ slice_set tallies.old.items seat (with_call (slice_index_or tallies.old.items seat no_calls) impulse) }
{
    let counted = tallies[seat as usize].with(impulse);
    tallies[seat as usize] = counted;
}
