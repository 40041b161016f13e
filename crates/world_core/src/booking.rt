//! What commands and steps enter in the ledger, and the events of a step.

ghost use Rattle.std.specs.Prelude.{◌≡◌, ◌+◌, ◌≤◌, ◌^◌, ◌++◌, map, pos, neg_ℤ, unsigned_abs};
ghost use Rattle.std.specs.List.Sorted.{IsStrictlyIncreasing};
ghost use Rattle.body_handles.specs.Orders.{slot_of};
ghost use Rattle.contacts_base.specs.ChangedKeys.{AreRising};
ghost use Rattle.fixed_geom.specs.Vectors.{IsWithin};
ghost use Rattle.impulse_ledger.specs.Sums.{Fits};
ghost use Rattle.world_rules.specs.Apply.{booked, step_entries};
ghost use Rattle.world_rules.specs.Sound.{IsRoomy};
ghost use Rattle.colour_solver.specs.Ticks.{AreSums};
ghost use Rattle.momenta.specs.Gains.{IsGain};

use crate::scratch::Scratch;
use colour_solver::StepSums;
use contacts::Touches;
use event_feed::Events;
use fixed_geom::Vec2;
use impulse_ledger::{Cause, Entry, Ledger};
use momenta::Gain;

/// Books a sum of impulses for which there is room; one that is zero in both components is left out.
pub(crate) fn book(ledger: &mut Ledger, call: u64, cause: Cause, gain: Gain)
    requires fits { Fits ledger.old (record { call = call; cause = cause; x = gain.x; y = gain.y }) }
    requires room { 1 ≤ ledger.old.room }
    ensures entries { ledger.new.entries ≡ ledger.old.entries ++ booked call cause gain.x gain.y }
    ensures settled { ledger.new.settled ≡ ledger.old.settled }
    ensures room { ledger.old.room ≤ ledger.new.room + 1 }
{
    if gain.x.unsigned_abs() <= 0 && gain.y.unsigned_abs() <= 0 {
        return;
    }
    ledger.post_reserved(Entry {
        call,
        cause,
        x: gain.x,
        y: gain.y,
    });
}

/// A momentum, as it is booked where it comes.
pub(crate) fn gain_of(v: Vec2) -> Gain
    ensures x { result.x ≡ v.x }
    ensures y { result.y ≡ v.y }
{
    Gain {
        x: i128::from(v.x),
        y: i128::from(v.y),
    }
}

/// A momentum, as it is booked where it goes.
pub(crate) fn loss_of(v: Vec2) -> Gain
    ensures x { result.x ≡ neg_ℤ v.x }
    ensures y { result.y ≡ neg_ℤ v.y }
    ensures small_x { unsigned_abs result.x ≤ 2 ^ 63 }
    ensures small_y { unsigned_abs result.y ≤ 2 ^ 63 }
{
    Gain {
        x: -i128::from(v.x),
        y: -i128::from(v.y),
    }
}

/// Books what the ticks of a step have added, for which there is room.
fn book_ticks(ledger: &mut Ledger, call: u64, sums: StepSums)
    requires room { 3 ≤ ledger.old.room }
    requires roomy { IsRoomy ledger.old }
    requires small { AreSums (2 ^ 83) sums }
    ensures entries { ledger.new.entries ≡ ledger.old.entries ++ step_entries call sums }
    ensures settled { ledger.new.settled ≡ ledger.old.settled }
    ensures room { ledger.old.room ≤ ledger.new.room + 3 }
{
    book(ledger, call, Cause::Gravity, sums.gravity);
    book(ledger, call, Cause::Immovable, sums.immovable);
    book(ledger, call, Cause::Clamp, sums.clamp);
}

/// Books what the ticks of a step have added, and then what those that fell asleep have lost, for which there is room.
pub(crate) fn book_step(ledger: &mut Ledger, call: u64, sums: StepSums, rest: Gain)
    requires room { 4 ≤ ledger.old.room }
    requires roomy { IsRoomy ledger.old }
    requires small { AreSums (2 ^ 83) sums }
    requires rest { IsGain (2 ^ 78) rest }
    ensures entries { ledger.new.entries ≡ ledger.old.entries ++ (step_entries call sums ++ booked call Cause.Rest rest.x rest.y) }
    ensures settled { ledger.new.settled ≡ ledger.old.settled }
{
    book_ticks(ledger, call, sums);
    book(ledger, call, Cause::Rest, rest);
}

/// Makes what began and ended to touch in a step, and who slept and woke in it, its events. Takes no memory.
pub(crate) fn renew_events(events: &mut Events, scratch: &mut Scratch, touches: Touches)
    requires begin { AreRising touches.begin.items }
    requires end { AreRising touches.end.items }
    requires slept { IsStrictlyIncreasing (map slot_of scratch.old.slept.items) }
    requires woke { IsStrictlyIncreasing (map slot_of scratch.old.woke.items) }
    ensures begin { events.new.begin ≡ touches.begin.items }
    ensures end { events.new.end ≡ touches.end.items }
    ensures slept { events.new.slept ≡ scratch.old.slept.items }
    ensures woke { events.new.woke ≡ scratch.old.woke.items }
{
    events.renew(
        touches.begin,
        touches.end,
        &mut scratch.slept,
        &mut scratch.woke,
    );
}
