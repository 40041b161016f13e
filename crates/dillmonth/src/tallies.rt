//! How much there is of a world, what its ledger has, and by which rules it goes.

ghost use Rattle.std.specs.Prelude.{◌≡◌, ◌==◌};
ghost use Rattle.dillmonth.specs.Getters.{IsCounted, IsCountedIn, IsSummed, IsSummedIn, IsTotalIn, cause_said, counts_shown, sum_shown};

use crate::getter_forms::{CCounts, CSum};
use crate::held::{CWorld, put, take};
use crate::reading::{high_half, low_half};
use crate::statuses::{BAD_KIND, DONE, NO_WORLD, status_of};
use std::alloc::Global;
use world_core::{Cause, Total, WorldCore};
use world_queries::{Counts, count};

/// The number of the rules. The program's `--version` has it too.
const RULES: u32 = 1;

/// The number of the rules: two libraries with the same rules answer the same calls alike.
#[unsafe(no_mangle)]
pub extern "C" fn dm_rules() -> u32
    ensures { result ≡ 1 }
{
    RULES
}

fn show_counts(counts: &Counts) -> CCounts
    ensures { result ≡ counts_shown counts.now }
{
    CCounts {
        bodies: counts.bodies,
        awake: counts.awake,
        joints: counts.joints,
        contacts: counts.contacts,
        touching: counts.touching,
        islands: counts.islands,
        colours: counts.colours,
    }
}

/// Writes how much there is; 1 where memory is wanting.
fn write_counts(alloc: Global, world: &WorldCore, out: &mut CCounts) -> u32
    ensures { IsCounted world.now.plain result out.old out.new }
{
    match count(alloc, world) {
        Ok(counts) => {
            *out = show_counts(&counts);
            DONE
        }
        Err(refusal) => status_of(refusal),
    }
}

/// How much there is of a world. It looks at all that there is. Refused 1 where memory is wanting; `out` is then as it
/// was.
#[unsafe(no_mangle)]
pub extern "C" fn dm_count(alloc: Global, world: &mut CWorld, out: &mut CCounts) -> u32
    ensures kept { world.new.desk ≡ world.old.desk }
    ensures counts { IsCountedIn world.old.desk result out.old out.new }
{
    match take(alloc, world) {
        None => NO_WORLD,
        Some(desk) => {
            let status = write_counts(alloc, &desk.world, out);
            put(world, desk);
            status
        }
    }
}

pub(crate) fn show_sum(total: Total) -> CSum
    ensures { result ≡ sum_shown total }
{
    CSum {
        x_low: low_half(total.x),
        x_high: high_half(total.x),
        y_low: low_half(total.y),
        y_high: high_half(total.y),
    }
}

/// The cause of this number, if there is one.
fn cause_of(number: u32) -> Option<Cause>
    ensures { result ≡ cause_said number }
{
    match number {
        0 => Some(Cause::Command),
        1 => Some(Cause::Gravity),
        2 => Some(Cause::Immovable),
        3 => Some(Cause::Clamp),
        4 => Some(Cause::Rest),
        5 => Some(Cause::Departed),
        _ => None,
    }
}

/// Writes the sum of a cause, or 33 where there is none.
fn write_sum(world: &WorldCore, cause: Option<Cause>, out: &mut CSum) -> u32
    ensures { IsSummed cause world.now result out.old out.new }
{
    match cause {
        None => BAD_KIND,
        Some(cause) => {
            *out = show_sum(world.ledger().total_of(cause));
            DONE
        }
    }
}

/// What a cause has given the movers since the world was opened, in mass·u/tick: 0 commands, 1 gravity, 2 bodies that
/// no impulse moves, 3 the clamp of momenta, 4 rest, 5 bodies that departed. Refused 33 where there is no such cause;
/// `out` is then as it was.
#[unsafe(no_mangle)]
pub extern "C" fn dm_total_of(alloc: Global, world: &mut CWorld, cause: u32, out: &mut CSum) -> u32
    ensures kept { world.new.desk ≡ world.old.desk }
    ensures sum { IsSummedIn world.old.desk (cause_said cause) result out.old out.new }
{
    match take(alloc, world) {
        None => NO_WORLD,
        Some(desk) => {
            let status = write_sum(&desk.world, cause_of(cause), out);
            put(world, desk);
            status
        }
    }
}

/// What all causes together have given the movers: the movers' momentum, in mass·u/tick.
#[unsafe(no_mangle)]
pub extern "C" fn dm_total(alloc: Global, world: &mut CWorld, out: &mut CSum) -> u32
    ensures kept { world.new.desk ≡ world.old.desk }
    ensures total { IsTotalIn world.old.desk result out.old out.new }
{
    match take(alloc, world) {
        None => NO_WORLD,
        Some(desk) => {
            *out = show_sum(desk.world.ledger().total());
            put(world, desk);
            DONE
        }
    }
}
