//! Whether some island is ready to sleep, asked of the awake movers alone: a sleep phase, which looks at all that there
//! is, comes only where one is.

ghost use Rattle.std.specs.Prelude.{◌≡◌, ◌≤◌, ℕ, List, true, false, cond, length, slice_get, slice_set, vec_capacity};
ghost use Rattle.colour_solver.specs.States.{places_from};
ghost use Rattle.islands.specs.Labels.{label_at};
ghost use Rattle.plain_world.specs.Changes.{is_awake_in};
ghost use Rattle.plain_world.specs.Slots.{body_at};
ghost use Rattle.solver_sets.specs.Beside.{timers_of};
ghost use Rattle.solver_sets.specs.Tied.{AreTied};
ghost use Rattle.std.specs.List.{AllWithin};
ghost use Rattle.world_core.specs.Quiet.{AreBusy, AreCleared, AreKeptUp, HasFlagged, ShortTimersAgree, is_flagged_in, is_open_by, is_short_in, flagged_by};
ghost use Rattle.world_rules.specs.Sound.{AreTold};

use crate::activity::Activity;
use crate::kept_awake::flag_beside;
use islands::Islands;
use plain_world::{Body, item_at};
use sleep_wake::TICKS_TO_SLEEP;
use world_core_base::Constraints;

/// Whether a body is in the slot that hasn't been slow for long enough to sleep.
fn is_short_at(bodies: &[Option<Body>], slot: u32) -> bool
    ensures { result ≡ is_short_in (body_at bodies.now slot) }
{
    match item_at(bodies, slot as usize) {
        None => false,
        Some(body) => body.timer < TICKS_TO_SLEEP,
    }
}

/// Whether none of the awake movers, whose slots are `awake`, has been slow for long enough to sleep.
fn are_busy(bodies: &[Option<Body>], awake: &[u32]) -> bool
    requires { awake.now ≡ places_from is_awake_in 0 bodies.now }
    ensures { result ≡ true → AreBusy bodies.now }
{
    for place in 0..awake.len() {
        if !is_short_at(bodies, awake[place]) {
            return false;
        }
    }
    true
}

/// Takes the flag of a slot away.
fn clear_flag(flags: &mut Vec<bool>, slot: u32)
    ensures { flags.new.items ≡ slice_set flags.old.items slot false }
{
    if (slot as usize) < flags.len() {
        flags[slot as usize] = false;
    }
}

/// Takes the flags of these slots away. Those of all others stay.
fn clear_flags(flags: &mut Vec<bool>, awake: &[u32])
    ensures { AreCleared awake.now flags.new.items }
{
    for place in 0..awake.len() {
        clear_flag(flags, awake[place]);
    }
}

/// Makes the list of flags so long, if it is shorter. There is room.
fn lengthen(flags: &mut Vec<bool>, slots: usize)
    requires { slots ≤ vec_capacity flags.old }
    ensures { slots ≤ length flags.new.items }
{
    if flags.len() < slots {
        let _ = flags.resize(slots, false);
    }
}

/// Flags the island of the mover in a slot, at the slot that names it.
pub(crate) fn flag(flags: &mut Vec<bool>, islands: &Islands, slot: u32)
    ensures { flags.new.items ≡ flagged_by (label_at islands.now.labels slot) flags.old.items }
{
    if let Some(label) = islands.label_of(slot)
        && (label.name as usize) < flags.len()
    {
        flags[label.name as usize] = true;
    }
}

/// Flags the island of the mover in a slot, if it hasn't been slow for long enough to sleep.
fn flag_if_short(flags: &mut Vec<bool>, islands: &Islands, bodies: &[Option<Body>], slot: u32)
    ensures { flags.new.items ≡ cond (is_short_in (body_at bodies.now slot)) (flagged_by (label_at islands.now.labels slot) flags.old.items) flags.old.items }
{
    if is_short_at(bodies, slot) {
        flag(flags, islands, slot);
    }
}

/// Flags each island with an awake mover that hasn't been slow for long enough to sleep.
fn flag_all(flags: &mut Vec<bool>, islands: &Islands, bodies: &[Option<Body>], awake: &[u32])
    ensures { (names timers : List ℕ) → ShortTimersAgree bodies.now timers → HasFlagged names islands.now.labels timers flags.old.items → HasFlagged names islands.now.labels timers flags.new.items }
{
    for place in 0..awake.len() {
        flag_if_short(flags, islands, bodies, awake[place]);
    }
}

/// Whether the slot names an island that isn't flagged.
fn is_open(flags: &[bool], islands: &Islands, slot: u32) -> bool
    ensures { result ≡ is_open_by (label_at islands.now.labels slot) slot (is_flagged_in (slice_get flags.now slot)) }
{
    match islands.label_of(slot) {
        None => false,
        Some(label) => label.name == slot && !is_flagged(flags, slot),
    }
}

fn is_flagged(flags: &[bool], slot: u32) -> bool
    ensures { result ≡ is_flagged_in (slice_get flags.now slot) }
{
    match flags.get(slot as usize) {
        None => false,
        Some(flag) => *flag,
    }
}

/// Whether each of these slots that names an island names one that is flagged.
fn are_flagged(flags: &[bool], islands: &Islands, slots: &[u32]) -> bool
    ensures { result ≡ true → AllWithin (λ slot. is_open_by (label_at islands.now.labels slot) slot (is_flagged_in (slice_get flags.now slot)) ≡ false) slots.now 0 (length slots.now) }
{
    for place in 0..slots.len() {
        if is_open(flags, islands, slots[place]) {
            return false;
        }
    }
    true
}

/// Whether each awake island has a mover that keeps it from being ready to sleep. There is room for a flag for each
/// slot.
pub(crate) fn are_kept_up(
    flags: &mut Vec<bool>,
    activity: &Activity,
    constraints: &Constraints,
) -> bool
    requires room { length activity.now.bodies.bodies ≤ vec_capacity flags.old }
    requires tied { AreTied activity.now.bodies.bodies activity.now.sets.acting.labels }
    requires told { AreTold activity.now.bodies.bodies activity.now.sets.acting.labels }
    requires bodies_flushed { activity.now.bodies.pending ≡ 0 }
    requires colours_flushed { activity.now.sets.pending ≡ 0 }
    ensures { result ≡ true → AreKeptUp activity.now.sets.acting.labels (timers_of activity.now.bodies.bodies constraints.now.joints.joints constraints.now.contacts.contacts) }
{
    let islands = activity.sets.islands();
    let bodies = activity.bodies.bodies();
    let awake = activity.bodies.awake();
    if are_busy(bodies, awake) {
        return true;
    }
    lengthen(flags, bodies.len());
    clear_flags(flags, awake);
    flag_all(flags, islands, bodies, awake);
    flag_beside(flags, islands, bodies, constraints, activity.sets.colours());
    are_flagged(flags, islands, awake)
}
