//! The islands that are ready to sleep, by the timers of their movers.

ghost use Rattle.std.specs.Prelude.{◌≡◌, ℕ, ◌≤◌, ◌<◌, ◌&&◌, true, false, cond, length, slice_set, vec_capacity, None, Some, Contains};
ghost use Rattle.islands.specs.Labels.{label_at};
ghost use Rattle.islands.specs.Partition.{IsPartition};
ghost use Rattle.sleep_wake.specs.SleepPhase.{lesser, is_time_to_sleep, is_island, is_less, picked_to_split};
ghost use Rattle.sleep_wake.specs.AwakeSlots.{AreAwakeSlots};
ghost use Rattle.sleep_wake.specs.Resting.{AreLeast, least_at, lowered, forgotten, noted, is_ready_island, longer_at_rest, weighed_by, longest_ready, rests_by, second_rests, movers_rest, ready_names, all_rested};

use graph_colours::Movers;
use islands::Islands;

/// For how many ticks each mover of an island has to have been slow, before it is ready to sleep.
pub const TICKS_TO_SLEEP: u64 = 128;

// ---- the least timer of each island

fn lesser(timer: u64, least: Option<u64>) -> u64
    ensures { result ≡ lesser timer least }
{
    match least {
        None => timer,
        Some(least) => timer.min(least),
    }
}

/// The island of this name has a mover with this timer.
fn lower(leasts: &mut Vec<Option<u64>>, name: u32, timer: u64)
    requires { name < length leasts.old.items }
    ensures items { leasts.new.items ≡ lowered leasts.old.items name timer }
    ensures capacity { vec_capacity leasts.old ≤ vec_capacity leasts.new }
{
    let least = lesser(timer, leasts[name as usize]);
    leasts[name as usize] = Some(least);
}

/// Makes the list as long as there are slots, where it is shorter. There is room.
fn widen_to(leasts: &mut Vec<Option<u64>>, slots: usize)
    requires { slots ≤ vec_capacity leasts.old }
    ensures long { slots ≤ length leasts.new.items }
    ensures capacity { vec_capacity leasts.old ≤ vec_capacity leasts.new }
{
    if leasts.len() < slots {
        let _ = leasts.resize(slots, None);
    }
}

/// What stood in these slots is forgotten.
fn forget(leasts: &mut Vec<Option<u64>>, slots: &[u32])
    requires { (slot : ℕ) → Contains slots.now slot → slot < length leasts.old.items }
    ensures items { leasts.new.items ≡ forgotten slots.now leasts.old.items }
    ensures capacity { vec_capacity leasts.old ≤ vec_capacity leasts.new }
{
    for place in 0..slots.len() {
        leasts[slots[place] as usize] = None;
    }
}

/// The timer of the mover in the slot, if both are there, is one of its island's.
fn note(leasts: &mut Vec<Option<u64>>, islands: &Islands, timers: &[u64], slot: u32)
    requires { length islands.now.labels ≤ length leasts.old.items }
    ensures items { leasts.new.items ≡ noted (label_at islands.now.labels slot) timers.now slot leasts.old.items }
    ensures capacity { vec_capacity leasts.old ≤ vec_capacity leasts.new }
{
    if let Some(label) = islands.label_of(slot)
        && (slot as usize) < timers.len()
    {
        lower(leasts, label.name, timers[slot as usize]);
    }
}

/// Lists by name the least timer of each awake island, in ticks; what the list has for others means nothing. There is
/// room. Only the awake movers are gone through, whose slots are told.
pub(crate) fn list_leasts(
    leasts: &mut Vec<Option<u64>>,
    islands: &Islands,
    timers: &[u64],
    awake: &[u32],
)
    requires partition { IsPartition islands.now.labels }
    requires room { length islands.now.labels ≤ vec_capacity leasts.old }
    requires awake { AreAwakeSlots islands.now.labels awake.now }
    ensures least { AreLeast islands.now.labels timers.now leasts.new.items }
    ensures capacity { vec_capacity leasts.old ≤ vec_capacity leasts.new }
{
    widen_to(leasts, islands.slots());
    forget(leasts, awake);
    let mut place = awake.len();
    while place > 0 {
        place -= 1;
        note(leasts, islands, timers, awake[place]);
    }
}

/// The least timer of the island of this name.
fn least_at(leasts: &[Option<u64>], name: u32) -> Option<u64>
    ensures { result ≡ least_at leasts.now name }
{
    match leasts.get(name as usize) {
        None => None,
        Some(least) => *least,
    }
}

// ---- which islands are ready

/// Whether the slot names a whole island that is awake.
fn is_whole_island(islands: &Islands, slot: u32) -> bool
    ensures { result ≡ is_island false slot (label_at islands.now.labels slot) }
{
    match islands.label_of(slot) {
        None => false,
        Some(label) => { label.name == slot && !label.state.is_loose() && !label.state.is_asleep() }
    }
}

/// Whether the slot names a loose island.
fn is_loose_island(islands: &Islands, slot: u32) -> bool
    ensures { result ≡ is_island true slot (label_at islands.now.labels slot) }
{
    match islands.label_of(slot) {
        None => false,
        Some(label) => label.name == slot && label.state.is_loose(),
    }
}

fn is_time_to_sleep(timer: Option<u64>) -> bool
    ensures { result ≡ is_time_to_sleep timer }
{
    match timer {
        None => false,
        Some(timer) => TICKS_TO_SLEEP <= timer,
    }
}

/// Whether the slot names a whole island that is awake and has been slow for long enough.
fn is_ready(islands: &Islands, leasts: &[Option<u64>], slot: u32) -> bool
    ensures { result ≡ is_ready_island false (least_at leasts.now) slot (label_at islands.now.labels slot) }
{
    is_whole_island(islands, slot) && is_time_to_sleep(least_at(leasts, slot))
}

/// Whether the slot names a loose island that has been slow for long enough.
fn is_ready_to_split(islands: &Islands, leasts: &[Option<u64>], slot: u32) -> bool
    ensures { result ≡ is_ready_island true (least_at leasts.now) slot (label_at islands.now.labels slot) }
{
    is_loose_island(islands, slot) && is_time_to_sleep(least_at(leasts, slot))
}

// ---- the island to split

fn is_less(a: Option<u64>, b: Option<u64>) -> bool
    ensures { result ≡ is_less a b }
{
    match (a, b) {
        (Some(a), Some(b)) => a < b,
        _ => false,
    }
}

/// Of two islands the one that has been slow for longer, the best so far where they are equal.
fn longer_at_rest(leasts: &[Option<u64>], best: Option<u32>, name: u32) -> Option<u32>
    ensures { result ≡ longer_at_rest (least_at leasts.now) best name }
{
    let Some(best) = best else {
        return Some(name);
    };
    if is_less(least_at(leasts, best), least_at(leasts, name)) {
        Some(name)
    } else {
        Some(best)
    }
}

/// The best so far, once a slot more was looked at.
fn weighed(islands: &Islands, leasts: &[Option<u64>], best: Option<u32>, slot: u32) -> Option<u32>
    ensures { result ≡ weighed_by (least_at leasts.now) best slot (label_at islands.now.labels slot) }
{
    if is_ready_to_split(islands, leasts, slot) {
        longer_at_rest(leasts, best, slot)
    } else {
        best
    }
}

/// The loose island that a sleep phase splits: of those that are ready the one with the greatest least
/// timer, and of these the lowest. `None` where none is ready.
fn longest_ready(islands: &Islands, leasts: &[Option<u64>], awake: &[u32]) -> Option<u32>
    requires { AreAwakeSlots islands.now.labels awake.now }
    ensures { result ≡ longest_ready (least_at leasts.now) islands.now.labels }
{
    let mut best = None;
    for place in 0..awake.len() {
        best = weighed(islands, leasts, best, awake[place]);
    }
    best
}

/// The loose island that a sleep phase splits, by the timers of the movers by slot, in ticks, and by the slots of those
/// that are awake. There is room for the least timers.
pub(crate) fn pick_split(
    leasts: &mut Vec<Option<u64>>,
    islands: &Islands,
    timers: &[u64],
    awake: &[u32],
) -> Option<u32>
    requires partition { IsPartition islands.now.labels }
    requires room { length islands.now.labels ≤ vec_capacity leasts.old }
    requires awake { AreAwakeSlots islands.now.labels awake.now }
    ensures picked { result ≡ picked_to_split islands.now.labels timers.now }
    ensures capacity { vec_capacity leasts.old ≤ vec_capacity leasts.new }
{
    list_leasts(leasts, islands, timers, awake);
    longest_ready(islands, leasts, awake)
}

// ---- the islands that fall asleep

/// Whether the mover in the slot is in a whole island that is awake and has been slow for long enough.
fn is_resting(islands: &Islands, leasts: &[Option<u64>], slot: u32) -> bool
    ensures { result ≡ rests_by (least_at leasts.now) (label_at islands.now.labels slot) }
{
    match islands.label_of(slot) {
        None => false,
        Some(label) => {
            !label.state.is_loose()
                && !label.state.is_asleep()
                && is_time_to_sleep(least_at(leasts, label.name))
        }
    }
}

fn is_second_resting(islands: &Islands, leasts: &[Option<u64>], slot: Option<u32>) -> bool
    ensures { result ≡ second_rests (least_at leasts.now) islands.now.labels slot }
{
    match slot {
        None => false,
        Some(slot) => is_resting(islands, leasts, slot),
    }
}

/// Whether a mover of the constraint is in an island that is ready.
pub(crate) fn are_resting(islands: &Islands, leasts: &[Option<u64>], movers: Movers) -> bool
    ensures { result ≡ movers_rest (least_at leasts.now) islands.now.labels movers }
{
    is_resting(islands, leasts, movers.first) || is_second_resting(islands, leasts, movers.second)
}

/// Puts each whole island that is ready to rest.
pub(crate) fn rest_each(islands: &mut Islands, leasts: &[Option<u64>], awake: &[u32])
    requires awake { AreAwakeSlots islands.old.labels awake.now }
    ensures labels { islands.new.labels ≡ all_rested (ready_names false (least_at leasts.now) islands.old.labels) islands.old.labels }
    ensures room { islands.new.room ≡ islands.old.room }
{
    for place in 0..awake.len() {
        let slot = awake[place];
        if is_ready(islands, leasts, slot) {
            islands.rest(slot);
        }
    }
}

/// The law of the limits: the numbers that definitions take from the code, in digits. The function does nothing; its
/// contract is the law.
pub fn limits_in_digits()
    ensures ticks { TICKS_TO_SLEEP ≡ 128 }
{}
