//! Which bodies have fallen asleep or woken since they were told last.

ghost use Rattle.std.specs.Prelude.{◌≡◌, ◌≤◌, ◌&&◌, ℕ, Contains, not, length, slice_get, true, vec_capacity};
ghost use Rattle.std.specs.List.Sorted.{IsStrictlyIncreasing};
ghost use Rattle.solver_sets.specs.Slept.{sleeps};
ghost use Rattle.solver_sets.specs.SinceTold.{handle_if, newly_asleep, newly_awake, was_asleep};

use body_handles::{Handle, SlotEntry};
use islands::Islands;
use plain_world::{Body, item_at};
use sleep_wake::put_some;

/// Whether the mover in the slot sleeps.
fn sleeps(islands: &Islands, slot: u32) -> bool
    ensures { result ≡ sleeps islands.now.labels slot }
{
    match islands.label_of(slot) {
        None => false,
        Some(label) => label.state.is_asleep(),
    }
}

/// Whether the body in the slot was told that it sleeps.
fn was_asleep(bodies: &[Option<Body>], slot: u32) -> bool
    ensures { result ≡ was_asleep bodies.now slot }
{
    match item_at(bodies, slot as usize) {
        None => false,
        Some(body) => body.asleep.is_some(),
    }
}

/// Whether the mover in the slot sleeps, and wasn't told so yet.
fn is_newly_asleep(bodies: &[Option<Body>], islands: &Islands, slot: u32) -> bool
    ensures { result ≡ (sleeps islands.now.labels slot && not (was_asleep bodies.now slot)) }
{
    sleeps(islands, slot) && !was_asleep(bodies, slot)
}

/// Whether the body in the slot was told that it sleeps, and is awake.
fn is_newly_awake(bodies: &[Option<Body>], islands: &Islands, slot: u32) -> bool
    ensures { result ≡ (was_asleep bodies.now slot && not (sleeps islands.now.labels slot)) }
{
    was_asleep(bodies, slot) && !sleeps(islands, slot)
}

/// The handle of who is in the slot, if they pass.
fn handle_if(slot_entries: &[SlotEntry], slot: u32, passes: bool) -> Option<Handle>
    ensures { result ≡ handle_if passes slot (slice_get slot_entries.now slot) }
{
    match slot_entries.get(slot as usize) {
        None => None,
        Some(place) => {
            if passes {
                Some(Handle {
                    slot,
                    generation: place.generation,
                })
            } else {
                None
            }
        }
    }
}

/// The handle of who is in the slot, if they sleep and weren't told so yet.
fn newly_asleep_at(
    slot_entries: &[SlotEntry],
    bodies: &[Option<Body>],
    islands: &Islands,
    slot: u32,
) -> Option<Handle>
    ensures { result ≡ handle_if (sleeps islands.now.labels slot && not (was_asleep bodies.now slot)) slot (slice_get slot_entries.now slot) }
{
    handle_if(slot_entries, slot, is_newly_asleep(bodies, islands, slot))
}

/// The handle of who is in the slot, if they were told that they sleep and are awake.
fn newly_awake_at(
    slot_entries: &[SlotEntry],
    bodies: &[Option<Body>],
    islands: &Islands,
    slot: u32,
) -> Option<Handle>
    ensures { result ≡ handle_if (was_asleep bodies.now slot && not (sleeps islands.now.labels slot)) slot (slice_get slot_entries.now slot) }
{
    handle_if(slot_entries, slot, is_newly_awake(bodies, islands, slot))
}

/// Lists who sleeps and wasn't told so yet, ascending. Each of them is in one of the slots `awake`, of those who were
/// awake before, so that it costs by their number. There is room for as many handles as there are such slots.
#[tactic(auto, unfolding(crate::specs::SinceTold::newly_asleep))]
pub fn fill_newly_asleep(
    handles: &mut Vec<Handle>,
    slot_entries: &[SlotEntry],
    bodies: &[Option<Body>],
    islands: &Islands,
    awake: &[u32],
)
    requires room { length awake.now ≤ vec_capacity handles.old }
    requires rising { IsStrictlyIncreasing awake.now }
    requires all { (slot : ℕ) → (sleeps islands.now.labels slot && not (was_asleep bodies.now slot)) ≡ true → Contains awake.now slot }
    ensures handles { handles.new.items ≡ newly_asleep slot_entries.now bodies.now islands.now.labels }
    ensures capacity { vec_capacity handles.old ≤ vec_capacity handles.new }
{
    handles.clear();
    for place in 0..awake.len() {
        put_some(
            handles,
            newly_asleep_at(slot_entries, bodies, islands, awake[place]),
        );
    }
}

/// Lists who was told that it sleeps and is awake, ascending. Each of them is in one of the slots `asleep`, of sleepers
/// who may have woken, so that it costs by their number. There is room for as many handles as there are such slots.
#[tactic(auto, unfolding(crate::specs::SinceTold::newly_awake))]
pub fn fill_newly_awake(
    handles: &mut Vec<Handle>,
    slot_entries: &[SlotEntry],
    bodies: &[Option<Body>],
    islands: &Islands,
    asleep: &[u32],
)
    requires room { length asleep.now ≤ vec_capacity handles.old }
    requires rising { IsStrictlyIncreasing asleep.now }
    requires all { (slot : ℕ) → (was_asleep bodies.now slot && not (sleeps islands.now.labels slot)) ≡ true → Contains asleep.now slot }
    ensures handles { handles.new.items ≡ newly_awake slot_entries.now bodies.now islands.now.labels }
    ensures capacity { vec_capacity handles.old ≤ vec_capacity handles.new }
{
    handles.clear();
    for place in 0..asleep.len() {
        put_some(
            handles,
            newly_awake_at(slot_entries, bodies, islands, asleep[place]),
        );
    }
}
