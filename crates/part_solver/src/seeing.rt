//! The bodies and slots of a step as one part sees them.

ghost use Rattle.std.specs.Prelude.{◌≡◌, ◌≤◌, [], cond, filter, length, nat_eq, vec_capacity};
ghost use Rattle.colour_solver.specs.Colour.{is_mover};
ghost use Rattle.part_runs.specs.Hidden.{hidden, part_at};
ghost use Rattle.colour_solver.specs.States.{nobody};

use momenta::{BodyState, NOBODY};

/// The part of a slot; 0 where there is none.
#[inline(always)]
pub(crate) fn part_at(parts: &[u32], slot: usize) -> u32
    ensures { result ≡ part_at parts.now slot }
{
    match parts.get(slot) {
        None => 0,
        Some(part) => *part,
    }
}

/// Whether a mover is in a slot.
#[inline(always)]
pub(crate) fn is_mover(states: &[BodyState], slot: usize) -> bool
    ensures { result ≡ is_mover states.now slot }
{
    match states.get(slot) {
        None => false,
        Some(state) => state.movable,
    }
}

/// A body as a part sees it: a mover of another part isn't there.
#[inline(always)]
fn seen(state: &BodyState, part: u32, number: u32) -> BodyState
    ensures { result ≡ cond state.now.movable (cond (nat_eq part number) state.now nobody) state.now }
{
    if state.movable {
        if part == number { *state } else { NOBODY }
    } else {
        *state
    }
}

/// Puts all bodies into an empty list, as a part sees them.
pub(crate) fn see_bodies(states: &[BodyState], home: &[u32], number: u32, out: &mut Vec<BodyState>)
    requires empty { out.old.items ≡ [] }
    requires room { length states.now ≤ vec_capacity out.old }
    ensures { out.new.items ≡ hidden (part_at home.now) number states.now }
{
    for slot in 0..states.len() {
        out.push_reserved(seen(&states[slot], part_at(home, slot), number));
    }
}

/// Puts those slots that are of a part into an empty list.
pub(crate) fn see_slots(slots: &[u32], home: &[u32], number: u32, out: &mut Vec<u32>)
    requires empty { out.old.items ≡ [] }
    requires room { length slots.now ≤ vec_capacity out.old }
    ensures { out.new.items ≡ filter (λ slot. nat_eq (part_at home.now slot) number) slots.now }
{
    for place in 0..slots.len() {
        let slot = slots[place];
        if part_at(home, slot as usize) == number {
            out.push_reserved(slot);
        }
    }
}

/// Puts all slots into an empty list.
pub(crate) fn see_all_slots(slots: &[u32], out: &mut Vec<u32>)
    requires empty { out.old.items ≡ [] }
    requires room { length slots.now ≤ vec_capacity out.old }
    ensures { out.new.items ≡ slots.now }
{
    for place in 0..slots.len() {
        out.push_reserved(slots[place]);
    }
}
