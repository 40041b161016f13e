//! Two ascending lists of slots made one, of the slots of a group's bodies.

ghost use Rattle.std.specs.Prelude.{◌≡◌, ◌⊎◌, ◌<◌, ◌≤◌, ◌+◌, ◌++◌, ◌∷◌, ℕ, [], true, false, cond, nat_lt, length, slice_index_or, vec_len, vec_capacity};
ghost use Rattle.colour_solver.specs.States.{nobody, places_from};
ghost use Rattle.world_core_base.specs.Listing.{AreSlotsRising, IsIn, is_of};
ghost use Rattle.world_core_base.specs.Merging.{HavePassed, IsNext};

use crate::slot_list::{Group, is_of_at};
use momenta::BodyState;

/// How many places of either list are passed.
#[derive(Clone, Copy)]
struct Passed {
    slots: usize,
    added: usize,
}

/// The least slot that isn't passed, and what is passed with it.
#[derive(Clone, Copy)]
struct Next {
    slot: u32,
    passed: Passed,
}

/// The least slot that isn't passed. There is one.
fn next_of(slots: &[u32], added: &[u32], passed: Passed) -> Next
    requires slots { AreSlotsRising slots.now }
    requires added { AreSlotsRising added.now }
    requires passed { HavePassed slots.now added.now passed (passed.slots + passed.added) }
    requires left { passed.slots + passed.added < length slots.now + length added.now }
    ensures next { IsNext slots.now added.now passed result }
    ensures passed { HavePassed slots.now added.now result.passed (passed.slots + passed.added + 1) }
{
    if is_before(slots, passed.slots, added, passed.added) {
        Next {
            slot: slots[passed.slots],
            passed: Passed {
                slots: passed.slots + 1,
                added: passed.added,
            },
        }
    } else {
        Next {
            slot: added[passed.added],
            passed: Passed {
                slots: passed.slots,
                added: passed.added + 1,
            },
        }
    }
}

/// Whether there is a slot in a place of one list, and no lesser one in that of another.
fn is_before(slots: &[u32], place: usize, added: &[u32], other: usize) -> bool
    ensures yes { result ≡ true → (place < length slots.now) × (other < length added.now → slice_index_or slots.now place 0 ≤ slice_index_or added.now other 0) }
    ensures no { result ≡ false → place < length slots.now → (other < length added.now) × (slice_index_or added.now other 0 ≤ slice_index_or slots.now place 0) }
{
    if place >= slots.len() {
        return false;
    }
    if other >= added.len() {
        return true;
    }
    slots[place] <= added[other]
}

/// Lists the slot behind the others, if a body of the group is in it and all slots below `end` are done. Answers below
/// which slot all are done then.
fn list_slot(
    list: &mut Vec<u32>,
    group: Group,
    states: &[BodyState],
    end: usize,
    slot: u32,
) -> usize
    requires room { length states.now ≤ vec_capacity list.old }
    requires short { vec_len list.old ≤ end }
    ensures items { list.new.items ≡ list.old.items ++ cond (nat_lt slot end) [] (cond (is_of group (slice_index_or states.now slot nobody)) (slot ∷ []) []) }
    ensures end { result ≡ cond (nat_lt slot end) end (slot + 1) }
    ensures capacity { vec_capacity list.old ≤ vec_capacity list.new }
{
    if (slot as usize) < end {
        return end;
    }
    if is_of_at(group, states, slot) {
        let _ = list.push(slot);
    }
    slot as usize + 1
}

/// Lists the slots of a group's bodies, which are all in one of two lists, for which there is room.
pub(crate) fn merge(
    list: &mut Vec<u32>,
    group: Group,
    states: &[BodyState],
    slots: &[u32],
    added: &[u32],
)
    requires slots { AreSlotsRising slots.now }
    requires added { AreSlotsRising added.now }
    requires all { (slot : ℕ) → is_of group (slice_index_or states.now slot nobody) ≡ true → IsIn slots.now 0 slot ⊎ IsIn added.now 0 slot }
    requires room { length states.now ≤ vec_capacity list.old }
    ensures items { list.new.items ≡ places_from (is_of group) 0 states.now }
    ensures capacity { vec_capacity list.old ≤ vec_capacity list.new }
{
    list.clear();
    let mut passed = Passed { slots: 0, added: 0 };
    let mut end = 0;
    for _turn in 0..slots.len() + added.len() {
        let next = next_of(slots, added, passed);
        end = list_slot(list, group, states, end, next.slot);
        passed = next.passed;
    }
}
