//! Slots in a list that ascends.

ghost use Rattle.std.specs.Prelude.{◌≡◌, ◌<◌, ◌≤◌, ◌+◌, ◌++◌, ◌∷◌, ◌^◌, ℕ, [], cond, length, vec_len, vec_capacity, IfOk, OnOk};
ghost use Rattle.std.specs.Result.{IsOkUnless};
ghost use Rattle.colour_solver.specs.States.{places_from};
ghost use Rattle.world_core_base.specs.Listing.{AreSlotsRising, IsIn, is_of};

use crate::slot_list::{Group, is_of};
use fixed_geom::Refusal;
use momenta::BodyState;
use std::alloc::Global;

/// Sorts slots, and leaves each of them once.
pub(crate) fn sort_once(slots: &mut Vec<u32>)
    ensures rising { AreSlotsRising slots.new.items }
    ensures all { (slot : ℕ) → IsIn slots.old.items 0 slot → IsIn slots.new.items 0 slot }
{
    slots.sort_unstable();
    slots.dedup();
}

/// Makes room for n slots in all.
pub(crate) fn reserve_in_all(slots: &mut Vec<u32>, n: usize) -> Result<(), Refusal>
    ensures made { OnOk result (n ≤ vec_capacity slots.new) }
    ensures items { slots.new.items ≡ slots.old.items }
    ensures capacity { vec_capacity slots.old ≤ vec_capacity slots.new }
    ensures memory_only { IsOkUnless result Refusal.NoMemory }
{
    slots.reserve(n.max(slots.len()) - slots.len())?;
    Ok(())
}

/// A copy with room for n slots in all.
pub(crate) fn copy_in_room(alloc: Global, slots: &[u32], n: usize) -> Result<Vec<u32>, Refusal>
    ensures copy { IfOk result (λ copied. copied.items ≡ slots.now) }
    ensures room { IfOk result (λ copied. n ≤ vec_capacity copied) }
    ensures memory_only { IsOkUnless result Refusal.NoMemory }
{
    let mut copied = Vec::with_capacity(alloc, n)?;
    copied.extend_from_slice(slots)?;
    Ok(copied)
}

/// Adds a slot behind the others, if it is listed, for which there is room.
fn push_if(slots: &mut Vec<u32>, slot: u32, listed: bool)
    requires { vec_len slots.old < vec_capacity slots.old }
    ensures items { slots.new.items ≡ slots.old.items ++ cond listed (slot ∷ []) [] }
    ensures len { vec_len slots.new ≤ vec_len slots.old + 1 }
    ensures capacity { vec_capacity slots.old ≤ vec_capacity slots.new }
{
    if listed {
        let _ = slots.push(slot);
    }
}

/// Lists the slots of a group's bodies anew, for which there is room.
pub(crate) fn list_group(slots: &mut Vec<u32>, group: Group, states: &[BodyState])
    requires few { length states.now ≤ 2 ^ 32 }
    requires room { length states.now ≤ vec_capacity slots.old }
    ensures items { slots.new.items ≡ places_from (is_of group) 0 states.now }
    ensures capacity { vec_capacity slots.old ≤ vec_capacity slots.new }
{
    slots.clear();
    for slot in 0..states.len() {
        push_if(slots, slot as u32, is_of(group, &states[slot]));
    }
}
