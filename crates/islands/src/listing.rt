//! The members of a part, as a list.

ghost use Rattle.std.specs.Prelude.{◌≡◌, ◌≤◌, ◌↔◌, ℕ, nat_eq, length, vec_capacity, Contains, IfOk};
ghost use Rattle.std.specs.Result.{IsOkUnless};
ghost use Rattle.std.specs.List.{IsDistinct};
ghost use Rattle.std.specs.List.Sorted.{IsStrictlyIncreasing};
ghost use Rattle.islands.specs.Labels.{IsIn};
ghost use Rattle.islands.specs.Packed.{IsStanding, InPart, AreMembers, by_slot, head_at, labels_by};

use crate::room::{push_in_room, reserve_in_all};
use crate::thread_nodes::{NodeEntry, slot_of};
use crate::threads::{Head, Note, part_named};
use fixed_geom::Refusal;
use std::alloc::Global;

/// Lists the members of a part along its thread. There is room for all.
pub(crate) fn list_members(
    node_entries: &[NodeEntry],
    notes: &[Option<Note>],
    heads: &[Head],
    part: u32,
    members: &mut Vec<u32>,
)
    requires standing { IsStanding node_entries.now notes.now heads.now }
    requires part { InPart notes.now part part }
    requires room { (head_at heads.now part).count ≤ vec_capacity members.old }
    ensures members { AreMembers (by_slot node_entries.now notes.now) part members.new.items }
    ensures capacity { vec_capacity members.old ≤ vec_capacity members.new }
{
    members.clear();
    let mut at = Some(heads[part as usize].first);
    while let Some(node) = at {
        push_in_room(members, slot_of(node_entries, node));
        at = notes[node as usize].unwrap().next;
    }
}

/// The members of a part, ascending.
fn sorted_members(
    alloc: Global,
    node_entries: &[NodeEntry],
    notes: &[Option<Note>],
    heads: &[Head],
    part: u32,
) -> Result<Vec<u32>, Refusal>
    requires standing { IsStanding node_entries.now notes.now heads.now }
    requires part { InPart notes.now part part }
    ensures ascending { IfOk result (λ v. IsStrictlyIncreasing v.items) }
    ensures members { IfOk result (λ v. (slot : ℕ) → Contains v.items slot ↔ InPart (by_slot node_entries.now notes.now) part slot) }
    ensures memory_only { IsOkUnless result Refusal.NoMemory }
{
    let mut members = Vec::new(alloc);
    reserve_in_all(&mut members, heads[part as usize].count as usize)?;
    list_members(node_entries, notes, heads, part, &mut members);
    members.sort_unstable();
    Ok(members)
}

/// The movers of an island, ascending; none where there is no such island.
pub(crate) fn members_of(
    alloc: Global,
    node_entries: &[NodeEntry],
    notes: &[Option<Note>],
    heads: &[Head],
    name: u32,
) -> Result<Vec<u32>, Refusal>
    requires standing { IsStanding node_entries.now notes.now heads.now }
    ensures ascending { IfOk result (λ v. IsStrictlyIncreasing v.items) }
    ensures members { IfOk result (λ v. (slot : ℕ) → Contains v.items slot ↔ IsIn (labels_by node_entries.now notes.now heads.now) name slot) }
    ensures memory_only { IsOkUnless result Refusal.NoMemory }
{
    match part_named(node_entries, notes, heads, name) {
        None => Ok(Vec::new(alloc)),
        Some(part) => sorted_members(alloc, node_entries, notes, heads, part),
    }
}

/// Lists the movers of an island, in no order that is promised; none where there is no such island. There is room for
/// as many as there are slots.
pub(crate) fn fill_members(
    node_entries: &[NodeEntry],
    notes: &[Option<Note>],
    heads: &[Head],
    name: u32,
    members: &mut Vec<u32>,
)
    requires standing { IsStanding node_entries.now notes.now heads.now }
    requires room { length notes.now ≤ vec_capacity members.old }
    ensures members { (slot : ℕ) → Contains members.new.items slot ↔ IsIn (labels_by node_entries.now notes.now heads.now) name slot }
    ensures once { IsDistinct nat_eq members.new.items }
    ensures capacity { vec_capacity members.old ≤ vec_capacity members.new }
{
    match part_named(node_entries, notes, heads, name) {
        None => members.clear(),
        Some(part) => list_members(node_entries, notes, heads, part, members),
    }
}
