//! Numbered sets of ids.

ghost use Rattle.std.specs.Prelude.{◌≡◌, ◌↔◌, ◌<◌, ◌≤◌, ◌+◌, ◌++◌, ◌∷◌, ℕ, [], length, Contains, Some, IfOk, OnErr, OnOk};
ghost use Rattle.std.specs.Result.{IsOkUnless};
ghost use Rattle.std.specs.List.{swap_remove};
ghost use Rattle.packed_sets.specs.Packs.{list_at, capacity_at, IsAbsent, IsPut, IsTaken, IsShifted, HaveAtLeast, EachOnce};

use crate::ItemId;
use crate::copying::copies;
use crate::packing::{add_list, drop_list, push_lists, put_in, reserve_list, shift_id, take_id};
use crate::spots::{Spot, grow_spots, spot_of};
use fixed_geom::Refusal;
use std::alloc::Global;
use std::marker::Model;

/// How many sets there can be that [`PackedSets::add_set`] adds.
pub const MAX_SETS: usize = 4_294_967_296;

/// Numbered sets of ids. Contracts see the ids of each set (`sets`), below which number those of ids must be (`ids`),
/// and for how many ids in all each set has room (`capacities`). In what order the ids of a set stand isn't promised.
#[derive(Drop)]
pub struct PackedSets<I: ItemId> {
    lists: Vec<Vec<I>>,
    // By an id's number where it stands.
    spots: Vec<Option<Spot>>,
}

impl<I: ItemId> Model for PackedSets<I> {
    ghost use Rattle.std.specs.Prelude.{length, map, vec_capacity};
    ghost use Rattle.packed_sets.specs.Packs.{Packs};
    ghost use Rattle.packed_sets.specs.Notes.{numbers_of, IsKept};

    ghost Value = { Packs I };

    ghost view = { λ a. record { sets = map (λ v. v.items) a.lists.items; ids = length a.spots.items; capacities = map vec_capacity a.lists.items } };

    ghost invariant = { λ a. IsKept (numbers_of I.number (map (λ v. v.items) a.lists.items)) a.spots.items };
}

impl<I: ItemId> PackedSets<I> {
    /// No sets, and no ids.
    pub fn new(alloc: Global) -> PackedSets<I>
        ensures sets { result.sets ≡ [] }
        ensures ids { result.ids ≡ 0 }
    {
        PackedSets {
            lists: Vec::new(alloc),
            spots: Vec::new(alloc),
        }
    }

    /// Makes sets of all numbers below `sets`, and lets ids whose numbers are below `ids` be put in. No set has other
    /// ids than before.
    pub fn reserve(&mut self, sets: usize, ids: usize) -> Result<(), Refusal>
        ensures made { OnOk result (sets ≤ length self.new.sets) }
        ensures noted { OnOk result (ids ≤ self.new.ids) }
        ensures sets { (set : ℕ) → list_at self.new.sets set ≡ list_at self.old.sets set }
        ensures more_sets { length self.old.sets ≤ length self.new.sets }
        ensures more_ids { self.old.ids ≤ self.new.ids }
        ensures capacities { HaveAtLeast self.old.capacities self.new.capacities }
        ensures refused { OnErr result (self.new ≡ self.old) }
        ensures memory_only { IsOkUnless result Refusal.NoMemory }
    {
        let alloc = *self.lists.allocator();
        let more = sets.max(self.lists.len()) - self.lists.len();
        self.lists.reserve(more)?;
        grow_spots(&mut self.spots, ids)?;
        push_lists(&mut self.lists, alloc, sets);
        Ok(())
    }

    /// Makes room for that many more ids in a set. No set has other ids than before.
    pub fn reserve_in(&mut self, set: u32, more: usize) -> Result<(), Refusal>
        requires there { set < length self.old.sets }
        ensures made { OnOk result (length (list_at self.old.sets set) + more ≤ capacity_at self.new.capacities set) }
        ensures sets { self.new.sets ≡ self.old.sets }
        ensures ids { self.new.ids ≡ self.old.ids }
        ensures capacities { HaveAtLeast self.old.capacities self.new.capacities }
        ensures memory_only { IsOkUnless result Refusal.NoMemory }
    {
        reserve_list(&mut self.lists, set as usize, more)
    }

    /// Adds a set with no ids, and answers its number, which is the next one. Refused 1 where memory is wanting, or
    /// there are [`MAX_SETS`] sets.
    pub fn add_set(&mut self) -> Result<u32, Refusal>
        ensures number { IfOk result (λ set. set ≡ length self.old.sets) }
        ensures sets { OnOk result (self.new.sets ≡ self.old.sets ++ [] ∷ []) }
        ensures refused { OnErr result (self.new ≡ self.old) }
        ensures ids { self.new.ids ≡ self.old.ids }
        ensures capacities { HaveAtLeast self.old.capacities self.new.capacities }
        ensures memory_only { IsOkUnless result Refusal.NoMemory }
    {
        add_list(&mut self.lists)
    }

    /// Takes away a set, which has no ids. The last set takes its number, with its ids and its room. Takes no memory,
    /// and a time that goes by the ids of the last set.
    pub fn drop_set(&mut self, set: u32)
        requires there { set < length self.old.sets }
        requires empty { list_at self.old.sets set ≡ [] }
        ensures sets { self.new.sets ≡ swap_remove self.old.sets set [] }
        ensures ids { self.new.ids ≡ self.old.ids }
        ensures capacities { self.new.capacities ≡ swap_remove self.old.capacities set 0 }
    {
        drop_list(&mut self.lists, &mut self.spots, set);
    }

    /// Puts an id that is in no set into a set that has room for it. Takes no memory.
    pub fn insert(&mut self, set: u32, id: I)
        requires there { set < length self.old.sets }
        requires below { I.number id < self.old.ids }
        requires absent { IsAbsent self.old.sets id }
        requires space { length (list_at self.old.sets set) < capacity_at self.old.capacities set }
        ensures put { IsPut self.old.sets self.new.sets set id }
        ensures long { length self.new.sets ≡ length self.old.sets }
        ensures ids { self.new.ids ≡ self.old.ids }
        ensures capacities { HaveAtLeast self.old.capacities self.new.capacities }
    {
        put_in(&mut self.lists, &mut self.spots, set, id);
    }

    /// Takes an id out of its set, if it is in one. Takes no memory.
    pub fn remove(&mut self, id: I)
        ensures taken { (set : ℕ) → Contains (list_at self.old.sets set) id → IsTaken self.old.sets self.new.sets set id }
        ensures absent { IsAbsent self.old.sets id → self.new.sets ≡ self.old.sets }
        ensures gone { IsAbsent self.new.sets id }
        ensures long { length self.new.sets ≡ length self.old.sets }
        ensures ids { self.new.ids ≡ self.old.ids }
        ensures capacities { HaveAtLeast self.old.capacities self.new.capacities }
    {
        take_id(&mut self.lists, &mut self.spots, id);
    }

    /// Moves an id, if it is in a set, from there to a set that has room for it. Takes no memory.
    pub fn shift(&mut self, id: I, set: u32)
        requires there { set < length self.old.sets }
        requires space { length (list_at self.old.sets set) < capacity_at self.old.capacities set }
        ensures shifted { (from : ℕ) → Contains (list_at self.old.sets from) id → IsShifted self.old.sets self.new.sets from set id }
        ensures absent { IsAbsent self.old.sets id → self.new.sets ≡ self.old.sets }
        ensures long { length self.new.sets ≡ length self.old.sets }
        ensures ids { self.new.ids ≡ self.old.ids }
        ensures capacities { HaveAtLeast self.old.capacities self.new.capacities }
    {
        shift_id(&mut self.lists, &mut self.spots, id, set);
    }

    /// The set in which an id is; `None` where it is in none.
    pub fn set_of(&self, id: I) -> Option<u32>
        ensures { (set : ℕ) → (result ≡ Some set) ↔ Contains (list_at self.now.sets set) id }
    {
        let spot = spot_of(&self.spots, id.number())?;
        Some(spot.set)
    }

    /// How many sets there are.
    pub fn len(&self) -> usize
        ensures { result ≡ length self.now.sets }
    {
        self.lists.len()
    }

    /// The ids of a set, in no order that is promised; none where no set has the number.
    pub fn members(&self, set: u32) -> &[I]
        ensures value { result.now ≡ list_at self.now.sets set }
        ensures once { EachOnce self.now.sets }
        ensures below { (id : I) → Contains result.now id → I.number id < self.now.ids }
    {
        match self.lists.get(set as usize) {
            Some(list) => list.as_slice(),
            None => &[],
        }
    }

    /// A copy. Its sets have room for the ids that they have.
    pub fn try_copy(&self) -> Result<PackedSets<I>, Refusal>
        ensures sets { IfOk result (λ copied. copied.sets ≡ self.now.sets) }
        ensures ids { IfOk result (λ copied. copied.ids ≡ self.now.ids) }
        ensures memory_only { IsOkUnless result Refusal.NoMemory }
    {
        let alloc = *self.lists.allocator();
        Ok(PackedSets {
            lists: copies(alloc, &self.lists)?,
            spots: Vec::from_slice(alloc, self.spots.as_slice())?,
        })
    }
}
