//! The slots of a group of bodies that a step goes over, in a list that a command need not keep up to date.

ghost use Rattle.std.specs.Prelude.{◌≡◌, ◌⊎◌, ◌<◌, ◌≤◌, ◌^◌, ℕ, Bool, List, [], true, length, slice_index_or, vec_capacity, IfOk, OnOk};
ghost use Rattle.std.specs.Result.{IsOkUnless};
ghost use Rattle.momenta.specs.declared.state.BodyState.{BodyState as TheState};
ghost use Rattle.colour_solver.specs.States.{nobody, places_from};
ghost use Rattle.world_core_base.specs.Listing.{AreListed, AreSameBut, AreSlotsRising, IsIn, IsRelisted, is_of};

use crate::merging::merge;
use crate::slots::{copy_in_room, list_group, reserve_in_all, sort_once};
use fixed_geom::Refusal;
use momenta::BodyState;
use std::alloc::Global;
use std::marker::Model;
use std::mem;

/// A group of bodies that a step goes over: the awake movers, or the bodies that are carried along.
#[derive(Clone, Copy)]
pub(crate) enum Group {
    Awake,
    Carried,
}

/// Whether a body is in the group.
pub(crate) fn is_of(group: Group, state: &BodyState) -> bool
    ensures { result ≡ is_of group state.now }
{
    match group {
        Group::Awake => state.movable,
        Group::Carried => !state.movable && state.mass.inertia != 0,
    }
}

/// Whether a body of the group is in a slot.
pub(crate) fn is_of_at(group: Group, states: &[BodyState], slot: u32) -> bool
    ensures value { result ≡ is_of group (slice_index_or states.now slot nobody) }
    ensures there { result ≡ true → slot < length states.now }
{
    match states.get(slot as usize) {
        None => false,
        Some(state) => is_of(group, state),
    }
}

/// The slots of a group of bodies, ascending. A slot that comes or goes doesn't cost by how many others there are: the
/// list is brought up to date by [`SlotList::flush`], and may have slots of no body of the group until then, while
/// slots that have come stand beside it.
#[derive(Drop)]
pub(crate) struct SlotList {
    slots: Vec<u32>,
    // Slots that have come, in no order. One may stand here more than once.
    added: Vec<u32>,
    // Where the slots are listed anew.
    spare: Vec<u32>,
    // For how many bodies in all there is room.
    capacity: usize,
    // Whether the list is up to date.
    flushed: bool,
}

impl Model for SlotList {
    ghost use Rattle.std.specs.Prelude.{cond, vec_capacity};
    ghost use Rattle.world_core_base.specs.Listing.{IsSlotList, Listing};

    ghost Value = { Listing };

    ghost view = { λ a. record { slots = a.slots.items; added = a.added.items; capacity = a.capacity; pending = cond a.flushed 0 1 } };

    ghost invariant = { λ a. IsSlotList a.slots.items a.capacity (vec_capacity a.slots) (vec_capacity a.spare) };
}

/// Notes the slot, if a body of the group is there. Answers whether there was room.
fn note(added: &mut Vec<u32>, group: Group, states: &[BodyState], slot: u32) -> bool
    ensures own { result ≡ true → is_of group (slice_index_or states.now slot nobody) ≡ true → IsIn added.new.items 0 slot }
    ensures others { (other : ℕ) → IsIn added.old.items 0 other → IsIn added.new.items 0 other }
{
    if !is_of_at(group, states, slot) {
        return true;
    }
    let room = added.len() < added.capacity();
    if room {
        let _ = added.push(slot);
    }
    room
}

/// Lists the slots of a group anew, where those of its bodies are listed or stand beside the list. The list before is
/// left in `spare`, for which there is room.
fn renew(
    slots: &mut Vec<u32>,
    added: &mut Vec<u32>,
    spare: &mut Vec<u32>,
    group: Group,
    states: &[BodyState],
)
    requires rising { AreSlotsRising slots.old.items }
    requires all { (slot : ℕ) → is_of group (slice_index_or states.now slot nobody) ≡ true → IsIn slots.old.items 0 slot ⊎ IsIn added.old.items 0 slot }
    requires room { length states.now ≤ vec_capacity spare.old }
    ensures items { slots.new.items ≡ places_from (is_of group) 0 states.now }
    ensures slots_capacity { vec_capacity spare.old ≤ vec_capacity slots.new }
    ensures spare_capacity { vec_capacity slots.old ≤ vec_capacity spare.new }
{
    sort_once(added);
    merge(spare, group, states, slots, added);
    added.clear();
    mem::swap(slots, spare);
}

impl SlotList {
    /// No slots, and no room.
    pub fn new(alloc: Global) -> SlotList
        ensures slots { result.slots ≡ [] }
        ensures added { result.added ≡ [] }
        ensures pending { result.pending ≡ 0 }
        ensures capacity { result.capacity ≡ 0 }
    {
        SlotList {
            slots: Vec::new(alloc),
            added: Vec::new(alloc),
            spare: Vec::new(alloc),
            capacity: 0,
            flushed: true,
        }
    }

    /// The slots of a group, with room for as many bodies as there are.
    pub fn from_states(
        alloc: Global,
        group: Group,
        states: &[BodyState],
    ) -> Result<SlotList, Refusal>
        requires { length states.now ≤ 2 ^ 32 }
        ensures slots { IfOk result (λ made. made.slots ≡ places_from (is_of group) 0 states.now) }
        ensures pending { IfOk result (λ made. made.pending ≡ 0) }
        ensures capacity { IfOk result (λ made. made.capacity ≡ length states.now) }
        ensures memory_only { IsOkUnless result Refusal.NoMemory }
    {
        let mut slots = Vec::with_capacity(alloc, states.len())?;
        list_group(&mut slots, group, states);
        Ok(SlotList {
            slots,
            added: Vec::with_capacity(alloc, states.len())?,
            spare: Vec::with_capacity(alloc, states.len())?,
            capacity: states.len(),
            flushed: true,
        })
    }

    /// A copy with room for n bodies.
    pub fn try_copy(&self, alloc: Global, n: usize) -> Result<SlotList, Refusal>
        ensures slots { IfOk result (λ copied. copied.slots ≡ self.now.slots) }
        ensures listed { IfOk result (λ copied. (is : TheState → Bool) (states : List TheState) → AreListed is states self.now → AreListed is states copied) }
        ensures pending { IfOk result (λ copied. copied.pending ≡ self.now.pending) }
        ensures capacity { IfOk result (λ copied. copied.capacity ≡ n) }
        ensures memory_only { IsOkUnless result Refusal.NoMemory }
    {
        Ok(SlotList {
            slots: copy_in_room(alloc, &self.slots, n)?,
            added: copy_in_room(alloc, &self.added, n)?,
            spare: Vec::with_capacity(alloc, n)?,
            capacity: n,
            flushed: self.flushed,
        })
    }

    /// The slots that are listed, ascending: those of the group, where nothing is put off.
    pub fn as_slice(&self) -> &[u32]
        ensures { result.now ≡ self.now.slots }
    {
        self.slots.as_slice()
    }

    /// Makes room for n bodies in all.
    pub fn reserve(&mut self, n: usize) -> Result<(), Refusal>
        ensures made { OnOk result (n ≤ self.new.capacity) }
        ensures slots { self.new.slots ≡ self.old.slots }
        ensures listed { (is : TheState → Bool) (states : List TheState) → AreListed is states self.old → AreListed is states self.new }
        ensures pending { self.new.pending ≡ self.old.pending }
        ensures capacity { self.old.capacity ≤ self.new.capacity }
        ensures memory_only { IsOkUnless result Refusal.NoMemory }
    {
        reserve_in_all(&mut self.slots, n)?;
        reserve_in_all(&mut self.added, n)?;
        reserve_in_all(&mut self.spare, n)?;
        self.capacity = self.capacity.max(n);
        Ok(())
    }

    /// Lists the slots of the group anew, of all bodies.
    pub fn list_anew(&mut self, group: Group, states: &[BodyState])
        requires few { length states.now ≤ 2 ^ 32 }
        requires room { length states.now ≤ self.old.capacity }
        ensures slots { self.new.slots ≡ places_from (is_of group) 0 states.now }
        ensures capacity { self.new.capacity ≡ self.old.capacity }
    {
        list_group(&mut self.slots, group, states);
        self.added.clear();
        self.flushed = true;
    }

    /// Lists the slot, where a body of the group is in it now, or takes it out: that is put off, but for where there is
    /// no room left to note it. Takes no memory.
    pub fn relist(&mut self, group: Group, states: &[BodyState], slot: u32)
        requires few { length states.now ≤ 2 ^ 32 }
        requires room { length states.now ≤ self.old.capacity }
        ensures relisted { IsRelisted (is_of group) states.now slot self.old self.new }
        ensures capacity { self.new.capacity ≡ self.old.capacity }
    {
        if note(&mut self.added, group, states, slot) {
            self.flushed = false;
        } else {
            self.list_anew(group, states);
        }
    }

    /// The same, where a body of the group was in the slot or not: where it is as it was, nothing is done.
    pub fn relist_changed(&mut self, group: Group, states: &[BodyState], slot: u32, was: bool)
        requires few { length states.now ≤ 2 ^ 32 }
        requires room { length states.now ≤ self.old.capacity }
        ensures listed { (before : List TheState) → AreSameBut slot before states.now → is_of group (slice_index_or before slot nobody) ≡ was → AreListed (is_of group) before self.old → AreListed (is_of group) states.now self.new }
        ensures capacity { self.new.capacity ≡ self.old.capacity }
    {
        if is_of_at(group, states, slot) != was {
            self.relist(group, states, slot);
        }
    }

    /// Brings the list up to date. It costs nothing where nothing is put off, and takes no memory.
    pub fn flush(&mut self, group: Group, states: &[BodyState])
        requires room { length states.now ≤ self.old.capacity }
        requires listed { AreListed (is_of group) states.now self.old }
        ensures slots { self.new.slots ≡ places_from (is_of group) 0 states.now }
        ensures pending { self.new.pending ≡ 0 }
        ensures capacity { self.new.capacity ≡ self.old.capacity }
    {
        if self.flushed {
            return;
        }
        renew(
            &mut self.slots,
            &mut self.added,
            &mut self.spare,
            group,
            states,
        );
        self.flushed = true;
    }
}
