//! Marks by slot: which slots are marked, and a list of those that are, so that what looks at the marked ones alone,
//! and what takes all marks away, costs by their number.

ghost use Rattle.std.specs.Prelude.{◌≡◌, ◌∷◌, ◌++◌, ◌<◌, ◌≤◌, [], false, true, cond, length, replicate, slice_index_or, slice_set, vec_capacity, vec_len, IfOk, OnErr, OnOk};
ghost use Rattle.std.specs.Result.{IsOkUnless};
ghost use Rattle.packed_sets.specs.Marks.{AreListed, IsMarks};

use crate::items::MAX_ITEMS;
use crate::sets::MAX_SETS;
use fixed_geom::Refusal;
use std::alloc::Global;
use std::marker::Model;

/// How many slots can have marks.
pub const MAX_MARKS: usize = 4_294_967_296;

/// A mark for each slot. Contracts see for each slot whether it is marked.
#[derive(Drop)]
pub struct Marks {
    flags: Vec<bool>,
    // The marked slots, each once, with room for all.
    slots: Vec<u32>,
}

impl Model for Marks {
    ghost use Rattle.std.specs.Prelude.{Bool, List, vec_capacity};
    ghost use Rattle.packed_sets.specs.Marks.{IsMarks};

    ghost Value = { List Bool };

    ghost view = { λ a. a.flags.items };

    ghost invariant = { λ a. IsMarks a.flags.items a.slots.items (vec_capacity a.slots) };
}

/// Whether the slot is marked, as one beyond the flags is.
fn flag_of(flags: &[bool], slot: u32) -> bool
    ensures { result ≡ slice_index_or flags.now slot true }
{
    match flags.get(slot as usize) {
        Some(flag) => *flag,
        None => true,
    }
}

/// Adds a slot behind the others, for which there is room.
fn push_slot(slots: &mut Vec<u32>, slot: u32)
    requires { vec_len slots.old < vec_capacity slots.old }
    ensures items { slots.new.items ≡ slots.old.items ++ slot ∷ [] }
    ensures capacity { vec_capacity slots.old ≤ vec_capacity slots.new }
{
    let _ = slots.push(slot);
}

/// Marks a slot that isn't marked.
fn mark_new(flags: &mut Vec<bool>, slots: &mut Vec<u32>, slot: u32)
    requires kept { IsMarks flags.old.items slots.old.items (vec_capacity slots.old) }
    requires unmarked { slice_index_or flags.old.items slot true ≡ false }
    ensures flags { flags.new.items ≡ slice_set flags.old.items slot true }
    ensures kept { IsMarks flags.new.items slots.new.items (vec_capacity slots.new) }
{
    flags[slot as usize] = true;
    push_slot(slots, slot);
}

/// Marks a slot, if it isn't marked.
fn mark_in(flags: &mut Vec<bool>, slots: &mut Vec<u32>, slot: u32)
    requires { IsMarks flags.old.items slots.old.items (vec_capacity slots.old) }
    ensures flags { flags.new.items ≡ slice_set flags.old.items slot true }
    ensures kept { IsMarks flags.new.items slots.new.items (vec_capacity slots.new) }
{
    if !flag_of(flags, slot) {
        mark_new(flags, slots, slot);
    }
}

/// Takes the marks of these slots away, which are all that are marked.
fn unmark_all(flags: &mut Vec<bool>, slots: &[u32])
    requires { AreListed flags.old.items slots.now }
    ensures { flags.new.items ≡ replicate (length flags.old.items) false }
{
    for place in 0..slots.len() {
        flags[slots[place] as usize] = false;
    }
}

impl Marks {
    /// No slots.
    pub fn new(alloc: Global) -> Marks
        ensures { result ≡ [] }
    {
        Marks {
            flags: Vec::new(alloc),
            slots: Vec::new(alloc),
        }
    }

    /// So many slots, each marked.
    pub fn all_marked(alloc: Global, count: usize) -> Result<Marks, Refusal>
        ensures marked { IfOk result (λ marks. marks ≡ replicate count true) }
        ensures memory_only { IsOkUnless result Refusal.NoMemory }
    {
        let mut marks = Marks::new(alloc);
        for _ in 0..count {
            marks.grow()?;
        }
        Ok(marks)
    }

    /// How many slots have a mark or none.
    pub fn len(&self) -> usize
        ensures { result ≡ length self.now }
    {
        self.flags.len()
    }

    /// Adds a slot, which is marked. Refused 1 where memory is wanting, or there are [`MAX_MARKS`] slots.
    pub fn grow(&mut self) -> Result<(), Refusal>
        ensures grown { OnOk result (self.new ≡ self.old ++ true ∷ []) }
        ensures refused { OnErr result (self.new ≡ self.old) }
        ensures memory_only { IsOkUnless result Refusal.NoMemory }
    {
        let slot = self.flags.len();
        if slot >= MAX_MARKS {
            return Err(Refusal::NoMemory);
        }
        self.slots.reserve(slot + 1 - self.slots.len())?;
        self.flags.push(true)?;
        push_slot(&mut self.slots, slot as u32);
        Ok(())
    }

    /// Marks a slot. Takes no memory.
    pub fn mark(&mut self, slot: u32)
        ensures { self.new ≡ slice_set self.old slot true }
    {
        mark_in(&mut self.flags, &mut self.slots, slot);
    }

    /// Marks a slot where it is wanted. Takes no memory.
    pub fn mark_if(&mut self, slot: u32, wanted: bool)
        ensures { self.new ≡ cond wanted (slice_set self.old slot true) self.old }
    {
        if wanted {
            self.mark(slot);
        }
    }

    /// Whether a slot is marked. One that has no mark here counts as marked.
    pub fn is_marked(&self, slot: u32) -> bool
        ensures { result ≡ slice_index_or self.now slot true }
    {
        flag_of(&self.flags, slot)
    }

    /// For each slot whether it is marked.
    pub fn flags(&self) -> &[bool]
        ensures { result.now ≡ self.now }
    {
        self.flags.as_slice()
    }

    /// The marked slots, each once.
    pub fn slots(&self) -> &[u32]
        ensures listed { AreListed self.now result.now }
    {
        self.slots.as_slice()
    }

    /// Takes all marks away, in a time that goes by their number.
    pub fn clear(&mut self)
        ensures { self.new ≡ replicate (length self.old) false }
    {
        unmark_all(&mut self.flags, &self.slots);
        self.slots.clear();
    }

    /// A copy.
    pub fn try_copy(&self) -> Result<Marks, Refusal>
        ensures copy { IfOk result (λ copied. copied ≡ self.now) }
        ensures memory_only { IsOkUnless result Refusal.NoMemory }
    {
        let alloc = *self.flags.allocator();
        let flags = Vec::from_slice(alloc, self.flags.as_slice())?;
        let mut slots = Vec::with_capacity(alloc, flags.len())?;
        slots.extend_from_slice(&self.slots)?;
        Ok(Marks { flags, slots })
    }
}

/// The law of the limits: the numbers that definitions take from the code, in digits. The function does nothing; its
/// contract is the law.
pub fn limits_in_digits()
    ensures marks { MAX_MARKS ≡ 4294967296 }
    ensures sets { MAX_SETS ≡ 4294967296 }
    ensures items { MAX_ITEMS ≡ 4294967295 }
{}
