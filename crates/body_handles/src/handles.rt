//! Gives slots out and takes them back.

mod from_slot_entries;

ghost use Rattle.std.specs.Prelude.{◌≡◌, ◌+◌, ◌<◌, ◌≤◌, ◌↔◌, [], length, IsTrue, IfOk, IsOk, OnOk, OnErr};
ghost use Rattle.std.specs.Result.{IsOkUnless};
ghost use Rattle.body_handles.specs.SlotEntries.{lowest, generation_at, slot_entries_with, slot_entries_without, is_live, IsLive, IsGone};
ghost use Rattle.body_handles.specs.Calls.{Insert, Remove, after_call};

use crate::handle::Handle;
use crate::slot_table::{MAX_SLOTS, SlotEntry, generation_at, give_out, lowest_slot, take_back};
use fixed_geom::Refusal;
use std::alloc::Global;
use std::marker::Model;

/// The slots of one kind of item. Contracts see the entries by slot (`slot_entries`) and how many more slots may be
/// added with no memory (`room`).
#[derive(Drop)]
pub struct Handles {
    slot_entries: Vec<SlotEntry>,
    // No slot below this one is open, so that a search begins here.
    first_open: usize,
}

impl Model for Handles {
    ghost use Rattle.std.specs.Prelude.{◌-◌, vec_capacity, vec_len};
    ghost use Rattle.body_handles.specs.SlotEntries.{Table, IsTable};

    ghost Value = { Table };

    ghost view = { λ a. record { slot_entries = a.slot_entries.items; room = vec_capacity a.slot_entries - vec_len a.slot_entries } };

    ghost invariant = { λ a. IsTable a.slot_entries.items a.first_open };
}

impl Handles {
    /// No slot was used yet.
    pub fn new(alloc: Global) -> Self
        ensures { result.slot_entries ≡ [] }
    {
        Handles {
            slot_entries: Vec::new(alloc),
            first_open: 0,
        }
    }

    /// Makes room for one more slot. Refused for want of memory only.
    pub fn reserve_one(&mut self) -> Result<(), Refusal>
        ensures ok { OnOk result (1 ≤ self.new.room) }
        ensures enough { 1 ≤ self.old.room → IsOk result }
        ensures room { self.old.room ≤ self.new.room }
        ensures kept { self.new.slot_entries ≡ self.old.slot_entries }
        ensures memory_only { IsOkUnless result Refusal.NoMemory }
    {
        self.slot_entries.reserve(1)?;
        Ok(())
    }

    /// Gives out the lowest slot that is free and not worn out. Refused as `TooMany` where there is none below
    /// `MAX_SLOTS`.
    pub fn insert(&mut self) -> Result<Handle, Refusal>
        requires { 1 ≤ self.old.room }
        ensures slot { IfOk result (λ h. h.slot ≡ lowest self.old.slot_entries) }
        ensures generation { IfOk result (λ h. h.generation ≡ generation_at self.old.slot_entries (lowest self.old.slot_entries)) }
        ensures given_out { IfOk result (λ h. self.new.slot_entries ≡ slot_entries_with self.old.slot_entries (lowest self.old.slot_entries)) }
        ensures call { self.new.slot_entries ≡ after_call Insert self.old.slot_entries }

        ensures live { IfOk result (λ h. IsLive self.new.slot_entries h) }
        ensures slot_below { IfOk result (λ h. h.slot < MAX_SLOTS) }
        ensures positive { IfOk result (λ h. 1 ≤ h.generation) }
        ensures few { length self.new.slot_entries ≤ MAX_SLOTS }
        ensures room { self.old.room ≤ self.new.room + 1 }

        ensures full { (result ≡ Err Refusal.TooMany) ↔ (MAX_SLOTS ≤ lowest self.old.slot_entries) }
        ensures full_only { IsOkUnless result Refusal.TooMany }
        ensures err { OnErr result (self.new.slot_entries ≡ self.old.slot_entries) }
    {
        let slot = lowest_slot(&self.slot_entries, self.first_open);
        if slot >= MAX_SLOTS {
            return Err(Refusal::TooMany);
        }
        let generation = generation_at(&self.slot_entries, slot);
        give_out(&mut self.slot_entries, slot, generation);
        self.first_open = slot + 1;
        Ok(Handle {
            slot: slot as u32,
            generation,
        })
    }

    /// Takes a live handle back: its slot is free, at the next generation.
    pub fn remove(&mut self, handle: Handle)
        requires { IsLive self.old.slot_entries handle }
        ensures taken_back { self.new.slot_entries ≡ slot_entries_without self.old.slot_entries handle }
        ensures call { self.new.slot_entries ≡ after_call (Remove handle) self.old.slot_entries }
        ensures gone { IsGone self.new.slot_entries handle }
        ensures slots { length self.new.slot_entries ≡ length self.old.slot_entries }
        ensures room { self.new.room ≡ self.old.room }
    {
        take_back(&mut self.slot_entries, handle);
        self.first_open = self.first_open.min(handle.slot as usize);
    }

    /// Whether the handle names something: it was given out and not taken back since.
    pub fn is_live(&self, handle: Handle) -> bool
        ensures live { IsTrue result ↔ IsLive self.now.slot_entries handle }
        ensures value { result ≡ is_live self.now.slot_entries handle }
    {
        match self.slot_entries.get(handle.slot as usize) {
            Some(entry) => entry.live && entry.generation == handle.generation,
            None => false,
        }
    }

    /// The slot that the next `insert` gives out, where one can be given out.
    pub fn next_slot(&self) -> u32
        requires { lowest self.now.slot_entries < MAX_SLOTS }
        ensures { result ≡ lowest self.now.slot_entries }
    {
        lowest_slot(&self.slot_entries, self.first_open) as u32
    }

    /// Whether no slot can be given out.
    pub fn is_full(&self) -> bool
        ensures { IsTrue result ↔ (MAX_SLOTS ≤ lowest self.now.slot_entries) }
    {
        lowest_slot(&self.slot_entries, self.first_open) >= MAX_SLOTS
    }

    /// How many slots were ever given out.
    pub fn slots(&self) -> usize
        ensures { result ≡ length self.now.slot_entries }
    {
        self.slot_entries.len()
    }

    /// The slots, by number.
    pub fn slot_entries(&self) -> &[SlotEntry]
        ensures { result.now ≡ self.now.slot_entries }
    {
        self.slot_entries.as_slice()
    }

    /// A copy of its own, with no promise on room. Refused for want of memory only.
    pub fn try_copy(&self) -> Result<Handles, Refusal>
        ensures copy { IfOk result (λ c. c.slot_entries ≡ self.now.slot_entries) }
        ensures memory_only { IsOkUnless result Refusal.NoMemory }
    {
        let mut slot_entries = Vec::new(*self.slot_entries.allocator());
        slot_entries.extend_from_slice(&self.slot_entries)?;
        Ok(Handles {
            slot_entries,
            first_open: self.first_open,
        })
    }
}
