//! The list of slots: which one is given out next, and at which generation.

ghost use Rattle.std.specs.Prelude.{◌≡◌, ◌≤◌, ◌<◌, ◌-◌, All, length, vec_len, vec_capacity};
ghost use Rattle.body_handles.specs.SlotEntries.{is_open, lowest, generation_at, slot_entries_with, slot_entries_without, IsLive, IsSlotEntry};

use crate::handle::Handle;

/// How many slots there are at most.
pub const MAX_SLOTS: usize = 65_536;

/// The generation at which a slot is worn out.
pub const WORN_OUT: u32 = u32::MAX;

/// One slot: at which generation it is given out now, or will be next.
#[derive(Clone, Copy, Debug, PartialEq, Eq)]
pub struct SlotEntry {
    /// 1 to `WORN_OUT`; at the last one the slot is worn out.
    pub generation: u32,
    /// Whether the slot is given out.
    pub live: bool,
}

impl SlotEntry {
    // Whether the slot can be given out: it is free and isn't worn out.
    fn is_open(&self) -> bool
        ensures { result ≡ is_open self.now }
    {
        !self.live && self.generation < WORN_OUT
    }
}

// The lowest slot that can be given out, a new one where all are taken or worn out. None below `start` is open.
pub(crate) fn lowest_slot(slot_entries: &[SlotEntry], start: usize) -> usize
    requires { start ≤ lowest slot_entries.now }
    ensures value { result ≡ lowest slot_entries.now }
    ensures bound { result ≤ length slot_entries.now }
{
    for slot in start..slot_entries.len() {
        if slot_entries[slot].is_open() {
            return slot;
        }
    }
    slot_entries.len()
}

// The generation at which a slot is given out: 1 for a new one.
pub(crate) fn generation_at(slot_entries: &[SlotEntry], slot: usize) -> u32
    ensures { result ≡ generation_at slot_entries.now slot }
{
    match slot_entries.get(slot) {
        Some(entry) => entry.generation,
        None => 1,
    }
}

// Notes that a slot is given out, a new one where it has no entry yet.
pub(crate) fn give_out(slot_entries: &mut Vec<SlotEntry>, slot: usize, generation: u32)
    requires room { 1 ≤ vec_capacity slot_entries.old - vec_len slot_entries.old }
    requires generation { generation ≡ generation_at slot_entries.old.items slot }
    ensures slot_entries { slot_entries.new.items ≡ slot_entries_with slot_entries.old.items slot }
    ensures capacity { vec_capacity slot_entries.old ≤ vec_capacity slot_entries.new }
{
    let entry = SlotEntry {
        generation,
        live: true,
    };
    if slot < slot_entries.len() {
        slot_entries[slot] = entry;
    } else {
        let _ = slot_entries.push(entry);
    }
}

// Frees the slot of a live handle, at its next generation.
pub(crate) fn take_back(slot_entries: &mut Vec<SlotEntry>, handle: Handle)
    requires each { All IsSlotEntry slot_entries.old.items }
    requires live { IsLive slot_entries.old.items handle }
    ensures slot_entries { slot_entries.new.items ≡ slot_entries_without slot_entries.old.items handle }
    ensures capacity { vec_capacity slot_entries.new ≡ vec_capacity slot_entries.old }
{
    let entry = &mut slot_entries[handle.slot as usize];
    entry.generation += 1;
    entry.live = false;
}

/// The law of the limits: the numbers that definitions take from the code, in digits. The function does nothing; its
/// contract is the law.
pub fn limits_in_digits()
    ensures slots { MAX_SLOTS ≡ 65536 }
    ensures worn_out { WORN_OUT ≡ 4294967295 }
{}
