//! Handles from a list of slot entries, as a saved world has it.

ghost use Rattle.std.specs.Prelude.{◌≡◌, ◌≤◌, All, IfOk, length};
ghost use Rattle.std.specs.Result.{IsOkUnless};
ghost use Rattle.body_handles.specs.SlotEntries.{IsSlotEntry};

use crate::handles::Handles;
use crate::slot_table::{MAX_SLOTS, SlotEntry, lowest_slot};
use fixed_geom::Refusal;
use std::alloc::Global;

impl Handles {
    /// The handles of which these are the entries by slot. Those that are free are given out again lowest first, each
    /// at the generation that it has here. Costs by their number. Refused for want of memory only.
    pub fn from_slot_entries(alloc: Global, slot_entries: &[SlotEntry]) -> Result<Handles, Refusal>
        requires each { All IsSlotEntry slot_entries.now }
        requires few { length slot_entries.now ≤ MAX_SLOTS }
        ensures slot_entries { IfOk result (λ made. made.slot_entries ≡ slot_entries.now) }
        ensures memory_only { IsOkUnless result Refusal.NoMemory }
    {
        let mut kept = Vec::new(alloc);
        kept.extend_from_slice(slot_entries)?;
        let first_open = lowest_slot(slot_entries, 0);
        Ok(Handles {
            slot_entries: kept,
            first_open,
        })
    }
}
