//! The slots of the awake movers.

ghost use Rattle.std.specs.Prelude.{◌≡◌, ◌++◌, ◌∷◌, [], cond, IfOk, OnOk};
ghost use Rattle.std.specs.Result.{IsOkUnless};
ghost use Rattle.sleep_wake.specs.Acting.{is_mover_awake};
ghost use Rattle.sleep_wake.specs.AwakeSlots.{AreAwakeSlots};

use crate::movers_in_islands::is_awake;
use fixed_geom::Refusal;
use islands::Islands;
use std::alloc::Global;

/// Adds the slot, if the mover there is awake.
fn add_awake(slots: &mut Vec<u32>, islands: &Islands, slot: u32) -> Result<(), Refusal>
    ensures items { OnOk result (slots.new.items ≡ slots.old.items ++ cond (is_mover_awake islands.now.labels slot) (slot ∷ []) []) }
    ensures memory_only { IsOkUnless result Refusal.NoMemory }
{
    if is_awake(islands, slot) {
        slots.push(slot)?;
    }
    Ok(())
}

/// Lists the slots of the awake movers, ascending.
pub(crate) fn list_awake(alloc: Global, islands: &Islands) -> Result<Vec<u32>, Refusal>
    ensures awake { IfOk result (λ slots. AreAwakeSlots islands.now.labels slots.items) }
    ensures memory_only { IsOkUnless result Refusal.NoMemory }
{
    let mut slots = Vec::new(alloc);
    for slot in 0..islands.slots() {
        add_awake(&mut slots, islands, slot as u32)?;
    }
    Ok(slots)
}
