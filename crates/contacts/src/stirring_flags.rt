//! Flags of the bodies that may stir, by slot, and the list of the slots whose flag is set.

ghost use Rattle.std.specs.Prelude.{◌≡◌, All, IsTrue, false, length, replicate, true};
ghost use Rattle.std.specs.Result.{IsOkUnless};
ghost use Rattle.contacts.specs.Stirring.{AreFlagsListed, AreQuiet, is_flagged, one_flagged};
ghost use Rattle.packed_sets.specs.Marks.{AreListed};

use crate::collide::Collide;
use crate::fates::ShapesById;
use crate::forbidden::ForbiddenPairs;
use contacts_base::ContactEntry;
use fixed_geom::Refusal;

/// Whether the body in a slot may stir.
fn is_flagged(flags: &[bool], slot: u32) -> bool
    ensures { result ≡ is_flagged flags.now slot }
{
    match flags.get(slot as usize) {
        None => true,
        Some(flag) => *flag,
    }
}

/// Whether one of the bodies of a contact may stir.
pub(crate) fn is_one_flagged(flags: &[bool], entry: &ContactEntry) -> bool
    ensures { result ≡ one_flagged flags.now entry.now }
{
    is_flagged(flags, entry.key.first.slot) || is_flagged(flags, entry.key.second.slot)
}

/// Whether all these slots are flagged.
fn are_flagged(flags: &[bool], slots: &[u32]) -> bool
    ensures { IsTrue result → All (λ slot. is_flagged flags.now slot ≡ true) slots.now }
{
    for place in 0..slots.len() {
        if !is_flagged(flags, slots[place]) {
            return false;
        }
    }
    true
}

/// Whether the flags have all bodies that stir, and all slots that are marked.
pub(crate) fn are_complete<S: ShapesById, F: ForbiddenPairs>(
    flags: &[bool],
    collide: &Collide<'_, S, F>,
) -> bool
    requires { AreListed collide.now.marks.now collide.now.marked.now }
    ensures { IsTrue result → AreQuiet flags.now collide.now.marks.now (S.proxies collide.now.shapes.now) }
{
    if flags.len() > collide.marks.len() {
        return false;
    }
    if !are_flagged(flags, collide.marked) {
        return false;
    }
    if !are_flagged(flags, collide.shapes.awake()) {
        return false;
    }
    are_flagged(flags, collide.shapes.carried())
}

/// Flags a slot that has a flag, if that isn't set.
fn flag_slot(flags: &mut Vec<bool>, flagged: &mut Vec<u32>, slot: u32) -> Result<(), Refusal>
    requires { AreFlagsListed flags.old.items flagged.old.items }
    ensures flagged { AreFlagsListed flags.new.items flagged.new.items }
    ensures memory_only { IsOkUnless result Refusal.NoMemory }
{
    if !is_flagged(flags, slot) {
        flagged.push(slot)?;
        flags[slot as usize] = true;
    }
    Ok(())
}

/// Flags these slots.
fn flag(flags: &mut Vec<bool>, flagged: &mut Vec<u32>, slots: &[u32]) -> Result<(), Refusal>
    requires { AreFlagsListed flags.old.items flagged.old.items }
    ensures flagged { AreFlagsListed flags.new.items flagged.new.items }
    ensures memory_only { IsOkUnless result Refusal.NoMemory }
{
    for place in 0..slots.len() {
        flag_slot(flags, flagged, slots[place])?;
    }
    Ok(())
}

/// Flags the slots of all bodies that stir, and those that are marked.
pub(crate) fn flag_stirring<S: ShapesById, F: ForbiddenPairs>(
    flags: &mut Vec<bool>,
    flagged: &mut Vec<u32>,
    collide: &Collide<'_, S, F>,
) -> Result<(), Refusal>
    requires { AreFlagsListed flags.old.items flagged.old.items }
    ensures flagged { AreFlagsListed flags.new.items flagged.new.items }
    ensures memory_only { IsOkUnless result Refusal.NoMemory }
{
    flag(flags, flagged, collide.shapes.awake())?;
    flag(flags, flagged, collide.shapes.carried())?;
    flag(flags, flagged, collide.marked)
}

/// Takes the flags of these slots away, which are all that are flagged.
fn unflag(flags: &mut Vec<bool>, flagged: &[u32])
    requires { AreListed flags.old.items flagged.now }
    ensures { flags.new.items ≡ replicate (length flags.old.items) false }
{
    for place in 0..flagged.len() {
        flags[flagged[place] as usize] = false;
    }
}

/// Gives each slot below `slots` a flag that isn't set, in a time that goes by those that are set, where there are as
/// many flags as that.
pub(crate) fn clear_flags(
    flags: &mut Vec<bool>,
    flagged: &mut Vec<u32>,
    slots: usize,
) -> Result<(), Refusal>
    requires { AreFlagsListed flags.old.items flagged.old.items }
    ensures flagged { AreFlagsListed flags.new.items flagged.new.items }
    ensures memory_only { IsOkUnless result Refusal.NoMemory }
{
    unflag(flags, flagged);
    flagged.clear();
    flags.resize(slots, false)?;
    Ok(())
}
