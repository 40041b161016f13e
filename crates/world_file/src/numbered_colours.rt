//! The colours of a world's constraints by their numbers, as a saved world tells them with each joint and contact.

ghost use Rattle.std.specs.Prelude.{◌≡◌, ◌≤◌, ◌+◌, ℕ, Some, cond, length, nat_eq, IfOk, OnOk};
ghost use Rattle.std.specs.Result.{IsOkUnless};
ghost use Rattle.std.specs.HashMap.{get};
ghost use Rattle.plain_world.specs.Constraints.{constraint_number};
ghost use Rattle.plain_world.specs.declared.constraint.Constraint.TheVariants.{Joint};
ghost use Rattle.graph_colours.specs.declared.limits.TheConstants.{COLOURS as most_colours};
ghost use Rattle.world_file.specs.Taken.{colour_numbered, has_number};

use fixed_geom::Refusal;
use graph_colours::{ConstraintId, OVERFLOW};
use plain_world::{Constraint, Plain};
use std::alloc::Global;
use std::collections::HashMap;

/// Puts down the colour of these constraints, by their numbers.
fn put_colour(
    by_number: &mut HashMap<u128, u8>,
    ids: &[Constraint],
    colour: u8,
) -> Result<(), Refusal>
    ensures put { OnOk result ((number : ℕ) → get nat_eq by_number.new number ≡ cond (has_number number ids.now) (Some colour) (get nat_eq by_number.old number)) }
    ensures memory_only { IsOkUnless result Refusal.NoMemory }
{
    for id in ids {
        by_number.insert(id.number(), colour)?;
    }
    Ok(())
}

/// The colours of a world's constraints by their numbers.
pub fn colours_by_number(alloc: Global, plain: &Plain) -> Result<HashMap<u128, u8>, Refusal>
    requires few { length plain.now.colours ≤ most_colours + 1 }
    ensures colours { IfOk result (λ by_number. (number : ℕ) → get nat_eq by_number number ≡ colour_numbered number plain.now.colours) }
    ensures memory_only { IsOkUnless result Refusal.NoMemory }
{
    let mut by_number = HashMap::new(alloc);
    let mut left = OVERFLOW + 1;
    while left > 0 {
        left -= 1;
        put_colour(&mut by_number, plain.members(left as usize), left)?;
    }
    Ok(by_number)
}

/// The colour of the constraint of this number, if it has one.
pub fn colour_at(by_number: &HashMap<u128, u8>, number: u128) -> Option<u8>
    ensures { result ≡ get nat_eq by_number.now number }
{
    by_number.get(&number).copied()
}

/// The number of the joint of this generation in a slot.
pub fn joint_number(slot: usize, generation: u32) -> u128
    ensures { result ≡ constraint_number (Joint (record { slot = slot; generation = generation })) }
{
    slot as u128 * (1 << 32) + u128::from(generation)
}
