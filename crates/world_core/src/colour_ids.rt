//! The ids of the constraints of each colour, as a plain world has them.

ghost use Rattle.std.specs.Prelude.{◌≡◌, ◌≤◌, ◌+◌, IfOk, length, map};
ghost use Rattle.std.specs.Result.{IsOkUnless};
ghost use Rattle.graph_colours.specs.Colours.{ids_of, list_at};
ghost use Rattle.plain_world.specs.KeptColours.{constraints_of};

use fixed_geom::Refusal;
use graph_colours::{Colours, Member, OVERFLOW};
use plain_world::Constraint;
use std::alloc::Global;

/// The ids of these members.
fn list_ids(alloc: Global, members: &[Member<Constraint>]) -> Result<Vec<Constraint>, Refusal>
    ensures ids { IfOk result (λ ids. ids.items ≡ map (λ m. m.id) members.now) }
    ensures memory_only { IsOkUnless result Refusal.NoMemory }
{
    let mut ids = Vec::with_capacity(alloc, members.len())?;
    for member in members {
        ids.push(member.id)?;
    }
    Ok(ids)
}

/// The constraints of a colour.
fn copy_colour(
    alloc: Global,
    colours: &Colours<Constraint>,
    colour: u8,
) -> Result<Vec<Constraint>, Refusal>
    requires { colour ≤ OVERFLOW }
    ensures ids { IfOk result (λ ids. ids.items ≡ map (λ m. m.id) (list_at colours.now.lists colour)) }
    ensures memory_only { IsOkUnless result Refusal.NoMemory }
{
    let members = colours.to_members(colour)?;
    list_ids(alloc, &members)
}

/// The constraints of each colour, those in the overflow last.
pub(crate) fn copy_ids(
    alloc: Global,
    colours: &Colours<Constraint>,
) -> Result<Vec<Vec<Constraint>>, Refusal>
    ensures ids { IfOk result (λ copied. constraints_of copied.items ≡ ids_of colours.now.lists) }
    ensures count { IfOk result (λ copied. length copied.items ≡ OVERFLOW + 1) }
    ensures memory_only { IsOkUnless result Refusal.NoMemory }
{
    colours.know_colouring();
    let mut copied = Vec::new(alloc);
    for colour in 0..OVERFLOW + 1 {
        copied.push(copy_colour(alloc, colours, colour)?)?;
    }
    Ok(copied)
}
