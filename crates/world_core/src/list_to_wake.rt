//! Who wakes as constraints begin and end: the movers of the sleeping islands that these are of.

ghost use Rattle.std.specs.Prelude.{◌≡◌, IfOk, OnOk};
ghost use Rattle.std.specs.List.Sorted.{IsStrictlyIncreasing};
ghost use Rattle.std.specs.Result.{IsOkUnless};
ghost use Rattle.plain_world.specs.Constraints.{constraint_number};
ghost use Rattle.sleep_wake.specs.Acting.{IsConsistent};
ghost use Rattle.world_core.specs.Waking.{HasName, HasSleepers, IsExtended, OfAll, OfBoth, movers_in};

use crate::waking_islands::list_movers;
use fixed_geom::Refusal;
use graph_colours::Movers;
use islands::sleeping_name;
use plain_world::Constraint;
use sleep_wake::{Change, Sets, push_some, sort_once};
use std::alloc::Global;

/// Adds the name of the island of the mover in the slot, if it sleeps.
fn push_name(names: &mut Vec<u32>, sets: &Sets<Constraint>, slot: u32) -> Result<(), Refusal>
    ensures name { OnOk result (HasName sets.now.acting.labels names.new.items slot) }
    ensures extended { OnOk result (IsExtended names.old.items names.new.items) }
    ensures memory_only { IsOkUnless result Refusal.NoMemory }
{
    push_some(names, sleeping_name(sets.label_of(slot)))?;
    Ok(())
}

/// Adds the names of the islands of a constraint's movers, those that sleep.
fn push_names(names: &mut Vec<u32>, sets: &Sets<Constraint>, movers: Movers) -> Result<(), Refusal>
    ensures names { OnOk result (OfBoth (HasName sets.now.acting.labels names.new.items) movers) }
    ensures extended { OnOk result (IsExtended names.old.items names.new.items) }
    ensures memory_only { IsOkUnless result Refusal.NoMemory }
{
    push_name(names, sets, movers.first)?;
    match movers.second {
        None => Ok(()),
        Some(second) => push_name(names, sets, second),
    }
}

/// The movers of the constraint that begins or ends.
fn movers_in(change: Change<Constraint>) -> Movers
    ensures { result ≡ movers_in change }
{
    match change {
        Change::Begin(member) => member.movers,
        Change::End(member) => member.movers,
    }
}

/// Adds the names of the sleeping islands of the movers of what begins and ends.
fn push_names_of_all(
    names: &mut Vec<u32>,
    sets: &Sets<Constraint>,
    changes: &[Change<Constraint>],
) -> Result<(), Refusal>
    ensures names { OnOk result (OfAll (HasName sets.now.acting.labels names.new.items) changes.now) }
    ensures memory_only { IsOkUnless result Refusal.NoMemory }
{
    for place in 0..changes.len() {
        push_names(names, sets, movers_in(changes[place]))?;
    }
    Ok(())
}

/// The names of the sleeping islands of the movers of what begins and ends, ascending, each once.
fn list_names_of_changes(
    alloc: Global,
    sets: &Sets<Constraint>,
    changes: &[Change<Constraint>],
) -> Result<Vec<u32>, Refusal>
    ensures names { IfOk result (λ names. OfAll (HasName sets.now.acting.labels names.items) changes.now) }
    ensures memory_only { IsOkUnless result Refusal.NoMemory }
{
    let mut names = Vec::new(alloc);
    push_names_of_all(&mut names, sets, changes)?;
    sort_once(&mut names);
    Ok(names)
}

/// The slots of the movers that wake as these constraints begin and end, ascending: those of the sleeping islands of
/// the constraints' movers. It costs by the constraints and by who wakes, and takes no memory where nobody does.
pub(crate) fn list_sleepers(
    alloc: Global,
    sets: &Sets<Constraint>,
    changes: &[Change<Constraint>],
) -> Result<Vec<u32>, Refusal>
    requires { IsConsistent constraint_number sets.now.acting }
    ensures sleepers { IfOk result (λ slots. OfAll (HasSleepers sets.now.acting.labels slots.items) changes.now) }
    ensures rising { IfOk result (λ slots. IsStrictlyIncreasing slots.items) }
    ensures memory_only { IsOkUnless result Refusal.NoMemory }
{
    let names = list_names_of_changes(alloc, sets, changes)?;
    let mut slots = list_movers(alloc, sets, &names)?;
    sort_once(&mut slots);
    Ok(slots)
}
