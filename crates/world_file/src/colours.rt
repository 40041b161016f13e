//! The colours of joints and contacts.

ghost use Rattle.std.specs.Prelude.{◌≡◌, ◌≤◌, ◌+◌, ◌++◌, ◌∷◌, [], ℕ, false, nat_eq, length, map, slice_index_or, IfErr, IfOk, OnOk};
ghost use Rattle.std.specs.Result.{IsOkUnless};
ghost use Rattle.std.specs.List.{list_all};
ghost use Rattle.std.specs.HashMap.{get};
ghost use Rattle.graph_colours.specs.declared.limits.TheConstants.{COLOURS as most_colours};
ghost use Rattle.plain_world.specs.KeptColours.{constraints_of};
ghost use Rattle.world_file_base.specs.declared.clause.Broken.TheVariants.{NoMemory};
ghost use Rattle.world_file.specs.Files.{contact_colours, joint_colours};
ghost use Rattle.world_file.specs.Fitting.{share_no_mover, coloured, colours_below, has_colour, ids_below, ids_coloured};
ghost use Rattle.world_file.specs.Taken.{
  AreTakenToo,
  IsTakenToo,
  IsTieTaken,
  contact_colours_by,
  is_mover_taken,
  is_unshared,
  joint_colours_by,
};

use crate::numbered_colours::{colour_at, colours_by_number, joint_number};
use crate::ties::Tie;
use body_handles::SlotEntry;
use contacts_base::ContactEntry;
use fixed_geom::Refusal;
use graph_colours::{ConstraintId, Movers, OVERFLOW};
use plain_world::{Constraint, Plain};
use std::alloc::Global;
use std::collections::HashMap;
use world_file_base::Broken;

/// Whether a tie has this colour.
fn has_colour(tie: Tie, colour: u8) -> bool
    ensures { result ≡ has_colour colour tie.colour }
{
    match tie.colour {
        Some(other) => other == colour,
        None => false,
    }
}

/// Makes a list of slots at least so long.
fn grow(used: &mut Vec<bool>, slots: usize) -> Result<(), Broken>
    ensures same { OnOk result ((s : ℕ) → slice_index_or used.new.items s false ≡ slice_index_or used.old.items s false) }
    ensures long { OnOk result (slots ≤ length used.new.items) }
    ensures memory { IfErr result (λ e. e ≡ NoMemory) }
{
    let slots = slots.max(used.len());
    used.resize(slots, false)?;
    Ok(())
}

/// Takes a slot.
fn take_slot(used: &mut Vec<bool>, slot: u32) -> Result<(), Broken>
    ensures taken { OnOk result (IsTakenToo slot used.old.items used.new.items) }
    ensures memory { IfErr result (λ e. e ≡ NoMemory) }
{
    let place = slot as usize;
    grow(used, place + 1)?;
    used[place] = true;
    Ok(())
}

fn is_slot_taken(used: &[bool], slot: u32) -> bool
    ensures { result ≡ slice_index_or used.now slot false }
{
    match used.get(slot as usize) {
        Some(taken) => *taken,
        None => false,
    }
}

/// Whether one of the movers is taken.
fn is_mover_taken(used: &[bool], movers: Movers) -> bool
    ensures { result ≡ is_mover_taken used.now movers }
{
    match movers.second {
        Some(second) => is_slot_taken(used, movers.first) || is_slot_taken(used, second),
        None => is_slot_taken(used, movers.first),
    }
}

/// Takes the movers.
fn take_movers(used: &mut Vec<bool>, movers: Movers) -> Result<(), Broken>
    ensures taken { OnOk result (AreTakenToo movers used.old.items used.new.items) }
    ensures memory { IfErr result (λ e. e ≡ NoMemory) }
{
    take_slot(used, movers.first)?;
    if let Some(second) = movers.second {
        take_slot(used, second)?;
    }
    Ok(())
}

/// Takes the movers of a tie of the colour, and answers whether none of them was taken.
fn take_tie(used: &mut Vec<bool>, tie: Tie, colour: u8) -> Result<bool, Broken>
    ensures unshared { IfOk result (λ unshared. unshared ≡ is_unshared used.old.items colour tie) }
    ensures taken { OnOk result (IsTieTaken colour tie used.old.items used.new.items) }
    ensures memory { IfErr result (λ e. e ≡ NoMemory) }
{
    if !has_colour(tie, colour) {
        return Ok(true);
    }
    let is_shared = is_mover_taken(used, tie.member.movers);
    take_movers(used, tie.member.movers)?;
    Ok(!is_shared)
}

/// Whether no two ties of the colour share a mover.
fn is_colour_apart(alloc: Global, ties: &[Tie], colour: u8) -> Result<bool, Broken>
    ensures apart { IfOk result (λ apart. apart ≡ share_no_mover (coloured ties.now colour)) }
    ensures memory { IfErr result (λ e. e ≡ NoMemory) }
{
    let mut used = Vec::new(alloc);
    let mut apart = true;
    let mut left = ties.len();
    while left > 0 {
        left -= 1;
        let is_unshared = take_tie(&mut used, ties[left], colour)?;
        apart = is_unshared && apart;
    }
    Ok(apart)
}

/// Whether no two ties of one colour share a mover. Those in the overflow may share theirs.
pub(crate) fn are_apart(alloc: Global, ties: &[Tie]) -> Result<bool, Broken>
    ensures apart { IfOk result (λ apart. apart ≡ list_all share_no_mover (colours_below ties.now most_colours)) }
    ensures memory { IfErr result (λ e. e ≡ NoMemory) }
{
    let mut apart = true;
    for colour in 0..OVERFLOW {
        let is_apart = is_colour_apart(alloc, ties, colour)?;
        apart = apart && is_apart;
    }
    Ok(apart)
}

/// Adds the constraint of a tie, if it has the colour.
fn push_id(ids: &mut Vec<Constraint>, tie: Tie, colour: u8) -> Result<(), Broken>
    ensures ids { OnOk result (ids.new.items ≡ ids.old.items ++ ids_coloured (tie ∷ []) colour) }
    ensures memory { IfErr result (λ e. e ≡ NoMemory) }
{
    if has_colour(tie, colour) {
        ids.push(tie.member.id)?;
    }
    Ok(())
}

/// The constraints of a colour.
fn list_colour(alloc: Global, ties: &[Tie], colour: u8) -> Result<Vec<Constraint>, Broken>
    ensures ids { IfOk result (λ ids. ids.items ≡ ids_coloured ties.now colour) }
    ensures memory { IfErr result (λ e. e ≡ NoMemory) }
{
    let mut ids = Vec::new(alloc);
    for tie in ties {
        push_id(&mut ids, *tie, colour)?;
    }
    Ok(ids)
}

/// For each colour the constraints that have it, and last those in the overflow.
pub(crate) fn list_colours(alloc: Global, ties: &[Tie]) -> Result<Vec<Vec<Constraint>>, Broken>
    ensures colours { IfOk result (λ colours. constraints_of colours.items ≡ ids_below ties.now (most_colours + 1)) }
    ensures memory { IfErr result (λ e. e ≡ NoMemory) }
{
    let mut colours = Vec::new(alloc);
    for colour in 0..=OVERFLOW {
        colours.push(list_colour(alloc, ties, colour)?)?;
    }
    Ok(colours)
}

/// The colours of the contacts by their places.
fn list_contact_colours(
    alloc: Global,
    contacts: &[ContactEntry],
    by_number: &HashMap<u128, u8>,
) -> Result<Vec<Option<u8>>, Refusal>
    ensures value { IfOk result (λ colours. colours.items ≡ contact_colours_by (get nat_eq by_number.now) contacts.now) }
    ensures memory_only { IsOkUnless result Refusal.NoMemory }
{
    let mut colours = Vec::new(alloc);
    for entry in contacts {
        colours.push(colour_at(by_number, Constraint::Contact(entry.key).number()))?;
    }
    Ok(colours)
}

/// The colours of the joints by their slots.
fn list_joint_colours(
    alloc: Global,
    slot_entries: &[SlotEntry],
    by_number: &HashMap<u128, u8>,
) -> Result<Vec<Option<u8>>, Refusal>
    ensures value { IfOk result (λ colours. colours.items ≡ joint_colours_by (get nat_eq by_number.now) 0 slot_entries.now) }
    ensures memory_only { IsOkUnless result Refusal.NoMemory }
{
    let mut colours = Vec::new(alloc);
    for slot in 0..slot_entries.len() {
        colours.push(colour_at(by_number, joint_number(slot, slot_entries[slot].generation)))?;
    }
    Ok(colours)
}

/// The colours of a world's joints by their slots, and of its contacts by their places.
#[derive(Drop)]
pub(crate) struct ColoursByPlace {
    pub(crate) joints: Vec<Option<u8>>,
    pub(crate) contacts: Vec<Option<u8>>,
}

/// The colours of a world.
pub(crate) fn colours_of(alloc: Global, plain: &Plain) -> Result<ColoursByPlace, Refusal>
    requires few { length plain.now.colours ≤ most_colours + 1 }
    ensures joints { IfOk result (λ colours. colours.joints.items ≡ joint_colours plain.now.colours 0 plain.now.joint_entries) }
    ensures contacts { IfOk result (λ colours. colours.contacts.items ≡ contact_colours plain.now.colours plain.now.contacts) }
    ensures memory_only { IsOkUnless result Refusal.NoMemory }
{
    let by_number = colours_by_number(alloc, plain)?;
    let joints = list_joint_colours(alloc, plain.joint_entries(), &by_number)?;
    let contacts = list_contact_colours(alloc, plain.contacts(), &by_number)?;
    Ok(ColoursByPlace { joints, contacts })
}
