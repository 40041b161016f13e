//! The joints and contacts that act if their movers are awake.

ghost use Rattle.std.specs.Prelude.{◌≡◌, ◌≤◌, ◌^◌, ◌++◌, IfErr, IfOk, OnOk, length};
ghost use Rattle.std.specs.List.{flat_map, list_all};
ghost use Rattle.world_file_base.specs.declared.clause.Broken.TheVariants.{NoMemory};
ghost use Rattle.world_file.specs.Fitting.{
  are_joints_colourless,
  contact_listed,
  contact_tie,
  is_colourless,
  is_contact_colourless,
  joint_colour,
  joint_tie,
  joint_ties,
  tie_if_any,
  ties_read_in,
  tie_read,
};

use body_handles::{Handle, SlotEntry};
use graph_colours::Member;
use plain_world::{Body, Constraint};
use solver_sets::{contact_movers, joint_tie, tie_with};
use std::alloc::Global;
use world_file_base::{Broken, SavedContact, SavedJoint, lesser};

/// A joint or a touching contact of enabled bodies, one of them a mover, with its colour.
#[derive(Clone, Copy)]
pub(crate) struct Tie {
    pub member: Member<Constraint>,
    pub colour: Option<u8>,
}

fn tie_of(member: Option<Member<Constraint>>, colour: Option<u8>) -> Option<Tie>
    ensures { result ≡ tie_read member colour }
{
    match member {
        Some(member) => Some(Tie { member, colour }),
        None => None,
    }
}

/// The joint in a slot as a tie, if there is one and it is one.
fn saved_joint_tie(
    bodies: &[Option<Body>],
    slot: u32,
    slot_entry: SlotEntry,
    entry: Option<SavedJoint>,
) -> Option<Tie>
    ensures { result ≡ joint_tie bodies.now slot slot_entry entry }
{
    match entry {
        Some(saved) => {
            let handle = Handle {
                slot,
                generation: slot_entry.generation,
            };
            tie_of(joint_tie(bodies, handle, &saved.joint), saved.colour)
        }
        None => None,
    }
}

/// A contact as a tie, if it is one.
fn contact_tie(bodies: &[Option<Body>], saved: &SavedContact) -> Option<Tie>
    ensures { result ≡ contact_tie bodies.now saved.now }
{
    if saved.touching {
        let movers = contact_movers(bodies, saved.key);
        tie_of(
            tie_with(Constraint::Contact(saved.key), movers),
            saved.colour,
        )
    } else {
        None
    }
}

/// Whether a constraint that is no tie has no colour.
fn is_colourless(tie: Option<Tie>, colour: Option<u8>) -> bool
    ensures { result ≡ is_colourless tie colour }
{
    tie.is_some() || colour.is_none()
}

fn joint_colour(entry: Option<SavedJoint>) -> Option<u8>
    ensures { result ≡ joint_colour entry }
{
    match entry {
        Some(saved) => saved.colour,
        None => None,
    }
}

fn is_contact_colourless(bodies: &[Option<Body>], saved: &SavedContact) -> bool
    ensures { result ≡ is_contact_colourless bodies.now saved.now }
{
    is_colourless(contact_tie(bodies, saved), saved.colour)
}

/// Whether no contact has a colour that is no tie.
pub(crate) fn are_contacts_colourless(bodies: &[Option<Body>], contacts: &[SavedContact]) -> bool
    ensures { result ≡ list_all (is_contact_colourless bodies.now) contacts.now }
{
    for saved in contacts {
        if !is_contact_colourless(bodies, saved) {
            return false;
        }
    }
    true
}

/// Adds a tie, if it is one.
fn push_tie(ties: &mut Vec<Tie>, tie: Option<Tie>) -> Result<(), Broken>
    ensures ok { OnOk result (ties.new.items ≡ ties.old.items ++ tie_if_any tie) }
    ensures memory { IfErr result (λ e. e ≡ NoMemory) }
{
    if let Some(tie) = tie {
        ties.push(tie)?;
    }
    Ok(())
}

/// Adds the ties of the joints.
fn push_joint_ties(
    ties: &mut Vec<Tie>,
    bodies: &[Option<Body>],
    slot_entries: &[SlotEntry],
    joints: &[Option<SavedJoint>],
) -> Result<(), Broken>
    requires { length slot_entries.now ≤ 2 ^ 32 }
    ensures ok { OnOk result (ties.new.items ≡ ties.old.items ++ flat_map tie_if_any (joint_ties bodies.now 0 slot_entries.now joints.now)) }
    ensures memory { IfErr result (λ e. e ≡ NoMemory) }
{
    for slot in 0..lesser(slot_entries.len(), joints.len()) {
        push_tie(
            ties,
            saved_joint_tie(bodies, slot as u32, slot_entries[slot], joints[slot]),
        )?;
    }
    Ok(())
}

/// Adds the ties of the contacts.
fn push_contact_ties(
    ties: &mut Vec<Tie>,
    bodies: &[Option<Body>],
    contacts: &[SavedContact],
) -> Result<(), Broken>
    ensures ok { OnOk result (ties.new.items ≡ ties.old.items ++ flat_map (contact_listed bodies.now) contacts.now) }
    ensures memory { IfErr result (λ e. e ≡ NoMemory) }
{
    for saved in contacts {
        push_tie(ties, contact_tie(bodies, saved))?;
    }
    Ok(())
}

/// All ties: joints by slot, then contacts by key.
pub(crate) fn list_ties(
    alloc: Global,
    bodies: &[Option<Body>],
    slot_entries: &[SlotEntry],
    joints: &[Option<SavedJoint>],
    contacts: &[SavedContact],
) -> Result<Vec<Tie>, Broken>
    requires { length slot_entries.now ≤ 2 ^ 32 }
    ensures ok { IfOk result (λ ties. ties.items ≡ ties_read_in bodies.now slot_entries.now joints.now contacts.now) }
    ensures memory { IfErr result (λ e. e ≡ NoMemory) }
{
    let mut ties = Vec::new(alloc);
    push_joint_ties(&mut ties, bodies, slot_entries, joints)?;
    push_contact_ties(&mut ties, bodies, contacts)?;
    Ok(ties)
}

/// Whether what is in a slot of joints has no colour or is a tie.
fn is_joint_colourless(
    bodies: &[Option<Body>],
    slot: u32,
    slot_entry: SlotEntry,
    entry: Option<SavedJoint>,
) -> bool
    ensures { result ≡ is_colourless (joint_tie bodies.now slot slot_entry entry) (joint_colour entry) }
{
    is_colourless(
        saved_joint_tie(bodies, slot, slot_entry, entry),
        joint_colour(entry),
    )
}

/// Whether no joint has a colour that is no tie.
pub(crate) fn are_joints_colourless(
    bodies: &[Option<Body>],
    slot_entries: &[SlotEntry],
    joints: &[Option<SavedJoint>],
) -> bool
    requires { length slot_entries.now ≤ 2 ^ 32 }
    ensures { result ≡ are_joints_colourless bodies.now 0 slot_entries.now joints.now }
{
    for slot in 0..lesser(slot_entries.len(), joints.len()) {
        if !is_joint_colourless(bodies, slot as u32, slot_entries[slot], joints[slot]) {
            return false;
        }
    }
    true
}
