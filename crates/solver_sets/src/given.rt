//! The ties of a plain world and the members of its colours, as its lists make them.

ghost use Rattle.std.specs.Prelude.{◌≡◌, ◌<◌, ◌+◌, ◌^◌, IfOk, length};
ghost use Rattle.std.specs.List.{filter_map};
ghost use Rattle.std.specs.Option.{option_copied};
ghost use Rattle.std.specs.Result.{IsOkUnless};
ghost use Rattle.graph_colours.specs.Colours.{all_members};
ghost use Rattle.graph_colours.specs.Given.{members_of as lists_of};
ghost use Rattle.plain_world.specs.Slots.{AreMatched};
ghost use Rattle.solver_sets.specs.Given.{contact_tie_in, joint_tie_in, joints_alone};
ghost use Rattle.solver_sets.specs.Ties.{joint_bonds, member_of, members_of, movers_of, slots_of, ties_in, ties_of};

use crate::ties::{contact_movers, joint_movers, joint_tie, tie_with};
use body_handles::{Handle, SlotEntry};
use contacts_base::ContactEntry;
use fixed_geom::Refusal;
use graph_colours::{COLOURS, Member, Movers};
use plain_world::{Body, BodyJoint, Constraint, Plain, item_at};
use sleep_wake::push_some;
use std::alloc::Global;

/// The tie of what is in a joint's slot, if it is one.
fn joint_tie_in(
    bodies: &[Option<Body>],
    handle: Handle,
    joint: Option<&BodyJoint>,
) -> Option<Member<Constraint>>
    ensures { result ≡ joint_tie_in bodies.now handle (option_copied joint.entry) }
{
    match joint {
        None => None,
        Some(joint) => joint_tie(bodies, handle, joint),
    }
}

/// The tie of a contact, if it is one.
fn contact_tie(bodies: &[Option<Body>], entry: &ContactEntry) -> Option<Member<Constraint>>
    ensures { result ≡ contact_tie_in bodies.now entry.now }
{
    if entry.contact.is_touching() {
        tie_with(
            Constraint::Contact(entry.key),
            contact_movers(bodies, entry.key),
        )
    } else {
        None
    }
}

/// The ties of all joints, by slot.
fn list_joints(
    alloc: Global,
    bodies: &[Option<Body>],
    slot_entries: &[SlotEntry],
    joints: &[Option<BodyJoint>],
) -> Result<Vec<Member<Constraint>>, Refusal>
    requires { AreMatched slot_entries.now joints.now }
    ensures ties { IfOk result (λ ties. ties.items ≡ ties_in bodies.now (joint_bonds (slots_of slot_entries.now joints.now))) }
    ensures memory_only { IsOkUnless result Refusal.NoMemory }
{
    let mut ties = Vec::new(alloc);
    for index in 0..joints.len() {
        let handle = Handle {
            slot: index as u32,
            generation: slot_entries[index].generation,
        };
        push_some(
            &mut ties,
            joint_tie_in(bodies, handle, joints[index].as_ref()),
        )?;
    }
    Ok(ties)
}

/// All ties: joints by slot, and then touching contacts by key. Costs by the number of joints and contacts.
pub fn list_all_ties(
    alloc: Global,
    bodies: &[Option<Body>],
    slot_entries: &[SlotEntry],
    joints: &[Option<BodyJoint>],
    contacts: &[ContactEntry],
) -> Result<Vec<Member<Constraint>>, Refusal>
    requires { AreMatched slot_entries.now joints.now }
    ensures ties { IfOk result (λ ties. ties.items ≡ ties_of bodies.now (slots_of slot_entries.now joints.now) contacts.now) }
    ensures memory_only { IsOkUnless result Refusal.NoMemory }
{
    let mut ties = list_joints(alloc, bodies, slot_entries, joints)?;
    for entry in contacts {
        push_some(&mut ties, contact_tie(bodies, entry))?;
    }
    Ok(ties)
}

/// The movers of a constraint, if it is there and has any.
fn movers_of(
    bodies: &[Option<Body>],
    joints: &[Option<BodyJoint>],
    id: Constraint,
) -> Option<Movers>
    ensures { result ≡ movers_of bodies.now (joints_alone joints.now) id }
{
    match id {
        Constraint::Joint(handle) => match item_at(joints, handle.slot as usize) {
            None => None,
            Some(joint) => joint_movers(bodies, joint),
        },
        Constraint::Contact(key) => contact_movers(bodies, key),
    }
}

/// A constraint with its movers, if it is there and has any.
fn member_of(
    bodies: &[Option<Body>],
    joints: &[Option<BodyJoint>],
    id: Constraint,
) -> Option<Member<Constraint>>
    ensures { result ≡ member_of bodies.now (joints_alone joints.now) id }
{
    tie_with(id, movers_of(bodies, joints, id))
}

/// The members of a colour, each with its movers.
fn list_colour(
    alloc: Global,
    bodies: &[Option<Body>],
    joints: &[Option<BodyJoint>],
    ids: &[Constraint],
) -> Result<Vec<Member<Constraint>>, Refusal>
    ensures members { IfOk result (λ members. members.items ≡ filter_map (member_of bodies.now (joints_alone joints.now)) ids.now) }
    ensures memory_only { IsOkUnless result Refusal.NoMemory }
{
    let mut members = Vec::new(alloc);
    for id in ids {
        push_some(&mut members, member_of(bodies, joints, *id))?;
    }
    Ok(members)
}

/// The members of each colour of a plain world, those in the overflow last. Costs by their number.
pub fn list_members(alloc: Global, plain: &Plain) -> Result<Vec<Vec<Member<Constraint>>>, Refusal>
    requires { length plain.now.colours ≡ COLOURS + 1 }
    ensures members { IfOk result (λ lists. lists_of lists.items ≡ members_of plain.now.bodies (slots_of plain.now.joint_entries plain.now.joints) plain.now.colours) }
    ensures memory_only { IsOkUnless result Refusal.NoMemory }
{
    let mut lists = Vec::new(alloc);
    for colour in 0..COLOURS + 1 {
        lists.push(list_colour(alloc, plain.bodies(), plain.joints(), plain.members(colour))?)?;
    }
    Ok(lists)
}

/// How many members the colours have.
pub fn count_members(lists: &[Vec<Member<Constraint>>]) -> usize
    requires { length (all_members (lists_of lists.now)) < 2 ^ 64 }
    ensures { result ≡ length (all_members (lists_of lists.now)) }
{
    let mut count = 0;
    for members in lists {
        count += members.len();
    }
    count
}
