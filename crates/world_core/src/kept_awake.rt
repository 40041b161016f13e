//! Which islands a moving kinematic body keeps awake: those of the movers that touch it or are joined to it.

ghost use Rattle.std.specs.Prelude.{◌≡◌, ℕ, List, Option, Some};
ghost use Rattle.std.specs.Option.{option_copied};
ghost use Rattle.contacts_base.specs.Split.{contacts_in};
ghost use Rattle.islands.specs.Labels.{label_at};
ghost use Rattle.plain_world.specs.Slots.{item_at};
ghost use Rattle.world_core.specs.Quiet.{HasFlagged, KeepFlags, flagged_if, flagged_joined, flagged_pair, flagged_touched};

use crate::sleep_test::flag;
use contacts_base::{ContactEntry, ContactKey, Hint, SplitContacts};
use graph_colours::{Colours, Member, OVERFLOW};
use islands::Islands;
use plain_world::{Body, BodyJoint, Constraint, item_at};
use solver_sets::is_moving_at;
use world_core_base::Constraints;

/// Flags the island of the mover in a slot, if what is beside it moves.
fn flag_if(flags: &mut Vec<bool>, islands: &Islands, moving: bool, slot: u32)
    ensures { flags.new.items ≡ flagged_if moving (label_at islands.now.labels slot) flags.old.items }
{
    if moving {
        flag(flags, islands, slot);
    }
}

/// Flags the island of each of two bodies that are beside one another, if the other moves.
fn flag_pair(flags: &mut Vec<bool>, islands: &Islands, bodies: &[Option<Body>], a: u32, b: u32)
    ensures { flags.new.items ≡ flagged_pair islands.now.labels bodies.now a b flags.old.items }
{
    flag_if(flags, islands, is_moving_at(bodies, b), a);
    flag_if(flags, islands, is_moving_at(bodies, a), b);
}

fn flag_joined(
    flags: &mut Vec<bool>,
    islands: &Islands,
    bodies: &[Option<Body>],
    joint: Option<&BodyJoint>,
)
    ensures { flags.new.items ≡ flagged_joined islands.now.labels bodies.now (option_copied joint.entry) flags.old.items }
{
    if let Some(joint) = joint {
        flag_pair(flags, islands, bodies, joint.a, joint.b);
    }
}

fn flag_touched(
    flags: &mut Vec<bool>,
    islands: &Islands,
    bodies: &[Option<Body>],
    entry: &ContactEntry,
)
    ensures { flags.new.items ≡ flagged_touched islands.now.labels bodies.now (Some entry.now) flags.old.items }
{
    if entry.contact.is_touching() {
        flag_pair(
            flags,
            islands,
            bodies,
            entry.key.first.slot,
            entry.key.second.slot,
        );
    }
}

fn flag_found(
    flags: &mut Vec<bool>,
    islands: &Islands,
    bodies: &[Option<Body>],
    found: Option<&ContactEntry>,
)
    ensures { flags.new.items ≡ flagged_touched islands.now.labels bodies.now (option_copied found.entry) flags.old.items }
{
    if let Some(entry) = found {
        flag_touched(flags, islands, bodies, entry);
    }
}

/// Flags the islands that the contact with this key keeps awake. It is looked for from `hint` on.
fn flag_contact(
    flags: &mut Vec<bool>,
    islands: &Islands,
    bodies: &[Option<Body>],
    contacts: &SplitContacts,
    hint: &mut Hint,
    key: ContactKey,
)
    ensures { (joints : List (Option BodyJoint)) (names timers : List ℕ) → KeepFlags islands.now.labels bodies.now joints (contacts_in contacts.now) timers → HasFlagged names islands.now.labels timers flags.old.items → HasFlagged names islands.now.labels timers flags.new.items }
{
    if !(is_moving_at(bodies, key.first.slot) || is_moving_at(bodies, key.second.slot)) {
        return;
    }
    flag_found(flags, islands, bodies, contacts.find(hint, key));
}

/// Flags the islands that a constraint keeps awake, a contact of which is looked for from `hint` on.
fn flag_by(
    flags: &mut Vec<bool>,
    islands: &Islands,
    bodies: &[Option<Body>],
    constraints: &Constraints,
    hint: &mut Hint,
    id: Constraint,
)
    ensures { (names timers : List ℕ) → KeepFlags islands.now.labels bodies.now constraints.now.joints.joints constraints.now.contacts.contacts timers → HasFlagged names islands.now.labels timers flags.old.items → HasFlagged names islands.now.labels timers flags.new.items }
{
    match id {
        Constraint::Joint(handle) => {
            flag_joined(
                flags,
                islands,
                bodies,
                item_at(constraints.joints.joints(), handle.slot as usize),
            );
        }
        Constraint::Contact(key) => {
            flag_contact(
                flags,
                islands,
                bodies,
                constraints.contacts.split(),
                hint,
                key,
            );
        }
    }
}

/// Flags the islands that the constraints of one colour keep awake.
fn flag_colour(
    flags: &mut Vec<bool>,
    islands: &Islands,
    bodies: &[Option<Body>],
    constraints: &Constraints,
    members: &[Member<Constraint>],
)
    ensures { (names timers : List ℕ) → KeepFlags islands.now.labels bodies.now constraints.now.joints.joints constraints.now.contacts.contacts timers → HasFlagged names islands.now.labels timers flags.old.items → HasFlagged names islands.now.labels timers flags.new.items }
{
    let mut hint = Hint { long: 0, short: 0 };
    for place in 0..members.len() {
        flag_by(
            flags,
            islands,
            bodies,
            constraints,
            &mut hint,
            members[place].id,
        );
    }
}

/// Flags the islands of the movers that touch a kinematic body that moves or are joined to one, by the constraints that
/// act.
#[inline(never)]
pub(crate) fn flag_beside(
    flags: &mut Vec<bool>,
    islands: &Islands,
    bodies: &[Option<Body>],
    constraints: &Constraints,
    colours: &Colours<Constraint>,
)
    requires { colours.now.pending ≡ 0 }
    ensures { (names timers : List ℕ) → KeepFlags islands.now.labels bodies.now constraints.now.joints.joints constraints.now.contacts.contacts timers → HasFlagged names islands.now.labels timers flags.old.items → HasFlagged names islands.now.labels timers flags.new.items }
{
    for colour in 0..OVERFLOW + 1 {
        flag_colour(flags, islands, bodies, constraints, colours.members(colour));
    }
}
