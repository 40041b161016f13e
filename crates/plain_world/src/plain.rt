//! A world as plain lists.

ghost use Rattle.std.specs.Prelude.{◌≡◌, ◌<◌, length, map};
ghost use Rattle.plain_world.specs.KeptColours.{constraints_of, members_at};

use crate::body::Body;
use crate::constraint::Constraint;
use crate::joint::BodyJoint;
use body_handles::SlotEntry;
use contacts_base::ContactEntry;
use fixed_geom::Vec2;
use islands::Label;
use std::marker::Model;

/// What a world is, however it is kept: each body slot that was ever used, the body in it, the same of the joints, the
/// contacts by key, the island of each mover by slot, and for each colour the active constraints that have it, those in
/// the overflow last; the gravity in u/tick², and how many steps and calls were accepted.
#[derive(Drop)]
pub struct PlainParts {
    pub slot_entries: Vec<SlotEntry>,
    pub bodies: Vec<Option<Body>>,
    pub joint_entries: Vec<SlotEntry>,
    pub joints: Vec<Option<BodyJoint>>,
    pub contacts: Vec<ContactEntry>,
    pub islands: Vec<Option<Label>>,
    pub colours: Vec<Vec<Constraint>>,
    pub gravity: Vec2,
    pub steps: u64,
    pub calls: u64,
}

/// A world as plain lists, which contracts see as lists and numbers.
#[derive(Drop)]
pub struct Plain {
    parts: PlainParts,
}

impl Model for Plain {
    ghost use Rattle.std.specs.Prelude.{map};
    ghost use Rattle.plain_world.specs.Plain.{Plain as PlainWorld};
    ghost use Rattle.plain_world.specs.KeptColours.{constraints_of};

    ghost Value = { PlainWorld };

    ghost view = { λ a. record { slot_entries = a.parts.slot_entries.items; bodies = a.parts.bodies.items; joint_entries = a.parts.joint_entries.items; joints = a.parts.joints.items; contacts = a.parts.contacts.items; islands = a.parts.islands.items; colours = constraints_of a.parts.colours.items; gravity = a.parts.gravity; steps = a.parts.steps; calls = a.parts.calls } };
}

impl Plain {
    /// The world of these parts, of which nothing is asked.
    pub fn new(parts: PlainParts) -> Plain
        ensures { result ≡ record { slot_entries = parts.slot_entries.items; bodies = parts.bodies.items; joint_entries = parts.joint_entries.items; joints = parts.joints.items; contacts = parts.contacts.items; islands = parts.islands.items; colours = constraints_of parts.colours.items; gravity = parts.gravity; steps = parts.steps; calls = parts.calls } }
    {
        Plain { parts }
    }

    /// Each body slot that was ever used: its generation, and whether it is taken.
    pub fn slot_entries(&self) -> &[SlotEntry]
        ensures { result.now ≡ self.now.slot_entries }
    {
        self.parts.slot_entries.as_slice()
    }

    /// The body in each slot.
    pub fn bodies(&self) -> &[Option<Body>]
        ensures { result.now ≡ self.now.bodies }
    {
        self.parts.bodies.as_slice()
    }

    /// Each joint slot that was ever used: its generation, and whether it is taken.
    pub fn joint_entries(&self) -> &[SlotEntry]
        ensures { result.now ≡ self.now.joint_entries }
    {
        self.parts.joint_entries.as_slice()
    }

    /// The joint in each slot.
    pub fn joints(&self) -> &[Option<BodyJoint>]
        ensures { result.now ≡ self.now.joints }
    {
        self.parts.joints.as_slice()
    }

    /// The contacts of near shapes, ascending by key.
    pub fn contacts(&self) -> &[ContactEntry]
        ensures { result.now ≡ self.now.contacts }
    {
        self.parts.contacts.as_slice()
    }

    /// By slot the island of each mover.
    pub fn islands(&self) -> &[Option<Label>]
        ensures { result.now ≡ self.now.islands }
    {
        self.parts.islands.as_slice()
    }

    /// The active constraints of a colour, ascending: 0 to 23, and 24 for the overflow; none of a greater number.
    pub fn members(&self, colour: usize) -> &[Constraint]
        ensures { result.now ≡ members_at self.now.colours colour }
    {
        match self.parts.colours.get(colour) {
            Some(members) => members.as_slice(),
            None => &[],
        }
    }

    /// The gravity, in u/tick².
    pub fn gravity(&self) -> Vec2
        ensures { result ≡ self.now.gravity }
    {
        self.parts.gravity
    }

    /// How many steps were accepted.
    pub fn steps(&self) -> u64
        ensures { result ≡ self.now.steps }
    {
        self.parts.steps
    }

    /// How many calls were accepted.
    pub fn calls(&self) -> u64
        ensures { result ≡ self.now.calls }
    {
        self.parts.calls
    }
}
