//! What a world is read by without a copy: its bodies, joints and contacts, its islands, its colours and its numbers.

ghost use Rattle.std.specs.Prelude.{◌≡◌, length, option_map};
ghost use Rattle.plain_world.specs.Bodies.{view_of};
ghost use Rattle.plain_world.specs.Plain.{colour_of};
ghost use Rattle.world_core_base.specs.Covers.{AreCovered};
ghost use Rattle.world_core_base.specs.Solving.{solve_order};
ghost use Rattle.world_rules.specs.World.{body_named};
ghost use Rattle.world_core.specs.Trees.{HoldsEnabled};
ghost use Rattle.world_rules.specs.Sound.{IsSound};
ghost use Rattle.graph_colours.specs.Colours.{ids_of};

use super::WorldCore;
use body_handles::{Handle, SlotEntry};
use box_tree::BoxTree;
use contacts::ContactTable;
use event_feed::Events;
use fixed_geom::Vec2;
use graph_colours::Colours;
use impulse_ledger::Ledger;
use islands::Islands;
use plain_world::{Body, BodyView, Constraint, body_of};
use world_core_base::JointTable;

impl WorldCore {
    /// What can be seen of a body; `None` where the handle names none that lives.
    pub fn body(&self, handle: Handle) -> Option<BodyView>
        ensures { result ≡ option_map view_of (body_named self.now.plain handle) }
    {
        match body_of(&self.handles, self.activity.bodies.bodies(), handle) {
            Some(body) => Some(body.view()),
            None => None,
        }
    }

    /// The bodies by slot, without a copy: `None` in a slot that is free. The handle of one is its slot with the
    /// generation that `slot_entries` has there.
    pub fn bodies(&self) -> &[Option<Body>]
        ensures bodies { result.now ≡ self.now.plain.bodies }
        ensures sound { IsSound self.now }
    {
        self.activity.bodies.bodies()
    }

    /// The slots that were ever used, with the generation of each and whether it is taken.
    pub fn slot_entries(&self) -> &[SlotEntry]
        ensures { result.now ≡ self.now.plain.slot_entries }
    {
        self.handles.slot_entries()
    }

    /// The gravity, in u/tick².
    pub fn gravity(&self) -> Vec2
        ensures { result ≡ self.now.plain.gravity }
    {
        self.gravity
    }

    /// How many steps were accepted.
    pub fn steps(&self) -> u64
        ensures { result ≡ self.now.plain.steps }
    {
        self.steps
    }

    /// The colour of an active constraint, 0 to 23, or 24 in the overflow; `None` of one that isn't active.
    pub fn colour_of(&self, constraint: Constraint) -> Option<u8>
        ensures { result ≡ colour_of constraint self.now.plain.colours }
    {
        self.activity.sets.colours().colour_of(constraint)
    }

    /// How many constraints act: joints and touching contacts between bodies that are awake.
    pub fn acting_constraints(&self) -> usize
        ensures { result ≡ length (solve_order self.now.plain.colours) }
    {
        self.activity.sets.colours().count()
    }

    /// The ledger. Its total is the movers' momentum.
    pub fn ledger(&self) -> &Ledger
        ensures entries { result.now.entries ≡ self.now.entries }
        ensures settled { result.now.settled ≡ self.now.settled }
        ensures sound { IsSound self.now }
    {
        &self.ledger
    }

    /// The events of the last accepted step; before the first, none.
    pub fn events(&self) -> &Events
        ensures { result.now ≡ self.now.events }
    {
        &self.events
    }

    /// The tree of the bodies' boxes by slot: that of each enabled body holds each of its fat boxes. A disabled body
    /// keeps its box, and a slot without a body may have one.
    pub fn tree(&self) -> &BoxTree
        ensures enabled { HoldsEnabled self.now.plain.bodies result.now }
        ensures covered { AreCovered self.now.plain.bodies result.now }
        ensures sound { IsSound self.now }
    {
        self.activity.bodies.boxes()
    }

    /// The slots of joints that were ever used, with the generation of each and whether it is taken.
    pub fn joint_entries(&self) -> &[SlotEntry]
        ensures { result.now ≡ self.now.plain.joint_entries }
    {
        self.joint_handles.slot_entries()
    }

    /// The joints by slot, and those of each body.
    pub fn joints(&self) -> &JointTable
        ensures { result.now.joints ≡ self.now.plain.joints }
    {
        &self.constraints.joints
    }

    /// The contacts of near shapes, all and by number.
    pub fn contacts(&self) -> &ContactTable
        ensures { result.now.contacts ≡ self.now.plain.contacts }
    {
        &self.constraints.contacts
    }

    /// The islands of the movers.
    pub fn islands(&self) -> &Islands
        ensures { result.now.labels ≡ self.now.plain.islands }
    {
        self.activity.sets.islands()
    }

    /// How many calls were accepted.
    pub fn calls(&self) -> u64
        ensures { result ≡ self.now.plain.calls }
    {
        self.calls
    }

    /// The colours of the constraints that act.
    pub fn colours(&self) -> &Colours<Constraint>
        ensures { ids_of result.now.lists ≡ self.now.plain.colours }
    {
        self.activity.sets.colours()
    }
}
