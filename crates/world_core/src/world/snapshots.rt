//! A world as a whole: as plain lists, as a census of the solver sets, and as a frame.

ghost use Rattle.std.specs.Prelude.{◌≡◌, IfOk};
ghost use Rattle.std.specs.Result.{IsOkUnless};
ghost use Rattle.solver_sets.specs.Census.{IsCensus, census_of, standings_of};
ghost use Rattle.solver_sets.specs.EachOnce.{ListsEachOnce};
ghost use Rattle.world_rules.specs.World.{joints_in_slots};
ghost use Rattle.world_core.specs.Frames.{frame_of};
ghost use Rattle.world_rules.specs.Sound.{IsSound};

use super::WorldCore;
use crate::colour_ids::copy_ids;
use crate::frame::{Frame, show_bodies};
use contacts_base::ContactEntry;
use fixed_geom::Refusal;
use plain_world::{Plain, PlainParts, copy_bodies};
use solver_sets::{Census, take_census};

impl WorldCore {
    /// The world as plain lists.
    pub fn plain(&self) -> Result<Plain, Refusal>
        ensures plain { IfOk result (λ plain. plain ≡ self.now.plain) }
        ensures sound { IsSound self.now }
        ensures memory_only { IsOkUnless result Refusal.NoMemory }
    {
        let alloc = self.activity.bodies.allocator();
        let mut slot_entries = Vec::new(alloc);
        slot_entries.extend_from_slice(self.handles.slot_entries())?;
        let bodies = copy_bodies(alloc, self.activity.bodies.bodies())?;
        let mut joint_entries = Vec::new(alloc);
        joint_entries.extend_from_slice(self.joint_handles.slot_entries())?;
        let mut joints = Vec::new(alloc);
        joints.extend_from_slice(self.constraints.joints.joints())?;
        let contacts = self.constraints.contacts.to_entries(alloc)?;
        let islands = self.activity.sets.islands().list_labels()?;
        let colours = copy_ids(alloc, self.activity.sets.colours())?;
        let gravity = self.gravity;
        let steps = self.steps;
        let calls = self.calls;
        Ok(Plain::new(PlainParts {
            slot_entries,
            bodies,
            joint_entries,
            joints,
            contacts,
            islands,
            colours,
            gravity,
            steps,
            calls,
        }))
    }

    /// What stands in each solver set: each live body, each joint and each contact is listed once, in the one set in
    /// which it stands, and nothing else is. There is a sleeping set for each name under which a body sleeps.
    pub fn census(&self) -> Result<Census, Refusal>
        ensures value { IfOk result (λ census. census ≡ census_of self.now.plain.slot_entries self.now.plain.bodies (joints_in_slots self.now.plain) self.now.plain.contacts) }
        ensures census { IfOk result (λ census. IsCensus (standings_of self.now.plain.slot_entries self.now.plain.bodies (joints_in_slots self.now.plain) self.now.plain.contacts) census) }
        ensures each_once { IfOk result (λ census. ListsEachOnce self.now.plain.slot_entries self.now.plain.bodies (joints_in_slots self.now.plain) self.now.plain.contacts census) }
        ensures memory_only { IsOkUnless result Refusal.NoMemory }
    {
        if let Some(contacts) = self.constraints.contacts.as_one() {
            return self.census_with(contacts);
        }
        let contacts = self
            .constraints
            .contacts
            .to_entries(self.activity.bodies.allocator())?;
        self.census_with(&contacts)
    }

    /// The census, with the contacts as a list.
    fn census_with(&self, contacts: &[ContactEntry]) -> Result<Census, Refusal>
        requires { contacts.now ≡ self.now.plain.contacts }
        ensures value { IfOk result (λ census. census ≡ census_of self.now.plain.slot_entries self.now.plain.bodies (joints_in_slots self.now.plain) self.now.plain.contacts) }
        ensures census { IfOk result (λ census. IsCensus (standings_of self.now.plain.slot_entries self.now.plain.bodies (joints_in_slots self.now.plain) self.now.plain.contacts) census) }
        ensures each_once { IfOk result (λ census. ListsEachOnce self.now.plain.slot_entries self.now.plain.bodies (joints_in_slots self.now.plain) self.now.plain.contacts census) }
        ensures memory_only { IsOkUnless result Refusal.NoMemory }
    {
        take_census(
            self.activity.bodies.allocator(),
            self.handles.slot_entries(),
            self.activity.bodies.bodies(),
            self.joint_handles.slot_entries(),
            self.constraints.joints.joints(),
            contacts,
        )
    }

    /// What the world shows now: the enabled bodies with their poses and shapes, the movers' momentum, the ledger's
    /// total and the number of calls.
    pub fn frame(&self) -> Result<Frame, Refusal>
        ensures frame { IfOk result (λ frame. frame ≡ frame_of self.now) }
        ensures memory_only { IsOkUnless result Refusal.NoMemory }
    {
        let bodies = self.activity.bodies.bodies();
        let shown = show_bodies(
            self.activity.bodies.allocator(),
            self.handles.slot_entries(),
            bodies,
        )?;
        let total = self.ledger.total();
        Ok(Frame::new(shown, total, total, self.calls))
    }
}
