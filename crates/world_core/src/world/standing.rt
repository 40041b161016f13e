//! Where one item stands.

ghost use Rattle.std.specs.Prelude.{◌≡◌, option_map};
ghost use Rattle.std.specs.List.{find};
ghost use Rattle.plain_world.specs.Joints.{joint_of};
ghost use Rattle.plain_world.specs.Slots.{body_of};
ghost use Rattle.plain_world.specs.Bodies.{standing_of};
ghost use Rattle.solver_sets.specs.Census.{standing_of_contact, standing_of_joint};
ghost use Rattle.solver_sets.specs.EachOnce.{stand, has_key};
ghost use Rattle.world_rules.specs.World.{joints_in_slots};

use super::WorldCore;
use crate::joining::joint_of;
use body_handles::Handle;
use contacts_base::ContactKey;
use plain_world::{SetName, body_of};
use solver_sets::{Item, standing_by_key, standing_of_joint};

impl WorldCore {
    /// The one solver set in which an item stands; `None` where there is no such item. A body or a joint takes constant
    /// time, a contact a search for its key.
    pub fn stand(&self, item: Item) -> Option<SetName>
        ensures { result ≡ stand self.now.plain.slot_entries self.now.plain.bodies (joints_in_slots self.now.plain) self.now.plain.contacts item }
    {
        match item {
            Item::Body(handle) => self.stand_of_body(handle),
            Item::Joint(handle) => self.stand_of_joint(handle),
            Item::Contact(key) => self.stand_of_contact(key),
        }
    }

    fn stand_of_body(&self, handle: Handle) -> Option<SetName>
        ensures { result ≡ option_map standing_of (body_of self.now.plain.slot_entries self.now.plain.bodies handle) }
    {
        let body = body_of(&self.handles, self.activity.bodies.bodies(), handle)?;
        Some(body.standing())
    }

    fn stand_of_joint(&self, handle: Handle) -> Option<SetName>
        ensures { result ≡ option_map (standing_of_joint self.now.plain.bodies) (joint_of self.now.plain.joint_entries self.now.plain.joints handle) }
    {
        let joint = joint_of(&self.joint_handles, &self.constraints.joints, handle)?;
        Some(standing_of_joint(self.activity.bodies.bodies(), &joint))
    }

    fn stand_of_contact(&self, key: ContactKey) -> Option<SetName>
        ensures { result ≡ option_map (standing_of_contact self.now.plain.bodies) (find (has_key key) self.now.plain.contacts) }
    {
        self.constraints.contacts.know_numbered();
        let number = self.constraints.contacts.number_of(key)?;
        let contact = self.constraints.contacts.contact(number)?;
        Some(standing_by_key(self.activity.bodies.bodies(), contact.key, contact.touching))
    }
}
