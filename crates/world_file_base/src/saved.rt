//! The parts of a saved world as they are read: bodies, joints, contacts and totals with what the text says of each.

use body_handles::{Handle, SlotEntry};
use contacts_base::{ContactKey, PackedContact};
use plain_world::{Body, BodyJoint};

/// What a body says of its island.
#[derive(Clone, Copy, Debug, PartialEq, Eq)]
pub struct Membership {
    /// The name of the island, of a mover.
    pub island: Option<u32>,
    pub loose: bool,
    pub asleep: bool,
}

/// Where no body is.
pub const NO_MEMBERSHIP: Membership = Membership {
    island: None,
    loose: false,
    asleep: false,
};

/// The bodies by slot.
#[derive(Drop)]
pub struct SavedBodies {
    pub slot_entries: Vec<SlotEntry>,
    pub bodies: Vec<Option<Body>>,
    /// By slot what the body there says of its island.
    pub memberships: Vec<Membership>,
}

/// A joint as it was read.
#[derive(Clone, Copy, Debug, PartialEq, Eq)]
pub struct SavedJoint {
    /// The ids of its bodies, of which the joint has the slots.
    pub a: Handle,
    pub b: Handle,
    pub joint: BodyJoint,
    pub colour: Option<u8>,
}

/// The joints by slot.
#[derive(Drop)]
pub struct SavedJoints {
    pub slot_entries: Vec<SlotEntry>,
    pub joints: Vec<Option<SavedJoint>>,
}

/// A contact as it was read.
#[derive(Clone, Copy, Debug, PartialEq, Eq)]
pub struct SavedContact {
    pub key: ContactKey,
    pub touching: bool,
    pub colour: Option<u8>,
    /// The first two of its points.
    pub contact: PackedContact,
    /// How many points it has.
    pub points: usize,
}
