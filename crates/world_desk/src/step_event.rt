//! What steps told, and the tags that a caller gave bodies.

use contacts_base::PackedContact;
use world_core::{ContactKey, Handle};

/// The tag of a body, kept in the body's slot: it is that of the body that had this generation.
#[derive(Clone, Copy)]
pub struct Tagged {
    pub generation: u32,
    pub tag: u64,
}

/// A body of an event, with the tag that it had then.
#[derive(Clone, Copy)]
pub struct EventBody {
    pub body: Handle,
    pub tag: u64,
}

/// What happened to two shapes, or to a body, in a step.
#[derive(Clone, Copy)]
pub struct StepEvent {
    pub step: u64,
    /// 0 where two shapes began to touch, 1 where they ceased to, 2 where a body fell asleep, 3 where it woke.
    pub kind: u32,
    /// The body of the first shape, or the body.
    pub first: EventBody,
    /// The body of the second shape; nobody where the event is of one body.
    pub second: EventBody,
    /// The two shapes; zeros where the event is of one body.
    pub key: ContactKey,
    /// The points where the shapes touch, as the step left them.
    pub contact: PackedContact,
}
