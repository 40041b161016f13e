//! What a line is answered.

use crate::pen::Pen;
use body_handles::{Handle, SlotEntry};
use contacts_base::ShapeId;
use event_feed::Events;
use fixed_geom::{Refusal, Vec2};
use impulse_ledger::{Ledger, Total};
use plain_world::{Body, BodyView, Plain, SetName};
use shape_rays::Hit;
use std::fmt;

/// What a seat of a crowd did: how many of its calls were accepted, and the sum of the impulses that they gave, in
/// mass·u/tick.
#[derive(Clone, Copy)]
pub struct SeatReport {
    pub accepted: u64,
    pub pushed: Total,
}

/// The bodies of a world by slot, of which all are told, or those alone that are awake.
#[derive(Clone, Copy)]
pub struct BodyList<'a> {
    pub slot_entries: &'a [SlotEntry],
    pub bodies: &'a [Option<Body>],
    pub awake: bool,
}

/// What is told of a joint: where in the world its two ends are (u), the length that it is to hold, by how much the
/// distance of its ends exceeds it now (u), the impulse that it keeps (mass·u/tick), and the set in which it stands.
#[derive(Clone, Copy)]
pub struct JointReport {
    pub joint: Handle,
    pub a: Handle,
    pub b: Handle,
    pub ends: (Vec2, Vec2),
    pub length: i64,
    pub stretch: i64,
    pub impulse: i64,
    pub set: SetName,
}

/// The answer to a line. Its text is compact JSON, the keys of each object ascending.
#[derive(Drop)]
pub enum Answer<'a> {
    /// A command without an answer of its own was accepted.
    Done,
    /// The body that was made.
    Body(Handle),
    /// The joint that was made.
    Joint(Handle),
    /// The number of the step, and its events. A shape has its body's id where all slot entries are given.
    Stepped(u64, &'a Events, Option<&'a [SlotEntry]>),
    /// What can be seen of a body.
    Shown(BodyView),
    /// The ledger's totals.
    Ledger(&'a Ledger),
    /// What a ray hits first; ids as above.
    Hit(Option<Hit>, Option<&'a [SlotEntry]>),
    /// The shapes over a region, ascending; ids as above.
    Shapes(Vec<ShapeId>, Option<&'a [SlotEntry]>),
    /// The bodies by slot.
    Bodies(BodyList<'a>),
    /// The touching contacts of a world, and whether ids are told.
    Contacts(Plain, bool),
    /// The joints by slot.
    Joints(Vec<JointReport>),
    /// The digest of the world.
    Digest([u8; 32]),
    /// The text of a saved world.
    World(String),
    /// How many calls a crowd's journal has, and what each of its seats did.
    Crowd(u64, Vec<SeatReport>),
    /// A refused request.
    Refused(Refusal),
    /// The number of a line that is no request.
    Bad(u64),
}

impl fmt::Display for Answer<'_> {
    fn fmt<W: fmt::Write>(&self, f: &mut fmt::Formatter<W>) -> fmt::Result {
        let mut pen = Pen::new(f);
        pen.answer(self);
        pen.written()
    }
}
