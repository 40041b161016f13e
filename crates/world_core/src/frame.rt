//! What a world shows at one moment.

ghost use Rattle.std.specs.Prelude.{◌≡◌, IfOk, Some, length};
ghost use Rattle.std.specs.Result.{IsOkUnless};
ghost use Rattle.plain_world.specs.Slots.{AreMatched};
ghost use Rattle.world_core.specs.Frames.{AreFrameBodies, IsFrame, pose_if, pose_in, shown, shown_body, shown_up};

use body_handles::{Handle, SlotEntry};
use fixed_geom::Refusal;
use impulse_ledger::Total;
use plain_world::Body;
use shapes::{Pose, Shapes};
use std::alloc::Global;
use std::marker::Model;

/// An enabled body, as a frame shows it.
#[derive(Drop)]
pub struct FrameBody {
    pub handle: Handle,
    pub pose: Pose,
    pub shapes: Shapes,
}

/// What a world shows at one moment: for each slot the pose and the shapes of the enabled body in it, the movers'
/// momentum, the ledger's total, and how many calls were accepted. A frame is a copy of its own, which no later call
/// changes. Only `WorldCore::frame` makes one, so that each is the frame of a sound world.
#[derive(Drop)]
pub struct Frame {
    bodies: Vec<Option<FrameBody>>,
    momentum: Total,
    booked: Total,
    calls: u64,
}

impl Model for Frame {
    ghost use Rattle.world_core.specs.Frames.{IsFrame, View};

    ghost Value = { View };

    ghost view = { λ f. record { bodies = f.bodies.items; momentum = f.momentum; booked = f.booked; calls = f.calls } };

    ghost invariant = { λ f. IsFrame (record { bodies = f.bodies.items; momentum = f.momentum; booked = f.booked; calls = f.calls }) };
}

impl Frame {
    /// A frame of these bodies by slot, as a sound world shows them.
    pub(crate) fn new(
        bodies: Vec<Option<FrameBody>>,
        momentum: Total,
        booked: Total,
        calls: u64,
    ) -> Frame
        requires { IsFrame (record { bodies = bodies.items; momentum = momentum; booked = booked; calls = calls }) }
        ensures { result ≡ record { bodies = bodies.items; momentum = momentum; booked = booked; calls = calls } }
    {
        Frame {
            bodies,
            momentum,
            booked,
            calls,
        }
    }

    /// The enabled body in each slot that was ever used. There are at most 65,536 slots. The handle of a body names its
    /// slot, and its pose and its 1 to 8 shapes are within their limits, since the frame is that of a sound world.
    pub fn bodies(&self) -> &[Option<FrameBody>]
        ensures bodies { result.now ≡ self.now.bodies }
        ensures sound { IsFrame self.now }
        ensures formed { AreFrameBodies self.now.bodies }
    {
        self.bodies.as_slice()
    }

    /// Where an enabled body is; `None` where the handle names none that lived then and was enabled.
    pub fn pose(&self, handle: Handle) -> Option<Pose>
        ensures { result ≡ pose_in self.now.bodies handle }
    {
        match self.bodies.get(handle.slot as usize) {
            Some(Some(body)) => pose_of(body, handle),
            _ => None,
        }
    }

    /// The movers' momentum, in mass·u/tick. It is the total of the ledger.
    pub fn momentum(&self) -> Total
        ensures value { result ≡ self.now.momentum }
        ensures booked { self.now.momentum ≡ self.now.booked }
    {
        self.momentum
    }

    /// The total of the ledger, in mass·u/tick. It is the movers' momentum.
    pub fn booked(&self) -> Total
        ensures value { result ≡ self.now.booked }
        ensures momentum { self.now.booked ≡ self.now.momentum }
    {
        self.booked
    }

    /// How many calls were accepted.
    pub fn calls(&self) -> u64
        ensures { result ≡ self.now.calls }
    {
        self.calls
    }
}

/// The pose, if the body has this handle's generation.
fn pose_of(body: &FrameBody, handle: Handle) -> Option<Pose>
    ensures { result ≡ pose_if (Some body.now) handle }
{
    if body.handle.generation == handle.generation {
        Some(body.pose)
    } else {
        None
    }
}

/// What is shown of a body: nothing of one that is disabled.
fn show_body(handle: Handle, body: &Body) -> Result<Option<FrameBody>, Refusal>
    ensures shown { IfOk result (λ s. s ≡ shown_body handle body.now) }
    ensures memory_only { IsOkUnless result Refusal.NoMemory }
{
    if !body.enabled {
        return Ok(None);
    }
    Ok(Some(FrameBody {
        handle,
        pose: body.pose(),
        shapes: body.shapes.try_copy()?,
    }))
}

fn show(handle: Handle, entry: &Option<Body>) -> Result<Option<FrameBody>, Refusal>
    ensures shown { IfOk result (λ s. s ≡ shown handle entry.now) }
    ensures memory_only { IsOkUnless result Refusal.NoMemory }
{
    match entry {
        Some(body) => show_body(handle, body),
        None => Ok(None),
    }
}

/// What is shown of the bodies, by slot.
pub(crate) fn show_bodies(
    alloc: Global,
    slot_entries: &[SlotEntry],
    bodies: &[Option<Body>],
) -> Result<Vec<Option<FrameBody>>, Refusal>
    requires matched { AreMatched slot_entries.now bodies.now }
    ensures shown { IfOk result (λ s. s.items ≡ shown_up slot_entries.now bodies.now (length bodies.now)) }
    ensures memory_only { IsOkUnless result Refusal.NoMemory }
{
    let mut shown = Vec::with_capacity(alloc, bodies.len())?;
    for slot in 0..bodies.len() {
        let handle = Handle {
            slot: slot as u32,
            generation: slot_entries[slot].generation,
        };
        shown.push(show(handle, &bodies[slot])?)?;
    }
    Ok(shown)
}
