//! The commands of a world, and what an accepted one answers.

ghost use Rattle.std.specs.Prelude.{◌≡◌};
ghost use Rattle.world_rules.specs.Laws.{push_of};

use body_handles::Handle;
use fixed_geom::Vec2;
use plain_world::{BodyDef, Course, JointDef};
use shapes::Pose;

/// What can be asked of a world. Each accepted command is one call, and takes the next call number.
///
/// Beside the refusals named here, each is refused 10 once 2^40 calls were accepted, before all else,
/// and 1 where memory is wanting, after all else. Gravity needs no memory.
#[derive(Drop)]
pub enum Command {
    /// Makes a body at rest, enabled. Refused 4 for its shapes, 5 for a number outside its limit, 3 where
    /// no slot can be given out.
    CreateBody(BodyDef),
    /// Takes a body away with its joints; the momentum that a mover had is booked as departed. Refused 2.
    DestroyBody(Handle),
    /// Joins two bodies, one of which at least moves if the joint is to do anything but keep them from colliding.
    /// Refused 2, 7, 8, 5 or 3, in this order.
    CreateJoint(JointDef),
    /// Takes a joint away. Refused 2.
    DestroyJoint(Handle),
    /// Adds an impulse, in mass·u/tick, to the momentum of a mover, whose island wakes first. Refused 2, 6, 8, 5 or 9,
    /// in this order.
    Push(Handle, Vec2),
    /// Adds an impulse, in mass·u/tick, given at an offset from the centre, in u: the angular momentum of a mover that
    /// turns grows by its moment. Refused 2, 6, 8, 5 or 9, in this order.
    PushAt(Handle, Vec2, Vec2),
    /// Puts a body of any kind, enabled or not, to another place with another facing. Its momenta and its contacts
    /// stay, until the next step finds how its shapes touch there. Refused 2 or 5.
    SetPose(Handle, Pose),
    /// Gives a kinematic body another velocity and spin. Refused 2, 15, 8 or 5, in this order.
    SetVelocity(Handle, Course),
    /// Sets the gravity, in u/tick². Refused 5.
    SetGravity(Vec2),
    /// Takes a body out of the play: its contacts go, its joints do nothing any more, a mover leaves its island, and
    /// the momentum that it had is booked as departed. Refused 2 or 8, in this order.
    Disable(Handle),
    /// Lets a body take part again: a mover as an awake island of its own, with its joints. An enabled one stays as it
    /// is. Refused 2.
    Enable(Handle),
    /// Wakes the island of a mover, if it sleeps. Refused 2, 6 or 8, in this order.
    Wake(Handle),
    /// Puts the island of a mover to rest, which is split first where it may have come apart; the momentum that its
    /// movers had is booked as rest. One that sleeps stays as it is. Refused 2, 6 or 8, in this order.
    Sleep(Handle),
    /// Lets 1 to 8 ticks pass. Refused 5.
    Step(i64),
}

impl Command {
    /// The impulse that it gives a body by itself, in mass·u/tick: that of a push.
    pub fn impulse(&self) -> Vec2
        ensures { result ≡ push_of self.now }
    {
        match self {
            Command::Push(_, by) => *by,
            Command::PushAt(_, by, _) => *by,
            _ => Vec2 { x: 0, y: 0 },
        }
    }
}

/// What an accepted command answers.
#[derive(Clone, Copy, Debug, PartialEq, Eq)]
pub enum Reply {
    /// The body that was made.
    Body(Handle),
    /// The joint that was made.
    Joint(Handle),
    Done,
    /// The number of the step, counted from 1.
    Stepped(u64),
}
