//! Bodies that are carried along: no impulse moves them, and each tick moves them on by a velocity and a spin of their
//! own.

ghost use Rattle.std.specs.Prelude.{◌≡◌, true};
ghost use Rattle.momenta.specs.ImpulseBounds.{IsState};
ghost use Rattle.colour_solver.specs.States.{AreAllStates, HasCourse, HaveCourses, carried_of, is_carried};
ghost use Rattle.colour_solver.specs.Passes.{carried_along, carry};

use momenta::{BodyState, advance};

/// Whether no impulse moves the body, and it is carried along.
fn is_carried(body: &BodyState) -> bool
    ensures { result ≡ is_carried body.now }
{
    !body.movable && body.mass.inertia != 0
}

/// Moves a body that is carried along on by its velocity and its spin, and leaves another one as it is. At the edge of
/// the world it stops, and that component of the velocity becomes 0.
fn carry_body(body: &mut BodyState)
    requires state { IsState body.old }
    requires course { is_carried body.old ≡ true → HasCourse body.old }
    ensures value { body.new ≡ carried_along body.old }
    ensures state { IsState body.new }
{
    if !is_carried(body) {
        return;
    }
    let (moved, _) = advance(body.motion, body.mass, body.reciprocals);
    body.motion = moved;
}

/// Moves the bodies that are carried along, whose slots are `carried`, on by a tick. Nothing is booked: their momenta
/// are no mover's.
pub fn carry_along(states: &mut Vec<BodyState>, carried: &[u32])
    requires carried { carried.now ≡ carried_of states.old.items }
    requires states { AreAllStates states.old.items }
    requires courses { HaveCourses states.old.items }
    ensures value { states.new.items ≡ carry states.old.items }
    ensures states { AreAllStates states.new.items }
{
    for place in 0..carried.len() {
        carry_body(&mut states[carried[place] as usize]);
    }
}
