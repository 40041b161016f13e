//! The states of bodies as the solver works on them.

ghost use Rattle.std.specs.Prelude.{◌≡◌, Some};
ghost use Rattle.world_core_base.specs.Gather.{state_of};
ghost use Rattle.world_core_base.specs.Carried.{solver_mass, solver_motion};

use fixed_geom::UNIT;
use momenta::{BodyState, MassData, Motion, NOBODY, reciprocals_of};
use plain_world::Body;

/// The mass of a body that is carried along: with it the momentum is the velocity itself, and the angular momentum the
/// spin.
const CARRIER: MassData = MassData {
    mass: 1,
    inertia: UNIT,
};

/// The mass of a body that stands: it never turns either.
const STANDING: MassData = MassData {
    mass: 1,
    inertia: 0,
};

/// The body of a slot as the solver works on it; in an empty one, what nothing moves.
#[inline(always)]
pub(crate) fn state_of(entry: &Option<Body>) -> BodyState
    ensures { result ≡ state_of entry.now }
{
    match entry {
        None => NOBODY,
        Some(body) => body_state(body),
    }
}

/// The mass that a body shows the solver.
fn solver_mass(body: &Body) -> MassData
    ensures { result ≡ solver_mass body.now }
{
    if body.is_awake() {
        body.mass
    } else if body.is_carried() {
        CARRIER
    } else {
        STANDING
    }
}

/// The motion that a body shows the solver: of one that isn't an awake mover, its course.
fn solver_motion(body: &Body) -> Motion
    ensures { result ≡ solver_motion body.now }
{
    if body.is_awake() {
        return body.motion;
    }
    let course = body.kind.carried_by();
    Motion {
        p: course.velocity,
        l: i128::from(course.spin),
        ..body.motion
    }
}

/// A body as the solver works on it.
#[inline(always)]
pub(crate) fn body_state(body: &Body) -> BodyState
    ensures { result ≡ state_of (Some body.now) }
{
    let mass = solver_mass(body);
    BodyState {
        movable: body.is_awake(),
        mass,
        motion: solver_motion(body),
        start: body.motion.x,
        reciprocals: reciprocals_of(mass),
    }
}
