//! The way of a tick, and the edge of the world.

ghost use Rattle.std.specs.Prelude.{◌≡◌, ◌^◌, ◌≤◌, true, pos, ◌<ℤ◌, unsigned_abs, IfSome, is_some};
ghost use Rattle.fixed_geom.specs.Reciprocals.{rdiv_reciprocal};
ghost use Rattle.fixed_geom.specs.Vectors.{IsWithin, minus};
ghost use Rattle.momenta.specs.Motions.{IsMass, IsMotion, advanced, aim, kept_component, limited, velocity};
ghost use Rattle.momenta.specs.Reciprocals.{reciprocals_of};

use crate::ranges::are_in;
use crate::velocities_64::{spin_by, velocity_64};
use crate::{MAX_MOMENTUM, MAX_SPEED, MassData, Motion, Reciprocals};
use fixed_geom::{MAX_POSITION, Vec2, minus, turn};

/// The move of a tick: the centre moves by the velocity, and the facing turns by the spin.
///
/// A coordinate that would pass `MAX_POSITION` stops there, and that component of the momentum becomes 0; one
/// that comes to stand on it just so keeps its momentum. Answers the motion and the change of its momentum.
#[inline(always)]
pub fn advance(motion: Motion, mass: MassData, reciprocals: Reciprocals) -> (Motion, Vec2)
    requires mass { IsMass mass }
    requires motion { IsMotion mass motion }
    requires slow { IsWithin (unsigned_abs MAX_SPEED) (velocity mass.mass motion.p) }
    requires reciprocals { reciprocals ≡ reciprocals_of mass }
    ensures value { result.0 ≡ advanced mass motion }
    ensures change { result.1 ≡ minus result.0.p motion.p }
    ensures motion { IsMotion mass result.0 }
    ensures kept { result.0.l ≡ motion.l }
{
    let to = aim(motion, mass, reciprocals.mass);
    let p = Vec2 {
        x: keep_component(to.x, motion.p.x),
        y: keep_component(to.y, motion.p.y),
    };
    let x = Vec2 {
        x: stop_at_edge(to.x),
        y: stop_at_edge(to.y),
    };
    let spin = spin_by(motion.l, mass.inertia, reciprocals.inertia);
    let rot = turn(motion.rot, spin);
    (
        Motion {
            p,
            x,
            rot,
            ..motion
        },
        minus(p, motion.p),
    )
}

/// The same of a centre that stays inside the edge of the world, so that the momentum is as it was: `None` where it may
/// not.
#[inline(always)]
pub fn advance_inside(motion: Motion, mass: MassData, reciprocals: Reciprocals) -> Option<Motion>
    requires mass { IsMass mass }
    requires motion { IsMotion mass motion }
    requires slow { IsWithin (unsigned_abs MAX_SPEED) (velocity mass.mass motion.p) }
    requires reciprocals { reciprocals ≡ reciprocals_of mass }
    ensures value { IfSome result (λ r. r ≡ advanced mass motion) }
    ensures momentum { IfSome result (λ r. r.p ≡ motion.p) }
    ensures motion { IfSome result (IsMotion mass) }
    ensures room { pos (unsigned_abs (aim mass motion).x) <ℤ MAX_POSITION → pos (unsigned_abs (aim mass motion).y) <ℤ MAX_POSITION → is_some result ≡ true }
{
    let x = aim(motion, mass, reciprocals.mass);
    if !are_in(x.x, x.y, MAX_POSITION) {
        return None;
    }
    let spin = spin_by(motion.l, mass.inertia, reciprocals.inertia);
    let rot = turn(motion.rot, spin);
    Some(Motion { x, rot, ..motion })
}

/// Where the velocity leads, were there no edge.
#[inline(always)]
fn aim(motion: Motion, mass: MassData, reciprocal: i64) -> Vec2
    requires mass { IsMass mass }
    requires motion { IsMotion mass motion }
    requires slow { IsWithin (unsigned_abs MAX_SPEED) (velocity mass.mass motion.p) }
    requires reciprocal { reciprocal ≡ rdiv_reciprocal mass.mass }
    ensures value { result ≡ aim mass motion }
{
    let velocity = velocity_64(motion.p, mass.mass, reciprocal);
    Vec2 {
        x: motion.x.x + velocity.x,
        y: motion.x.y + velocity.y,
    }
}

/// A coordinate beyond the edge is put on it.
fn stop_at_edge(to: i64) -> i64
    ensures value { result ≡ limited (unsigned_abs MAX_POSITION) to }
    ensures inside { unsigned_abs result ≤ unsigned_abs MAX_POSITION }
{
    if to > MAX_POSITION {
        MAX_POSITION
    } else if to < -MAX_POSITION {
        -MAX_POSITION
    } else {
        to
    }
}

/// What is left of a component of the momentum that led there: nothing beyond the edge.
fn keep_component(to: i64, p: i64) -> i64
    requires momentum { unsigned_abs p ≤ unsigned_abs MAX_MOMENTUM }
    ensures value { result ≡ kept_component to p }
    ensures small { unsigned_abs result ≤ unsigned_abs MAX_MOMENTUM }
{
    if to > MAX_POSITION || to < -MAX_POSITION {
        0
    } else {
        p
    }
}
