//! The velocity and the spin of a body, and the push that brings a mover to others: numbers alone, with no world.

ghost use Rattle.std.specs.Prelude.{◌≡◌, ◌+◌, ◌≤◌, ◌^◌, IfSome, ◌-ℤ◌, ◌*ℤ◌, unsigned_abs};
ghost use Rattle.std.specs.Option.{option_copied};
ghost use Rattle.fixed_geom.specs.Numbers.{rdiv};
ghost use Rattle.fixed_geom.specs.Vectors.{unit_length};
ghost use Rattle.momenta.specs.Motions.{IsMass, IsMotion, limited, spin, velocity};
ghost use Rattle.plain_world.specs.Bodies.{IsBody};
ghost use Rattle.dillmonth.specs.Motions.{lever, motion_of, push_part, push_to, twist_from, twist_push, twist_to};

use fixed_geom::{MAX_SPIN, Vec2, product, rdiv, scaled};
use momenta::{MassData, Motion, spin, velocity};
use plain_world::{Body, Course, Kind, NO_COURSE};

/// The motion of a dynamic body.
fn by_momenta(mass: MassData, motion: &Motion) -> Course
    requires mass { IsMass mass }
    requires motion { IsMotion mass motion.now }
    ensures { result ≡ record { velocity = velocity mass.mass motion.now.p; spin = spin mass.inertia motion.now.l } }
{
    Course {
        velocity: velocity(motion.p, mass.mass),
        spin: spin(motion.l, mass.inertia),
    }
}

pub(crate) fn motion_of(body: &Body) -> Course
    requires { IsBody body.now }
    ensures { result ≡ motion_of body.now }
{
    match body.kind {
        Kind::Static => NO_COURSE,
        Kind::Kinematic(course) => course,
        Kind::Dynamic => by_momenta(body.mass, &body.motion),
    }
}

// ---- the velocity of a mover

/// The greatest size of a part of a push, and some more: a push of this size is refused.
const TOO_MUCH: i64 = (1 << 40) + 1;

/// A part of a push: one that is beyond 2^40 stays beyond it, so that the push is refused.
fn push_part(part: i128) -> i64
    ensures value { result ≡ push_part part }
    ensures size { unsigned_abs result ≤ 2 ^ 40 + 1 }
{
    if part > i128::from(TOO_MUCH) {
        TOO_MUCH
    } else if part < -i128::from(TOO_MUCH) {
        -TOO_MUCH
    } else {
        part as i64
    }
}

/// What a momentum lacks to that of a velocity, in one component.
fn lacking(mass: i64, velocity: i64, momentum: i64) -> i128
    ensures { result ≡ mass *ℤ velocity -ℤ momentum }
{
    product(mass, velocity) - i128::from(momentum)
}

/// The push that brings a body's momentum to that of a velocity.
pub(crate) fn push_to(body: Option<&Body>, velocity: Vec2) -> Vec2
    ensures { result ≡ push_to (option_copied body.entry) velocity }
{
    match body {
        None => Vec2 { x: 0, y: 0 },
        Some(body) => Vec2 {
            x: push_part(lacking(body.mass.mass, velocity.x, body.motion.p.x)),
            y: push_part(lacking(body.mass.mass, velocity.y, body.motion.p.y)),
        },
    }
}

// ---- the spin of a mover

/// The arm at which a push gives an angular impulse, in u.
pub(crate) fn lever(by: i64) -> i64
    ensures { result ≡ lever by }
{
    if by.unsigned_abs() <= 1 << 40 {
        1
    } else {
        1 << 20
    }
}

/// The push that gives an angular impulse at its arm.
pub(crate) fn twist_push(by: i64) -> i64
    ensures value { result ≡ twist_push by }
    ensures size { unsigned_abs result ≤ 2 ^ 40 + 1 }
{
    push_part(rdiv(i128::from(by), i128::from(lever(by))))
}

/// An angular impulse in 64 bits: one that is beyond 2^62 is put there, and is refused.
fn narrow(by: i128) -> i64
    ensures { result ≡ limited (2 ^ 62) by }
{
    if by > 1 << 62 {
        1 << 62
    } else if by < -(1 << 62) {
        -(1 << 62)
    } else {
        by as i64
    }
}

/// What an angular momentum lacks to that of a spin.
fn lacking_spin(inertia: i64, spin: i64, momentum: i128) -> i128
    requires inertia { unsigned_abs inertia ≤ 2 ^ 60 }
    requires spin { unsigned_abs spin ≤ 2 ^ 28 }
    requires momentum { unsigned_abs momentum ≤ 2 ^ 90 }
    ensures { result ≡ rdiv (spin *ℤ inertia) unit_length -ℤ momentum }
{
    i128::from(scaled(spin, inertia)) - momentum
}

/// The angular impulse that brings an angular momentum to that of a spin; one that is refused where no body may have
/// the spin.
fn twist_from(mass: MassData, motion: &Motion, spin: i64) -> i64
    requires mass { unsigned_abs mass.inertia ≤ 2 ^ 60 }
    requires motion { unsigned_abs motion.now.l ≤ 2 ^ 90 }
    ensures { result ≡ twist_from mass.inertia motion.now.l spin }
{
    if spin.unsigned_abs() <= MAX_SPIN as u64 {
        narrow(lacking_spin(mass.inertia, spin, motion.l))
    } else {
        1 << 62
    }
}

/// The angular impulse that brings a body's angular momentum to that of a spin.
pub(crate) fn twist_to(body: Option<&Body>, spin: i64) -> i64
    requires { IfSome body (λ b. IsBody b.now) }
    ensures { result ≡ twist_to (option_copied body.entry) spin }
{
    match body {
        None => 0,
        Some(body) => twist_from(body.mass, &body.motion, spin),
    }
}
