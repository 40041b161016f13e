//! What the commands that change one body ask of it, and what they give it.

ghost use Rattle.std.specs.Prelude.{◌≡◌, ◌<◌, ◌≤◌, ◌^◌, ◌&&◌, true, OnOk, IfOk, length, unsigned_abs};
ghost use Rattle.std.specs.Option.{ForSome, option_copied};
ghost use Rattle.std.specs.Result.{result_err};
ghost use Rattle.fixed_geom.specs.Vectors.{IsWithin, is_within};
ghost use Rattle.plain_world.specs.Bodies.{IsBody, AreBodies};
ghost use Rattle.plain_world.specs.Momentum.{momentum_in};
ghost use Rattle.plain_world.specs.Kinds.{is_kinematic};
ghost use Rattle.plain_world.specs.Slots.{body_at, body_of};
ghost use Rattle.shapes.specs.Poses.{IsPose};
ghost use Rattle.world_rules.specs.Apply.{are_momenta, mover_refusal, posed, pushed, steered, with_impulse};

use body_handles::{Handle, Handles};
use fixed_geom::{MAX_POSITION, Refusal, Vec2, cross, is_facing, is_within, plus};
use momenta::{MAX_ANGULAR_MOMENTUM, MAX_MOMENTUM, Momenta, turned_by};
use plain_world::{Body, Course, body_of};
use shapes::Pose;

/// The greatest size of a component of a push, in mass·u/tick.
const MAX_PUSH: u64 = 1 << 40;

/// The greatest size of a component of the offset at which a push is given, in u.
const MAX_PUSH_OFFSET: u64 = 1 << 26;

/// Whether an impulse and the offset at which it is given are within their limits.
fn is_push(by: Vec2, offset: Vec2) -> bool
    ensures value { result ≡ (is_within (2 ^ 40) by && is_within (2 ^ 26) offset) }
    ensures by { result ≡ true → IsWithin (2 ^ 40) by }
    ensures offset { result ≡ true → IsWithin (2 ^ 26) offset }
{
    is_within(by, MAX_PUSH) && is_within(offset, MAX_PUSH_OFFSET)
}

/// The momenta of a body with an impulse given at an offset.
fn with_impulse(body: &Body, by: Vec2, offset: Vec2) -> Momenta
    requires body { IsBody body.now }
    requires by { IsWithin (2 ^ 40) by }
    requires offset { IsWithin (2 ^ 26) offset }
    ensures { result ≡ with_impulse by offset body.now }
{
    Momenta {
        p: plus(body.motion.p, by),
        l: turned_by(body.mass.inertia, body.motion.l, cross(offset, by)),
    }
}

/// Whether momenta are within their limits.
fn are_momenta(momenta: Momenta) -> bool
    ensures { result ≡ are_momenta momenta }
{
    is_within(momenta.p, MAX_MOMENTUM.unsigned_abs())
        && momenta.l.unsigned_abs() <= MAX_ANGULAR_MOMENTUM.unsigned_abs()
}

/// The momenta of a mover once it is pushed: refused 6, 8, 5 or 9, in this order.
fn pushed(body: &Body, by: Vec2, offset: Vec2) -> Result<Momenta, Refusal>
    requires { IsBody body.now }
    ensures { result ≡ pushed (Some body.now) by offset }
{
    if !body.kind.is_dynamic() {
        return Err(Refusal::NotAMover);
    }
    if !body.enabled {
        return Err(Refusal::BodyDisabled);
    }
    if !is_push(by, offset) {
        return Err(Refusal::OutOfRange);
    }
    let momenta = with_impulse(body, by, offset);
    if !are_momenta(momenta) {
        return Err(Refusal::TooFast);
    }
    Ok(momenta)
}

/// The momenta that the body named by a handle has once it is pushed: refused 2, 6, 8, 5 or 9, in this order.
pub(crate) fn momenta_after(
    handles: &Handles,
    bodies: &[Option<Body>],
    handle: Handle,
    by: Vec2,
    offset: Vec2,
) -> Result<Momenta, Refusal>
    requires { AreBodies bodies.now }
    ensures value { result ≡ pushed (body_of handles.now.slot_entries bodies.now handle) by offset }
    ensures present { OnOk result (handle.slot < length bodies.now) }
{
    match body_of(handles, bodies, handle) {
        Some(body) => pushed(body, by, offset),
        None => Err(Refusal::StaleHandle),
    }
}

/// A pose within its limits: refused 5.
fn posed(body: &Body, pose: Pose) -> Result<Pose, Refusal>
    ensures value { result ≡ posed (Some body.now) pose }
    ensures pose { IfOk result (λ given. IsPose given) }
{
    if !is_within(pose.x, MAX_POSITION.unsigned_abs()) {
        return Err(Refusal::OutOfRange);
    }
    if !is_facing(pose.rot) {
        return Err(Refusal::OutOfRange);
    }
    Ok(pose)
}

/// The pose that the body named by a handle gets: refused 2 or 5, in this order.
pub(crate) fn pose_after(
    handles: &Handles,
    bodies: &[Option<Body>],
    handle: Handle,
    pose: Pose,
) -> Result<Pose, Refusal>
    ensures value { result ≡ posed (body_of handles.now.slot_entries bodies.now handle) pose }
    ensures present { OnOk result (handle.slot < length bodies.now) }
    ensures pose { IfOk result (λ given. IsPose given) }
{
    match body_of(handles, bodies, handle) {
        Some(body) => posed(body, pose),
        None => Err(Refusal::StaleHandle),
    }
}

/// The course of a kinematic body that is steered: refused 15, 8 or 5, in this order.
fn steered(body: &Body, course: Course) -> Result<Course, Refusal>
    ensures value { result ≡ steered (Some body.now) course }
    ensures kinematic { OnOk result (is_kinematic body.now.kind ≡ true) }
{
    if !body.kind.is_kinematic() {
        return Err(Refusal::NotKinematic);
    }
    if !body.enabled {
        return Err(Refusal::BodyDisabled);
    }
    if !course.is_allowed() {
        return Err(Refusal::OutOfRange);
    }
    Ok(course)
}

/// The course that the body named by a handle gets: refused 2, 15, 8 or 5, in this order.
pub(crate) fn course_after(
    handles: &Handles,
    bodies: &[Option<Body>],
    handle: Handle,
    course: Course,
) -> Result<Course, Refusal>
    ensures value { result ≡ steered (body_of handles.now.slot_entries bodies.now handle) course }
    ensures present { OnOk result (handle.slot < length bodies.now) }
    ensures kinematic { OnOk result (ForSome (body_at bodies.now handle.slot) (λ b. is_kinematic b.kind ≡ true)) }
{
    match body_of(handles, bodies, handle) {
        Some(body) => steered(body, course),
        None => Err(Refusal::StaleHandle),
    }
}

/// Tests whether the island of the body named by a handle can be woken or put to rest: refused 2, 6 or 8, in this
/// order.
pub(crate) fn check_mover(
    handles: &Handles,
    bodies: &[Option<Body>],
    handle: Handle,
) -> Result<(), Refusal>
    ensures { result_err result ≡ mover_refusal (body_of handles.now.slot_entries bodies.now handle) }
{
    let Some(body) = body_of(handles, bodies, handle) else {
        return Err(Refusal::StaleHandle);
    };
    if !body.kind.is_dynamic() {
        return Err(Refusal::NotAMover);
    }
    if !body.enabled {
        return Err(Refusal::BodyDisabled);
    }
    Ok(())
}

/// The momentum of a body, 0 where it is no mover.
pub(crate) fn mover_momentum(body: &Body) -> Vec2
    ensures { result ≡ momentum_in (Some body.now) }
{
    if body.is_mover() {
        body.motion.p
    } else {
        Vec2 { x: 0, y: 0 }
    }
}
