//! Velocities and spins of bodies, read and set by the commands that there are.

ghost use Rattle.std.specs.Prelude.{◌≡◌, IfSome};
ghost use Rattle.std.specs.Option.{option_copied};
ghost use Rattle.plain_world.specs.Bodies.{IsBody};
ghost use Rattle.dillmonth.specs.Forms.{handle_said, pose_said, vector_said};
ghost use Rattle.dillmonth.specs.Motions.{motion_of, twist_to};
ghost use Rattle.dillmonth.specs.Moving.{AnswersAs, DoesBy, IsMoving, IsMovingIn, IsThen, Twists, TwistsIn, motion_shown, pushing_to, steering_to, twisting, untwisting};
ghost use Rattle.world_rules.specs.World.{body_named};

use crate::commands::answer_to;
use crate::conversions::{handle_of, pose_of, show_vector, vector_of};
use crate::forms::{CFacing, CHandle, CVector};
use crate::held::{CWorld, put, take};
use crate::motions::{lever, motion_of, push_to, twist_push, twist_to};
use crate::statuses::{DONE, NO_WORLD};
use crate::targets::course_to;
use fixed_geom::Vec2;
use plain_world::{Body, Course};
use shapes::Pose;
use std::alloc::Global;
use world_core::{Command, Handle, WorldCore};
use world_desk::Desk;
use world_queries::body_named;

/// The velocity and the spin of a body.
#[repr(C)]
#[derive(Clone, Copy)]
pub struct CMotion {
    /// In u/tick.
    pub velocity: CVector,
    /// The tangent of the turn of a tick, times 2^30.
    pub spin: i64,
}

/// The body that a handle names, which is sound.
fn sound_body(world: &WorldCore, body: Handle) -> Option<&Body>
    ensures value { option_copied result ≡ body_named world.now.plain body }
    ensures sound { IfSome result (λ b. IsBody b.now) }
{
    world.know_sound();
    body_named(world, body)
}

// ---- read

fn show_motion(motion: Course) -> CMotion
    ensures { result ≡ motion_shown motion }
{
    CMotion {
        velocity: show_vector(motion.velocity),
        spin: motion.spin,
    }
}

/// Writes the motion of a body, or 2 where it isn't there.
fn write_motion(world: &WorldCore, body: Handle, out: &mut CMotion) -> u32
    ensures { IsMoving (body_named world.now.plain body) result out.old out.new }
{
    match sound_body(world, body) {
        None => 2,
        Some(found) => {
            *out = show_motion(motion_of(found));
            DONE
        }
    }
}

/// The velocity and the spin of a body: a dynamic one's are its momenta by its mass and its inertia, to the nearest,
/// the spin within 2^28; a kinematic one's are its own; a static one has none. Refused 2 where the id names none; `out`
/// is then as it was.
#[unsafe(no_mangle)]
pub extern "C" fn dm_motion(
    alloc: Global,
    world: &mut CWorld,
    body: CHandle,
    out: &mut CMotion,
) -> u32
    ensures kept { world.new.desk ≡ world.old.desk }
    ensures motion { IsMovingIn world.old.desk body result out.old out.new }
{
    match take(alloc, world) {
        None => NO_WORLD,
        Some(desk) => {
            let status = write_motion(&desk.world, handle_of(body), out);
            put(world, desk);
            status
        }
    }
}

/// Gives the body of a desk a push.
fn push_body_to(alloc: Global, desk: &mut Desk, body: Handle, velocity: Vec2) -> u32
    ensures { AnswersAs (pushing_to body velocity desk.old.world) desk.old result desk.new }
{
    let by = push_to(body_named(&desk.world, body), velocity);
    answer_to(alloc, desk, Command::Push(body, by)).status
}

/// Gives a mover the velocity, in u/tick, by one push of `mass * velocity - p`, which is booked as each push is.
/// Refused as `dm_push` is of that push: 5 where a part of it is beyond 2^40.
#[unsafe(no_mangle)]
pub extern "C" fn dm_push_to(
    alloc: Global,
    world: &mut CWorld,
    body: CHandle,
    velocity: CVector,
) -> u32
    ensures { DoesBy (pushing_to (handle_said body) (vector_said velocity)) world.old.desk result world.new.desk }
{
    match take(alloc, world) {
        None => NO_WORLD,
        Some(mut desk) => {
            let status = push_body_to(alloc, &mut desk, handle_of(body), vector_of(velocity));
            put(world, desk);
            status
        }
    }
}

/// Gives the body of a desk a course.
fn steer_body_to(alloc: Global, desk: &mut Desk, body: Handle, to: Pose, ticks: i64) -> u32
    ensures { AnswersAs (steering_to body to ticks desk.old.world) desk.old result desk.new }
{
    let course = course_to(sound_body(&desk.world, body), to, ticks);
    answer_to(alloc, desk, Command::SetVelocity(body, course)).status
}

/// Gives a kinematic body the velocity and the spin that lead it to a pose in a step of so many ticks: the way by the
/// ticks, to the nearest, and the spin whose turn of so many ticks ends at the facing, as near as a whole number comes
/// to it. It keeps that course after the step. An impulse is booked for no body. Refused as `dm_set_velocity`: 5 where
/// no body may have the pose, the ticks aren't 1 to 8, the angle is a quarter of a turn or more, or the course is
/// beyond its limits.
#[unsafe(no_mangle)]
pub extern "C" fn dm_set_target(
    alloc: Global,
    world: &mut CWorld,
    body: CHandle,
    at: CVector,
    facing: CFacing,
    ticks: i64,
) -> u32
    ensures { DoesBy (steering_to (handle_said body) (pose_said at facing) ticks) world.old.desk result world.new.desk }
{
    match take(alloc, world) {
        None => NO_WORLD,
        Some(mut desk) => {
            let to = pose_of(at, facing);
            let status = steer_body_to(alloc, &mut desk, handle_of(body), to, ticks);
            put(world, desk);
            status
        }
    }
}

// ---- the spin of a mover

/// The push beside the centre.
fn twisting(body: Handle, by: i64) -> Command
    ensures { result ≡ twisting body by }
{
    let push = Vec2 {
        x: 0,
        y: twist_push(by),
    };
    let offset = Vec2 { x: lever(by), y: 0 };
    Command::PushAt(body, push, offset)
}

/// The opposite push at the centre.
fn untwisting(body: Handle, by: i64) -> Command
    ensures { result ≡ untwisting body by }
{
    let push = Vec2 {
        x: 0,
        y: -twist_push(by),
    };
    Command::Push(body, push)
}

/// Gives a mover of a desk the push beside its centre.
fn begin_twist(alloc: Global, desk: &mut Desk, body: Handle, by: &i64) -> u32
    ensures { AnswersAs (twisting body by.now) desk.old result desk.new }
{
    answer_to(alloc, desk, twisting(body, *by)).status
}

/// Gives it the opposite push, where the first one was accepted.
fn end_twist(alloc: Global, desk: &mut Desk, body: Handle, by: &i64, first: u32) -> u32
    ensures { IsThen (untwisting body by.now) first desk.old result desk.new }
{
    if first != 0 {
        return first;
    }
    answer_to(alloc, desk, untwisting(body, *by)).status
}

/// Gives a mover of a desk both pushes.
fn twist(alloc: Global, desk: &mut Desk, body: Handle, by: &i64) -> u32
    ensures { Twists body by.now desk.old result desk.new }
{
    let first = begin_twist(alloc, desk, body, by);
    end_twist(alloc, desk, body, by, first)
}

/// Gives a mover an angular impulse, in mass·u²/tick: a push beside its centre, and the opposite one at it. So its
/// momentum stays, and two entries that add up to nothing are booked. Up to 2^40 the impulse is met, up to 2^60 to the
/// nearest 2^20, and beyond that it is refused. Refused as `dm_push_at`; 1 and 10 may also be answered between the two
/// pushes, and the first one then stays.
#[unsafe(no_mangle)]
pub extern "C" fn dm_twist(alloc: Global, world: &mut CWorld, body: CHandle, by: i64) -> u32
    ensures { TwistsIn (handle_said body) (λ w. by) world.old.desk result world.new.desk }
{
    match take(alloc, world) {
        None => NO_WORLD,
        Some(mut desk) => {
            let status = twist(alloc, &mut desk, handle_of(body), &by);
            put(world, desk);
            status
        }
    }
}

/// Gives a mover of a desk a spin.
fn twist_body_to(alloc: Global, desk: &mut Desk, body: Handle, spin: i64) -> u32
    ensures { Twists body (twist_to (body_named desk.old.world.plain body) spin) desk.old result desk.new }
{
    let by = twist_to(sound_body(&desk.world, body), spin);
    twist(alloc, desk, body, &by)
}

/// Gives a mover the spin, the tangent of the turn of a tick times 2^30, by a `dm_twist` of
/// `inertia * spin / 2^30 - l`, and is refused as that. A body of inertia 0 doesn't turn.
#[unsafe(no_mangle)]
pub extern "C" fn dm_twist_to(alloc: Global, world: &mut CWorld, body: CHandle, spin: i64) -> u32
    ensures { TwistsIn (handle_said body) (λ w. twist_to (body_named w.plain (handle_said body)) spin) world.old.desk result world.new.desk }
{
    match take(alloc, world) {
        None => NO_WORLD,
        Some(mut desk) => {
            let status = twist_body_to(alloc, &mut desk, handle_of(body), spin);
            put(world, desk);
            status
        }
    }
}
