//! The commands, one call each.

ghost use Rattle.std.specs.Prelude.{◌≡◌, ◌==◌, cond};
ghost use Rattle.dillmonth.specs.Calls.{Creates, Does, DoesAs, IsAnswered, Joins, Steps};
ghost use Rattle.dillmonth.specs.Forms.{answer_said, bare, course_said, def_said, handle_said, joint_said, pose_said, vector_said};

use crate::conversions::{course_of, def_of, handle_of, joint_of, pose_of, show_handle, vector_of};
use crate::forms::{CAnswer, CBodyDef, CFacing, CHandle, CJointDef, CShape, CVector};
use crate::held::{CWorld, put, take};
use crate::statuses::{DONE, NO_WORLD, status_of};
use fixed_geom::Refusal;
use std::alloc::Global;
use world_core::{Command, Reply};
use world_desk::Desk;

const NOBODY: CHandle = CHandle {
    slot: 0,
    generation: 0,
};

/// A status, and nothing else.
pub(crate) fn bare(status: u32) -> CAnswer
    ensures { result ≡ bare status }
{
    CAnswer {
        status,
        unused: 0,
        made: NOBODY,
        step: 0,
    }
}

fn with_made(made: CHandle) -> CAnswer
    ensures { result ≡ record { status = 0; unused = 0; made = made; step = 0 } }
{
    CAnswer {
        status: DONE,
        unused: 0,
        made,
        step: 0,
    }
}

fn with_step(step: u64) -> CAnswer
    ensures { result ≡ record { status = 0; unused = 0; made = record { slot = 0; generation = 0 }; step = step } }
{
    CAnswer {
        status: DONE,
        unused: 0,
        made: NOBODY,
        step,
    }
}

/// An outcome in numbers.
fn answer_of(outcome: Result<Reply, Refusal>) -> CAnswer
    ensures { result ≡ answer_said outcome }
{
    match outcome {
        Ok(Reply::Body(handle)) => with_made(show_handle(handle)),
        Ok(Reply::Joint(handle)) => with_made(show_handle(handle)),
        Ok(Reply::Done) => bare(DONE),
        Ok(Reply::Stepped(step)) => with_step(step),
        Err(refusal) => bare(status_of(refusal)),
    }
}

/// Applies a command to the world of a desk.
pub(crate) fn answer_to(alloc: Global, desk: &mut Desk, command: Command) -> CAnswer
    ensures { IsAnswered command desk.old result desk.new }
{
    answer_of(desk.apply(alloc, &command))
}

/// Applies a command to the world that a caller holds. What lies beside the world stays.
pub(crate) fn do_one(alloc: Global, world: &mut CWorld, command: Command) -> CAnswer
    ensures { Does command world.old.desk result world.new.desk }
{
    match take(alloc, world) {
        None => bare(NO_WORLD),
        Some(mut desk) => {
            let answer = answer_to(alloc, &mut desk, command);
            put(world, desk);
            answer
        }
    }
}

/// Writes the id of what was made, if it was.
fn write_made(answer: &CAnswer, made: &mut CHandle)
    ensures { made.new ≡ cond (answer.now.status == 0) answer.now.made made.old }
{
    if answer.status == 0 {
        *made = answer.made;
    }
}

/// Writes the number of a step, if it was done.
fn write_step(answer: &CAnswer, step: &mut u64)
    ensures { step.new ≡ cond (answer.now.status == 0) answer.now.step step.old }
{
    if answer.status == 0 {
        *step = answer.step;
    }
}

/// Makes a body at rest; `made` is written where it is done. Refused 5 where `unused` isn't 0, 33 for a kind or a form
/// that is none, and as `Command::CreateBody`.
#[unsafe(no_mangle)]
pub extern "C" fn dm_create_body(
    alloc: Global,
    world: &mut CWorld,
    def: &CBodyDef,
    shapes: &[CShape],
    made: &mut CHandle,
) -> u32
    ensures { Creates (def_said def.now shapes.now) world.old.desk result made.old made.new world.new.desk }
{
    match def_of(alloc, def, shapes) {
        Err(status) => status,
        Ok(def) => {
            let answer = do_one(alloc, world, Command::CreateBody(def));
            write_made(&answer, made);
            answer.status
        }
    }
}

/// Takes a body away with its joints.
#[unsafe(no_mangle)]
pub extern "C" fn dm_destroy_body(alloc: Global, world: &mut CWorld, body: CHandle) -> u32
    ensures { DoesAs (Command.DestroyBody (handle_said body)) world.old.desk result world.new.desk }
{
    do_one(alloc, world, Command::DestroyBody(handle_of(body))).status
}

/// Joins two bodies; `made` is written where it is done. Refused 5 where `unused` isn't 0, and as
/// `Command::CreateJoint`.
#[unsafe(no_mangle)]
pub extern "C" fn dm_create_joint(
    alloc: Global,
    world: &mut CWorld,
    def: &CJointDef,
    made: &mut CHandle,
) -> u32
    ensures { Joins (joint_said def.now) world.old.desk result made.old made.new world.new.desk }
{
    match joint_of(def) {
        Err(status) => status,
        Ok(def) => {
            let answer = do_one(alloc, world, Command::CreateJoint(def));
            write_made(&answer, made);
            answer.status
        }
    }
}

/// Takes a joint away.
#[unsafe(no_mangle)]
pub extern "C" fn dm_destroy_joint(alloc: Global, world: &mut CWorld, joint: CHandle) -> u32
    ensures { DoesAs (Command.DestroyJoint (handle_said joint)) world.old.desk result world.new.desk }
{
    do_one(alloc, world, Command::DestroyJoint(handle_of(joint))).status
}

/// Gives a mover an impulse, in mass·u/tick.
#[unsafe(no_mangle)]
pub extern "C" fn dm_push(alloc: Global, world: &mut CWorld, body: CHandle, by: CVector) -> u32
    ensures { DoesAs (Command.Push (handle_said body) (vector_said by)) world.old.desk result world.new.desk }
{
    do_one(alloc, world, Command::Push(handle_of(body), vector_of(by))).status
}

/// The same at an offset from its centre, in u.
#[unsafe(no_mangle)]
pub extern "C" fn dm_push_at(
    alloc: Global,
    world: &mut CWorld,
    body: CHandle,
    by: CVector,
    offset: CVector,
) -> u32
    ensures { DoesAs (Command.PushAt (handle_said body) (vector_said by) (vector_said offset)) world.old.desk result world.new.desk }
{
    let command = Command::PushAt(handle_of(body), vector_of(by), vector_of(offset));
    do_one(alloc, world, command).status
}

/// Puts a body to another place with another facing.
#[unsafe(no_mangle)]
pub extern "C" fn dm_set_pose(
    alloc: Global,
    world: &mut CWorld,
    body: CHandle,
    at: CVector,
    facing: CFacing,
) -> u32
    ensures { DoesAs (Command.SetPose (handle_said body) (pose_said at facing)) world.old.desk result world.new.desk }
{
    do_one(
        alloc,
        world,
        Command::SetPose(handle_of(body), pose_of(at, facing)),
    )
    .status
}

/// Gives a kinematic body another velocity and spin.
#[unsafe(no_mangle)]
pub extern "C" fn dm_set_velocity(
    alloc: Global,
    world: &mut CWorld,
    body: CHandle,
    velocity: CVector,
    spin: i64,
) -> u32
    ensures { DoesAs (Command.SetVelocity (handle_said body) (course_said velocity spin)) world.old.desk result world.new.desk }
{
    let command = Command::SetVelocity(handle_of(body), course_of(velocity, spin));
    do_one(alloc, world, command).status
}

/// Sets the gravity, in u/tick².
#[unsafe(no_mangle)]
pub extern "C" fn dm_set_gravity(alloc: Global, world: &mut CWorld, gravity: CVector) -> u32
    ensures { DoesAs (Command.SetGravity (vector_said gravity)) world.old.desk result world.new.desk }
{
    do_one(alloc, world, Command::SetGravity(vector_of(gravity))).status
}

/// Takes a body out of the play.
#[unsafe(no_mangle)]
pub extern "C" fn dm_disable(alloc: Global, world: &mut CWorld, body: CHandle) -> u32
    ensures { DoesAs (Command.Disable (handle_said body)) world.old.desk result world.new.desk }
{
    do_one(alloc, world, Command::Disable(handle_of(body))).status
}

/// Lets a body take part again.
#[unsafe(no_mangle)]
pub extern "C" fn dm_enable(alloc: Global, world: &mut CWorld, body: CHandle) -> u32
    ensures { DoesAs (Command.Enable (handle_said body)) world.old.desk result world.new.desk }
{
    do_one(alloc, world, Command::Enable(handle_of(body))).status
}

/// Wakes the island of a mover.
#[unsafe(no_mangle)]
pub extern "C" fn dm_wake(alloc: Global, world: &mut CWorld, body: CHandle) -> u32
    ensures { DoesAs (Command.Wake (handle_said body)) world.old.desk result world.new.desk }
{
    do_one(alloc, world, Command::Wake(handle_of(body))).status
}

/// Puts the island of a mover to rest.
#[unsafe(no_mangle)]
pub extern "C" fn dm_sleep(alloc: Global, world: &mut CWorld, body: CHandle) -> u32
    ensures { DoesAs (Command.Sleep (handle_said body)) world.old.desk result world.new.desk }
{
    do_one(alloc, world, Command::Sleep(handle_of(body))).status
}

/// Lets 1 to 8 ticks pass; the number of the step is written where it is done.
#[unsafe(no_mangle)]
pub extern "C" fn dm_step(alloc: Global, world: &mut CWorld, ticks: i64, step: &mut u64) -> u32
    ensures { Steps (Command.Step ticks) world.old.desk result step.old step.new world.new.desk }
{
    let answer = do_one(alloc, world, Command::Step(ticks));
    write_step(&answer, step);
    answer.status
}
