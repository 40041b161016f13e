//! Many commands in one call.

ghost use Rattle.std.specs.Prelude.{◌≡◌, IfErr, IfOk, IfSome, None, Ok, drop, length, min, option_map, take};
ghost use Rattle.dillmonth.specs.Batch.{IsAnsweredAs, Ran, RanAll, command_said, creation_said, joined, plain_said, span_of};
ghost use Rattle.dillmonth.specs.Forms.{IsUnmade, joint_said};

use crate::commands::{answer_to, bare};
use crate::conversions::{course_of, def_of, handle_of, joint_of, pose_of, vector_of};
use crate::forms::{CAnswer, CCommand, CShape};
use crate::held::{CWorld, put, take};
use crate::statuses::{BAD_KIND, BAD_SPAN, OUT_OF_RANGE};
use std::alloc::Global;
use world_core::Command;
use world_desk::Desk;

/// The shapes of a command that makes a body, if the batch has them all.
fn shapes_in<'a>(command: &CCommand, shapes: &'a [CShape]) -> Option<&'a [CShape]>
    ensures { option_map (λ part. part.now) result ≡ span_of command.now shapes.now }
{
    let from = command.shapes_from as usize;
    let count = command.shapes_count as usize;
    if from > shapes.len() || count > shapes.len() - from {
        return None;
    }
    Some(&shapes[from..from + count])
}

/// A body to be made.
fn creation_of(alloc: Global, command: &CCommand, shapes: &[CShape]) -> Result<Command, u32>
    ensures said { IfOk result (λ said. creation_said command.now (span_of command.now shapes.now) ≡ Ok said) }
    ensures refused { IfErr result (λ status. IsUnmade (creation_said command.now (span_of command.now shapes.now)) status) }
{
    let Some(part) = shapes_in(command, shapes) else {
        return Err(BAD_SPAN);
    };
    let def = def_of(alloc, &command.body, part)?;
    Ok(Command::CreateBody(def))
}

/// A joint to be made.
fn joining_of(command: &CCommand) -> Result<Command, u32>
    ensures { result ≡ joined (joint_said command.now.joint) }
{
    match joint_of(&command.joint) {
        Err(status) => Err(status),
        Ok(def) => Ok(Command::CreateJoint(def)),
    }
}

/// A command that makes nothing, if there is one of this kind.
fn plain_command(command: &CCommand) -> Option<Command>
    ensures { result ≡ plain_said command.now }
{
    let body = handle_of(command.joint.a);
    match command.kind {
        1 => Some(Command::DestroyBody(body)),
        3 => Some(Command::DestroyJoint(body)),
        4 => Some(Command::Push(body, vector_of(command.by))),
        5 => Some(Command::PushAt(body, vector_of(command.by), vector_of(command.offset))),
        6 => Some(Command::SetPose(body, pose_of(command.body.at, command.body.facing))),
        7 => Some(Command::SetVelocity(body, course_of(command.body.velocity, command.body.spin))),
        8 => Some(Command::SetGravity(vector_of(command.by))),
        9 => Some(Command::Disable(body)),
        10 => Some(Command::Enable(body)),
        11 => Some(Command::Wake(body)),
        12 => Some(Command::Sleep(body)),
        13 => Some(Command::Step(command.ticks)),
        _ => None,
    }
}

/// What a command says; a status where it says none, or where memory is wanting.
fn command_of(alloc: Global, command: &CCommand, shapes: &[CShape]) -> Result<Command, u32>
    ensures said { IfOk result (λ said. command_said shapes.now command.now ≡ Ok said) }
    ensures refused { IfErr result (λ status. IsUnmade (command_said shapes.now command.now) status) }
{
    if command.unused != 0 {
        return Err(OUT_OF_RANGE);
    }
    if command.kind == 0 {
        return creation_of(alloc, command, shapes);
    }
    if command.kind == 2 {
        return joining_of(command);
    }
    match plain_command(command) {
        Some(command) => Ok(command),
        None => Err(BAD_KIND),
    }
}

/// Answers one command of a batch.
fn answer_one(alloc: Global, desk: &mut Desk, command: &CCommand, shapes: &[CShape]) -> CAnswer
    ensures { IsAnsweredAs (command_said shapes.now command.now) desk.old result desk.new }
{
    match command_of(alloc, command, shapes) {
        Ok(command) => answer_to(alloc, desk, command),
        Err(status) => bare(status),
    }
}

/// Answers each command in turn.
fn answer_all(
    alloc: Global,
    desk: &mut Desk,
    commands: &[CCommand],
    shapes: &[CShape],
    answers: &mut [CAnswer],
)
    requires { length answers.old ≡ length commands.now }
    ensures ran { Ran shapes.now commands.now answers.new desk.old desk.new }
    ensures length { length answers.new ≡ length answers.old }
{
    let mut at = 0;
    while at < commands.len() {
        answers[at] = answer_one(alloc, desk, &commands[at], shapes);
        at += 1;
    }
}

/// Does commands one after another, as many as there is room for answers, and tells how many. A refused one changes
/// nothing, and the next one follows.
#[unsafe(no_mangle)]
pub extern "C" fn dm_apply_all(
    alloc: Global,
    world: &mut CWorld,
    commands: &[CCommand],
    shapes: &[CShape],
    answers: &mut [CAnswer],
) -> usize
    ensures ran { RanAll shapes.now (take result commands.now) (take result answers.new) world.old.desk world.new.desk }
    ensures rest { drop result answers.new ≡ drop result answers.old }
    ensures none { world.old.desk ≡ None → result ≡ 0 }
    ensures all { IfSome world.old.desk (λ _. result ≡ min (length commands.now) (length answers.old)) }
{
    match take(alloc, world) {
        None => 0,
        Some(mut desk) => {
            let count = commands.len().min(answers.len());
            answer_all(
                alloc,
                &mut desk,
                &commands[..count],
                shapes,
                &mut answers[..count],
            );
            put(world, desk);
            count
        }
    }
}
