//! Copies of commands: each call of a crowd makes one of its own.

ghost use Rattle.std.specs.Prelude.{◌≡◌, IfOk};
ghost use Rattle.std.specs.Result.{IsOkUnless};

use fixed_geom::Refusal;
use plain_world::BodyDef;
use world_core::Command;

/// A copy of a command.
pub(crate) fn copy_of(command: &Command) -> Result<Command, Refusal>
    ensures copy { IfOk result (λ copy. copy ≡ command.now) }
    ensures memory_only { IsOkUnless result Refusal.NoMemory }
{
    match command {
        Command::CreateBody(def) => Ok(Command::CreateBody(copy_of_def(def)?)),
        Command::CreateJoint(def) => Ok(Command::CreateJoint(*def)),
        Command::DestroyBody(body) => Ok(Command::DestroyBody(*body)),
        Command::DestroyJoint(joint) => Ok(Command::DestroyJoint(*joint)),
        Command::Push(body, by) => Ok(Command::Push(*body, *by)),
        Command::PushAt(body, by, offset) => Ok(Command::PushAt(*body, *by, *offset)),
        Command::SetPose(body, pose) => Ok(Command::SetPose(*body, *pose)),
        Command::SetVelocity(body, course) => Ok(Command::SetVelocity(*body, *course)),
        Command::SetGravity(by) => Ok(Command::SetGravity(*by)),
        Command::Disable(body) => Ok(Command::Disable(*body)),
        Command::Enable(body) => Ok(Command::Enable(*body)),
        Command::Wake(body) => Ok(Command::Wake(*body)),
        Command::Sleep(body) => Ok(Command::Sleep(*body)),
        Command::Step(ticks) => Ok(Command::Step(*ticks)),
    }
}

fn copy_of_def(def: &BodyDef) -> Result<BodyDef, Refusal>
    ensures copy { IfOk result (λ copy. copy ≡ def.now) }
    ensures memory_only { IsOkUnless result Refusal.NoMemory }
{
    let shapes = def.shapes.try_copy()?;
    Ok(BodyDef {
        kind: def.kind,
        mass: def.mass,
        x: def.x,
        rot: def.rot,
        shapes,
    })
}
