//! A list of commands, applied one after another.

ghost use Rattle.std.specs.Prelude.{◌≡◌, ◌↔◌, IsTrue, IfOk, OnOk, OnErr, Err};
ghost use Rattle.std.specs.Result.{IsOkUnless};
ghost use Rattle.world_core.specs.Grown.{GrowsByCalls};
ghost use Rattle.world_rules.specs.Apply.{Answers, apply};
ghost use Rattle.world_rules.specs.Replay.{replay, answers_to, IsPartOf};

use crate::WorldCore;
use fixed_geom::Refusal;
use std::alloc::Global;
use world_rules::{Command, Reply};

impl WorldCore {
    /// Applies commands one after another, and gives the answer to each. A refused command changes
    /// nothing, and the next one follows.
    ///
    /// Whatever the list, the answers and the world are those of the definition. With each accepted call the total of a
    /// cause grows by at most 2^83 in a component. Refused 1 where memory is wanting, and then the world is that after
    /// the commands before.
    pub fn replay(
        &mut self,
        alloc: Global,
        commands: &[Command],
    ) -> Result<Vec<Result<Reply, Refusal>>, Refusal>
        ensures answers { IfOk result (λ answers. answers.items ≡ answers_to self.old commands.now) }
        ensures world { OnOk result (self.new ≡ replay self.old commands.now) }
        ensures err { OnErr result (IsPartOf self.old commands.now self.new) }
        ensures grown { GrowsByCalls self.old self.new }
        ensures memory_only { IsOkUnless result Refusal.NoMemory }
    {
        let mut answers = Vec::with_capacity(alloc, commands.len())?;
        for command in commands {
            let answer = apply_one(self, command);
            if is_want_of_memory(&answer) {
                return Err(Refusal::NoMemory);
            }
            answers.push(answer)?;
        }
        Ok(answers)
    }
}

/// Applies one command to a world, which is sound before and after it.
fn apply_one(world: &mut WorldCore, command: &Command) -> Result<Reply, Refusal>
    ensures due { Answers (apply world.old.plain command.now) world.old result world.new }
    ensures grown { GrowsByCalls world.old world.new }
{
    world.know_sound();
    let answer = world.apply(command);
    world.know_sound();
    answer
}

fn is_want_of_memory(answer: &Result<Reply, Refusal>) -> bool
    ensures { IsTrue result ↔ (answer.now ≡ Err Refusal.NoMemory) }
{
    matches!(answer, Err(Refusal::NoMemory))
}
