//! The three equal worlds of a trial: the one that is called, its copy, and the reference.

use crate::whole_world::{WholeWorld, calls_of};
use crate::worlds::trials::compare::expect_same_worlds;
use crate::worlds::trials::stop::{Moment, Stop};
use check_scenes::{Answer, CallMark, commands_of, world_after};
use fixed_geom::Refusal;
use std::alloc::Global;
use world_core::Command;

/// Three equal worlds.
#[derive(Drop)]
pub struct TrialWorlds<W: WholeWorld> {
    alloc: Global,
    /// The one in which the call is made that may meet a refusal.
    pub world: W,
    /// A copy of it, made before the call.
    pub before: W,
    /// One in which the call is made while all memory is there.
    pub reference: W,
    /// Where the last call began to which memory may be refused.
    mark: Option<CallMark>,
}

impl<W: WholeWorld> TrialWorlds<W> {
    /// The world of a text, three times.
    pub fn of(alloc: Global, text: &str) -> Result<TrialWorlds<W>, Refusal> {
        match commands_of(alloc, text) {
            Ok(commands) => TrialWorlds::after(alloc, commands.as_slice()),
            Err(refusal) => Err(refusal),
        }
    }

    fn after(alloc: Global, commands: &[Command]) -> Result<TrialWorlds<W>, Refusal> {
        match world_after(alloc, commands) {
            Ok(world) => TrialWorlds::with(alloc, world, commands),
            Err(refusal) => Err(refusal),
        }
    }

    fn with(alloc: Global, world: W, commands: &[Command]) -> Result<TrialWorlds<W>, Refusal> {
        match (world.copied(), world_after(alloc, commands)) {
            (Ok(before), Ok(reference)) => Ok(TrialWorlds {
                alloc,
                world,
                before,
                reference,
                mark: None,
            }),
            (Err(refusal), _) | (Ok(_), Err(refusal)) => Err(refusal),
        }
    }

    /// The call begins, to which memory may be refused.
    pub fn begin(&mut self) {
        self.mark = Some(CallMark::begin(self.alloc));
    }

    /// The call has ended.
    pub fn end(&mut self) {
        if let Some(mark) = self.mark.take() {
            let _was_there = mark.end();
        }
    }

    /// Applies a command to the world in which memory may be refused.
    pub fn apply(&mut self, command: &Command) -> Answer {
        self.begin();
        let answer = self.world.apply(command);
        self.end();
        answer
    }

    /// Applies a command to the reference.
    pub fn apply_to_reference(&mut self, command: &Command) -> Answer {
        self.reference.apply(command)
    }

    /// Stops where the refused call has left something else than was there before.
    pub fn expect_kept(&self) -> Result<(), Stop> {
        expect_same_worlds(Moment::Refused, &self.world, &self.before)
    }

    /// Stops where the accepted call has left something else than in the reference.
    pub fn expect_as_reference(&self) -> Result<(), Stop> {
        expect_same_worlds(Moment::Accepted, &self.world, &self.reference)
    }

    /// Replays commands in the copy that was made before the call.
    pub fn replay_before(&mut self, alloc: Global, commands: &[Command]) -> Result<(), Refusal> {
        match self.before.replay(alloc, commands) {
            Ok(_) => Ok(()),
            Err(refusal) => Err(refusal),
        }
    }

    /// How many calls the world accepted since it was copied.
    pub fn calls_made(&self) -> Result<usize, Refusal> {
        let before = calls_of(&self.before)?;
        let calls = calls_of(&self.world)?;
        Ok(calls.saturating_sub(before) as usize)
    }
}
