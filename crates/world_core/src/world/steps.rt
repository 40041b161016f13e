//! The gravity, and a step: what it is refused for, what it prepares, and its commit, in which nothing can fail.

ghost use Rattle.std.specs.Prelude.{◌≡◌, ◌<◌, ◌^◌, cond, pos, unsigned_abs, Ok, Err};
ghost use Rattle.shapes.specs.Shapes.{is_between};
ghost use Rattle.world_rules.specs.Apply.{Answers, apply_gravity, apply_step};

use super::{MAX_GRAVITY, WorldCore};
use crate::booking::{book_step, renew_events};
use crate::committing::commit_collide;
use crate::preparing::prepare;
use crate::sleep_phase::rest_after_ticks;
use crate::solving::solve;
use crate::step_worker::{StepWorker, WorldLook};
use crew::PieceMap;
use fixed_geom::{Refusal, Vec2, is_within};
use shapes::is_between;
use world_core_base::Pace;
use world_rules::{MAX_TICKS, Reply};

/// Whether a step may take so many ticks: 1 to 8.
pub fn is_tick_count(ticks: i64) -> bool
    ensures { result ≡ is_between (pos 1) (pos 8) ticks }
{
    is_between(1, MAX_TICKS, ticks)
}

/// How many ticks a step takes: refused 5 outside 1 to 8.
fn tick_count(ticks: i64) -> Result<u64, Refusal>
    ensures { result ≡ cond (is_between (pos 1) (pos 8) ticks) (Ok (unsigned_abs ticks)) (Err Refusal.OutOfRange) }
{
    if !is_tick_count(ticks) {
        return Err(Refusal::OutOfRange);
    }
    Ok(ticks.unsigned_abs())
}

impl WorldCore {
    pub(super) fn set_gravity(&mut self, gravity: Vec2) -> Result<Reply, Refusal>
        requires { self.old.plain.calls < 2 ^ 40 }
        ensures { Answers (apply_gravity self.old.plain gravity) self.old result self.new }
    {
        if !is_within(gravity, MAX_GRAVITY) {
            return Err(Refusal::OutOfRange);
        }
        self.gravity = gravity;
        self.calls += 1;
        Ok(Reply::Done)
    }

    pub(super) fn step<S: StepWorker + PieceMap<WorldLook>>(
        &mut self,
        worker: &mut S,
        ticks: i64,
    ) -> Result<Reply, Refusal>
        requires { self.old.plain.calls < 2 ^ 40 }
        ensures { Answers (apply_step self.old.plain ticks) self.old result self.new }
    {
        let ticks = tick_count(ticks)?;
        let prepared = prepare(
            worker,
            &mut self.ledger,
            &mut self.activity,
            &mut self.constraints,
            &mut self.gathered,
            &mut self.scratch,
        )?;
        commit_collide(
            &mut self.activity,
            self.joint_handles.slot_entries(),
            &mut self.constraints,
            &mut self.scratch.woke,
            self.handles.slot_entries(),
            &prepared,
        );
        let sums = solve(
            worker,
            &mut self.activity.bodies,
            &mut self.constraints,
            &mut self.gathered,
            self.activity.sets.colours(),
            Pace {
                gravity: self.gravity,
                count: ticks,
            },
        );
        let rest = rest_after_ticks(
            &mut self.activity,
            self.joint_handles.slot_entries(),
            &self.constraints,
            &mut self.scratch,
            self.handles.slot_entries(),
            ticks,
        );
        self.steps += 1;
        self.calls += 1;
        book_step(&mut self.ledger, self.calls, sums, rest);
        renew_events(&mut self.events, &mut self.scratch, prepared.touches);
        Ok(Reply::Stepped(self.steps))
    }
}
