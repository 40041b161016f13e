//! The run of a part: its ticks and its restitution.

ghost use Rattle.std.specs.Prelude.{ℕ, ◌≡◌, ◌*◌, ◌+◌, ◌<◌, ◌^◌, length};
ghost use Rattle.fixed_geom.specs.Vectors.{plus as plus_vectors};
ghost use Rattle.momenta.specs.Gains.{IsGain};
ghost use Rattle.momenta.specs.Motions.{advanced, pulled, speed_clamped};
ghost use Rattle.colour_solver.specs.ColourRows.{all_rows};
ghost use Rattle.colour_solver.specs.Passes.{gain, pass};
ghost use Rattle.colour_solver.specs.States.{as_vector};
ghost use Rattle.colour_solver.specs.Ticks.{AreSums, run_of};
ghost use Rattle.colour_solver.specs.declared.phase.Phase.TheVariants.{Warm};
ghost use Rattle.part_runs.specs.Runs.{IsInRange, at_home, part_ran, solved_stand, stand_of, ticks_stand, ticks_sums};
ghost use Rattle.part_solver.specs.Mail.{ArePosted};
ghost use Rattle.part_solver.specs.Parts.{AreRings, IsPartOf};
ghost use Rattle.part_solver.specs.Running.{IsStanding, IsWalked, mail_before, stand_at, sums_of};

use crate::part_pass::{Turn, add, pass_all};
use crate::ports::Ports;
use crate::seat::Lists;
use crate::step_lists::StepLists;
use colour_solver::{Gains, Limit, Move, Phase, Pull, StepSums, carry_along, pass_two};
use momenta::{Gain, NOTHING};
use part_runs::laws::{
    bodies_are_hidden, parts_at_home, parts_can_run, stands_are_reached, ticks_are_reached,
    visits_are_fair,
};
use std::sync::Wait;

/// What a run has come to so far.
#[derive(Clone, Copy)]
pub(crate) struct Outcome {
    pub(crate) sums: StepSums,
    pub(crate) long_waits: u32,
}

/// The sums after a tick: what gravity and the first speed limit, the two passes, and the second speed limit and the
/// move have added.
fn sums_after(before: StepSums, fallen: Gains, warm: Gain, solved: Gain, moved: Gains) -> StepSums
    requires before { AreSums (2 ^ 90) before }
    requires pulled { IsGain (2 ^ 78) fallen.first }
    requires limited { IsGain (2 ^ 78) fallen.second }
    requires warm { IsGain (2 ^ 85) warm }
    requires solved { IsGain (2 ^ 85) solved }
    requires limited_again { IsGain (2 ^ 78) moved.first }
    requires moved { IsGain (2 ^ 78) moved.second }
    ensures gravity { as_vector result.gravity ≡ plus_vectors (as_vector before.gravity) (as_vector fallen.first) }
    ensures immovable { as_vector result.immovable ≡ plus_vectors (plus_vectors (as_vector before.immovable) (as_vector warm)) (as_vector solved) }
    ensures clamp { as_vector result.clamp ≡ plus_vectors (plus_vectors (plus_vectors (as_vector before.clamp) (as_vector fallen.second)) (as_vector moved.first)) (as_vector moved.second) }
    ensures small { (n : ℕ) → AreSums n before → AreSums (n + 2 ^ 86) result }
{
    let gravity = add(before.gravity, fallen.first);
    let warmed = add(before.immovable, warm);
    let immovable = add(warmed, solved);
    let limited = add(before.clamp, fallen.second);
    let limited_again = add(limited, moved.first);
    let clamp = add(limited_again, moved.second);
    StepSums {
        gravity,
        immovable,
        clamp,
    }
}

/// Gravity and the speed limit, which begin a tick.
fn begin_tick(step: &StepLists, turn: Turn, lists: &mut Lists) -> Gains
    requires standing { IsStanding step.now turn.number (ticks_stand turn.tick step.now.gravity (stand_of step.now)) lists.old }
    ensures standing { IsStanding step.now turn.number (stand_at step.now turn.tick Warm) lists.new }
    ensures pulled { as_vector result.first ≡ gain (pulled step.now.gravity) (at_home step.now turn.number (ticks_stand turn.tick step.now.gravity (stand_of step.now)).states) }
    ensures limited { as_vector result.second ≡ gain speed_clamped (pass (pulled step.now.gravity) (at_home step.now turn.number (ticks_stand turn.tick step.now.gravity (stand_of step.now)).states)) }
    ensures small_first { IsGain (2 ^ 78) result.first }
    ensures small_second { IsGain (2 ^ 78) result.second }
{
    step.know();
    parts_at_home();
    ticks_are_reached();
    let gravity = step.gravity();
    pass_two(
        &mut lists.states,
        lists.awake.as_slice(),
        &Pull { gravity },
        &Limit,
    )
}

/// The speed limit, the move, and what is carried along, which end it.
fn end_tick(step: &StepLists, turn: Turn, lists: &mut Lists) -> Gains
    requires standing { IsStanding step.now turn.number (solved_stand step.now.gravity (ticks_stand turn.tick step.now.gravity (stand_of step.now))) lists.old }
    ensures standing { IsStanding step.now turn.number (ticks_stand (turn.tick + 1) step.now.gravity (stand_of step.now)) lists.new }
    ensures limited { as_vector result.first ≡ gain speed_clamped (at_home step.now turn.number (solved_stand step.now.gravity (ticks_stand turn.tick step.now.gravity (stand_of step.now))).states) }
    ensures moved { as_vector result.second ≡ gain advanced (pass speed_clamped (at_home step.now turn.number (solved_stand step.now.gravity (ticks_stand turn.tick step.now.gravity (stand_of step.now))).states)) }
    ensures small_first { IsGain (2 ^ 78) result.first }
    ensures small_second { IsGain (2 ^ 78) result.second }
{
    step.know();
    parts_at_home();
    ticks_are_reached();
    stands_are_reached();
    visits_are_fair();
    let moved = pass_two(&mut lists.states, lists.awake.as_slice(), &Limit, &Move);
    carry_along(&mut lists.states, lists.carried.as_slice());
    moved
}

/// One tick.
fn run_tick<R: Wait>(
    rt: &R,
    step: &StepLists,
    turn: Turn,
    lists: &mut Lists,
    ports: &mut Ports,
    before: Outcome,
) -> Outcome
    requires part { IsPartOf step.now (length ports.old.outs) turn.number }
    requires due { turn.tick < step.now.count }
    requires standing { IsStanding step.now turn.number (ticks_stand turn.tick step.now.gravity (stand_of step.now)) lists.old }
    requires posted { ArePosted step.now (length ports.old.outs) turn.number (mail_before step.now turn.tick Warm) ports.old }
    requires sums { sums_of before.sums ≡ ticks_sums step.now turn.number turn.tick }
    requires small { AreSums (turn.tick * 2 ^ 86) before.sums }
    ensures standing { IsStanding step.now turn.number (ticks_stand (turn.tick + 1) step.now.gravity (stand_of step.now)) lists.new }
    ensures posted { ArePosted step.now (length ports.old.outs) turn.number (mail_before step.now (turn.tick + 1) Warm) ports.new }
    ensures sums { sums_of result.sums ≡ ticks_sums step.now turn.number (turn.tick + 1) }
    ensures small { AreSums ((turn.tick + 1) * 2 ^ 86) result.sums }
{
    step.know();
    let fallen = begin_tick(step, turn, lists);
    let warm = pass_all(rt, step, turn, Phase::Warm, lists, ports);
    let solved = pass_all(rt, step, turn, Phase::Solve, lists, ports);
    let moved = end_tick(step, turn, lists);
    Outcome {
        sums: sums_after(before.sums, fallen, warm.given, solved.given, moved),
        long_waits: before
            .long_waits
            .saturating_add(warm.long_waits)
            .saturating_add(solved.long_waits),
    }
}

/// Runs all ticks of a part, and the restitution.
pub(crate) fn run<R: Wait>(
    rt: &R,
    step: &StepLists,
    number: u32,
    lists: &mut Lists,
    ports: &mut Ports,
) -> Outcome
    requires part { IsPartOf step.now (length ports.old.outs) number }
    requires rings { AreRings step.now (length ports.old.outs) number ports.old }
    requires walked { IsWalked step.now number lists.old }
    ensures run { run_of lists.new.states.items (all_rows lists.new.rows) result.sums ≡ part_ran step.now number }
    ensures range { IsInRange (part_ran step.now number) }
    ensures small { AreSums (2 ^ 90) result.sums }
{
    step.know();
    parts_can_run();
    bodies_are_hidden();
    parts_at_home();
    ticks_are_reached();
    stands_are_reached();
    visits_are_fair();
    let mut outcome = Outcome {
        sums: StepSums {
            gravity: NOTHING,
            immovable: NOTHING,
            clamp: NOTHING,
        },
        long_waits: 0,
    };
    let count = step.count();
    for tick in 0..count {
        outcome = run_tick(rt, step, Turn { number, tick }, lists, ports, outcome);
    }
    let last = Turn {
        number,
        tick: count,
    };
    let bounced = pass_all(rt, step, last, Phase::Bounce, lists, ports);
    Outcome {
        sums: StepSums {
            immovable: add(outcome.sums.immovable, bounced.given),
            ..outcome.sums
        },
        long_waits: outcome.long_waits.saturating_add(bounced.long_waits),
    }
}
