//! A pass of a part over its rows, stage after stage, with the bodies that move from it and to it.

ghost use Rattle.std.specs.Prelude.{ℕ, ◌≡◌, ◌+◌, ◌<◌, ◌≤◌, ◌^◌, [], length, slice_index_or, take};
ghost use Rattle.fixed_geom.specs.Vectors.{plus as plus_vectors};
ghost use Rattle.momenta.specs.Gains.{IsGain};
ghost use Rattle.colour_solver.specs.ColourRows.{AreEnds, cut, last_end};
ghost use Rattle.colour_solver.specs.RowVisits.{between};
ghost use Rattle.colour_solver.specs.States.{as_vector};
ghost use Rattle.part_runs.specs.Runs.{pass_given, visited, walks_of};
ghost use Rattle.part_runs.specs.Stages.{given_from};
ghost use Rattle.part_solver.specs.Mail.{ArePosted};
ghost use Rattle.part_solver.specs.Parts.{IsPartOf};
ghost use Rattle.part_solver.specs.Running.{IsBefore, IsDue, IsHanded, IsKnownPass, IsStanding, mail_after, mail_at, mail_before, stand_at, visits};

use crate::exchange::exchange;
use crate::moves::BodyMove;
use crate::ports::Ports;
use crate::seat::Lists;
use crate::step_lists::StepLists;
use colour_solver::Phase;
use momenta::{Gain, NOTHING, plus};
use part_runs::laws::{
    bodies_are_hidden, mail_is_sent, own_moves_tell, passes_by_parts, stands_are_reached,
    ticks_are_reached, visits_are_fair,
};
use std::sync::Wait;

/// What immovable bodies have given in a pass, and how many waits were long.
#[derive(Clone, Copy)]
pub(crate) struct Passed {
    pub(crate) given: Gain,
    pub(crate) long_waits: u32,
}

/// Which part runs which tick. The restitution counts as one behind the last.
#[derive(Clone, Copy)]
pub(crate) struct Turn {
    pub(crate) number: u32,
    pub(crate) tick: u64,
}

/// A stage of a pass, by its number.
#[derive(Clone, Copy)]
struct PassStage {
    phase: Phase,
    index: usize,
}

/// The sum of two changes of momentum.
pub(crate) fn add(one: Gain, other: Gain) -> Gain
    requires first { IsGain (2 ^ 100) one }
    requires second { IsGain (2 ^ 100) other }
    ensures sum { as_vector result ≡ plus_vectors (as_vector one) (as_vector other) }
    ensures small { (m n : ℕ) → IsGain m one → IsGain n other → IsGain (m + n) result }
{
    plus(one, other)
}

/// Where a stage's moves begin: where those of the stage before end.
fn start_of(ends: &[usize], stage: usize) -> usize
    requires { stage ≤ length ends.now }
    ensures { result ≡ last_end 0 (take stage ends.now) }
{
    if stage == 0 {
        return 0;
    }
    ends[stage - 1]
}

/// The moves from one place up to another.
fn moves_between(moves: &[BodyMove], from: usize, to: usize) -> &[BodyMove]
    requires ascend { from ≤ to }
    requires end { to ≤ length moves.now }
    ensures { result.now ≡ between from to moves.now }
{
    &moves[from..to]
}

/// The moves of a stage.
fn moves_of<'a>(moves: &'a [BodyMove], ends: &[usize], stage: usize) -> &'a [BodyMove]
    requires ends { AreEnds 0 ends.now (length moves.now) }
    requires stage { stage < length ends.now }
    ensures { result.now ≡ slice_index_or (cut 0 ends.now moves.now) stage [] }
{
    let start = start_of(ends, stage);
    moves_between(moves, start, ends[stage])
}

/// What is known of a pass.
fn know_pass(step: &StepLists, ports: &Ports, turn: Turn, phase: Phase)
    requires part { IsPartOf step.now (length ports.now.outs) turn.number }
    requires due { IsDue step.now turn.tick phase }
    ensures { IsKnownPass (length ports.now.outs) step.now turn.tick phase }
{
    step.know();
    passes_by_parts();
    visits_are_fair();
    ticks_are_reached();
    stands_are_reached();
    mail_is_sent();
}

/// Hands bodies on before a stage, and takes in what comes. Answers how many waits were long.
fn hand_on<R: Wait>(
    rt: &R,
    step: &StepLists,
    turn: Turn,
    stage: PassStage,
    lists: &mut Lists,
    ports: &mut Ports,
) -> u32
    requires part { IsPartOf step.now (length ports.old.outs) turn.number }
    requires due { IsDue step.now turn.tick stage.phase }
    requires stage { stage.index < length (walks_of step.now) }
    requires before { IsBefore step.now turn.number (visits stage.phase) (stand_at step.now turn.tick stage.phase) stage.index lists.old }
    requires posted { ArePosted step.now (length ports.old.outs) turn.number (mail_at step.now turn.tick stage.phase stage.index) ports.old }
    ensures handed { IsHanded step.now turn.number (visits stage.phase) (stand_at step.now turn.tick stage.phase) stage.index lists.new }
    ensures posted { ArePosted step.now (length ports.old.outs) turn.number (mail_at step.now turn.tick stage.phase (stage.index + 1)) ports.new }
{
    know_pass(step, ports, turn, stage.phase);
    own_moves_tell();
    bodies_are_hidden();
    let moves = moves_of(lists.moves.as_slice(), lists.ends.as_slice(), stage.index);
    exchange(rt, turn.number, moves, &mut lists.states, ports)
}

/// A stage of a pass: bodies are handed on, and the part's rows of the stage are visited.
fn pass_stage<R: Wait>(
    rt: &R,
    step: &StepLists,
    turn: Turn,
    stage: PassStage,
    lists: &mut Lists,
    ports: &mut Ports,
) -> Passed
    requires part { IsPartOf step.now (length ports.old.outs) turn.number }
    requires due { IsDue step.now turn.tick stage.phase }
    requires stage { stage.index < length (stand_at step.now turn.tick stage.phase).rows }
    requires before { IsBefore step.now turn.number (visits stage.phase) (stand_at step.now turn.tick stage.phase) stage.index lists.old }
    requires posted { ArePosted step.now (length ports.old.outs) turn.number (mail_at step.now turn.tick stage.phase stage.index) ports.old }
    ensures before { IsBefore step.now turn.number (visits stage.phase) (stand_at step.now turn.tick stage.phase) (stage.index + 1) lists.new }
    ensures posted { ArePosted step.now (length ports.old.outs) turn.number (mail_at step.now turn.tick stage.phase (stage.index + 1)) ports.new }
    ensures given { given_from step.now turn.number (visits stage.phase) (stand_at step.now turn.tick stage.phase) stage.index ≡ plus_vectors (as_vector result.given) (given_from step.now turn.number (visits stage.phase) (stand_at step.now turn.tick stage.phase) (stage.index + 1)) }
    ensures small { IsGain (2 ^ 78) result.given }
{
    step.know();
    know_pass(step, ports, turn, stage.phase);
    visits_are_fair();
    let long_waits = hand_on(rt, step, turn, stage, lists, ports);
    let given = lists
        .rows
        .pass_in(stage.index, &mut lists.states, stage.phase);
    Passed { given, long_waits }
}

/// A pass over the part's rows, stage after stage, in which bodies move from it and to it. Behind the last stage all go
/// home.
pub(crate) fn pass_all<R: Wait>(
    rt: &R,
    step: &StepLists,
    turn: Turn,
    phase: Phase,
    lists: &mut Lists,
    ports: &mut Ports,
) -> Passed
    requires part { IsPartOf step.now (length ports.old.outs) turn.number }
    requires due { IsDue step.now turn.tick phase }
    requires standing { IsStanding step.now turn.number (stand_at step.now turn.tick phase) lists.old }
    requires posted { ArePosted step.now (length ports.old.outs) turn.number (mail_before step.now turn.tick phase) ports.old }
    ensures standing { IsStanding step.now turn.number (visited (visits phase) (stand_at step.now turn.tick phase)) lists.new }
    ensures posted { ArePosted step.now (length ports.old.outs) turn.number (mail_after step.now turn.tick phase) ports.new }
    ensures given { as_vector result.given ≡ pass_given step.now turn.number (visits phase) (stand_at step.now turn.tick phase) }
    ensures small { IsGain (2 ^ 85) result.given }
{
    step.know();
    know_pass(step, ports, turn, phase);
    let mut given = NOTHING;
    let mut long_waits: u32 = 0;
    let stages = lists.rows.colours();
    for index in 0..stages {
        let made = pass_stage(rt, step, turn, PassStage { phase, index }, lists, ports);
        given = add(given, made.given);
        long_waits = long_waits.saturating_add(made.long_waits);
    }
    let way_home = PassStage {
        phase,
        index: stages,
    };
    let waits = hand_on(rt, step, turn, way_home, lists, ports);
    Passed {
        given,
        long_waits: long_waits.saturating_add(waits),
    }
}
