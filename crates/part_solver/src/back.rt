//! A step read back from its parts: bodies, impulses and sums.

ghost use Rattle.std.specs.Prelude.{◌≡◌, List, cond, length, slice_index_or, ◌≤◌, None, IfSome};
ghost use Rattle.momenta.specs.declared.state.BodyState.{BodyState as TheBodyState};
ghost use Rattle.colour_solver.specs.States.{nobody};
ghost use Rattle.part_runs.specs.Hidden.{part_at, ArePartsBelow};
ghost use Rattle.part_runs.specs.ReadBack.{AreBodiesBack};
ghost use Rattle.part_solver.specs.Parts.{run_at, IsRunBy, run_of_all};
ghost use Rattle.part_runs.specs.Runs.{Step};
ghost use Rattle.part_solver.specs.PuttingBack.{AreNamesApart, contacts_by, joints_by};
ghost use Rattle.world_core_base.specs.StepRuns.{HasLeft, HaveImpulses};

use crate::run::Outcome;
use crate::seat::Part;
use crate::seeing::part_at;
use crate::step_memory::StepMemory;
use crate::sums::{MOST_PARTS, are_small, sum_up};
use momenta::{BodyState, NOBODY};
use part_runs::laws::{parts_are_runs, parts_step_all, runs_are_read_back};
use world_core_base::{Constraints, put_impulses};

/// The body in a slot, as a part has it.
#[inline(always)]
fn body_in(parts: &[Part], part: u32, slot: usize) -> BodyState
    ensures { result ≡ slice_index_or (run_at parts.now part).states slot nobody }
{
    match parts.get(part as usize) {
        None => NOBODY,
        Some(part) => match part.states().get(slot) {
            None => NOBODY,
            Some(state) => *state,
        },
    }
}

/// The part that a body is read back from: its own if it is a mover, else the first.
#[inline(always)]
fn source(state: &BodyState, part: u32) -> u32
    ensures { result ≡ cond state.now.movable part 0 }
{
    if state.movable { part } else { 0 }
}

/// Reads all bodies back in place of those that stood there at first.
pub(crate) fn read_bodies(states: &mut Vec<BodyState>, parts: &[Part], home: &[u32])
    ensures { (now : List TheBodyState) → AreBodiesBack (part_at home.now) states.old.items (λ k. (run_at parts.now k).states) now → length now ≡ length states.old.items → states.new.items ≡ now }
{
    for slot in 0..states.len() {
        let part = source(&states[slot], part_at(home, slot));
        states[slot] = body_in(parts, part, slot);
    }
}

/// How many waits of all parts were long.
fn count_waits(parts: &[Part]) -> u32 {
    let mut waits: u32 = 0;
    for number in 0..parts.len() {
        waits = waits.saturating_add(parts[number].long_waits());
    }
    waits
}

/// Gives joints and contacts the impulses of each part's rows.
#[inline(never)]
fn put_all_impulses(constraints: &mut Constraints, parts: &[Part])
    ensures joints { constraints.new.joints.joints ≡ joints_by constraints.old.joints.joints parts.now (length parts.now) }
    ensures contacts { constraints.new.contacts.contacts ≡ contacts_by constraints.old.contacts.contacts parts.now (length parts.now) }
    ensures numbered { constraints.new.contacts.numbered ≡ constraints.old.contacts.numbered }
{
    for number in 0..parts.len() {
        let part = &parts[number];
        put_impulses(constraints, part.rows(), part.places());
    }
}

/// Reads the bodies of a step back from its parts, gives joints and contacts the impulses of the parts' rows, and adds
/// their sums up. Where the sums are too large, nothing is changed.
pub(crate) fn read_back(
    lists: &StepMemory,
    home: &[u32],
    states: &mut Vec<BodyState>,
    constraints: &mut Constraints,
) -> Option<Outcome>
    requires few { length lists.now.parts.items ≤ MOST_PARTS }
    requires homes { ArePartsBelow (part_at home.now) (length lists.now.parts.items) }
    ensures left { IfSome result (λ outcome. (t : Step) → IsRunBy t states.old.items home.now lists.now.parts.items → HasLeft (run_of_all t) states.old.items states.new.items outcome.sums) }
    ensures impulses { IfSome result (λ outcome. (t : Step) → IsRunBy t states.old.items home.now lists.now.parts.items → AreNamesApart t → HaveImpulses (run_of_all t) constraints.old.joints.joints constraints.old.contacts.contacts constraints.new.joints.joints constraints.new.contacts.contacts outcome.sums) }
    ensures numbered { constraints.new.contacts.numbered ≡ constraints.old.contacts.numbered }
    ensures states { result ≡ None → states.new.items ≡ states.old.items }
    ensures joints { result ≡ None → constraints.new.joints.joints ≡ constraints.old.joints.joints }
    ensures contacts { result ≡ None → constraints.new.contacts.contacts ≡ constraints.old.contacts.contacts }
{
    parts_are_runs();
    parts_step_all();
    runs_are_read_back();
    let parts = lists.parts.as_slice();
    let sums = sum_up(parts);
    if !are_small(sums) {
        return None;
    }
    put_all_impulses(constraints, parts);
    read_bodies(states, parts, home);
    Some(Outcome {
        sums,
        long_waits: count_waits(parts),
    })
}
