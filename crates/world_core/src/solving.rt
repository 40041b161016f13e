//! The ticks of a step, over what acts.

ghost use Rattle.std.specs.Prelude.{◌≡◌, ◌≤◌, ◌+◌, ◌^◌, All, OnOk, length, map, take};
ghost use Rattle.std.specs.Result.{IsOkUnless};
ghost use Rattle.fixed_geom.specs.Vectors.{IsWithin, plus};
ghost use Rattle.contacts_base.specs.Contacts.{number_of};
ghost use Rattle.colour_solver.specs.Ticks.{AreSums, added};
ghost use Rattle.graph_colours.specs.Colours.{all_members, ids_of};
ghost use Rattle.graph_colours.specs.Members.{AreApart};
ghost use Rattle.plain_world.specs.Bodies.{AreBodies};
ghost use Rattle.plain_world.specs.Momentum.{momentum};
ghost use Rattle.plain_world.specs.Joints.{AreJoints, forbidden_pairs};
ghost use Rattle.plain_world.specs.InSlots.{HaveSameSlots};
ghost use Rattle.world_core_base.specs.Gather.{states_of};
ghost use Rattle.world_core_base.specs.JointEnds.{KeepEnds};
ghost use Rattle.world_core_base.specs.ContactBodies.{AreContactsOf};
ghost use Rattle.world_core_base.specs.Marked.{AreMarked};
ghost use Rattle.world_core_base.specs.Renewal.{renewed_bodies};
ghost use Rattle.world_core_base.specs.RowColours.{HasItsMovers};
ghost use Rattle.world_core_base.specs.Solving.{bodies_of, solve_order, solved};
ghost use Rattle.world_core_base.specs.Asleep.{SleepAlike};
ghost use Rattle.world_rules.specs.Gathering.{CanGather};

use body_handles::MAX_SLOTS;
use colour_solver::StepSums;
use fixed_geom::Refusal;
use graph_colours::{COLOURS, Colours};
use plain_world::Constraint;
use world_core_base::{BodyTable, Constraints, GatheredRows, Pace, StepSolver};

/// Makes room for a row for each of so many constraints and for those that begin, for a place beside each, and for all
/// colours.
pub(crate) fn reserve_rows(
    gathered: &mut GatheredRows,
    ties: usize,
    begun: usize,
) -> Result<(), Refusal>
    ensures room { OnOk result (ties + begun ≤ gathered.new.rows.room) }
    ensures more { OnOk result (COLOURS + 1 ≤ gathered.new.rows.more) }
    ensures memory_only { IsOkUnless result Refusal.NoMemory }
{
    let Some(count) = ties.checked_add(begun) else {
        return Err(Refusal::NoMemory);
    };
    gathered.reserve(count, COLOURS + 1)
}

/// Lets the solver run so many ticks over what acts, by colour, which gives joints and contacts the impulses that they
/// have left. Answers what was added to the movers' momentum, by cause. No two constraints of a colour share a mover.
/// Takes no memory.
pub(crate) fn solve<S: StepSolver>(
    solver: &mut S,
    bodies: &mut BodyTable,
    constraints: &mut Constraints,
    gathered: &mut GatheredRows,
    colours: &Colours<Constraint>,
    pace: Pace,
) -> StepSums
    requires few { length bodies.old.bodies ≤ MAX_SLOTS }
    requires bodies { AreBodies bodies.old.bodies }
    requires can { CanGather bodies.old.bodies constraints.old.joints.joints constraints.old.contacts.contacts colours.now.lists }
    requires bodies_flushed { bodies.old.pending ≡ 0 }
    requires colours_flushed { colours.now.pending ≡ 0 }
    requires gravity { IsWithin (2 ^ 16) pace.gravity }
    requires ticks { pace.count ≤ 8 }
    requires room { length (all_members colours.now.lists) ≤ gathered.old.rows.room }
    requires more { COLOURS + 1 ≤ gathered.old.rows.more }
    requires apart { All AreApart (take COLOURS colours.now.lists) }
    requires movers { All (All (HasItsMovers (states_of bodies.old.bodies) constraints.old.joints.joints)) colours.now.lists }
    ensures bodies { bodies.new.bodies ≡ renewed_bodies (bodies_of (solved pace.count pace.gravity (solve_order (ids_of colours.now.lists)) bodies.old.bodies constraints.old.joints.joints constraints.old.contacts.contacts)) }
    ensures joints { constraints.new.joints.joints ≡ (solved pace.count pace.gravity (solve_order (ids_of colours.now.lists)) bodies.old.bodies constraints.old.joints.joints constraints.old.contacts.contacts).joints }
    ensures contacts { constraints.new.contacts.contacts ≡ (solved pace.count pace.gravity (solve_order (ids_of colours.now.lists)) bodies.old.bodies constraints.old.joints.joints constraints.old.contacts.contacts).contacts }
    ensures numbered { constraints.new.contacts.numbered ≡ constraints.old.contacts.numbered }
    ensures sums { result ≡ (solved pace.count pace.gravity (solve_order (ids_of colours.now.lists)) bodies.old.bodies constraints.old.joints.joints constraints.old.contacts.contacts).sums }
    ensures all_bodies { AreBodies bodies.new.bodies }
    ensures slots { HaveSameSlots bodies.old.bodies bodies.new.bodies }
    ensures small { AreSums (2 ^ 83) result }
    ensures momentum { momentum bodies.new.bodies ≡ plus (momentum bodies.old.bodies) (added result) }
    ensures all_joints { AreJoints bodies.old.bodies constraints.new.joints.joints }
    ensures pairs { AreContactsOf bodies.old.bodies constraints.new.contacts.contacts }
    ensures marked { AreMarked bodies.old bodies.new }
    ensures forbidden { forbidden_pairs constraints.new.joints.joints ≡ forbidden_pairs constraints.old.joints.joints }
    ensures bodies_flushed { bodies.new.pending ≡ 0 }
    ensures numbers { map number_of constraints.new.contacts.contacts ≡ map number_of constraints.old.contacts.contacts }
    ensures asleep { SleepAlike bodies.old.bodies bodies.new.bodies }
    ensures ends { KeepEnds constraints.old.joints.joints constraints.new.joints.joints }
{
    let kept = constraints.contacts.split();
    kept.know_ascending();
    bodies.run(solver, constraints, colours, gathered, pace)
}
