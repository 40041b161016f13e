//! Who runs the ticks of a step: the thread that calls, or others with it.

ghost use Rattle.std.specs.Prelude.{◌≡◌, []};
ghost use Rattle.world_core_base.specs.StepRuns.{CanRun, HasRun};

use crate::gather::{RowSources, gather_rows};
use crate::gathered_rows::GatheredRows;
use crate::impulses::put_impulses;
use crate::joint_table::JointTable;
use colour_solver::{StepSums, run_step};
use contacts::ContactTable;
use fixed_geom::Vec2;
use graph_colours::Colours;
use momenta::BodyState;
use plain_world::Constraint;
use std::alloc::Global;

/// The joints and the contacts of a world: what a step gives impulses.
#[derive(Drop)]
pub struct Constraints {
    pub joints: JointTable,
    pub contacts: ContactTable,
}

impl Constraints {
    /// None.
    pub fn new(alloc: Global) -> Constraints
        ensures joints { result.joints.joints ≡ [] }
        ensures contacts { result.contacts.contacts ≡ [] }
    {
        Constraints {
            joints: JointTable::new(alloc),
            contacts: ContactTable::new(alloc),
        }
    }
}

/// The slots that a pass over the bodies goes over: those of the awake movers, and those of the bodies that are carried
/// along.
#[derive(Clone, Copy)]
pub struct MovingSlots<'a> {
    pub awake: &'a [u32],
    pub carried: &'a [u32],
}

/// Gravity (u/tick²), and for how many ticks.
#[derive(Clone, Copy)]
pub struct Pace {
    pub gravity: Vec2,
    pub count: u64,
}

/// Runs the ticks of a step, 0 to 8, and its restitution: gathers the rows of the constraints that act, in solve order,
/// runs over them and the bodies as `colour_solver::run_step` does, and gives joints and contacts the impulses that are
/// left. It can't be refused: it has the threads that it needs, and where it lacks memory the calling thread runs the
/// ticks alone, in the memory of `gathered`. `OneThread` of `world_core` and the crew of a step in `world_workers`
/// implement it, and `BodyTable::run` calls it: this crate starts no threads.
pub trait StepSolver {
    /// Runs the ticks. Answers what was added to the movers' momentum, by cause.
    fn run_step(
        &mut self,
        states: &mut Vec<BodyState>,
        constraints: &mut Constraints,
        colours: &Colours<Constraint>,
        gathered: &mut GatheredRows,
        moving: MovingSlots,
        pace: Pace,
    ) -> StepSums
        requires can_run { CanRun states.old.items constraints.old colours.now gathered.old moving pace }
        ensures has_run { HasRun pace colours.now.lists states.old.items constraints.old states.new.items constraints.new result };
}

/// Runs the ticks of a step on the calling thread.
#[inline(never)]
pub fn run_alone(
    states: &mut Vec<BodyState>,
    constraints: &mut Constraints,
    colours: &Colours<Constraint>,
    gathered: &mut GatheredRows,
    moving: MovingSlots,
    pace: Pace,
) -> StepSums
    requires can_run { CanRun states.old.items constraints.old colours.now gathered.old moving pace }
    ensures has_run { HasRun pace colours.now.lists states.old.items constraints.old states.new.items constraints.new result }
{
    let sources = RowSources {
        states: states.as_slice(),
        joints: constraints.joints.joints(),
        contacts: constraints.contacts.split(),
    };
    gather_rows(&mut gathered.rows, &mut gathered.places, sources, colours);
    let sums = run_step(
        states,
        &mut gathered.rows,
        moving.awake,
        moving.carried,
        pace.gravity,
        pace.count,
    );
    put_impulses(constraints, &gathered.rows, &gathered.places);
    sums
}
