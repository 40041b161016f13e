//! What a step does with the bodies of a table: it runs the ticks, times the awake movers, and tells all bodies the
//! labels of their islands.

ghost use Rattle.std.specs.Prelude.{◌≡◌, ◌+◌, ◌≤◌, ◌^◌, true, length};
ghost use Rattle.fixed_geom.specs.Vectors.{IsWithin, plus};
ghost use Rattle.colour_solver.specs.States.{as_vector};
ghost use Rattle.colour_solver.specs.Ticks.{AreSums, added};
ghost use Rattle.graph_colours.specs.Colours.{all_members};
ghost use Rattle.colour_solver.specs.ConstraintVisits.{AreRowsBelow};
ghost use Rattle.plain_world.specs.Bodies.{AreBodies};
ghost use Rattle.plain_world.specs.Momentum.{momentum};
ghost use Rattle.world_core_base.specs.Gather.{states_of, with_motions};
ghost use Rattle.world_core_base.specs.Marked.{AreMarked};
ghost use Rattle.world_core_base.specs.Renewal.{renewed_bodies};
ghost use Rattle.world_core_base.specs.Standing.{HaveSameStanding};
ghost use Rattle.world_core_base.specs.Asleep.{SleepAlike};
ghost use Rattle.world_core_base.specs.StepRuns.{CanStep, HaveImpulses, run_over};
ghost use Rattle.world_core_base.specs.Telling.{AreToldBeside};
ghost use Rattle.momenta.specs.Gains.{IsGain};
ghost use Rattle.plain_world.specs.InSlots.{HaveSameSlots, AreTimersWithin};
ghost use Rattle.plain_world.specs.Sleep.{timed_bodies, told};

use crate::body_table::BodyTable;
use crate::gathered_rows::GatheredRows;
use crate::moving::move_bodies;
use crate::slot_list::Group;
use crate::step_solver::{Constraints, MovingSlots, Pace, StepSolver};
use crate::telling_bodies::{tell_bodies, tell_listed};
use crate::timing::time_bodies;
use body_handles::MAX_SLOTS;
use colour_solver::StepSums;
use graph_colours::{COLOURS, Colours};
use islands::Islands;
use momenta::Gain;
use plain_world::Constraint;

/// Whether it takes less time to tell so many bodies one by one than to tell all.
fn are_few(count: usize, all: usize) -> bool
    ensures { result ≡ true → count ≤ all }
{
    count <= all / 2
}

impl BodyTable {
    /// Tells the bodies the labels of their islands: movers of a sleeping one are put to rest, and those of any other
    /// are awake. Answers what the movers' momentum gains, since those that are put to rest lose theirs. Takes no
    /// memory.
    pub fn tell(&mut self, islands: &Islands) -> Gain
        requires few { length self.old.bodies ≤ MAX_SLOTS }
        requires bodies { AreBodies self.old.bodies }
        ensures bodies { self.new.bodies ≡ told islands.now.labels self.old.bodies }
        ensures all_bodies { AreBodies self.new.bodies }
        ensures slots { HaveSameSlots self.old.bodies self.new.bodies }
        ensures standing { HaveSameStanding self.old.bodies self.new.bodies }
        ensures momentum { momentum self.new.bodies ≡ plus (momentum self.old.bodies) (as_vector result) }
        ensures small { IsGain (2 ^ 78) result }
        ensures marked { AreMarked self.old self.new }
    {
        self.room = 0;
        let gain = tell_bodies(&mut self.bodies, &mut self.states, islands);
        self.awake.list_anew(Group::Awake, &self.states);
        gain
    }

    /// Tells the bodies in these slots the labels of their islands, where those in all other slots stay as they are
    /// when they are told, so that all bodies are told then. A slot may be listed more than once, and may be that of no
    /// body. Answers what the movers' momentum gains. It takes time by the slots that are listed alone, where these are
    /// few. Takes no memory.
    pub fn tell_some(&mut self, slots: &[u32], islands: &Islands) -> Gain
        requires few { length self.old.bodies ≤ MAX_SLOTS }
        requires bodies { AreBodies self.old.bodies }
        requires others { AreToldBeside slots.now islands.now.labels self.old.bodies }
        ensures bodies { self.new.bodies ≡ told islands.now.labels self.old.bodies }
        ensures all_bodies { AreBodies self.new.bodies }
        ensures slots { HaveSameSlots self.old.bodies self.new.bodies }
        ensures standing { HaveSameStanding self.old.bodies self.new.bodies }
        ensures momentum { momentum self.new.bodies ≡ plus (momentum self.old.bodies) (as_vector result) }
        ensures small { IsGain (2 ^ 78) result }
        ensures marked { AreMarked self.old self.new }
    {
        if are_few(slots.len(), self.bodies.len()) {
            return self.tell_listed(slots, islands);
        }
        self.tell(islands)
    }

    /// The same where there are no more of them than bodies.
    fn tell_listed(&mut self, slots: &[u32], islands: &Islands) -> Gain
        requires few { length self.old.bodies ≤ MAX_SLOTS }
        requires fewer { length slots.now ≤ length self.old.bodies }
        requires bodies { AreBodies self.old.bodies }
        requires others { AreToldBeside slots.now islands.now.labels self.old.bodies }
        ensures bodies { self.new.bodies ≡ told islands.now.labels self.old.bodies }
        ensures all_bodies { AreBodies self.new.bodies }
        ensures slots { HaveSameSlots self.old.bodies self.new.bodies }
        ensures standing { HaveSameStanding self.old.bodies self.new.bodies }
        ensures momentum { momentum self.new.bodies ≡ plus (momentum self.old.bodies) (as_vector result) }
        ensures small { IsGain (2 ^ 78) result }
        ensures marked { AreMarked self.old self.new }
    {
        self.room = 0;
        let gain = tell_listed(
            &mut self.bodies,
            &mut self.states,
            &mut self.awake,
            slots,
            islands,
        );
        gain
    }

    /// Lets so many ticks pass: the timer of an awake mover that is slow grows by them, and that of any other awake
    /// mover begins anew.
    pub fn time(&mut self, ticks: u64)
        requires bodies { AreBodies self.old.bodies }
        requires timers { AreTimersWithin (2 ^ 44) self.old.bodies }
        requires ticks { ticks ≤ 2 ^ 44 }
        requires flushed { self.old.pending ≡ 0 }
        ensures bodies { self.new.bodies ≡ timed_bodies ticks self.old.bodies }
        ensures all_bodies { AreBodies self.new.bodies }
        ensures slots { HaveSameSlots self.old.bodies self.new.bodies }
        ensures standing { HaveSameStanding self.old.bodies self.new.bodies }
        ensures asleep { SleepAlike self.old.bodies self.new.bodies }
        ensures marked { AreMarked self.old self.new }
        ensures flushed { self.new.pending ≡ 0 }
    {
        self.room = 0;
        time_bodies(&mut self.bodies, self.awake.as_slice(), ticks);
    }

    /// Runs the ticks of a step, 0 to 8, and its restitution, over the movers, the bodies that are carried along, and
    /// the constraints in solve order; fat boxes that their shapes have left are then made anew, and the slots of their
    /// bodies marked. Answers what was added to the movers' momentum, by cause. The solver runs the ticks.
    #[inline(never)]
    pub fn run<S: StepSolver>(
        &mut self,
        solver: &mut S,
        constraints: &mut Constraints,
        colours: &Colours<Constraint>,
        gathered: &mut GatheredRows,
        pace: Pace,
    ) -> StepSums
        requires few { length self.old.bodies ≤ MAX_SLOTS }
        requires bodies { AreBodies self.old.bodies }
        requires gravity { IsWithin (2 ^ 16) pace.gravity }
        requires count { pace.count ≤ 8 }
        requires flushed { self.old.pending ≡ 0 }
        requires colours_flushed { colours.now.pending ≡ 0 }
        requires can { CanStep (states_of self.old.bodies) constraints.old.joints.joints constraints.old.contacts.contacts colours.now.lists }
        requires room { length (all_members colours.now.lists) ≤ gathered.old.rows.room }
        requires more { COLOURS + 1 ≤ gathered.old.rows.more }
        ensures impulses { HaveImpulses (run_over pace.count pace.gravity (states_of self.old.bodies) constraints.old.joints.joints constraints.old.contacts.contacts colours.now.lists) constraints.old.joints.joints constraints.old.contacts.contacts constraints.new.joints.joints constraints.new.contacts.contacts result }
        ensures bodies { self.new.bodies ≡ renewed_bodies (with_motions self.old.bodies (run_over pace.count pace.gravity (states_of self.old.bodies) constraints.old.joints.joints constraints.old.contacts.contacts colours.now.lists).states) }
        ensures rows { AreRowsBelow (length self.old.bodies) (run_over pace.count pace.gravity (states_of self.old.bodies) constraints.old.joints.joints constraints.old.contacts.contacts colours.now.lists).rows }
        ensures numbered { constraints.new.contacts.numbered ≡ constraints.old.contacts.numbered }
        ensures all_bodies { AreBodies self.new.bodies }
        ensures slots { HaveSameSlots self.old.bodies self.new.bodies }
        ensures standing { HaveSameStanding self.old.bodies self.new.bodies }
        ensures asleep { SleepAlike self.old.bodies self.new.bodies }
        ensures small { AreSums (2 ^ 83) result }
        ensures momentum { momentum self.new.bodies ≡ plus (momentum self.old.bodies) (added result) }
        ensures marked { AreMarked self.old self.new }
        ensures flushed { self.new.pending ≡ 0 }
    {
        self.room = 0;
        let sums = solver.run_step(
            &mut self.states,
            constraints,
            colours,
            gathered,
            MovingSlots {
                awake: self.awake.as_slice(),
                carried: self.carried.as_slice(),
            },
            pace,
        );
        move_bodies(
            &mut self.bodies,
            &mut self.states,
            &mut self.marks,
            &mut self.boxes,
            self.awake.as_slice(),
            self.carried.as_slice(),
        );
        sums
    }
}
