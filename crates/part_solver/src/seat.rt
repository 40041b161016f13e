//! A part before and after its run: its number, its lists, which stay from step to step, and its ends of the rings.

ghost use Rattle.std.specs.Prelude.{◌≡◌, ◌+◌, ◌*◌, ◌^◌, IfOk, OnOk};
ghost use Rattle.colour_solver.specs.ColourRows.{all_rows};
ghost use Rattle.colour_solver.specs.States.{as_vector};
ghost use Rattle.colour_solver.specs.Ticks.{AreSums};
ghost use Rattle.part_runs.specs.Runs.{IsInRange};
ghost use Rattle.part_solver.specs.Benches.{IsRoomy};

use crate::lent::Lent;
use crate::moves::BodyMove;
use crate::ports::Ports;
use crate::step_lists::StepLists;
use colour_solver::{Rows, StepSums};
use fixed_geom::Refusal;
use graph_colours::Member;
use momenta::BodyState;
use plain_world::Constraint;
use std::alloc::Global;
use std::marker::Model;
use std::sync::Arc;

/// The lists of a part.
#[derive(Drop)]
pub(crate) struct Lists {
    /// The bodies by slot, as the part sees them.
    pub(crate) states: Vec<BodyState>,
    pub(crate) awake: Vec<u32>,
    pub(crate) carried: Vec<u32>,
    pub(crate) rows: Rows,
    /// The part's own constraints of a stage, while it walks.
    pub(crate) own: Vec<Member<Constraint>>,
    /// Beside the row of each contact where that may be.
    pub(crate) places: Vec<usize>,
    /// Who has the body in each slot.
    pub(crate) at: Vec<u32>,
    /// The moves from the part and to it, stage after stage.
    pub(crate) moves: Vec<BodyMove>,
    /// Where each stage ends among them.
    pub(crate) ends: Vec<usize>,
}

/// A part that is to be run. Contracts see its step and its number; its rings begin with this step, and its lists have
/// room for it.
#[derive(Drop)]
pub struct Seat {
    pub(crate) step: Arc<StepLists, Global>,
    pub(crate) lent: Arc<Lent, Global>,
    pub(crate) number: u32,
    pub(crate) lists: Lists,
    pub(crate) ports: Ports,
}

/// A part that has run. Contracts see its number and its run.
#[derive(Drop)]
pub struct Part {
    pub(crate) number: u32,
    pub(crate) lists: Lists,
    pub(crate) sums: StepSums,
    /// How many of its waits were long.
    pub(crate) long_waits: u32,
}

impl Model for Part {
    ghost use Rattle.std.specs.Prelude.{◌^◌};
    ghost use Rattle.colour_solver.specs.ColourRows.{all_rows};
    ghost use Rattle.colour_solver.specs.Ticks.{AreSums, run_of};
    ghost use Rattle.part_runs.specs.Runs.{IsInRange};
    ghost use Rattle.part_solver.specs.Parts.{Solved};

    ghost Value = { Solved };

    ghost view = { λ a. record { number = a.number; run = run_of a.lists.states.items (all_rows a.lists.rows) a.sums } };

    ghost invariant = { λ a. IsInRange (run_of a.lists.states.items (all_rows a.lists.rows) a.sums) × AreSums (2 ^ 90) a.sums };
}

impl Model for Seat {
    ghost use Rattle.std.specs.Prelude.{length};
    ghost use Rattle.std.specs.Arc.{arc_value};
    ghost use Rattle.part_solver.specs.Benches.{IsRoomyFor};
    ghost use Rattle.part_solver.specs.Lending.{HasSources};
    ghost use Rattle.part_solver.specs.Parts.{AreRings, IsPartOf, Place};

    ghost Value = { Place };

    ghost view = { λ a. record { step = arc_value a.step; number = a.number } };

    ghost invariant = { λ a. IsPartOf (arc_value a.step) (length a.ports.outs) a.number × AreRings (arc_value a.step) (length a.ports.outs) a.number a.ports × IsRoomyFor (arc_value a.step) a.lists × HasSources (arc_value a.step) (arc_value a.lent) };
}

/// For how much the walk of a part needs room.
#[derive(Clone, Copy)]
struct WalkRoom {
    colours: usize,
    moves: usize,
    ends: usize,
}

impl WalkRoom {
    /// Over so many bodies, rows and colours: what has no colour is a stage too, and so is the way home. Refused 1
    /// where no memory is so large.
    fn of(bodies: usize, rows: usize, colours: usize) -> Result<WalkRoom, Refusal>
        ensures colours { IfOk result (λ room. room.colours ≡ colours + 1) }
        ensures moves { IfOk result (λ room. room.moves ≡ 2 * rows + bodies) }
        ensures ends { IfOk result (λ room. room.ends ≡ colours + 2) }
    {
        let Some(twice) = rows.checked_mul(2) else {
            return Err(Refusal::NoMemory);
        };
        let Some(moves) = twice.checked_add(bodies) else {
            return Err(Refusal::NoMemory);
        };
        let Some(ends) = colours.checked_add(2) else {
            return Err(Refusal::NoMemory);
        };
        Ok(WalkRoom {
            colours: ends - 1,
            moves,
            ends,
        })
    }
}

impl Lists {
    pub(crate) fn new(alloc: Global) -> Lists {
        Lists {
            states: Vec::new(alloc),
            awake: Vec::new(alloc),
            carried: Vec::new(alloc),
            rows: Rows::new(alloc),
            own: Vec::new(alloc),
            places: Vec::new(alloc),
            at: Vec::new(alloc),
            moves: Vec::new(alloc),
            ends: Vec::new(alloc),
        }
    }

    /// Empties them, and makes room for so many bodies, rows and colours, and for all moves of a pass.
    pub(crate) fn prepare(
        &mut self,
        bodies: usize,
        rows: usize,
        colours: usize,
    ) -> Result<(), Refusal>
        ensures { OnOk result (IsRoomy bodies rows colours self.new) }
    {
        let room = WalkRoom::of(bodies, rows, colours)?;
        self.states.clear();
        self.awake.clear();
        self.carried.clear();
        self.rows.clear();
        self.own.clear();
        self.places.clear();
        self.at.clear();
        self.moves.clear();
        self.ends.clear();
        self.states.reserve(bodies)?;
        self.awake.reserve(bodies)?;
        self.carried.reserve(bodies)?;
        self.at.reserve(bodies)?;
        self.rows.reserve(rows, room.colours)?;
        self.own.reserve(rows)?;
        self.places.reserve(rows)?;
        self.moves.reserve(room.moves)?;
        self.ends.reserve(room.ends)?;
        Ok(())
    }
}

impl Part {
    /// Its bodies by slot.
    pub(crate) fn states(&self) -> &[BodyState]
        ensures { result.now ≡ self.now.run.states }
    {
        self.lists.states.as_slice()
    }

    /// Its rows, stage after stage.
    pub(crate) fn rows(&self) -> &Rows
        ensures { all_rows result.now ≡ self.now.run.rows }
    {
        &self.lists.rows
    }

    /// Beside the row of each contact where that may be.
    pub(crate) fn places(&self) -> &[usize] {
        self.lists.places.as_slice()
    }

    /// What was added to its movers' momentum, by cause.
    pub(crate) fn sums(&self) -> StepSums
        ensures gravity { as_vector result.gravity ≡ self.now.run.gravity }
        ensures immovable { as_vector result.immovable ≡ self.now.run.immovable }
        ensures clamp { as_vector result.clamp ≡ self.now.run.clamp }
        ensures small { AreSums (2 ^ 90) result }
        ensures range { IsInRange self.now.run }
    {
        self.sums
    }

    /// How many of its waits were long.
    pub(crate) fn long_waits(&self) -> u32 {
        self.long_waits
    }

    /// Its lists.
    pub(crate) fn into_lists(self) -> Lists {
        let Part {
            number: _,
            lists,
            sums: _,
            long_waits: _,
        } = self;
        lists
    }
}
