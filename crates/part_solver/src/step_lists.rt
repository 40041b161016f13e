//! The lists of a step, which all its parts read.

ghost use Rattle.std.specs.Prelude.{◌≡◌};
ghost use Rattle.colour_solver.specs.States.{carried_of, movers_of};
ghost use Rattle.part_solver.specs.Steps.{CanSolve};

use crate::lent::Lent;
use fixed_geom::Vec2;
use momenta::BodyState;
use std::marker::Model;
use std::snapshot::Snapshot;

/// The bodies of a step, with the home of each slot, and, for contracts alone, what its rows are gathered from.
/// Contracts see all that its run hangs on.
#[derive(Drop)]
pub(crate) struct StepLists {
    pub(crate) states: Vec<BodyState>,
    pub(crate) lent: Snapshot<Lent>,
    /// The part of each slot; 0 for what isn't a mover.
    pub(crate) home: Vec<u32>,
    pub(crate) awake: Vec<u32>,
    pub(crate) carried: Vec<u32>,
    /// (u/tick²)
    pub(crate) gravity: Vec2,
    pub(crate) count: u64,
}

impl Model for StepLists {
    ghost use Rattle.std.specs.Prelude.{◌≡◌};
    ghost use Rattle.colour_solver.specs.States.{carried_of, movers_of};
    ghost use Rattle.part_runs.specs.Runs.{Step};
    ghost use Rattle.part_solver.specs.Lending.{rows_from};
    ghost use Rattle.part_solver.specs.Steps.{CanSolve};

    ghost Value = { Step };

    ghost view = { λ a. record { states = a.states.items; rows = rows_from a.states.items a.lent.value; home = a.home.items; gravity = a.gravity; count = a.count } };

    ghost invariant = { λ a. CanSolve (record { states = a.states.items; rows = rows_from a.states.items a.lent.value; home = a.home.items; gravity = a.gravity; count = a.count }) × (a.awake.items ≡ movers_of a.states.items) × (a.carried.items ≡ carried_of a.states.items) };
}

impl StepLists {
    /// What holds of a step.
    pub(crate) fn know(&self)
        ensures { CanSolve self.now }
    {
        let _ = &self.states;
    }

    /// Its bodies by slot.
    pub(crate) fn states(&self) -> &[BodyState]
        ensures { result.now ≡ self.now.states }
    {
        self.states.as_slice()
    }

    /// The home of each slot.
    pub(crate) fn home(&self) -> &[u32]
        ensures { result.now ≡ self.now.home }
    {
        self.home.as_slice()
    }

    /// The slots of its awake movers.
    pub(crate) fn awake(&self) -> &[u32]
        ensures { result.now ≡ movers_of self.now.states }
    {
        self.awake.as_slice()
    }

    /// The slots of its bodies that are carried along.
    pub(crate) fn carried(&self) -> &[u32]
        ensures { result.now ≡ carried_of self.now.states }
    {
        self.carried.as_slice()
    }

    /// Gravity (u/tick²).
    pub(crate) fn gravity(&self) -> Vec2
        ensures { result ≡ self.now.gravity }
    {
        self.gravity
    }

    /// For how many ticks.
    pub(crate) fn count(&self) -> u64
        ensures { result ≡ self.now.count }
    {
        self.count
    }
}
