//! Who makes a step: who runs its ticks, and works the pieces of its collide.

use crate::collide::BodyShapes;
use colour_solver::StepSums;
use contacts::{PairPiece, SurveyPiece};
use crew::{Piece, PieceMap, Returned};
use graph_colours::Colours;
use momenta::BodyState;
use plain_world::Constraint;
use world_core_base::{
    Constraints, GatheredRows, JointTable, MovingSlots, Pace, StepSolver, run_alone,
};

/// Some contacts of a world to be looked over.
pub type WorldLook = SurveyPiece<BodyShapes, JointTable>;

/// Runs the ticks of a step, and works the near pairs of its collide in pieces. Who makes a step also works a
/// [`WorldLook`]; that is a bound of its own wherever this one stands, since the kit states no impl of a trait that
/// asks for it. [`OneThread`] here and the crew of a step in `world_workers` are both.
pub trait StepWorker: StepSolver + PieceMap<PairPiece> {}

/// The calling thread alone, which needs nothing.
#[derive(Clone, Copy)]
pub struct OneThread;

impl StepSolver for OneThread {
    fn run_step(
        &mut self,
        states: &mut Vec<BodyState>,
        constraints: &mut Constraints,
        colours: &Colours<Constraint>,
        gathered: &mut GatheredRows,
        moving: MovingSlots,
        pace: Pace,
    ) -> StepSums {
        run_alone(states, constraints, colours, gathered, moving, pace)
    }
}

impl<P: Piece> PieceMap<P> for OneThread {
    fn workers(&self) -> usize {
        1
    }

    fn map_pieces(
        &mut self,
        lent: P::Lent,
        _pieces: &mut Vec<P>,
        _answers: &mut Vec<P::Out>,
    ) -> Returned<P::Lent> {
        Returned {
            lent,
            is_done: false,
        }
    }
}

impl StepWorker for OneThread {}
