//! Laws of the rows that a step gathers, for crates above. These functions do nothing; their contracts are the laws.

ghost use Rattle.world_core_base.specs.RowColours.{RowsAreColours};
ghost use Rattle.world_core_base.specs.SolvingArrays.{ArraysAreSolving};

/// The rows that a step gathers of a colour are a colour to the solver: no two of them share a mover, whose visits may
/// so be made at once (`colour_solver::colours_at_once`). The function does nothing; its contract is the law.
pub fn rows_are_colours()
    ensures { RowsAreColours }
{}

/// The dense arrays that a step works on say what the definition of a step says of bodies by slot and contacts by key:
/// gathering into them, running over them and writing back gives the same. The function does nothing; its contract is
/// the law.
pub fn arrays_are_solving()
    ensures { ArraysAreSolving }
{}
