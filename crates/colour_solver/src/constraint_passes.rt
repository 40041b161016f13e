//! A pass over all constraints of a step, whoever makes it.

ghost use Rattle.std.specs.Prelude.{◌≡◌, ℕ, ◌≤◌, ◌^◌, length, map};
ghost use Rattle.fixed_geom.specs.Vectors.{plus};
ghost use Rattle.momenta.specs.Gains.{IsGain};
ghost use Rattle.colour_solver.specs.Colour.{AreColours};
ghost use Rattle.colour_solver.specs.ColourRows.{ColourRows, all_rows};
ghost use Rattle.colour_solver.specs.ConstraintVisits.{AreRowsBelow, constraint_slots};
ghost use Rattle.colour_solver.specs.Phases.{constraint_visit};
ghost use Rattle.colour_solver.specs.States.{AreAllStates, AreSameStates, as_vector, total};
ghost use Rattle.colour_solver.specs.RowVisits.{passed, rows_passed, share};
ghost use Rattle.colour_solver.specs.declared.constraint_row.ConstraintRow.{ConstraintRow as TheConstraintRow};

use crate::{Bounce, Phase, Rows, Solve, Warm};
use body_handles::MAX_SLOTS;
use momenta::{BodyState, Gain};

/// The constraints of a step, over which passes are made: by the calling thread, or by others with it.
pub trait Passes {
    /// The rows of each colour, and those that have no colour.
    ghost rows: { Self → ColourRows TheConstraintRow };

    /// They are of a step of so many bodies.
    ghost fits: { Self → ℕ → Type 0 } = { λ _ _. Unit {0} };

    /// One pass over all rows in solve order, each with the bodies as those before it left them; each row stays in its
    /// colour. Answers what immovable bodies have given to the movers (mass·u/tick).
    fn pass(&mut self, states: &mut Vec<BodyState>, phase: Phase) -> Gain
        requires few { length states.old.items ≤ MAX_SLOTS }
        requires states { AreAllStates states.old.items }
        requires rows { AreRowsBelow (length states.old.items) (all_rows (rows self.old)) }
        requires colours { AreColours states.old.items (rows self.old) }
        requires fits { fits self.old (length states.old.items) }
        ensures states { states.new.items ≡ passed constraint_slots (constraint_visit phase) states.old.items (all_rows (rows self.old)) }
        ensures rows { all_rows (rows self.new) ≡ rows_passed constraint_slots (constraint_visit phase) states.old.items (all_rows (rows self.old)) }
        ensures counts { map length (rows self.new).colours ≡ map length (rows self.old).colours }
        ensures share { as_vector result ≡ share constraint_slots (constraint_visit phase) states.old.items (all_rows (rows self.old)) }
        ensures all_states { AreAllStates states.new.items }
        ensures all_rows { AreRowsBelow (length states.new.items) (all_rows (rows self.new)) }
        ensures colours { AreColours states.new.items (rows self.new) }
        ensures long { length states.new.items ≡ length states.old.items }
        ensures same { AreSameStates states.old.items states.new.items }
        ensures momentum { total states.new.items ≡ plus (total states.old.items) (as_vector result) }
        ensures small { IsGain (2 ^ 78) result }
        ensures fits { (n : ℕ) → fits self.old n → fits self.new n };
}

impl Passes for Rows {
    ghost rows = { λ r. r };

    fn pass(&mut self, states: &mut Vec<BodyState>, phase: Phase) -> Gain {
        match phase {
            Phase::Warm => Rows::pass(self, states, &Warm, &Warm),
            Phase::Solve => Rows::pass(self, states, &Solve, &Solve),
            Phase::Bounce => Rows::pass(self, states, &Bounce, &Bounce),
        }
    }
}
