//! The law of contact rows.

ghost use Rattle.colour_solver_base.specs.Laws.{RowsAreContacts};

/// The visits of a row are what the definition makes of its contact: what the solver computes once a step, and keeps in
/// the row, is what the definition computes anew at each impulse. The function does nothing; its contract is the law.
pub fn rows_are_contacts()
    ensures { RowsAreContacts }
{}
