//! A pass over rows: one visit after another, in solve order.

ghost use Rattle.std.specs.Prelude.{◌≡◌, ◌^◌, ◌<◌, ◌≤◌, true, [], ◌∷◌, length, take, drop};
ghost use Rattle.momenta.specs.Gains.{IsGain};
ghost use Rattle.fixed_geom.specs.Vectors.{plus};
ghost use Rattle.colour_solver.specs.States.{AreAllStates, as_vector};
ghost use Rattle.colour_solver.specs.RowVisits.{AreRowsOn, IsPassed, IsRowOn, between, ends_of, got, visit_of};

use crate::{Row, Slots, Visit, solve_one};
use body_handles::MAX_SLOTS;
use momenta::{BodyState, Gain, NOTHING, plus};

/// The visit of one row. What an immovable body has given is added to the sum so far.
#[inline(never)]
fn add_visit<R: Row, T: Visit<R>>(
    states: &mut Vec<BodyState>,
    row: &mut R,
    visit: &T,
    given: &mut Gain,
)
    requires states { AreAllStates states.old.items }
    requires row { IsRowOn R.slots R.is_row (length states.old.items) row.old }
    requires given { IsGain (2 ^ 78) given.old }
    ensures passed { IsPassed R.slots R.is_row (T.visit visit.now) states.old.items (row.old ∷ []) states.new.items (row.new ∷ []) (got (ends_of R.slots states.old.items row.old) (visit_of R.slots (T.visit visit.now) states.old.items row.old).ends) }
    ensures given { as_vector given.new ≡ plus (as_vector given.old) (got (ends_of R.slots states.old.items row.old) (visit_of R.slots (T.visit visit.now) states.old.items row.old).ends) }
    ensures below { IsRowOn R.slots R.is_row (length states.new.items) row.new }
    ensures long { length states.new.items ≡ length states.old.items }
{
    let got = solve_one(states, row, visit);
    *given = plus(*given, got);
}

/// Whether impulses move both bodies of a row.
#[inline(always)]
fn are_movers(states: &[BodyState], slots: Slots) -> bool
    requires first { slots.a < length states.now }
    requires second { slots.b < length states.now }
    ensures first { result ≡ true → (ends_of (λ s. s) states.now slots).a.movable ≡ true }
    ensures second { result ≡ true → (ends_of (λ s. s) states.now slots).b.movable ≡ true }
{
    states[slots.a as usize].movable && states[slots.b as usize].movable
}

/// The visit of the next row: between two movers, as most rows are, the sum stays.
#[inline(always)]
fn visit_next<R: Row, T: Visit<R>>(
    states: &mut Vec<BodyState>,
    row: &mut R,
    visit: &T,
    given: &mut Gain,
)
    requires states { AreAllStates states.old.items }
    requires row { IsRowOn R.slots R.is_row (length states.old.items) row.old }
    requires given { IsGain (2 ^ 78) given.old }
    ensures passed { IsPassed R.slots R.is_row (T.visit visit.now) states.old.items (row.old ∷ []) states.new.items (row.new ∷ []) (got (ends_of R.slots states.old.items row.old) (visit_of R.slots (T.visit visit.now) states.old.items row.old).ends) }
    ensures given { as_vector given.new ≡ plus (as_vector given.old) (got (ends_of R.slots states.old.items row.old) (visit_of R.slots (T.visit visit.now) states.old.items row.old).ends) }
    ensures below { IsRowOn R.slots R.is_row (length states.new.items) row.new }
    ensures long { length states.new.items ≡ length states.old.items }
{
    let slots = row.slots();
    if are_movers(states, slots) {
        let _ = solve_one(states, row, visit);
    } else {
        add_visit(states, row, visit, given);
    }
}

/// One pass over the rows from the one with the number `start` up to the one with the number `end`, in their order,
/// each with the bodies as those before it left them. Answers what immovable bodies have given to the movers
/// (mass·u/tick); what two movers give one another leaves their sum alone.
pub fn pass_rows<R: Row, T: Visit<R>>(
    states: &mut Vec<BodyState>,
    rows: &mut Vec<R>,
    start: usize,
    end: usize,
    visit: &T,
) -> Gain
    requires few { length states.old.items ≤ MAX_SLOTS }
    requires states { AreAllStates states.old.items }
    requires rows { AreRowsOn R.slots R.is_row (length states.old.items) rows.old.items }
    requires ascend { start ≤ end }
    requires inside { end ≤ length rows.old.items }
    ensures passed { IsPassed R.slots R.is_row (T.visit visit.now) states.old.items (between start end rows.old.items) states.new.items (between start end rows.new.items) (as_vector result) }
    ensures before { take start rows.new.items ≡ take start rows.old.items }
    ensures behind { drop end rows.new.items ≡ drop end rows.old.items }
    ensures as_many { length rows.new.items ≡ length rows.old.items }
    ensures all_rows { AreRowsOn R.slots R.is_row (length states.new.items) rows.new.items }
    ensures small { IsGain (2 ^ 78) result }
{
    let mut given = NOTHING;
    for index in start..end {
        visit_next(states, &mut rows[index], visit, &mut given);
    }
    given
}
