//! The visit of one row with its two bodies as they stand, in 64 bits where there is room.

ghost use Rattle.std.specs.Prelude.{◌≡◌, ◌^◌, ◌<◌, None, length, IfSome};
ghost use Rattle.momenta.specs.Gains.{IsGain};
ghost use Rattle.colour_solver.specs.States.{AreAllStates, as_vector};
ghost use Rattle.colour_solver.specs.RowVisits.{IsCentreVisit64, IsRowOn, IsVisit64, IsVisited, ends_of, visit_of};

use crate::write_back::{got, put_centres, put_momenta, put_visit};
use crate::{Row, Slots, Visit};
use joint_rows::MomentumPair;
use momenta::{BodyState, Ends, Gain, MomentaPair64, NOTHING};

/// The visit of one row that has something to do, with its two bodies as they stand. Answers what the immovable one has
/// given, if one is.
#[inline(never)]
fn visit_bodies<R: Row, T: Visit<R>>(states: &mut Vec<BodyState>, row: &mut R, visit: &T) -> Gain
    requires states { AreAllStates states.old.items }
    requires row { IsRowOn R.slots R.is_row (length states.old.items) row.old }
    ensures visited { IsVisited R.slots R.is_row (T.visit visit.now) states.old.items row.old states.new.items row.new (as_vector result) }
    ensures small { IsGain (2 ^ 62) result }
{
    let slots = row.slots();
    let a = slots.a as usize;
    let b = slots.b as usize;
    let before = Ends {
        a: states[a],
        b: states[b],
    };
    let mut ends = before;
    visit.visit(row, &mut ends);
    put_momenta(&mut states[a], &ends.a);
    put_momenta(&mut states[b], &ends.b);
    got(&before.a, &before.b, ends.a.motion.p, ends.b.motion.p)
}

/// The visit of one row in 64 bits, where there is room.
#[inline(always)]
fn visit_row_64<R: Row, T: Visit<R>>(
    states: &[BodyState],
    row: &mut R,
    visit: &T,
) -> Option<MomentaPair64>
    requires states { AreAllStates states.now }
    requires row { IsRowOn R.slots R.is_row (length states.now) row.old }
    ensures value { IfSome result (IsVisit64 R.is_row (visit_of R.slots (T.visit visit.now) states.now row.old) (ends_of R.slots states.now row.old).a (ends_of R.slots states.now row.old).b row.new) }
    ensures slots { R.slots row.new ≡ R.slots row.old }
    ensures none { result ≡ None → row.new ≡ row.old }
{
    let slots = row.slots();
    visit.visit_64(row, &states[slots.a as usize], &states[slots.b as usize])
}

/// The visit of one row that has something to do: in 64 bits, where there is room. Answers what the immovable body has
/// given, if one is.
#[inline(always)]
fn visit_in_place<R: Row, T: Visit<R>>(states: &mut Vec<BodyState>, row: &mut R, visit: &T) -> Gain
    requires states { AreAllStates states.old.items }
    requires row { IsRowOn R.slots R.is_row (length states.old.items) row.old }
    ensures visited { IsVisited R.slots R.is_row (T.visit visit.now) states.old.items row.old states.new.items row.new (as_vector result) }
    ensures small { IsGain (2 ^ 62) result }
{
    let slots = row.slots();
    match visit_row_64(states, row, visit) {
        None => visit_bodies(states, row, visit),
        Some(now) => put_visit(states, slots, now),
    }
}

/// `visit_in_place`, apart from the bodies that are met most.
#[inline(never)]
fn visit_others<R: Row, T: Visit<R>>(states: &mut Vec<BodyState>, row: &mut R, visit: &T) -> Gain
    requires states { AreAllStates states.old.items }
    requires row { IsRowOn R.slots R.is_row (length states.old.items) row.old }
    ensures visited { IsVisited R.slots R.is_row (T.visit visit.now) states.old.items row.old states.new.items row.new (as_vector result) }
    ensures small { IsGain (2 ^ 62) result }
{
    visit_in_place(states, row, visit)
}

/// Whether both bodies turn, and have reciprocals of their inertias.
#[inline(always)]
fn turn_by_reciprocals(a: &BodyState, b: &BodyState) -> bool {
    a.reciprocals.inertia != 0 && b.reciprocals.inertia != 0
}

/// The same for two bodies in these slots.
#[inline(always)]
fn are_turned_by_reciprocals(states: &[BodyState], slots: Slots) -> bool
    requires first { slots.a < length states.now }
    requires second { slots.b < length states.now }
{
    turn_by_reciprocals(&states[slots.a as usize], &states[slots.b as usize])
}

/// `visit_in_place`. Bodies that turn by reciprocals, as most do, have it by themselves, where no more is asked of them
/// whether they do.
#[inline(always)]
fn visit_turning<R: Row, T: Visit<R>>(states: &mut Vec<BodyState>, row: &mut R, visit: &T) -> Gain
    requires states { AreAllStates states.old.items }
    requires row { IsRowOn R.slots R.is_row (length states.old.items) row.old }
    ensures visited { IsVisited R.slots R.is_row (T.visit visit.now) states.old.items row.old states.new.items row.new (as_vector result) }
    ensures small { IsGain (2 ^ 62) result }
{
    let slots = row.slots();
    if are_turned_by_reciprocals(states, slots) {
        visit_in_place(states, row, visit)
    } else {
        visit_others(states, row, visit)
    }
}

/// The visit of one row between the centres of its bodies, in 64 bits, where there is room.
#[inline(always)]
fn visit_row_centres_64<R: Row, T: Visit<R>>(
    states: &[BodyState],
    row: &mut R,
    visit: &T,
) -> Option<MomentumPair>
    requires states { AreAllStates states.now }
    requires row { IsRowOn R.slots R.is_row (length states.now) row.old }
    ensures value { IfSome result (IsCentreVisit64 R.is_row (visit_of R.slots (T.visit visit.now) states.now row.old) (ends_of R.slots states.now row.old).a (ends_of R.slots states.now row.old).b row.new) }
    ensures slots { R.slots row.new ≡ R.slots row.old }
    ensures none { result ≡ None → row.new ≡ row.old }
{
    let slots = row.slots();
    visit.visit_centres_64(row, &states[slots.a as usize], &states[slots.b as usize])
}

/// The visit of one row with its two bodies among `states`, as the definition has it. Answers what an immovable body
/// has given (mass·u/tick), by which the movers' momentum grows.
#[inline(always)]
pub fn solve_one<R: Row, T: Visit<R>>(states: &mut Vec<BodyState>, row: &mut R, visit: &T) -> Gain
    requires states { AreAllStates states.old.items }
    requires row { IsRowOn R.slots R.is_row (length states.old.items) row.old }
    ensures visited { IsVisited R.slots R.is_row (T.visit visit.now) states.old.items row.old states.new.items row.new (as_vector result) }
    ensures small { IsGain (2 ^ 62) result }
{
    if visit.is_idle(row) {
        return NOTHING;
    }
    let slots = row.slots();
    match visit_row_centres_64(states, row, visit) {
        None => visit_turning(states, row, visit),
        Some(now) => put_centres(states, slots, now),
    }
}
