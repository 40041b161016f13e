//! Which pass is made over constraints: the warm start, the solver's impulses, or the restitution. One type for the
//! three and for both kinds of rows, so that one crew serves them all.

ghost use Rattle.std.specs.Prelude.{◌≡◌, true, None, IfSome};
ghost use Rattle.momenta.specs.declared.state.Ends.{Ends};
ghost use Rattle.momenta.specs.ImpulseBounds.{AreSameBodies, AreStates, IsMomentumKept, IsState};
ghost use Rattle.joint_rows.specs.Rows.{IsJointRow};
ghost use Rattle.momenta.specs.Line64.{both_ends};
ghost use Rattle.colour_solver_base.specs.Rows.{IsRow};
ghost use Rattle.colour_solver.specs.ConstraintVisits.{contact_slots, joint_slots};
ghost use Rattle.colour_solver.specs.RowVisits.{IsCentreVisit64, IsVisit64};
ghost use Rattle.colour_solver.specs.Phases.{constraint_visit, contact_visit, joint_visit};

use crate::{Bounce, ConstraintRow, Solve, Visit, Warm};
use colour_solver_base::ContactRow;
use joint_rows::{JointRow, MomentumPair};
use momenta::{BodyState, Ends, MomentaPair64};

/// A pass over constraints.
#[derive(Clone, Copy, Debug, PartialEq, Eq)]
pub enum Phase {
    /// The kept impulses given once more.
    Warm,
    /// The impulses of the solver.
    Solve,
    /// Restitution.
    Bounce,
}

fn idle_joint(phase: Phase, row: &JointRow) -> bool
    ensures { result ≡ true → (e : Ends) → AreStates e → joint_visit phase row.now e ≡ record { row = row.now; ends = e } }
{
    match phase {
        Phase::Warm => Warm.is_idle(row),
        Phase::Solve => Solve.is_idle(row),
        Phase::Bounce => Bounce.is_idle(row),
    }
}

fn idle_contact(phase: Phase, row: &ContactRow) -> bool
    ensures { result ≡ true → (e : Ends) → AreStates e → contact_visit phase row.now e ≡ record { row = row.now; ends = e } }
{
    match phase {
        Phase::Warm => Warm.is_idle(row),
        Phase::Solve => Solve.is_idle(row),
        Phase::Bounce => Bounce.is_idle(row),
    }
}

#[inline(always)]
fn joint_64(phase: Phase, row: &mut JointRow, a: &BodyState, b: &BodyState) -> Option<MomentaPair64>
    requires row { IsJointRow row.old }
    requires first { IsState a.now }
    requires second { IsState b.now }
    ensures value { IfSome result (IsVisit64 IsJointRow (joint_visit phase row.old (both_ends a.now b.now)) a.now b.now row.new) }
    ensures slots { joint_slots row.new ≡ joint_slots row.old }
    ensures none { result ≡ None → row.new ≡ row.old }
{
    match phase {
        Phase::Warm => Warm.visit_64(row, a, b),
        Phase::Solve => Solve.visit_64(row, a, b),
        Phase::Bounce => Bounce.visit_64(row, a, b),
    }
}

#[inline(always)]
fn joint_centres_64(
    phase: Phase,
    row: &mut JointRow,
    a: &BodyState,
    b: &BodyState,
) -> Option<MomentumPair>
    requires row { IsJointRow row.old }
    requires first { IsState a.now }
    requires second { IsState b.now }
    ensures value { IfSome result (IsCentreVisit64 IsJointRow (joint_visit phase row.old (both_ends a.now b.now)) a.now b.now row.new) }
    ensures slots { joint_slots row.new ≡ joint_slots row.old }
    ensures none { result ≡ None → row.new ≡ row.old }
{
    match phase {
        Phase::Warm => Warm.visit_centres_64(row, a, b),
        Phase::Solve => Solve.visit_centres_64(row, a, b),
        Phase::Bounce => Bounce.visit_centres_64(row, a, b),
    }
}

#[inline(always)]
fn contact_64(
    phase: Phase,
    row: &mut ContactRow,
    a: &BodyState,
    b: &BodyState,
) -> Option<MomentaPair64>
    requires row { IsRow row.old }
    requires first { IsState a.now }
    requires second { IsState b.now }
    ensures value { IfSome result (IsVisit64 IsRow (contact_visit phase row.old (both_ends a.now b.now)) a.now b.now row.new) }
    ensures slots { contact_slots row.new ≡ contact_slots row.old }
    ensures none { result ≡ None → row.new ≡ row.old }
{
    match phase {
        Phase::Warm => Warm.visit_64(row, a, b),
        Phase::Solve => Solve.visit_64(row, a, b),
        Phase::Bounce => Bounce.visit_64(row, a, b),
    }
}

fn visit_joint(phase: Phase, row: &mut JointRow, ends: &mut Ends)
    requires row { IsJointRow row.old }
    requires states { AreStates ends.old }
    ensures value { record { row = row.new; ends = ends.new } ≡ joint_visit phase row.old ends.old }
    ensures row { IsJointRow row.new }
    ensures states { AreStates ends.new }
    ensures slots { joint_slots row.new ≡ joint_slots row.old }
    ensures same { AreSameBodies ends.old ends.new }
    ensures kept { IsMomentumKept ends.old ends.new }
{
    match phase {
        Phase::Warm => Warm.visit(row, ends),
        Phase::Solve => Solve.visit(row, ends),
        Phase::Bounce => Bounce.visit(row, ends),
    }
}

fn visit_contact(phase: Phase, row: &mut ContactRow, ends: &mut Ends)
    requires row { IsRow row.old }
    requires states { AreStates ends.old }
    ensures value { record { row = row.new; ends = ends.new } ≡ contact_visit phase row.old ends.old }
    ensures row { IsRow row.new }
    ensures states { AreStates ends.new }
    ensures slots { contact_slots row.new ≡ contact_slots row.old }
    ensures same { AreSameBodies ends.old ends.new }
    ensures kept { IsMomentumKept ends.old ends.new }
{
    match phase {
        Phase::Warm => Warm.visit(row, ends),
        Phase::Solve => Solve.visit(row, ends),
        Phase::Bounce => Bounce.visit(row, ends),
    }
}

impl Visit<ConstraintRow> for Phase {
    ghost visit = { λ t r e. constraint_visit t r e };

    fn is_idle(&self, row: &ConstraintRow) -> bool {
        match row {
            ConstraintRow::Joint(joint) => idle_joint(*self, joint),
            ConstraintRow::Contact(contact) => idle_contact(*self, contact),
        }
    }

    #[inline(always)]
    fn visit_64(
        &self,
        row: &mut ConstraintRow,
        a: &BodyState,
        b: &BodyState,
    ) -> Option<MomentaPair64> {
        match row {
            ConstraintRow::Joint(joint) => joint_64(*self, joint, a, b),
            ConstraintRow::Contact(contact) => contact_64(*self, contact, a, b),
        }
    }

    #[inline(always)]
    fn visit_centres_64(
        &self,
        row: &mut ConstraintRow,
        a: &BodyState,
        b: &BodyState,
    ) -> Option<MomentumPair> {
        match row {
            ConstraintRow::Joint(joint) => joint_centres_64(*self, joint, a, b),
            ConstraintRow::Contact(_) => None,
        }
    }

    fn visit(&self, row: &mut ConstraintRow, ends: &mut Ends) {
        match row {
            ConstraintRow::Joint(joint) => visit_joint(*self, joint, ends),
            ConstraintRow::Contact(contact) => visit_contact(*self, contact, ends),
        }
    }
}
