//! The visits of joints and contacts: the warm start, the impulses, and the restitution, which a joint has none of.

ghost use Rattle.std.specs.Prelude.{◌≡◌};
ghost use Rattle.joint_rows.specs.Rows.{joint_solved, joint_warmed};
ghost use Rattle.joint_rows.specs.Row64.{with_impulse};
ghost use Rattle.colour_solver_base.specs.Rows.{row_bounced, row_solved, row_warmed};
ghost use Rattle.colour_solver_base.specs.Row64.{with_point_impulses, with_row_impulses};
ghost use Rattle.colour_solver.specs.ConstraintVisits.{joint_unbounced, visited_joint};

use crate::Visit;
use colour_solver_base::{
    ContactRow, PointImpulses, PointRow, RowAfter64, bounce_row, has_no_impulses, never_bounces,
    solve_row, solve_row_64, warm_row, warm_row_64,
};
use joint_rows::{
    JointRow, MomentumPair, Pushed64, has_no_impulse, solve_centres_64, solve_joint,
    solve_joint_64, warm_centres_64, warm_joint, warm_joint_64,
};
use momenta::{BodyState, Ends, Exerted64, MomentaPair64};

/// Writes what a visit in 64 bits has made of a joint's impulse into its row. Answers the momenta of its bodies.
#[inline(always)]
fn put_impulse(row: &mut JointRow, visited: Exerted64) -> MomentaPair64
    ensures row { row.new ≡ with_impulse row.old visited.total }
    ensures now { result ≡ visited.now }
{
    row.impulse = visited.total;
    visited.now
}

/// Writes what a visit between the centres has made of a joint's impulse into its row. Answers the momenta of its
/// bodies.
#[inline(always)]
fn put_pushed(row: &mut JointRow, visited: Pushed64) -> MomentumPair
    ensures row { row.new ≡ with_impulse row.old visited.total }
    ensures now { result ≡ visited.now }
{
    row.impulse = visited.total;
    visited.now
}

/// Writes the impulses of a point into it.
#[inline(always)]
fn put_point(point: &mut PointRow, impulses: PointImpulses)
    ensures { point.new ≡ with_point_impulses impulses point.old }
{
    point.normal_impulse = impulses.normal;
    point.tangent_impulse = impulses.tangent;
}

/// Writes what a visit in 64 bits has made of a contact's impulses into its row. Answers the momenta of its bodies.
#[inline(always)]
fn put_impulses(row: &mut ContactRow, visited: RowAfter64) -> MomentaPair64
    ensures row { row.new ≡ with_row_impulses row.old visited.first visited.second }
    ensures now { result ≡ visited.now }
{
    put_point(&mut row.first, visited.first);
    match &mut row.second {
        None => {}
        Some(point) => put_point(point, visited.second),
    }
    visited.now
}

/// The warm start of a constraint.
#[derive(Clone, Copy)]
pub struct Warm;

impl Visit<JointRow> for Warm {
    ghost visit = { λ _ r e. visited_joint (joint_warmed r e) };

    #[inline(always)]
    fn is_idle(&self, row: &JointRow) -> bool {
        has_no_impulse(row)
    }

    #[inline(always)]
    fn visit_64(&self, row: &mut JointRow, a: &BodyState, b: &BodyState) -> Option<MomentaPair64> {
        match warm_joint_64(row, a, b) {
            None => None,
            Some(visited) => Some(put_impulse(row, visited)),
        }
    }

    #[inline(always)]
    fn visit_centres_64(
        &self,
        row: &mut JointRow,
        a: &BodyState,
        b: &BodyState,
    ) -> Option<MomentumPair> {
        match warm_centres_64(row, a, b) {
            None => None,
            Some(visited) => Some(put_pushed(row, visited)),
        }
    }

    #[inline(always)]
    fn visit(&self, row: &mut JointRow, ends: &mut Ends) {
        warm_joint(row, ends);
    }
}

impl Visit<ContactRow> for Warm {
    ghost visit = { λ _ r e. row_warmed r e };

    #[inline(always)]
    fn is_idle(&self, row: &ContactRow) -> bool {
        has_no_impulses(row)
    }

    #[inline(always)]
    fn visit_64(
        &self,
        row: &mut ContactRow,
        a: &BodyState,
        b: &BodyState,
    ) -> Option<MomentaPair64> {
        match warm_row_64(row, a, b) {
            None => None,
            Some(visited) => Some(put_impulses(row, visited)),
        }
    }

    #[inline(always)]
    fn visit_centres_64(
        &self,
        row: &mut ContactRow,
        a: &BodyState,
        b: &BodyState,
    ) -> Option<MomentumPair> {
        None
    }

    #[inline(always)]
    fn visit(&self, row: &mut ContactRow, ends: &mut Ends) {
        warm_row(row, ends);
    }
}

/// The impulses of a constraint.
#[derive(Clone, Copy)]
pub struct Solve;

impl Visit<JointRow> for Solve {
    ghost visit = { λ _ r e. visited_joint (joint_solved r e) };

    #[inline(always)]
    fn is_idle(&self, row: &JointRow) -> bool {
        false
    }

    #[inline(always)]
    fn visit_64(&self, row: &mut JointRow, a: &BodyState, b: &BodyState) -> Option<MomentaPair64> {
        match solve_joint_64(row, a, b) {
            None => None,
            Some(visited) => Some(put_impulse(row, visited)),
        }
    }

    #[inline(always)]
    fn visit_centres_64(
        &self,
        row: &mut JointRow,
        a: &BodyState,
        b: &BodyState,
    ) -> Option<MomentumPair> {
        match solve_centres_64(row, a, b) {
            None => None,
            Some(visited) => Some(put_pushed(row, visited)),
        }
    }

    #[inline(always)]
    fn visit(&self, row: &mut JointRow, ends: &mut Ends) {
        solve_joint(row, ends);
    }
}

impl Visit<ContactRow> for Solve {
    ghost visit = { λ _ r e. row_solved r e };

    #[inline(always)]
    fn is_idle(&self, row: &ContactRow) -> bool {
        false
    }

    #[inline(always)]
    fn visit_64(
        &self,
        row: &mut ContactRow,
        a: &BodyState,
        b: &BodyState,
    ) -> Option<MomentaPair64> {
        match solve_row_64(row, a, b) {
            None => None,
            Some(visited) => Some(put_impulses(row, visited)),
        }
    }

    #[inline(always)]
    fn visit_centres_64(
        &self,
        row: &mut ContactRow,
        a: &BodyState,
        b: &BodyState,
    ) -> Option<MomentumPair> {
        None
    }

    #[inline(always)]
    fn visit(&self, row: &mut ContactRow, ends: &mut Ends) {
        solve_row(row, ends);
    }
}

/// The restitution of a contact; a joint has none.
#[derive(Clone, Copy)]
pub struct Bounce;

impl Visit<JointRow> for Bounce {
    ghost visit = { λ _ r e. visited_joint (joint_unbounced r e) };

    #[inline(always)]
    fn is_idle(&self, row: &JointRow) -> bool {
        true
    }

    #[inline(always)]
    fn visit_64(&self, row: &mut JointRow, a: &BodyState, b: &BodyState) -> Option<MomentaPair64> {
        None
    }

    #[inline(always)]
    fn visit_centres_64(
        &self,
        row: &mut JointRow,
        a: &BodyState,
        b: &BodyState,
    ) -> Option<MomentumPair> {
        None
    }

    #[inline(always)]
    fn visit(&self, row: &mut JointRow, ends: &mut Ends) {}
}

impl Visit<ContactRow> for Bounce {
    ghost visit = { λ _ r e. row_bounced r e };

    #[inline(always)]
    fn is_idle(&self, row: &ContactRow) -> bool {
        never_bounces(row)
    }

    #[inline(always)]
    fn visit_64(
        &self,
        row: &mut ContactRow,
        a: &BodyState,
        b: &BodyState,
    ) -> Option<MomentaPair64> {
        None
    }

    #[inline(always)]
    fn visit_centres_64(
        &self,
        row: &mut ContactRow,
        a: &BodyState,
        b: &BodyState,
    ) -> Option<MomentumPair> {
        None
    }

    #[inline(always)]
    fn visit(&self, row: &mut ContactRow, ends: &mut Ends) {
        bounce_row(row, ends);
    }
}
