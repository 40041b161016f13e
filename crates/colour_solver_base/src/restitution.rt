//! The restitution of a contact: the impulses with which its points bounce, once its step is solved.

ghost use Rattle.std.specs.Prelude.{◌≡◌, ◌^◌, ◌≤◌, ◌+◌, true, pos, neg_ℤ, ◌*ℤ◌, ◌≤ℤ◌, unsigned_abs};
ghost use Rattle.fixed_geom.specs.Numbers.{rdiv};
ghost use Rattle.momenta.specs.declared.state.Ends.{Ends};
ghost use Rattle.momenta.specs.ImpulseBounds.{AreStates, AreSameBodies, IsMomentumKept};
ghost use Rattle.colour_solver_base.specs.Rows.{IsPointRow, IsRow, bounces, point_bounced, row_bounced};

use crate::solve::{parting_at, solve_normal};
use crate::{BOUNCE_SPEED, ContactRow, PointRow};
use fixed_geom::{product, rdiv};
use momenta::Ends;
use shapes::MAX_RESTITUTION;

/// Whether a point bounces.
fn bounces(restitution: i64, point: &PointRow) -> bool
    ensures { result ≡ bounces restitution point.now }
{
    restitution > 0 && point.start_speed < -BOUNCE_SPEED && point.normal_impulse > 0
}

/// The speed at which a point that came together at this one is to part, in u/tick.
fn bounce_speed(restitution: i64, start: i64) -> i64
    requires restitution { unsigned_abs restitution ≤ unsigned_abs MAX_RESTITUTION }
    requires start { unsigned_abs start ≤ 2 ^ 62 + 2 ^ 28 }
    ensures value { result ≡ neg_ℤ (rdiv (restitution *ℤ start) (pos 256)) }
    ensures within { unsigned_abs result ≤ 2 ^ 62 + 2 ^ 28 }
{
    -(rdiv(product(restitution, start), 256) as i64)
}

/// The impulse of restitution at a point, where it bounces.
#[tactic(auto, unfolding(crate::specs::Rows::point_bounced))]
fn bounce_point(restitution: i64, point: &mut PointRow, ends: &mut Ends)
    requires restitution_low { pos 0 ≤ℤ restitution }
    requires restitution_high { unsigned_abs restitution ≤ unsigned_abs MAX_RESTITUTION }
    requires point { IsPointRow point.old }
    requires states { AreStates ends.old }
    ensures value { record { point = point.new; ends = ends.new } ≡ point_bounced restitution point.old ends.old }
    ensures point { IsPointRow point.new }
    ensures states { AreStates ends.new }
    ensures same { AreSameBodies ends.old ends.new }
    ensures kept { IsMomentumKept ends.old ends.new }
{
    if !bounces(restitution, point) {
        return;
    }
    let bias = bounce_speed(restitution, point.start_speed);
    let apart = parting_at(point, ends);
    solve_normal(bias, apart, point, ends);
}

/// Whether a contact never bounces, having no restitution: that leaves any two bodies as they are.
#[tactic(auto, unfolding(crate::specs::Rows::row_bounced, crate::specs::Rows::point_bounced))]
#[inline(always)]
pub fn never_bounces(row: &ContactRow) -> bool
    ensures { result ≡ true → (e : Ends) → row_bounced row.now e ≡ record { row = row.now; ends = e } }
{
    row.bodies.restitution == 0
}

/// The restitution of a contact.
#[tactic(auto, unfolding(crate::specs::Rows::row_bounced))]
#[inline(always)]
pub fn bounce_row(row: &mut ContactRow, ends: &mut Ends)
    requires row { IsRow row.old }
    requires states { AreStates ends.old }
    ensures value { record { row = row.new; ends = ends.new } ≡ row_bounced row.old ends.old }
    ensures row { IsRow row.new }
    ensures bodies { row.new.bodies ≡ row.old.bodies }
    ensures states { AreStates ends.new }
    ensures same { AreSameBodies ends.old ends.new }
    ensures kept { IsMomentumKept ends.old ends.new }
{
    let restitution = row.bodies.restitution;
    bounce_point(restitution, &mut row.first, ends);
    match &mut row.second {
        None => {}
        Some(point) => bounce_point(restitution, point, ends),
    }
}
