//! The warm start of a contact: the impulses that it has kept, given once more.

ghost use Rattle.std.specs.Prelude.{◌≡◌, true};
ghost use Rattle.momenta.specs.declared.state.Ends.{Ends};
ghost use Rattle.momenta.specs.ImpulseBounds.{AreStates, AreSameBodies, IsMomentumKept};
ghost use Rattle.colour_solver_base.specs.Rows.{IsPointRow, IsRow, point_warmed, row_warmed};

use crate::{ContactRow, PointRow};
use momenta::{Ends, LineImpulse, warm_at_once, warm_line};

/// The kept impulses of a point given once more, the one along the normal and then friction.
#[tactic(auto, unfolding(crate::specs::Rows::point_warmed))]
#[cold]
#[inline(never)]
fn warm_in_turn(point: &PointRow, ends: Ends) -> Ends
    requires point { IsPointRow point.now }
    requires states { AreStates ends }
    ensures value { result ≡ point_warmed point.now ends }
    ensures states { AreStates result }
    ensures same { AreSameBodies ends result }
    ensures kept { IsMomentumKept ends result }
{
    let mut warmed = ends;
    warm_line(&point.normal_line(), point.normal_impulse, &mut warmed);
    warm_line(&point.tangent_line(), point.tangent_impulse, &mut warmed);
    warmed
}

/// The same, both at once where that is the same.
#[tactic(auto, unfolding(crate::specs::Rows::point_warmed))]
#[inline(always)]
fn warm_point(point: &PointRow, ends: &mut Ends)
    requires point { IsPointRow point.now }
    requires states { AreStates ends.old }
    ensures value { ends.new ≡ point_warmed point.now ends.old }
    ensures states { AreStates ends.new }
    ensures same { AreSameBodies ends.old ends.new }
    ensures kept { IsMomentumKept ends.old ends.new }
{
    let along_normal = LineImpulse {
        line: point.normal_line(),
        impulse: point.normal_impulse,
    };
    let of_friction = LineImpulse {
        line: point.tangent_line(),
        impulse: point.tangent_impulse,
    };
    let at_once = warm_at_once(along_normal, of_friction, ends);
    if !at_once {
        *ends = warm_in_turn(point, *ends);
    }
}

/// Whether a point has kept no impulses.
#[inline(always)]
fn point_has_no_impulses(point: &PointRow) -> bool
    ensures { result ≡ true → (e : Ends) → AreStates e → point_warmed point.now e ≡ e }
{
    if point.normal_impulse != 0 {
        false
    } else if point.tangent_impulse != 0 {
        false
    } else {
        true
    }
}

/// Whether a contact has kept no impulses: its warm start then leaves any two bodies as they are.
#[tactic(auto, unfolding(crate::specs::Rows::row_warmed))]
#[inline(always)]
pub fn has_no_impulses(row: &ContactRow) -> bool
    ensures { result ≡ true → (e : Ends) → AreStates e → row_warmed row.now e ≡ record { row = row.now; ends = e } }
{
    if !point_has_no_impulses(&row.first) {
        return false;
    }
    match &row.second {
        None => true,
        Some(point) => point_has_no_impulses(point),
    }
}

/// The warm start of a contact: the impulses that it has kept, given once more.
#[tactic(auto, unfolding(crate::specs::Rows::row_warmed))]
#[inline(always)]
pub fn warm_row(row: &ContactRow, ends: &mut Ends)
    requires row { IsRow row.now }
    requires states { AreStates ends.old }
    ensures value { record { row = row.now; ends = ends.new } ≡ row_warmed row.now ends.old }
    ensures states { AreStates ends.new }
    ensures same { AreSameBodies ends.old ends.new }
    ensures kept { IsMomentumKept ends.old ends.new }
{
    warm_point(&row.first, ends);
    match &row.second {
        None => {}
        Some(point) => warm_point(point, ends),
    }
}
