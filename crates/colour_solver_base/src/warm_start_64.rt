//! The warm start of a contact in 64 bits, on copies of what it changes: what `warm_start` does, where there is room.

ghost use Rattle.std.specs.Prelude.{◌≡◌, ℕ, ◌+◌, true, IfSome, is_some};
ghost use Rattle.std.specs.Option.{ForSome};
ghost use Rattle.momenta.specs.ImpulseBounds.{AreStates, IsState};
ghost use Rattle.momenta.specs.Line64.{LeaveRoom64, ends_with, both_ends};
ghost use Rattle.colour_solver_base.specs.Rows.{IsPointRow, IsRow, point_warmed, row_warmed};
ghost use Rattle.colour_solver_base.specs.Row64.{HasWarmPointRoom64, HasWarmRoom64, IsPointAfter64, IsRowAfter64};

use crate::row_64::{NO_IMPULSES, PointAfter64};
use crate::{ContactRow, PointImpulses, PointRow, RowAfter64};
use momenta::{BodyState, LineImpulse, MomentaPair64, momenta_pair_64, warm_at_once_64};

/// The warm start of a point.
#[tactic(auto, unfolding(crate::specs::Rows::point_warmed))]
#[inline(always)]
fn warm_point_64(
    point: &PointRow,
    a: &BodyState,
    b: &BodyState,
    now: MomentaPair64,
) -> Option<PointAfter64>
    requires point { IsPointRow point.now }
    requires states { AreStates (ends_with a.now b.now now) }
    requires leaves_room { LeaveRoom64 4 now }
    ensures value { IfSome result (IsPointAfter64 (record { point = point.now; ends = point_warmed point.now (ends_with a.now b.now now) }) point.now a.now b.now (ends_with a.now b.now now)) }
    ensures leaves_room { IfSome result (λ r. (k : ℕ) → LeaveRoom64 k now → LeaveRoom64 (k + 1) r.now) }
    ensures room { HasWarmPointRoom64 point.now → is_some result ≡ true }
{
    let along_normal = LineImpulse {
        line: point.normal_line(),
        impulse: point.normal_impulse,
    };
    let of_friction = LineImpulse {
        line: point.tangent_line(),
        impulse: point.tangent_impulse,
    };
    match warm_at_once_64(along_normal, of_friction, a, b, now) {
        None => None,
        Some(now) => Some(PointAfter64 {
            impulses: PointImpulses {
                normal: point.normal_impulse,
                tangent: point.tangent_impulse,
            },
            now,
        }),
    }
}

/// The contact after the warm start of its first point: that of the second follows, if there is one.
#[tactic(auto, unfolding(crate::specs::Rows::row_warmed))]
#[inline(always)]
fn warm_second_64(
    row: &ContactRow,
    a: &BodyState,
    b: &BodyState,
    after_first: PointAfter64,
) -> Option<RowAfter64>
    requires row { IsRow row.now }
    requires after_first { IsPointAfter64 (record { point = row.now.first; ends = point_warmed row.now.first (both_ends a.now b.now) }) row.now.first a.now b.now (both_ends a.now b.now) after_first }
    requires leaves_room { LeaveRoom64 1 after_first.now }
    ensures value { IfSome result (IsRowAfter64 (row_warmed row.now (both_ends a.now b.now)) row.now a.now b.now) }
    ensures room { ForSome row.now.second HasWarmPointRoom64 → is_some result ≡ true }
{
    match &row.second {
        None => Some(RowAfter64 {
            first: after_first.impulses,
            second: NO_IMPULSES,
            now: after_first.now,
        }),
        Some(point) => match warm_point_64(point, a, b, after_first.now) {
            None => None,
            Some(warmed) => Some(RowAfter64 {
                first: after_first.impulses,
                second: warmed.impulses,
                now: warmed.now,
            }),
        },
    }
}

/// The warm start of a contact, as `warm_row` has it: `None` where something is too large for 64 bits.
#[inline(always)]
pub fn warm_row_64(row: &ContactRow, a: &BodyState, b: &BodyState) -> Option<RowAfter64>
    requires row { IsRow row.now }
    requires first { IsState a.now }
    requires second { IsState b.now }
    ensures value { IfSome result (IsRowAfter64 (row_warmed row.now (both_ends a.now b.now)) row.now a.now b.now) }
    ensures room { HasWarmRoom64 row.now a.now b.now → is_some result ≡ true }
{
    let now = match momenta_pair_64(a, b) {
        None => return None,
        Some(now) => now,
    };
    match warm_point_64(&row.first, a, b, now) {
        None => None,
        Some(after_first) => warm_second_64(row, a, b, after_first),
    }
}
