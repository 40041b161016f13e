//! The warm start of a tick: the impulses accumulated along lines, given once more.

ghost use Rattle.std.specs.Prelude.{◌≡◌, ◌≤◌, true, false, unsigned_abs};
ghost use Rattle.momenta.specs.Impulses.{warmed};
ghost use Rattle.momenta.specs.ImpulseBounds.{AreStates, AreSameBodies, IsMomentumKept, IsLine};

use crate::line::along;
use crate::{Ends, Line, impulse_pair};
use fixed_geom::{MAX_LINE_IMPULSE, plus};

/// A line, and the impulse accumulated along it (mass·u/tick).
#[derive(Clone, Copy)]
pub struct LineImpulse {
    pub line: Line,
    pub impulse: i64,
}

/// The warm start of a tick: the accumulated impulse `total` (mass·u/tick) given once more; dropped where a momentum
/// would leave its limits.
#[inline(always)]
pub fn warm_line(line: &Line, total: i64, ends: &mut Ends)
    requires line { IsLine line.now }
    requires states { AreStates ends.old }
    requires total { unsigned_abs total ≤ unsigned_abs MAX_LINE_IMPULSE }
    ensures value { ends.new ≡ warmed line.now total ends.old }
    ensures states { AreStates ends.new }
    ensures same { AreSameBodies ends.old ends.new }
    ensures kept { IsMomentumKept ends.old ends.new }
{
    if total != 0 {
        warm(line, total, ends);
    }
}

/// The same, of an impulse that isn't zero.
#[tactic(auto, unfolding(crate::specs::Impulses::warmed))]
#[inline(always)]
fn warm(line: &Line, total: i64, ends: &mut Ends)
    requires line { IsLine line.now }
    requires states { AreStates ends.old }
    requires total { unsigned_abs total ≤ unsigned_abs MAX_LINE_IMPULSE }
    ensures value { ends.new ≡ warmed line.now total ends.old }
    ensures states { AreStates ends.new }
    ensures same { AreSameBodies ends.old ends.new }
    ensures kept { IsMomentumKept ends.old ends.new }
{
    let j = along(line.direction, total);
    let _ = impulse_pair(ends, j, line.ra, line.rb);
}

/// `warm_line` along two lines through the same points, one after the other, if no momentum is near its limit: both
/// impulses are then given as one. Answers whether they were; if not, nothing has changed.
#[inline(always)]
pub fn warm_at_once(first: LineImpulse, second: LineImpulse, ends: &mut Ends) -> bool
    requires first { IsLine first.line }
    requires second { IsLine second.line }
    requires ra { second.line.ra ≡ first.line.ra }
    requires rb { second.line.rb ≡ first.line.rb }
    requires states { AreStates ends.old }
    requires one { unsigned_abs first.impulse ≤ unsigned_abs MAX_LINE_IMPULSE }
    requires other { unsigned_abs second.impulse ≤ unsigned_abs MAX_LINE_IMPULSE }
    ensures given { result ≡ true → ends.new ≡ warmed second.line second.impulse (warmed first.line first.impulse ends.old) }
    ensures left { result ≡ false → ends.new ≡ ends.old }
    ensures states { AreStates ends.new }
    ensures same { AreSameBodies ends.old ends.new }
    ensures kept { IsMomentumKept ends.old ends.new }
{
    if !ends.a.is_roomy() {
        return false;
    }
    if !ends.b.is_roomy() {
        return false;
    }
    let j = plus(
        along(first.line.direction, first.impulse),
        along(second.line.direction, second.impulse),
    );
    let _ = impulse_pair(ends, j, first.line.ra, first.line.rb);
    true
}
