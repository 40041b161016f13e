//! Rows that are visited, each with its two bodies, and what a visit is.

ghost use Rattle.std.specs.Prelude.{◌≡◌, true, None, IfSome};
ghost use Rattle.momenta.specs.declared.state.Ends.{Ends};
ghost use Rattle.momenta.specs.ImpulseBounds.{AreStates, AreSameBodies, IsMomentumKept, IsState};
ghost use Rattle.momenta.specs.Line64.{both_ends};
ghost use Rattle.colour_solver_base.specs.RowsAfter.{RowAfter};
ghost use Rattle.colour_solver.specs.Colour.{ColoursAreAtOnce};
ghost use Rattle.colour_solver.specs.RowVisits.{IsCentreVisit64, IsVisit64};

use joint_rows::MomentumPair;
use momenta::{BodyState, Ends, MomentaPair64};

/// Where the two bodies of a row stand.
#[derive(Clone, Copy, Debug, PartialEq, Eq)]
pub struct Slots {
    pub a: u32,
    pub b: u32,
}

/// A row of a step: what the impulses between two bodies need, with those accumulated so far. A contact's is the
/// `ContactRow`.
pub trait Row: Copy {
    ghost use Rattle.colour_solver.specs.declared.row_visits.Slots.{Slots};

    /// Where its two bodies stand.
    ghost slots: { Self → Slots };

    /// What is known of a row since it was made.
    ghost is_row: { Self → Type 0 };

    fn slots(&self) -> Slots
        ensures { result ≡ slots self.now };
}

/// What a pass does with one row and its two bodies.
pub trait Visit<R: Row> {
    /// The row and its two bodies after it.
    ghost visit: { Self → R → Ends → RowAfter R };

    /// Whether it leaves the row and any two bodies as they are.
    fn is_idle(&self, row: &R) -> bool
        ensures { result ≡ true → (e : Ends) → AreStates e → visit self.now row.now e ≡ record { row = row.now; ends = e } };

    /// The same visit in 64 bits, where there is room: it is written into the row, and the momenta that the two bodies
    /// then have are the answer. Where there is none, the row stays as it is.
    fn visit_64(&self, row: &mut R, a: &BodyState, b: &BodyState) -> Option<MomentaPair64>
        requires row { R.is_row row.old }
        requires first { IsState a.now }
        requires second { IsState b.now }
        ensures value { IfSome result (IsVisit64 R.is_row (visit self.now row.old (both_ends a.now b.now)) a.now b.now row.new) }
        ensures slots { R.slots row.new ≡ R.slots row.old }
        ensures none { result ≡ None → row.new ≡ row.old };

    /// The same visit in 64 bits of a row between the centres of its bodies: their angular momenta stay as they are,
    /// and the answer has the momenta alone. Where the row isn't one, or there is no room, it stays as it is.
    fn visit_centres_64(&self, row: &mut R, a: &BodyState, b: &BodyState) -> Option<MomentumPair>
        requires row { R.is_row row.old }
        requires first { IsState a.now }
        requires second { IsState b.now }
        ensures value { IfSome result (IsCentreVisit64 R.is_row (visit self.now row.old (both_ends a.now b.now)) a.now b.now row.new) }
        ensures slots { R.slots row.new ≡ R.slots row.old }
        ensures none { result ≡ None → row.new ≡ row.old };

    fn visit(&self, row: &mut R, ends: &mut Ends)
        requires row { R.is_row row.old }
        requires states { AreStates ends.old }
        ensures value { record { row = row.new; ends = ends.new } ≡ visit self.now row.old ends.old }
        ensures row { R.is_row row.new }
        ensures states { AreStates ends.new }
        ensures slots { R.slots row.new ≡ R.slots row.old }
        ensures same { AreSameBodies ends.old ends.new }
        ensures kept { IsMomentumKept ends.old ends.new };
}

/// The colour law: of rows no two of which share a mover, the visits may be made at once, each with the bodies as they
/// are before all of them; written back, they give the bodies, the rows and the sums that one visit after another
/// gives. So a colour may be solved in parallel (as Box2D v3's graph colours are). The function does nothing; its
/// contract is the law.
pub fn colours_at_once<R: Row>()
    ensures { ColoursAreAtOnce R.slots }
{}
