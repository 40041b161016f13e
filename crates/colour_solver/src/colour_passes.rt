//! A pass over the rows of one colour, and of all, colour after colour.

ghost use Rattle.std.specs.Prelude.{◌≡◌, ◌^◌, ◌≤◌, length, map, take, drop};
ghost use Rattle.joint_rows.specs.Rows.{IsJointRow};
ghost use Rattle.colour_solver_base.specs.Rows.{IsRow};
ghost use Rattle.momenta.specs.Gains.{IsGain};
ghost use Rattle.colour_solver.specs.States.{AreAllStates, as_vector};
ghost use Rattle.colour_solver.specs.RowVisits.{AreRowsOn, IsPassed, between};
ghost use Rattle.colour_solver.specs.ConstraintVisits.{IsConstraintRow, both_visits, constraint_slots, contact_slots, joint_slots};
ghost use Rattle.colour_solver.specs.ColourRows.{AreEnds, joints_first, rows_kept};

use crate::colour_ends::{ColourEnd, ColourSpan};
use crate::{Visit, pass_rows};
use body_handles::MAX_SLOTS;
use colour_solver_base::ContactRow;
use joint_rows::JointRow;
use momenta::{BodyState, Gain, NOTHING, plus};

/// One pass over the rows of a colour: over its joints, and then over its contacts.
#[inline(always)]
pub(crate) fn pass_colour<J: Visit<JointRow>, C: Visit<ContactRow>>(
    states: &mut Vec<BodyState>,
    joints: &mut Vec<JointRow>,
    contacts: &mut Vec<ContactRow>,
    span: ColourSpan,
    joint_visit: &J,
    contact_visit: &C,
) -> Gain
    requires few { length states.old.items ≤ MAX_SLOTS }
    requires states { AreAllStates states.old.items }
    requires joints_ascend { span.start.joints ≤ span.end.joints }
    requires joints_end { span.end.joints ≤ length joints.old.items }
    requires contacts_ascend { span.start.contacts ≤ span.end.contacts }
    requires contacts_end { span.end.contacts ≤ length contacts.old.items }
    requires joints { AreRowsOn joint_slots IsJointRow (length states.old.items) joints.old.items }
    requires contacts { AreRowsOn contact_slots IsRow (length states.old.items) contacts.old.items }
    ensures passed { IsPassed constraint_slots IsConstraintRow (both_visits (J.visit joint_visit.now) (C.visit contact_visit.now)) states.old.items (joints_first (between span.start.joints span.end.joints joints.old.items) (between span.start.contacts span.end.contacts contacts.old.items)) states.new.items (joints_first (between span.start.joints span.end.joints joints.new.items) (between span.start.contacts span.end.contacts contacts.new.items)) (as_vector result) }
    ensures joints_before { take span.start.joints joints.new.items ≡ take span.start.joints joints.old.items }
    ensures joints_behind { drop span.end.joints joints.new.items ≡ drop span.end.joints joints.old.items }
    ensures contacts_before { take span.start.contacts contacts.new.items ≡ take span.start.contacts contacts.old.items }
    ensures contacts_behind { drop span.end.contacts contacts.new.items ≡ drop span.end.contacts contacts.old.items }
    ensures as_many_joints { length joints.new.items ≡ length joints.old.items }
    ensures as_many_contacts { length contacts.new.items ≡ length contacts.old.items }
    ensures joints { AreRowsOn joint_slots IsJointRow (length states.new.items) joints.new.items }
    ensures contacts { AreRowsOn contact_slots IsRow (length states.new.items) contacts.new.items }
    ensures small { IsGain (2 ^ 78) result }
{
    let by_joints = pass_rows(
        states,
        joints,
        span.start.joints,
        span.end.joints,
        joint_visit,
    );
    let by_contacts = pass_rows(
        states,
        contacts,
        span.start.contacts,
        span.end.contacts,
        contact_visit,
    );
    plus(by_joints, by_contacts)
}

/// One pass over all rows, colour after colour, and then over those of the colour that hasn't ended.
pub(crate) fn pass_colours<J: Visit<JointRow>, C: Visit<ContactRow>>(
    states: &mut Vec<BodyState>,
    joints: &mut Vec<JointRow>,
    contacts: &mut Vec<ContactRow>,
    ends: &[ColourEnd],
    joint_visit: &J,
    contact_visit: &C,
) -> Gain
    requires few { length states.old.items ≤ MAX_SLOTS }
    requires states { AreAllStates states.old.items }
    requires joint_ends { AreEnds 0 (map (λ e. e.joints) ends.now) (length joints.old.items) }
    requires contact_ends { AreEnds 0 (map (λ e. e.contacts) ends.now) (length contacts.old.items) }
    requires joints { AreRowsOn joint_slots IsJointRow (length states.old.items) joints.old.items }
    requires contacts { AreRowsOn contact_slots IsRow (length states.old.items) contacts.old.items }
    ensures passed { IsPassed constraint_slots IsConstraintRow (both_visits (J.visit joint_visit.now) (C.visit contact_visit.now)) states.old.items (rows_kept (map (λ e. e.joints) ends.now) (map (λ e. e.contacts) ends.now) joints.old.items contacts.old.items) states.new.items (rows_kept (map (λ e. e.joints) ends.now) (map (λ e. e.contacts) ends.now) joints.new.items contacts.new.items) (as_vector result) }
    ensures as_many_joints { length joints.new.items ≡ length joints.old.items }
    ensures as_many_contacts { length contacts.new.items ≡ length contacts.old.items }
    ensures small { IsGain (2 ^ 78) result }
{
    let mut start = ColourEnd {
        joints: 0,
        contacts: 0,
    };
    let mut given = NOTHING;
    for end in ends {
        let got = pass_colour(
            states,
            joints,
            contacts,
            ColourSpan { start, end: *end },
            joint_visit,
            contact_visit,
        );
        given = plus(given, got);
        start = *end;
    }
    let end = ColourEnd {
        joints: joints.len(),
        contacts: contacts.len(),
    };
    let last = pass_colour(
        states,
        joints,
        contacts,
        ColourSpan { start, end },
        joint_visit,
        contact_visit,
    );
    plus(given, last)
}
