//! The rows of the constraints of a step: joints' and contacts'.

ghost use Rattle.std.specs.Prelude.{◌≡◌};
ghost use Rattle.joint_rows.specs.Rows.{IsJointRow};
ghost use Rattle.colour_solver_base.specs.Rows.{IsRow};
ghost use Rattle.colour_solver.specs.ConstraintVisits.{IsConstraintRow, constraint_slots, contact_slots, joint_slots};

use crate::{Row, Slots};
use colour_solver_base::ContactRow;
use joint_rows::JointRow;

/// A constraint in a step: a joint, or a contact that touches. Contracts see the rows of both kinds in one list of
/// these.
#[derive(Clone, Copy, Debug, PartialEq, Eq)]
pub enum ConstraintRow {
    Joint(JointRow),
    Contact(ContactRow),
}

impl Row for JointRow {
    ghost slots = { joint_slots };

    ghost is_row = { IsJointRow };

    #[inline(always)]
    fn slots(&self) -> Slots {
        Slots {
            a: self.bodies.a,
            b: self.bodies.b,
        }
    }
}

impl Row for ContactRow {
    ghost slots = { contact_slots };

    ghost is_row = { IsRow };

    #[inline(always)]
    fn slots(&self) -> Slots {
        Slots {
            a: self.bodies.a,
            b: self.bodies.b,
        }
    }
}

impl Row for ConstraintRow {
    ghost slots = { constraint_slots };

    ghost is_row = { IsConstraintRow };

    #[inline(always)]
    fn slots(&self) -> Slots {
        match self {
            ConstraintRow::Joint(row) => row.slots(),
            ConstraintRow::Contact(row) => row.slots(),
        }
    }
}
