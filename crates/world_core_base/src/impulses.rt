//! What a step's ticks leave of impulses goes back to joints and contacts.

ghost use Rattle.std.specs.Prelude.{◌≡◌, option_map};
ghost use Rattle.colour_solver.specs.ColourRows.{all_rows};
ghost use Rattle.colour_solver.specs.ConstraintVisits.{contacts_among, joints_among};
ghost use Rattle.world_core_base.specs.ConstraintRows.{with_joint_rows};
ghost use Rattle.world_core_base.specs.Gather.{impulses_of, with_rows};

use crate::joint_table::JointTable;
use crate::step_solver::Constraints;
use colour_solver::Rows;
use colour_solver_base::{ContactRow, PointRow};
use contacts::ContactTable;
use contacts_base::Impulses;
use joint_rows::JointRow;

/// The impulses of a point's row.
#[inline(always)]
fn impulses_of(row: &PointRow) -> Impulses
    ensures { result ≡ impulses_of row.now }
{
    Impulses {
        normal_impulse: row.normal_impulse,
        tangent_impulse: row.tangent_impulse,
    }
}

/// Those of the second point's row, if there is one.
#[inline(always)]
fn second_impulses(row: &Option<PointRow>) -> Option<Impulses>
    ensures { result ≡ option_map impulses_of row.now }
{
    match row {
        None => None,
        Some(row) => Some(impulses_of(row)),
    }
}

/// Gives each joint the impulse that the step has left it.
fn put_joint_impulses(joints: &mut JointTable, rows: &[JointRow])
    ensures { joints.new.joints ≡ with_joint_rows joints.old.joints rows.now }
{
    for row in rows {
        joints.set_impulse(row.bodies.index, row.impulse);
    }
}

/// The place noted for the contact of a row, or the first where none is noted.
#[inline(always)]
fn place_at(contact_places: &[usize], index: usize) -> usize {
    match contact_places.get(index) {
        None => 0,
        Some(place) => *place,
    }
}

/// Gives each contact the impulses that the step has left it. It is looked for at the place that is noted for its row
/// first.
fn put_contact_impulses(contacts: &mut ContactTable, rows: &[ContactRow], contact_places: &[usize])
    ensures contacts { contacts.new.contacts ≡ with_rows contacts.old.contacts rows.now }
    ensures numbered { contacts.new.numbered ≡ contacts.old.numbered }
{
    for index in 0..rows.len() {
        let row = &rows[index];
        contacts.set_impulses(
            place_at(contact_places, index),
            row.bodies.key(),
            impulses_of(&row.first),
            second_impulses(&row.second),
        );
    }
}

/// Gives joints and contacts the impulses of their rows. Beside the row of a contact stands in `contact_places` where
/// that may be.
#[inline(never)]
pub fn put_impulses(constraints: &mut Constraints, rows: &Rows, contact_places: &[usize])
    ensures joints { constraints.new.joints.joints ≡ with_joint_rows constraints.old.joints.joints (joints_among (all_rows rows.now)) }
    ensures contacts { constraints.new.contacts.contacts ≡ with_rows constraints.old.contacts.contacts (contacts_among (all_rows rows.now)) }
    ensures numbered { constraints.new.contacts.numbered ≡ constraints.old.contacts.numbered }
{
    put_joint_impulses(&mut constraints.joints, rows.joints());
    put_contact_impulses(&mut constraints.contacts, rows.contacts(), contact_places);
}
