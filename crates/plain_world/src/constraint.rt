//! The names of constraints: what has a colour.

ghost use Rattle.std.specs.Prelude.{◌≡◌};
ghost use Rattle.plain_world.specs.Constraints.{constraint_number, joint_number};

use body_handles::Handle;
use contacts_base::ContactKey;
use graph_colours::ConstraintId;

/// Names a constraint: a joint by its handle, a contact by its key. Joints come first in the solve order, by slot, and
/// then contacts, by key.
#[derive(Clone, Copy, Debug, PartialEq, Eq, PartialOrd, Ord)]
pub enum Constraint {
    Joint(Handle),
    Contact(ContactKey),
}

/// The number of a joint, which rises with its slot.
fn joint_number(handle: Handle) -> u128
    ensures { result ≡ joint_number handle }
{
    u128::from(handle.slot) * (1 << 32) + u128::from(handle.generation)
}

impl ConstraintId for Constraint {
    ghost number = { λ c. constraint_number c };

    fn number(&self) -> u128 {
        match self {
            Constraint::Joint(handle) => joint_number(*handle),
            Constraint::Contact(key) => (1 << 80) + key.number(),
        }
    }
}
