//! What a saved world is made of: the values of its keys, and its parts, each read and written for itself.
//!
//! A `Reader` reads the value of a key, and keeps the first of the clauses (`Clause`) that any of the values breaks.
//! `Members` is an object that is written. The parts are shapes, bodies, joints and contacts, and the totals of the
//! ledger. What is read of a part hangs on nothing but its value and the version. Whether the parts fit together is
//! asked above.
#![tactic(auto)]

mod bodies;
mod body_asks;
mod body_numbers;
mod body_slots;
mod clause;
mod counts;
mod decimals;
mod joint_slots;
mod joints;
mod ledger;
mod members;
mod ranges;
mod reader;
mod saved;
mod saved_contacts;
mod saved_shapes;
mod slots;
mod values;
mod version;
mod writing_bodies;

pub use bodies::sleeping_under;
pub use body_asks::ask_body;
pub use body_slots::{bodies_value, label_at, read_bodies};
pub use clause::{Broken, Clause};
pub use counts::lesser;
pub use decimals::sized_number;
pub use joint_slots::{joints_value, read_joints};
pub use ledger::{read_totals, totals_value};
pub use members::{Members, array_value, number_or_null, vector_value};
pub use reader::{Reader, handle_in_text};
pub use saved::{Membership, NO_MEMBERSHIP, SavedBodies, SavedContact, SavedJoint, SavedJoints};
pub use saved_contacts::{LAST_CANDIDATE, contacts_value, read_contacts};
pub use saved_shapes::{MAX_CORNER, SavedShape};
pub use slots::{generation_of, is_in_time};
pub use values::{field, has_keys};
pub use version::Version;
pub use writing_bodies::kind_name;
