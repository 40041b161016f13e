//! What the collide of a step reads and keeps: shapes with their fat boxes, contacts with their
//! points, and the definitions of near pairs and of the contacts that come of them.
#![tactic(auto)]

mod ascending;
mod begins;
mod body_pair;
mod circles;
mod contact;
mod contacts;
mod counted;
mod evaluation;
mod flags;
mod key;
mod limits;
mod near;
mod packed;
mod short_list;
mod split;
mod surface;

pub use ascending::{Numbered, merge, push_below};
pub use body_pair::BodyPair;
pub use contact::{Contact, ContactEntry, ContactPoint, contact_at, find_next, seek_next};
pub use contacts::{Contacts, put_contact};
pub use evaluation::{Impulses, contact_of, evaluate};
pub use key::{ContactKey, ShapeId};
pub use limits::{
    MAX_FRICTION, MAX_NORMAL, MAX_NORMAL_IMPULSE, MAX_OFFSET, MAX_RESTITUTION, MAX_SEPARATION,
    MAX_TANGENT_IMPULSE, limits_agree, limits_in_digits,
};
pub use near::{Proxy, code_of, is_near, one_stirs};
pub use packed::PackedContact;
pub use short_list::ShortList;
pub use split::{Hint, Renewal, SplitContacts};
pub use surface::{PackedSurface, Surface};
