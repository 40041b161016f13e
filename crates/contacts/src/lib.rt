//! The collide of a step: which shapes are near one another, and what becomes of the contacts.
//!
//! `PairSweep` has the shapes of the enabled bodies with their fat boxes and finds the near pairs;
//! its `update_contacts` makes the new list of contacts and says which were made, which are gone,
//! and which began or ended to touch.
//!
//! `ContactTable` has the contacts of a world from one collide to the next. A collide looks for new ones only where a
//! shape has a new fat box, came or went; where much has moved, it goes over all shapes by `PairSweep`. Each contact
//! has a number for as long as it is there, and a body has two threads of the numbers of its contacts, one for each
//! `Side`.
#![tactic(auto)]

mod by_marks;
mod by_sweep;
mod changes;
mod collide;
mod collide_memory;
mod contact_table;
mod crowded;
mod dropping;
mod ends;
mod fates;
mod forbidden;
mod known;
mod make_pending;
mod marks;
mod moved_pairs;
mod noting;
mod number_book;
mod pair_pieces;
mod pair_sweep;
mod pending_update;
mod range_pieces;
mod rebuild;
mod renumber;
mod stirring;
mod stirring_flags;
mod stirring_places;
mod strips;
mod survey;
mod survey_pieces;
mod sweep;
mod update;

pub use changes::Changes;
pub use contact_table::ContactTable;
pub use ends::Side;
pub use fates::{Fate, ShapesById};
pub use forbidden::ForbiddenPairs;
pub use known::{
    all_known_after, contacts_by_codes, contacts_in_parts, known_stays, near_are_known,
};
pub use number_book::NumberedContact;
pub use pair_pieces::{EvaluatedPairs, PairLists, PairPiece};
pub use pair_sweep::PairSweep;
pub use pending_update::Touches;
pub use survey_pieces::{LookedPlaces, Survey, SurveyPiece};
