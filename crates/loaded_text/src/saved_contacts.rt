//! The contacts, read.

ghost use Rattle.std.specs.Prelude.{◌≡◌, ◌++◌, ◌∷◌, [], IfSome};
ghost use Rattle.world_file_base.specs.SavedContacts.{contact_in};
ghost use Rattle.world_file_base.specs.AskedContacts.{contact_asks};
ghost use Rattle.world_file_base.specs.declared.version.Version.TheVariants.{Second};
ghost use Rattle.loaded_text.specs.Contacts.{ContactsHold};
ghost use Rattle.loaded_text.specs.Stands.{Holds};

use crate::leaves::{read_colour, read_truth};
use crate::names::read_shape_id;
use crate::points::read_points;
use crate::text::Text;
use contacts_base::ContactKey;
use world_file_base::SavedContact;

/// How many contacts are read at most.
const MOST_CONTACTS: u64 = 1 << 32;

fn read_contact(text: &mut Text) -> Option<SavedContact>
    ensures { IfSome result (λ contact. Holds [] (contact_in Second) (contact_asks Second) 4 contact text.old.rest.now text.new.rest.now) }
{
    text.expect(b"{")?;
    let first = read_shape_id(text, b"\"a\":")?;
    let second = read_shape_id(text, b",\"b\":")?;
    let colour = read_colour(text, b",\"colour\":")?;
    let points = read_points(text, b",\"points\":")?;
    let touching = read_truth(text, b",\"touching\":")?;
    text.expect(b"}")?;
    Some(SavedContact {
        key: ContactKey { first, second },
        touching,
        colour,
        contact: points.contact,
        points: points.count,
    })
}

fn keep_contact(contacts: &mut Vec<SavedContact>, contact: SavedContact) -> Option<()>
    ensures { IfSome result (λ _. contacts.new.items ≡ contacts.old.items ++ contact ∷ []) }
{
    contacts.push(contact).ok()
}

/// Reads the contacts, and adds them to those that there are.
pub(crate) fn add_contacts(
    text: &mut Text,
    lead: &[u8],
    contacts: &mut Vec<SavedContact>,
) -> Option<()>
    ensures { IfSome result (λ _. ContactsHold lead.now contacts.old.items contacts.new.items text.old.rest.now text.new.rest.now) }
{
    text.expect(lead)?;
    text.expect(b"[")?;
    for count in 0..MOST_CONTACTS {
        let more = text.has_item(count == 0)?;
        if !more {
            return Some(());
        }
        let contact = read_contact(text)?;
        keep_contact(contacts, contact)?;
    }
    None
}
