//! A pass over the contacts of the long list of which a body may stir: what becomes of each in a collide.

ghost use Rattle.std.specs.Prelude.{◌≡◌, length};
ghost use Rattle.std.specs.Option.{option_copied};
ghost use Rattle.contacts_base.specs.Proxies.{IsProxyList};
ghost use Rattle.contacts.specs.Looked.{begun_of, ended_of};
ghost use Rattle.contacts.specs.Fates.{moved_by};
ghost use Rattle.contacts.specs.SurveyPieces.{IsLookRoomFor, fate_if, looks_of, shown_looks};

use crate::changes::push_key_within;
use crate::collide::Collide;
use crate::fates::{Fate, ShapesById, begun_key, ended_key, fate_of, note, note_end};
use crate::forbidden::ForbiddenPairs;
use contacts_base::{ContactEntry, ContactKey, Renewal, SplitContacts};

/// What becomes of the contacts at some places: the points of those that are evaluated anew, the places of those that
/// go, and the keys of those that begin to touch and that end. Or room for it.
#[derive(Drop)]
pub(crate) struct Looked {
    pub notes: Vec<Renewal>,
    pub ends: Vec<usize>,
    pub begin: Vec<ContactKey>,
    pub end: Vec<ContactKey>,
}

/// What becomes of a contact, if there is one: else nothing happens.
#[inline(always)]
fn fate_if<S: ShapesById, F: ForbiddenPairs>(
    collide: &Collide<'_, S, F>,
    entry: Option<&ContactEntry>,
) -> Fate
    requires { IsProxyList (S.proxies collide.now.shapes.now) }
    ensures { result ≡ fate_if (moved_by collide.now.marks.now) (F.pairs collide.now.forbidden.now) (S.proxies collide.now.shapes.now) (option_copied entry.entry) }
{
    match entry {
        None => Fate::Stays,
        Some(entry) => fate_of(collide, entry),
    }
}

/// The key of a contact, if there is one and it begins to touch.
#[inline(always)]
fn begun_of(entry: Option<&ContactEntry>, fate: &Fate) -> Option<ContactKey>
    ensures { result ≡ begun_of (option_copied entry.entry) fate.now }
{
    match entry {
        None => None,
        Some(entry) => begun_key(entry, fate),
    }
}

/// The key of a contact, if there is one and it ends.
#[inline(always)]
fn ended_of(entry: Option<&ContactEntry>, fate: &Fate) -> Option<ContactKey>
    ensures { result ≡ ended_of (option_copied entry.entry) fate.now }
{
    match entry {
        None => None,
        Some(entry) => ended_key(entry, fate),
    }
}

/// Goes over the contacts at some places of the long list, and lists what becomes of them where there is room for it.
pub(crate) fn look_over<S: ShapesById, F: ForbiddenPairs>(
    room: Looked,
    collide: &Collide<'_, S, F>,
    old: &SplitContacts,
    places: &[usize],
) -> Looked
    requires room { IsLookRoomFor (length places.now) room }
    requires shapes { IsProxyList (S.proxies collide.now.shapes.now) }
    ensures { shown_looks result ≡ looks_of (moved_by collide.now.marks.now) (F.pairs collide.now.forbidden.now) (S.proxies collide.now.shapes.now) old.now places.now }
{
    let Looked {
        mut notes,
        mut ends,
        mut begin,
        mut end,
    } = room;
    for index in 0..places.len() {
        let place = places[index];
        let entry = old.counting(place);
        let fate = fate_if(collide, entry);
        note(&mut notes, place, &fate);
        note_end(&mut ends, place, &fate);
        push_key_within(&mut begin, begun_of(entry, &fate));
        push_key_within(&mut end, ended_of(entry, &fate));
    }
    Looked {
        notes,
        ends,
        begin,
        end,
    }
}
