//! The contacts as a long list and a short one: one is over, and the two lists are made one again.

use crate::assertions::same;
use crate::contacts_scenes::{KEY, resting};
use contacts_base::{ContactKey, Hint, Impulses, ShapeId, SplitContacts};
use fixed_geom::Refusal;
use std::alloc::Global;
use std::test::Fail;

/// The contact of the capsule that lay on the floor, in the long list.
fn lying(alloc: Global) -> Result<SplitContacts, Refusal> {
    SplitContacts::from_entries(alloc, resting(alloc)?.into_entries())
}

/// Whether there is a contact with the key, wherever the search begins.
fn has(contacts: &SplitContacts, key: ContactKey) -> bool {
    let mut hint = Hint { long: 7, short: 7 };
    contacts.find(&mut hint, key).is_some()
}

/// The key with its shapes changed about, which no contact has.
const TURNED: ContactKey = ContactKey {
    first: ShapeId { slot: 1, index: 0 },
    second: ShapeId { slot: 0, index: 0 },
};

#[test]
fn a_contact_that_is_over_stays_in_the_long_list_and_counts_no_more(
    rt: HostRuntime,
) -> Result<(), Fail> {
    let mut contacts = lying(rt.alloc())?;
    same(
        &rt,
        &[has(&contacts, KEY), has(&contacts, TURNED)],
        &[true, false],
    );
    contacts.end(TURNED);
    same(
        &rt,
        &[contacts.is_one(), has(&contacts, KEY)],
        &[true, true],
    );
    contacts.end(KEY);
    same(
        &rt,
        &[contacts.is_one(), has(&contacts, KEY)],
        &[false, false],
    );
    same(&rt, &[contacts.long().len(), contacts.beside()], &[1, 1]);
    same(&rt, &contacts.to_entries(rt.alloc())?.len(), &0);
    contacts.flush(rt.alloc())?;
    same(&rt, &[contacts.long().len(), contacts.beside()], &[0, 0]);
    Ok(())
}

/// The impulses along the normal of the contact's first point, if the contact is there and has one.
fn normal_impulse(contacts: &SplitContacts) -> Option<i64> {
    let mut hint = Hint { long: 0, short: 0 };
    let entry = contacts.find(&mut hint, KEY)?;
    Some(entry.contact.first()?.normal_impulse)
}

#[test]
fn impulses_are_given_by_key_whatever_the_place(rt: HostRuntime) -> Result<(), Fail> {
    let mut contacts = lying(rt.alloc())?;
    let given = |normal_impulse: i64| Impulses {
        normal_impulse,
        tangent_impulse: 1,
    };
    contacts.set_impulses(0, KEY, given(40), None);
    let at_place = normal_impulse(&contacts);
    contacts.set_impulses(9, KEY, given(41), None);
    let found = normal_impulse(&contacts);
    contacts.set_impulses(0, TURNED, given(42), None);
    same(
        &rt,
        &[at_place, found, normal_impulse(&contacts)],
        &[Some(40), Some(41), Some(41)],
    );
    Ok(())
}
