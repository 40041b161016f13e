//! Contacts, and how one is found by its key.

ghost use Rattle.std.specs.Prelude.{◌≡◌, ◌==◌, ◌≤◌, ◌+◌, IsTrue, Some, true};
ghost use Rattle.std.specs.Option.{ForSome, option_copied};
ghost use Rattle.contacts_base.specs.Keys.{key_number};
ghost use Rattle.contacts_base.specs.Contacts.{lookup, AreKeysRising};
ghost use Rattle.contacts_base.specs.ContactLists.{IsAllBelow, IsNoneBelow, IsFirstFrom};

use crate::{ContactKey, PackedContact, PackedSurface};
use fixed_geom::Vec2;

/// At how many places a search looks one by one.
const NEAR: usize = 4;

/// A point of a contact: the normal from the first shape to the second, times 2^30, the separation in
/// u, the point by its offsets from the two bodies' centres in u, the kept impulses along the normal
/// and across it, in mass·u/tick, and the number of its candidate, 0 to 3: a whole word, so that a point
/// has no gaps, which would be copied piece by piece.
#[derive(Clone, Copy, Debug, PartialEq, Eq)]
pub struct ContactPoint {
    pub normal: Vec2,
    pub separation: i64,
    pub ra: Vec2,
    pub rb: Vec2,
    pub normal_impulse: i64,
    pub tangent_impulse: i64,
    pub candidate: u64,
}

/// What is kept of two shapes that are near: the points if they touch.
#[derive(Clone, Copy, Debug, PartialEq, Eq)]
pub struct Contact {
    pub first: Option<ContactPoint>,
    pub second: Option<ContactPoint>,
}

/// A contact with the names of its shapes, and the friction and restitution of the two together,
/// which stay what they were when the shapes came near.
#[derive(Clone, Copy, Debug, PartialEq, Eq)]
pub struct ContactEntry {
    pub key: ContactKey,
    pub surface: PackedSurface,
    pub contact: PackedContact,
}

/// The place of the first contact whose key's number is at least `wanted`, by halving: those before `low` have lesser
/// ones, and those from `high` on have not.
fn place_between(entries: &[ContactEntry], low: usize, high: usize, wanted: u128) -> usize
    requires rising { AreKeysRising entries.now }
    requires low { IsAllBelow entries.now wanted low }
    requires high { IsNoneBelow entries.now wanted high }
    requires order { low ≤ high }
    ensures { IsFirstFrom entries.now wanted result }
{
    let mut low = low;
    let mut high = high;
    while low < high {
        let middle = low + (high - low) / 2;
        if entries[middle].key.number() < wanted {
            low = middle + 1;
        } else {
            high = middle;
        }
    }
    low
}

/// The place of the first contact, from the place `from` on, whose key's number is at least `wanted`, or the list's
/// length: it looks near `from` first, and each time twice as far (Bentley and Yao, 'An almost optimal algorithm for
/// unbounded searching', 1976).
fn place_from(entries: &[ContactEntry], from: usize, wanted: u128) -> usize
    requires rising { AreKeysRising entries.now }
    requires from { IsAllBelow entries.now wanted from }
    ensures { IsFirstFrom entries.now wanted result }
{
    let mut low = from;
    let mut width = 1;
    while width <= entries.len() - low {
        let last = low + width - 1;
        if entries[last].key.number() >= wanted {
            return place_between(entries, low, last, wanted);
        }
        low = last + 1;
        width *= 2;
    }
    place_between(entries, low, entries.len(), wanted)
}

/// Whether there is a contact at a place, and its key has a lesser number.
#[inline(always)]
fn is_passed(entries: &[ContactEntry], place: usize, wanted: u128) -> bool
    requires { AreKeysRising entries.now }
    ensures { result ≡ true → IsAllBelow entries.now wanted (place + 1) }
{
    if place < entries.len() {
        entries[place].key.number() < wanted
    } else {
        false
    }
}

/// The place from which a search may go on: beyond the one where the last search ended, if the key is beyond that, or
/// that one, if the key is beyond those before it; else the first.
#[inline(always)]
fn start_of(entries: &[ContactEntry], hint: usize, wanted: u128) -> usize
    requires { AreKeysRising entries.now }
    ensures { IsAllBelow entries.now wanted result }
{
    if is_passed(entries, hint, wanted) {
        return hint + 1;
    }
    if hint == 0 {
        return 0;
    }
    if is_passed(entries, hint - 1, wanted) {
        hint
    } else {
        0
    }
}

/// The place of the first contact whose key isn't below this one, in a list whose keys ascend, or the list's length.
///
/// The search begins at `hint` if that place isn't beyond it, and costs the less the nearer that is: one search after
/// another, each from where the one before it ended, goes through the list once.
#[inline(always)]
pub(crate) fn seek(entries: &[ContactEntry], hint: usize, key: ContactKey) -> usize
    requires { AreKeysRising entries.now }
    ensures { IsFirstFrom entries.now (key_number key) result }
{
    let wanted = key.number();
    place_from(entries, start_of(entries, hint, wanted), wanted)
}

/// Whether the contact at a place, if there is one, has this key.
#[inline(always)]
fn has_key_at(entries: &[ContactEntry], place: usize, key: ContactKey) -> bool
    requires { AreKeysRising entries.now }
    ensures { IsTrue result → IsFirstFrom entries.now (key_number key) place }
{
    if place < entries.len() {
        entries[place].key == key
    } else {
        false
    }
}

/// `seek` where the contact wanted is none of those that were looked at.
#[inline(never)]
fn seek_further(entries: &[ContactEntry], hint: usize, key: ContactKey) -> usize
    requires { AreKeysRising entries.now }
    ensures { IsFirstFrom entries.now (key_number key) result }
{
    seek(entries, hint, key)
}

/// `seek` where the contact wanted stands mostly at the hint or a little behind it: so many places are looked at before
/// it is searched for.
#[inline(always)]
pub(crate) fn seek_near(entries: &[ContactEntry], hint: usize, key: ContactKey) -> usize
    requires { AreKeysRising entries.now }
    ensures { IsFirstFrom entries.now (key_number key) result }
{
    for further in 0..NEAR {
        let place = hint.saturating_add(further);
        if has_key_at(entries, place, key) {
            return place;
        }
    }
    seek_further(entries, hint, key)
}

/// `seek` for one key after another of a list that has mostly the same: the contact is looked for at the hint, which is
/// the place where the last search ended, and at the next, before it is searched for.
#[inline(always)]
pub fn seek_next(entries: &[ContactEntry], hint: usize, key: ContactKey) -> usize
    requires { AreKeysRising entries.now }
    ensures { IsFirstFrom entries.now (key_number key) result }
{
    if has_key_at(entries, hint, key) {
        return hint;
    }
    let next = hint.saturating_add(1);
    if has_key_at(entries, next, key) {
        return next;
    }
    seek_further(entries, hint, key)
}

/// Whether one key has the same number as another.
#[inline(always)]
fn is_same(one: ContactKey, other: ContactKey) -> bool
    ensures { result ≡ (key_number one == key_number other) }
{
    one == other
}

/// The contact with this key, where `place` is that of the first contact whose key isn't below it; `None` where there
/// is none.
#[inline(always)]
pub fn contact_at(entries: &[ContactEntry], place: usize, key: ContactKey) -> Option<&ContactEntry>
    requires rising { AreKeysRising entries.now }
    requires place { IsFirstFrom entries.now (key_number key) place }
    ensures { option_copied result ≡ lookup entries.now key }
{
    let entry = entries.get(place)?;
    if is_same(entry.key, key) {
        Some(entry)
    } else {
        None
    }
}

/// The contact at a place, if it has this key.
#[inline(always)]
fn found_at(entries: &[ContactEntry], place: usize, key: ContactKey) -> Option<&ContactEntry>
    requires { AreKeysRising entries.now }
    ensures { ForSome (option_copied result) (λ entry. lookup entries.now key ≡ Some entry) }
{
    let entry = entries.get(place)?;
    if is_same(entry.key, key) {
        Some(entry)
    } else {
        None
    }
}

/// `find_next` where the contact wanted isn't at the hint.
#[inline(never)]
fn find_further<'a>(
    entries: &'a [ContactEntry],
    hint: &mut usize,
    key: ContactKey,
) -> Option<&'a ContactEntry>
    requires { AreKeysRising entries.now }
    ensures { option_copied result ≡ lookup entries.now key }
{
    let place = seek(entries, *hint, key);
    let found = contact_at(entries, place, key);
    *hint = place.saturating_add(found.is_some() as usize);
    found
}

/// The contact with this key, for one key after another of a list that has mostly the same. It is looked for at the
/// hint, before it is searched for. The hint becomes the place where the next contact is.
#[inline(always)]
pub fn find_next<'a>(
    entries: &'a [ContactEntry],
    hint: &mut usize,
    key: ContactKey,
) -> Option<&'a ContactEntry>
    requires { AreKeysRising entries.now }
    ensures { option_copied result ≡ lookup entries.now key }
{
    match found_at(entries, *hint, key) {
        Some(entry) => {
            *hint = hint.saturating_add(1);
            Some(entry)
        }
        None => find_further(entries, hint, key),
    }
}
