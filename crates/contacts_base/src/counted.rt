//! Lists of contacts that ascend by key, of which some are over: such a contact stands in its place, and counts no
//! more.

ghost use Rattle.std.specs.Prelude.{◌≡◌, ◌≤◌, ◌++◌, ℕ, IfOk, OnOk, drop, length, option_copied, true};
ghost use Rattle.std.specs.Result.{IsOkUnless};
ghost use Rattle.contacts_base.specs.Contacts.{AreKeysRising, contacts_but, lookup, number_of};
ghost use Rattle.contacts_base.specs.ContactLists.{impulses_given};
ghost use Rattle.contacts_base.specs.Merge.{below_of, beyond_of};
ghost use Rattle.contacts_base.specs.Split.{counting, is_over};

use crate::contact::{seek, seek_near};
use crate::contacts::set_points;
use crate::flags::CountedFlags;
use crate::{ContactEntry, ContactKey, Impulses, contact_at};
use fixed_geom::Refusal;

/// The contact with this key, unless it is over. The search begins at the hint, which becomes where it ended.
#[inline(always)]
pub(crate) fn find_counting<'a>(
    entries: &'a [ContactEntry],
    over: &CountedFlags,
    hint: &mut usize,
    key: ContactKey,
) -> Option<&'a ContactEntry>
    requires { AreKeysRising entries.now }
    ensures { option_copied result ≡ lookup (counting over.now entries.now) key }
{
    *hint = seek_near(entries, *hint, key);
    let entry = contact_at(entries, *hint, key)?;
    if over.is_set(*hint) {
        return None;
    }
    Some(entry)
}

/// Gives the points of the contact with this key these impulses, if there is one.
pub(crate) fn give_by_key(
    entries: &mut Vec<ContactEntry>,
    key: ContactKey,
    first: Impulses,
    second: Option<Impulses>,
)
    requires { AreKeysRising entries.old.items }
    ensures { entries.new.items ≡ impulses_given key first second entries.old.items }
{
    let place = seek(entries, 0, key);
    if contact_at(entries, place, key).is_some() {
        set_points(&mut entries[place], first, second);
    }
}

/// The contact with this key is over, if there is one.
pub(crate) fn end_by_key(entries: &[ContactEntry], over: &mut CountedFlags, key: ContactKey)
    requires rising { AreKeysRising entries.now }
    requires flags { length over.old ≡ length entries.now }
    ensures counts { counting over.new entries.now ≡ contacts_but key (counting over.old entries.now) }
    ensures stays { (place : ℕ) → is_over over.old place ≡ true → is_over over.new place ≡ true }
    ensures flags { length over.new ≡ length over.old }
{
    let place = seek(entries, 0, key);
    if contact_at(entries, place, key).is_some() {
        over.set(place);
    }
}

/// Adds the contacts from a place on that aren't over and come before `entry`. Answers the place of the first that
/// doesn't.
pub(crate) fn push_counting_below(
    all: &mut Vec<ContactEntry>,
    more: &[ContactEntry],
    over: &CountedFlags,
    place: usize,
    entry: &ContactEntry,
) -> Result<usize, Refusal>
    requires within { place ≤ length more.now }
    requires flags { length over.now ≡ length more.now }
    ensures within { IfOk result (λ next. next ≤ length more.now) }
    ensures pushed { OnOk result (all.new.items ≡ all.old.items ++ below_of number_of entry.now (counting (drop place over.now) (drop place more.now))) }
    ensures left { IfOk result (λ next. counting (drop next over.now) (drop next more.now) ≡ beyond_of number_of entry.now (counting (drop place over.now) (drop place more.now))) }
    ensures memory_only { IsOkUnless result Refusal.NoMemory }
{
    let number = entry.key.number();
    for index in place..more.len() {
        if over.is_set(index) {
            continue;
        }
        if more[index].key.number() >= number {
            return Ok(index);
        }
        all.push(more[index])?;
    }
    Ok(more.len())
}

/// Adds the contacts from a place on that aren't over.
pub(crate) fn push_counting(
    all: &mut Vec<ContactEntry>,
    more: &[ContactEntry],
    over: &CountedFlags,
    place: usize,
) -> Result<(), Refusal>
    requires within { place ≤ length more.now }
    requires flags { length over.now ≡ length more.now }
    ensures pushed { OnOk result (all.new.items ≡ all.old.items ++ counting (drop place over.now) (drop place more.now)) }
    ensures memory_only { IsOkUnless result Refusal.NoMemory }
{
    for index in place..more.len() {
        if over.is_set(index) {
            continue;
        }
        all.push(more[index])?;
    }
    Ok(())
}
