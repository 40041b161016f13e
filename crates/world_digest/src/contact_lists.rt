//! Contacts as words, from the two lists in which a world keeps them.

ghost use Rattle.std.specs.Prelude.{◌≡◌, ◌≤◌, ◌<◌, ◌+◌, ◌^◌, drop, flat_map, length, nat_lt};
ghost use Rattle.std.specs.Option.{is_some};
ghost use Rattle.contacts_base.specs.Contacts.{AreKeysRising, number_of};
ghost use Rattle.contacts_base.specs.Merge.{below_of, beyond_of, merged};
ghost use Rattle.contacts_base.specs.ShortLists.{counted_from, counted_in};
ghost use Rattle.contacts_base.specs.Split.{contacts_in, counting, counting_at};
ghost use Rattle.world_digest.specs.ConstraintWords.{contact_words};
ghost use Rattle.world_digest.specs.Sums.{absorbed_all, list_words};

use crate::sums::Sums;
use crate::words::{Words, feed_all};
use contacts_base::{ContactEntry, ShortList, SplitContacts};

/// Whether the contact at a place of the long list counts.
fn counts_at(contacts: &SplitContacts, place: usize) -> bool
    ensures { result ≡ is_some (counting_at contacts.now place) }
{
    contacts.counting(place).is_some()
}

/// How many contacts of the long list count.
fn count_long(contacts: &SplitContacts) -> u64
    ensures count { result ≡ length (counting contacts.now.over contacts.now.long) }
    ensures few { result < 2 ^ 63 }
{
    contacts.know_ascending();
    let long = contacts.long();
    let mut count = 0;
    for place in 0..long.len() {
        if !counts_at(contacts, place) {
            continue;
        }
        count += 1;
    }
    count
}

/// How many of the short list do.
fn count_short(short: &ShortList) -> u64
    ensures count { result ≡ length (counted_in short.now) }
    ensures few { result < 2 ^ 63 }
{
    let entries = short.entries();
    let mut count = 0;
    for place in 0..entries.len() {
        if short.is_over(place) {
            continue;
        }
        count += 1;
    }
    count
}

/// Whether a contact comes before another.
fn is_before(first: &ContactEntry, second: &ContactEntry) -> bool
    ensures { result ≡ nat_lt (number_of first.now) (number_of second.now) }
{
    first.key.number() < second.key.number()
}

/// The words of those contacts of the short list from a place on that come before `entry`. Answers the place of the
/// first that doesn't.
fn feed_below(short: &ShortList, place: usize, entry: &ContactEntry, sums: &mut Sums) -> usize
    requires { place ≤ length short.now.entries }
    ensures within { result ≤ length short.now.entries }
    ensures flags { length short.now.over ≡ length short.now.entries }
    ensures fed { sums.new ≡ absorbed_all sums.old (flat_map contact_words (below_of number_of entry.now (counted_from place short.now))) }
    ensures left { counted_from result short.now ≡ beyond_of number_of entry.now (counted_from place short.now) }
{
    let entries = short.entries();
    for index in place..entries.len() {
        if short.is_over(index) {
            continue;
        }
        let item = &entries[index];
        if !is_before(item, entry) {
            return index;
        }
        item.feed(sums);
    }
    entries.len()
}

/// The words of all contacts of the short list from a place on.
fn feed_from(short: &ShortList, place: usize, sums: &mut Sums)
    requires { place ≤ length short.now.entries }
    ensures { sums.new ≡ absorbed_all sums.old (flat_map contact_words (counted_from place short.now)) }
{
    let entries = short.entries();
    for index in place..entries.len() {
        if short.is_over(index) {
            continue;
        }
        let item = &entries[index];
        item.feed(sums);
    }
}

/// The words of the contact at a place of the long list, if it counts, and before them those of the contacts of the
/// short list from the place `next` on that come before it. Answers the place of the first that doesn't.
fn feed_at(
    contacts: &SplitContacts,
    short: &ShortList,
    place: usize,
    next: usize,
    sums: &mut Sums,
) -> usize
    requires place { place < length contacts.now.long }
    requires next { next ≤ length short.now.entries }
    requires rising { AreKeysRising (counted_in short.now) }
    ensures within { result ≤ length short.now.entries }
    ensures told { absorbed_all sums.new (flat_map contact_words (merged number_of (counting (drop (place + 1) contacts.now.over) (drop (place + 1) contacts.now.long)) (counted_from result short.now))) ≡ absorbed_all sums.old (flat_map contact_words (merged number_of (counting (drop place contacts.now.over) (drop place contacts.now.long)) (counted_from next short.now))) }
{
    contacts.know_ascending();
    if !counts_at(contacts, place) {
        return next;
    }
    let long = contacts.long();
    let entry = &long[place];
    let behind = feed_below(short, next, entry, sums);
    entry.feed(sums);
    behind
}

/// The words of the contacts of both lists, ascending by key.
fn feed_both(contacts: &SplitContacts, short: &ShortList, sums: &mut Sums)
    requires short { counted_in short.now ≡ contacts.now.short }
    requires rising { AreKeysRising (counted_in short.now) }
    ensures { sums.new ≡ absorbed_all sums.old (flat_map contact_words (contacts_in contacts.now)) }
{
    contacts.know_ascending();
    let long = contacts.long();
    let mut next = 0;
    for place in 0..long.len() {
        next = feed_at(contacts, short, place, next, sums);
    }
    feed_from(short, next, sums);
}

/// How many contacts there are, and then the words of each, ascending by key.
pub(crate) fn feed_contacts(contacts: &SplitContacts, sums: &mut Sums)
    ensures { sums.new ≡ absorbed_all sums.old (list_words contact_words (contacts_in contacts.now)) }
{
    if contacts.is_one() {
        feed_all(contacts.long(), sums);
        return;
    }
    let short = contacts.short();
    let count = count_long(contacts) + count_short(short);
    sums.natural(count);
    feed_both(contacts, short, sums);
}
