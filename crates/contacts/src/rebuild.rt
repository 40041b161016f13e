//! The short list of contacts after a collide: those of it that stay, and the fresh ones.

ghost use Rattle.std.specs.Prelude.{◌≡◌, ◌≤◌, All, IfOk, Some, None, length, map};
ghost use Rattle.std.specs.List.{filter_map};
ghost use Rattle.std.specs.Result.{IsOkUnless};
ghost use Rattle.contacts_base.specs.Contacts.{AreKeysRising, number_of};
ghost use Rattle.contacts_base.specs.ContactLists.{AreContacts};
ghost use Rattle.contacts_base.specs.ShortLists.{counted_in};
ghost use Rattle.contacts_base.specs.Proxies.{IsProxyList};
ghost use Rattle.contacts_base.specs.Changes.{key_if_new};
ghost use Rattle.contacts.specs.Known.{IsPairKey, again, staying};
ghost use Rattle.contacts.specs.Looked.{IsRebuilt};
ghost use Rattle.contacts_base.specs.Merge.{AreAscending, merged};
ghost use Rattle.contacts.specs.Stirring.{AreQuiet};
ghost use Rattle.contacts.specs.Fates.{IsAdded, begun_keys, ended_keys, gone_keys, moved_by, after_fate};

use crate::changes::push_key;
use crate::collide::Collide;
use crate::fates::{Fate, ShapesById, begun_key, ended_key, gone_key};
use crate::forbidden::ForbiddenPairs;
use crate::pending_update::Touches;
use crate::stirring::fate_in;
use contacts_base::{ContactEntry, ContactKey, ShortList, merge, push_below};
use fixed_geom::Refusal;
use std::alloc::Global;

/// The contacts of the list, and the keys of those of the old ones that begin to touch, that end, and that go.
#[derive(Drop)]
struct Survivors {
    all: Vec<ContactEntry>,
    begin: Vec<ContactKey>,
    end: Vec<ContactKey>,
    gone: Vec<ContactKey>,
}

/// The list anew, the keys of those of it that begin to touch and that end, and of the old ones that go.
#[derive(Drop)]
pub(crate) struct Rebuilt {
    pub all: Vec<ContactEntry>,
    pub touches: Touches,
    pub gone: Vec<ContactKey>,
}

/// Adds a contact, and before it the fresh ones from a place on that come first. Answers the place of the next fresh
/// one.
fn push_with(
    all: &mut Vec<ContactEntry>,
    fresh: &[ContactEntry],
    place: usize,
    entry: &ContactEntry,
) -> Result<usize, Refusal>
    requires { place ≤ length fresh.now }
    ensures within { IfOk result (λ next. next ≤ length fresh.now) }
    ensures added { IfOk result (λ next. IsAdded (Some entry.now) fresh.now place next all.old.items all.new.items) }
    ensures memory_only { IsOkUnless result Refusal.NoMemory }
{
    let next = push_below(all, fresh, place, entry)?;
    all.push(*entry)?;
    Ok(next)
}

/// Adds what a contact becomes, if it stays, and before it the fresh ones from a place on that come first. Answers the
/// place of the next fresh one.
fn push_after_fate(
    all: &mut Vec<ContactEntry>,
    fresh: &[ContactEntry],
    place: usize,
    entry: &ContactEntry,
    fate: &Fate,
) -> Result<usize, Refusal>
    requires { place ≤ length fresh.now }
    ensures within { IfOk result (λ next. next ≤ length fresh.now) }
    ensures added { IfOk result (λ next. IsAdded (after_fate entry.now fate.now) fresh.now place next all.old.items all.new.items) }
    ensures memory_only { IsOkUnless result Refusal.NoMemory }
{
    match fate {
        Fate::Stays => push_with(all, fresh, place, entry),
        Fate::Goes => Ok(place),
        Fate::Renewed(contact) => {
            let renewed = ContactEntry {
                key: entry.key,
                surface: entry.surface,
                contact: *contact,
            };
            push_with(all, fresh, place, &renewed)
        }
    }
}

/// Goes over the old contacts that aren't over once, and adds the fresh ones in their places.
fn fate_each<S: ShapesById, F: ForbiddenPairs>(
    alloc: Global,
    collide: &Collide<'_, S, F>,
    old: &ShortList,
    flags: &[bool],
    fresh: &[ContactEntry],
) -> Result<Survivors, Refusal>
    requires shapes { IsProxyList (S.proxies collide.now.shapes.now) }
    requires old { AreContacts (counted_in old.now) }
    requires keys { All (λ e. IsPairKey e.key) (counted_in old.now) }
    requires quiet { AreQuiet flags.now collide.now.marks.now (S.proxies collide.now.shapes.now) }
    requires fresh { AreAscending number_of fresh.now }
    ensures all { IfOk result (λ found. found.all.items ≡ merged number_of (map (again (S.proxies collide.now.shapes.now)) (staying (moved_by collide.now.marks.now) (F.pairs collide.now.forbidden.now) (S.proxies collide.now.shapes.now) (counted_in old.now))) fresh.now) }
    ensures begin { IfOk result (λ found. found.begin.items ≡ begun_keys (moved_by collide.now.marks.now) (F.pairs collide.now.forbidden.now) (S.proxies collide.now.shapes.now) (counted_in old.now)) }
    ensures end { IfOk result (λ found. found.end.items ≡ ended_keys (moved_by collide.now.marks.now) (F.pairs collide.now.forbidden.now) (S.proxies collide.now.shapes.now) (counted_in old.now)) }
    ensures gone { IfOk result (λ found. found.gone.items ≡ gone_keys (moved_by collide.now.marks.now) (F.pairs collide.now.forbidden.now) (S.proxies collide.now.shapes.now) (counted_in old.now)) }
    ensures memory_only { IsOkUnless result Refusal.NoMemory }
{
    let entries = old.entries();
    let mut all = Vec::with_capacity(alloc, entries.len().saturating_add(fresh.len()))?;
    let mut begin = Vec::new(alloc);
    let mut end = Vec::new(alloc);
    let mut gone = Vec::new(alloc);
    let mut next = 0;
    for place in 0..entries.len() {
        if old.is_over(place) {
            continue;
        }
        let entry = &entries[place];
        let fate = fate_in(collide, flags, entry);
        next = push_after_fate(&mut all, fresh, next, entry, &fate)?;
        push_key(&mut begin, begun_key(entry, &fate))?;
        push_key(&mut end, ended_key(entry, &fate))?;
        push_key(&mut gone, gone_key(entry, &fate))?;
    }
    all.extend_from_slice(&fresh[next..])?;
    Ok(Survivors {
        all,
        begin,
        end,
        gone,
    })
}

/// The contact's key, if it touches.
#[tactic(auto, unfolding(contacts_base::specs::Changes::key_if_new))]
fn key_of_touching(entry: &ContactEntry) -> Option<ContactKey>
    ensures { result ≡ key_if_new None entry.now }
{
    if entry.contact.is_touching() {
        Some(entry.key)
    } else {
        None
    }
}

/// The keys of those contacts that touch.
fn keys_of_touching(alloc: Global, fresh: &[ContactEntry]) -> Result<Vec<ContactKey>, Refusal>
    ensures value { IfOk result (λ keys. keys.items ≡ filter_map (key_if_new None) fresh.now) }
    ensures memory_only { IsOkUnless result Refusal.NoMemory }
{
    let mut keys = Vec::new(alloc);
    for place in 0..fresh.len() {
        push_key(&mut keys, key_of_touching(&fresh[place]))?;
    }
    Ok(keys)
}

/// The list anew, of those that there were and aren't over, and the fresh ones.
pub(crate) fn rebuild<S: ShapesById, F: ForbiddenPairs>(
    alloc: Global,
    collide: &Collide<'_, S, F>,
    old: &ShortList,
    flags: &[bool],
    fresh: &[ContactEntry],
) -> Result<Rebuilt, Refusal>
    requires shapes { IsProxyList (S.proxies collide.now.shapes.now) }
    requires old { AreContacts (counted_in old.now) }
    requires keys { All (λ e. IsPairKey e.key) (counted_in old.now) }
    requires quiet { AreQuiet flags.now collide.now.marks.now (S.proxies collide.now.shapes.now) }
    requires fresh { AreKeysRising fresh.now }
    ensures rebuilt { IfOk result (λ rebuilt. IsRebuilt (moved_by collide.now.marks.now) (F.pairs collide.now.forbidden.now) (S.proxies collide.now.shapes.now) (counted_in old.now) fresh.now rebuilt.all.items rebuilt.touches.begin.items rebuilt.touches.end.items) }
    ensures gone { IfOk result (λ rebuilt. rebuilt.gone.items ≡ gone_keys (moved_by collide.now.marks.now) (F.pairs collide.now.forbidden.now) (S.proxies collide.now.shapes.now) (counted_in old.now)) }
    ensures memory_only { IsOkUnless result Refusal.NoMemory }
{
    let survivors = fate_each(alloc, collide, old, flags, fresh)?;
    let new_keys = keys_of_touching(alloc, fresh)?;
    let begin = merge(alloc, &new_keys, &survivors.begin)?;
    Ok(Rebuilt {
        all: survivors.all,
        touches: Touches {
            begin,
            end: survivors.end,
        },
        gone: survivors.gone,
    })
}
