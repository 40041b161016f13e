//! What becomes of the contacts in a step's collide.

ghost use Rattle.std.specs.Prelude.{◌≡◌, ◌++◌, ◌+◌, ◌<◌, ◌≤◌, All, OnOk, IfOk, length, vec_capacity, vec_len};
ghost use Rattle.std.specs.Result.{IsOkUnless};
ghost use Rattle.contacts_base.specs.Proxies.{IsProxy, IsProxyList};
ghost use Rattle.std.specs.Option.{option_copied, option_to_list};
ghost use Rattle.contacts_base.specs.Contacts.{AreKeysRising, is_touching};
ghost use Rattle.contacts_base.specs.ContactLists.{AreContacts};
ghost use Rattle.contacts.specs.Pairs.{IsPair, ArePairs, proxy_at, first_place, second_place, pair_key};
ghost use Rattle.contacts_base.specs.Changes.{surface_with, contact_with, entry_with, kept_contact, key_if_new, keys_touching_only_in};
ghost use Rattle.contacts.specs.ByCodes.{contacts_of};
ghost use Rattle.contacts.specs.PairPieces.{IsRoomFor};
ghost use Rattle.contacts_base.specs.ChangedKeys.{key_unless, keys_not_in, AreRising};

use crate::pair_pieces::{EvaluatedPairs, PairPiece, evaluate_pairs};
use contacts_base::{
    ContactEntry, ContactKey, Contacts, PackedContact, PackedSurface, Proxy, SplitContacts,
    contact_of, find_next, one_stirs,
};
use crew::PieceMap;
use fixed_geom::Refusal;
use std::alloc::Global;

/// The contacts after a collide, and the keys of those that were made, are gone, began to touch and
/// ended. Each list ascends.
#[derive(Drop)]
pub struct Changes {
    pub now: Contacts,
    pub made: Vec<ContactKey>,
    pub gone: Vec<ContactKey>,
    pub begin: Vec<ContactKey>,
    pub end: Vec<ContactKey>,
}

/// The key of the pair with this number.
pub(crate) fn key_at(proxies: &[Proxy], code: u64) -> ContactKey
    requires { IsPair proxies.now code }
    ensures { result ≡ pair_key proxies.now code }
{
    ContactKey {
        first: proxies[(code / (1 << 32)) as usize].id,
        second: proxies[(code % (1 << 32)) as usize].id,
    }
}

/// The surface of the contact of two shapes, whose contact until now was `old`.
fn surface_with(old: Option<&ContactEntry>, p: &Proxy, q: &Proxy) -> PackedSurface
    requires first { IsProxy p.now }
    requires second { IsProxy q.now }
    ensures { result ≡ surface_with (option_copied old.entry) p.now q.now }
{
    match old {
        None => PackedSurface::new(p.surface.mixed(q.surface)),
        Some(entry) => entry.surface,
    }
}

/// The points that a contact has; a new one has none.
fn kept_contact(old: Option<&ContactEntry>) -> PackedContact
    ensures { result ≡ kept_contact (option_copied old.entry) }
{
    match old {
        None => PackedContact::apart(),
        Some(entry) => entry.contact,
    }
}

/// What the contact of two shapes becomes, which was `old` until now: evaluated anew, if the body of one of them stirs.
#[inline(always)]
pub(crate) fn contact_with(old: Option<&ContactEntry>, p: &Proxy, q: &Proxy) -> PackedContact
    requires first { IsProxy p.now }
    requires second { IsProxy q.now }
    ensures { result ≡ contact_with (option_copied old.entry) p.now q.now }
{
    if one_stirs(p, q) {
        contact_of(old, p, q)
    } else {
        kept_contact(old)
    }
}

/// The contact of two shapes, whose contact until now was `old`.
#[tactic(auto, unfolding(contacts_base::specs::Changes::entry_with))]
pub(crate) fn entry_with(old: Option<&ContactEntry>, p: &Proxy, q: &Proxy) -> ContactEntry
    requires first { IsProxy p.now }
    requires second { IsProxy q.now }
    ensures { result ≡ entry_with (option_copied old.entry) p.now q.now }
{
    ContactEntry {
        key: ContactKey {
            first: p.id,
            second: q.id,
        },
        surface: surface_with(old, p, q),
        contact: contact_with(old, p, q),
    }
}

/// The contact of the pair with this number, whose contact until now was `old`.
pub(crate) fn pair_entry(old: Option<&ContactEntry>, proxies: &[Proxy], code: u64) -> ContactEntry
    requires proxies { All IsProxy proxies.now }
    requires pair { IsPair proxies.now code }
    ensures { result ≡ entry_with (option_copied old.entry) (proxy_at proxies.now (first_place code)) (proxy_at proxies.now (second_place code)) }
{
    let first = (code / (1 << 32)) as usize;
    let second = (code % (1 << 32)) as usize;
    entry_with(old, &proxies[first], &proxies[second])
}

/// The entry's key, unless there is another contact with it.
#[tactic(auto, unfolding(contacts_base::specs::ChangedKeys::key_unless))]
fn key_unless(other: Option<&ContactEntry>, entry: &ContactEntry) -> Option<ContactKey>
    ensures { result ≡ key_unless (option_copied other.entry) entry.now }
{
    match other {
        Some(_) => None,
        None => Some(entry.key),
    }
}

fn is_touching(entry: Option<&ContactEntry>) -> bool
    ensures { result ≡ is_touching (option_copied entry.entry) }
{
    match entry {
        None => false,
        Some(entry) => entry.contact.is_touching(),
    }
}

/// The entry's key, if it touches and the other contact with its key, if there is one, doesn't.
#[tactic(auto, unfolding(contacts_base::specs::Changes::key_if_new))]
fn key_if_new(other: Option<&ContactEntry>, entry: &ContactEntry) -> Option<ContactKey>
    ensures { result ≡ key_if_new (option_copied other.entry) entry.now }
{
    if !entry.contact.is_touching() {
        return None;
    }
    if is_touching(other) {
        None
    } else {
        Some(entry.key)
    }
}

/// Adds a key, if there is one. There is room for it.
pub(crate) fn push_key_within(keys: &mut Vec<ContactKey>, key: Option<ContactKey>)
    requires { vec_len keys.old < vec_capacity keys.old }
    ensures pushed { keys.new.items ≡ keys.old.items ++ option_to_list key }
    ensures capacity { vec_capacity keys.new ≡ vec_capacity keys.old }
    ensures long { vec_len keys.new ≤ vec_len keys.old + 1 }
{
    if let Some(key) = key {
        keys.push_reserved(key);
    }
}

/// Adds a key, if there is one.
pub(crate) fn push_key(keys: &mut Vec<ContactKey>, key: Option<ContactKey>) -> Result<(), Refusal>
    ensures pushed { OnOk result (keys.new.items ≡ keys.old.items ++ option_to_list key) }
    ensures memory_only { IsOkUnless result Refusal.NoMemory }
{
    if let Some(key) = key {
        keys.push(key)?;
    }
    Ok(())
}

/// The contacts of near pairs, and the keys of those that were made and that began to touch; or room for them.
#[derive(Drop)]
pub(crate) struct Present {
    pub now: Vec<ContactEntry>,
    pub made: Vec<ContactKey>,
    pub begin: Vec<ContactKey>,
}

/// The keys of the contacts that are gone, and of those that ended.
#[derive(Drop)]
struct Past {
    gone: Vec<ContactKey>,
    end: Vec<ContactKey>,
}

/// The contacts of these pairs, and what is new in them, in lists that have room for them.
///
/// Pairs and old contacts ascend, so each search goes on where the one before it ended.
pub(crate) fn contacts_of_pairs(
    room: Present,
    old: &[ContactEntry],
    proxies: &[Proxy],
    near: &[u64],
) -> Present
    requires room { IsRoomFor (length near.now) room }
    requires old { AreContacts old.now }
    requires proxies { IsProxyList proxies.now }
    requires near { ArePairs proxies.now near.now }
    ensures now { result.now.items ≡ contacts_of old.now proxies.now near.now }
    ensures made { result.made.items ≡ keys_not_in old.now result.now.items }
    ensures begin { result.begin.items ≡ keys_touching_only_in old.now result.now.items }
{
    let Present {
        mut now,
        mut made,
        mut begin,
    } = room;
    let mut place = 0;
    for code in near {
        let key = key_at(proxies, *code);
        let before = find_next(old, &mut place, key);
        let entry = pair_entry(before, proxies, *code);
        push_key_within(&mut made, key_unless(before, &entry));
        push_key_within(&mut begin, key_if_new(before, &entry));
        now.push_reserved(entry);
    }
    Present { now, made, begin }
}

/// What is no longer in the contacts.
fn lost_keys(alloc: Global, now: &[ContactEntry], old: &[ContactEntry]) -> Result<Past, Refusal>
    requires now { AreKeysRising now.now }
    requires old { AreKeysRising old.now }
    ensures gone { IfOk result (λ past. past.gone.items ≡ keys_not_in now.now old.now) }
    ensures end { IfOk result (λ past. past.end.items ≡ keys_touching_only_in now.now old.now) }
    ensures memory_only { IsOkUnless result Refusal.NoMemory }
{
    let mut gone = Vec::new(alloc);
    let mut end = Vec::new(alloc);
    let mut place = 0;
    for entry in old {
        let after = find_next(now, &mut place, entry.key);
        push_key(&mut gone, key_unless(after, entry))?;
        push_key(&mut end, key_if_new(after, entry))?;
    }
    Ok(Past { gone, end })
}

/// The contacts of these pairs, those of bodies that stir evaluated anew, and what changed. `old` are the contacts
/// until now. The contacts are listed in the memory of `room`; `rooms` have memory for pieces.
pub(crate) fn update<M: PieceMap<PairPiece>>(
    mapper: &mut M,
    room: Vec<ContactEntry>,
    old: &mut SplitContacts,
    proxies: &mut Vec<Proxy>,
    near: &mut Vec<u64>,
    rooms: &mut Vec<EvaluatedPairs>,
) -> Result<Changes, Refusal>
    requires old { AreContacts old.old.long }
    requires proxies { IsProxyList proxies.old.items }
    requires near { ArePairs proxies.old.items near.old.items }
    ensures contacts { old.new ≡ old.old }
    ensures proxies { proxies.new.items ≡ proxies.old.items }
    ensures now { IfOk result (λ changes. changes.now ≡ contacts_of old.old.long proxies.old.items near.old.items) }
    ensures made { IfOk result (λ changes. changes.made.items ≡ keys_not_in old.old.long changes.now) }
    ensures gone { IfOk result (λ changes. changes.gone.items ≡ keys_not_in changes.now old.old.long) }
    ensures begin { IfOk result (λ changes. changes.begin.items ≡ keys_touching_only_in old.old.long changes.now) }
    ensures end { IfOk result (λ changes. changes.end.items ≡ keys_touching_only_in changes.now old.old.long) }
    ensures made_rising { IfOk result (λ changes. AreRising changes.made.items) }
    ensures gone_rising { IfOk result (λ changes. AreRising changes.gone.items) }
    ensures begin_rising { IfOk result (λ changes. AreRising changes.begin.items) }
    ensures end_rising { IfOk result (λ changes. AreRising changes.end.items) }
    ensures memory_only { IsOkUnless result Refusal.NoMemory }
{
    let alloc = *room.allocator();
    let present = evaluate_pairs(mapper, room, old, proxies, near, rooms)?;
    let past = lost_keys(alloc, &present.now, old.long())?;
    Ok(Changes {
        now: Contacts::from_entries(present.now),
        made: present.made,
        gone: past.gone,
        begin: present.begin,
        end: past.end,
    })
}
