//! The contacts of near pairs that have none yet, found by asking what is near each shape of a marked slot: where few
//! are marked, that costs less than a sweep of all.

ghost use Rattle.std.specs.Prelude.{◌≡◌, ◌++◌, ◌/◌, ◌%◌, ◌^◌, ◌<◌, All, IfOk, OnOk};
ghost use Rattle.std.specs.List.Sorted.{IsStrictlyIncreasing};
ghost use Rattle.std.specs.Option.{option_to_list};
ghost use Rattle.std.specs.Result.{IsOkUnless};
ghost use Rattle.contacts_base.specs.Keys.{id_number};
ghost use Rattle.contacts_base.specs.Proxies.{IsProxy, IsProxyList};
ghost use Rattle.contacts_base.specs.Split.{contacts_in};
ghost use Rattle.contacts.specs.ByCodes.{contacts_of};
ghost use Rattle.contacts.specs.Known.{found, fresh as fresh_codes, has_key};
ghost use Rattle.contacts.specs.NearMarked.{HasNumbers, HasNumbersIn, IsExtended, fresh_by, fresh_of, near_number, number_if, number_with, numbers_up, numbers_with};
ghost use Rattle.contacts.specs.Fates.{AreWithin, moved_by};
ghost use Rattle.packed_sets.specs.Marks.{AreListed};

use crate::changes::entry_with;
use crate::collide::Collide;
use crate::fates::{ShapesById, may_touch};
use crate::forbidden::ForbiddenPairs;
use crate::marks::either_moved;
use contacts_base::{ContactEntry, ContactKey, Hint, Proxy, ShapeId, SplitContacts, is_near};
use fixed_geom::Refusal;
use shapes::MAX_SHAPES;
use std::alloc::Global;

/// The number of two shapes' key, the lesser first, if they are near.
fn number_if(p: &Proxy, q: &Proxy) -> Option<u128>
    ensures { result ≡ number_if p.now q.now }
{
    if is_near(p, q) {
        let key = ContactKey {
            first: p.id,
            second: q.id,
        };
        Some(key.number())
    } else {
        None
    }
}

/// The same in either order.
fn near_number(p: &Proxy, q: &Proxy) -> Option<u128>
    ensures { result ≡ near_number p.now q.now }
{
    if p.id.number() < q.id.number() {
        number_if(p, q)
    } else {
        number_if(q, p)
    }
}

/// The same with the shape of a name, if there is one.
fn number_with<S: ShapesById>(shapes: &S, p: &Proxy, id: ShapeId) -> Option<u128>
    ensures { result ≡ number_with p.now (found (S.proxies shapes.now) (id_number id)) }
{
    match shapes.shape(id) {
        None => None,
        Some(q) => near_number(p, &q),
    }
}

/// Adds a number, if there is one.
fn push_number(numbers: &mut Vec<u128>, number: Option<u128>) -> Result<(), Refusal>
    ensures pushed { OnOk result (numbers.new.items ≡ numbers.old.items ++ option_to_list number) }
    ensures memory_only { IsOkUnless result Refusal.NoMemory }
{
    if let Some(number) = number {
        numbers.push(number)?;
    }
    Ok(())
}

/// Adds the numbers of a shape with those of a slot.
fn push_numbers_in<S: ShapesById>(
    numbers: &mut Vec<u128>,
    shapes: &S,
    p: &Proxy,
    slot: u32,
) -> Result<(), Refusal>
    ensures pushed { OnOk result (numbers.new.items ≡ numbers.old.items ++ numbers_up (S.proxies shapes.now) p.now slot MAX_SHAPES) }
    ensures memory_only { IsOkUnless result Refusal.NoMemory }
{
    for index in 0..MAX_SHAPES {
        let id = ShapeId {
            slot,
            index: index as u8,
        };
        push_number(numbers, number_with(shapes, p, id))?;
    }
    Ok(())
}

/// Adds the numbers of a shape with those of these slots.
fn push_numbers_with<S: ShapesById>(
    numbers: &mut Vec<u128>,
    shapes: &S,
    p: &Proxy,
    slots: &[u32],
) -> Result<(), Refusal>
    ensures pushed { OnOk result (numbers.new.items ≡ numbers.old.items ++ numbers_with (S.proxies shapes.now) p.now slots.now) }
    ensures memory_only { IsOkUnless result Refusal.NoMemory }
{
    for place in 0..slots.len() {
        push_numbers_in(numbers, shapes, p, slots[place])?;
    }
    Ok(())
}

/// Adds the numbers of the pairs that the shape with a name makes.
fn push_numbers_of<S: ShapesById>(
    numbers: &mut Vec<u128>,
    shapes: &S,
    id: ShapeId,
) -> Result<(), Refusal>
    requires { IsProxyList (S.proxies shapes.now) }
    ensures kept { OnOk result (IsExtended numbers.old.items numbers.new.items) }
    ensures near { OnOk result (HasNumbers (S.proxies shapes.now) (id_number id) numbers.new.items) }
    ensures memory_only { IsOkUnless result Refusal.NoMemory }
{
    let Some(p) = shapes.shape(id) else {
        return Ok(());
    };
    let slots = shapes.overlapping(&p.fat)?;
    push_numbers_with(numbers, shapes, &p, &slots)?;
    Ok(())
}

/// Adds the numbers of the pairs that the shapes of a slot make.
fn push_numbers_of_slot<S: ShapesById>(
    numbers: &mut Vec<u128>,
    shapes: &S,
    slot: u32,
) -> Result<(), Refusal>
    requires { IsProxyList (S.proxies shapes.now) }
    ensures kept { OnOk result (IsExtended numbers.old.items numbers.new.items) }
    ensures near { OnOk result (HasNumbersIn (S.proxies shapes.now) slot numbers.new.items) }
    ensures memory_only { IsOkUnless result Refusal.NoMemory }
{
    for index in 0..MAX_SHAPES {
        let id = ShapeId {
            slot,
            index: index as u8,
        };
        push_numbers_of(numbers, shapes, id)?;
    }
    Ok(())
}

/// Adds the numbers of the pairs that the shapes of these slots make.
fn push_numbers_of_all<S: ShapesById>(
    numbers: &mut Vec<u128>,
    shapes: &S,
    marked: &[u32],
) -> Result<(), Refusal>
    requires { IsProxyList (S.proxies shapes.now) }
    ensures near { OnOk result (All (λ slot. HasNumbersIn (S.proxies shapes.now) slot numbers.new.items) marked.now) }
    ensures memory_only { IsOkUnless result Refusal.NoMemory }
{
    for place in 0..marked.len() {
        push_numbers_of_slot(numbers, shapes, marked[place])?;
    }
    Ok(())
}

/// Fills `numbers` with those of the keys of the near pairs that the shapes of these slots make, ascending, each once.
fn list_numbers<S: ShapesById>(
    numbers: &mut Vec<u128>,
    shapes: &S,
    marked: &[u32],
) -> Result<(), Refusal>
    requires { IsProxyList (S.proxies shapes.now) }
    ensures near { OnOk result (All (λ slot. HasNumbersIn (S.proxies shapes.now) slot numbers.new.items) marked.now) }
    ensures rising { OnOk result (IsStrictlyIncreasing numbers.new.items) }
    ensures memory_only { IsOkUnless result Refusal.NoMemory }
{
    numbers.clear();
    push_numbers_of_all(numbers, shapes, marked)?;
    numbers.sort_unstable();
    numbers.dedup();
    Ok(())
}

/// The name of a shape by its number.
fn id_with(number: u64) -> ShapeId
    requires { number < 2 ^ 40 }
    ensures { id_number result ≡ number }
{
    ShapeId {
        slot: (number / 256) as u32,
        index: (number % 256) as u8,
    }
}

/// The key with a number.
fn key_with(number: u128) -> ContactKey
    requires { number < 2 ^ 80 }
    ensures first { id_number result.first ≡ number / 2 ^ 40 }
    ensures second { id_number result.second ≡ number % 2 ^ 40 }
{
    ContactKey {
        first: id_with((number / (1 << 40)) as u64),
        second: id_with((number % (1 << 40)) as u64),
    }
}

/// Whether there is a contact with this key.
fn has_key(old: &SplitContacts, key: ContactKey) -> bool
    ensures { result ≡ has_key (contacts_in old.now) key }
{
    old.find(&mut Hint { long: 0, short: 0 }, key).is_some()
}

/// The contact of two shapes, if the first is the lesser, they may touch, one has moved, and they have none yet.
fn fresh_of<S: ShapesById, F: ForbiddenPairs>(
    collide: &Collide<'_, S, F>,
    old: &SplitContacts,
    p: &Proxy,
    q: &Proxy,
) -> Option<ContactEntry>
    requires first { IsProxy p.now }
    requires second { IsProxy q.now }
    ensures { result ≡ fresh_of (moved_by collide.now.marks.now) (F.pairs collide.now.forbidden.now) (contacts_in old.now) p.now q.now }
{
    if p.id.number() >= q.id.number() {
        return None;
    }
    if !may_touch(collide.forbidden, p, q) {
        return None;
    }
    let key = ContactKey {
        first: p.id,
        second: q.id,
    };
    if !either_moved(collide.marks, key) {
        return None;
    }
    if has_key(old, key) {
        None
    } else {
        Some(entry_with(None, p, q))
    }
}

/// The contact of the shapes of a key's number, if they are fresh.
fn fresh_by<S: ShapesById, F: ForbiddenPairs>(
    collide: &Collide<'_, S, F>,
    old: &SplitContacts,
    number: u128,
) -> Option<ContactEntry>
    requires shapes { IsProxyList (S.proxies collide.now.shapes.now) }
    ensures { result ≡ fresh_by (moved_by collide.now.marks.now) (F.pairs collide.now.forbidden.now) (S.proxies collide.now.shapes.now) (contacts_in old.now) number }
{
    if number >= 1 << 80 {
        return None;
    }
    let key = key_with(number);
    let Some(p) = collide.shapes.shape(key.first) else {
        return None;
    };
    let Some(q) = collide.shapes.shape(key.second) else {
        return None;
    };
    fresh_of(collide, old, &p, &q)
}

/// Adds a contact, if there is one.
fn push_entry(entries: &mut Vec<ContactEntry>, entry: Option<ContactEntry>) -> Result<(), Refusal>
    ensures pushed { OnOk result (entries.new.items ≡ entries.old.items ++ option_to_list entry) }
    ensures memory_only { IsOkUnless result Refusal.NoMemory }
{
    if let Some(entry) = entry {
        entries.push(entry)?;
    }
    Ok(())
}

/// The contacts of those near pairs of which a shape has moved, whose bodies aren't among the forbidden pairs, and that
/// have none among `old`: all are of shapes of the marked slots. `numbers` is room to work in.
pub(crate) fn fresh_of_marked<S: ShapesById, F: ForbiddenPairs>(
    alloc: Global,
    numbers: &mut Vec<u128>,
    collide: &Collide<'_, S, F>,
    old: &SplitContacts,
) -> Result<Vec<ContactEntry>, Refusal>
    requires shapes { IsProxyList (S.proxies collide.now.shapes.now) }
    requires within { AreWithin collide.now.marks.now (S.proxies collide.now.shapes.now) }
    requires listed { AreListed collide.now.marks.now collide.now.marked.now }
    ensures value { IfOk result (λ fresh. fresh.items ≡ contacts_of (contacts_in old.now) (S.proxies collide.now.shapes.now) (fresh_codes (moved_by collide.now.marks.now) (F.pairs collide.now.forbidden.now) (S.proxies collide.now.shapes.now) (contacts_in old.now))) }
    ensures memory_only { IsOkUnless result Refusal.NoMemory }
{
    list_numbers(numbers, collide.shapes, collide.marked)?;
    let listed = numbers.as_slice();
    let mut fresh = Vec::new(alloc);
    for place in 0..listed.len() {
        push_entry(&mut fresh, fresh_by(collide, old, listed[place]))?;
    }
    Ok(fresh)
}
