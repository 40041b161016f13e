//! What becomes in a collide of one of the contacts that there are.

ghost use Rattle.std.specs.Prelude.{◌≡◌, ℕ, ◌/◌, ◌+◌, ◌++◌, ◌<◌, ◌≤◌, ◌⊎◌, All, Bool, IfOk, List, OnOk, Some, cond, true, vec_capacity, vec_len};
ghost use Rattle.std.specs.List.{Contains};
ghost use Rattle.std.specs.Result.{IsOkUnless};
ghost use Rattle.fixed_geom.specs.Boxes.{overlaps};
ghost use Rattle.contacts_base.specs.declared.near.Proxy.{Proxy};
ghost use Rattle.contacts_base.specs.Keys.{id_number};
ghost use Rattle.contacts_base.specs.Proxies.{IsProxyList};
ghost use Rattle.contacts_base.specs.Contacts.{is_touching};
ghost use Rattle.contacts_base.specs.Changes.{key_if_new};
ghost use Rattle.contacts.specs.Known.{again, either_moved, found, may_touch, near_key, stays};
ghost use Rattle.contacts.specs.Looked.{ending};
ghost use Rattle.contacts.specs.SurveyPieces.{fate_of};
ghost use Rattle.packed_sets.specs.Marks.{AreListed};
ghost use Rattle.contacts.specs.Fates.{key_if_begun, key_if_gone, moved_by, noted, one_stirs_of, outcome, stirs_in, after_fate};

use crate::changes::contact_with;
use crate::collide::Collide;
use crate::forbidden::{ForbiddenPairs, is_forbidden};
use crate::marks::either_moved;
use crate::pair_sweep::PairSweep;
use contacts_base::{ContactEntry, ContactKey, PackedContact, Proxy, Renewal, ShapeId, is_near};
use fixed_geom::{Box2, Refusal};
use std::alloc::Global;

/// Where the shapes of the enabled bodies are read, one by one. `BodyShapes` of `world_core/src/collide.rt` implements
/// it, over the tables of the world, and [`ContactTable::collide`](crate::ContactTable::collide) calls it: this crate
/// knows no bodies.
pub trait ShapesById {
    ghost proxies: { Self → List Proxy };

    ghost awake: { Self → List ℕ };

    ghost carried: { Self → List ℕ };

    ghost marks: { Self → List Bool };

    /// The shape with this name, if there is one.
    fn shape(&self, id: ShapeId) -> Option<Proxy>
        ensures { result ≡ found (proxies self.now) (id_number id) };

    /// Whether there is a shape with this name, and its body stirs.
    fn stirs(&self, id: ShapeId) -> bool
        ensures { result ≡ stirs_in (found (proxies self.now) (id_number id)) };

    /// The slots of the awake movers.
    fn awake(&self) -> &[u32]
        ensures { result.now ≡ awake self.now };

    /// The slots of the bodies that are carried along. A body that stirs is one of these or an awake mover.
    fn carried(&self) -> &[u32]
        ensures value { result.now ≡ carried self.now }
        ensures stirring { (n : ℕ) → stirs_in (found (proxies self.now) n) ≡ true → Contains (awake self.now) (n / 256) ⊎ Contains (carried self.now) (n / 256) };

    /// The slots of all bodies with a shape whose fat box overlaps the wanted one, and perhaps of others.
    fn overlapping(&self, wanted: &Box2) -> Result<Vec<u32>, Refusal>
        ensures complete { IfOk result (λ slots. All (λ p. overlaps p.fat wanted.now ≡ true → Contains slots.items p.id.slot) (proxies self.now)) }
        ensures memory_only { IsOkUnless result Refusal.NoMemory };

    /// Fills a broad phase with the shapes.
    fn gather(&self, broad: &mut PairSweep) -> Result<(), Refusal>
        ensures gathered { OnOk result (broad.new ≡ proxies self.now) }
        ensures memory_only { IsOkUnless result Refusal.NoMemory };

    /// By slot, whether the body's shapes have moved; a slot beyond the marks counts as marked.
    fn marks(&self) -> &[bool]
        ensures { result.now ≡ marks self.now };

    /// The slots that are marked.
    fn marked(&self) -> &[u32]
        ensures { AreListed (marks self.now) result.now };

    /// All of it, to be lent: nothing is left in its place.
    fn taken(&mut self, alloc: Global) -> Self
        ensures { result ≡ self.old };
}

/// What becomes of a contact.
#[derive(Clone, Copy, Debug, PartialEq, Eq)]
pub enum Fate {
    Stays,
    Goes,
    Renewed(PackedContact),
}

/// Whether two shapes are near, and nothing keeps their bodies from colliding.
pub(crate) fn may_touch<F: ForbiddenPairs>(forbidden: &F, p: &Proxy, q: &Proxy) -> bool
    ensures { result ≡ may_touch (F.pairs forbidden.now) p.now q.now }
{
    if is_near(p, q) {
        !is_forbidden(forbidden, p, q)
    } else {
        false
    }
}

/// Whether the shapes of a key are there, are near, and may touch.
#[inline(always)]
fn is_near_key<S: ShapesById, F: ForbiddenPairs>(
    collide: &Collide<'_, S, F>,
    key: ContactKey,
) -> bool
    ensures { result ≡ near_key (F.pairs collide.now.forbidden.now) (S.proxies collide.now.shapes.now) key }
{
    let Some(p) = collide.shapes.shape(key.first) else {
        return false;
    };
    let Some(q) = collide.shapes.shape(key.second) else {
        return false;
    };
    may_touch(collide.forbidden, &p, &q)
}

/// Whether a contact stays: its shapes haven't moved, or they are still near.
pub(crate) fn stays<S: ShapesById, F: ForbiddenPairs>(
    collide: &Collide<'_, S, F>,
    key: ContactKey,
) -> bool
    ensures { result ≡ cond (either_moved (moved_by collide.now.marks.now) key) (near_key (F.pairs collide.now.forbidden.now) (S.proxies collide.now.shapes.now) key) true }
{
    if either_moved(collide.marks, key) {
        is_near_key(collide, key)
    } else {
        true
    }
}

/// Whether the body of one of a key's shapes stirs.
fn one_stirs_of<S: ShapesById>(shapes: &S, key: ContactKey) -> bool
    ensures { result ≡ one_stirs_of (S.proxies shapes.now) key }
{
    shapes.stirs(key.first) || shapes.stirs(key.second)
}

/// The points of a contact evaluated anew, if one of its bodies stirs.
#[inline(always)]
fn points_again<S: ShapesById>(shapes: &S, entry: &ContactEntry) -> PackedContact
    requires { IsProxyList (S.proxies shapes.now) }
    ensures entry { record entry.now { contact = result } ≡ again (S.proxies shapes.now) entry.now }
    ensures contact { result ≡ (again (S.proxies shapes.now) entry.now).contact }
{
    let Some(p) = shapes.shape(entry.key.first) else {
        return entry.contact;
    };
    let Some(q) = shapes.shape(entry.key.second) else {
        return entry.contact;
    };
    contact_with(Some(entry), &p, &q)
}

/// What becomes of a contact: it goes where one of its shapes has moved and they are no longer near, and else is
/// evaluated anew if one of its bodies stirs.
pub(crate) fn fate_of<S: ShapesById, F: ForbiddenPairs>(
    collide: &Collide<'_, S, F>,
    entry: &ContactEntry,
) -> Fate
    requires shapes { IsProxyList (S.proxies collide.now.shapes.now) }
    ensures fate { result ≡ fate_of (moved_by collide.now.marks.now) (F.pairs collide.now.forbidden.now) (S.proxies collide.now.shapes.now) entry.now }
    ensures after { after_fate entry.now result ≡ outcome (moved_by collide.now.marks.now) (F.pairs collide.now.forbidden.now) (S.proxies collide.now.shapes.now) entry.now }
{
    if !stays(collide, entry.key) {
        return Fate::Goes;
    }
    if !one_stirs_of(collide.shapes, entry.key) {
        return Fate::Stays;
    }
    Fate::Renewed(points_again(collide.shapes, entry))
}

/// Whether a contact touches after its fate.
fn touches_after(entry: &ContactEntry, fate: &Fate) -> bool
    ensures { result ≡ is_touching (after_fate entry.now fate.now) }
{
    match fate {
        Fate::Stays => entry.contact.is_touching(),
        Fate::Goes => false,
        Fate::Renewed(contact) => contact.is_touching(),
    }
}

/// The contact's key, if it touched, and doesn't after its fate.
#[tactic(auto, unfolding(contacts_base::specs::Changes::key_if_new))]
pub(crate) fn ended_key(entry: &ContactEntry, fate: &Fate) -> Option<ContactKey>
    ensures { result ≡ key_if_new (after_fate entry.now fate.now) entry.now }
{
    if !entry.contact.is_touching() {
        return None;
    }
    if touches_after(entry, fate) {
        None
    } else {
        Some(entry.key)
    }
}

/// The contact's key, if it goes.
pub(crate) fn gone_key(entry: &ContactEntry, fate: &Fate) -> Option<ContactKey>
    ensures { result ≡ key_if_gone entry.now (after_fate entry.now fate.now) }
{
    match fate {
        Fate::Stays => None,
        Fate::Goes => Some(entry.key),
        Fate::Renewed(_) => None,
    }
}

/// The contact's key, if it touches with these points, and didn't before.
#[tactic(auto, unfolding(contacts_base::specs::Changes::key_if_new))]
fn key_if_begins(entry: &ContactEntry, contact: &PackedContact) -> Option<ContactKey>
    ensures { result ≡ key_if_new (Some entry.now) (record entry.now { contact = contact.now }) }
{
    if !contact.is_touching() {
        return None;
    }
    if entry.contact.is_touching() {
        None
    } else {
        Some(entry.key)
    }
}

/// The contact's key, if it touches after its fate, and didn't before.
pub(crate) fn begun_key(entry: &ContactEntry, fate: &Fate) -> Option<ContactKey>
    ensures { result ≡ key_if_begun entry.now (after_fate entry.now fate.now) }
{
    match fate {
        Fate::Stays => key_if_begins(entry, &entry.contact),
        Fate::Goes => None,
        Fate::Renewed(contact) => key_if_begins(entry, contact),
    }
}

/// Notes what the contact at a place becomes, if it is evaluated anew. There is room for it.
#[inline(always)]
pub(crate) fn note(notes: &mut Vec<Renewal>, place: usize, fate: &Fate)
    requires { vec_len notes.old < vec_capacity notes.old }
    ensures noted { notes.new.items ≡ notes.old.items ++ noted place fate.now }
    ensures capacity { vec_capacity notes.new ≡ vec_capacity notes.old }
    ensures long { vec_len notes.new ≤ vec_len notes.old + 1 }
{
    match fate {
        Fate::Stays => {}
        Fate::Goes => {}
        Fate::Renewed(contact) => {
            notes.push_reserved(Renewal {
                place,
                contact: *contact,
            });
        }
    }
}

/// Notes the place of a contact that goes. There is room for it.
#[inline(always)]
pub(crate) fn note_end(ends: &mut Vec<usize>, place: usize, fate: &Fate)
    requires { vec_len ends.old < vec_capacity ends.old }
    ensures noted { ends.new.items ≡ ends.old.items ++ ending place fate.now }
    ensures capacity { vec_capacity ends.new ≡ vec_capacity ends.old }
    ensures long { vec_len ends.new ≤ vec_len ends.old + 1 }
{
    match fate {
        Fate::Stays => {}
        Fate::Goes => ends.push_reserved(place),
        Fate::Renewed(_) => {}
    }
}
