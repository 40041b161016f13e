//! Contacts that are kept from collide to collide, by scenes worked by hand.

ghost use Rattle.std.specs.Prelude.{◌≡◌, All, IfOk};
ghost use Rattle.contacts_base.specs.Keys.{id_number};
ghost use Rattle.contacts.specs.Known.{found};
ghost use Rattle.contacts.specs.Fates.{stirs_in};
ghost use Rattle.check_parts.specs.Scenes.{ArePairs, IsListed};

use crate::assertions::{same, same_items};
use crate::contacts_forbidden::{NO_PAIR, OnePair};
use crate::contacts_scenes::{BALL, KEY, add, lying_at, proxy_of};
use contacts::*;
use contacts_base::{BodyPair, ContactKey, Proxy, ShapeId};
use crew::CallingThread;
use fixed_geom::{Box2, Refusal};
use packed_sets::Marks;
use std::alloc::Global;
use std::marker::Model;
use std::mem;
use std::test::Fail;

/// Shapes that are read by their names: all their bodies may stir, and may be near any box.
#[derive(Drop)]
struct Scene {
    shapes: PairSweep,
    // The slots of the shapes' bodies.
    slots: Vec<u32>,
    // Which bodies' shapes have moved.
    marks: Marks,
}

impl Model for Scene {
    ghost use Rattle.check_parts.specs.Scenes.{Shown, IsShown};

    ghost Value = { Shown };

    ghost view = { λ a. record { shapes = a.shapes; slots = a.slots.items; marks = a.marks } };

    ghost invariant = { λ a. IsShown a.shapes a.slots.items };
}

/// The shape with this name, if it is there.
fn shape_with_id(shapes: &[Proxy], id: ShapeId) -> Option<Proxy>
    ensures { result ≡ found shapes.now (id_number id) }
{
    for place in 0..shapes.len() {
        if shapes[place].id.number() == id.number() {
            return Some(shapes[place]);
        }
    }
    None
}

/// Whether the shape is there, and its body stirs.
fn stirs_in(shape: Option<Proxy>) -> bool
    ensures { result ≡ stirs_in shape }
{
    match shape {
        None => false,
        Some(shape) => shape.stirs,
    }
}

impl ShapesById for Scene {
    ghost proxies = { λ s. s.shapes };

    ghost awake = { λ s. s.slots };

    ghost carried = { λ s. s.slots };

    ghost marks = { λ s. s.marks };

    fn shape(&self, id: ShapeId) -> Option<Proxy> {
        shape_with_id(self.shapes.proxies(), id)
    }

    fn stirs(&self, id: ShapeId) -> bool {
        stirs_in(shape_with_id(self.shapes.proxies(), id))
    }

    fn awake(&self) -> &[u32] {
        self.slots.as_slice()
    }

    fn carried(&self) -> &[u32] {
        self.slots.as_slice()
    }

    fn overlapping(&self, wanted: &Box2) -> Result<Vec<u32>, Refusal> {
        let _ = wanted;
        let mut slots = Vec::new(*self.slots.allocator());
        slots.extend_from_slice(&self.slots)?;
        Ok(slots)
    }

    fn gather(&self, broad: &mut PairSweep) -> Result<(), Refusal> {
        *broad = self.shapes.try_copy()?;
        Ok(())
    }

    fn marks(&self) -> &[bool] {
        self.marks.flags()
    }

    fn marked(&self) -> &[u32] {
        self.marks.slots()
    }

    fn taken(&mut self, alloc: Global) -> Scene {
        Scene {
            shapes: mem::replace(&mut self.shapes, PairSweep::new(alloc)),
            slots: mem::replace(&mut self.slots, Vec::new(alloc)),
            marks: mem::replace(&mut self.marks, Marks::new(alloc)),
        }
    }
}

/// The slots of the shapes' bodies, which have to be below 64.
fn slots_of(alloc: Global, shapes: &[Proxy]) -> Result<Vec<u32>, Refusal>
    ensures { IfOk result (λ slots. All (IsListed slots.items) shapes.now) }
{
    let mut slots = Vec::new(alloc);
    for place in 0..shapes.len() {
        let slot = shapes[place].id.slot;
        if slot >= 64 {
            return Err(Refusal::OutOfRange);
        }
        slots.push(slot)?;
    }
    Ok(slots)
}

/// A collide of these shapes with all slots marked, carried out; the bodies of the forbidden pair pass through one
/// another.
pub(crate) fn collide(
    alloc: Global,
    contacts: &mut ContactTable,
    shapes: PairSweep,
    mut forbidden: OnePair,
) -> Result<Touches, Refusal>
    requires pairs { ArePairs contacts.old.contacts }
    ensures pairs { ArePairs contacts.new.contacts }
{
    let slots = slots_of(alloc, shapes.proxies())?;
    let marks = Marks::all_marked(alloc, 64)?;
    let mut scene = Scene {
        shapes,
        slots,
        marks,
    };
    let touches = contacts.collide(&mut CallingThread, &mut scene, &mut forbidden)?;
    contacts.commit_pending();
    Ok(touches)
}

/// How many contacts there are.
pub(crate) fn count(alloc: Global, contacts: &ContactTable) -> Result<usize, Refusal> {
    Ok(contacts.to_entries(alloc)?.len())
}

/// The same, and how many contacts there are then.
fn collide_and_count(
    alloc: Global,
    contacts: &mut ContactTable,
    shapes: PairSweep,
    forbidden: OnePair,
) -> Result<(Touches, usize), Refusal>
    requires pairs { ArePairs contacts.old.contacts }
    ensures pairs { ArePairs contacts.new.contacts }
{
    let touches = collide(alloc, contacts, shapes, forbidden)?;
    let left = count(alloc, contacts)?;
    Ok((touches, left))
}

/// How many contacts begin and end where a capsule lies at this height on its floor, and how many there are then.
fn laid_at(alloc: Global, contacts: &mut ContactTable, y: i64) -> Result<[usize; 3], Refusal>
    requires { ArePairs contacts.old.contacts }
    ensures pairs { ArePairs contacts.new.contacts }
{
    let floor = lying_at(alloc, y)?;
    let (touches, left) = collide_and_count(alloc, contacts, floor, NO_PAIR)?;
    Ok([touches.begin.len(), touches.end.len(), left])
}

fn copied(alloc: Global, contacts: &ContactTable) -> Result<ContactTable, Refusal>
    requires { ArePairs contacts.now.contacts }
    ensures pairs { IfOk result (λ copied. ArePairs copied.contacts) }
{
    contacts.try_copy(alloc)
}

/// What there is of the capsule once it is lifted far in a copy.
fn lifted_in_a_copy(alloc: Global, contacts: &ContactTable) -> Result<[usize; 3], Refusal>
    requires { ArePairs contacts.now.contacts }
{
    let mut copied = copied(alloc, contacts)?;
    laid_at(alloc, &mut copied, 1_000_000)
}

/// What there is of a capsule that is laid down, lifted by one, lifted far in a copy, and laid down again, and how many
/// contacts are left without its body.
fn kept_in(alloc: Global, contacts: &mut ContactTable) -> Result<([[usize; 3]; 4], usize), Refusal>
    requires { ArePairs contacts.old.contacts }
{
    let laid = laid_at(alloc, contacts, 20_000)?;
    let lifted = laid_at(alloc, contacts, 20_001)?;
    let gone = lifted_in_a_copy(alloc, contacts)?;
    let again = laid_at(alloc, contacts, 20_000)?;
    contacts.drop_of_body(1);
    let left = count(alloc, contacts)?;
    Ok(([laid, lifted, gone, again], left))
}

/// The same, where there are no contacts before.
fn kept(alloc: Global) -> Result<([[usize; 3]; 4], usize), Refusal> {
    let mut contacts = ContactTable::new(alloc);
    kept_in(alloc, &mut contacts)
}

#[test]
fn a_contact_is_kept_while_its_shapes_are_near(rt: HostRuntime) {
    let counts = [[1, 0, 1], [0, 1, 1], [0, 0, 0], [1, 0, 1]];
    same(&rt, &kept(rt.alloc()), &Ok((counts, 0)));
}

/// The capsule and its floor may no longer touch.
const FLOOR_AND_CAPSULE: OnePair = OnePair {
    pair: Some(BodyPair { a: 1, b: 0 }),
};

/// The touches of a capsule on its floor once both pass through one another, and how many contacts are left.
fn joined_in(alloc: Global, contacts: &mut ContactTable) -> Result<(Touches, usize), Refusal>
    requires { ArePairs contacts.old.contacts }
{
    laid_at(alloc, contacts, 20_000)?;
    collide_and_count(alloc, contacts, lying_at(alloc, 20_000)?, FLOOR_AND_CAPSULE)
}

/// The same, where there are no contacts before.
fn joined(alloc: Global) -> Result<(Touches, usize), Refusal> {
    let mut contacts = ContactTable::new(alloc);
    joined_in(alloc, &mut contacts)
}

#[test]
fn a_joint_that_comes_ends_a_contact(rt: HostRuntime) -> Result<(), Fail> {
    let (touches, left) = &joined(rt.alloc())?;
    same_items(&rt, &touches.end, &[KEY]);
    same(&rt, left, &0);
    Ok(())
}

/// Where the ball in a slot of the row is.
fn place_in_row(slot: u32, away: i64) -> i64 {
    let x = i64::from(slot) * 1_000_000;
    if slot == 5 { x.saturating_add(away) } else { x }
}

/// Twenty balls in a row that aren't near one another, but for the one in slot 5, which is so far from its place.
fn row(alloc: Global, away: i64) -> Result<PairSweep, Refusal> {
    let mut broad = PairSweep::new(alloc);
    for slot in 0..20 {
        let at = place_in_row(slot, away);
        add(&mut broad, proxy_of(slot, BALL, at, 0, true)?)?;
    }
    Ok(broad)
}

/// The contact of the balls in the slots 5 and 6.
const NEXT: ContactKey = ContactKey {
    first: ShapeId { slot: 5, index: 0 },
    second: ShapeId { slot: 6, index: 0 },
};

/// The touches of the row and how many contacts it has, before its ball in slot 5 moves and after it.
fn moved_in(alloc: Global, contacts: &mut ContactTable) -> Result<[(Touches, usize); 2], Refusal>
    requires { ArePairs contacts.old.contacts }
{
    let before = collide_and_count(alloc, contacts, row(alloc, 0)?, NO_PAIR)?;
    let after = collide_and_count(alloc, contacts, row(alloc, 950_000)?, NO_PAIR)?;
    Ok([before, after])
}

/// The same, where there are no contacts before.
fn moved(alloc: Global) -> Result<[(Touches, usize); 2], Refusal> {
    let mut contacts = ContactTable::new(alloc);
    moved_in(alloc, &mut contacts)
}

#[test]
fn one_of_many_moves(rt: HostRuntime) -> Result<(), Fail> {
    let [(first, before), (then, after)] = &moved(rt.alloc())?;
    same_items(&rt, &first.begin, &[]);
    same_items(&rt, &then.begin, &[NEXT]);
    same(&rt, &[*before, *after], &[0, 1]);
    Ok(())
}
