//! Scenes worked by hand: a capsule that comes to lie on its floor, and is lifted.

ghost use Rattle.std.specs.Prelude.{◌≤◌, IfOk, unsigned_abs};
ghost use Rattle.fixed_geom.specs.declared.limits.TheConstants.{MAX_OFFSET as most_offset};
ghost use Rattle.contacts_base.specs.Limits.{IsPackable};
ghost use Rattle.contacts_base.specs.Surfaces.{IsSurface};
ghost use Rattle.contacts_base.specs.Proxies.{IsProxy};

use crate::assertions::{same, same_items};
use crate::contacts_forbidden::NO_PAIR;
use body_handles::MAX_SLOTS;
use contacts::*;
use contacts_base::{
    ContactEntry, ContactKey, ContactPoint, Contacts, PackedContact, PackedSurface, Proxy, ShapeId,
    SplitContacts, Surface,
};
use crew::CallingThread;
use fixed_geom::{Refusal, Rot, UNIT, Vec2, is_facing, is_within};
use shapes::{Filter, Pose, Shape, ShapeDef, check, fat_box, tight_box};
use std::alloc::Global;
use std::default::Default;
use std::test::Fail;

/// What the shapes below have.
const ROUGH: Surface = Surface {
    friction: 511,
    restitution: 12,
};

/// What the floor has.
const ICE: Surface = Surface {
    friction: 128,
    restitution: 7,
};

/// What the two mix to: the root of 65,408, and the greater.
const TOGETHER: Surface = Surface {
    friction: 255,
    restitution: 12,
};

/// The one shape of the body in this slot, at (x, y) and unturned.
pub(crate) fn proxy_of(
    slot: u32,
    shape: Shape,
    x: i64,
    y: i64,
    dynamic: bool,
) -> Result<Proxy, Refusal>
    ensures { IfOk result IsProxy }
{
    let defs = [ShapeDef {
        shape,
        friction: 0,
        restitution: 0,
        filter: Filter::default(),
    }];
    check(&defs, true)?;
    let pose = Pose {
        x: Vec2 { x, y },
        rot: Rot { c: UNIT, s: 0 },
    };
    if slot as usize >= MAX_SLOTS || !is_within(pose.x, 1 << 36) || !is_facing(pose.rot) {
        return Err(Refusal::OutOfRange);
    }
    Ok(Proxy {
        id: ShapeId { slot, index: 0 },
        fat: fat_box(tight_box(&shape, pose)),
        filter: Filter::default(),
        dynamic,
        stirs: dynamic,
        surface: ROUGH,
        shape,
        pose,
    })
}

/// Adds a shape, which has to come after all others.
pub(crate) fn add(broad: &mut PairSweep, proxy: Proxy) -> Result<(), Refusal>
    requires { IsProxy proxy }
{
    let number = proxy.id.number();
    if broad
        .proxies()
        .iter()
        .all(|other| other.id.number() < number)
    {
        return broad.push(proxy);
    }
    Err(Refusal::OutOfRange)
}

fn collide(alloc: Global, old: &Contacts, broad: &mut PairSweep) -> Result<Changes, Refusal> {
    let mut entries = Vec::new(alloc);
    entries.extend_from_slice(old.as_slice())?;
    let mut split = SplitContacts::from_entries(alloc, entries)?;
    broad.update_contacts(&mut CallingThread, Vec::new(alloc), &NO_PAIR, &mut split)
}

const FLOOR: Shape = Shape::Segment {
    first: Vec2 { x: -100_000, y: 0 },
    second: Vec2 { x: 100_000, y: 0 },
};

const LYING: Shape = Shape::Capsule {
    first: Vec2 { x: -50_000, y: 0 },
    second: Vec2 { x: 50_000, y: 0 },
    radius: 20_000,
};

pub(crate) const BALL: Shape = Shape::Circle {
    center: Vec2 { x: 0, y: 0 },
    radius: 32_768,
};

const FIRST: ShapeId = ShapeId { slot: 0, index: 0 };

const SECOND: ShapeId = ShapeId { slot: 1, index: 0 };

pub(crate) const KEY: ContactKey = ContactKey {
    first: FIRST,
    second: SECOND,
};

/// A floor, and a capsule that lies at this height.
pub(crate) fn lying_at(alloc: Global, y: i64) -> Result<PairSweep, Refusal> {
    let mut broad = PairSweep::new(alloc);
    let floor = proxy_of(0, FLOOR, 0, 0, false)?;
    add(
        &mut broad,
        Proxy {
            surface: ICE,
            ..floor
        },
    )?;
    add(&mut broad, proxy_of(1, LYING, 0, y, true)?)?;
    Ok(broad)
}

fn point(candidate: u64, x: i64, normal_impulse: i64, tangent_impulse: i64) -> ContactPoint
    requires candidate { candidate ≤ 3 }
    requires offset { unsigned_abs x ≤ unsigned_abs most_offset }
    ensures { IsPackable result }
{
    ContactPoint {
        normal: Vec2 { x: 0, y: UNIT },
        separation: 0,
        ra: Vec2 { x, y: 0 },
        rb: Vec2 { x, y: -20_000 },
        normal_impulse,
        tangent_impulse,
        candidate,
    }
}

fn two_points(first: &ContactPoint, second: &ContactPoint) -> PackedContact
    requires first { IsPackable first.now }
    requires second { IsPackable second.now }
{
    PackedContact::apart().with_first(first).with_second(second)
}

/// The contact of the capsule with its floor.
fn entry(surface: Surface, contact: PackedContact) -> ContactEntry
    requires { IsSurface surface }
    ensures { IsSurface result.surface }
{
    ContactEntry {
        key: KEY,
        surface: PackedSurface::new(surface),
        contact,
    }
}

/// How many contacts were made, are gone, begin and end.
fn counts(changes: &Changes) -> [usize; 4] {
    [
        changes.made.len(),
        changes.gone.len(),
        changes.begin.len(),
        changes.end.len(),
    ]
}

/// What the capsule changes that comes to lie, and what it changes then.
fn laid_twice(alloc: Global) -> Result<[Changes; 2], Refusal> {
    let mut lying = lying_at(alloc, 20_000)?;
    let laid = collide(alloc, &Contacts::new(alloc), &mut lying)?;
    let lies = collide(alloc, &laid.now, &mut lying)?;
    Ok([laid, lies])
}

#[test]
fn a_capsule_comes_to_lie_on_a_segment(rt: HostRuntime) -> Result<(), Fail> {
    let [laid, lies] = &laid_twice(rt.alloc())?;
    let first = point(2, -50_000, 0, 0);
    let second = point(3, 50_000, 0, 0);
    same_items(
        &rt,
        laid.now.as_slice(),
        &[entry(TOGETHER, two_points(&first, &second))],
    );
    same_items(&rt, &laid.made, &[KEY]);
    same_items(&rt, &laid.begin, &[KEY]);
    same(&rt, &counts(lies), &[0, 0, 0, 0]);
    Ok(())
}

/// What the contact got when its shapes came near.
const KEPT: Surface = Surface {
    friction: 100,
    restitution: 3,
};

/// The contact of the capsule that lay on the floor, with what it kept.
pub(crate) fn resting(alloc: Global) -> Result<Contacts, Refusal> {
    let first = point(3, 50_000, 7, -2);
    let second = point(2, -50_000, 5, 1);
    let mut entries = Vec::new(alloc);
    entries.push(entry(KEPT, two_points(&first, &second)))?;
    Ok(Contacts::from_entries(entries))
}

/// What the capsule that lay on the floor changes where it is at this height now.
fn lifted(alloc: Global, y: i64) -> Result<Changes, Refusal> {
    collide(alloc, &resting(alloc)?, &mut lying_at(alloc, y)?)
}

/// What comes of a lift: how many contacts were made, are gone, begin and end, whether the capsule's contact is the
/// only one of these, and the contact that is there then.
fn told(alloc: Global, y: i64) -> Result<([usize; 4], bool, Option<ContactEntry>), Refusal> {
    let changes = lifted(alloc, y)?;
    Ok((
        counts(&changes),
        are_of_capsule(&changes),
        changes.now.as_slice().first().copied(),
    ))
}

/// Whether no other contact is gone or ends.
fn are_of_capsule(changes: &Changes) -> bool {
    changes.gone.iter().all(|key| *key == KEY) && changes.end.iter().all(|key| *key == KEY)
}

/// A capsule that is lifted by one parts from its floor, one far above is gone, and one that stays keeps its impulses
/// with their candidates.
#[test]
fn a_capsule_is_lifted(rt: HostRuntime) {
    let first = point(2, -50_000, 5, 1);
    let second = point(3, 50_000, 7, -2);
    let lifts = [
        told(rt.alloc(), 20_001),
        told(rt.alloc(), 1_000_000),
        told(rt.alloc(), 20_000),
    ];
    let wanted = [
        Ok((
            [0, 0, 0, 1],
            true,
            Some(entry(KEPT, PackedContact::apart())),
        )),
        Ok(([0, 1, 0, 1], true, None)),
        Ok((
            [0, 0, 0, 0],
            true,
            Some(entry(KEPT, two_points(&first, &second))),
        )),
    ];
    same_items(&rt, &lifts, &wanted);
}
