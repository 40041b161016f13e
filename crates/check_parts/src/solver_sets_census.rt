//! The census: a static body, a disabled one, an awake one and two sleeping sets, with joints and contacts.

use crate::assertions::{same, same_items};
use body_handles::{Handle, SlotEntry};
use contacts_base::{
    ContactEntry, ContactKey, ContactPoint, PackedContact, PackedSurface, ShapeId, Surface,
};
use fixed_geom::{Refusal, Rot, Vec2};
use joint_rows::Joint;
use momenta::{MassData, Motion};
use plain_world::{Body, BodyJoint, FatBoxes, Kind};
use shapes::Shapes;
use solver_sets::{Census, Item, SleepingSet, take_census};
use std::alloc::Global;
use std::process::Abort;
use std::test::Fail;

const ORIGIN: Vec2 = Vec2 { x: 0, y: 0 };

const PLACE: SlotEntry = SlotEntry {
    generation: 1,
    live: true,
};

const NO_MASS: MassData = MassData {
    mass: 0,
    inertia: 0,
};

fn body(alloc: Global, kind: Kind, enabled: bool, asleep: Option<u32>) -> Body {
    Body {
        kind,
        mass: NO_MASS,
        motion: Motion::at_rest(ORIGIN, Rot { c: 1 << 30, s: 0 }),
        shapes: Shapes::new(alloc),
        fats: FatBoxes::new(alloc),
        timer: 0,
        enabled,
        asleep,
    }
}

fn joint(a: u32, b: u32) -> BodyJoint {
    BodyJoint {
        a,
        b,
        collide: false,
        joint: Joint {
            from: ORIGIN,
            to: ORIGIN,
            length: 0,
            impulse: 0,
        },
    }
}

fn key(a: u32, b: u32) -> ContactKey {
    ContactKey {
        first: ShapeId { slot: a, index: 0 },
        second: ShapeId { slot: b, index: 0 },
    }
}

fn apart(a: u32, b: u32) -> ContactEntry {
    ContactEntry {
        key: key(a, b),
        surface: PackedSurface::new(Surface {
            friction: 0,
            restitution: 0,
        }),
        contact: PackedContact::apart(),
    }
}

fn touching(a: u32, b: u32) -> ContactEntry {
    let point = ContactPoint {
        normal: ORIGIN,
        separation: 0,
        ra: ORIGIN,
        rb: ORIGIN,
        normal_impulse: 0,
        tangent_impulse: 0,
        candidate: 0,
    };
    ContactEntry {
        contact: PackedContact::apart().with_first(&point),
        ..apart(a, b)
    }
}

/// The ground, a disabled mover, an awake one, a pair that sleeps under 3, and one that sleeps under 5.
fn census(alloc: Global) -> Result<Census, Refusal> {
    let bodies = [
        Some(body(alloc, Kind::Static, true, None)),
        Some(body(alloc, Kind::Dynamic, false, None)),
        Some(body(alloc, Kind::Dynamic, true, None)),
        Some(body(alloc, Kind::Dynamic, true, Some(3))),
        Some(body(alloc, Kind::Dynamic, true, Some(3))),
        Some(body(alloc, Kind::Dynamic, true, Some(5))),
    ];
    let slot_entries = [PLACE, PLACE, PLACE, PLACE, PLACE, PLACE];
    let joints = [Some(joint(3, 4)), Some(joint(1, 2)), Some(joint(0, 2))];
    let joint_entries = [PLACE, PLACE, PLACE];
    let contacts = [apart(0, 2), touching(0, 5), apart(3, 5)];
    take_census(
        alloc,
        &slot_entries,
        &bodies,
        &joint_entries,
        &joints,
        &contacts,
    )
}

fn of_body(slot: u32) -> Item {
    Item::Body(Handle {
        slot,
        generation: 1,
    })
}

fn of_joint(slot: u32) -> Item {
    Item::Joint(Handle {
        slot,
        generation: 1,
    })
}

/// The names of the sleeping sets, and the items of each.
fn see_sleeping(rt: &impl Abort, sleeping: &[SleepingSet]) {
    same(rt, &sleeping.len(), &2);
    if let [first, second] = sleeping {
        same(rt, &[first.name(), second.name()], &[3, 5]);
        same_items(rt, first.items(), &[of_body(3), of_body(4), of_joint(0)]);
        same_items(rt, second.items(), &[of_body(5), Item::Contact(key(0, 5))]);
    }
}

/// Sleeping sets are listed by name.
#[test]
fn lists_what_stands_in_each_set(rt: HostRuntime) -> Result<(), Fail> {
    let census = census(rt.alloc())?;
    same_items(&rt, census.static_set(), &[of_body(0)]);
    let disabled = [of_body(1), of_joint(1), Item::Contact(key(3, 5))];
    same_items(&rt, census.disabled(), &disabled);
    let awake = [of_body(2), of_joint(2), Item::Contact(key(0, 2))];
    same_items(&rt, census.awake(), &awake);
    see_sleeping(&rt, census.sleeping());
    Ok(())
}
