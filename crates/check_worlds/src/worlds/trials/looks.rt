//! Trials of the calls that take no memory.

use crate::whole_world::WholeWorld;
use crate::worlds::trials::compare::expect;
use crate::worlds::trials::stop::{Moment, Part, Stop};
use crate::worlds::trials::trial::Outcome;
use crate::worlds::trials::worlds::TrialWorlds;
use body_handles::Handle;
use fixed_geom::Vec2;
use impulse_ledger::{Cause, Total};
use plain_world::BodyView;
use shapes::{Pose, Shape};
use world_core::{Constraint, Item, SetName, ShapeId};
use world_queries::{Hit, QueryFilter};

/// What is seen of a world without memory.
#[derive(Clone, Copy, PartialEq)]
struct Sight {
    body: Option<BodyView>,
    colour: Option<u8>,
    body_stand: Option<SetName>,
    joint_stand: Option<SetName>,
    slots: u32,
    shape: Option<(Shape, Pose)>,
    begun: usize,
    entries: usize,
    total: Total,
    gravity: Total,
    hit: Option<Hit>,
    /// What the ray hits if the body is left out.
    hit_behind: Option<Hit>,
}

/// What a ray hits first if a body is left out.
fn hit_behind<W: WholeWorld>(world: &W, handle: Handle, from: Vec2, along: Vec2) -> Option<Hit> {
    let filter = QueryFilter {
        without: Some(handle),
        mask: None,
    };
    world.hit_through(from, along, filter).ok().flatten()
}

/// Looks at the body, the joint and the shape of a slot, and along the axis.
fn look<W: WholeWorld>(world: &W, slot: u32) -> Sight {
    let handle = Handle {
        slot,
        generation: 1,
    };
    let from = Vec2 {
        x: -(1 << 24),
        y: 0,
    };
    let along = Vec2 { x: 1 << 25, y: 0 };
    Sight {
        body: world.body(handle),
        colour: world.colour(Constraint::Joint(handle)),
        body_stand: world.stand(Item::Body(handle)),
        joint_stand: world.stand(Item::Joint(handle)),
        slots: world.slots(),
        shape: world.shape(ShapeId { slot, index: 0 }),
        begun: world.events().begin().len(),
        entries: world.ledger().entries().len(),
        total: world.ledger().total(),
        gravity: world.ledger().total_of(Cause::Gravity),
        hit: world.hit(from, along),
        hit_behind: hit_behind(world, handle, from, along),
    }
}

/// Looks at the first two bodies.
fn look_twice<W: WholeWorld>(world: &W) -> (Sight, Sight) {
    (look(world, 0), look(world, 1))
}

/// Looks while memory may be refused, and stops where something else is seen than in the reference.
pub fn try_look<W: WholeWorld>(worlds: &mut TrialWorlds<W>) -> Result<Outcome, Stop> {
    let expected = look_twice(&worlds.reference);
    worlds.begin();
    let seen = look_twice(&worlds.world);
    worlds.end();
    expect(Moment::Accepted, Part::Answer, seen == expected)?;
    worlds.expect_kept()?;
    Ok(Outcome::Unmet)
}

/// Settles the ledger while memory may be refused.
pub fn try_settle<W: WholeWorld>(worlds: &mut TrialWorlds<W>) -> Result<Outcome, Stop> {
    worlds.reference.settle();
    worlds.begin();
    worlds.world.settle();
    worlds.end();
    worlds.expect_as_reference()?;
    Ok(Outcome::Unmet)
}
