//! The calls of a world, in functions that promise nothing: no proof of this crate has to read what a world promises.

use fixed_geom::{Box2, Refusal, Vec2};
use impulse_ledger::Ledger;
use json::Scratch;
use plain_world::{Body, BodyView, Plain};
use serde_json::Value;
use std::alloc::Global;
use std::sync::Wait;
use std::thread::Threads;
use world_core::{
    Command, Events, Handle, PieceMap, Reply, ShapeId, SlotEntry, StepWorker, WorldCore, WorldLook,
};
use world_file_base::{Broken, Clause};
use world_lock::{Opened, Seat, SharedWorld};
use world_queries::{Hit, QueryFilter};
use world_script_base::may_be_world;
use world_workers::{OpenGate, StepWorkers};

pub(crate) fn new_world(alloc: Global) -> Result<WorldCore, Refusal> {
    WorldCore::new(alloc, Vec2 { x: 0, y: 0 })
}

pub(crate) fn apply(world: &mut WorldCore, command: &Command) -> Result<Reply, Refusal> {
    world.apply(command)
}

/// Who makes the steps of a script: its workers, of which the calling thread is one.
pub(crate) type Stepper<'s, 'e, E, R> = StepWorkers<'s, 'e, E, R, OpenGate>;

pub(crate) fn step<E, R: Threads + Wait + Sync>(
    world: &mut WorldCore,
    stepper: &mut Stepper<'_, '_, E, R>,
    ticks: i64,
) -> Result<Reply, Refusal> {
    stepper.step(world, ticks)
}

pub(crate) fn body_of(world: &WorldCore, handle: Handle) -> Option<BodyView> {
    world.body(handle)
}

pub(crate) fn ledger_of(world: &WorldCore) -> &Ledger {
    world.ledger()
}

pub(crate) fn events_of(world: &WorldCore) -> &Events {
    world.events()
}

/// What a ray hits first. Refused 5 where the ray is beyond its limits.
pub(crate) fn ray(world: &WorldCore, from: Vec2, along: Vec2) -> Result<Option<Hit>, Refusal> {
    if world_queries::is_ray(from, along) {
        Ok(world_queries::ray(world, from, along))
    } else {
        Err(Refusal::OutOfRange)
    }
}

/// What a ray hits first of the shapes that it may hit. Refused 5 where the ray is beyond its limits, and else 2 where
/// the body that it passes by doesn't live.
pub(crate) fn filtered_ray(
    world: &WorldCore,
    from: Vec2,
    along: Vec2,
    filter: QueryFilter,
) -> Result<Option<Hit>, Refusal> {
    if world_queries::is_ray(from, along) {
        world_queries::filtered_ray(world, from, along, filter)
    } else {
        Err(Refusal::OutOfRange)
    }
}

/// The shapes over a region. Refused 5 where the region is beyond its limits, and else 1 where memory is wanting.
pub(crate) fn region(
    alloc: Global,
    world: &WorldCore,
    bounds: &Box2,
) -> Result<Vec<ShapeId>, Refusal> {
    if world_queries::is_region(bounds) {
        world_queries::region(alloc, world, bounds)
    } else {
        Err(Refusal::OutOfRange)
    }
}

/// A copy of a world.
pub(crate) fn copy_of_world(world: &WorldCore) -> Result<WorldCore, Refusal> {
    world.try_copy()
}

/// The bodies by slot.
pub(crate) fn bodies_of(world: &WorldCore) -> &[Option<Body>] {
    world.bodies()
}

/// The slots of bodies that were ever used.
pub(crate) fn slot_entries_of(world: &WorldCore) -> &[SlotEntry] {
    world.slot_entries()
}

/// The world as plain lists.
pub(crate) fn plain_of(world: &WorldCore) -> Result<Plain, Refusal> {
    world.plain()
}

/// How many entries of its ledger a world keeps at most from one line to the next.
const MOST_ENTRIES: usize = 32_768;

/// Drops the ledger's single entries where they are many. No answer tells of them: its sums stay.
pub(crate) fn settle(world: &mut WorldCore) {
    if world.ledger().entries().len() > MOST_ENTRIES {
        world.settle_ledger();
    }
}

/// The digest of the world.
pub(crate) fn digest(world: &WorldCore) -> Result<[u8; 32], Refusal> {
    world_desk::digest(world)
}

/// The text of the world.
pub(crate) fn save(alloc: Global, world: &WorldCore) -> Result<String, Refusal> {
    world_desk::text_of(alloc, world)
}

/// The world of a text that a save wrote. Refused 12 with the first clause that it breaks, or 1 where memory is
/// wanting. Nothing is answered of another text.
pub(crate) fn load_saved(alloc: Global, text: &[u8]) -> Option<Result<WorldCore, Refusal>> {
    let read = world_desk::read_world(alloc, text)?;
    Some(read.map_err(|broken| broken.refusal()))
}

/// The world of a text that is JSON. Refused 12 with the first clause that it breaks, or 1 where memory is wanting. No
/// value is made of a text that a save wrote, nor of one that can't be a saved world at the first look, which is
/// refused.
pub(crate) fn load(alloc: Global, text: &str) -> Result<WorldCore, Refusal> {
    if let Some(loaded) = load_saved(alloc, text.as_bytes()) {
        return loaded;
    }
    if !may_be_world(text, &mut Scratch::new(alloc))? {
        return Err(Broken::Clause(Clause::Form).refusal());
    }
    let Ok(value) = Value::from_str(alloc, text) else {
        return Err(Refusal::NoMemory);
    };
    WorldCore::load(alloc, &value).map_err(|broken| broken.refusal())
}

/// Makes a call through a seat, a step with this solver, and says whether it was accepted.
pub(crate) fn call<N: Opened, R: Wait, S: StepWorker + PieceMap<WorldLook>>(
    rt: &R,
    shared: &SharedWorld<N>,
    seat: &mut Seat<N>,
    solver: &mut S,
    command: Command,
) -> bool {
    match command {
        Command::Step(ticks) => shared.step(rt, seat, solver, ticks).is_ok(),
        other => shared.call(rt, seat, other).is_ok(),
    }
}
