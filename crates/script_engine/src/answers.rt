//! What a request does, and what it is answered.

use crate::calls::{
    Stepper, apply, bodies_of, body_of, digest, events_of, filtered_ray, ledger_of, load, plain_of,
    ray, region, save, slot_entries_of, step,
};
use crate::crowd_threads::CrowdPlan;
use crate::crowds::crowd;
use crate::joints::joints_of;
use crate::worlds::Worlds;
use body_handles::Handle;
use fixed_geom::{Box2, Refusal, Vec2};
use script_options::Options;
use script_requests::{CrowdDef, Extended, RayRequest, Request};
use std::alloc::Global;
use std::sync::Wait;
use std::thread::Threads;
use world_core::{Command, Reply, WorldCore};
use world_queries::QueryFilter;
use world_script_base::{Answer, BodyList};

/// Makes a call.
fn make<E, R: Threads + Wait + Sync>(
    world: &mut WorldCore,
    stepper: &mut Stepper<'_, '_, E, R>,
    command: &Command,
) -> Result<Reply, Refusal> {
    match command {
        Command::Step(ticks) => step(world, stepper, *ticks),
        _ => apply(world, command),
    }
}

fn answer_command<'a, E, R: Threads + Wait + Sync>(
    world: &'a mut WorldCore,
    stepper: &mut Stepper<'_, '_, E, R>,
    command: &Command,
) -> Answer<'a> {
    match make(world, stepper, command) {
        Ok(Reply::Body(handle)) => Answer::Body(handle),
        Ok(Reply::Joint(handle)) => Answer::Joint(handle),
        Ok(Reply::Done) => Answer::Done,
        Ok(Reply::Stepped(step)) => Answer::Stepped(step, events_of(world), None),
        Err(refusal) => Answer::Refused(refusal),
    }
}

fn show<'a>(world: &WorldCore, handle: Handle) -> Answer<'a> {
    match body_of(world, handle) {
        Some(view) => Answer::Shown(view),
        None => Answer::Refused(Refusal::StaleHandle),
    }
}

/// What a ray hits first. Refused 5 where the ray is beyond its limits.
fn answer_ray<'a>(world: &WorldCore, from: Vec2, along: Vec2) -> Answer<'a> {
    match ray(world, from, along) {
        Ok(hit) => Answer::Hit(hit, None),
        Err(refusal) => Answer::Refused(refusal),
    }
}

/// The shapes over a region. Refused 5 where the region is beyond its limits, and else 1 where memory is wanting.
fn answer_region<'a>(alloc: Global, world: &WorldCore, bounds: &Box2) -> Answer<'a> {
    match region(alloc, world, bounds) {
        Ok(shapes) => Answer::Shapes(shapes, None),
        Err(refusal) => Answer::Refused(refusal),
    }
}

/// The text of the world. Refused 1 where memory is wanting.
fn answer_save<'a>(alloc: Global, world: &WorldCore) -> Answer<'a> {
    match save(alloc, world) {
        Ok(text) => Answer::World(text),
        Err(refusal) => Answer::Refused(refusal),
    }
}

/// Puts a world that was loaded in place of the world, which stays where there is none.
pub(crate) fn answer_loaded<'a>(
    world: &mut WorldCore,
    loaded: Result<WorldCore, Refusal>,
) -> Answer<'a> {
    match loaded {
        Ok(loaded) => {
            *world = loaded;
            Answer::Done
        }
        Err(refusal) => Answer::Refused(refusal),
    }
}

/// What a crowd did, of so many threads as the options say. Refused 1 or 11.
fn answer_crowd<'a, R: AllocGlobal + Threads + Wait + Sync>(
    rt: &R,
    world: &mut WorldCore,
    def: &CrowdDef,
    options: Options,
) -> Answer<'a> {
    let asked = CrowdPlan {
        alloc: rt.alloc(),
        def,
        workers: options.workers,
    };
    match crowd(rt, world, asked, options.threads) {
        Ok(report) => Answer::Crowd(report.journal, report.seats),
        Err(refusal) => Answer::Refused(refusal),
    }
}

/// A step whose events have ids.
fn answer_step<'a, E, R: Threads + Wait + Sync>(
    world: &'a mut WorldCore,
    stepper: &mut Stepper<'_, '_, E, R>,
    ticks: i64,
) -> Answer<'a> {
    match step(world, stepper, ticks) {
        Ok(Reply::Stepped(step)) => Answer::Stepped(
            step,
            events_of(world),
            Some(slot_entries_of(world)),
        ),
        Ok(_) => Answer::Done,
        Err(refusal) => Answer::Refused(refusal),
    }
}

/// What a ray hits first of the shapes that it may hit. Refused 5 where it is beyond its limits, and else 2 where the
/// body that it passes by doesn't live.
fn answer_filtered_ray<'a>(world: &'a WorldCore, ray: RayRequest) -> Answer<'a> {
    let filter = QueryFilter {
        without: ray.without,
        mask: ray.mask,
    };
    match filtered_ray(world, ray.from, ray.along, filter) {
        Ok(hit) if ray.ids => Answer::Hit(hit, Some(slot_entries_of(world))),
        Ok(hit) => Answer::Hit(hit, None),
        Err(refusal) => Answer::Refused(refusal),
    }
}

/// The shapes over a region, with their bodies' ids. Refused 5 where the region is beyond its limits, and else 1 where
/// memory is wanting.
fn answer_region_with_ids<'a>(alloc: Global, world: &'a WorldCore, bounds: &Box2) -> Answer<'a> {
    match region(alloc, world, bounds) {
        Ok(shapes) => Answer::Shapes(shapes, Some(slot_entries_of(world))),
        Err(refusal) => Answer::Refused(refusal),
    }
}

/// The bodies by slot: all, or those alone that are awake.
fn answer_bodies<'a>(world: &'a WorldCore, awake: bool) -> Answer<'a> {
    Answer::Bodies(BodyList {
        slot_entries: slot_entries_of(world),
        bodies: bodies_of(world),
        awake,
    })
}

/// The touching contacts. Refused 1 where memory is wanting.
fn answer_contacts<'a>(world: &WorldCore, ids: bool) -> Answer<'a> {
    match plain_of(world) {
        Ok(plain) => Answer::Contacts(plain, ids),
        Err(refusal) => Answer::Refused(refusal),
    }
}

/// The joints by slot. Refused 1 where memory is wanting.
fn answer_joints<'a>(alloc: Global, world: &WorldCore) -> Answer<'a> {
    match joints_of(alloc, world) {
        Ok(joints) => Answer::Joints(joints),
        Err(refusal) => Answer::Refused(refusal),
    }
}

/// The digest of the world. Refused 1 where memory is wanting.
fn answer_digest<'a>(world: &WorldCore) -> Answer<'a> {
    match digest(world) {
        Ok(digest) => Answer::Digest(digest),
        Err(refusal) => Answer::Refused(refusal),
    }
}

/// What a call without an answer of its own is answered.
fn done_or_refused<'a>(done: Result<(), Refusal>) -> Answer<'a> {
    match done {
        Ok(()) => Answer::Done,
        Err(refusal) => Answer::Refused(refusal),
    }
}

/// Does what a line of the extended form asks for.
fn answer_extended<'a, E, R: AllocGlobal + Threads + Wait + Sync>(
    rt: &R,
    worlds: &'a mut Worlds<'_, Stepper<'_, '_, E, R>>,
    request: Extended,
) -> Answer<'a> {
    match request {
        Extended::Bodies { awake } => answer_bodies(&worlds.world, awake),
        Extended::Contacts { ids } => answer_contacts(&worlds.world, ids),
        Extended::Joints => answer_joints(rt.alloc(), &worlds.world),
        Extended::Digest => answer_digest(&worlds.world),
        Extended::Keep(number) => done_or_refused(worlds.keep(number)),
        Extended::Back(number) => done_or_refused(worlds.back(number)),
        Extended::Step(ticks) => answer_step(&mut worlds.world, worlds.stepper, ticks),
        Extended::Ray(ray) => answer_filtered_ray(&worlds.world, ray),
        Extended::Region(bounds) => answer_region_with_ids(rt.alloc(), &worlds.world, &bounds),
    }
}

/// Does what a line asks for.
pub(crate) fn answer<'a, E, R: AllocGlobal + Threads + Wait + Sync>(
    rt: &R,
    worlds: &'a mut Worlds<'_, Stepper<'_, '_, E, R>>,
    request: &Request<'_>,
    options: Options,
) -> Answer<'a> {
    match request {
        Request::Command(command) => answer_command(&mut worlds.world, worlds.stepper, command),
        Request::Show(handle) => show(&worlds.world, *handle),
        Request::Ledger => Answer::Ledger(ledger_of(&worlds.world)),
        Request::Ray(from, along) => answer_ray(&worlds.world, *from, *along),
        Request::Region(bounds) => answer_region(rt.alloc(), &worlds.world, bounds),
        Request::Save => answer_save(rt.alloc(), &worlds.world),
        Request::Load(text) => answer_loaded(&mut worlds.world, load(rt.alloc(), text)),
        Request::Crowd(def) => answer_crowd(rt, &mut worlds.world, def, options),
        Request::Extended(request) => answer_extended(rt, worlds, *request),
    }
}
