//! Maps by a crew that stays: each item is worked once, in order of the answers, and all pieces do meet.

ghost use Rattle.std.specs.Prelude.{◌+◌, ◌≤◌, vec_capacity, vec_len};

use crate::assertions::{same, same_items};
use crate::crew_gates::{Gathering, Holding, Sums};
use crate::crew_maps::{ITEMS, SUMS};
use crew::{Crew, CrewDef, Gate, OpenGate, sole, start};
use fixed_geom::Refusal;
use std::alloc::Global;
use std::process::Abort;
use std::sync::atomic::{AtomicU64, Ordering};
use std::sync::{Arc, Wait};
use std::test::Fail;
use std::thread;
use std::thread::{Scope, Threads};

const MAPS: u32 = 50;

/// The items of a map in a list of their own, and a list with room for their answers.
#[derive(Drop)]
struct Lists {
    items: Vec<(u32, u32)>,
    answers: Vec<u64>,
}

fn lists_of<R: Abort>(rt: &R, alloc: Global, items: &[(u32, u32)]) -> Lists
    ensures room { vec_len result.answers + vec_len result.items ≤ vec_capacity result.answers }
{
    let mut answers = Vec::new(alloc);
    let Ok(items) = Vec::from_slice(alloc, items) else {
        panic!(rt; "a list of items")
    };
    if answers.reserve(items.len()).is_err() {
        panic!(rt; "room for the answers")
    }
    Lists { items, answers }
}

/// One map by a crew.
fn map_crew<'s, G: Gate, R: Wait + Abort>(
    rt: &R,
    alloc: Global,
    crew: &mut Crew<'s, G, Sums<'s>>,
    items: &[(u32, u32)],
    sums: &[u64],
    worked: &'s AtomicU64,
) {
    let mut lists = lists_of(rt, alloc, items);
    crew.map(rt, Sums { worked }, &mut lists.items, &mut lists.answers);
    same_items(rt, &lists.answers, sums);
}

/// One map by a crew that borrows its work.
fn map_borrowing<'s, G: Gate, R: Wait + Abort>(
    rt: &R,
    alloc: Global,
    crew: &mut Crew<'s, G, Sums<'s>>,
    work: &Arc<Sums<'s>, Global>,
    items: &[(u32, u32)],
    sums: &[u64],
) {
    let mut lists = lists_of(rt, alloc, items);
    crew.map_with(rt, work, &mut lists.items, &mut lists.answers);
    same_items(rt, &lists.answers, sums);
}

/// A crew of so many workers, whose pieces have room for so many items at first.
fn start_crew<'s, E, G: Gate + Sync, R: Threads + Wait + Abort + Sync>(
    scope: &Scope<'s, E>,
    rt: &'s R,
    alloc: Global,
    gate: &'s G,
    workers: usize,
    room: usize,
) -> Crew<'s, G, Sums<'s>> {
    let def = CrewDef {
        workers,
        least: 1,
        room,
    };
    let Ok(crew) = start(scope, rt, alloc, gate, def) else {
        panic!(rt; "a crew")
    };
    crew
}

/// The same by a crew, many times.
fn hold_crew<'s, E, R: Threads + Wait + Abort + Sync>(
    scope: &Scope<'s, E>,
    rt: &'s R,
    alloc: Global,
    gate: &'s Holding<'s>,
    worked: &'s AtomicU64,
) {
    let mut crew = start_crew(scope, rt, alloc, gate, 2, 8);
    for _ in 0..MAPS {
        worked.store(0, Ordering::SeqCst);
        map_crew(rt, alloc, &mut crew, &[(0, 5), (1, 6)], &[5, 7], worked);
        same(rt, &gate.late(), &0);
    }
    crew.end(rt);
}

/// As many items as workers, many times by a crew that borrows its work, and then none.
fn gather_crew<'s, E, R: Threads + Wait + Abort + Sync>(
    scope: &Scope<'s, E>,
    rt: &'s R,
    alloc: Global,
    gate: &'s Gathering,
    workers: usize,
    worked: &'s AtomicU64,
) {
    let mut crew = start_crew(scope, rt, alloc, gate, workers, 1);
    let Ok(work) = Arc::new(alloc, Sums { worked }) else {
        panic!(rt; "work that is shared")
    };
    let count = workers.min(ITEMS.len());
    for _ in 0..MAPS {
        map_borrowing(rt, alloc, &mut crew, &work, &ITEMS[..count], &SUMS[..count]);
    }
    map_borrowing(rt, alloc, &mut crew, &work, &[], &[]);
    let _ = sole(rt, work);
    crew.end(rt);
}

/// Whether a crew of so many workers is refused, and by what.
fn refusal_of<'s, E, R: Threads + Wait + Sync>(
    scope: &Scope<'s, E>,
    rt: &'s R,
    alloc: Global,
    gate: &'s OpenGate,
    workers: usize,
) -> Option<Refusal> {
    let def = CrewDef {
        workers,
        least: 1,
        room: 1,
    };
    match start::<E, R, OpenGate, Sums<'s>>(scope, rt, alloc, gate, def) {
        Ok(crew) => {
            crew.end(rt);
            None
        }
        Err(refusal) => Some(refusal),
    }
}

/// Lists of all lengths, many times by one crew.
fn maps<'s, E, R: Threads + Wait + Abort + Sync>(
    scope: &Scope<'s, E>,
    rt: &'s R,
    alloc: Global,
    gate: &'s OpenGate,
    workers: usize,
    worked: &'s AtomicU64,
) {
    let mut crew = start_crew(scope, rt, alloc, gate, workers, 4);
    for _ in 0..MAPS {
        for count in 0..ITEMS.len() {
            map_crew(
                rt,
                alloc,
                &mut crew,
                &ITEMS[..count],
                &SUMS[..count],
                worked,
            );
        }
    }
    crew.end(rt);
}

#[test]
fn crews_map_in_order(rt: HostRuntime) -> Result<(), Fail> {
    let worked = AtomicU64::new(0);
    let word = &worked;
    let alloc = rt.alloc();
    let gate = &OpenGate;
    let host = &rt;
    for workers in [1usize, 2, 3, 64] {
        thread::scope(
            thread::scope_env(),
            &rt,
            |scope| maps(scope, host, alloc, gate, workers, word),
        );
    }
    Ok(())
}

#[test]
fn pieces_of_a_crew_run_at_once(rt: HostRuntime) -> Result<(), Fail> {
    let worked = AtomicU64::new(0);
    let word = &worked;
    let alloc = rt.alloc();
    let host = &rt;
    for (piece, item) in [(1usize, 0u32), (0, 1)] {
        let gate = Holding::new(piece, item, word);
        let held = &gate;
        thread::scope(
            thread::scope_env(),
            &rt,
            |scope| hold_crew(scope, host, alloc, held, word),
        );
    }
    Ok(())
}

#[test]
fn each_worker_of_a_crew_has_an_item(rt: HostRuntime) -> Result<(), Fail> {
    let worked = AtomicU64::new(0);
    let word = &worked;
    let alloc = rt.alloc();
    let host = &rt;
    for workers in [3usize, 5] {
        let gate = Gathering::new(workers as u64);
        let held = &gate;
        thread::scope(
            thread::scope_env(),
            &rt,
            |scope| gather_crew(scope, host, alloc, held, workers, word),
        );
        same(&rt, &gate.has_seen(MAPS as u64), &true);
    }
    Ok(())
}

#[test]
fn crews_have_limits(rt: HostRuntime) -> Result<(), Fail> {
    let alloc = rt.alloc();
    let host = &rt;
    let gate = &OpenGate;
    for (workers, refusal) in [
        (0usize, Some(Refusal::OutOfRange)),
        (1, None),
        (64, None),
        (65, Some(Refusal::OutOfRange)),
        (usize::MAX, Some(Refusal::OutOfRange)),
    ] {
        let found = thread::scope(
            thread::scope_env(),
            &rt,
            |scope| refusal_of(scope, host, alloc, gate, workers),
        );
        same(&rt, &found, &refusal);
    }
    Ok(())
}
