//! Seats that work, each on a thread of its own.

use crate::calls::Called;
use crate::shared::notes::Notes;
use crate::shared::work::{RoundWork, Task, Turn};
use crate::stage::Stage;
use std::sync::Wait;
use std::thread;
use std::thread::{Scope, Threads};
use world_core::{Command, PieceMap, Refusal, StepWorker, Vec2, WorldLook};
use world_lock::{Opened, Seat, SharedWorld, may_be_shared};
use world_workers::{PartMemory, StepCrew};

/// Where the ray begins that is cast in each frame.
pub const FROM: Vec2 = Vec2 {
    x: -1_000_000,
    y: 100_000,
};

/// The ray's way.
pub const ALONG: Vec2 = Vec2 { x: 2_000_000, y: 0 };

fn take_turn<T, S: Called<T>, R: Wait, V: StepWorker + PieceMap<WorldLook>>(
    rt: &R,
    shared: &S,
    seat: &mut T,
    solver: &mut V,
    turn: Turn,
    notes: &mut Notes,
) {
    match turn {
        Turn::Push(handle, by) => notes.call(shared.call(rt, seat, Command::Push(handle, by))),
        Turn::Step(ticks) => notes.call(shared.step(rt, seat, solver, ticks)),
        Turn::Look => {
            if let Ok((shown, hit)) = shared.look_along(rt, seat, FROM, ALONG) {
                notes.look(shown, shown.booked, hit);
            }
        }
    }
}

fn take_turns<T, S: Called<T>, R: Wait, V: StepWorker + PieceMap<WorldLook>>(
    rt: &R,
    shared: &S,
    seat: &mut T,
    solver: &mut V,
    task: Task,
) -> Notes {
    let mut notes = Notes::new();
    for number in 0..task.turns {
        take_turn(rt, shared, seat, solver, task.turn(number), &mut notes);
    }
    notes
}

/// The same with workers, which start for it and pass the round's gate. Where they can't be started nothing is done.
fn take_turns_by_workers<'s, E, T: Drop, S: Called<T>, R: Threads + Wait + Sync>(
    scope: &Scope<'s, E>,
    rt: &'s R,
    stage: &'s Stage<'s, S, T>,
    seat: &mut T,
    task: Task,
) {
    let (alloc, round) = (stage.alloc, &stage.round);
    let memory = PartMemory::for_all_steps(alloc);
    if let Ok(mut crew) = StepCrew::start(scope, rt, alloc, round, task.workers, memory) {
        let notes = take_turns(rt, stage.shared, seat, &mut crew, task);
        drop(crew.end());
        round.finish(rt, notes);
    }
}

/// What the thread of a seat does. It gives the seat back.
fn work_through<T: Drop, S: Called<T>, R: Threads + Wait + Sync>(
    rt: &R,
    stage: &Stage<'_, S, T>,
    work: RoundWork,
    mut seat: T,
) {
    let task = Task::of(work, S::number(&seat));
    thread::scope(thread::scope_env(), rt, |scope| {
        take_turns_by_workers(scope, rt, stage, &mut seat, task)
    });
    stage.give_back(rt, seat);
}

/// Starts a thread for each seat. It goes by any world and seats that may cross threads, so that whether those of a
/// shared world may is asked by its caller, as a question of its own.
fn start_all<'s, E, T: Send + Drop + 's, S: Called<T> + Sync + 's, R: Threads + Wait + Sync>(
    scope: &Scope<'s, E>,
    rt: &'s R,
    stage: &'s Stage<'s, S, T>,
    work: RoundWork,
    seats: Vec<T>,
) -> Result<(), Refusal> {
    for seat in seats {
        if scope
            .spawn(move || work_through(rt, stage, work, seat))
            .is_err()
        {
            return Err(Refusal::NoThread);
        }
    }
    Ok(())
}

/// The same for the seats of a shared world that nobody has in hand.
pub fn start_seats<'s, E, N: Opened + Send + Sync + 's, R: Threads + Wait + Sync>(
    scope: &Scope<'s, E>,
    rt: &'s R,
    stage: &'s Stage<'s, SharedWorld<N>, Seat<N>>,
    work: RoundWork,
) -> Result<(), Refusal> {
    may_be_shared::<N>();
    start_all(scope, rt, stage, work, stage.take_seats(rt))
}
