//! The threads of a crowd: each makes its calls through a seat of its own, its steps solved by workers of its own.

use crate::calls::call;
use crate::command_copies::copy_of;
use fixed_geom::Refusal;
use script_requests::CrowdDef;
use std::alloc::Global;
use std::sync::Wait;
use std::sync::atomic::{AtomicU64, Ordering};
use std::thread;
use std::thread::{Scope, Threads};
use world_core::{Command, OneThread, PieceMap, StepWorker, WorldLook};
use world_lock::{Opened, Seat, SharedWorld, may_be_shared};
use world_workers::{OpenGate, PartMemory, StepCrew};

/// Makes a call; one that is refused is passed over.
fn make_call<N: Opened, R: Wait, S: StepWorker + PieceMap<WorldLook>>(
    rt: &R,
    shared: &SharedWorld<N>,
    seat: &mut Seat<N>,
    solver: &mut S,
    command: &Command,
) {
    if let Ok(copied) = copy_of(command) {
        let _accepted = call(rt, shared, seat, solver, copied);
    }
}

/// Makes each call in its order.
fn make_each<N: Opened, R: Wait, S: StepWorker + PieceMap<WorldLook>>(
    rt: &R,
    shared: &SharedWorld<N>,
    seat: &mut Seat<N>,
    solver: &mut S,
    each: &[Command],
) {
    for command in each {
        make_call(rt, shared, seat, solver, command);
    }
}

/// What a crowd does, and how many workers solve each of its steps.
#[derive(Clone, Copy)]
pub(crate) struct CrowdPlan<'d> {
    pub alloc: Global,
    pub def: &'d CrowdDef,
    pub workers: u64,
}

/// Whether a thread of a crowd could start its workers, as the threads note it for who waits for them.
#[derive(Drop)]
struct WorkerStarts {
    refused: AtomicU64,
}

impl WorkerStarts {
    fn new() -> WorkerStarts {
        WorkerStarts {
            refused: AtomicU64::new(0),
        }
    }

    fn note(&self, refusal: Refusal) {
        self.refused.store(refusal.number(), Ordering::SeqCst);
    }

    /// Refused as one of the starts was: 1 where memory was wanting, and else 11.
    fn answer(&self) -> Result<(), Refusal> {
        let refused = self.refused.load(Ordering::SeqCst);
        if refused == 0 {
            Ok(())
        } else if refused == Refusal::NoMemory.number() {
            Err(Refusal::NoMemory)
        } else {
            Err(Refusal::NoThread)
        }
    }
}

/// A world that seats of this type call.
trait Called<T> {
    /// What one thread does, its steps made with this solver.
    fn make_calls<R: Wait, S: StepWorker + PieceMap<WorldLook>>(
        &self,
        rt: &R,
        seat: &mut T,
        solver: &mut S,
        def: &CrowdDef,
    );
}

impl<N: Opened> Called<Seat<N>> for SharedWorld<N> {
    fn make_calls<R: Wait, S: StepWorker + PieceMap<WorldLook>>(
        &self,
        rt: &R,
        seat: &mut Seat<N>,
        solver: &mut S,
        def: &CrowdDef,
    ) {
        for _ in 0..def.times {
            make_each(rt, self, seat, solver, def.each.as_slice());
        }
    }
}

/// What one thread does whose steps its own workers solve. They are started in the scope, and ended when all calls are
/// made. Where one can't be started, the thread notes it and makes no calls.
fn call_by_workers<'s, E, T, S: Called<T>, R: Threads + Wait + Sync>(
    scope: &Scope<'s, E>,
    rt: &'s R,
    shared: &S,
    seat: &mut T,
    crowd: CrowdPlan,
    starts: &WorkerStarts,
) {
    let memory = PartMemory::new(crowd.alloc);
    match StepCrew::start(
        scope,
        rt,
        crowd.alloc,
        &OpenGate,
        crowd.workers as usize,
        memory,
    ) {
        Ok(mut crew) => {
            shared.make_calls(rt, seat, &mut crew, crowd.def);
            drop(crew.end());
        }
        Err(refusal) => starts.note(refusal),
    }
}

/// What one thread does.
fn call_through<T, S: Called<T>, R: Threads + Wait + Sync>(
    rt: &R,
    shared: &S,
    seat: &mut T,
    crowd: CrowdPlan,
    starts: &WorkerStarts,
) {
    if crowd.workers == 1 {
        shared.make_calls(rt, seat, &mut OneThread, crowd.def);
    } else {
        thread::scope(thread::scope_env(), rt, |scope| {
            call_by_workers(scope, rt, shared, seat, crowd, starts)
        })
    }
}

/// Starts a thread for each seat, up to one that can't be started. Refused 11 then. It goes by any world and seats that
/// may cross threads, so that whether those of a shared world may is asked by its caller, as a question of its own.
fn start_all<'s, E, T: Send + 's, S: Called<T> + Sync + 's, R: Threads + Wait + Sync>(
    scope: &Scope<'s, E>,
    rt: &'s R,
    shared: &'s S,
    seats: &'s mut [T],
    crowd: CrowdPlan<'s>,
    starts: &'s WorkerStarts,
) -> Result<(), Refusal> {
    for seat in seats.iter_mut() {
        if scope
            .spawn(move || call_through(rt, shared, seat, crowd, starts))
            .is_err()
        {
            return Err(Refusal::NoThread);
        }
    }
    Ok(())
}

/// The same for the seats of a shared world.
fn start_seats<'s, E, N: Opened + Send + Sync + 's, R: Threads + Wait + Sync>(
    scope: &Scope<'s, E>,
    rt: &'s R,
    shared: &'s SharedWorld<N>,
    seats: &'s mut [Seat<N>],
    crowd: CrowdPlan<'s>,
    starts: &'s WorkerStarts,
) -> Result<(), Refusal> {
    may_be_shared::<N>();
    start_all(scope, rt, shared, seats, crowd, starts)
}

/// All seats call at once, each on a thread of its own. Refused 11 where one, or a worker of one, can't be started, and
/// 1 where memory is wanting for its workers.
pub(crate) fn call_at_once<N: Opened + Send + Sync, R: Threads + Wait + Sync>(
    rt: &R,
    shared: &SharedWorld<N>,
    seats: &mut [Seat<N>],
    crowd: CrowdPlan,
) -> Result<(), Refusal> {
    let starts = WorkerStarts::new();
    let started = thread::scope(thread::scope_env(), rt, |scope| {
        start_seats(scope, rt, shared, seats, crowd, &starts)
    });
    started?;
    starts.answer()
}
