//! What seats do with the world that they share.

use crate::calls::{Called, Left, Shared, close};
use crate::locks::chance::Hand;
use crate::locks::claims::Account;
use crate::locks::refused::{Call, try_call};
use crate::locks::turns::take_turns;
use crate::locks::worker::Worker;
use crate::timing::now;
use check_scenes::FIRST;
use std::alloc::Global;
use std::sync::Wait;
use std::thread;
use std::thread::Threads;
use std::time::Clock;
use world_core::{Command, Refusal, Vec2, WorldCore};
use world_lock::{Opened, Seat, SharedWorld, may_be_shared};

/// What the seats of a world do.
#[derive(Clone, Copy)]
pub enum SeatWork {
    /// The first seat makes this call while memory may be refused to it; the others do nothing.
    Try(Call),
    /// Two seats take turns on one thread.
    Turns,
    /// Each pushes the first body by 1 so many times, on a thread of its own.
    Push(u64),
    /// The same as fast as it can: what it is told is not kept.
    Time(u64),
    /// Each makes so many calls by chance, on a thread of its own.
    Mix { seed: u64, calls: u64 },
}

impl SeatWork {
    /// Whether memory may be refused to the opening of the world.
    pub fn tries_open(self) -> bool {
        match self {
            SeatWork::Try(call) => call == Call::Open,
            _ => false,
        }
    }
}

fn push() -> Command {
    Command::Push(FIRST, Vec2 { x: 1, y: 0 })
}

/// Pushes the first body so many times.
fn push_often<T: Drop, S: Called<T>, R: Wait>(
    rt: &R,
    shared: &S,
    worker: &mut Worker<T>,
    times: u64,
) {
    for _ in 0..times {
        worker.call_surely(rt, shared, push());
    }
}

/// The same without a word of what it is told.
fn push_fast<T: Drop, S: Called<T>, R: Wait>(
    rt: &R,
    shared: &S,
    worker: &mut Worker<T>,
    times: u64,
) {
    for _ in 0..times {
        worker.call_fast(rt, shared, push());
    }
}

/// Makes a call by chance, after a look at the world now and then.
fn call_by_chance<T: Drop, S: Called<T>, R: Wait>(
    rt: &R,
    alloc: Global,
    shared: &S,
    worker: &mut Worker<T>,
    hand: &mut Hand,
) {
    match hand.looks() {
        Some(true) => worker.look(rt, shared),
        Some(false) => worker.hear(rt, shared),
        None => {}
    }
    if let Ok(command) = hand.command(alloc) {
        if let Some(reply) = worker.call(rt, shared, command) {
            hand.take(reply);
        }
    }
}

fn mix<T: Drop, S: Called<T>, R: Wait>(
    rt: &R,
    alloc: Global,
    shared: &S,
    worker: &mut Worker<T>,
    seed: u64,
    calls: u64,
) {
    let mut hand = Hand::new(seed.wrapping_mul(64).wrapping_add(worker.number));
    for _ in 0..calls {
        call_by_chance(rt, alloc, shared, worker, &mut hand);
    }
}

/// What one seat does. Answers the seat, and what it was told.
fn work_alone<T: Drop, S: Called<T>, R: Wait>(
    rt: &R,
    alloc: Global,
    shared: &S,
    seat: T,
    work: SeatWork,
) -> (T, Account) {
    let number = S::number(&seat);
    let mut worker = Worker::new(alloc, seat, number);
    match work {
        SeatWork::Push(times) => push_often(rt, shared, &mut worker, times),
        SeatWork::Time(times) => push_fast(rt, shared, &mut worker, times),
        SeatWork::Mix { seed, calls } => mix(rt, alloc, shared, &mut worker, seed, calls),
        _ => {}
    }
    worker.into_parts()
}

/// Takes the seats out of what the threads answered. Answers what they were told.
fn gather<T: Drop>(
    alloc: Global,
    answers: Vec<(T, Account)>,
    seats: &mut Vec<T>,
) -> Result<Vec<Account>, Refusal> {
    let mut accounts = Vec::new(alloc);
    for (seat, account) in answers {
        accounts.push(account)?;
        seats.push(seat)?;
    }
    Ok(accounts)
}

/// Closes a world whose seats have worked for so long.
fn end<T: Drop, S: Shared<T>>(
    alloc: Global,
    shared: S,
    answers: Result<Vec<(T, Account)>, Refusal>,
    nanos: u128,
) -> Result<Left<S::World>, Refusal> {
    let mut seats = Vec::new(alloc);
    let accounts = gather(alloc, answers?, &mut seats)?;
    let mut left = close(shared, seats)?;
    left.seen.accounts = accounts;
    left.seen.nanos = nanos;
    Ok(left)
}

/// A world at which seats of this type work.
trait Workplace<T> {
    /// What one seat does.
    fn work_alone<R: Wait>(&self, rt: &R, alloc: Global, seat: T, work: SeatWork) -> (T, Account);
}

impl<N: Opened> Workplace<Seat<N>> for SharedWorld<N> {
    fn work_alone<R: Wait>(
        &self,
        rt: &R,
        alloc: Global,
        seat: Seat<N>,
        work: SeatWork,
    ) -> (Seat<N>, Account) {
        work_alone(rt, alloc, self, seat, work)
    }
}

/// What the seats answer where each works on a thread of its own. It goes by any workplace and seats that may cross
/// threads, so that whether those of a shared world may is asked by its caller, as a question of its own.
fn answers_at_once<T: Drop + Send, S: Workplace<T> + Sync, R: Threads + Wait + Sync>(
    rt: &R,
    alloc: Global,
    shared: &S,
    seats: Vec<T>,
    work: SeatWork,
) -> Result<Vec<(T, Account)>, Refusal> {
    let answers = thread::map_vec(
        rt,
        seats,
        &|seat| { shared.work_alone(rt, alloc, seat, work) },
    )?;
    Ok(answers)
}

/// All seats work at once, each on a thread of its own.
fn work_at_once<N: Opened + Send + Sync, R: Threads + Wait + Clock + Sync>(
    rt: &R,
    alloc: Global,
    shared: SharedWorld<N>,
    seats: Vec<Seat<N>>,
    work: SeatWork,
) -> Result<Left<WorldCore>, Refusal> {
    may_be_shared::<N>();
    let start = now(rt);
    let answers = answers_at_once(rt, alloc, &shared, seats, work);
    let nanos = now(rt).saturating_sub(start);
    end(alloc, shared, answers, nanos)
}

/// Lets the seats of an open world work, and closes it.
pub fn work_all<N: Opened + Send + Sync, R: Threads + Wait + Clock + Sync>(
    rt: &R,
    alloc: Global,
    shared: SharedWorld<N>,
    seats: Vec<Seat<N>>,
    work: SeatWork,
) -> Result<Left<WorldCore>, Refusal> {
    match work {
        SeatWork::Turns => take_turns(rt, alloc, shared, seats),
        SeatWork::Try(call) => try_call(rt, alloc, shared, seats, call),
        _ => work_at_once(rt, alloc, shared, seats, work),
    }
}
