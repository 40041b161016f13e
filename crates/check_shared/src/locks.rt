//! Worlds that seats share.
//!
//! With no further word seats take turns, and 1, 2 and 64 threads call at once. `stress ROUNDS` lets 16 threads make
//! mixed calls, and prints after each round the shared world and the replay of its journal, for `tests/stress` to
//! compare. `time PUSHES` measures pushes. `try WORLD CALL` shares the world that the commands of a text make, and
//! makes one call while memory may be refused to it, as `tests/faults/run` does. It says in a line what came of it.

mod chance;
mod checks;
mod claims;
mod refused;
mod stress;
mod timing;
mod trial;
mod turns;
mod work;
mod worker;

use crate::scenes::{POINT, heap_commands};
use crate::sharing::{Work, share_copy};
use crate::tasks::{Task, do_task};
use check_scenes::{Stop, World, Worlds, commands_of};
use checks::{print_turns, print_work};
pub use claims::Account;
use refused::Call;
use std::alloc::Global;
use std::sync::Wait;
use std::thread::Threads;
use std::time::Clock;
use stress::stress;
use timing::{print_time, time_alone};
use trial::word_of_trial;
pub use work::{SeatWork, work_all};
use world_core::{Command, Refusal, WorldCore};

/// What is done with a world that seats may share.
#[derive(Clone, Copy)]
pub enum LockTask<'a> {
    /// Two seats take turns.
    Turns,
    /// So many seats push the circle, each on a thread of its own.
    Push(u64, SeatWork),
    /// So many seats make calls by chance in a heap.
    Mix(u64, SeatWork),
    /// So many rounds of stress.
    Stress(u64),
    /// So many pushes that nobody shares.
    TimeAlone(u64),
    /// So many pushes of each of so many seats. They have this name.
    TimeSeats(&'static str, u64, u64),
    /// A call in the world of a text, while memory may be refused to it.
    Try(&'a str, Call),
}

impl LockTask<'_> {
    /// The commands that make its world.
    pub fn commands(&self, alloc: Global) -> Result<Vec<Command>, Refusal> {
        match self {
            LockTask::Mix(_, _) => heap_commands(alloc),
            LockTask::Stress(_) => heap_commands(alloc),
            LockTask::Try(text, _) => commands_of(alloc, text),
            _ => commands_of(alloc, POINT),
        }
    }
}

fn work_in<R: Print + Threads + Wait + Clock + Sync, W: World>(
    rt: &R,
    alloc: Global,
    seats: u64,
    work: SeatWork,
    worlds: &mut Worlds<W>,
) -> Result<(), Stop> {
    let shut = share_copy(rt, alloc, worlds.reference.core(), seats, Work::Seats(work));
    print_work(rt, alloc, work, shut, worlds.world.core())
}

/// Two seats take turns.
fn take_turns<R: Print + Threads + Wait + Clock + Sync>(
    rt: &R,
    alloc: Global,
    reference: &WorldCore,
) -> Result<(), Stop> {
    let work = Work::Seats(SeatWork::Turns);
    print_turns(rt, share_copy(rt, alloc, reference, 2, work))
}

/// So many pushes of each of so many seats.
fn time_seats<R: Print + Threads + Wait + Clock + Sync>(
    rt: &R,
    alloc: Global,
    name: &str,
    seats: u64,
    pushes: u64,
    reference: &WorldCore,
) -> Result<(), Stop> {
    let work = Work::Seats(SeatWork::Time(pushes));
    let shut = share_copy(rt, alloc, reference, seats, work);
    print_time(rt, name, shut, pushes.saturating_mul(seats))
}

/// Does a task in a world.
pub fn do_in<R: Print + Threads + Wait + Clock + Sync, W: World>(
    rt: &R,
    alloc: Global,
    task: LockTask<'_>,
    worlds: &mut Worlds<W>,
) -> Result<(), Stop> {
    match task {
        LockTask::Turns => take_turns(rt, alloc, worlds.reference.core()),
        LockTask::Push(seats, work) => work_in(rt, alloc, seats, work, worlds),
        LockTask::Mix(seats, work) => work_in(rt, alloc, seats, work, worlds),
        LockTask::Stress(rounds) => stress(rt, alloc, rounds, worlds),
        LockTask::TimeAlone(pushes) => time_alone(rt, &mut worlds.world, pushes),
        LockTask::TimeSeats(name, seats, pushes) => {
            time_seats(rt, alloc, name, seats, pushes, worlds.reference.core())
        }
        LockTask::Try(_, call) => {
            println!(rt; "{}", word_of_trial(rt, alloc, call, worlds))?;
            Ok(())
        }
    }
}

/// So many threads push one circle, and so many make calls by chance in a heap.
fn check_threads<R: AllocGlobal + Print + Threads + Wait + Clock + Sync>(
    rt: &R,
    threads: u64,
) -> Result<(), Stop> {
    println!(rt; "threads: {threads}")?;
    do_task(rt, Task::Lock(LockTask::Push(threads, SeatWork::Push(100))))?;
    let work = SeatWork::Mix {
        seed: threads,
        calls: 100,
    };
    do_task(rt, Task::Lock(LockTask::Mix(threads, work)))
}

/// Makes all checks.
fn check<R: AllocGlobal + Print + Threads + Wait + Clock + Sync>(rt: &R) -> Result<(), Stop> {
    do_task(rt, Task::Lock(LockTask::Turns))?;
    for threads in [1, 2, 64] {
        check_threads(rt, threads)?;
    }
    Ok(())
}

/// So many pushes by `apply`, and by the calls of 1, 2 and 4 seats, each on a thread of its own.
fn time<R: AllocGlobal + Print + Threads + Wait + Clock + Sync>(
    rt: &R,
    pushes: u64,
) -> Result<(), Stop> {
    do_task(rt, Task::Lock(LockTask::TimeAlone(pushes)))?;
    do_task(rt, Task::Lock(LockTask::TimeSeats("1 thread", 1, pushes)))?;
    do_task(
        rt,
        Task::Lock(LockTask::TimeSeats("2 threads", 2, pushes / 2)),
    )?;
    do_task(
        rt,
        Task::Lock(LockTask::TimeSeats("4 threads", 4, pushes / 4)),
    )
}

/// What a word and a number ask for.
fn do_number<R: AllocGlobal + Print + Threads + Wait + Clock + Sync>(
    rt: &R,
    word: &str,
    number: &str,
) -> Result<(), Stop> {
    match (word, number.parse::<u64>()) {
        ("stress", Ok(rounds)) => do_task(rt, Task::Lock(LockTask::Stress(rounds))),
        ("time", Ok(pushes)) => time(rt, pushes),
        _ => Err(Stop::UnknownWords),
    }
}

fn do_try<R: AllocGlobal + Print + Threads + Wait + Clock + Sync>(
    rt: &R,
    text: &str,
    call: &str,
) -> Result<(), Stop> {
    match Call::of_word(call) {
        Some(call) => do_task(rt, Task::Lock(LockTask::Try(text, call))),
        None => Err(Stop::UnknownWords),
    }
}

/// Does what the words after the part's name ask for.
pub fn do_words<R: AllocGlobal + Print + Threads + Wait + Clock + Sync>(
    rt: &R,
    words: &[String],
) -> Result<(), Stop> {
    match words {
        [] => check(rt),
        [word, number] => do_number(rt, word.as_str(), number.as_str()),
        [word, text, call] if word.as_str() == "try" => do_try(rt, text.as_str(), call.as_str()),
        _ => Err(Stop::UnknownWords),
    }
}
