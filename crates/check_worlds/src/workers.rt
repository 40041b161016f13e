//! Steps by workers.
//!
//! With no further word they step piles of circles beside the same steps by one thread. `steps N` makes only so many
//! steps where there are forty else. `try WORLD CALL` makes one step in the world that the commands of a text make,
//! while memory or threads may be refused to it, as `tests/faults/run` does, and says in a line what came of it.

mod at_once;
mod gates;
mod steps;
mod tries;

use crate::whole_world::WholeWorld;
use at_once::check;
use check_scenes::{Piles, Stop, Worlds, commands_of, end_without};
use std::alloc::Global;
use std::sync::Wait;
use std::thread::Threads;
use tries::{Call, word_of_try};
use world_core::{Command, Refusal, WorldCore};

/// How many steps are made.
const STEPS: u64 = 40;

/// How many are made of a wide pile.
const FEW: u64 = 3;

/// What workers do in a world.
#[derive(Clone, Copy)]
enum Task<'a> {
    /// So many steps of piles, by workers and by one thread.
    Steps(Piles, u64),
    /// A call in the world of a text, while memory or threads may be refused to it.
    Try(&'a str, Call),
}

impl Task<'_> {
    /// The commands that make its world.
    fn commands(&self, alloc: Global) -> Result<Vec<Command>, Refusal> {
        match self {
            Task::Steps(piles, _) => piles.commands(alloc),
            Task::Try(text, _) => commands_of(alloc, text),
        }
    }

    /// Whether memory may be refused to it, so that it tells what came of that.
    fn is_try(&self) -> bool {
        match self {
            Task::Steps(_, _) => false,
            Task::Try(_, _) => true,
        }
    }
}

fn do_in<R: AllocGlobal + Print + Threads + Wait + Sync, W: WholeWorld>(
    rt: &R,
    task: Task<'_>,
    worlds: &mut Worlds<W>,
) -> Result<(), Stop> {
    match task {
        Task::Steps(piles, steps) => check(rt, piles, worlds, steps),
        Task::Try(_, call) => {
            println!(rt; "{}", word_of_try(rt, call, worlds))?;
            Ok(())
        }
    }
}

/// Makes the worlds of a task and does it. It is the one function of this part that has worlds to drop.
fn do_after<R: AllocGlobal + Print + Threads + Wait + Sync, W: WholeWorld>(
    rt: &R,
    task: Task<'_>,
    commands: &[Command],
) -> Result<(), Stop> {
    match Worlds::<W>::after(rt.alloc(), commands) {
        Ok(mut worlds) => do_in(rt, task, &mut worlds),
        Err(refusal) => end_without(rt, task.is_try(), refusal),
    }
}

fn do_task<R: AllocGlobal + Print + Threads + Wait + Sync>(
    rt: &R,
    task: Task<'_>,
) -> Result<(), Stop> {
    match task.commands(rt.alloc()) {
        Ok(commands) => do_after::<R, WorldCore>(rt, task, commands.as_slice()),
        Err(refusal) => end_without(rt, task.is_try(), refusal),
    }
}

fn check_steps<R: AllocGlobal + Print + Threads + Wait + Sync>(
    rt: &R,
    steps: u64,
) -> Result<(), Stop> {
    do_task(rt, Task::Steps(Piles::One, steps))?;
    do_task(rt, Task::Steps(Piles::Two, steps))?;
    do_task(rt, Task::Steps(Piles::Wide, steps.min(FEW)))
}

fn do_try<R: AllocGlobal + Print + Threads + Wait + Sync>(
    rt: &R,
    text: &str,
    call: &str,
) -> Result<(), Stop> {
    match Call::of_word(call) {
        Some(call) => do_task(rt, Task::Try(text, call)),
        None => Err(Stop::UnknownWords),
    }
}

/// What a word and a number ask for.
fn do_number<R: AllocGlobal + Print + Threads + Wait + Sync>(
    rt: &R,
    word: &str,
    number: &str,
) -> Result<(), Stop> {
    match (word, number.parse::<u64>()) {
        ("steps", Ok(steps)) => check_steps(rt, steps),
        _ => Err(Stop::UnknownWords),
    }
}

/// Does what the words after the part's name ask for.
pub fn do_words<R: AllocGlobal + Print + Threads + Wait + Sync>(
    rt: &R,
    words: &[String],
) -> Result<(), Stop> {
    match words {
        [] => check_steps(rt, STEPS),
        [word, number] => do_number(rt, word.as_str(), number.as_str()),
        [word, text, call] if word.as_str() == "try" => do_try(rt, text.as_str(), call.as_str()),
        _ => Err(Stop::UnknownWords),
    }
}
