//! Worlds that seats share and that step by workers, and what readers are answered meanwhile.
//!
//! With no further word a seat pushes while another one steps by three workers, and a reader is asked while a step is
//! held. `stress ROUNDS` lets 16 seats work while one more publishes and 32 readers look, and prints after each round
//! the shared world and the replay of its journal, for `tests/stress` to compare.

mod notes;
mod readers;
mod round;
mod rounds;
mod seats;
mod work;

use crate::mirrors::MirrorWork;
use crate::sharing::{Work, share_copy};
use crate::tasks::{Task, do_task};
use check_scenes::{Stop, World, Worlds};
pub use notes::Notes;
pub use readers::race;
pub use round::Round;
use rounds::print_round;
use std::alloc::Global;
use std::sync::Wait;
use std::thread::Threads;
use std::time::Clock;
pub use work::RoundWork;

/// Lets the seats of a world work, and replays on one thread what they did.
pub fn do_in<R: Print + Threads + Wait + Clock + Sync, W: World>(
    rt: &R,
    alloc: Global,
    work: RoundWork,
    worlds: &mut Worlds<W>,
) -> Result<(), Stop> {
    let seats = work.seats().saturating_add(1);
    let round = Work::Mirror(MirrorWork::Round(work));
    let shut = share_copy(rt, alloc, worlds.reference.core(), seats, round);
    print_round(rt, alloc, work, shut, worlds.world.core())
}

/// Makes all checks.
fn check<R: AllocGlobal + Print + Threads + Wait + Clock + Sync>(rt: &R) -> Result<(), Stop> {
    println!(rt; "a seat that pushes beside one that steps by three workers")?;
    do_task(rt, Task::Round(RoundWork::Both))?;
    println!(rt; "a step that is held")?;
    do_task(rt, Task::Round(RoundWork::Held))
}

/// So many rounds of stress.
fn stress<R: AllocGlobal + Print + Threads + Wait + Clock + Sync>(
    rt: &R,
    rounds: u64,
) -> Result<(), Stop> {
    for round in 0..rounds {
        println!(rt; "round {round}")?;
        do_task(rt, Task::Round(RoundWork::Stress(round)))?;
    }
    Ok(())
}

/// What a word and a number ask for.
fn do_number<R: AllocGlobal + Print + Threads + Wait + Clock + Sync>(
    rt: &R,
    word: &str,
    number: &str,
) -> Result<(), Stop> {
    match (word, number.parse::<u64>()) {
        ("stress", Ok(rounds)) => stress(rt, rounds),
        _ => Err(Stop::UnknownWords),
    }
}

/// Does what the words after the part's name ask for.
pub fn do_words<R: AllocGlobal + Print + Threads + Wait + Clock + Sync>(
    rt: &R,
    words: &[String],
) -> Result<(), Stop> {
    match words {
        [] => check(rt),
        [word, number] => do_number(rt, word.as_str(), number.as_str()),
        _ => Err(Stop::UnknownWords),
    }
}
