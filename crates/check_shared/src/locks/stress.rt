//! Many seats at work for a long time.

use crate::calls::{Left, Shut};
use crate::locks::claims::{are_entries, are_honest};
use crate::locks::work::SeatWork;
use crate::replay::{left_in, replays};
use crate::sharing::{Work, share_copy};
use check_scenes::{Stop, World, Worlds, text_of};
use std::alloc::Global;
use std::sync::Wait;
use std::thread::Threads;
use std::time::Clock;
use world_core::Refusal;

/// How many seats work, each on a thread of its own.
const SEATS: u64 = 16;

/// How many calls each makes in a round.
const CALLS: u64 = 500;

/// Prints the shared world, and the one in which its journal was replayed.
fn print_both<W: World, R: Print>(
    rt: &R,
    alloc: Global,
    round: u64,
    left: &Left<W>,
    replay: &mut W,
) -> Result<(), Stop> {
    let (accounts, entries) = (left.seen.accounts.as_slice(), left.journal.as_slice());
    let (honest, found) = (are_honest(accounts), are_entries(accounts, entries));
    let (journal, answered) = (entries.len(), replays(replay, entries));
    println!(rt;
        "round {round}: journal {journal}, honest {honest}, found {found}, answered {answered}"
    )?;
    let shared = text_of(alloc, &left.world)?;
    println!(rt; "shared {shared}")?;
    let replayed = text_of(alloc, replay)?;
    println!(rt; "replay {replayed}")?;
    Ok(())
}

/// Prints what a round left.
fn print_round<W: World, R: Print>(
    rt: &R,
    alloc: Global,
    round: u64,
    shut: Shut<W>,
    replay: &mut W,
) -> Result<(), Stop> {
    match left_in(shut) {
        Ok(left) => print_both(rt, alloc, round, &left, replay),
        Err(refusal) => Err(Stop::Refused(refusal)),
    }
}

/// The next round goes on from the world of the replay, without the ledger's entries of this one.
fn go_on<W: World>(worlds: &mut Worlds<W>) -> Result<(), Refusal> {
    worlds.world.settle();
    match worlds.world.copied() {
        Ok(reference) => {
            worlds.reference = reference;
            Ok(())
        }
        Err(refusal) => Err(refusal),
    }
}

/// So many rounds, each of which begins with the world that the one before left.
pub fn stress<R: Print + Threads + Wait + Clock + Sync, W: World>(
    rt: &R,
    alloc: Global,
    rounds: u64,
    worlds: &mut Worlds<W>,
) -> Result<(), Stop> {
    for round in 0..rounds {
        let work = Work::Seats(SeatWork::Mix {
            seed: round,
            calls: CALLS,
        });
        let shut = share_copy(rt, alloc, worlds.reference.core(), SEATS, work);
        print_round(rt, alloc, round, shut, worlds.world.core())?;
        go_on(worlds)?;
    }
    Ok(())
}
