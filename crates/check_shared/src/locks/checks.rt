//! What shared worlds are checked for: lines that are the same whatever the schedule.

use crate::calls::{Left, Shut};
use crate::locks::claims::{are_entries, are_honest};
use crate::locks::work::SeatWork;
use crate::replay::{left_in, replays};
use check_scenes::{Stop, World, text_of};
use std::alloc::Global;
use world_core::{Refusal, Vec2};

/// The momentum of the first body.
fn first_p<W: World>(world: &W) -> Result<Option<Vec2>, Refusal> {
    match world.lists() {
        Ok(lists) => match lists.bodies().first() {
            Some(Some(body)) => Ok(Some(body.motion.p)),
            _ => Ok(None),
        },
        Err(refusal) => Err(refusal),
    }
}

/// What the seats told, and what is left of the world: how long its journal is, what was settled of its seats, what the
/// first body has, and the ledger's total.
fn print_left<W: World, R: Print>(rt: &R, left: &Left<W>) -> Result<(), Stop> {
    print!(rt; "{}", left.seen.told)?;
    let journal = left.journal.len();
    let settled = left.settled.as_slice();
    let total = left.world.ledger().total();
    let p = first_p(&left.world)?;
    println!(rt; "journal: {journal}, settled: {settled:?}, p: {p:?}, total: {total:?}")?;
    Ok(())
}

/// What came of two seats that took turns.
pub fn print_turns<W: World, R: Print>(rt: &R, shut: Shut<W>) -> Result<(), Stop> {
    match left_in(shut) {
        Ok(left) => print_left(rt, &left),
        Err(refusal) => Err(Stop::Refused(refusal)),
    }
}

/// How long the journal is, and what the first body has.
fn print_journal<W: World, R: Print>(rt: &R, left: &Left<W>) -> Result<(), Stop> {
    let journal = left.journal.len();
    let p = first_p(&left.world)?;
    println!(rt; "journal: {journal}, p: {p:?}")?;
    Ok(())
}

/// Tells whether the seats were told what they should be, whether each receipt's entry is in its place, and whether the
/// replay gives the journal's replies and leaves the same world.
fn print_replay<W: World, R: Print>(
    rt: &R,
    alloc: Global,
    left: &Left<W>,
    replay: &mut W,
) -> Result<(), Stop> {
    let (accounts, journal) = (left.seen.accounts.as_slice(), left.journal.as_slice());
    let (honest, found) = (are_honest(accounts), are_entries(accounts, journal));
    let answered = replays(replay, journal);
    let is_same = text_of(alloc, &left.world)?.as_str() == text_of(alloc, replay)?.as_str();
    println!(rt;
        "seats told the truth: {honest}, receipts have their entries: {found}, the same replies: {answered}, the same world: {is_same}"
    )?;
    Ok(())
}

/// What came of seats that worked at once.
pub fn print_work<W: World, R: Print>(
    rt: &R,
    alloc: Global,
    work: SeatWork,
    shut: Shut<W>,
    replay: &mut W,
) -> Result<(), Stop> {
    match left_in(shut) {
        Ok(left) => {
            if let SeatWork::Push(_) = work {
                print_journal(rt, &left)?;
            }
            print_replay(rt, alloc, &left, replay)
        }
        Err(refusal) => Err(Stop::Refused(refusal)),
    }
}
