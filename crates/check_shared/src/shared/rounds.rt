//! Rounds, and the replays of their journals.

use crate::calls::{Left, Seen, Shut};
use crate::replay::{left_in, replays};
use crate::shared::work::RoundWork;
use check_scenes::{Stop, World, text_of};
use std::alloc::Global;

/// What a reader answered while a step waited, if one did.
fn print_answered<R: Print>(rt: &R, seen: &Seen) -> Result<(), Stop> {
    if let Some(answered) = seen.notes.answered {
        let (total, hit, is_held) = (answered.total, answered.hit, answered.is_held);
        println!(rt;
            "a reader while a step holds the lock: {total:?}, {hit:?}, still held: {is_held}"
        )?;
    }
    Ok(())
}

fn print_seen<R: Print>(rt: &R, seen: &Seen) -> Result<(), Stop> {
    let (refused, went_back, unbalanced) = (
        seen.notes.refused,
        seen.notes.went_back,
        seen.notes.unbalanced,
    );
    let by_workers = seen.pieces > 0;
    println!(rt;
        "calls refused: {refused}, frames that went back: {went_back}, unbalanced: {unbalanced}, steps by workers: {by_workers}"
    )?;
    print_answered(rt, seen)
}

/// How much was done, and both worlds as they are.
fn print_whole<R: Print>(rt: &R, seen: &Seen, shared: &str, replayed: &str) -> Result<(), Stop> {
    let (frames, pieces) = (seen.notes.frames, seen.pieces);
    let (looks, hits) = (seen.notes.looks, seen.notes.hits);
    println!(rt; "frames {frames}, looks {looks}, hits {hits}, pieces {pieces}")?;
    println!(rt; "shared {shared}")?;
    println!(rt; "replay {replayed}")?;
    Ok(())
}

fn print_texts<R: Print>(
    rt: &R,
    work: RoundWork,
    seen: &Seen,
    shared: &str,
    replayed: &str,
) -> Result<(), Stop> {
    match work {
        RoundWork::Stress(_) => print_whole(rt, seen, shared, replayed),
        _ => {
            let is_same = shared == replayed;
            println!(rt; "the same world: {is_same}")?;
            Ok(())
        }
    }
}

/// Replays the journal in a world, and tells what came of it.
fn print_replay<W: World, R: Print>(
    rt: &R,
    alloc: Global,
    work: RoundWork,
    left: &Left<W>,
    replay: &mut W,
) -> Result<(), Stop> {
    let journal = left.journal.as_slice();
    let (count, answered) = (journal.len(), replays(replay, journal));
    println!(rt; "journal: {count}, the same replies: {answered}")?;
    print_seen(rt, &left.seen)?;
    let shared = text_of(alloc, &left.world)?;
    let replayed = text_of(alloc, replay)?;
    print_texts(rt, work, &left.seen, shared.as_str(), replayed.as_str())
}

/// What came of a round.
pub fn print_round<W: World, R: Print>(
    rt: &R,
    alloc: Global,
    work: RoundWork,
    shut: Shut<W>,
    replay: &mut W,
) -> Result<(), Stop> {
    match left_in(shut) {
        Ok(left) => print_replay(rt, alloc, work, &left, replay),
        Err(refusal) => Err(Stop::Refused(refusal)),
    }
}
