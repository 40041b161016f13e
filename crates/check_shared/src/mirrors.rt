//! Mirrors of shared worlds.
//!
//! With no further word there is a worked example, and then readers look on threads of their own. `try CALL` makes one
//! call while memory may be refused to it, as `tests/faults/run` does, and says in a line what came of it. `time POSES`
//! measures readers and publishers.

mod crowd;
mod example;
mod refused;
mod showing;
mod timing;
mod untold;
mod work;

use crate::calls::Shut;
use crate::replay::left_in;
use crate::sharing::{Work, share_copy};
use crate::tasks::{Task, do_task};
use check_scenes::{Stop, World};
use refused::Call;
pub use showing::do_work;
use std::alloc::Global;
use std::sync::Wait;
use std::thread::Threads;
use std::time::Clock;
pub use work::MirrorWork;
use world_core::{Refusal, WorldCore};

/// What is done with a mirror of a world.
#[derive(Clone, Copy)]
pub enum MirrorTask {
    /// This work, which tells lines.
    Tell(MirrorWork),
    /// The mirror is opened while memory may be refused to that.
    TryOpen,
}

/// Prints what there is to tell of a world that was closed.
fn print_told<W: World, R: Print>(rt: &R, shut: Shut<W>) -> Result<(), Stop> {
    match left_in(shut) {
        Ok(left) => {
            print!(rt; "{}", left.seen.told)?;
            Ok(())
        }
        Err(refusal) => Err(Stop::Refused(refusal)),
    }
}

/// Whether a world was shared and its mirror opened.
fn is_open<W: World>(shut: Shut<W>) -> Result<(), Refusal> {
    match left_in(shut) {
        Ok(_) => Ok(()),
        Err(refusal) => Err(refusal),
    }
}

/// Opens a mirror while memory may be refused to that.
fn open_once<R: Threads + Wait + Clock + Sync>(
    rt: &R,
    alloc: Global,
    reference: &WorldCore,
) -> Result<(), Refusal> {
    let work = Work::Mirror(MirrorWork::Try(Call::Open));
    is_open(share_copy(rt, alloc, reference, 1, work))
}

/// The same, and once more where it was refused.
fn word_of_open<R: Threads + Wait + Clock + Sync>(
    rt: &R,
    alloc: Global,
    reference: &WorldCore,
) -> &'static str {
    match open_once(rt, alloc, reference) {
        Ok(()) => "none",
        Err(Refusal::NoMemory) => match open_once(rt, alloc, reference) {
            Ok(()) => "kept",
            Err(_) => "differs: it is refused again",
        },
        Err(_) => "differs: the refusal",
    }
}

/// Does a task with a mirror of a world.
pub fn do_in<R: Print + Threads + Wait + Clock + Sync>(
    rt: &R,
    alloc: Global,
    task: MirrorTask,
    reference: &WorldCore,
) -> Result<(), Stop> {
    match task {
        MirrorTask::Tell(work) => {
            print_told(rt, share_copy(rt, alloc, reference, 1, Work::Mirror(work)))
        }
        MirrorTask::TryOpen => {
            println!(rt; "{}", word_of_open(rt, alloc, reference))?;
            Ok(())
        }
    }
}

fn tell<R: AllocGlobal + Print + Threads + Wait + Clock + Sync>(
    rt: &R,
    work: MirrorWork,
) -> Result<(), Stop> {
    do_task(rt, Task::Mirror(MirrorTask::Tell(work)))
}

/// Makes all checks.
fn check<R: AllocGlobal + Print + Threads + Wait + Clock + Sync>(rt: &R) -> Result<(), Stop> {
    tell(rt, MirrorWork::Example)?;
    tell(rt, MirrorWork::Untold)?;
    tell(rt, MirrorWork::Crowd)
}

/// Makes one call while memory may be refused to it.
fn try_one<R: AllocGlobal + Print + Threads + Wait + Clock + Sync>(
    rt: &R,
    call: Call,
) -> Result<(), Stop> {
    match call {
        Call::Open => do_task(rt, Task::Mirror(MirrorTask::TryOpen)),
        call => tell(rt, MirrorWork::Try(call)),
    }
}

/// Times so many poses, and those of one reader and of four on threads of their own while frames are published.
fn time<R: AllocGlobal + Print + Threads + Wait + Clock + Sync>(
    rt: &R,
    poses: u64,
) -> Result<(), Stop> {
    tell(rt, MirrorWork::Time(poses))?;
    tell(rt, MirrorWork::TimeReaders(1, poses))?;
    tell(rt, MirrorWork::TimeReaders(4, poses))
}

/// What a word and another ask for.
fn do_word<R: AllocGlobal + Print + Threads + Wait + Clock + Sync>(
    rt: &R,
    word: &str,
    other: &str,
) -> Result<(), Stop> {
    match (word, Call::of_word(other), other.parse::<u64>()) {
        ("try", Some(call), _) => try_one(rt, call),
        ("time", _, Ok(poses)) => time(rt, poses),
        _ => Err(Stop::UnknownWords),
    }
}

/// Does what the words after the part's name ask for.
pub fn do_words<R: AllocGlobal + Print + Threads + Wait + Clock + Sync>(
    rt: &R,
    words: &[String],
) -> Result<(), Stop> {
    match words {
        [] => check(rt),
        [word, other] => do_word(rt, word.as_str(), other.as_str()),
        _ => Err(Stop::UnknownWords),
    }
}
