//! Steps by workers to which memory or threads may be refused.

use crate::whole_world::WholeWorld;
use crate::workers::steps::{WorkerStep, step_by_parts, step_by_workers};
use check_scenes::{CallMark, World, Worlds, text_of, word_of_untried};
use crew::OpenGate;
use std::alloc::Global;
use std::sync::Wait;
use std::thread::Threads;
use world_core::{Refusal, Reply, WorldCore};

/// How many ticks the step has.
const TICKS: i64 = 8;

/// A step by workers.
#[derive(Clone, Copy)]
pub struct Call {
    step: WorkerStep,
    /// Whether a crew solves it by parts, however small it is. Else the calling thread solves a small one alone.
    is_by_parts: bool,
}

impl Call {
    /// The call that a word of the program names.
    pub fn of_word(word: &str) -> Option<Call> {
        let (workers, ticks) = match word {
            "step_with" | "step_by_parts" => (3, TICKS),
            "no_workers" => (0, TICKS),
            "too_many_workers" => (65, TICKS),
            "too_many_ticks" => (3, TICKS + 1),
            _ => return None,
        };
        Some(Call {
            step: WorkerStep { workers, ticks },
            is_by_parts: word == "step_by_parts",
        })
    }

    /// What it is due in this world, by one thread.
    fn due<W: WholeWorld>(self, world: &mut W) -> Result<Reply, Refusal> {
        if self.step.workers < 1 || self.step.workers > 64 {
            return Err(Refusal::OutOfRange);
        }
        world.step(self.step.ticks)
    }
}

/// What came of a call.
#[derive(Clone, Copy)]
enum Verdict {
    /// It was answered what it was due, and has left what it was to leave.
    AsDue,
    /// Memory or a thread was refused, and nothing has changed. It is told by this word, if the call succeeds once
    /// more.
    Refused(&'static str),
    /// This differs from what was to come.
    Differs(&'static str),
}

/// What is told of a call that was refused for want of memory or of a thread.
fn word_of_want(answer: Result<Reply, Refusal>) -> Option<&'static str> {
    match answer {
        Err(Refusal::NoMemory) => Some("kept"),
        Err(Refusal::NoThread) => Some("unstarted"),
        _ => None,
    }
}

/// One verdict where the worlds are the same, and else the other.
fn verdict_by(are_same: bool, same: Verdict, else_told: &'static str) -> Verdict {
    if are_same {
        same
    } else {
        Verdict::Differs(else_told)
    }
}

/// Whether the two are equal.
fn are_same<W: World>(alloc: Global, worlds: &Worlds<W>) -> Result<bool, Refusal> {
    Ok(text_of(alloc, &worlds.world)?.as_str() == text_of(alloc, &worlds.reference)?.as_str())
}

/// Looks what came of the call in a world. In the reference, which was equal to it before, one thread makes the step if
/// the call wasn't refused.
fn judge<W: WholeWorld>(
    alloc: Global,
    call: Call,
    answer: Result<Reply, Refusal>,
    worlds: &mut Worlds<W>,
) -> Result<Verdict, Refusal> {
    if let Some(word) = word_of_want(answer) {
        let are_same = are_same(alloc, worlds)?;
        let told = "differs: the world after the refused call";
        return Ok(verdict_by(are_same, Verdict::Refused(word), told));
    }
    if answer != call.due(&mut worlds.reference) {
        return Ok(Verdict::Differs("differs: the answer"));
    }
    let are_same = are_same(alloc, worlds)?;
    Ok(verdict_by(are_same, Verdict::AsDue, "differs: the world"))
}

/// Makes the step.
fn make<R: AllocGlobal + Threads + Wait + Sync>(
    rt: &R,
    call: Call,
    world: &mut WorldCore,
) -> Result<Reply, Refusal> {
    if call.is_by_parts {
        step_by_parts(rt, &OpenGate, world, call.step)
    } else {
        step_by_workers(rt, &OpenGate, world, call.step)
    }
}

/// Makes the call between the marks of what may refuse memory or threads.
fn attempt<R: AllocGlobal + Threads + Wait + Sync>(
    rt: &R,
    call: Call,
    world: &mut WorldCore,
) -> Result<Reply, Refusal> {
    let mark = CallMark::begin(rt.alloc());
    let answer = make(rt, call, world);
    let _was_there = mark.end();
    answer
}

/// What is told of a call that was refused, of which this word is told if it succeeds once more.
fn told_again(verdict: Verdict, word: &'static str) -> &'static str {
    match verdict {
        Verdict::AsDue => word,
        Verdict::Refused(_) => "differs: it is refused again",
        Verdict::Differs(told) => told,
    }
}

/// Makes the call, and once more if memory or a thread was refused to it.
fn try_twice<R: AllocGlobal + Threads + Wait + Sync, W: WholeWorld>(
    rt: &R,
    call: Call,
    worlds: &mut Worlds<W>,
) -> Result<&'static str, Refusal> {
    let answer = attempt(rt, call, worlds.world.core());
    match judge(rt.alloc(), call, answer, worlds)? {
        Verdict::AsDue => Ok("none"),
        Verdict::Refused(word) => {
            let answer = attempt(rt, call, worlds.world.core());
            let verdict = judge(rt.alloc(), call, answer, worlds)?;
            Ok(told_again(verdict, word))
        }
        Verdict::Differs(told) => Ok(told),
    }
}

/// Makes a call in a world while memory or threads may be refused to it. Tells `kept` where a call that was refused
/// memory left everything as it was and then succeeded, `unstarted` where it was refused a thread, `none` where it met
/// no refusal, `outside` where something beside it met one, and else what differs.
pub fn word_of_try<R: AllocGlobal + Threads + Wait + Sync, W: WholeWorld>(
    rt: &R,
    call: Call,
    worlds: &mut Worlds<W>,
) -> &'static str {
    match try_twice(rt, call, worlds) {
        Ok(told) => told,
        Err(refusal) => word_of_untried(refusal),
    }
}
