//! What comes of a call of a shared world to which memory may be refused, beside what it is to be: the same call in a
//! world that nobody shares.

use crate::calls::{Left, Shut};
use crate::locks::refused::{Call, step};
use crate::locks::work::SeatWork;
use crate::sharing::{Work, open_to, share_copy};
use crate::texts::{text_of_events, text_of_frame};
use check_scenes::{World, Worlds, text_of, word_of_untried};
use std::alloc::Global;
use std::sync::Wait;
use std::thread::Threads;
use std::time::Clock;
use world_core::{Refusal, WorldCore};
use world_lock::Receipt;

/// What has to come of the call: the answer, and the whole world after it.
#[derive(Drop)]
struct Expected {
    answer: String,
    world: String,
}

/// Makes the call in a world that nobody shares, and tells the answer.
fn answer_of<W: World>(alloc: Global, world: &mut W, call: Call) -> Result<String, Refusal> {
    if let Some(command) = call.command(alloc)? {
        let reply = world.apply(&command)?;
        let receipt = Receipt {
            seat: 0,
            number: 1,
            place: 0,
        };
        return Ok(format!(in alloc; "{:?}", (reply, receipt))?);
    }
    if call == Call::Open {
        return Ok(String::new(alloc));
    }
    let _ = world.apply(&step())?;
    look_at(alloc, world, call)
}

/// What is seen of the world after the step.
fn look_at<W: World>(alloc: Global, world: &mut W, call: Call) -> Result<String, Refusal> {
    match call {
        Call::Settle => {
            world.settle();
            Ok(format!(in alloc; "1")?)
        }
        Call::Frame => match world.frame() {
            Ok(frame) => text_of_frame(alloc, &frame),
            Err(refusal) => Err(refusal),
        },
        _ => text_of_events(alloc, world.events()),
    }
}

fn expected_of<W: World>(alloc: Global, world: &mut W, call: Call) -> Result<Expected, Refusal> {
    let answer = answer_of(alloc, world, call)?;
    Ok(Expected {
        answer,
        world: text_of(alloc, world)?,
    })
}

/// What a call is to be, and what it was before.
#[derive(Drop)]
struct Trial {
    call: Call,
    expected: Expected,
    before: String,
}

/// What a call is to be in a world. It is made in the other of the two.
fn trial_of<W: World>(alloc: Global, worlds: &mut Worlds<W>, call: Call) -> Result<Trial, Refusal> {
    let before = text_of(alloc, &worlds.reference)?;
    Ok(Trial {
        call,
        expected: expected_of(alloc, &mut worlds.world, call)?,
        before,
    })
}

impl Trial {
    /// What came of it: `kept` or `none`, or what differs.
    fn judge<W: World>(&self, alloc: Global, left: &Left<W>) -> Result<&'static str, Refusal> {
        let told = left.seen.told.as_str();
        let Some((outcome, answer)) = told.split_once(' ') else {
            return Ok("differs: nothing was told");
        };
        if answer != self.expected.answer.as_str() {
            return Ok("differs: the answer");
        }
        if left.journal.len() != self.call.journal() {
            return Ok("differs: the journal");
        }
        if text_of(alloc, &left.world)?.as_str() != self.expected.world.as_str() {
            return Ok("differs: the world");
        }
        Ok(if outcome == "kept" { "kept" } else { "none" })
    }

    /// What came of a world that was opened to two seats.
    fn end<W: World>(&self, alloc: Global, shut: Shut<W>) -> Result<End<W>, Refusal> {
        match shut {
            Shut::Closed(left) => match self.judge(alloc, &left) {
                Ok(told) => Ok(End::Told(told)),
                Err(refusal) => Err(refusal),
            },
            Shut::Unopened(world, Refusal::NoMemory) => self.end_unopened(alloc, world),
            Shut::Unopened(_, refusal) => Err(refusal),
            Shut::Lost(refusal) => Err(refusal),
        }
    }

    /// A world that came back is to be opened once more, if it is as it was and this was the call.
    fn end_unopened<W: World>(&self, alloc: Global, world: W) -> Result<End<W>, Refusal> {
        if self.call != Call::Open {
            return Ok(End::Told("outside"));
        }
        match text_of(alloc, &world) {
            Ok(text) => Ok(if text.as_str() == self.before.as_str() {
                End::Again(world)
            } else {
                End::Told("differs: the world that came back")
            }),
            Err(refusal) => Err(refusal),
        }
    }
}

/// What came of a trial: what is told of it, or a world that is to be opened once more.
#[derive(Drop)]
enum End<W: World> {
    Told(&'static str),
    Again(W),
}

/// What is told of a world that was opened once more.
fn told_again<W: World>(end: End<W>) -> &'static str {
    match end {
        End::Told("none") => "kept",
        End::Told(told) => told,
        End::Again(_) => "differs: it can't be opened again",
    }
}

fn run<R: Threads + Wait + Clock + Sync>(
    rt: &R,
    alloc: Global,
    reference: &WorldCore,
    trial: &Trial,
) -> Result<&'static str, Refusal> {
    let work = Work::Seats(SeatWork::Try(trial.call));
    match trial.end(alloc, share_copy(rt, alloc, reference, 2, work))? {
        End::Told(told) => Ok(told),
        End::Again(world) => {
            let end = trial.end(alloc, open_to(rt, alloc, world, reference, 2, work))?;
            Ok(told_again(end))
        }
    }
}

fn try_in<R: Threads + Wait + Clock + Sync, W: World>(
    rt: &R,
    alloc: Global,
    call: Call,
    worlds: &mut Worlds<W>,
) -> Result<&'static str, Refusal> {
    let trial = trial_of(alloc, worlds, call)?;
    run(rt, alloc, worlds.reference.core(), &trial)
}

/// Makes a call in a shared world while memory may be refused to it. Tells `kept` where a refused call left everything
/// as it was and then succeeded, `none` where it met no refusal, `outside` where something beside it met one, and else
/// what differs.
pub fn word_of_trial<R: Threads + Wait + Clock + Sync, W: World>(
    rt: &R,
    alloc: Global,
    call: Call,
    worlds: &mut Worlds<W>,
) -> &'static str {
    match try_in(rt, alloc, call, worlds) {
        Ok(told) => told,
        Err(refusal) => word_of_untried(refusal),
    }
}
