//! Calls of a shared world to which memory may be refused.

use crate::calls::{Called, Left, SeatAnswer, Shared, close};
use crate::scenes::mover;
use crate::texts::text_of_events;
use check_scenes::CallMark;
use std::alloc::Global;
use std::sync::Wait;
use world_core::{Command, Events, OneThread, Refusal, Vec2};

/// A call to which memory may be refused.
#[derive(Clone, Copy, PartialEq, Eq)]
pub enum Call {
    Open,
    /// A body is made.
    Create,
    Step,
    /// A step by a solver that is handed in.
    SolvedStep,
    Settle,
    Frame,
    Events,
}

/// How many ticks a step has.
const TICKS: i64 = 4;

impl Call {
    /// The call that a word of the program names.
    pub fn of_word(word: &str) -> Option<Call> {
        match word {
            "open" => Some(Call::Open),
            "create" => Some(Call::Create),
            "step" => Some(Call::Step),
            "solved_step" => Some(Call::SolvedStep),
            "settle" => Some(Call::Settle),
            "frame" => Some(Call::Frame),
            "events" => Some(Call::Events),
            _ => None,
        }
    }

    /// The command that is asked for, if it is one.
    pub(crate) fn command(self, alloc: Global) -> Result<Option<Command>, Refusal> {
        match self {
            Call::Create => Ok(Some(mover(alloc, Vec2 { x: 0, y: 1 << 24 })?)),
            Call::Step => Ok(Some(step())),
            Call::SolvedStep => Ok(Some(step())),
            _ => Ok(None),
        }
    }

    /// Whether it tells of calls that were made before it. Then a step is made first.
    fn looks_back(self) -> bool {
        match self {
            Call::Settle => true,
            Call::Frame => true,
            Call::Events => true,
            _ => false,
        }
    }

    /// How many entries the journal has after it.
    pub(crate) fn journal(self) -> usize {
        match self {
            Call::Open => 0,
            Call::Settle => 0,
            _ => 1,
        }
    }
}

pub(crate) fn step() -> Command {
    Command::Step(TICKS)
}

/// What the seat is answered, as text; `None` where memory was refused to the call. Memory may be refused between the
/// marks alone.
fn answer<T: Drop, S: Called<T>, R: Wait>(
    rt: &R,
    alloc: Global,
    shared: &S,
    seat: &mut T,
    call: Call,
) -> Result<Option<String>, Refusal> {
    match call {
        Call::Open => Ok(Some(String::new(alloc))),
        Call::Settle => {
            let mark = CallMark::begin(alloc);
            let settled = shared.settle(rt);
            let _was_there = mark.end();
            settle_text(alloc, settled)
        }
        Call::Frame => match shared.frame_text(rt, alloc, seat) {
            Ok(text) => Ok(Some(text?)),
            Err(refusal) => refused(refusal),
        },
        Call::Events => {
            let mark = CallMark::begin(alloc);
            let events = shared.events(rt, seat);
            let _was_there = mark.end();
            events_text(alloc, events)
        }
        Call::SolvedStep => {
            let mark = CallMark::begin(alloc);
            let answer = shared.step(rt, seat, &mut OneThread, TICKS);
            let _was_there = mark.end();
            answer_text(alloc, answer)
        }
        _ => command_text(rt, alloc, shared, seat, call),
    }
}

/// That memory was refused, or what else the call was refused.
fn refused(refusal: Refusal) -> Result<Option<String>, Refusal> {
    match refusal {
        Refusal::NoMemory => Ok(None),
        other => Err(other),
    }
}

fn settle_text(alloc: Global, settled: Result<u64, Refusal>) -> Result<Option<String>, Refusal> {
    match settled {
        Ok(count) => Ok(Some(format!(in alloc; "{count}")?)),
        Err(refusal) => refused(refusal),
    }
}

fn events_text(alloc: Global, events: Result<Events, Refusal>) -> Result<Option<String>, Refusal> {
    match events {
        Ok(events) => Ok(Some(text_of_events(alloc, &events)?)),
        Err(refusal) => refused(refusal),
    }
}

fn command_text<T: Drop, S: Called<T>, R: Wait>(
    rt: &R,
    alloc: Global,
    shared: &S,
    seat: &mut T,
    call: Call,
) -> Result<Option<String>, Refusal> {
    let Some(command) = call.command(alloc)? else {
        return Ok(None);
    };
    let mark = CallMark::begin(alloc);
    let answer = shared.call(rt, seat, command);
    let _was_there = mark.end();
    answer_text(alloc, answer)
}

fn answer_text(alloc: Global, answer: SeatAnswer) -> Result<Option<String>, Refusal> {
    match answer {
        Ok(answer) => Ok(Some(format!(in alloc; "{answer:?}")?)),
        Err(refusal) => refused(refusal),
    }
}

/// Makes the call, and once more if memory was refused to it. Tells `none` or `kept`, and what the seat was answered.
fn try_twice<T: Drop, S: Called<T>, R: Wait>(
    rt: &R,
    alloc: Global,
    shared: &S,
    seat: &mut T,
    call: Call,
) -> Result<String, Refusal> {
    if call.looks_back() {
        let _ = shared.call(rt, seat, step())?;
    }
    if let Some(told) = answer(rt, alloc, shared, seat, call)? {
        return Ok(format!(in alloc; "none {told}")?);
    }
    match answer(rt, alloc, shared, seat, call)? {
        Some(told) => Ok(format!(in alloc; "kept {told}")?),
        None => Ok(format!(in alloc; "refused again")?),
    }
}

/// The first seat makes the call, and the world is closed.
pub fn try_call<T: Drop, S: Called<T> + Shared<T>, R: Wait>(
    rt: &R,
    alloc: Global,
    shared: S,
    mut seats: Vec<T>,
    call: Call,
) -> Result<Left<S::World>, Refusal> {
    let told = match seats.first_mut() {
        Some(seat) => try_twice(rt, alloc, &shared, seat, call)?,
        None => return Err(Refusal::WrongSeats),
    };
    let mut left = close(shared, seats)?;
    left.seen.told = told;
    Ok(left)
}
