//! Two seats that take turns.

use crate::calls::{Called, Left, Shared, close};
use crate::texts::text_of_events;
use check_scenes::FIRST;
use std::alloc::Global;
use std::fmt::Write;
use std::sync::Wait;
use world_core::{Command, Handle, Refusal, Vec2};

/// Names no body.
const STALE: Handle = Handle {
    slot: 9,
    generation: 1,
};

/// Pushes a body, and tells the answer.
fn write_push<T: Drop, S: Called<T>, R: Wait>(
    rt: &R,
    told: &mut String,
    shared: &S,
    seat: &mut T,
    body: Handle,
    by: Vec2,
) -> Result<(), Refusal> {
    let answer = shared.call(rt, seat, Command::Push(body, by));
    writeln!(told, "push by seat {}: {answer:?}", S::number(seat))?;
    Ok(())
}

fn write_frame<T: Drop, S: Called<T>, R: Wait>(
    rt: &R,
    told: &mut String,
    shared: &S,
    seat: &mut T,
) -> Result<(), Refusal> {
    let shown = shared.look(rt, seat)?;
    let (calls, momentum) = (shown.calls, shown.momentum);
    writeln!(told, "frame of {calls} calls: {momentum:?}")?;
    Ok(())
}

fn write_events<T: Drop, S: Called<T>, R: Wait>(
    rt: &R,
    told: &mut String,
    shared: &S,
    seat: &mut T,
) -> Result<(), Refusal> {
    let events = shared.events(rt, seat)?;
    let text = text_of_events(*told.allocator(), &events)?;
    writeln!(told, "events: {text}")?;
    Ok(())
}

/// The first seat pushes three times, the journal is settled, the second seat pushes twice, the first is refused, and
/// both look.
fn write_turns<T: Drop, S: Called<T>, R: Wait>(
    rt: &R,
    told: &mut String,
    shared: &S,
    first: &mut T,
    second: &mut T,
) -> Result<(), Refusal> {
    for _ in 0..3 {
        write_push(rt, told, shared, first, FIRST, Vec2 { x: 1, y: 0 })?;
    }
    let settled = shared.settle(rt);
    writeln!(told, "settled: {settled:?}")?;
    for _ in 0..2 {
        write_push(rt, told, shared, second, FIRST, Vec2 { x: 0, y: 2 })?;
    }
    write_push(rt, told, shared, first, STALE, Vec2 { x: 1, y: 0 })?;
    write_frame(rt, told, shared, first)?;
    write_events(rt, told, shared, second)
}

/// Closes the world without its second seat, which is refused, and then with both.
fn close_late<T: Drop, S: Shared<T>>(
    shared: S,
    seats: Vec<T>,
    second: T,
    told: &mut String,
) -> Result<Left<S::World>, Refusal> {
    match shared.close(seats) {
        Ok(left) => Ok(left),
        Err((shared, mut seats, refusal)) => {
            let back = seats.len();
            writeln!(
                told,
                "closed without the second seat: {refusal:?}, seats back: {back}"
            )?;
            seats.push(second)?;
            close(shared, seats)
        }
    }
}

/// Lets two seats take turns, and closes the world. What is told is a line for each call.
pub fn take_turns<T: Drop, S: Called<T> + Shared<T>, R: Wait>(
    rt: &R,
    alloc: Global,
    shared: S,
    mut seats: Vec<T>,
) -> Result<Left<S::World>, Refusal> {
    let mut told = String::new(alloc);
    let Some(mut second) = seats.pop() else {
        return Err(Refusal::WrongSeats);
    };
    match seats.first_mut() {
        Some(first) => write_turns(rt, &mut told, &shared, first, &mut second)?,
        None => return Err(Refusal::WrongSeats),
    }
    let mut left = close_late(shared, seats, second, &mut told)?;
    left.seen.told = told;
    Ok(left)
}
