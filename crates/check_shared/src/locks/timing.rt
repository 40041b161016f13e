//! How long pushes take.

use crate::calls::Shut;
use crate::replay::left_in;
use crate::timing::{now, print_each};
use check_scenes::{FIRST, Stop, World};
use std::time::Clock;
use world_core::{Command, Refusal, Vec2};

/// Pushes the first body so many times, in a world that nobody shares.
fn push_alone<W: World>(world: &mut W, times: u64) -> Result<(), Refusal> {
    for _ in 0..times {
        let _ = world.apply(&Command::Push(FIRST, Vec2 { x: 1, y: 0 }))?;
    }
    Ok(())
}

/// Prints how long so many pushes take of a world that nobody shares.
pub fn time_alone<W: World, R: Print + Clock>(
    rt: &R,
    world: &mut W,
    pushes: u64,
) -> Result<(), Stop> {
    let start = now(rt);
    push_alone(world, pushes)?;
    print_each(rt, "apply", now(rt).saturating_sub(start), pushes)
}

/// Prints how long so many pushes took of seats whose world is closed again.
pub fn print_time<W: World, R: Print>(
    rt: &R,
    name: &str,
    shut: Shut<W>,
    pushes: u64,
) -> Result<(), Stop> {
    match left_in(shut) {
        Ok(left) => print_each(rt, name, left.seen.nanos, pushes),
        Err(refusal) => Err(Stop::Refused(refusal)),
    }
}
