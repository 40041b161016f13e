//! A game's loop over a world, with `world_core` and nothing beside it: it makes the bodies of a scene, and then, a
//! frame at a time, does what the player wants, lets ticks pass, hears which shapes met, and looks where the bodies
//! are.
//!
//! Nothing that the world refuses is passed over: a refusal that the game reckons with is told and the game goes on,
//! and any other ends it with a line on standard error and status 1. `docs/EMBEDDING.md` walks through it.
#![tactic(auto)]

mod calls;
mod game;
mod scene;
mod stop;

use game::play;
use scene::{GRAVITY, make_scene};
use std::process::ExitCode;
use stop::Stop;
use world_core::WorldCore;

/// The game in a world of its own.
fn play_in<R: AllocGlobal + Print>(rt: &R, world: &mut WorldCore) -> Result<(), Stop> {
    let cast = make_scene(rt, world)?;
    play(rt, world, &cast)
}

fn start<R: AllocGlobal + Print>(rt: &R) -> Result<(), Stop> {
    let mut world = calls::new_world(rt.alloc(), GRAVITY)?;
    play_in(rt, &mut world)
}

fn main(rt: HostRuntime) -> ExitCode {
    match start(&rt) {
        Ok(()) => ExitCode::SUCCESS,
        Err(stop) => {
            let _ = eprintln!(rt; "{stop}");
            ExitCode::from(1)
        }
    }
}
