//! The game: its frames, and what the player does in them.

use crate::calls::{apply, body_in, meetings_of, slots_of, view_of};
use crate::scene::{Cast, METRE};
use crate::stop::Stop;
use std::io;
use world_core::{BodyView, Command, ContactKey, Handle, Refusal, SetName, Vec2, WorldCore};

/// How many frames the game has, at 60 a second.
const FRAMES: u32 = 240;

/// How many ticks pass a frame.
const TICKS: i64 = 4;

/// After how many frames the bodies are shown.
const SHOWN_EACH: u32 = 40;

/// The frames in which the player kicks the coin.
const KICKS: [u32; 2] = [20, 200];

/// The impulse of a kick, in mass·u/tick.
const KICK: Vec2 = Vec2 {
    x: 20_000,
    y: 40_000,
};

/// A hundredth of a metre, in u.
const CENTIMETRE: i64 = METRE / 100;

/// What the player wants in this frame: a kick of the coin, which may be gone by then. Its id names no other body, and
/// the refusal says so.
fn control<R: Print>(rt: &R, world: &mut WorldCore, cast: &Cast, frame: u32) -> Result<(), Stop> {
    if !KICKS.contains(&frame) {
        return Ok(());
    }
    match apply(world, &Command::Push(cast.coin, KICK)) {
        Ok(_) => println!(rt; "{frame}: the coin is kicked")?,
        Err(Refusal::StaleHandle) => println!(rt; "{frame}: there is no coin to kick")?,
        Err(refusal) => return Err(Stop::Refused(refusal)),
    }
    Ok(())
}

/// Whether these two shapes are of these two bodies.
fn is_between(key: ContactKey, one: Handle, other: Handle) -> bool {
    let (first, second) = (key.first.slot, key.second.slot);
    (first == one.slot && second == other.slot) || (first == other.slot && second == one.slot)
}

/// Tells which shapes began to touch. Answers whether the ball met the coin.
fn hear<R: Print>(rt: &R, world: &WorldCore, cast: &Cast, frame: u32) -> io::Result<bool> {
    let mut taken = false;
    for key in meetings_of(world) {
        let first = cast.name_of(key.first.slot);
        let second = cast.name_of(key.second.slot);
        println!(rt; "{frame}: {first} meets {second}")?;
        if is_between(*key, cast.ball, cast.coin) {
            taken = true;
        }
    }
    Ok(taken)
}

/// Takes the coin away, whose id names nothing from then on.
fn take_coin<R: Print>(rt: &R, world: &mut WorldCore, cast: &Cast, frame: u32) -> Result<(), Stop> {
    apply(world, &Command::DestroyBody(cast.coin))?;
    if view_of(world, cast.coin).is_none() {
        println!(rt; "{frame}: the coin is taken")?;
    }
    Ok(())
}

/// Tells where a body is, in hundredths of a metre.
fn show<R: Print>(rt: &R, name: &str, body: &BodyView) -> io::Result<()> {
    let (x, y) = (body.at.x / CENTIMETRE, body.at.y / CENTIMETRE);
    println!(rt; "   {name} is at {x}, {y} cm")
}

/// Tells where each body is that isn't static: a walk over the bodies without a copy.
fn show_all<R: Print>(rt: &R, world: &WorldCore, cast: &Cast) -> io::Result<()> {
    for slot in 0..slots_of(world) {
        if let Some(body) = body_in(world, slot) {
            if body.set != SetName::Static {
                show(rt, cast.name_of(slot), &body)?;
            }
        }
    }
    Ok(())
}

/// One frame: what the player wants, the ticks, what is heard, and what is seen.
fn play_frame<R: Print>(
    rt: &R,
    world: &mut WorldCore,
    cast: &Cast,
    frame: u32,
) -> Result<(), Stop> {
    control(rt, world, cast, frame)?;
    apply(world, &Command::Step(TICKS))?;
    if hear(rt, world, cast, frame)? {
        take_coin(rt, world, cast, frame)?;
    }
    if frame % SHOWN_EACH == 0 {
        println!(rt; "{frame}:")?;
        show_all(rt, world, cast)?;
    }
    Ok(())
}

/// The whole game.
pub fn play<R: Print>(rt: &R, world: &mut WorldCore, cast: &Cast) -> Result<(), Stop> {
    for frame in 1..=FRAMES {
        play_frame(rt, world, cast, frame)?;
    }
    Ok(())
}
